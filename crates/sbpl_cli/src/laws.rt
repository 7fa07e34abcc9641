//! A law of what the program promises.

ghost use Rattle.sbpl_cli.specs.Answered.{AreAnsweredAtOnce};

use sbpl_headline::promises_show_the_headline;
use sbpl_laws::runs_keep_promises;

/// Where memory runs out before anything is read, written or published, the status of that keeps every promise. It does nothing.
pub fn runs_may_end_at_once()
    ensures law { AreAnsweredAtOnce }
{
    runs_keep_promises();
    promises_show_the_headline();
}
