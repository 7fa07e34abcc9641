//! That the headline comes of what a run promises.

ghost use Rattle.sbpl_headline.specs.Law.{PromisesShowHeadline};

use sbpl_promises::words_part_into_forms;

/// What a run promises shows the headline, in its own plain words. It does nothing.
pub fn promises_show_the_headline()
    ensures law { PromisesShowHeadline }
{
    words_part_into_forms();
}
