//! How a path is to be searched where some settings count for one plan alone.

ghost use Rattle.std.specs.Prelude.{◌≡◌};
ghost use Rattle.sbpl_job.specs.Jobs.{IsSearchJob};
ghost use Rattle.sbpl_live.specs.Wanted.{AreWantsInRange, wanted};

use crate::spoken::Wants;
use sbpl_job::SearchJob;

/// How the path of one plan is to be searched: by the settings that are given for it, and otherwise by those of the job. Seconds
/// are no setting of a job.
pub fn wanted(how: &SearchJob, wants: &Wants) -> SearchJob
    ensures search { result ≡ wanted how.now wants.now }
    // Where the settings are in their ranges, those of the plan are.
    ensures range { IsSearchJob how.now → AreWantsInRange wants.now → IsSearchJob result }
{
    SearchJob {
        first: wants.first.unwrap_or(how.first),
        step: wants.step.unwrap_or(how.step),
        bound: wants.bound.unwrap_or(how.bound),
        budget: wants.budget.unwrap_or(how.budget),
        ..*how
    }
}
