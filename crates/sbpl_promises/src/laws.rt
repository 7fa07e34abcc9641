//! That a cause of a refusal stands where more has failed.

ghost use Rattle.sbpl_promises.specs.Causes.{CausesStand};

/// The cause of a job's refusal stands as well where other reads have failed: only a refusal for a failed read asks which. It does
/// nothing.
pub fn causes_stand()
    ensures law { CausesStand }
{}
