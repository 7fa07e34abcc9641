//! Why the cells of a motion are not listed.

use sbpl_mprim::NoMemory;

/// Why the cells of a motion are not listed.
#[derive(Clone, Copy)]
pub(crate) enum SweepStop {
    /// They are more than a motion may sweep.
    TooMany,
    /// Memory ran out.
    NoMemory,
}

impl From<NoMemory> for SweepStop {
    ghost use Rattle.std.specs.Prelude.{◌≡◌};
    ghost use Rattle.sbpl_sweep.specs.declared.stop.SweepStop.TheVariants as stop;

    ghost from_gives = { λ _ e. e ≡ stop.NoMemory };

    fn from(_error: NoMemory) -> SweepStop {
        SweepStop::NoMemory
    }
}
