//! Why sweeps can't be made.

use sbpl_mprim::NoMemory;
use thiserror::Error;

/// Why sweeps can't be made.
#[derive(Clone, Copy, Debug, PartialEq, Eq, Error)]
pub enum SweepFault {
    /// The first primitive, by its index in the file, that sweeps more than 65,536 cells or with which the sum of swept
    /// cells passes 2^22.
    #[error("primitive {0} is too wide")]
    TooWide(u32),
    /// Memory ran out.
    #[error("out of memory")]
    NoMemory,
}

impl From<NoMemory> for SweepFault {
    ghost use Rattle.std.specs.Prelude.{◌≡◌};
    ghost use Rattle.sbpl_sweep.specs.declared.fault.SweepFault.TheVariants as fault;

    ghost from_gives = { λ _ e. e ≡ fault.NoMemory };

    fn from(_error: NoMemory) -> SweepFault {
        SweepFault::NoMemory
    }
}
