//! Why a lattice can't be made.

use sbpl_sweep::NoMemory;
use thiserror::Error;

/// Why a lattice can't be made.
#[derive(Clone, Copy, Debug, PartialEq, Eq, Error)]
pub enum LatticeFault {
    /// The first primitive, by its index in the file, that costs more than `MOST_COST`.
    #[error("primitive {0} is too dear")]
    TooDear(u32),
    /// Memory ran out.
    #[error("out of memory")]
    NoMemory,
}

impl From<NoMemory> for LatticeFault {
    ghost use Rattle.std.specs.Prelude.{◌≡◌};
    ghost use Rattle.sbpl_cost.specs.declared.fault.LatticeFault.TheVariants as fault;

    ghost from_gives = { λ _ e. e ≡ fault.NoMemory };

    fn from(_error: NoMemory) -> LatticeFault {
        LatticeFault::NoMemory
    }
}
