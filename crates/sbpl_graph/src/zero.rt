//! The guide that knows nothing.

ghost use Rattle.std.specs.Prelude.{◌≡◌};

use crate::Guide;

/// The guide that is 0 at every state. It fits every graph and every goal.
#[derive(Clone, Copy, Debug, PartialEq, Eq)]
pub struct Zero;

impl Guide for Zero {
    ghost use Rattle.std.specs.Prelude.{ℕ};
    ghost use Rattle.std.proofs.Common.{arith, refl};

    ghost distance = { λ _ _. 0 };

    ghost knows = { λ _ _. Unit {0} };

    ghost guides = { λ _ _ _. Unit {0} };

    ghost consistent = { λ _ _ _ _. record { at_goal = refl; along = λ _ _ _ _ _. Prim.omega arith } };

    ghost covered = { λ _ _ _ _ _ _. tt };

    ghost bounded = { λ _ _ _ _ _ _. Prim.omega arith };

    fn to_goal(&self, _s: u32) -> u64 {
        0
    }
}
