//! Who is told of paths while a plan is made.

ghost use Rattle.std.specs.Prelude.{◌≡◌, ◌≤◌, ◌<◌, ◌+◌, ◌^◌, ℕ};
ghost use Rattle.sbpl_plan.specs.declared.found.Found.TheVariants as Found;
ghost use Rattle.sbpl_plan.specs.Observed.{IsTold};

use crate::found::Found;

/// Someone who is told of each path as soon as the walk of a pass has given it, while the planner works on.
pub trait Observer {
    /// An observer is told of the path of a pass, by the pass's number, the path's cost and its bound, and becomes another.
    ghost told: { Self → ℕ → ℕ → ℕ → Self → Type 0 };

    /// Of how many more paths it can be told. A plan tells at most 99,001: one for each pass, since the first inflation is at most
    /// 100.000 and falls by at least 0.001.
    ghost room: { Self → ℕ };

    /// Tells of the path that the walk of this pass gave: its cost, and its bound in thousandths. The first pass of a plan is 0.
    fn path_found(&mut self, pass: u32, cost: u64, bound: u128)
        requires room { 1 ≤ room self.old }
        requires bound { bound < 2 ^ 100 }
        ensures told { told self.old pass cost bound self.new }
        ensures room { room self.old ≤ room self.new + 1 };
}

/// Tells an observer of what the walk of a pass gave, where it is a path.
pub(crate) fn tell<O: Observer>(observer: &mut O, pass: u32, found: Found)
    requires room { 1 ≤ O.room observer.old }
    requires bound { (cost bound : ℕ) → found ≡ Found.Path cost bound → bound < 2 ^ 100 }
    ensures told { IsTold O.told pass found observer.old observer.new }
    ensures room { O.room observer.old ≤ O.room observer.new + 1 }
{
    if let Found::Path { cost, bound } = found {
        observer.path_found(pass, cost, bound);
    }
}

/// An observer that is told everything and does nothing.
#[derive(Clone, Copy, Debug, Default)]
pub struct Nobody;

impl Observer for Nobody {
    ghost use Rattle.std.specs.Prelude.{◌^◌};

    ghost told = { λ old pass cost bound new. Unit {0} };

    ghost room = { λ a. 2 ^ 32 };

    fn path_found(&mut self, _pass: u32, _cost: u64, _bound: u128) {}
}
