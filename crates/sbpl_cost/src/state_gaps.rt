//! The gaps of a lattice by themselves.

ghost use Rattle.std.specs.Prelude.{◌≡◌, ◌<◌};
ghost use Rattle.sbpl_cost.specs.Rates.{state_gap};
ghost use Rattle.sbpl_cost.specs.States.{state_count};

use crate::gaps::Gaps;
use crate::places::place_at;
use sbpl_sweep::Env;
use std::marker::Model;

/// What going from one state of a lattice to another costs at least, on each of its maps. It is a few numbers and borrows
/// nothing, so a guide that needs no more of the lattice can keep it. No call takes memory.
#[derive(Drop)]
pub struct StateGaps {
    pub(crate) env: Env,
    pub(crate) rates: Gaps,
}

impl Model for StateGaps {
    ghost use Rattle.sbpl_cost.specs.Rates.{GapTable, table_of};

    ghost Value = { GapTable };

    ghost view = { λ g. table_of g.env g.rates };
}

impl StateGaps {
    /// What going from state `a` to state `b` costs at least, in the units of the costs of arcs. Besides finding the places of
    /// both states it takes at most three divisions.
    pub fn between(&self, a: u32, b: u32) -> u64
        requires a { a < state_count self.now.env }
        requires b { b < state_count self.now.env }
        ensures value { result ≡ state_gap self.now a b }
    {
        let from = place_at(&self.env, a);
        let to = place_at(&self.env, b);
        self.rates.between(&self.env, &from, &to)
    }
}
