//! The reversed graph of a lattice.

ghost use Rattle.std.specs.Prelude.{◌≡◌};

use sbpl_cost::{Graph, Lattice, lattice_has_its_tails};
use std::marker::Model;

/// The reversed graph of a lattice: arc `j` of a state is its tail `j` in the lattice, which leads to the tail's source and is free
/// and costs where the lattice's arc is and does. Tail `k` of a state is its arc `k` in the lattice. Gaps are 0: a search over this
/// graph takes `FromStart`. No call takes memory.
#[derive(Drop)]
pub struct Back<'a> {
    pub(crate) lattice: &'a Lattice,
}

impl<'a> Model for Back<'a> {
    ghost use Rattle.sbpl_cost.specs.Lattices.{network_of};
    ghost use Rattle.sbpl_cost.specs.World.{World};
    ghost use Rattle.sbpl_cost.specs.sbpl_graph.Laws.{HasExactTails};

    ghost Value = { World };

    ghost view = { λ b. b.lattice.now };

    ghost invariant = { λ b. HasExactTails (network_of b.lattice.now) };
}

impl<'a> Back<'a> {
    /// The reversed graph of this lattice.
    pub fn new(lattice: &'a Lattice) -> Back<'a>
        ensures lattice { result ≡ lattice.now }
    {
        // That its tails are its arcs is in the invariant: so a call that asks for an arc as a tail need not learn it again.
        let _states = lattice.states();
        Back { lattice }
    }
}

impl<'a> Graph for Back<'a> {
    ghost use Rattle.sbpl_cost.specs.Lattices.{network_of};
    ghost use Rattle.sbpl_back.specs.Reversed.{reversed};

    ghost network = { λ w. reversed (network_of w) };

    fn states(&self) -> u32 {
        self.lattice.states()
    }

    fn fan(&self, s: u32) -> u32 {
        self.lattice.tail_fan(s)
    }

    fn head(&self, s: u32, k: u32) -> Option<u32> {
        let Some((source, _number)) = self.lattice.tail(s, k) else {
            return None;
        };
        Some(source)
    }

    fn judge(&self, s: u32, k: u32) -> Option<u32> {
        let Some((source, number)) = self.lattice.tail(s, k) else {
            return None;
        };
        self.lattice.judge(source, number)
    }

    fn floor(&self, s: u32, k: u32) -> u32 {
        let Some((source, number)) = self.lattice.tail(s, k) else {
            return 1;
        };
        self.lattice.floor(source, number)
    }

    fn tail_fan(&self, t: u32) -> u32 {
        self.lattice.fan(t)
    }

    fn tail(&self, t: u32, j: u32) -> Option<(u32, u32)> {
        self.lattice.as_tail(t, j)
    }

    fn gap(&self, _a: u32, _b: u32) -> u64 {
        0
    }
}
