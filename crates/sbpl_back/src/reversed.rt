//! The reversed lattice as something that plans are made and repaired on.

ghost use Rattle.std.specs.Prelude.{◌≡◌};

use crate::back::Back;
use sbpl_cost::{ArcEnd, Graph, Lattice, Map, NoMemory, OffMap, Terrain};
use std::marker::Model;

/// A lattice that is searched the other way round, as `Back` has it, with its map: what plans from the goal back to the
/// robot are made and repaired on. It owns the lattice. `ends_reading` takes memory for the list that it adds to, and no
/// other call takes any.
#[derive(Drop)]
pub struct Reversed {
    pub(crate) lattice: Lattice,
}

impl Model for Reversed {
    ghost use Rattle.sbpl_cost.specs.Lattices.{network_of};
    ghost use Rattle.sbpl_cost.specs.World.{World};
    ghost use Rattle.sbpl_cost.specs.sbpl_graph.Laws.{HasExactTails};

    ghost Value = { World };

    ghost view = { λ r. r.lattice };

    ghost invariant = { λ r. HasExactTails (network_of r.lattice) };
}

impl Reversed {
    /// This lattice, the other way round. It takes no memory.
    pub fn new(lattice: Lattice) -> Reversed
        ensures lattice { result ≡ lattice }
    {
        // That its tails are its arcs is in the invariant: so a call that asks for an arc as a tail need not learn it again.
        let _states = lattice.states();
        Reversed { lattice }
    }

    /// The lattice.
    pub fn lattice(&self) -> &Lattice
        ensures lattice { result.now ≡ self.now }
    {
        &self.lattice
    }

    /// The reversed graph.
    fn back(&self) -> Back<'_>
        ensures graph { result ≡ self.now }
    {
        Back {
            lattice: &self.lattice,
        }
    }
}

impl Graph for Reversed {
    ghost use Rattle.sbpl_cost.specs.Lattices.{network_of};
    ghost use Rattle.sbpl_back.specs.Reversed.{reversed};

    ghost network = { λ w. reversed (network_of w) };

    fn states(&self) -> u32 {
        self.back().states()
    }

    fn fan(&self, s: u32) -> u32 {
        self.back().fan(s)
    }

    fn head(&self, s: u32, k: u32) -> Option<u32> {
        self.back().head(s, k)
    }

    fn judge(&self, s: u32, k: u32) -> Option<u32> {
        self.back().judge(s, k)
    }

    fn floor(&self, s: u32, k: u32) -> u32 {
        self.back().floor(s, k)
    }

    fn tail_fan(&self, t: u32) -> u32 {
        self.back().tail_fan(t)
    }

    fn tail(&self, t: u32, j: u32) -> Option<(u32, u32)> {
        self.back().tail(t, j)
    }

    fn gap(&self, a: u32, b: u32) -> u64 {
        self.back().gap(a, b)
    }
}

impl Terrain for Reversed {
    ghost use Rattle.sbpl_cost.specs.Cells.{lattice_cells};
    ghost use Rattle.sbpl_cost.specs.Lattices.{network_of};
    ghost use Rattle.sbpl_back.specs.ReversedCells.{reversed_cells};

    ghost cells = { reversed_cells network_of lattice_cells };

    fn map(&self) -> &Map {
        self.lattice.map()
    }

    fn set(&mut self, x: i64, y: i64, c: u8) -> Result<u8, OffMap> {
        let was = <Lattice as Terrain>::set(&mut self.lattice, x, y, c);
        let _states = self.lattice.states();
        was
    }

    fn ends_reading(
        &self,
        x: u32,
        y: u32,
        end: ArcEnd,
        into: &mut Vec<u32>,
    ) -> Result<(), NoMemory> {
        // An arc comes from where the lattice's arc leads.
        let _states = self.lattice.states();
        <Lattice as Terrain>::ends_reading(&self.lattice, x, y, end.other(), into)
    }

    fn is_terrain() {
        Lattice::is_terrain();
    }
}
