//! The best heuristic: the cell bound joined with the gap.

ghost use Rattle.std.specs.Prelude.{◌≡◌, ℕ, ◌*◌, ◌^◌, ◌<◌, ◌≤◌, IfOk, length, slice_index};
ghost use Rattle.sbpl_cost.specs.World.{World};
ghost use Rattle.sbpl_cost.specs.Lattices.{network_of};
ghost use Rattle.sbpl_heur.specs.Boards.{cell_count};
ghost use Rattle.sbpl_heur.specs.Followed.{distance};
ghost use Rattle.sbpl_heur.specs.Bests.{IsBest, IsGuide, Fits, distance_in};

use crate::cap::{cap, turn};
use crate::hop::Hop;
use crate::hops::list_hops;
use crate::walks::Walks;
use sbpl_cost::{Env, Heuristic, Lattice, lattice_has_its_arcs};
use sbpl_serial::{Graph, Guide, NoMemory};
use std::alloc::Global;
use std::marker::Model;

/// The best heuristic for a goal on a lattice: at each state the greater of two lower bounds on the cost to the goal.
/// One is the least weight of a walk of cells to the goal's cell on the present map, where a step costs the least
/// primitive that moves so times one more than the greater of its two cells' costs; cells without a walk have the
/// greatest bound that a cell with a walk has, and no bound is above 2^55 - 1. The other is the lattice's gap to the goal.
/// Only `build` takes memory.
#[derive(Drop)]
pub struct Best {
    goal: u32,
    /// The pairs by which primitives move, with room for one of each primitive.
    hops: Vec<Hop>,
    /// The least weights of walks of cells to the goal's cell.
    walks: Walks,
    /// For each cell the greater of its bound and of its gap to the goal.
    cells: Vec<u64>,
    /// For each heading the gap to the goal by turning.
    turns: Vec<u64>,
}

impl Model for Best {
    ghost use Rattle.std.specs.Prelude.{vec_capacity};
    ghost use Rattle.sbpl_heur.specs.Bests.{Table};

    ghost Value = { Table };

    ghost use Rattle.sbpl_heur.specs.Bests.{AreParts};

    ghost view = { λ b. record { goal = b.goal; cells = b.cells.items; turns = b.turns.items; room = vec_capacity b.hops } };

    ghost invariant = { λ b. AreParts (record {
      goal = b.goal;
      cells = b.cells.items;
      turns = b.turns.items;
      room =
          vec_capacity b.hops;
    }) b.walks };
}

/// The number of headings.
fn headings_of(env: &Env) -> u32
    ensures value { result ≡ env.now.headings }
    ensures some { 1 ≤ result }
{
    env.headings
}

/// The number of cells.
fn cells_of(env: &Env) -> u32
    ensures cells { result ≡ env.now.width * env.now.height }
{
    env.width * env.height
}

/// Writes for each cell the least weight of a walk from it.
fn weigh(walks: &Walks, distances: &mut Vec<u64>)
    requires size { length distances.old.items ≡ cell_count walks.now.board }
    requires few { length distances.old.items ≤ 2 ^ 28 }
    ensures size { length distances.new.items ≡ length distances.old.items }
    ensures weights { (a : ℕ) → a < length distances.old.items
        → slice_index distances.new.items a ≡ distance walks.now a }
{
    for cell in 0..distances.len() as u32 {
        distances[cell as usize] = walks.weight(cell);
    }
}

impl Best {
    /// The best heuristic for a goal on the present map of a lattice.
    pub fn build(alloc: Global, lattice: &Lattice, goal: u32) -> Result<Best, NoMemory>
        requires goal { goal < (network_of lattice.now).states }
        ensures best { IfOk result (λ b. IsBest lattice.now goal (distance_in b)) }
        ensures guides { IfOk result (λ b. IsGuide (network_of lattice.now) goal b) }
        ensures goal { IfOk result (λ b. b.goal ≡ goal) }
        ensures fits { IfOk result (λ b. Fits lattice.now b) }
    {
        let env = lattice.env();
        let headings = headings_of(env);
        let room = lattice.prims().len();
        let hops = Vec::with_capacity(alloc, room as usize)?;
        let cells = vec![in alloc; 0; cells_of(env) as usize]?;
        let turns = vec![in alloc; 0; headings as usize]?;
        let costs = lattice.map().costs();
        let walks = Walks::new(alloc, env, costs, goal / headings, room)?;
        let mut best = Best {
            goal,
            hops,
            walks,
            cells,
            turns,
        };
        best.rebuild(lattice);
        Ok(best)
    }

    /// Makes the heuristic anew for the present map of a lattice, which has the size and the primitives that the
    /// heuristic was built for. It takes no memory.
    pub fn rebuild(&mut self, lattice: &Lattice)
        requires fits { Fits lattice.now self.old }
        ensures best { IsBest lattice.now self.old.goal (distance_in self.new) }
        ensures guides { IsGuide (network_of lattice.now) self.old.goal self.new }
        ensures goal { self.new.goal ≡ self.old.goal }
        ensures fits { (w : World) → Fits w self.old → Fits w self.new }
    {
        lattice_has_its_arcs();
        let _states = lattice.states();
        let env = lattice.env();
        let headings = headings_of(env);
        list_hops(lattice, &mut self.hops);
        self.walks
            .follow(env, lattice.map().costs(), self.hops.as_slice());
        weigh(&self.walks, &mut self.cells);
        cap(lattice, headings, self.goal, &mut self.cells);
        turn(lattice, headings, self.goal, &mut self.turns);
    }
}

impl Heuristic<Lattice> for Best {
    ghost use Rattle.std.specs.Prelude.{true};
    ghost use Rattle.sbpl_heur.specs.Followed.{distance};
    ghost use Rattle.sbpl_heur.specs.Bests.{IsBestGuide};

    ghost is_made_for = { λ b w goal. IsBestGuide w goal b };

    ghost takes_memory = { true };

    fn build(alloc: Global, lattice: &Lattice, goal: u32) -> Result<Best, NoMemory> {
        Best::build(alloc, lattice, goal)
    }

    fn rebuild(&mut self, lattice: &Lattice) {
        Best::rebuild(self, lattice);
    }

    ghost guides_there = { λ b w goal made. made.guides };
}

impl Guide for Best {
    ghost use Rattle.std.specs.Prelude.{◌<◌, ◌/◌, ◌%◌, length};
    ghost use Rattle.std.proofs.Common.{arith, subst};
    ghost use Rattle.sbpl_heur.specs.Bests.{distance_in, IsKnown, IsGuide};

    ghost distance = { distance_in };

    ghost knows = { IsKnown };

    ghost guides = { λ b n goal. IsGuide n goal b };

    ghost consistent = { λ b n goal h. h.consistent };

    ghost covered = { λ b n goal s guide state. subst (λ count. s < count) guide.states state };

    ghost bounded = { λ b n goal s guide state. Prim.omega (arith, guide.table.cells (s / length b.turns), guide.table.turns (s % length b.turns)) };

    fn to_goal(&self, s: u32) -> u64 {
        let headings = self.turns.len() as u32;
        let cell = self.cells[(s / headings) as usize];
        cell.max(self.turns[(s % headings) as usize])
    }
}
