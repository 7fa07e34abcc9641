//! The list of pairs by which primitives move.

ghost use Rattle.std.specs.Prelude.{◌≡◌, ◌<◌, ◌≤◌, ◌↔◌, IsTrue, MatchOption, length, vec_capacity};
ghost use Rattle.sbpl_heur.specs.Walks.{Moves};
ghost use Rattle.sbpl_heur.specs.Hops.{AreHops, HasNoPair, HasPairAt, Includes, IsHopOf};

use crate::hop::Hop;
use sbpl_cost::Lattice;

/// Whether a hop leads to another cell.
fn moves(hop: &Hop) -> bool
    ensures moves { IsTrue result ↔ Moves hop.now.dx hop.now.dy }
{
    hop.dx != 0 || hop.dy != 0
}

/// Where the list has the pair of a hop.
fn place_of_pair(hops: &[Hop], hop: &Hop) -> Option<usize>
    ensures pair { MatchOption result (HasNoPair hops.now hop.now) (λ j. HasPairAt hops.now hop.now j) }
{
    for (j, known) in hops.iter().enumerate() {
        if known.dx == hop.dx && known.dy == hop.dy {
            return Some(j);
        }
    }
    None
}

/// Lowers the cost of the hop's pair in the list, or adds the hop where the list does not have its pair.
fn include(hops: &mut Vec<Hop>, hop: Hop)
    requires room { length hops.old.items < vec_capacity hops.old }
    ensures includes { Includes hops.old.items hops.new.items hop }
    ensures room { vec_capacity hops.new ≡ vec_capacity hops.old }
{
    let Some(j) = place_of_pair(hops.as_slice(), &hop) else {
        hops.push_reserved(hop);
        return;
    };
    let known = &mut hops[j];
    known.cost = known.cost.min(hop.cost);
}

/// The motion by the primitive at index `i` of the file, as a hop.
fn hop_of(lattice: &Lattice, i: u32) -> Hop
    requires place { i < length lattice.now.prims.items }
    ensures hop { IsHopOf lattice.now.env lattice.now.prims.items i result }
{
    let prim = lattice.prims().get(i);
    Hop {
        dx: prim.dx,
        dy: prim.dy,
        cost: lattice.cost_of(i),
    }
}

/// Lists each pair by which a primitive of the lattice moves to another cell, with its least cost.
pub(crate) fn list_hops(lattice: &Lattice, hops: &mut Vec<Hop>)
    requires room { length lattice.now.prims.items ≤ vec_capacity hops.old }
    ensures hops { AreHops lattice.now.env lattice.now.prims.items hops.new.items }
    ensures few { length hops.new.items ≤ length lattice.now.prims.items }
    ensures room { vec_capacity hops.new ≡ vec_capacity hops.old }
{
    hops.clear();
    for i in 0..lattice.prims().len() {
        let hop = hop_of(lattice, i);
        if moves(&hop) {
            include(hops, hop);
        }
    }
}
