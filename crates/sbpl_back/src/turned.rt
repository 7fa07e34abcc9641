//! A path of the reversed graph, turned round.

ghost use Rattle.std.specs.Prelude.{ℕ, ◌<◌, IfOk};
ghost use Rattle.sbpl_cost.specs.Lattices.{network_of};
ghost use Rattle.sbpl_cost.specs.sbpl_graph.Path.{IsFreePath};
ghost use Rattle.sbpl_back.specs.Reversed.{IsPathTurned, reversed};

use sbpl_cost::{Graph, Lattice, NoMemory};
use std::alloc::Global;

/// The arcs of a free path of the reversed graph from state `from`, turned round: a free path of the lattice that leads to
/// `from`, at the same cost.
pub fn turned_round(
    alloc: Global,
    lattice: &Lattice,
    from: u32,
    path: &[u32],
) -> Result<Vec<u32>, NoMemory>
    requires path { (s : ℕ) × (c : ℕ) × IsFreePath (reversed (network_of lattice.now)) from path.now s c }
    ensures turned { (s c : ℕ) → IsFreePath (reversed (network_of lattice.now)) from path.now s c
        → IfOk result (λ arcs. IsPathTurned (network_of lattice.now) from path.now s c arcs.items) }
{
    let _states = lattice.states();
    let mut arcs = Vec::with_capacity(alloc, path.len())?;
    let mut at = from;
    for number in path {
        let (source, arc) = lattice.tail(at, *number).unwrap();
        arcs.push(arc)?;
        at = source;
    }
    arcs.reverse();
    Ok(arcs)
}
