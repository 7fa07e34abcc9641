//! From the distances of cells to the bounds that a heuristic answers.

ghost use Rattle.std.specs.Prelude.{◌≡◌, ◌+◌, ◌*◌, ◌^◌, ◌<◌, ◌≤◌, length, slice_index};
ghost use Rattle.sbpl_serial.specs.sbpl_graph.Laws.{IsSound};
ghost use Rattle.sbpl_cost.specs.Lattices.{network_of};
ghost use Rattle.sbpl_heur.specs.Caps.{IsFarthestReached, IsCapped, AreTurns};

use sbpl_cost::Lattice;
use sbpl_serial::{FAR, Graph};

/// The greatest cell bound. A least way of 2^55 milliseconds takes a million years, and so great a bound still leaves room for keys,
/// which weigh it by the inflation. The lesser of a consistent heuristic and a constant is consistent.
pub(crate) const MOST: u64 = (1 << 55) - 1;

/// The greatest distance of a cell that was reached, or 0 where none was.
fn farthest(distances: &[u64]) -> u64
    ensures farthest { IsFarthestReached (slice_index distances.now) (length distances.now) result }
{
    let mut most = 0;
    for distance in distances {
        if *distance < FAR {
            most = most.max(*distance);
        }
    }
    most
}

/// The gap to the goal from a cell with a heading.
fn gap_from(lattice: &Lattice, headings: u32, cell: u32, heading: u32, goal: u32) -> u64
    requires headings { headings ≡ lattice.now.env.headings }
    requires cell { cell < lattice.now.env.width * lattice.now.env.height }
    requires heading { heading < headings }
    requires sound { IsSound (network_of lattice.now) }
    requires goal { goal < (network_of lattice.now).states }
    ensures value { result ≡ (network_of lattice.now).gap (cell * headings + heading) goal }
    ensures small { result < 2 ^ 55 }
{
    lattice.gap(cell * headings + heading, goal)
}

/// Caps each distance at the greatest of a cell that was reached, and at `MOST`, and raises it to the gap that the cell alone makes.
pub(crate) fn cap(lattice: &Lattice, headings: u32, goal: u32, distances: &mut Vec<u64>)
    requires headings { headings ≡ lattice.now.env.headings }
    requires cells { length distances.old.items ≡ lattice.now.env.width * lattice.now.env.height }
    requires sound { IsSound (network_of lattice.now) }
    requires goal { goal < (network_of lattice.now).states }
    requires some { 1 ≤ headings }
    requires few { length distances.old.items ≤ 2 ^ 28 }
    ensures capped { IsCapped lattice.now goal distances.old.items distances.new.items }
{
    let most = farthest(distances.as_slice()).min(MOST);
    for cell in 0..distances.len() as u32 {
        let gap = gap_from(lattice, headings, cell, goal % headings, goal);
        let distance = &mut distances[cell as usize];
        *distance = (*distance).min(most).max(gap);
    }
}

/// Writes for each heading the gap to the goal that the heading alone makes.
pub(crate) fn turn(lattice: &Lattice, headings: u32, goal: u32, turns: &mut Vec<u64>)
    requires headings { headings ≡ lattice.now.env.headings }
    requires turns { length turns.old.items ≡ headings }
    requires sound { IsSound (network_of lattice.now) }
    requires goal { goal < (network_of lattice.now).states }
    ensures turns { AreTurns lattice.now goal turns.new.items }
    ensures size { length turns.new.items ≡ headings }
{
    for heading in 0..turns.len() as u32 {
        turns[heading as usize] = gap_from(lattice, headings, goal / headings, heading, goal);
    }
}
