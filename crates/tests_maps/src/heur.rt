//! The heuristic on a small hall, by hand, and what workers do by it.

ghost use Rattle.std.specs.Prelude.{◌≡◌, ◌<◌};
ghost use Rattle.sbpl_heur.specs.sbpl_cost.Lattices.{network_of};
ghost use Rattle.sbpl_heur.specs.Bests.{Fits, IsGuide};

use crate::rows::{FOUR, THREE, told_on};
use crate::seats::falling;
use sbpl_heur::{Best, Lattice, Place};
use sbpl_plan::Guide;
use std::alloc::Global;
use std::sync::Wait;
use std::thread::Threads;

/// The values at heading 0 of the six cells, row by row.
fn values(lattice: &Lattice, best: &Best, goal: u32) -> Option<[u64; 6]>
    requires guides { IsGuide (network_of lattice.now) goal best.now }
{
    let mut values = [0; 6];
    for cell in 0..6 {
        let (x, y) = (cell % 3, cell / 3);
        let s = lattice.state_of(&Place { x, y, t: 0 })?;
        values[cell as usize] = best.to_goal(s);
    }
    Some(values)
}

/// The values while the corner is free, and while it is shut.
const OPEN: [u64; 6] = [50, 75, 0, 75, 50, 25];

const SHUT: [u64; 6] = [50, 75, 0, 75, 150, 150];

/// The values follow the map when cell `(2, 1)` becomes an obstacle. It is free again in the end.
fn follows(lattice: &mut Lattice, best: &mut Best, goal: u32) -> bool
    requires guides { IsGuide (network_of lattice.old) goal best.old }
    requires fits { Fits lattice.old best.old }
    requires goal { best.old.goal ≡ goal }
{
    let first = values(lattice, best, goal);
    let Ok(_) = lattice.set(2, 1, 100) else {
        return false;
    };
    best.rebuild(lattice);
    let then = values(lattice, best, goal);
    let free = lattice.set(2, 1, 0).is_ok();
    free && first == Some(OPEN) && then == Some(SHUT)
}

/// What is shown by the guide to this goal: judgements that come back by the line, passes by more and fewer workers, and
/// the values.
fn guides<R: Threads + Wait + Sync>(
    rt: &R,
    alloc: Global,
    lattice: &mut Lattice,
    best: &mut Best,
    goal: u32,
) -> bool
    requires guides { IsGuide (network_of lattice.old) goal best.old }
    requires fits { Fits lattice.old best.old }
    requires goal { best.old.goal ≡ goal }
    requires state { goal < (network_of lattice.old).states }
{
    told_on(rt, alloc, lattice, best, goal, &THREE) == Some(true)
        && told_on(rt, alloc, lattice, best, goal, &FOUR) == Some(true)
        && falling(rt, alloc, lattice, best, goal) == Some((4, 100))
        && follows(lattice, best, goal)
}

/// The same with the goal in cell `(2, 0)`.
pub(crate) fn is_guided<R: Threads + Wait + Sync>(
    rt: &R,
    alloc: Global,
    lattice: &mut Lattice,
) -> bool {
    let Some(goal) = lattice.state_of(&Place { x: 2, y: 0, t: 0 }) else {
        return false;
    };
    let Ok(mut best) = Best::build(alloc, lattice, goal) else {
        return false;
    };
    let is = guides(rt, alloc, lattice, &mut best, goal);
    drop(best);
    is
}
