//! Arcs and states of a small hall, forwards and backwards.

use crate::texts::reads;
use sbpl_back::{Back, FromStart};
use sbpl_heur::{Lattice, OffMap, Place};
use sbpl_plan::{Graph, Guide};
use std::alloc::{AllocError, Global};

/// The arcs of a state, each as its head, its cost and a floor on the cost, and then its tails.
fn ends<G: Graph>(alloc: Global, graph: &G, s: u32) -> Result<String, AllocError> {
    let mut text = String::new(alloc);
    if s < graph.states() {
        for k in 0..graph.fan(s) {
            let (head, cost) = (graph.head(s, k), graph.judge(s, k));
            write!(text, "{head:?} {cost:?} {}, ", graph.floor(s, k))?;
        }
        for j in 0..graph.tail_fan(s) {
            write!(text, "{:?}, ", graph.tail(s, j))?;
        }
    }
    Ok(text)
}

/// The start: arcs come in the order of the file, and one leads off the map.
const FIRST: &str =
    "Some(16) Some(75) 25, Some(32) Some(150) 50, Some(48) Some(25) 25, None None 25, None, None, None, Some((48, 3)), ";

/// The end.
const LAST: &str =
    "None None 25, None None 50, Some(80) Some(25) 25, None None 25, Some((16, 0)), Some((0, 1)), None, Some((80, 3)), ";

/// The start backwards: its arcs are the tails, in their order, and its tails the arcs.
const FIRST_BACK: &str =
    "None None 1, None None 1, None None 1, Some(48) Some(25) 25, Some((16, 0)), Some((32, 1)), Some((48, 2)), None, ";

/// The end backwards.
const LAST_BACK: &str =
    "Some(16) Some(75) 25, Some(0) Some(150) 50, None None 1, Some(80) Some(25) 25, None, None, Some((80, 2)), None, ";

/// Arcs and tails, forwards and backwards. No primitive has the headings of states 1 and 33.
pub(crate) fn are_arcs(alloc: Global, hall: &Lattice) -> bool {
    let back = Back::new(hall);
    reads(ends(alloc, hall, 0), FIRST)
        && reads(ends(alloc, hall, 32), LAST)
        && reads(ends(alloc, hall, 1), "")
        && reads(ends(alloc, &back, 0), FIRST_BACK)
        && reads(ends(alloc, &back, 32), LAST_BACK)
        && reads(ends(alloc, &back, 33), "")
}

/// The first arc of the start, as its head, its cost and a floor on the cost.
fn first_arc(hall: &Lattice) -> Option<(Option<u32>, Option<u32>, u32)> {
    if hall.states() == 0 || hall.fan(0) == 0 {
        return None;
    }
    Some((hall.head(0, 0), hall.judge(0, 0), hall.floor(0, 0)))
}

/// Arc `k` of state `s` as a tail, the number, the id and the cost of its primitive, and the place of the state, with the state
/// that is there.
fn known_of(alloc: Global, hall: &Lattice, s: u32, k: u32) -> Result<String, AllocError> {
    if s >= hall.states() || k >= hall.fan(s) {
        return String::from_str(alloc, "no arc");
    }
    let prim = hall.prim_of(s, k);
    let place = hall.place_of(s);
    format!(in alloc;
        "{:?} {prim} {} {} {place:?} {:?}",
        hall.as_tail(s, k),
        hall.prim_id(prim),
        hall.cost_of(prim),
        hall.state_of(&place)
    )
}

/// The lower bound on the cost of each way from one state to another, by the lattice and by the guide for searches backwards.
fn gaps(lattice: &Lattice, from: u32, to: u32) -> Option<(u64, u64)> {
    if from < lattice.states() && to < lattice.states() {
        let guide = FromStart::new(lattice, from);
        Some((lattice.gap(from, to), guide.to_goal(to)))
    } else {
        None
    }
}

/// A place of the hall, and three beside it.
const PLACES: [Place; 4] = [
    Place { x: 2, y: 1, t: 3 },
    Place { x: 3, y: 1, t: 3 },
    Place { x: 2, y: 2, t: 3 },
    Place { x: 2, y: 1, t: 16 },
];

/// What is known of arcs 1 and 3 of the corner.
const CORNER: [&str; 2] = [
    "None 1 1 50 Place { x: 2, y: 1, t: 0 } Some(80)",
    "Some((32, 3)) 3 3 25 Place { x: 2, y: 1, t: 0 } Some(80)",
];

/// States, their places, and the primitives of their arcs.
pub(crate) fn are_known(alloc: Global, hall: &Lattice) -> bool {
    let states = [
        hall.state_of(&PLACES[0]),
        hall.state_of(&PLACES[1]),
        hall.state_of(&PLACES[2]),
        hall.state_of(&PLACES[3]),
    ];
    states == [Some(83), None, None, None]
        && reads(known_of(alloc, hall, 80, 1), CORNER[0])
        && reads(known_of(alloc, hall, 80, 3), CORNER[1])
        && reads(known_of(alloc, hall, 81, 0), "no arc")
}

/// Gaps by the primitives alone.
const GAPS: [Option<(u64, u64)>; 6] = [
    Some((50, 50)),
    Some((50, 50)),
    Some((25, 25)),
    Some((0, 0)),
    Some((0, 0)),
    None,
];

/// The gaps between states.
pub(crate) fn are_gaps(hall: &Lattice) -> bool {
    let gaps = [
        gaps(hall, 0, 32),
        gaps(hall, 48, 32),
        gaps(hall, 0, 48),
        gaps(hall, 32, 0),
        gaps(hall, 0, 5),
        gaps(hall, 0, 96),
    ];
    gaps == GAPS
}

/// The heads of the four arcs that read the corner, and then their sources.
const READING: [u32; 8] = [80, 80, 80, 32, 64, 48, 32, 80];

/// The ends of the arcs that read the corner.
pub(crate) fn are_read(hall: &Lattice, states: &mut Vec<u32>) -> bool {
    states.clear();
    let heads = hall.heads_reading(2, 1, states).is_ok();
    let sources = hall.tails_reading(2, 1, states).is_ok();
    heads && sources && states.as_slice() == READING.as_slice()
}

/// A cell that costs as much as the robot may touch is shut, until its old cost is written again.
pub(crate) fn is_written(hall: &mut Lattice) -> bool {
    let writes = (hall.set(3, 0, 90), hall.set(1, 0, 90), hall.cell_cost(1, 0));
    let arc = first_arc(hall);
    let back = hall.set(1, 0, 2);
    writes == (Err(OffMap), Ok(2), Some(90)) && arc == Some((Some(16), None, 25)) && back == Ok(90)
}
