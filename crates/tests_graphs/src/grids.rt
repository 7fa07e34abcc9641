//! A grid as a graph.

use crate::texts::reads;
use sbpl_nav2d::{EnvFault, Map, Nav, Octile, read_nav};
use sbpl_plan::{Graph, Guide};
use std::alloc::Global;
use std::test::Fail;

/// Four columns and three rows, with an obstacle in the middle.
const HALL: &str = "\
discretization(cells): 4 3
obsthresh: 200
start(cells): 0 0
end(cells): 3 2
environment:
0 0 0 0
0 250 1 0
0 0 0 199
";

/// The grid of a text.
fn grid_of(alloc: Global, text: &str) -> Result<Nav, EnvFault> {
    let (env, grid) = read_nav(alloc, text.as_bytes(), 8_388_608)?;
    let map = Map::plain(env.width, env.height, grid);
    Ok(Nav::new(&env, map))
}

/// The head and the cost of an arc, where there is such an arc.
fn arc(nav: &Nav, s: u32, k: u32) -> Option<(Option<u32>, Option<u32>)> {
    if s < nav.states() && k < nav.fan(s) {
        Some((nav.head(s, k), nav.judge(s, k)))
    } else {
        None
    }
}

/// Arcs by their sources and numbers, with their heads and their costs.
const ARCS: &str = "\
0 0 Some(1) Some(1000)
0 1 Some(5) None
0 2 Some(4) Some(1000)
0 3 None None
0 4 None None
0 6 None None
1 1 Some(6) None
2 2 Some(6) Some(2000)
2 1 Some(7) Some(2828)
3 0 None None
3 4 Some(2) Some(1000)
7 2 Some(11) Some(200000)
11 5 Some(6) Some(282800)
11 7 None None";

/// Whether an arc is as a row has it.
fn is_arc(alloc: Global, nav: &Nav, row: &str) -> Option<bool> {
    let (s, rest) = row.split_once(' ')?;
    let (k, want) = rest.split_once(' ')?;
    let (head, cost) = arc(nav, s.parse::<u32>().ok()?, k.parse::<u32>().ok()?)?;
    Some(reads(format!(in alloc; "{head:?} {cost:?}"), want))
}

/// Whether the grid has all these arcs.
fn are_arcs(alloc: Global, nav: &Nav) -> bool {
    for row in ARCS.lines() {
        if is_arc(alloc, nav, row) != Some(true) {
            return false;
        }
    }
    true
}

/// A tail, where there is such a tail.
fn tail(nav: &Nav, t: u32, j: u32) -> Option<Option<(u32, u32)>> {
    if t < nav.states() && j < nav.tail_fan(t) {
        Some(nav.tail(t, j))
    } else {
        None
    }
}

/// A gap, where both are states.
fn gap(nav: &Nav, a: u32, b: u32) -> Option<u64> {
    if a < nav.states() && b < nav.states() {
        Some(nav.gap(a, b))
    } else {
        None
    }
}

/// Tails 1 of state 5, 0 of state 0, 7 of state 4 and 7 of state 1.
const TAILS: [Option<Option<(u32, u32)>>; 4] = [
    Some(Some((0, 1))),
    Some(None),
    Some(None),
    Some(Some((4, 7))),
];

/// Whether tails and gaps are those of the steps.
fn are_tails_and_gaps(nav: &Nav) -> bool {
    let tails = [
        tail(nav, 5, 1),
        tail(nav, 0, 0),
        tail(nav, 4, 7),
        tail(nav, 1, 7),
    ];
    let gaps = [gap(nav, 0, 11), gap(nav, 11, 0), gap(nav, 8, 3)];
    let guide = Octile::new(nav.env());
    let guided = [guide.to_goal(0), guide.to_goal(11), guide.to_goal(6)];
    (tails, gaps, guided) == (TAILS, [Some(3828); 3], [3828, 0, 1414])
}

/// Puts the heads of the arcs that read a cell into a list, upwards. Answers whether it could.
fn put_heads(nav: &Nav, x: u32, y: u32, heads: &mut Vec<u32>) -> bool {
    heads.clear();
    nav.heads_reading(x, y, heads).is_ok() && heads.sort().is_ok()
}

/// Whether heads are added once for each arc that reads a cell: of the corner, in the middle, and off the map.
fn are_heads(nav: &Nav, heads: &mut Vec<u32>) -> bool {
    let corner = put_heads(nav, 0, 0, heads)
        && heads.as_slice() == [0, 0, 0, 1, 1, 4, 4, 5].as_slice();
    let middle = put_heads(nav, 1, 1, heads) && heads.len() == 24;
    let off = put_heads(nav, 4, 1, heads) && heads.is_empty();
    [corner, middle, off] == [true; 3]
}

/// Arcs of states 0 and 1 that are opened.
const OPENED: [Option<(Option<u32>, Option<u32>)>; 2] = [
    Some((Some(5), Some(5656))),
    Some((Some(6), Some(5656))),
];

/// Whether a cell that is set opens the arcs that read it, and one off the map is refused.
fn is_opened(nav: &mut Nav) -> bool {
    let was = nav.set(1, 1, 3).ok();
    let off = nav.set(1, 3, 3).ok();
    let arcs = [arc(nav, 0, 1), arc(nav, 1, 1)];
    (was, off, nav.cell_cost(1, 1)) == (Some(250), None, Some(3)) && arcs == OPENED
}

/// What is shown of the grid.
fn shown(alloc: Global, nav: &mut Nav, heads: &mut Vec<u32>) -> [bool; 4] {
    [
        are_arcs(alloc, nav),
        are_tails_and_gaps(nav),
        are_heads(nav, heads),
        is_opened(nav),
    ]
}

/// Arcs lead one step and read what they pass.
#[test]
fn a_grid_is_as_its_text_says(rt: HostRuntime) -> Result<(), Fail> {
    let mut nav = grid_of(rt.alloc(), HALL)?;
    let mut heads = Vec::new(rt.alloc());
    let shown = shown(rt.alloc(), &mut nav, &mut heads);
    drop(heads);
    drop(nav);
    assert!(rt; shown == [true; 4]);
    Ok(())
}
