//! Sample files, for the worked examples: environments, and primitives for cells of 25 millimetres and sixteen headings. Each
//! stands here once.
#![tactic(auto)]

use std::alloc::{AllocError, Global};

/// Three cells in a row, from the first to the last.
pub const E1: &str = "discretization(cells): 3 1
obsthresh: 100
cost_inscribed_thresh: 90
cost_possibly_circumscribed_thresh: 0
cellsize(meters): 0.025
nominalvel(mpersecs): 1.0
timetoturn45degsinplace(secs): 2.0
start(meters,rads): 0.0125 0.0125 0
end(meters,rads): 0.0625 0.0125 0
environment:
0 0 0
";

/// Three by two cells, of which the second costs 2, from the first cell to the last of its row.
pub const E2: &str = "discretization(cells): 3 2
obsthresh: 100
cost_inscribed_thresh: 90
cost_possibly_circumscribed_thresh: 0
cellsize(meters): 0.025
nominalvel(mpersecs): 1.0
timetoturn45degsinplace(secs): 2.0
start(meters,rads): 0.0125 0.0125 0
end(meters,rads): 0.0625 0.0125 0
environment:
0 2 0
0 0 0
";

/// Four primitives from heading 0: one cell and two cells along x, and one cell along y and against it.
pub const F2: &str = "resolution_m: 0.025
numberofangles: 16
totalnumberofprimitives: 4
primID: 0
startangle_c: 0
endpose_c: 1 0 0
additionalactioncostmult: 1
intermediateposes: 2
0 0 0
0.025 0 0
primID: 1
startangle_c: 0
endpose_c: 2 0 0
additionalactioncostmult: 1
intermediateposes: 3
0 0 0
0.025 0 0
0.05 0 0
primID: 2
startangle_c: 0
endpose_c: 0 1 0
additionalactioncostmult: 1
intermediateposes: 2
0 0 0
0 0.025 0
primID: 3
startangle_c: 0
endpose_c: 0 -1 0
additionalactioncostmult: 1
intermediateposes: 2
0 0 0
0 -0.025 0
";

/// A field of 32 by 32 cells that cost nothing, to be crossed from corner to corner.
pub const FIELD: &str = "discretization(cells): 32 32
obsthresh: 254
cost_inscribed_thresh: 253
cost_possibly_circumscribed_thresh: 128
cellsize(meters): 0.025
nominalvel(mpersecs): 1.0
timetoturn45degsinplace(secs): 2.0
start(meters,rads): 0.0375 0.0375 0
end(meters,rads): 0.7625 0.7625 0
environment:
0 0 0 0 0 0 0 0 0 0 0 0 0 0 0 0 0 0 0 0 0 0 0 0 0 0 0 0 0 0 0 0
0 0 0 0 0 0 0 0 0 0 0 0 0 0 0 0 0 0 0 0 0 0 0 0 0 0 0 0 0 0 0 0
0 0 0 0 0 0 0 0 0 0 0 0 0 0 0 0 0 0 0 0 0 0 0 0 0 0 0 0 0 0 0 0
0 0 0 0 0 0 0 0 0 0 0 0 0 0 0 0 0 0 0 0 0 0 0 0 0 0 0 0 0 0 0 0
0 0 0 0 0 0 0 0 0 0 0 0 0 0 0 0 0 0 0 0 0 0 0 0 0 0 0 0 0 0 0 0
0 0 0 0 0 0 0 0 0 0 0 0 0 0 0 0 0 0 0 0 0 0 0 0 0 0 0 0 0 0 0 0
0 0 0 0 0 0 0 0 0 0 0 0 0 0 0 0 0 0 0 0 0 0 0 0 0 0 0 0 0 0 0 0
0 0 0 0 0 0 0 0 0 0 0 0 0 0 0 0 0 0 0 0 0 0 0 0 0 0 0 0 0 0 0 0
0 0 0 0 0 0 0 0 0 0 0 0 0 0 0 0 0 0 0 0 0 0 0 0 0 0 0 0 0 0 0 0
0 0 0 0 0 0 0 0 0 0 0 0 0 0 0 0 0 0 0 0 0 0 0 0 0 0 0 0 0 0 0 0
0 0 0 0 0 0 0 0 0 0 0 0 0 0 0 0 0 0 0 0 0 0 0 0 0 0 0 0 0 0 0 0
0 0 0 0 0 0 0 0 0 0 0 0 0 0 0 0 0 0 0 0 0 0 0 0 0 0 0 0 0 0 0 0
0 0 0 0 0 0 0 0 0 0 0 0 0 0 0 0 0 0 0 0 0 0 0 0 0 0 0 0 0 0 0 0
0 0 0 0 0 0 0 0 0 0 0 0 0 0 0 0 0 0 0 0 0 0 0 0 0 0 0 0 0 0 0 0
0 0 0 0 0 0 0 0 0 0 0 0 0 0 0 0 0 0 0 0 0 0 0 0 0 0 0 0 0 0 0 0
0 0 0 0 0 0 0 0 0 0 0 0 0 0 0 0 0 0 0 0 0 0 0 0 0 0 0 0 0 0 0 0
0 0 0 0 0 0 0 0 0 0 0 0 0 0 0 0 0 0 0 0 0 0 0 0 0 0 0 0 0 0 0 0
0 0 0 0 0 0 0 0 0 0 0 0 0 0 0 0 0 0 0 0 0 0 0 0 0 0 0 0 0 0 0 0
0 0 0 0 0 0 0 0 0 0 0 0 0 0 0 0 0 0 0 0 0 0 0 0 0 0 0 0 0 0 0 0
0 0 0 0 0 0 0 0 0 0 0 0 0 0 0 0 0 0 0 0 0 0 0 0 0 0 0 0 0 0 0 0
0 0 0 0 0 0 0 0 0 0 0 0 0 0 0 0 0 0 0 0 0 0 0 0 0 0 0 0 0 0 0 0
0 0 0 0 0 0 0 0 0 0 0 0 0 0 0 0 0 0 0 0 0 0 0 0 0 0 0 0 0 0 0 0
0 0 0 0 0 0 0 0 0 0 0 0 0 0 0 0 0 0 0 0 0 0 0 0 0 0 0 0 0 0 0 0
0 0 0 0 0 0 0 0 0 0 0 0 0 0 0 0 0 0 0 0 0 0 0 0 0 0 0 0 0 0 0 0
0 0 0 0 0 0 0 0 0 0 0 0 0 0 0 0 0 0 0 0 0 0 0 0 0 0 0 0 0 0 0 0
0 0 0 0 0 0 0 0 0 0 0 0 0 0 0 0 0 0 0 0 0 0 0 0 0 0 0 0 0 0 0 0
0 0 0 0 0 0 0 0 0 0 0 0 0 0 0 0 0 0 0 0 0 0 0 0 0 0 0 0 0 0 0 0
0 0 0 0 0 0 0 0 0 0 0 0 0 0 0 0 0 0 0 0 0 0 0 0 0 0 0 0 0 0 0 0
0 0 0 0 0 0 0 0 0 0 0 0 0 0 0 0 0 0 0 0 0 0 0 0 0 0 0 0 0 0 0 0
0 0 0 0 0 0 0 0 0 0 0 0 0 0 0 0 0 0 0 0 0 0 0 0 0 0 0 0 0 0 0 0
0 0 0 0 0 0 0 0 0 0 0 0 0 0 0 0 0 0 0 0 0 0 0 0 0 0 0 0 0 0 0 0
0 0 0 0 0 0 0 0 0 0 0 0 0 0 0 0 0 0 0 0 0 0 0 0 0 0 0 0 0 0 0 0
";

/// A step along each heading, in cells. The headings are multiples of 0.3927.
const STEPS: [(i32, i32); 16] = [
    (1, 0),
    (2, 1),
    (1, 1),
    (1, 2),
    (0, 1),
    (-1, 2),
    (-1, 1),
    (-2, 1),
    (-1, 0),
    (-2, -1),
    (-1, -1),
    (-1, -2),
    (0, -1),
    (1, -2),
    (1, -1),
    (2, -1),
];

/// What a primitive does at each heading: its id, what its cost is multiplied by, how many steps it goes, and how many headings it
/// turns.
struct Kind {
    id: u32,
    mult: u32,
    steps: i32,
    turn: i32,
}

/// A step forward, a dear step back, a turn to the left and one to the right, and four steps forward.
const FIVE: [Kind; 5] = [
    Kind {
        id: 0,
        mult: 1,
        steps: 1,
        turn: 0,
    },
    Kind {
        id: 1,
        mult: 5,
        steps: -1,
        turn: 0,
    },
    Kind {
        id: 2,
        mult: 1,
        steps: 0,
        turn: 1,
    },
    Kind {
        id: 3,
        mult: 1,
        steps: 0,
        turn: -1,
    },
    Kind {
        id: 4,
        mult: 1,
        steps: 4,
        turn: 0,
    },
];

/// A step forward, and a turn to the left and to the right.
const THREE: [Kind; 3] = [
    Kind {
        id: 0,
        mult: 1,
        steps: 1,
        turn: 0,
    },
    Kind {
        id: 1,
        mult: 1,
        steps: 0,
        turn: 1,
    },
    Kind {
        id: 2,
        mult: 1,
        steps: 0,
        turn: -1,
    },
];

/// Appends the poses of a way to a cell; the last one has the heading at the end, and the others that at the start.
fn put_poses(
    text: &mut String,
    poses: i32,
    cell: (i32, i32),
    from: i32,
    to: i32,
) -> Result<(), AllocError> {
    let last = poses.wrapping_sub(1);
    let part = 0.025 / f64::from(last);
    for j in 0..poses {
        let heading = if j == last { to } else { from };
        write!(
            text,
            "{:.4} {:.4} {:.4}\n",
            f64::from(cell.0.wrapping_mul(j)) * part,
            f64::from(cell.1.wrapping_mul(j)) * part,
            f64::from(heading) * 0.3927
        )?;
    }
    Ok(())
}

/// Appends a primitive of a kind: of so many poses, or where none are said, of two or three, by at most one cell from pose to pose.
fn put_prim(
    text: &mut String,
    kind: &Kind,
    from: u8,
    poses: Option<i32>,
) -> Result<(), AllocError> {
    let (ux, uy) = STEPS[usize::from(from % 16)];
    let from = i32::from(from);
    let to = from.wrapping_add(kind.turn);
    let (dx, dy) = (ux.wrapping_mul(kind.steps), uy.wrapping_mul(kind.steps));
    let cells = dx.wrapping_abs().max(dy.wrapping_abs()).clamp(1, 2);
    let poses = poses.unwrap_or(cells + 1);
    write!(
        text,
        "primID: {}\nstartangle_c: {from}\nendpose_c: {dx} {dy} {to}\nadditionalactioncostmult: {}\nintermediateposes: {poses}\n",
        kind.id, kind.mult
    )?;
    put_poses(text, poses, (dx, dy), from, to)
}

/// Appends primitives of these kinds for each heading.
fn put_prims(text: &mut String, kinds: &[Kind], poses: Option<i32>) -> Result<(), AllocError> {
    for from in 0..16 {
        for kind in kinds {
            put_prim(text, kind, from, poses)?;
        }
    }
    Ok(())
}

/// Five primitives for each of sixteen headings: a step forward, a dear step back, a turn to the left and to the right, and
/// four steps forward.
pub fn p16(alloc: Global) -> Result<String, AllocError> {
    let mut text = String::from_str(
        alloc,
        "resolution_m: 0.025000\nnumberofangles: 16\ntotalnumberofprimitives: 80\n",
    )?;
    put_prims(&mut text, &FIVE, Some(10))?;
    Ok(text)
}

/// Three primitives for each heading: a step forward, and a turn to the left and to the right.
pub fn car(alloc: Global) -> Result<String, AllocError> {
    let mut text = String::from_str(
        alloc,
        "resolution_m: 0.025\nnumberofangles: 16\ntotalnumberofprimitives: 48\n",
    )?;
    put_prims(&mut text, &THREE, None)?;
    Ok(text)
}
