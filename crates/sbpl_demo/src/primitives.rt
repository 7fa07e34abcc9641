//! The eighty primitives, the same for every seed.

ghost use Rattle.std.specs.Prelude.{◌≡◌, ◌<◌, ◌≤◌, ◌++◌, pos, negsuc, ◌≤ℤ◌, OnOk, IfOk};
ghost use Rattle.std.specs.List.{flat_map};
ghost use Rattle.sbpl_fixed.specs.Printed.{line_text, lines_text};
ghost use Rattle.sbpl_demo.specs.Primitives.{IsMotion, IsWithinTwoCells, along, angle, backward, far, forward, heading_at};
ghost use Rattle.sbpl_demo.specs.Primitives.{left, motion_head, motion_lines, motions_from, nearest_ninth, pose_lines};
ghost use Rattle.sbpl_demo.specs.Primitives.{pose_words, primitives_text, right, way_along};

use crate::put::TenThousandths;
use sbpl_cost::Piece::{Bytes, Number, Signed};
use sbpl_cost::{push_line, push_lines};
use sbpl_fixed::NoMemory;
use std::alloc::Global;

/// The lines before the first primitive.
const HEAD: &[u8] = b"resolution_m: 0.025000
numberofangles: 16
totalnumberofprimitives: 80
";

/// A step in cells.
#[derive(Clone, Copy)]
struct Way {
    x: i32,
    y: i32,
}

/// A primitive: its number, its heading, the cell and the heading that it goes to, and how dear it is.
#[derive(Clone, Copy)]
struct Motion {
    id: u32,
    from: u32,
    way: Way,
    to: i32,
    mult: u32,
}

/// The step along each heading.
const WAYS: [Way; 16] = [
    Way { x: 1, y: 0 },
    Way { x: 2, y: 1 },
    Way { x: 1, y: 1 },
    Way { x: 1, y: 2 },
    Way { x: 0, y: 1 },
    Way { x: -1, y: 2 },
    Way { x: -1, y: 1 },
    Way { x: -2, y: 1 },
    Way { x: -1, y: 0 },
    Way { x: -2, y: -1 },
    Way { x: -1, y: -1 },
    Way { x: -1, y: -2 },
    Way { x: 0, y: -1 },
    Way { x: 1, y: -2 },
    Way { x: 1, y: -1 },
    Way { x: 2, y: -1 },
];

/// A ninth of a number, to the nearest whole number. No number is halfway.
fn nearest_ninth(n: u32) -> u32
    requires range { n ≤ 18000 }
    ensures nearest { result ≡ nearest_ninth n }
    ensures small { result ≤ 2000 }
{
    (2 * n + 9) / 18
}

/// The coordinate of pose `j` of ten on the straight way over `cells` cells, in ten-thousandths of a metre.
fn along(cells: i32, j: u32) -> i32
    requires low { negsuc 7 ≤ℤ cells }
    requires high { cells ≤ℤ pos 8 }
    requires pose { j < 10 }
    ensures along { result ≡ along cells j }
{
    let size = nearest_ninth(250 * (cells.unsigned_abs() * j)) as i32;
    if cells < 0 { -size } else { size }
}

/// The angle of a heading, in ten-thousandths.
fn angle(heading: i32) -> i32
    requires low { negsuc 0 ≤ℤ heading }
    requires high { heading ≤ℤ pos 16 }
    ensures angle { result ≡ angle heading }
{
    3927 * heading
}

/// The heading of pose `j` of ten: the last pose has the heading at the end.
fn heading_at(motion: &Motion, j: u32) -> i32
    requires motion { IsMotion motion.now }
    ensures heading { result ≡ heading_at motion.now j }
{
    if j == 9 {
        motion.to
    } else {
        motion.from as i32
    }
}

/// Appends the line of pose `j` of ten.
fn put_pose(out: &mut Vec<u8>, motion: &Motion, j: u32) -> Result<(), NoMemory>
    requires motion { IsMotion motion.now }
    requires pose { j < 10 }
    ensures ok { OnOk result (out.new.items ≡ out.old.items ++ line_text (pose_words motion.now j)) }
{
    let x = along(motion.way.x, j);
    let y = along(motion.way.y, j);
    let theta = angle(heading_at(motion, j));
    push_line(
        out,
        &[TenThousandths(x), TenThousandths(y), TenThousandths(theta)],
    )
}

/// Appends the lines of the ten poses.
fn put_poses(out: &mut Vec<u8>, motion: &Motion) -> Result<(), NoMemory>
    requires motion { IsMotion motion.now }
    ensures ok { OnOk result (out.new.items ≡ out.old.items ++ lines_text (pose_lines motion.now 10)) }
{
    for j in 0..10 {
        put_pose(out, motion, j)?;
    }
    Ok(())
}

/// Appends the lines of a primitive before its poses.
fn put_head(out: &mut Vec<u8>, motion: &Motion) -> Result<(), NoMemory>
    ensures ok { OnOk result (out.new.items ≡ out.old.items ++ lines_text (motion_head motion.now)) }
{
    let x = Signed(i64::from(motion.way.x));
    let y = Signed(i64::from(motion.way.y));
    let to = Signed(i64::from(motion.to));
    push_lines(
        out,
        &[
            &[Bytes(b"primID:"), Number(u64::from(motion.id))],
            &[Bytes(b"startangle_c:"), Number(u64::from(motion.from))],
            &[Bytes(b"endpose_c:"), x, y, to],
            &[
                Bytes(b"additionalactioncostmult:"),
                Number(u64::from(motion.mult)),
            ],
            &[Bytes(b"intermediateposes:"), Number(10)],
        ],
    )
}

/// Appends a primitive.
#[tactic(auto, using(crate::proofs::Steps::motion_written, std::proofs::lemmas::List::append_assoc))]
fn put_motion(out: &mut Vec<u8>, motion: &Motion) -> Result<(), NoMemory>
    requires motion { IsMotion motion.now }
    ensures ok { OnOk result (out.new.items ≡ out.old.items ++ lines_text (motion_lines motion.now)) }
{
    put_head(out, motion)?;
    put_poses(out, motion)?;
    Ok(())
}

/// The step along a heading.
#[tactic(auto, unfolding(crate::specs::Primitives::way_along))]
fn way_along(heading: u32) -> Way
    requires heading { heading < 16 }
    ensures way { result ≡ way_along heading }
    ensures small { IsWithinTwoCells result }
{
    WAYS[heading as usize]
}

/// A step forward.
fn forward(from: u32, step: Way) -> Motion
    requires heading { from < 16 }
    requires step { IsWithinTwoCells step }
    ensures motion { result ≡ forward from step }
    ensures small { IsMotion result }
{
    Motion {
        id: 0,
        from,
        way: step,
        to: from as i32,
        mult: 1,
    }
}

/// A step back, which is dear.
fn backward(from: u32, step: Way) -> Motion
    requires heading { from < 16 }
    requires step { IsWithinTwoCells step }
    ensures motion { result ≡ backward from step }
    ensures small { IsMotion result }
{
    Motion {
        id: 1,
        from,
        way: Way {
            x: -step.x,
            y: -step.y,
        },
        to: from as i32,
        mult: 5,
    }
}

/// A turn by one heading to the left.
fn left(from: u32) -> Motion
    requires heading { from < 16 }
    ensures motion { result ≡ left from }
    ensures small { IsMotion result }
{
    Motion {
        id: 2,
        from,
        way: Way { x: 0, y: 0 },
        to: from as i32 + 1,
        mult: 1,
    }
}

/// A turn by one heading to the right.
fn right(from: u32) -> Motion
    requires heading { from < 16 }
    ensures motion { result ≡ right from }
    ensures small { IsMotion result }
{
    Motion {
        id: 3,
        from,
        way: Way { x: 0, y: 0 },
        to: from as i32 - 1,
        mult: 1,
    }
}

/// Four steps forward.
fn far(from: u32, step: Way) -> Motion
    requires heading { from < 16 }
    requires step { IsWithinTwoCells step }
    ensures motion { result ≡ far from step }
    ensures small { IsMotion result }
{
    Motion {
        id: 4,
        from,
        way: Way {
            x: 4 * step.x,
            y: 4 * step.y,
        },
        to: from as i32,
        mult: 1,
    }
}

/// Appends the five primitives of a heading.
fn put_heading(out: &mut Vec<u8>, from: u32) -> Result<(), NoMemory>
    requires heading { from < 16 }
    ensures ok { OnOk result (out.new.items ≡ out.old.items ++ lines_text (flat_map motion_lines (motions_from from))) }
{
    let step = way_along(from);
    put_motion(out, &forward(from, step))?;
    put_motion(out, &backward(from, step))?;
    put_motion(out, &left(from))?;
    put_motion(out, &right(from))?;
    put_motion(out, &far(from, step))?;
    Ok(())
}

/// The text of the primitives: for each of sixteen headings a step forward, a dear step back, a turn to the left, a turn to
/// the right, and four steps forward. They are for cells of 25 millimetres.
pub(crate) fn primitives(alloc: Global) -> Result<Vec<u8>, NoMemory>
    ensures text { IfOk result (λ text. text.items ≡ primitives_text) }
{
    let mut text = Vec::new(alloc);
    text.extend_from_slice(HEAD)?;
    for heading in 0..16 {
        put_heading(&mut text, heading)?;
    }
    Ok(text)
}
