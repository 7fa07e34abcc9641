//! Primitives are printed at the end of a text.

ghost use Rattle.std.specs.Prelude.{◌≡◌, ◌++◌, map, OnOk, OnErr};
ghost use Rattle.std.specs.List.{flat_map};
ghost use Rattle.sbpl_fixed.specs.Printed.{line_text, lines_text};
ghost use Rattle.sbpl_mprim.specs.Printed.{pose_line, prim_head, prim_lines, prims_head, prims_text};

use crate::prim::Prim;
use crate::prims::Prims;
use sbpl_cfg::Piece::{Bytes, Nano, Number, Signed};
use sbpl_cfg::{Pose, push_line, push_lines};
use sbpl_fixed::NoMemory;

fn print_pose(pose: &Pose, out: &mut Vec<u8>) -> Result<(), NoMemory>
    ensures ok { OnOk result (out.new.items ≡ out.old.items ++ line_text (pose_line pose.now)) }
{
    push_line(out, &[Nano(pose.x), Nano(pose.y), Nano(pose.theta)])
}

fn print_poses(poses: &[Pose], out: &mut Vec<u8>) -> Result<(), NoMemory>
    ensures ok { OnOk result (out.new.items ≡ out.old.items ++ lines_text (map pose_line poses.now)) }
{
    for pose in poses {
        print_pose(pose, out)?;
    }
    Ok(())
}

/// The lines of a primitive without its poses.
fn print_prim_head(prim: &Prim, out: &mut Vec<u8>) -> Result<(), NoMemory>
    ensures ok { OnOk result (out.new.items ≡ out.old.items ++ lines_text (prim_head prim.now)) }
{
    let dx = Signed(i64::from(prim.dx));
    let dy = Signed(i64::from(prim.dy));
    let to = Number(u64::from(prim.to));
    let count = Number(prim.poses.as_slice().len() as u64);
    push_lines(
        out,
        &[
            &[Bytes(b"primID:"), Number(u64::from(prim.id))],
            &[Bytes(b"startangle_c:"), Number(u64::from(prim.from))],
            &[Bytes(b"endpose_c:"), dx, dy, to],
            &[
                Bytes(b"additionalactioncostmult:"),
                Number(u64::from(prim.mult)),
            ],
            &[Bytes(b"intermediateposes:"), count],
        ],
    )
}

fn print_prim(prim: &Prim, out: &mut Vec<u8>) -> Result<(), NoMemory>
    ensures ok { OnOk result (out.new.items ≡ out.old.items ++ lines_text (prim_lines prim.now)) }
{
    print_prim_head(prim, out)?;
    print_poses(prim.poses.as_slice(), out)
}

/// The lines before the first primitive.
fn print_head(prims: &Prims, out: &mut Vec<u8>) -> Result<(), NoMemory>
    ensures ok { OnOk result (out.new.items ≡ out.old.items ++ lines_text (prims_head prims.now)) }
{
    let cell = Nano(prims.cell());
    let headings = Number(u64::from(prims.headings()));
    let count = Number(u64::from(prims.len()));
    push_lines(
        out,
        &[
            &[Bytes(b"resolution_m:"), cell],
            &[Bytes(b"numberofangles:"), headings],
            &[Bytes(b"totalnumberofprimitives:"), count],
        ],
    )
}

fn print_each(prims: &[Prim], out: &mut Vec<u8>) -> Result<(), NoMemory>
    ensures ok { OnOk result (out.new.items ≡ out.old.items ++ lines_text (flat_map prim_lines prims.now)) }
{
    for prim in prims {
        print_prim(prim, out)?;
    }
    Ok(())
}

/// Appends the text of primitives, in the form of SBPL's primitive files. After `NoMemory` the text is unchanged.
#[tactic(auto, unfolding(crate::specs::Printed::prims_text))]
pub fn print_prims(prims: &Prims, out: &mut Vec<u8>) -> Result<(), NoMemory>
    ensures ok { OnOk result (out.new.items ≡ out.old.items ++ prims_text prims.now) }
    ensures err { OnErr result (out.new.items ≡ out.old.items) }
{
    let mut text = Vec::new(*out.allocator());
    print_head(prims, &mut text)?;
    print_each(prims.as_slice(), &mut text)?;
    out.extend_from_slice(&text)?;
    Ok(())
}
