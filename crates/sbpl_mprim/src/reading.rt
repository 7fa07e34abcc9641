//! The parts of a primitive file are read.

ghost use Rattle.std.specs.Prelude.{◌≡◌, ◌-◌, ◌+◌, ◌<◌, ◌≤◌, ℕ, [], pos, negsuc, length, sum_by, vec_len};
ghost use Rattle.std.specs.Prelude.{IfOk, OnOk};
ghost use Rattle.sbpl_cfg.specs.Environment.{IsWithin};
ghost use Rattle.sbpl_fixed.specs.Formats.{Gives, Left, reads, turns};
ghost use Rattle.sbpl_mprim.specs.declared.fault.PrimFault.TheVariants.{NoMemory as Memory};
ghost use Rattle.sbpl_mprim.specs.Faults.{told};
ghost use Rattle.sbpl_mprim.specs.Primitives.{IsOffsetInRange, pose_count};
ghost use Rattle.sbpl_mprim.specs.Reading.{angles_format, count_format, end_format, front_format, head_format, judged};
ghost use Rattle.sbpl_mprim.specs.Reading.{made, mult_format, path_format, pose_format, pose_turn, prim_format, prim_turn};
ghost use Rattle.sbpl_mprim.specs.Reading.{prims_format, resolution_format, signed_format, start_format, total_format};
ghost use Rattle.sbpl_mprim.specs.Text.{AreSizes};

use crate::earlier::Earlier;
use crate::fault::PrimFault;
use crate::judging::{costs_nothing, heading_modulo, is_in_bin, is_in_cell};
use crate::parts::{End, PlacedPose, Start};
use crate::prim::{Poses, Prim, Primitive};
use sbpl_cfg::Pose;
use sbpl_fixed::Reader;
use std::alloc::Global;

/// The greatest absolute value of a pose's x and y, in nanometres.
const MOST_OFFSET: i64 = 1_000_000_000_000;

/// The greatest absolute value of a pose's angle, in nanoradians.
const MOST_ANGLE: i64 = 1_000_000_000_000_000_000;

/// The most poses that a file may have.
const MOST_POSES: u32 = 200_000;

#[tactic(auto, unfolding(sbpl_fixed::specs::Formats::reads, crate::specs::Reading::pose_format))]
fn read_pose(reader: &mut Reader) -> Result<PlacedPose, PrimFault>
    ensures read { Gives Memory (λ x. x) result reader.new (reads told pose_format reader.old) }
    ensures range { IfOk result (λ p. IsOffsetInRange p.pose) }
{
    let x = reader.nano(-MOST_OFFSET, MOST_OFFSET)?;
    let y = reader.nano(-MOST_OFFSET, MOST_OFFSET)?;
    let theta = reader.nano(-MOST_ANGLE, MOST_ANGLE)?;
    let pose = Pose {
        x: x.value,
        y: y.value,
        theta: theta.value,
    };
    Ok(PlacedPose {
        pose,
        x_place: x.place,
        theta_place: theta.place,
    })
}

#[tactic(auto, unfolding(sbpl_fixed::specs::Formats::reads, crate::specs::Reading::signed_format))]
fn read_signed(reader: &mut Reader) -> Result<i32, PrimFault>
    ensures read { Gives Memory (λ x. x) result reader.new (reads told signed_format reader.old) }
{
    let number = reader.whole(-32767, 32767)?;
    Ok(number.value as i32)
}

#[tactic(auto, using(sbpl_fixed::specs::Parts::reads_and_then), unfolding(sbpl_fixed::specs::Formats::reads, crate::specs::Reading::end_format))]
fn read_end(headings: u32, reader: &mut Reader) -> Result<End, PrimFault>
    requires some { 0 < headings }
    requires few { headings ≤ 64 }
    ensures read { Gives Memory (λ x. x) result reader.new (reads told (end_format headings) reader.old) }
{
    reader.word(b"endpose_c:")?;
    let dx = read_signed(reader)?;
    let dy = read_signed(reader)?;
    let t = read_signed(reader)?;
    let to = heading_modulo(headings, t);
    Ok(End { dx, dy, to })
}

#[tactic(auto, unfolding(sbpl_fixed::specs::Formats::reads, crate::specs::Reading::start_format))]
fn read_start(headings: u32, earlier: &Earlier, reader: &mut Reader) -> Result<Start, PrimFault>
    requires some { 0 < headings }
    ensures read { Gives Memory (λ x. x) result reader.new (reads told (start_format headings earlier.now) reader.old) }
{
    reader.word(b"primID:")?;
    let id = reader.natural(0, 65535)?;
    reader.word(b"startangle_c:")?;
    let from = reader.natural(0, headings - 1)?.value;
    if earlier.has_id(from, id.value) {
        return Err(PrimFault::SameId(id.place));
    }
    Ok(Start {
        id: id.value,
        from,
        place: id.place,
    })
}

#[tactic(auto, unfolding(sbpl_fixed::specs::Formats::reads, crate::specs::Reading::mult_format))]
fn read_mult(reader: &mut Reader) -> Result<u32, PrimFault>
    ensures read { Gives Memory (λ x. x) result reader.new (reads told mult_format reader.old) }
{
    reader.word(b"additionalactioncostmult:")?;
    let mult = reader.natural(0, 16_777_215)?;
    Ok(mult.value)
}

#[tactic(auto, unfolding(sbpl_fixed::specs::Formats::reads, crate::specs::Reading::count_format))]
fn read_count(before: u32, reader: &mut Reader) -> Result<u32, PrimFault>
    requires few { before ≤ 200000 }
    ensures read { Gives Memory (λ x. x) result reader.new (reads told (count_format before) reader.old) }
    ensures range { IfOk result (λ n. (1 ≤ n) × (before + n ≤ 200000)) }
{
    reader.word(b"intermediateposes:")?;
    let count = reader.natural(0, MOST_POSES)?;
    if count.value == 0 {
        return Err(PrimFault::NoPose(count.place));
    }
    if before + count.value > MOST_POSES {
        return Err(PrimFault::TooLarge(count.place));
    }
    Ok(count.value)
}

/// Reads one more pose.
#[tactic(auto, using(sbpl_fixed::specs::Parts::reads_and_then), unfolding(sbpl_fixed::specs::Formats::reads, crate::specs::Reading::pose_turn))]
fn read_next_pose(poses: &mut Vec<Pose>, reader: &mut Reader) -> Result<(), PrimFault>
    ensures read { Gives Memory (λ _. poses.new.items) result reader.new (reads told (pose_turn poses.old.items) reader.old) }
    ensures count { OnOk result (vec_len poses.new ≡ vec_len poses.old + 1) }
{
    let next = read_pose(reader)?;
    poses.push(next.pose)?;
    Ok(())
}

/// Reads `count` more poses.
#[tactic(auto, using(sbpl_fixed::specs::Parts::reads_and_then, sbpl_fixed::specs::Parts::turns_next, sbpl_fixed::specs::Parts::turns_over), unfolding(sbpl_fixed::specs::Formats::reads))]
fn read_poses(count: u32, poses: &mut Vec<Pose>, reader: &mut Reader) -> Result<(), PrimFault>
    ensures read { Gives Memory (λ _. poses.new.items) result reader.new
        (reads told (turns count pose_turn poses.old.items) reader.old) }
    ensures count { OnOk result (vec_len poses.new ≡ vec_len poses.old + count) }
{
    for _ in 0..count {
        read_next_pose(poses, reader)?;
    }
    Ok(())
}

/// Reads the poses of a primitive. Answers the last of them again, with its offsets.
#[tactic(auto, using(sbpl_fixed::specs::Parts::reads_and_then), unfolding(sbpl_fixed::specs::Formats::reads, crate::specs::Reading::path_format))]
fn read_path(
    alloc: Global,
    count: u32,
    reader: &mut Reader,
) -> Result<(Poses, PlacedPose), PrimFault>
    requires some { 1 ≤ count }
    ensures read { Gives Memory (λ x. (x.0, x.1)) result reader.new (reads told (path_format count) reader.old) }
    ensures count { IfOk result (λ x. length x.0 ≡ count) }
    ensures range { IfOk result (λ x. IsOffsetInRange x.1.pose) }
{
    let mut poses = Vec::with_capacity(alloc, count as usize)?;
    read_poses(count - 1, &mut poses, reader)?;
    let last = read_pose(reader)?;
    poses.push(last.pose)?;
    Ok((Poses::of(poses), last))
}

/// A primitive whose tokens were read ends where it says, and costs something.
#[tactic(auto, unfolding(sbpl_fixed::specs::Formats::reads, crate::specs::Reading::judged))]
fn judge(
    cell: i64,
    headings: u32,
    id_place: usize,
    last: PlacedPose,
    prim: &Prim,
) -> Result<(), PrimFault>
    requires cell { IsWithin (pos 1) (pos 1000000000000) cell }
    requires headings { 0 < headings }
    requires last { IsOffsetInRange last.pose }
    ensures judged { (left : Left) → Gives Memory (λ _. prim.now) result left
        (reads told (judged cell headings id_place last prim.now) left) }
{
    if !is_in_cell(cell, prim.dx, prim.dy, last.pose) {
        return Err(PrimFault::EndCell(last.x_place));
    }
    if !is_in_bin(headings, prim.to, last.pose) {
        return Err(PrimFault::EndHeading(last.theta_place));
    }
    if costs_nothing(prim) {
        return Err(PrimFault::ZeroCost(id_place));
    }
    Ok(())
}

/// Reads what stands before the poses of a primitive.
#[tactic(auto, using(sbpl_fixed::specs::Parts::reads_and_then), unfolding(sbpl_fixed::specs::Formats::reads, crate::specs::Reading::front_format))]
fn read_front(
    headings: u32,
    earlier: &Earlier,
    reader: &mut Reader,
) -> Result<(Start, End, u32), PrimFault>
    requires some { 0 < headings }
    requires few { headings ≤ 64 }
    ensures read { Gives Memory (λ x. (x.0, x.1, x.2)) result reader.new
        (reads told (front_format headings earlier.now) reader.old) }
{
    let start = read_start(headings, earlier, reader)?;
    let end = read_end(headings, reader)?;
    let mult = read_mult(reader)?;
    Ok((start, end, mult))
}

fn made(start: Start, end: End, mult: u32, poses: Poses) -> Prim
    ensures made { result ≡ made start end mult poses }
{
    Primitive {
        id: start.id,
        from: start.from,
        dx: end.dx,
        dy: end.dy,
        to: end.to,
        mult,
        poses,
    }
}

/// Reads one primitive after the earlier ones.
#[tactic(auto, using(sbpl_fixed::specs::Parts::reads_and_then), unfolding(sbpl_fixed::specs::Formats::reads, crate::specs::Reading::prim_format))]
fn read_prim(
    alloc: Global,
    cell: i64,
    headings: u32,
    earlier: &Earlier,
    reader: &mut Reader,
) -> Result<Prim, PrimFault>
    requires cell { IsWithin (pos 1) (pos 1000000000000) cell }
    requires some { 0 < headings }
    requires few { headings ≤ 64 }
    ensures read { Gives Memory (λ x. x) result reader.new (reads told (prim_format cell headings earlier.now) reader.old) }
    ensures few { IfOk result (λ x. sum_by pose_count earlier.now + length x.poses ≤ 200000) }
{
    let (start, end, mult) = read_front(headings, earlier, reader)?;
    let count = read_count(earlier.poses(), reader)?;
    let (poses, last) = read_path(alloc, count, reader)?;
    let prim = made(start, end, mult, poses);
    judge(cell, headings, start.place, last, &prim)?;
    Ok(prim)
}

/// Reads one more primitive.
#[tactic(auto, using(sbpl_fixed::specs::Parts::reads_and_then), unfolding(sbpl_fixed::specs::Formats::reads, crate::specs::Reading::prim_turn))]
fn read_next_prim(
    alloc: Global,
    cell: i64,
    headings: u32,
    earlier: &mut Earlier,
    reader: &mut Reader,
) -> Result<(), PrimFault>
    requires cell { IsWithin (pos 1) (pos 1000000000000) cell }
    requires some { 0 < headings }
    requires few { headings ≤ 64 }
    ensures read { Gives Memory (λ _. earlier.new) result reader.new
        (reads told (prim_turn cell headings earlier.old) reader.old) }
{
    let prim = read_prim(alloc, cell, headings, earlier, reader)?;
    earlier.push(prim)?;
    Ok(())
}

#[tactic(auto, unfolding(sbpl_fixed::specs::Formats::reads, crate::specs::Reading::resolution_format))]
fn read_resolution(cell: i64, reader: &mut Reader) -> Result<i64, PrimFault>
    ensures read { Gives Memory (λ x. x) result reader.new (reads told (resolution_format cell) reader.old) }
    ensures size { OnOk result (IsWithin (pos 1) (pos 1000000000000) cell) }
{
    reader.word(b"resolution_m:")?;
    let resolution = reader.nano(1, 1_000_000_000_000)?;
    if resolution.value == cell {
        Ok(resolution.value)
    } else {
        Err(PrimFault::Resolution(resolution.place))
    }
}

#[tactic(auto, unfolding(sbpl_fixed::specs::Formats::reads, crate::specs::Reading::angles_format))]
fn read_angles(headings: u32, reader: &mut Reader) -> Result<u32, PrimFault>
    ensures read { Gives Memory (λ x. x) result reader.new (reads told (angles_format headings) reader.old) }
    ensures angles { OnOk result ((1 ≤ headings) × (headings ≤ 64)) }
{
    reader.word(b"numberofangles:")?;
    let angles = reader.natural(1, 64)?;
    if angles.value == headings {
        Ok(angles.value)
    } else {
        Err(PrimFault::Angles(angles.place))
    }
}

#[tactic(auto, unfolding(sbpl_fixed::specs::Formats::reads, crate::specs::Reading::total_format))]
fn read_total(reader: &mut Reader) -> Result<u32, PrimFault>
    ensures read { Gives Memory (λ x. x) result reader.new (reads told total_format reader.old) }
{
    reader.word(b"totalnumberofprimitives:")?;
    let total = reader.natural(0, 4096)?;
    Ok(total.value)
}

/// Reads what stands before the first primitive. Answers how many there are.
#[tactic(auto, using(sbpl_fixed::specs::Parts::reads_and_then), unfolding(sbpl_fixed::specs::Formats::reads, crate::specs::Reading::head_format))]
fn read_head(cell: i64, headings: u32, reader: &mut Reader) -> Result<u32, PrimFault>
    ensures read { Gives Memory (λ x. x) result reader.new (reads told (head_format cell headings) reader.old) }
    ensures sizes { OnOk result (AreSizes cell headings) }
{
    read_resolution(cell, reader)?;
    read_angles(headings, reader)?;
    let total = read_total(reader)?;
    Ok(total)
}

/// Reads `total` primitives.
#[tactic(auto, using(sbpl_fixed::specs::Parts::reads_and_then, sbpl_fixed::specs::Parts::turns_next, sbpl_fixed::specs::Parts::turns_over), unfolding(sbpl_fixed::specs::Formats::reads))]
fn read_each(
    alloc: Global,
    cell: i64,
    headings: u32,
    total: u32,
    reader: &mut Reader,
) -> Result<Earlier, PrimFault>
    requires cell { IsWithin (pos 1) (pos 1000000000000) cell }
    requires some { 0 < headings }
    requires few { headings ≤ 64 }
    ensures read { Gives Memory (λ x. x) result reader.new (reads told (turns total (prim_turn cell headings) []) reader.old) }
{
    let mut prims = Earlier::new(alloc);
    for _ in 0..total {
        read_next_prim(alloc, cell, headings, &mut prims, reader)?;
    }
    Ok(prims)
}

/// Reads all of a file.
#[tactic(auto, using(sbpl_fixed::specs::Parts::reads_and_then), unfolding(sbpl_fixed::specs::Formats::reads, crate::specs::Reading::prims_format))]
pub(crate) fn read_all(
    alloc: Global,
    cell: i64,
    headings: u32,
    reader: &mut Reader,
) -> Result<Vec<Prim>, PrimFault>
    ensures read { Gives Memory (λ x. x.items) result reader.new (reads told (prims_format cell headings) reader.old) }
    ensures sizes { OnOk result (AreSizes cell headings) }
{
    let total = read_head(cell, headings, reader)?;
    let prims = read_each(alloc, cell, headings, total, reader)?;
    reader.end()?;
    Ok(prims.into_vec())
}
