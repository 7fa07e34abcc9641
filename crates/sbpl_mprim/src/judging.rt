//! Tests of one primitive: where its last pose lies, and whether it moves at all.

ghost use Rattle.std.specs.Prelude.{◌≡◌, ◌↔◌, ℕ, ℤ, ◌<◌, ◌≤◌, true, List, pos, negsuc};
ghost use Rattle.std.specs.List.{list_all};
ghost use Rattle.std.specs.Ordering.{int_eq};
ghost use Rattle.sbpl_cfg.specs.Environment.{IsWithin};
ghost use Rattle.sbpl_cfg.specs.Place.{heading_of};
ghost use Rattle.sbpl_cfg.specs.declared.pose.Pose.{Pose as APose};
ghost use Rattle.sbpl_mprim.specs.declared.prim.Primitive.{Primitive};
ghost use Rattle.sbpl_mprim.specs.Judging.{CostsNothing, HasId, are_at_one_point, costs_nothing, has_id, heading_modulo};
ghost use Rattle.sbpl_mprim.specs.Judging.{is_in_bin, is_in_cell, is_same_point};
ghost use Rattle.sbpl_mprim.specs.Primitives.{offset_cell, IsOffsetInRange};

use crate::prim::Prim;
use sbpl_cfg::{Pose, cell_at, heading_at};

/// An end heading as a file writes it, taken modulo the number of headings: -1 is the last one, and `headings` is 0.
pub(crate) fn heading_modulo(headings: u32, t: i32) -> u32
    requires some { 0 < headings }
    requires few { headings ≤ 64 }
    ensures heading { result ≡ heading_modulo headings t }
    ensures bound { result < headings }
{
    t.rem_euclid(headings as i32) as u32
}

/// The cell of an offset from the centre of the source cell, counted from the source cell. Both are nanometres.
/// The centre is half a cell away, so that the quotient is taken in half nanometres, rounded down also below zero.
fn offset_cell(cell: i64, x: i64) -> i64
    requires cell { IsWithin (pos 1) (pos 1000000000000) cell }
    requires offset { IsWithin (negsuc 999999999999) (pos 1000000000000) x }
    ensures cell { result ≡ offset_cell cell x }
{
    cell_at(2 * cell, cell + 2 * x)
}

/// An offset lies in a cell, counted from the source cell.
fn is_cell_of(cell: i64, x: i64, wanted: i32) -> bool
    requires cell { IsWithin (pos 1) (pos 1000000000000) cell }
    requires offset { IsWithin (negsuc 999999999999) (pos 1000000000000) x }
    ensures inside { result ≡ int_eq (offset_cell cell x) wanted }
{
    offset_cell(cell, x) == i64::from(wanted)
}

/// A pose lies in a cell, counted from the source cell.
pub(crate) fn is_in_cell(cell: i64, dx: i32, dy: i32, last: Pose) -> bool
    requires cell { IsWithin (pos 1) (pos 1000000000000) cell }
    requires last { IsOffsetInRange last }
    ensures inside { result ≡ is_in_cell cell dx dy last }
{
    is_cell_of(cell, last.x, dx) && is_cell_of(cell, last.y, dy)
}

/// A pose's angle lies in the bin of a heading.
pub(crate) fn is_in_bin(headings: u32, to: u32, last: Pose) -> bool
    requires some { 0 < headings }
    ensures inside { result ≡ is_in_bin headings to last }
{
    heading_at(headings, last.theta) == to
}

fn is_same_point(p: &Pose, q: &Pose) -> bool
    ensures same { result ≡ is_same_point p.now q.now }
{
    p.x == q.x && p.y == q.y
}

fn are_at(point: &Pose, poses: &[Pose]) -> bool
    ensures same { result ≡ list_all (is_same_point point.now) poses.now }
{
    poses.iter().all(|p| is_same_point(point, p))
}

/// No pose leaves the point of the first.
fn are_at_one_point(poses: &[Pose]) -> bool
    ensures same { result ≡ are_at_one_point poses.now }
{
    match poses.split_first() {
        Some((first, rest)) => are_at(first, rest),
        None => true,
    }
}

/// The primitive costs nothing: its multiplier is 0, or it neither moves nor turns.
pub(crate) fn costs_nothing(prim: &Prim) -> bool
    ensures nothing { result ≡ costs_nothing prim.now }
{
    prim.mult == 0 || (prim.from == prim.to && are_at_one_point(prim.poses.as_slice()))
}

/// What the tests of a primitive say, in plain words: a pose lies in a cell where both its coordinates do; a primitive
/// costs nothing where its multiplier is 0, or where all its poses are at one point and it doesn't turn; and an id is taken
/// where a primitive with the same start heading has it.
pub fn primitives_are_judged_in_plain_words()
    ensures cell { (cell dx dy : ℤ) (p : APose) → (is_in_cell cell dx dy p ≡ true)
        ↔ ((offset_cell cell p.x ≡ dx) × (offset_cell cell p.y ≡ dy)) }
    ensures cost { (prim : Primitive) → (costs_nothing prim ≡ true) ↔ CostsNothing prim }
    ensures id { (prims : List Primitive) (from id : ℕ) → (has_id prims from id ≡ true) ↔ HasId prims from id }
{}
