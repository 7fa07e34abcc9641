//! The cells that a disc touches, row by row.

ghost use Rattle.std.specs.Prelude.{◌≡◌, ℕ, ℤ, pos, negsuc, ◌+◌, ◌*◌, ◌^◌, ◌<◌, ◌≤◌, ◌*ℤ◌};
ghost use Rattle.std.specs.Prelude.{◌+ℤ◌, OnOk, IsErrOf};
ghost use Rattle.sbpl_mprim.specs.sbpl_cfg.declared.pose.Pose.{Pose};
ghost use Rattle.sbpl_mprim.specs.sbpl_cfg.Environment.{IsWithin};
ghost use Rattle.sbpl_mprim.specs.Primitives.{IsOffsetInRange};
ghost use Rattle.sbpl_sweep.specs.Reach.{squared_step, IsReach};
ghost use Rattle.sbpl_sweep.specs.Bands.{IsDisc, AddsRows, AddsDisc, HasWideRow, gap_beside, row_beside};
ghost use Rattle.sbpl_sweep.specs.Discs.{IsInBounds};

use crate::band::Band;
use crate::disc::Disc;
use crate::reach::{Axis, axis_at, reach_of, shrunk};
use crate::stop::SweepStop;
use sbpl_mprim::{NoMemory, Pose};

/// The most cells that a motion may sweep.
pub(crate) const MOST_CELLS: u64 = 65_536;

/// Twice a cell's size, which is its side in half nanometres.
fn side_of(cell: i64) -> u64
    requires cell { IsWithin (pos 1) (pos 1000000000000) cell }
    ensures side { pos result ≡ pos 2 *ℤ cell }
    ensures bounds { (1 ≤ result) × (result ≤ 2 * 10 ^ 12) }
{
    2 * cell.unsigned_abs()
}

/// Where an offset from the centre of the source cell lies, from the source cell's corner, in half nanometres.
fn position_of(cell: i64, offset: i64) -> i64
    requires cell { IsWithin (pos 1) (pos 1000000000000) cell }
    requires offset { IsWithin (negsuc 999999999999) (pos 1000000000000) offset }
    ensures value { result ≡ cell +ℤ (pos 2 *ℤ offset) }
    ensures bounds { IsWithin (negsuc 2999999999999) (pos 3000000000000) result }
{
    cell + 2 * offset
}

/// The disc of this radius around a pose.
pub(crate) fn disc_of(cell: i64, radius: u64, pose: &Pose) -> Disc
    requires cell { IsWithin (pos 1) (pos 1000000000000) cell }
    requires radius { radius ≤ 10 ^ 12 }
    requires pose { IsOffsetInRange pose.now }
    ensures disc { IsDisc cell radius pose.now result }
    ensures bounds { IsInBounds result }
{
    let side = side_of(cell);
    Disc {
        column: axis_at(side, position_of(cell, pose.x)),
        row: axis_at(side, position_of(cell, pose.y)),
        side,
        radius: 2 * radius,
    }
}

/// The cells from `left` before a disc's own column to `right` after it, in this row.
fn band_of(disc: &Disc, y: i64, left: u64, right: u64) -> Band
    requires bounds { IsInBounds disc.now }
    requires left { left ≤ 4 * 10 ^ 12 }
    requires right { right ≤ 4 * 10 ^ 12 }
    ensures row { result.y ≡ y }
    ensures first { result.first +ℤ pos left ≡ disc.now.column.own }
    ensures last { result.last ≡ disc.now.column.own +ℤ pos right }
{
    let own = disc.column.own;
    Band {
        y,
        first: own - left as i64,
        last: own + right as i64,
    }
}

/// How far the next row to one side is.
fn gap_beside(axis: &Axis, upward: bool) -> u64
    ensures value { result ≡ gap_beside upward axis.now }
{
    if upward { axis.after } else { axis.before }
}

/// The row with number `n` beyond the next one, to one side.
fn row_beside(own: i64, upward: bool, n: u64) -> i64
    requires own { IsWithin (negsuc 2999999999999) (pos 3000000000000) own }
    requires n { n ≤ 4 * 10 ^ 12 }
    ensures value { result ≡ row_beside upward own n }
{
    let steps = n as i64 + 1;
    if upward { own + steps } else { own - steps }
}

/// What is left of the square of a disc's radius in the row with number `n` beyond the next one.
fn rest_of_square(radius: u64, gap: u64, side: u64, n: u64) -> u128
    requires radius { radius ≤ 2 * 10 ^ 12 }
    requires row { squared_step gap side n < radius * radius }
    ensures value { result + squared_step gap side n ≡ radius * radius }
    ensures some { 0 < result }
{
    let radius = u128::from(radius);
    let step = u128::from(gap + side * n);
    radius * radius - step * step
}

/// Adds the cells that a disc touches in the rows to one side of its own, of which there are `rows`. In its own row it
/// reaches no further than `left` and `right`.
pub(crate) fn push_rows(
    bands: &mut Vec<Band>,
    disc: &Disc,
    upward: bool,
    rows: u64,
    mut left: u64,
    mut right: u64,
) -> Result<(), NoMemory>
    requires bounds { IsInBounds disc.now }
    requires rows { IsReach (gap_beside upward disc.now.row) disc.now.side (disc.now.radius * disc.now.radius) rows }
    requires left { IsReach disc.now.column.before disc.now.side (disc.now.radius * disc.now.radius) left }
    requires right { IsReach disc.now.column.after disc.now.side (disc.now.radius * disc.now.radius) right }
    requires left_inside { disc.now.column.before + disc.now.side * left ≤ 4 * 10 ^ 12 }
    requires right_inside { disc.now.column.after + disc.now.side * right ≤ 4 * 10 ^ 12 }
    requires rows_inside { rows ≤ 4 * 10 ^ 12 }
    ensures rows { (cell : ℤ) (radius : ℕ) (p : Pose) → IsDisc cell radius p disc.now
        → OnOk result (AddsRows cell radius p upward disc.now.row.own rows bands.old.items bands.new.items) }
{
    let gap = gap_beside(&disc.row, upward);
    for n in 0..rows {
        let most = rest_of_square(disc.radius, gap, disc.side, n);
        left = shrunk(left, disc.column.before, disc.side, most);
        right = shrunk(right, disc.column.after, disc.side, most);
        let y = row_beside(disc.row.own, upward, n);
        bands.push(band_of(disc, y, left, right))?;
    }
    Ok(())
}

/// Adds the cells that a disc sweeps. In its own row it reaches this far to the left and to the right.
fn push_cells_of(bands: &mut Vec<Band>, disc: &Disc, left: u64, right: u64) -> Result<(), NoMemory>
    requires bounds { IsInBounds disc.now }
    requires left { IsReach disc.now.column.before disc.now.side (disc.now.radius * disc.now.radius) left }
    requires right { IsReach disc.now.column.after disc.now.side (disc.now.radius * disc.now.radius) right }
    requires left_inside { disc.now.column.before + disc.now.side * left ≤ 4 * 10 ^ 12 }
    requires right_inside { disc.now.column.after + disc.now.side * right ≤ 4 * 10 ^ 12 }
    requires few { (left ≤ 4 * 10 ^ 12) × (right ≤ 4 * 10 ^ 12) }
    ensures cells { (cell : ℤ) (radius : ℕ) (p : Pose) → IsDisc cell radius p disc.now
        → OnOk result (AddsDisc cell radius p bands.old.items bands.new.items) }
{
    bands.push(band_of(disc, disc.row.own, left, right))?;
    let above = reach_of(disc.row.after, disc.side, disc.radius);
    push_rows(bands, disc, true, above, left, right)?;
    let below = reach_of(disc.row.before, disc.side, disc.radius);
    push_rows(bands, disc, false, below, left, right)?;
    Ok(())
}

/// Adds the cells that a disc sweeps, if its own row has no more than a motion may sweep.
pub(crate) fn push_disc(bands: &mut Vec<Band>, disc: &Disc) -> Result<(), SweepStop>
    requires bounds { IsInBounds disc.now }
    ensures cells { (cell : ℤ) (radius : ℕ) (p : Pose) → IsDisc cell radius p disc.now
        → OnOk result (AddsDisc cell radius p bands.old.items bands.new.items) }
    ensures wide { (cell : ℤ) (radius : ℕ) (p : Pose) → IsDisc cell radius p disc.now
        → IsErrOf result SweepStop.TooMany → HasWideRow cell radius p }
{
    let left = reach_of(disc.column.before, disc.side, disc.radius);
    let right = reach_of(disc.column.after, disc.side, disc.radius);
    if left + right >= MOST_CELLS {
        return Err(SweepStop::TooMany);
    }
    push_cells_of(bands, disc, left, right)?;
    Ok(())
}
