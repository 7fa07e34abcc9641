//! The centre cells of primitives.

ghost use Rattle.std.specs.Prelude.{◌≡◌, ℕ, pos, negsuc, ◌<◌, slice_get, Some, IfOk, OnOk};
ghost use Rattle.sbpl_mprim.specs.sbpl_cfg.declared.pose.Pose.{Pose};
ghost use Rattle.sbpl_mprim.specs.sbpl_cfg.Environment.{IsWithin};
ghost use Rattle.sbpl_mprim.specs.Primitives.{offset_cell, IsOffsetInRange};
ghost use Rattle.sbpl_sweep.specs.Centres.{cell_of_pose, AreOrdered, AreCentres};

use crate::cell::Cell;
use sbpl_mprim::{NoMemory, Pose, cell_at};
use std::alloc::Global;

/// The number of the cell in which an offset from the centre of the source cell lies, for cells of this size, both in
/// nanometres.
pub(crate) fn offset_cell(cell: i64, offset: i64) -> i64
    requires cell { IsWithin (pos 1) (pos 1000000000000) cell }
    requires offset { IsWithin (negsuc 999999999999) (pos 1000000000000) offset }
    ensures value { result ≡ offset_cell cell offset }
{
    cell_at(2 * cell, cell + 2 * offset)
}

/// The cell in which a pose lies.
fn cell_of_pose(cell: i64, pose: &Pose) -> Cell
    requires cell { IsWithin (pos 1) (pos 1000000000000) cell }
    requires pose { IsOffsetInRange pose.now }
    ensures value { result ≡ cell_of_pose cell pose.now }
{
    Cell {
        y: offset_cell(cell, pose.y),
        x: offset_cell(cell, pose.x),
    }
}

/// Brings cells into order and drops repeats.
fn sort_cells(cells: &mut Vec<Cell>) -> Result<(), NoMemory>
    ensures sorted { OnOk result (AreOrdered cells.old.items cells.new.items) }
{
    cells.sort()?;
    cells.dedup();
    Ok(())
}

/// The cells in which poses lie, without repeats and in order.
pub(crate) fn centre_cells(alloc: Global, cell: i64, poses: &[Pose]) -> Result<Vec<Cell>, NoMemory>
    requires cell { IsWithin (pos 1) (pos 1000000000000) cell }
    requires poses { (i : ℕ) (p : Pose) → slice_get poses.now i ≡ Some p → IsOffsetInRange p }
    ensures centres { IfOk result (λ v. AreCentres cell poses.now v.items) }
{
    let mut cells = Vec::with_capacity(alloc, poses.len())?;
    for pose in poses {
        cells.push(cell_of_pose(cell, pose))?;
    }
    sort_cells(&mut cells)?;
    Ok(cells)
}
