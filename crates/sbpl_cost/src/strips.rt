//! Lists of cells as strips.

ghost use Rattle.std.specs.Prelude.{◌≡◌, [], ◌∷◌, ◌++◌, IfOk, IfSome, OnOk};
ghost use Rattle.sbpl_cost.specs.Strips.{cells_in, strip_cells};

use crate::strip::Strip;
use sbpl_sweep::{Cell, NoMemory};
use std::alloc::Global;

/// The strip with this cell too, where the cell is the next one in its row.
fn with_next(strip: Strip, cell: Cell) -> Option<Strip>
    ensures longer { IfSome result (λ s. strip_cells s ≡ strip_cells strip ++ cell ∷ []) }
{
    let next = strip.from.checked_add(i64::from(strip.len))?;
    if strip.y == cell.y && next == cell.x && strip.len < u32::MAX {
        Some(Strip {
            len: strip.len + 1,
            ..strip
        })
    } else {
        None
    }
}

/// Adds a strip, where it has a cell.
fn push_strip(strips: &mut Vec<Strip>, strip: Strip) -> Result<(), NoMemory>
    ensures added { OnOk result (cells_in strips.new.items ≡ cells_in strips.old.items ++ strip_cells strip) }
{
    if strip.len > 0 {
        strips.push(strip)?;
    }
    Ok(())
}

/// The strips of a list of cells: they have the same cells in the same order. Cells that are ordered by row and column make one
/// strip of those that lie one beside the other.
pub(crate) fn strips_of(alloc: Global, cells: &[Cell]) -> Result<Vec<Strip>, NoMemory>
    ensures cells { IfOk result (λ strips. cells_in strips.items ≡ cells.now) }
{
    let mut strips = Vec::new(alloc);
    let mut strip = Strip {
        y: 0,
        from: 0,
        len: 0,
    };
    for cell in cells {
        match with_next(strip, *cell) {
            Some(longer) => strip = longer,
            None => {
                push_strip(&mut strips, strip)?;
                strip = Strip {
                    y: cell.y,
                    from: cell.x,
                    len: 1,
                };
            }
        }
    }
    push_strip(&mut strips, strip)?;
    Ok(strips)
}
