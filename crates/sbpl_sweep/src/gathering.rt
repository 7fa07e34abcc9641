//! The cells of bands in one list.

ghost use Rattle.std.specs.Prelude.{◌≡◌, ◌↔◌, ℤ, pos, ◌<◌, ◌≤◌, ◌≤ℤ◌, [], ◌∷◌, ◌++◌};
ghost use Rattle.std.specs.Prelude.{length, IfOk, OnOk, IfErr, IsErrOf, IsTrue};
ghost use Rattle.sbpl_sweep.specs.Bands.{IsIn, IsCovered};
ghost use Rattle.sbpl_sweep.specs.Widths.{most_cells};
ghost use Rattle.sbpl_sweep.specs.Gathered.{IsListed, AreInOrder, AreCovered, IsStopOf, GoesOn, IsNext, AddsBand};
ghost use Rattle.sbpl_sweep.specs.Gathered.{AreSortedBands, CoverTheSame, AreBounded};

use crate::band::Band;
use crate::cell::Cell;
use crate::rows::MOST_CELLS;
use crate::stop::SweepStop;
use sbpl_mprim::NoMemory;
use std::alloc::Global;

/// Whether a cell is in a band's row, and not before the band.
fn is_after_start(cell: &Cell, band: &Band) -> bool
    ensures after { IsTrue result ↔ ((cell.now.y ≡ band.now.y) × (band.now.first ≤ℤ cell.now.x)) }
{
    cell.y == band.y && cell.x >= band.first
}

/// The first column of a band after the cells that are listed.
fn next_column(cells: &[Cell], band: &Band) -> i64
    requires ordered { AreInOrder cells.now }
    requires goes_on { GoesOn cells.now band.now }
    ensures next { IsNext cells.now band.now result }
{
    let Some(last) = cells.last() else {
        return band.first;
    };
    if is_after_start(last, band) {
        last.x + 1
    } else {
        band.first
    }
}

/// Adds a cell. `TooMany` where the cells are then more than a motion may sweep.
fn push_cell(cells: &mut Vec<Cell>, cell: Cell) -> Result<(), SweepStop>
    requires few { length cells.old.items ≤ most_cells }
    ensures added { OnOk result (cells.new.items ≡ cells.old.items ++ cell ∷ []) }
    ensures few { OnOk result (length cells.new.items ≤ most_cells) }
    ensures more { IsErrOf result SweepStop.TooMany → (cells.new.items ≡ cells.old.items ++ cell ∷ [])
        × (most_cells < length cells.new.items) }
{
    if let Err(_) = cells.push(cell) {
        return Err(SweepStop::NoMemory);
    }
    if cells.len() as u64 > MOST_CELLS {
        return Err(SweepStop::TooMany);
    }
    Ok(())
}

/// Adds the cells of a band that are not listed yet.
fn push_band(cells: &mut Vec<Cell>, band: &Band) -> Result<(), SweepStop>
    requires few { length cells.old.items ≤ most_cells }
    requires ordered { AreInOrder cells.old.items }
    requires goes_on { GoesOn cells.old.items band.now }
    requires end { band.now.first ≤ℤ band.now.last → band.now.last ≤ℤ pos 1000000000000000 }
    ensures added { OnOk result (AddsBand cells.old.items band.now cells.new.items) }
    ensures all { OnOk result ((x : ℤ) → IsIn band.now x band.now.y → IsListed cells.new.items x band.now.y) }
    ensures few { OnOk result (length cells.new.items ≤ most_cells) }
    ensures more { IsErrOf result SweepStop.TooMany → AddsBand cells.old.items band.now cells.new.items
        × (most_cells < length cells.new.items) }
{
    let mut x = next_column(cells, band);
    while x <= band.last {
        push_cell(cells, Cell { y: band.y, x })?;
        x += 1;
    }
    Ok(())
}

/// Lists the cells of bands that are in order.
fn list_cells(alloc: Global, bands: &[Band]) -> Result<Vec<Cell>, SweepStop>
    requires in_order { AreSortedBands bands.now }
    requires bounded { (x y : ℤ) → IsCovered bands.now x y → x ≤ℤ pos 1000000000000000 }
    ensures cells { IfOk result (λ v. AreCovered bands.now v.items) }
    ensures stop { IfErr result (IsStopOf bands.now) }
{
    let mut cells = Vec::new(alloc);
    for band in bands {
        push_band(&mut cells, band)?;
    }
    Ok(cells)
}

/// Brings bands into order.
fn sort_bands(bands: &mut Vec<Band>) -> Result<(), NoMemory>
    ensures sorted { OnOk result (AreSortedBands bands.new.items) }
    ensures same { OnOk result (CoverTheSame bands.old.items bands.new.items) }
{
    bands.sort()?;
    Ok(())
}

/// Lists the cells that bands cover, each once and in order. It brings the bands into order.
pub(crate) fn gather(alloc: Global, bands: &mut Vec<Band>) -> Result<Vec<Cell>, SweepStop>
    requires bounded { AreBounded bands.old.items }
    ensures cells { IfOk result (λ v. AreCovered bands.old.items v.items) }
    ensures stop { IfErr result (IsStopOf bands.old.items) }
{
    sort_bands(bands)?;
    list_cells(alloc, bands.as_slice())
}
