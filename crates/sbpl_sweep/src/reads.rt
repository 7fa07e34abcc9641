//! Which cells judging primitives reads.

ghost use Rattle.std.specs.Prelude.{◌≡◌, ℕ, ◌+◌, ◌≤◌, ◌++◌, List, length, map, slice_get, sum_by, Some};
ghost use Rattle.std.specs.Prelude.{IsTrue, false, IfOk, OnOk};
ghost use Rattle.sbpl_sweep.specs.declared.cell.Cell.{Cell};
ghost use Rattle.sbpl_sweep.specs.Gathered.{AreInOrder};
ghost use Rattle.sbpl_sweep.specs.Widths.{cell_count};
ghost use Rattle.sbpl_sweep.specs.ReadTables.{IsAmong, source_cell, read_by, AddsSource, AddsReads, AreReadsOf};

use crate::cell::Cell;
use sbpl_mprim::{NoMemory, Runs};
use std::alloc::Global;

/// A primitive, by its index in the file, and a cell that judging it reads, as an offset from its source cell.
#[derive(Clone, Copy, Debug, PartialEq, Eq)]
pub struct Read {
    pub prim: u32,
    pub cell: Cell,
}

/// The source cell of a motion.
const HERE: Cell = Cell { y: 0, x: 0 };

/// Whether the source cell of a motion is among some cells.
fn has_source(cells: &[Cell]) -> bool
    ensures there { IsTrue result → IsAmong cells.now source_cell }
    ensures elsewhere { result ≡ false → IsAmong cells.now source_cell → ⊥ }
{
    cells.contains(&HERE)
}

/// Adds a primitive's read of its source cell, where this is not among the cells that it sweeps.
fn push_source(reads: &mut Vec<Read>, prim: u32, swept: &[Cell]) -> Result<(), NoMemory>
    ensures added { OnOk result (AddsSource prim swept.now reads.old.items reads.new.items) }
{
    if !has_source(swept) {
        reads.push(Read { prim, cell: HERE })?;
    }
    Ok(())
}

/// Adds a primitive's reads of some cells.
fn push_cells(reads: &mut Vec<Read>, prim: u32, cells: &[Cell]) -> Result<(), NoMemory>
    ensures added { OnOk result (reads.new.items ≡ reads.old.items ++ map (read_by prim) cells.now) }
{
    for cell in cells {
        reads.push(Read { prim, cell: *cell })?;
    }
    Ok(())
}

/// Adds the reads of a primitive that sweeps these cells.
fn push_reads(reads: &mut Vec<Read>, prim: u32, swept: &[Cell]) -> Result<(), NoMemory>
    requires ordered { AreInOrder swept.now }
    ensures added { OnOk result (AddsReads prim swept.now reads.old.items reads.new.items) }
{
    push_source(reads, prim, swept)?;
    push_cells(reads, prim, swept)?;
    Ok(())
}

/// The reads of primitives that sweep these cells, each once.
pub(crate) fn read_table(alloc: Global, swept: &Runs<Cell>) -> Result<Vec<Read>, NoMemory>
    requires ordered { (i : ℕ) (cells : List Cell) → slice_get swept.now i ≡ Some cells → AreInOrder cells }
    requires few { length swept.now ≤ 4096 }
    ensures reads { IfOk result (λ v. AreReadsOf swept.now (length swept.now) v.items) }
    ensures count { IfOk result (λ v. length v.items ≤ sum_by cell_count swept.now + length swept.now) }
{
    let mut reads = Vec::new(alloc);
    for i in 0..swept.count() {
        push_reads(&mut reads, i as u32, swept.at(i))?;
    }
    Ok(reads)
}
