//! The tables of the centre cells and the swept cells of all primitives.

ghost use Rattle.std.specs.Prelude.{◌≡◌, ◌<◌, ◌≤◌, ◌^◌, length, sum_by, IfOk, IfErr};
ghost use Rattle.sbpl_sweep.specs.Tables.{HaveCentres, HaveSwept};
ghost use Rattle.sbpl_sweep.specs.Widths.{NoneTooWide, IsCause, cell_count, most_cells_together};
ghost use Rattle.sbpl_sweep.specs.Sweeping.{AreFewSweptAt, IsOwnCause};

use crate::cell::Cell;
use crate::centres::centre_cells;
use crate::fault::SweepFault;
use crate::stop::SweepStop;
use crate::sweeping::swept_cells;
use sbpl_mprim::{NoMemory, Prims, Runs};
use std::alloc::Global;

/// The most cells that all primitives may sweep together.
const MOST_TOGETHER: u64 = 4_194_304;

/// For each primitive its centre cells.
pub(crate) fn centre_table(alloc: Global, prims: &Prims) -> Result<Runs<Cell>, NoMemory>
    ensures table { IfOk result (λ r. HaveCentres prims.now r) }
    ensures few { IfOk result (λ r. length r ≤ 4096) }
{
    let mut table = Runs::new(alloc)?;
    let cell = prims.cell();
    for prim in prims.as_slice() {
        let cells = centre_cells(alloc, cell, prim.poses.as_slice())?;
        table.push(cells.as_slice())?;
    }
    Ok(table)
}

/// The swept cells of the primitive at index `i` of the file.
fn swept_by(alloc: Global, prims: &Prims, radius: u64, i: u32) -> Result<Vec<Cell>, SweepFault>
    requires radius { radius ≤ 10 ^ 12 }
    requires place { i < length prims.now.items }
    ensures swept { IfOk result (λ v. AreFewSweptAt prims.now radius i v.items) }
    ensures cause { IfErr result (IsOwnCause prims.now radius i) }
{
    let cell = prims.cell();
    match swept_cells(alloc, cell, radius, prims.get(i).poses.as_slice()) {
        Ok(cells) => Ok(cells),
        Err(SweepStop::TooMany) => Err(SweepFault::TooWide(i)),
        Err(SweepStop::NoMemory) => Err(SweepFault::NoMemory),
    }
}

/// For each primitive its swept cells.
pub(crate) fn swept_table(
    alloc: Global,
    prims: &Prims,
    radius: u64,
) -> Result<Runs<Cell>, SweepFault>
    requires radius { radius ≤ 10 ^ 12 }
    ensures table { IfOk result (λ r. HaveSwept prims.now radius r) }
    ensures narrow { IfOk result (λ _. NoneTooWide prims.now radius) }
    ensures few { IfOk result (λ r. sum_by cell_count r ≤ most_cells_together) }
    ensures cause { IfErr result (λ e. IsCause prims.now radius e) }
{
    let mut table = Runs::new(alloc)?;
    let mut total: u64 = 0;
    for i in 0..prims.len() {
        let cells = swept_by(alloc, prims, radius, i)?;
        total += cells.len() as u64;
        if total > MOST_TOGETHER {
            return Err(SweepFault::TooWide(i));
        }
        table.push(cells.as_slice())?;
    }
    Ok(table)
}
