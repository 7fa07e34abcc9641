//! The cells that a motion's judgement reads besides its source cell.

ghost use Rattle.std.specs.Prelude.{◌≡◌, ◌<◌, ◌≤◌, ◌^◌, slice_get, Some, IfOk, OnOk};
ghost use Rattle.sbpl_sweep.specs.sbpl_mprim.Primitives.{IsPrimitive};
ghost use Rattle.sbpl_sweep.specs.Centres.{AreCentres};
ghost use Rattle.sbpl_sweep.specs.Swept.{AreSweepsOf};
ghost use Rattle.sbpl_cost.specs.Checked.{AddsOthers, AreAlong, HaveAlong, HaveAround};
ghost use Rattle.sbpl_cost.specs.Reaches.{HaveReaches};

use crate::reach::{Reach, reach_of};
use crate::strip::Strip;
use crate::strips::strips_of;
use sbpl_sweep::{Cell, NoMemory, Prim, Prims, Runs, Sweeps, ends_are_centres};
use std::alloc::Global;

/// Adds those of some cells that are not known. The known cells are among the cells, and both are in the same order.
fn push_others(list: &mut Vec<Cell>, cells: &[Cell], known: &[Cell]) -> Result<(), NoMemory>
    ensures added { OnOk result (AddsOthers list.old.items cells.now known.now list.new.items) }
{
    let mut next = 0;
    for cell in cells {
        if next < known.len() && known[next] == *cell {
            next += 1;
        } else {
            list.push(*cell)?;
        }
    }
    Ok(())
}

/// The centre cells of a primitive, its end cell first.
fn along_cells(alloc: Global, prim: &Prim, centres: &[Cell]) -> Result<Vec<Cell>, NoMemory>
    ensures along { IfOk result (λ v. (size : _) (headings : _) → IsPrimitive size headings prim.now
        → AreCentres size prim.now.poses centres.now → AreAlong size prim.now v.items) }
{
    ends_are_centres();
    let end = [Cell {
        y: i64::from(prim.dy),
        x: i64::from(prim.dx),
    }];
    let mut cells = Vec::new(alloc);
    cells.push(end[0])?;
    push_others(&mut cells, centres, end.as_slice())?;
    Ok(cells)
}

/// For each primitive the cells along it: its centre cells.
pub(crate) fn along_table(
    alloc: Global,
    prims: &Prims,
    sweeps: &Sweeps,
) -> Result<Runs<Cell>, NoMemory>
    requires sweeps { AreSweepsOf prims.now sweeps.now.radius sweeps.now }
    ensures table { IfOk result (λ r. HaveAlong prims.now r) }
{
    let mut table = Runs::new(alloc)?;
    let _cell = prims.cell();
    for i in 0..prims.len() {
        let cells = along_cells(alloc, prims.get(i), sweeps.centre(i))?;
        table.push(cells.as_slice())?;
    }
    Ok(table)
}

/// For each primitive the cells that it sweeps, as strips.
pub(crate) fn around_table(
    alloc: Global,
    prims: &Prims,
    sweeps: &Sweeps,
) -> Result<Runs<Strip>, NoMemory>
    requires sweeps { AreSweepsOf prims.now sweeps.now.radius sweeps.now }
    ensures table { IfOk result (λ r. HaveAround prims.now sweeps.now.radius r) }
{
    let mut table = Runs::new(alloc)?;
    for i in 0..prims.len() {
        let strips = strips_of(alloc, sweeps.swept(i))?;
        table.push(strips.as_slice())?;
    }
    Ok(table)
}

/// For each primitive how far the cells lie that it sweeps for a radius in nanometres.
pub(crate) fn reach_table(
    alloc: Global,
    prims: &Prims,
    radius: u64,
    around: &Runs<Strip>,
) -> Result<Vec<Reach>, NoMemory>
    requires around { HaveAround prims.now radius around.now }
    requires radius { radius ≤ 10 ^ 12 }
    ensures table { IfOk result (λ v. HaveReaches prims.now around.now v.items) }
{
    let _cell = prims.cell();
    let mut table = Vec::with_capacity(alloc, prims.len() as usize)?;
    for i in 0..prims.len() {
        table.push(reach_of(around.at(i as usize)))?;
    }
    Ok(table)
}
