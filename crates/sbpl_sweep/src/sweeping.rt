//! The cells that a motion sweeps.

ghost use Rattle.std.specs.Prelude.{◌≡◌, ℕ, ℤ, pos, negsuc, ◌↔◌, ◌^◌, ◌<◌, ◌≤◌, slice_get, Some};
ghost use Rattle.std.specs.Prelude.{length, IfOk, OnOk, IfErr};
ghost use Rattle.sbpl_mprim.specs.sbpl_cfg.declared.pose.Pose.{Pose};
ghost use Rattle.sbpl_mprim.specs.sbpl_cfg.Environment.{IsWithin};
ghost use Rattle.sbpl_mprim.specs.Primitives.{IsOffsetInRange};
ghost use Rattle.sbpl_sweep.specs.Bands.{IsCovered};
ghost use Rattle.sbpl_sweep.specs.Gathered.{IsListed, IsStopOf, CoverTheSame, AreBounded};
ghost use Rattle.sbpl_sweep.specs.Sweeping.{AreFewSwept, IsSweepStop};

use crate::band::Band;
use crate::cell::Cell;
use crate::gathering::gather;
use crate::rows::{disc_of, push_disc};
use crate::stop::SweepStop;
use sbpl_mprim::{NoMemory, Pose};
use std::alloc::Global;

/// How many bands are kept before their cells are gathered.
const MOST_BANDS: usize = 262_144;

/// Bands of one cell each.
fn single_bands(alloc: Global, cells: &[Cell]) -> Result<Vec<Band>, NoMemory>
    ensures kept { IfOk result (λ v. (x y : ℤ) → IsListed cells.now x y → IsCovered v.items x y) }
    ensures each { IfOk result (λ v. (x y : ℤ) → IsCovered v.items x y → IsListed cells.now x y) }
{
    let mut bands = Vec::with_capacity(alloc, cells.len())?;
    for cell in cells {
        bands.push(Band {
            y: cell.y,
            first: cell.x,
            last: cell.x,
        })?;
    }
    Ok(bands)
}

/// Gathers bands where they have become many.
fn compact(alloc: Global, bands: &mut Vec<Band>) -> Result<(), SweepStop>
    requires bounded { AreBounded bands.old.items }
    ensures same { OnOk result (CoverTheSame bands.old.items bands.new.items) }
    ensures stop { IfErr result (IsStopOf bands.old.items) }
{
    if bands.len() <= MOST_BANDS {
        return Ok(());
    }
    let cells = gather(alloc, bands)?;
    *bands = single_bands(alloc, cells.as_slice())?;
    Ok(())
}

/// The cells that a disc of this radius sweeps along poses, each once and in order.
pub(crate) fn swept_cells(
    alloc: Global,
    cell: i64,
    radius: u64,
    poses: &[Pose],
) -> Result<Vec<Cell>, SweepStop>
    requires cell { IsWithin (pos 1) (pos 1000000000000) cell }
    requires radius { radius ≤ 10 ^ 12 }
    requires poses { (i : ℕ) (p : Pose) → slice_get poses.now i ≡ Some p → IsOffsetInRange p }
    ensures cells { IfOk result (λ v. AreFewSwept cell radius poses.now v.items) }
    ensures stop { IfErr result (IsSweepStop cell radius poses.now) }
{
    let mut bands = Vec::new(alloc);
    for pose in poses {
        push_disc(&mut bands, &disc_of(cell, radius, pose))?;
        compact(alloc, &mut bands)?;
    }
    gather(alloc, &mut bands)
}
