//! The centre cells and the swept cells of the primitives of a file, and the cells that judging them reads.

ghost use Rattle.std.specs.Prelude.{◌≡◌, ◌<◌, ◌≤◌, ◌+◌, ◌^◌, length, slice_get, Some, IfOk, IfErr};
ghost use Rattle.sbpl_sweep.specs.Widths.{NoneTooWide, IsCause};

use crate::cell::Cell;
use crate::fault::SweepFault;
use crate::reads::{Read, read_table};
use crate::tables::{centre_table, swept_table};
use sbpl_mprim::{Prims, Runs};
use std::alloc::Global;
use std::marker::Model;

/// The centre cells and the swept cells of the primitives of a file, for one radius, and the cells that judging each
/// primitive reads. Lists of cells have no repeats and are ordered by `y`, then by `x`.
#[derive(Drop)]
pub struct Sweeps {
    cell: i64,
    radius: u64,
    centres: Runs<Cell>,
    swept: Runs<Cell>,
    reads: Vec<Read>,
}

impl Model for Sweeps {
    ghost use Rattle.sbpl_sweep.specs.Swept.{Swept, AreForFew};

    ghost Value = { Swept };

    ghost view = { λ s. record {
      cell = s.cell;
      radius = s.radius;
      centres = s.centres;
      swept = s.swept;
      reads = s.reads.items;
    } };

    ghost invariant = { λ s. AreForFew (record {
      cell = s.cell;
      radius = s.radius;
      centres = s.centres;
      swept = s.swept;
      reads = s.reads.items;
    }) };
}

impl Sweeps {
    ghost use Rattle.sbpl_sweep.specs.Swept.{AreSweepsOf};

    /// The sweeps of these primitives for a disc of this radius, at most 10^12 nanometres, around each pose. `cell` is
    /// the cell size that the primitives were read for. `TooWide` names the first primitive, by its index in the file,
    /// that sweeps more than 65,536 cells or with which the sum of swept cells passes 2^22, and comes exactly where
    /// there is one.
    pub fn new(alloc: Global, prims: &Prims, radius: u64, cell: i64) -> Result<Sweeps, SweepFault>
        requires radius { radius ≤ 10 ^ 12 }
        requires cell { cell ≡ prims.now.cell }
        ensures made { IfOk result (λ s. AreSweepsOf prims.now radius s) }
        ensures narrow { IfOk result (λ _. NoneTooWide prims.now radius) }
        ensures cause { IfErr result (λ e. IsCause prims.now radius e) }
    {
        let _cell = prims.cell();
        let swept = swept_table(alloc, prims, radius)?;
        let centres = centre_table(alloc, prims)?;
        let reads = read_table(alloc, &swept)?;
        Ok(Sweeps {
            cell,
            radius,
            centres,
            swept,
            reads,
        })
    }

    /// The radius in nanometres.
    pub fn radius(&self) -> u64
        ensures radius { result ≡ self.now.radius }
    {
        self.radius
    }

    /// How many primitives there are, at most 4096.
    pub fn count(&self) -> u32
        ensures centres { result ≡ length self.now.centres }
        ensures swept { result ≡ length self.now.swept }
    {
        self.centres.count() as u32
    }

    /// The centre cells of the primitive at index `i` of the file.
    pub fn centre(&self, i: u32) -> &[Cell]
        requires place { i < length self.now.centres }
        ensures cells { slice_get self.now.centres i ≡ Some result.now }
    {
        self.centres.at(i as usize)
    }

    /// The swept cells of the primitive at index `i` of the file, its centre cells among them.
    pub fn swept(&self, i: u32) -> &[Cell]
        requires place { i < length self.now.swept }
        ensures cells { slice_get self.now.swept i ≡ Some result.now }
    {
        self.swept.at(i as usize)
    }

    /// Each pair of a primitive, by its index in the file, and a cell that judging it reads, as an offset from its source
    /// cell: the source cell, the end cell, the centre cells and the swept cells. Each pair stands once; there are at most
    /// 4,198,400.
    pub fn reads(&self) -> &[Read]
        ensures reads { result.now ≡ self.now.reads }
        ensures few { length result.now ≤ 2 ^ 22 + 4096 }
    {
        self.reads.as_slice()
    }
}
