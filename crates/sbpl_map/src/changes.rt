//! Writes to a map, in batches.

ghost use Rattle.std.specs.Prelude.{◌≡◌, ◌+◌, ◌<◌, ◌^◌, [], ◌∷◌, ◌++◌, length, slice_get, Some, IfOk};
ghost use Rattle.std.specs.Prelude.{OnOk, OnErr};

use crate::write::Write;
use sbpl_cfg::{NoMemory, Runs};
use std::alloc::Global;
use std::marker::Model;

/// Batches of writes to a map, seen as a list of lists. There are fewer than 2^32 batches, and a batch can be empty.
#[derive(Debug, Drop)]
pub struct Changes {
    table: Runs<Write>,
}

impl Model for Changes {
    ghost use Rattle.std.specs.Prelude.{List, length, ◌<◌, ◌^◌};
    ghost use Rattle.sbpl_map.specs.declared.write.Write.{Write};

    ghost Value = { List (List Write) };

    ghost view = { λ c. c.table };

    ghost invariant = { λ c. length c.table < 2 ^ 32 };
}

impl Changes {
    /// No batches.
    pub(crate) fn none(alloc: Global) -> Result<Changes, NoMemory>
        ensures none { IfOk result (λ c. c ≡ []) }
    {
        Ok(Changes {
            table: Runs::new(alloc)?,
        })
    }

    /// How many batches there are.
    pub fn batches(&self) -> u32
        ensures value { result ≡ length self.now }
    {
        self.table.count() as u32
    }

    /// The writes of batch `i`, in the order in which they are made. Batches count from 0.
    pub fn batch(&self, i: u32) -> &[Write]
        requires number { i < length self.now }
        ensures writes { slice_get self.now i ≡ Some result.now }
    {
        self.table.at(i as usize)
    }

    /// Adds a batch. After `NoMemory` the batches are unchanged.
    pub(crate) fn push(&mut self, batch: &[Write]) -> Result<(), NoMemory>
        requires few { length self.old + 1 < 2 ^ 32 }
        ensures added { OnOk result (self.new ≡ self.old ++ batch.now ∷ []) }
        ensures refused { OnErr result (self.new ≡ self.old) }
    {
        self.table.push(batch)
    }
}
