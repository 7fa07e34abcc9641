//! Where a robot is, batch by batch.

ghost use Rattle.std.specs.Prelude.{◌≡◌, ◌<◌, [], ◌∷◌, ◌++◌, length, slice_get, Some, OnOk, OnErr};

use sbpl_cfg::{NoMemory, Place};
use std::alloc::Global;
use std::marker::Model;

/// Where a robot is from each batch on, as far as the batches say so: seen as a list of one optional place for each batch.
#[derive(Debug, Drop)]
pub struct Moves {
    places: Vec<Option<Place>>,
}

impl Model for Moves {
    ghost use Rattle.std.specs.Prelude.{List, Option};
    ghost use Rattle.sbpl_cfg.specs.declared.pose.Place.{Place};

    ghost Value = { List (Option Place) };

    ghost view = { λ m. m.places.items };
}

impl Moves {
    /// Of no batches.
    pub(crate) fn none(alloc: Global) -> Moves
        ensures none { result ≡ [] }
    {
        Moves {
            places: Vec::new(alloc),
        }
    }

    /// Where the robot is from batch `i` on: its cell, and its heading among those of the environment. `None` where the
    /// batch does not say so, and the robot is where it was before. Batches count from 0.
    pub fn at(&self, i: u32) -> Option<Place>
        requires number { i < length self.now }
        ensures place { slice_get self.now i ≡ Some result }
    {
        self.places[i as usize]
    }

    /// Adds that of one more batch. After `NoMemory` nothing is added.
    pub(crate) fn push(&mut self, place: Option<Place>) -> Result<(), NoMemory>
        ensures added { OnOk result (self.new ≡ self.old ++ place ∷ []) }
        ensures refused { OnErr result (self.new ≡ self.old) }
    {
        self.places.push(place)?;
        Ok(())
    }
}
