//! Lists of expansions.

ghost use Rattle.std.specs.Prelude.{◌≡◌, ◌<◌, [], ◌∷◌, ◌++◌, length, IfOk};

use crate::Step;
use sbpl_search::NoMemory;
use std::alloc::Global;
use std::marker::Model;

/// A list of expansions that never grows past the room that it was made with.
#[derive(Drop)]
pub struct Steps {
    steps: Vec<Step>,
}

impl Model for Steps {
    ghost use Rattle.std.specs.Prelude.{vec_capacity};
    ghost use Rattle.sbpl_serial.specs.Serial.{Room};

    ghost Value = { Room };

    ghost view = { λ a. record { items = a.steps.items; room = vec_capacity a.steps } };
}

impl Steps {
    /// An empty list with this much room.
    pub fn with_room(alloc: Global, room: usize) -> Result<Steps, NoMemory>
        ensures empty { IfOk result (λ s. s.items ≡ []) }
        ensures room { IfOk result (λ s. s.room ≡ room) }
    {
        let steps = Vec::with_capacity(alloc, room)?;
        Ok(Steps { steps })
    }

    /// Empties the list. Its room stays.
    pub fn clear(&mut self)
        ensures empty { self.new.items ≡ [] }
        ensures room { self.new.room ≡ self.old.room }
    {
        self.steps.clear();
    }

    /// Appends a step. It takes no memory.
    pub fn push(&mut self, step: Step)
        requires room { length self.old.items < self.old.room }
        ensures pushed { self.new.items ≡ self.old.items ++ step ∷ [] }
        ensures room { self.new.room ≡ self.old.room }
    {
        self.steps.push_reserved(step);
    }

    /// The steps in order.
    pub fn as_slice(&self) -> &[Step]
        ensures value { result.now ≡ self.now.items }
    {
        self.steps.as_slice()
    }
}
