//! The journal of a pass.

ghost use Rattle.std.specs.Prelude.{◌≡◌, ◌+◌, ◌<◌, ◌≤◌, ◌↔◌, [], ◌∷◌, ◌++◌, IfSome, IsSome};
ghost use Rattle.std.specs.Prelude.{IsTrue, OnOk};

use crate::{Past, Unseen};
use sbpl_frontier_rules::{Event, NoMemory};
use std::alloc::Global;
use std::marker::Model;

/// The events of a pass in order. A journal is kept in memory, or contracts alone see it.
pub type Journal = JournalOf<Unseen>;

/// The same, generic over what stands for events that are not kept in memory.
#[derive(Drop)]
pub struct JournalOf<U: Past> {
    form: Form<U>,
}

#[derive(Drop)]
enum Form<U> {
    Kept(Vec<Event>),
    Seen(Option<U>),
}

impl<U: Past> Model for JournalOf<U> {
    ghost use Rattle.sbpl_frontier_core.specs.Log.{Log};

    ghost Value = { Log };

    ghost use Rattle.sbpl_frontier_core.specs.Logs.{log_of};

    ghost view = { λ a. log_of U.items a.form };
}

impl<U: Past> JournalOf<U> {
    /// An empty journal, which is kept or not.
    pub fn open(alloc: Global, keeps: bool) -> JournalOf<U>
        ensures empty { result.events ≡ [] }
        ensures keeps { result.keeps ≡ keeps }
    {
        let form = if keeps {
            Form::Kept(Vec::new(alloc))
        } else {
            Form::Seen(None)
        };
        JournalOf { form }
    }

    /// Makes room for this many further events. The one error is that memory ran out, and then nothing changes that contracts see.
    pub(crate) fn reserve(&mut self, more: usize) -> Result<(), NoMemory>
        ensures events { self.new.events ≡ self.old.events }
        ensures keeps { self.new.keeps ≡ self.old.keeps }
        ensures room { OnOk result (more ≤ self.new.spare) }
        ensures spare { self.old.spare ≤ self.new.spare }
    {
        if let Form::Kept(events) = &mut self.form {
            events.reserve(more)?;
        }
        Ok(())
    }

    /// Appends an event, for which there is room.
    pub(crate) fn push(&mut self, event: Event)
        requires room { 0 < self.old.spare }
        ensures events { self.new.events ≡ self.old.events ++ event ∷ [] }
        ensures keeps { self.new.keeps ≡ self.old.keeps }
        ensures spare { self.old.spare ≤ self.new.spare + 1 }
    {
        match &mut self.form {
            Form::Kept(events) => events.push_reserved(event),
            Form::Seen(seen) => {
                let longer = match seen.take() {
                    Some(earlier) => earlier.then(event),
                    None => U::first(event),
                };
                *seen = Some(longer);
            }
        }
    }

    /// The events in order, where they are kept.
    pub fn events(&self) -> Option<&[Event]>
        ensures value { IfSome result (λ events. events.now ≡ self.now.events) }
        ensures some { IsSome result ↔ IsTrue self.now.keeps }
    {
        match &self.form {
            Form::Kept(events) => Some(events.as_slice()),
            Form::Seen(_) => None,
        }
    }
}
