//! The open states of a search.

ghost use Rattle.std.specs.Prelude.{◌≡◌, ℕ, ◌^◌, ◌<◌, ◌≤◌, ◌↔◌, IsTrue, IsSome, IsNone, IfOk, IfSome};
ghost use Rattle.std.specs.Prelude.{MatchOption, Some};
ghost use Rattle.std.specs.Prelude.{None, length};
ghost use Rattle.sbpl_open.specs.OpenList.{OpenList, states_of, key_at, IsEmpty, ChangesKey, IsLeast};
ghost use Rattle.sbpl_open.specs.Entries.{entry_at, key_of, state_at};

use crate::ends::{empty, hole_for, remove};
use crate::sift::sift;
use crate::{Entry, Key};
use sbpl_pages::{NoMemory, Paged};
use std::alloc::Global;
use std::marker::Model;

/// The open states of a search, as a finite map from states to keys with its least: a heap of four
/// branches of states with their keys, and each state's slot in it. All its memory is taken when it
/// is made.
#[derive(Drop)]
pub struct Open {
    heap: Vec<Entry>,
    slots: Paged<u32>,
}

impl Model for Open {
    ghost use Rattle.std.specs.Prelude.{vec_capacity};
    ghost use Rattle.sbpl_open.specs.OpenList.{OpenList};
    ghost use Rattle.sbpl_open.specs.Heap.{AreParts, keys_of};

    ghost Value = { OpenList };

    ghost view = { λ a. record { keys = keys_of a.heap.items a.slots } };

    ghost invariant = { λ a. AreParts a.heap.items a.slots (vec_capacity a.heap) };
}

impl Open {
    /// Room for the keys of this many states, none of which is open. The one error is
    /// that memory ran out, and no other call takes memory.
    pub fn new(alloc: Global, states: u32) -> Result<Open, NoMemory>
        ensures states { IfOk result (λ f. states_of f ≡ states) }
        ensures empty { IfOk result (λ f. IsEmpty f) }
    {
        let heap = Vec::with_capacity(alloc, states as usize)?;
        let slots = Paged::new(alloc, states, 0)?;
        Ok(Open { heap, slots })
    }

    /// Lets every state leave. It looks at the open states alone.
    pub fn clear(&mut self)
        ensures states { states_of self.new ≡ states_of self.old }
        ensures empty { IsEmpty self.new }
    {
        empty(&mut self.heap, &mut self.slots);
    }

    /// Gives `s` this key, whether or not it has one.
    pub fn put(&mut self, s: u32, key: Key)
        requires state { s < states_of self.old }
        ensures changed { ChangesKey self.old self.new s (Some (key.0, key.1)) }
    {
        let entry = Entry {
            first: key.0,
            second: key.1,
            state: s,
        };
        let hole = hole_for(&mut self.heap, &self.slots, entry);
        sift(&mut self.heap, &mut self.slots, hole, entry);
    }

    /// Lets `s` leave. Where it is not open nothing changes.
    pub fn leave(&mut self, s: u32)
        requires state { s < states_of self.old }
        ensures changed { ChangesKey self.old self.new s None }
        ensures unchanged { key_at self.old s ≡ None → self.new ≡ self.old }
    {
        if self.slots.get(s) > 0 {
            remove(&mut self.heap, &mut self.slots, s);
        }
    }

    /// Whether `s` is open.
    pub fn has(&self, s: u32) -> bool
        requires state { s < states_of self.now }
        ensures there { IsTrue result ↔ IsSome (key_at self.now s) }
    {
        self.slots.get(s) > 0
    }

    /// The open states with their keys, each once, in no order.
    pub fn entries(&self) -> &[Entry]
        ensures few { length result.now ≤ states_of self.now }
        ensures listed { (i : ℕ) → i < length result.now
            → key_at self.now (state_at result.now i) ≡ Some (key_of (entry_at result.now i)) }
        ensures all { (s : ℕ) → IsSome (key_at self.now s)
            → (i : ℕ) × (i < length result.now) × (state_at result.now i ≡ s) }
        ensures once { (i j : ℕ) → i < length result.now → j < length result.now
            → state_at result.now i ≡ state_at result.now j → i ≡ j }
    {
        self.heap.as_slice()
    }

    /// The open state that comes before all others, and its key. There is none exactly where no
    /// state is open.
    pub fn least(&self) -> Option<(u32, Key)>
        ensures least { MatchOption result (IsEmpty self.now)
            (λ x. IsLeast self.now x.0 (x.1.0, x.1.1)) }
    {
        let entry = *self.heap.first()?;
        Some((entry.state, entry.key()))
    }

    /// The open state that comes before all others, which leaves, and its key. There is none
    /// exactly where no state is open.
    pub fn take_least(&mut self) -> Option<(u32, Key)>
        ensures least { MatchOption result (IsEmpty self.old)
            (λ x. IsLeast self.old x.0 (x.1.0, x.1.1)) }
        ensures taken { IfSome result (λ x. ChangesKey self.old self.new x.0 None) }
        ensures unchanged { IsNone result → self.new ≡ self.old }
    {
        let least = self.least()?;
        self.leave(least.0);
        Some(least)
    }
}
