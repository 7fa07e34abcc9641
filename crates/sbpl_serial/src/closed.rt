//! The states that a pass has expanded.

ghost use Rattle.std.specs.Prelude.{◌≡◌, ℕ, ◌<◌, length, true, false, IfOk, slice_index, slice_index_or, slice_set};
ghost use Rattle.sbpl_serial.specs.Marked.{AreMarks, closed_at};

use sbpl_open::Paged;
use sbpl_search::NoMemory;
use std::alloc::Global;
use std::marker::Model;

/// Which of a number of states are closed. Each state holds the number of the last pass that closed
/// it, so that a new pass begins without a look at each state.
#[derive(Drop)]
pub struct Closed {
    marks: Paged<u32>,
    pass: u32,
}

impl Model for Closed {
    ghost use Rattle.std.specs.Prelude.{List, Bool, ◌≤◌, ℕ, ◌<◌, map, nat_eq, length, slice_index};
    ghost use Rattle.sbpl_serial.specs.Marked.{AreMarks};

    ghost Value = { List Bool };

    ghost view = { λ a. map (λ mark. nat_eq mark a.pass) a.marks };

    ghost invariant = { λ a. AreMarks a.marks a.pass };
}

impl Closed {
    /// None of this many states is closed.
    pub fn open(alloc: Global, states: u32) -> Result<Closed, NoMemory>
        ensures states { IfOk result (λ c. length c ≡ states) }
        ensures none { IfOk result (λ c. (s : ℕ) → closed_at c s ≡ false) }
    {
        let marks = Paged::new(alloc, states, 0)?;
        Ok(Closed { marks, pass: 1 })
    }

    /// Opens all states again. It looks at none of them.
    pub fn clear(&mut self)
        ensures states { length self.new ≡ length self.old }
        ensures none { (s : ℕ) → closed_at self.new s ≡ false }
    {
        self.pass = next_pass(&mut self.marks, self.pass);
    }

    /// Whether `s` is closed.
    pub fn has(&self, s: u32) -> bool
        requires state { s < length self.now }
        ensures value { result ≡ closed_at self.now s }
    {
        self.marks.get(s) == self.pass
    }

    /// Closes `s`.
    pub fn insert(&mut self, s: u32)
        requires state { s < length self.old }
        ensures closed { self.new ≡ slice_set self.old s true }
    {
        self.marks.set(s, self.pass);
    }
}

/// A number that is above every mark. Where there is none the marks begin again.
fn next_pass(marks: &mut Paged<u32>, pass: u32) -> u32
    requires marks { AreMarks marks.old pass }
    ensures states { length marks.new ≡ length marks.old }
    ensures above { (s : ℕ) → s < length marks.new → slice_index marks.new s < result }
{
    if pass == u32::MAX {
        marks.fill(0);
        1
    } else {
        pass + 1
    }
}
