//! The entries of the heap.

ghost use Rattle.std.specs.Prelude.{◌≡◌, ◌<◌, ◌↔◌, IsTrue};
ghost use Rattle.sbpl_open.specs.Entries.{key_of};
ghost use Rattle.sbpl_open.specs.Heap.{rank};

use crate::Key;

/// An open state with the two parts of its key.
#[derive(Clone, Copy, Debug, PartialEq, Eq)]
pub struct Entry {
    /// The key's first part.
    pub first: u128,
    /// The key's second part.
    pub second: u64,
    /// The state.
    pub state: u32,
}

impl Entry {
    /// The key of this state.
    pub(crate) fn key(self) -> Key
        ensures key { (result.0, result.1) ≡ key_of self }
    {
        Key(self.first, self.second)
    }

    /// Whether this state comes before the other.
    pub(crate) fn comes_before(self, other: Entry) -> bool
        ensures before { IsTrue result ↔ (rank self < rank other) }
    {
        let key = self.key();
        let other_key = other.key();
        key.is_below(other_key) || (key == other_key && self.state < other.state)
    }
}
