//! The keys of open states.

ghost use Rattle.std.specs.Prelude.{◌↔◌, IsTrue};
ghost use Rattle.sbpl_open.specs.KeyOrder.{IsBelow};

/// A key of two parts. Keys compare by the first part, then by the second.
#[derive(Clone, Copy, Debug, PartialEq, Eq)]
pub struct Key(pub u128, pub u64);

impl Key {
    /// Whether this key is below the other.
    pub fn is_below(self, other: Key) -> bool
        ensures below { IsTrue result ↔ IsBelow (self.0, self.1) (other.0, other.1) }
    {
        self.0 < other.0 || (self.0 == other.0 && self.1 < other.1)
    }
}
