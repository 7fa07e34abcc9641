//! Entries.

ghost use Rattle.std.specs.Prelude.{◌≡◌, ◌<◌, IfSome};
ghost use Rattle.sbpl_incumbent.specs.Entries.{found, no_entry};

/// What is published of one path.
#[derive(Clone, Copy, Debug, PartialEq, Eq)]
pub struct Entry {
    /// Which entry of its board it is. The first one is number 1, and each later one is the next number.
    pub number: u64,
    /// The plan, from 0.
    pub plan: u32,
    /// The pass of this plan that found the path, from 0.
    pub pass: u32,
    /// The cost of the path, the sum of its arcs' costs.
    pub cost: u64,
    /// The bound of the path, in thousandths. It is below 2^100.
    pub bound: u128,
}

impl Entry {
    /// This entry as a load found it, or `None` for number 0.
    pub(crate) fn if_published(self) -> Option<Entry>
        requires none { self.number ≡ 0 → self ≡ no_entry }
        ensures found { found result ≡ self }
        ensures some { IfSome result (λ entry. (entry ≡ self) × (0 < entry.number)) }
    {
        if self.number == 0 { None } else { Some(self) }
    }
}
