//! Entries as words.

ghost use Rattle.std.specs.Prelude.{◌≡◌};
ghost use Rattle.sbpl_incumbent.specs.Slips.{IsFit, entry_in};

use crate::Entry;
use crossbeam_utils::atomic::seq_cell::Words;

/// How many bounds a word can hold.
const WORD: u128 = 1 << 64;

/// An entry as six words. Its bound takes the last two.
#[derive(Clone, Copy)]
pub(crate) struct Slip {
    pub(crate) number: u64,
    pub(crate) plan: u64,
    pub(crate) pass: u64,
    pub(crate) cost: u64,
    pub(crate) low: u64,
    pub(crate) high: u64,
}

impl Words<6> for Slip {
    ghost use Rattle.std.specs.Prelude.{[], ◌∷◌};

    ghost words = { λ s. s.number ∷ s.plan ∷ s.pass ∷ s.cost ∷ s.low ∷ s.high ∷ [] };

    fn to_words(self) -> [u64; 6] {
        [
            self.number,
            self.plan,
            self.pass,
            self.cost,
            self.low,
            self.high,
        ]
    }

    fn from_words(bits: &[u64; 6]) -> Slip {
        Slip {
            number: bits[0],
            plan: bits[1],
            pass: bits[2],
            cost: bits[3],
            low: bits[4],
            high: bits[5],
        }
    }
}

impl Slip {
    /// The words of an entry.
    pub(crate) fn new(entry: Entry) -> Slip
        ensures entry { entry_in result ≡ entry }
    {
        Slip {
            number: entry.number,
            plan: entry.plan as u64,
            pass: entry.pass as u64,
            cost: entry.cost,
            low: (entry.bound % WORD) as u64,
            high: (entry.bound / WORD) as u64,
        }
    }

    /// The entry of these words.
    pub(crate) fn entry(self) -> Entry
        requires fit { IsFit (entry_in self) }
        ensures entry { result ≡ entry_in self }
    {
        Entry {
            number: self.number,
            plan: self.plan as u32,
            pass: self.pass as u32,
            cost: self.cost,
            bound: self.high as u128 * WORD + self.low as u128,
        }
    }
}
