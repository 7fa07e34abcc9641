//! Flags that lie side by side in words of 64 bits.

ghost use Rattle.std.specs.Prelude.{◌≡◌, ◌≢◌, ℕ, ◌-◌, ◌^◌, ◌<◌, ◌≤◌, true, false, nat_eq, IsTrue};
ghost use Rattle.std.specs.Prelude.{IfOk};
ghost use Rattle.std.specs.Int.{bit_at};
ghost use Rattle.sbpl_lists.specs.Flags.{is_set};

use sbpl_fixed::NoMemory;
use std::alloc::Global;
use std::marker::Model;

/// A word whose set bits are those from bit `low` up to bit `high`, without `high`.
#[inline]
fn mask(low: usize, high: usize) -> u64
    requires some { low < high }
    requires inside { high ≤ 64 }
    ensures value { result ≡ 2 ^ high - 2 ^ low }
{
    (u64::MAX >> (64 - high)) - ((1 << low) - 1)
}

/// Whether a word has no bit set from bit `low` up to bit `high`, without `high`.
#[inline]
fn none_in(word: u64, low: usize, high: usize) -> bool
    requires some { low < high }
    requires inside { high ≤ 64 }
    ensures none { IsTrue result → (k : ℕ) → low ≤ k → k < high → bit_at word k ≡ 0 }
    ensures some { result ≡ false → (k : ℕ) × (low ≤ k) × (k < high) × (bit_at word k ≡ 1) }
{
    word & mask(low, high) == 0
}

/// A word with this bit set or cleared.
#[inline]
fn with_bit(word: u64, k: usize, on: bool) -> u64
    requires inside { k < 64 }
    ensures here { nat_eq (bit_at result k) 1 ≡ on }
    ensures others { (j : ℕ) → j < 64 → j ≢ k → bit_at result j ≡ bit_at word j }
{
    if on {
        word | (1 << k)
    } else {
        word & !(1 << k)
    }
}

/// A flag for each of some places, one bit each.
#[derive(Debug, Drop)]
pub struct Bits {
    words: Vec<u64>,
    len: usize,
}

impl Model for Bits {
    ghost use Rattle.std.specs.Prelude.{◌*◌, ◌≤◌, length};
    ghost use Rattle.sbpl_lists.specs.Flags.{Flags};

    ghost Value = { Flags };

    ghost view = { λ b. record { words = b.words.items; len = b.len } };

    ghost invariant = { λ b. b.len ≤ 64 * length b.words.items };
}

impl Bits {
    /// This many flags, none of which is set.
    pub fn new(alloc: Global, len: usize) -> Result<Bits, NoMemory>
        ensures len { IfOk result (λ b. b.len ≡ len) }
        ensures none { IfOk result (λ b. (i : ℕ) → i < len → is_set b i ≡ false) }
    {
        let words = vec![in alloc; 0; len.div_ceil(64)]?;
        Ok(Bits { words, len })
    }

    /// How many flags there are.
    #[inline]
    pub fn len(&self) -> usize
        ensures value { result ≡ self.now.len }
    {
        self.len
    }

    /// Whether the flag at this place is set.
    #[inline]
    pub fn get(&self, i: usize) -> bool
        requires place { i < self.now.len }
        ensures value { result ≡ is_set self.now i }
    {
        (self.words[i / 64] >> (i % 64)) & 1 == 1
    }

    /// Sets or clears the flag at this place.
    #[inline]
    pub fn put(&mut self, i: usize, on: bool)
        requires place { i < self.old.len }
        ensures len { self.new.len ≡ self.old.len }
        ensures here { is_set self.new i ≡ on }
        ensures others { (j : ℕ) → j ≢ i → j < self.old.len → is_set self.new j ≡ is_set self.old j }
    {
        self.words[i / 64] = with_bit(self.words[i / 64], i % 64, on);
    }

    /// Whether no flag is set at the places from `from` up to `to`, without `to`. It reads a word for each 64 places.
    #[inline]
    pub fn none_between(&self, from: usize, to: usize) -> bool
        requires inside { to ≤ self.now.len }
        ensures none { IsTrue result → (i : ℕ) → from ≤ i → i < to → is_set self.now i ≡ false }
        ensures some { result ≡ false → (i : ℕ) × (from ≤ i) × (i < to) × (is_set self.now i ≡ true) }
    {
        let mut at = from;
        while at < to {
            let low = at % 64;
            let high = (to - at).min(64 - low) + low;
            if !none_in(self.words[at / 64], low, high) {
                return false;
            }
            at += high - low;
        }
        true
    }
}
