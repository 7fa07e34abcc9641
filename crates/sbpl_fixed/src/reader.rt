//! A text is read token by token, from left to right.

ghost use Rattle.std.specs.Prelude.{◌≡◌, ◌≤◌, ℕ, pos, ◌≤ℤ◌, ◌∷◌, [], length, IfOk, MatchResult};
ghost use Rattle.sbpl_fixed.specs.Formats.{fixed, whole, nano, next, over, start, start_at, Steps, Stops, Left, IsRanged, within};
ghost use Rattle.sbpl_fixed.specs.Tokens.{tokens_from};
ghost use Rattle.sbpl_fixed.specs.declared.fault.TextFault.TheVariants.{Ended};

use crate::fault::{NumFault, TextFault};
use crate::number::{read_nano, read_whole};
use crate::placed::Placed;
use crate::token::{Token, next_token};
use std::marker::Model;

/// A text that is read token by token. Contracts see it as what is left of the text: the text's length, and the tokens
/// that were not read. After a fault nothing is said of what is left.
#[derive(Drop)]
pub struct Reader<'a> {
    text: &'a [u8],
    at: usize,
}

impl<'a> Model for Reader<'a> {
    ghost use Rattle.std.specs.Prelude.{◌≤◌, length};
    ghost use Rattle.sbpl_fixed.specs.Tokens.{tokens_from};
    ghost use Rattle.sbpl_fixed.specs.Formats.{Left};

    ghost Value = { Left };

    ghost view = { λ r. record { end = length r.text.now; tokens = tokens_from r.text.now r.at } };

    ghost invariant = { λ r. r.at ≤ length r.text.now };
}

/// A number in its range, or the fault at its place.
fn ranged(
    read: Result<i64, NumFault>,
    low: i64,
    high: i64,
    place: usize,
) -> Result<Placed<i64>, TextFault>
    ensures number { IsRanged place (within low high read) result }
    ensures between { IfOk result (λ x. (low ≤ℤ x.value) × (x.value ≤ℤ high)) }
{
    match read {
        Ok(value) if low <= value && value <= high => Ok(Placed { value, place }),
        Ok(_) => Err(TextFault::Range(place)),
        Err(NumFault::Size) => Err(TextFault::Range(place)),
        Err(NumFault::Form) => Err(TextFault::Number(place)),
    }
}

impl<'a> Reader<'a> {
    /// Starts at the beginning of a text.
    pub fn new(text: &'a [u8]) -> Reader<'a>
        ensures start { result ≡ start text.now }
    {
        Reader { text, at: 0 }
    }

    /// Starts at an offset of a text.
    pub fn from(text: &'a [u8], at: usize) -> Reader<'a>
        requires inside { at ≤ length text.now }
        ensures start { result ≡ start_at text.now at }
    {
        Reader { text, at }
    }

    /// The next token: its bytes and its place. `Ended` with the text's length where there is none.
    pub fn token(&mut self) -> Result<(&'a [u8], usize), TextFault>
        ensures token { MatchResult result
            (λ x. self.old ≡ record { end = self.new.end; tokens = record { place = x.1; bytes = x.0.now } ∷ self.new.tokens })
            (λ t. (self.new ≡ self.old) × (self.old.tokens ≡ []) × (t ≡ Ended self.old.end)) }
    {
        match next_token(self.text, self.at) {
            Some(Token { from, to }) => {
                self.at = to;
                Ok((&self.text[from..to], from))
            }
            None => Err(TextFault::Ended(self.text.len())),
        }
    }

    /// The next token, which must be this word. Answers its place.
    #[tactic(auto, unfolding(crate::specs::Formats::next))]
    pub fn word(&mut self, word: &[u8]) -> Result<usize, TextFault>
        ensures read { Steps (λ x. x) (λ _. pos 0) result self.new (next (fixed word.now) self.old) }
    {
        let (bytes, place) = self.token()?;
        if bytes == word {
            Ok(place)
        } else {
            Err(TextFault::Word(place))
        }
    }

    /// The next token, which must be a whole number in a range.
    #[tactic(auto, unfolding(crate::specs::Formats::next))]
    pub fn whole(&mut self, low: i64, high: i64) -> Result<Placed<i64>, TextFault>
        ensures read { Steps (λ x. x.place) (λ x. x.value) result self.new (next (whole low high) self.old) }
        ensures between { IfOk result (λ x. (low ≤ℤ x.value) × (x.value ≤ℤ high)) }
    {
        let (bytes, place) = self.token()?;
        ranged(read_whole(bytes), low, high, place)
    }

    /// The next token, which must be a whole number in a range of numbers of zero or more.
    #[tactic(auto, unfolding(crate::specs::Formats::next))]
    pub fn natural(&mut self, low: u32, high: u32) -> Result<Placed<u32>, TextFault>
        ensures read { Steps (λ x. x.place) (λ x. pos x.value) result self.new (next (whole (pos low) (pos high)) self.old) }
        ensures between { IfOk result (λ x. (low ≤ x.value) × (x.value ≤ high)) }
    {
        let number = self.whole(i64::from(low), i64::from(high))?;
        Ok(Placed {
            value: number.value as u32,
            place: number.place,
        })
    }

    /// The next token, which must be a decimal in a range, both in billionths.
    #[tactic(auto, unfolding(crate::specs::Formats::next))]
    pub fn nano(&mut self, low: i64, high: i64) -> Result<Placed<i64>, TextFault>
        ensures read { Steps (λ x. x.place) (λ x. x.value) result self.new (next (nano low high) self.old) }
        ensures between { IfOk result (λ x. (low ≤ℤ x.value) × (x.value ≤ℤ high)) }
    {
        let (bytes, place) = self.token()?;
        ranged(read_nano(bytes), low, high, place)
    }

    /// No token may be left. `Trailing` with the place of the first one where there is one.
    #[tactic(auto, unfolding(crate::specs::Formats::over))]
    pub fn end(&mut self) -> Result<(), TextFault>
        ensures read { Stops result self.new (over self.old) }
    {
        match self.token() {
            Ok((_, place)) => Err(TextFault::Trailing(place)),
            Err(_) => Ok(()),
        }
    }
}
