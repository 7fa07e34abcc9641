//! Why a text is not an environment.

ghost use Rattle.std.specs.Prelude.{◌≡◌};
ghost use Rattle.sbpl_cfg.specs.declared.fault.EnvFault.TheVariants.{NoMemory as Memory};
ghost use Rattle.sbpl_cfg.specs.Faults.{name_of, number_of, place_of, told};

use sbpl_fixed::{NoMemory, TextFault};
use std::alloc::{AllocError, AllocFailed};
use thiserror::Error;

/// The first fault of a text, in reading order, with its offset in the text. The offset of a token is that of its first
/// byte, and that of a missing token the length of the text.
#[derive(Clone, Copy, Debug, PartialEq, Eq, Error)]
pub enum EnvFault {
    /// Another token stands where a fixed word must stand.
    #[error("another word than the one asked for, at byte {0}")]
    Word(usize),
    /// A token is not a number of the form asked for.
    #[error("not a number of the form asked for, at byte {0}")]
    Number(usize),
    /// A number lies outside its range.
    #[error("a number outside its range, at byte {0}")]
    Range(usize),
    /// The text ends where a token must stand.
    #[error("the text ends at byte {0}, where more must stand")]
    Ended(usize),
    /// A token stands after the last one.
    #[error("more than an environment, at byte {0}")]
    Trailing(usize),
    /// There are more states than the limit. The offset is that of the width.
    #[error("too many states, by the size at byte {0}")]
    TooLarge(usize),
    /// The start's cell is off the map. The offset is that of the start's x.
    #[error("a start off the map, at byte {0}")]
    StartOff(usize),
    /// The end's cell is off the map. The offset is that of the end's x.
    #[error("an end off the map, at byte {0}")]
    EndOff(usize),
    /// Memory ran out. This says nothing of the text.
    #[error("out of memory")]
    NoMemory,
}

impl EnvFault {
    /// The number that the program prints, 1 to 8 in the order of the variants; 0 for `NoMemory`, which isn't printed.
    pub fn number(&self) -> u8
        ensures number { result ≡ number_of self.now }
    {
        match self {
            EnvFault::Word(_) => 1,
            EnvFault::Number(_) => 2,
            EnvFault::Range(_) => 3,
            EnvFault::Ended(_) => 4,
            EnvFault::Trailing(_) => 5,
            EnvFault::TooLarge(_) => 6,
            EnvFault::StartOff(_) => 7,
            EnvFault::EndOff(_) => 8,
            EnvFault::NoMemory => 0,
        }
    }

    /// The variant's name, as the program prints it.
    pub fn name(&self) -> &'static str
        ensures name { result.now ≡ name_of self.now }
    {
        match self {
            EnvFault::Word(_) => "Word",
            EnvFault::Number(_) => "Number",
            EnvFault::Range(_) => "Range",
            EnvFault::Ended(_) => "Ended",
            EnvFault::Trailing(_) => "Trailing",
            EnvFault::TooLarge(_) => "TooLarge",
            EnvFault::StartOff(_) => "StartOff",
            EnvFault::EndOff(_) => "EndOff",
            EnvFault::NoMemory => "NoMemory",
        }
    }

    /// The fault's place, an offset in the text; 0 for `NoMemory`, which has none.
    pub fn place(&self) -> usize
        ensures place { result ≡ place_of self.now }
    {
        match self {
            EnvFault::Word(place)
            | EnvFault::Number(place)
            | EnvFault::Range(place)
            | EnvFault::Ended(place)
            | EnvFault::Trailing(place)
            | EnvFault::TooLarge(place)
            | EnvFault::StartOff(place)
            | EnvFault::EndOff(place) => *place,
            EnvFault::NoMemory => 0,
        }
    }
}

impl From<TextFault> for EnvFault {
    ghost from_gives = { λ t e. e ≡ told t };

    fn from(fault: TextFault) -> EnvFault {
        match fault {
            TextFault::Word(place) => EnvFault::Word(place),
            TextFault::Number(place) => EnvFault::Number(place),
            TextFault::Range(place) => EnvFault::Range(place),
            TextFault::Ended(place) => EnvFault::Ended(place),
            TextFault::Trailing(place) => EnvFault::Trailing(place),
        }
    }
}

impl From<NoMemory> for EnvFault {
    ghost from_gives = { λ _ e. e ≡ Memory };

    fn from(_error: NoMemory) -> EnvFault {
        EnvFault::NoMemory
    }
}

impl From<AllocError> for EnvFault {
    ghost from_gives = { λ _ e. e ≡ Memory };

    fn from(_error: AllocError) -> EnvFault {
        EnvFault::NoMemory
    }
}

impl<T: Drop> From<AllocFailed<T>> for EnvFault {
    ghost from_gives = { λ _ e. e ≡ Memory };

    fn from(_error: AllocFailed<T>) -> EnvFault {
        EnvFault::NoMemory
    }
}
