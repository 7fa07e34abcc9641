//! Why a text is not a section.

ghost use Rattle.std.specs.Prelude.{◌≡◌};
ghost use Rattle.sbpl_cert.specs.declared.fault.LabelFault.TheVariants.{NoMemory as Memory};
ghost use Rattle.sbpl_cert.specs.Faults.{name_of, number_of, place_of, told};

use sbpl_fixed::{NoMemory, TextFault};
use std::alloc::{AllocError, AllocFailed};
use thiserror::Error;

/// The first fault of a label text, in reading order, with its place: the offset of the first byte of the token that is
/// wrong. The place of a missing token is the length of the text.
#[derive(Clone, Copy, Debug, PartialEq, Eq, Error)]
pub enum LabelFault {
    /// Another token stands where a fixed word or the version must stand.
    #[error("byte {0}: another word than the one that must stand here")]
    Word(usize),
    /// The token is not a number of the form that is asked for.
    #[error("byte {0}: not a number of the form that must stand here")]
    Number(usize),
    /// The number lies outside its range.
    #[error("byte {0}: a number outside its range")]
    Range(usize),
    /// The text ends inside a section, or before a section that must come.
    #[error("byte {0}: the text ends where more must stand")]
    Ended(usize),
    /// A token stands after the last section.
    #[error("byte {0}: more stands after the last section")]
    Trailing(usize),
    /// The plan or the number of states is not the one that is expected.
    #[error("byte {0}: not the plan or the number of states that must stand here")]
    Count(usize),
    /// Memory ran out. This says nothing of the text.
    #[error("out of memory")]
    NoMemory,
}

impl LabelFault {
    /// The number that the program prints, 1 to 6 in the order of the variants; 0 for `NoMemory`, which isn't printed.
    pub fn number(&self) -> u8
        ensures number { result ≡ number_of self.now }
    {
        match self {
            LabelFault::Word(_) => 1,
            LabelFault::Number(_) => 2,
            LabelFault::Range(_) => 3,
            LabelFault::Ended(_) => 4,
            LabelFault::Trailing(_) => 5,
            LabelFault::Count(_) => 6,
            LabelFault::NoMemory => 0,
        }
    }

    /// The variant's name, as the program prints it.
    pub fn name(&self) -> &'static str
        ensures name { result.now ≡ name_of self.now }
    {
        match self {
            LabelFault::Word(_) => "Word",
            LabelFault::Number(_) => "Number",
            LabelFault::Range(_) => "Range",
            LabelFault::Ended(_) => "Ended",
            LabelFault::Trailing(_) => "Trailing",
            LabelFault::Count(_) => "Count",
            LabelFault::NoMemory => "NoMemory",
        }
    }

    /// The fault's place in the text; 0 for `NoMemory`, which has none.
    pub fn place(&self) -> usize
        ensures place { result ≡ place_of self.now }
    {
        match self {
            LabelFault::Word(place)
            | LabelFault::Number(place)
            | LabelFault::Range(place)
            | LabelFault::Ended(place)
            | LabelFault::Trailing(place)
            | LabelFault::Count(place) => *place,
            LabelFault::NoMemory => 0,
        }
    }
}

impl From<TextFault> for LabelFault {
    ghost from_gives = { λ t e. e ≡ told t };

    fn from(fault: TextFault) -> LabelFault {
        match fault {
            TextFault::Word(place) => LabelFault::Word(place),
            TextFault::Number(place) => LabelFault::Number(place),
            TextFault::Range(place) => LabelFault::Range(place),
            TextFault::Ended(place) => LabelFault::Ended(place),
            TextFault::Trailing(place) => LabelFault::Trailing(place),
        }
    }
}

impl From<NoMemory> for LabelFault {
    ghost from_gives = { λ _ e. e ≡ Memory };

    fn from(_error: NoMemory) -> LabelFault {
        LabelFault::NoMemory
    }
}

impl From<AllocError> for LabelFault {
    ghost from_gives = { λ _ e. e ≡ Memory };

    fn from(_error: AllocError) -> LabelFault {
        LabelFault::NoMemory
    }
}

impl<T: Drop> From<AllocFailed<T>> for LabelFault {
    ghost from_gives = { λ _ e. e ≡ Memory };

    fn from(_error: AllocFailed<T>) -> LabelFault {
        LabelFault::NoMemory
    }
}
