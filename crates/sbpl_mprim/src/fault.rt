//! Why a text does not stand for primitives.

ghost use Rattle.std.specs.Prelude.{◌≡◌};
ghost use Rattle.sbpl_mprim.specs.declared.fault.PrimFault.TheVariants.{NoMemory as Memory};
ghost use Rattle.sbpl_mprim.specs.Faults.{name_of, number_of, place_of, told};

use sbpl_fixed::{NoMemory, TextFault};
use std::alloc::{AllocError, AllocFailed};
use thiserror::Error;

/// Why a text does not stand for primitives: its first fault in reading order, with the offset of the first byte of the
/// token that is wrong. The offset of a missing token is the length of the text.
#[derive(Clone, Copy, Debug, PartialEq, Eq, Error)]
pub enum PrimFault {
    /// Another token stands where a fixed word must stand.
    #[error("byte {0}: another word than the one that must stand here")]
    Word(usize),
    /// The token is not a number of the form that is asked for.
    #[error("byte {0}: not a number of the form that must stand here")]
    Number(usize),
    /// The number lies outside its range.
    #[error("byte {0}: a number outside its range")]
    Range(usize),
    /// The text ends where a token must stand.
    #[error("byte {0}: the text ends where more must stand")]
    Ended(usize),
    /// A token stands after the last one.
    #[error("byte {0}: more stands after the last primitive")]
    Trailing(usize),
    /// The resolution is not the cell size. The offset is that of its number.
    #[error("byte {0}: the resolution is not the cell size")]
    Resolution(usize),
    /// The number of angles is not the number of headings. The offset is that of its number.
    #[error("byte {0}: the number of angles is not the number of headings")]
    Angles(usize),
    /// The last pose, from the centre of the source cell, is not in the end cell. The offset is that of its x.
    #[error("byte {0}: the last pose is not in the end cell")]
    EndCell(usize),
    /// The last pose's angle is not in the bin of the end heading. The offset is that of its angle.
    #[error("byte {0}: the last pose has not the end heading")]
    EndHeading(usize),
    /// There are no poses. The offset is that of their number.
    #[error("byte {0}: a primitive without poses")]
    NoPose(usize),
    /// An earlier primitive has the same start heading and the same id. The offset is that of the id.
    #[error("byte {0}: an earlier primitive has this start heading and this id")]
    SameId(usize),
    /// The multiplier is 0, or all poses are at one point and the headings are equal. The offset is that of the id.
    #[error("byte {0}: a primitive that costs nothing")]
    ZeroCost(usize),
    /// The poses read so far and those announced are more than 200,000 together. The offset is that of the number announced.
    #[error("byte {0}: too many poses")]
    TooLarge(usize),
    /// Memory ran out. This says nothing of the text.
    #[error("out of memory")]
    NoMemory,
}

impl PrimFault {
    /// The number that the program prints, 1 to 13 in the order of the variants; 0 for `NoMemory`, which isn't printed.
    pub fn number(&self) -> u8
        ensures number { result ≡ number_of self.now }
    {
        match self {
            PrimFault::Word(_) => 1,
            PrimFault::Number(_) => 2,
            PrimFault::Range(_) => 3,
            PrimFault::Ended(_) => 4,
            PrimFault::Trailing(_) => 5,
            PrimFault::Resolution(_) => 6,
            PrimFault::Angles(_) => 7,
            PrimFault::EndCell(_) => 8,
            PrimFault::EndHeading(_) => 9,
            PrimFault::NoPose(_) => 10,
            PrimFault::SameId(_) => 11,
            PrimFault::ZeroCost(_) => 12,
            PrimFault::TooLarge(_) => 13,
            PrimFault::NoMemory => 0,
        }
    }

    /// The variant's name, as the program prints it.
    pub fn name(&self) -> &'static str
        ensures name { result.now ≡ name_of self.now }
    {
        match self {
            PrimFault::Word(_) => "Word",
            PrimFault::Number(_) => "Number",
            PrimFault::Range(_) => "Range",
            PrimFault::Ended(_) => "Ended",
            PrimFault::Trailing(_) => "Trailing",
            PrimFault::Resolution(_) => "Resolution",
            PrimFault::Angles(_) => "Angles",
            PrimFault::EndCell(_) => "EndCell",
            PrimFault::EndHeading(_) => "EndHeading",
            PrimFault::NoPose(_) => "NoPose",
            PrimFault::SameId(_) => "SameId",
            PrimFault::ZeroCost(_) => "ZeroCost",
            PrimFault::TooLarge(_) => "TooLarge",
            PrimFault::NoMemory => "NoMemory",
        }
    }

    /// The fault's place, an offset in the text; 0 for `NoMemory`, which has none.
    pub fn place(&self) -> usize
        ensures place { result ≡ place_of self.now }
    {
        match self {
            PrimFault::Word(place)
            | PrimFault::Number(place)
            | PrimFault::Range(place)
            | PrimFault::Ended(place)
            | PrimFault::Trailing(place)
            | PrimFault::Resolution(place)
            | PrimFault::Angles(place)
            | PrimFault::EndCell(place)
            | PrimFault::EndHeading(place)
            | PrimFault::NoPose(place)
            | PrimFault::SameId(place)
            | PrimFault::ZeroCost(place)
            | PrimFault::TooLarge(place) => *place,
            PrimFault::NoMemory => 0,
        }
    }
}

impl From<TextFault> for PrimFault {
    ghost from_gives = { λ fault e. e ≡ told fault };

    fn from(fault: TextFault) -> PrimFault {
        match fault {
            TextFault::Word(place) => PrimFault::Word(place),
            TextFault::Number(place) => PrimFault::Number(place),
            TextFault::Range(place) => PrimFault::Range(place),
            TextFault::Ended(place) => PrimFault::Ended(place),
            TextFault::Trailing(place) => PrimFault::Trailing(place),
        }
    }
}

impl From<NoMemory> for PrimFault {
    ghost from_gives = { λ _ e. e ≡ Memory };

    fn from(_error: NoMemory) -> PrimFault {
        PrimFault::NoMemory
    }
}

impl From<AllocError> for PrimFault {
    ghost from_gives = { λ _ e. e ≡ Memory };

    fn from(_error: AllocError) -> PrimFault {
        PrimFault::NoMemory
    }
}

impl<T: Drop> From<AllocFailed<T>> for PrimFault {
    ghost from_gives = { λ _ e. e ≡ Memory };

    fn from(_error: AllocFailed<T>) -> PrimFault {
        PrimFault::NoMemory
    }
}
