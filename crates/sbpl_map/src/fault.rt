//! Why a text does not stand for changes.

ghost use Rattle.std.specs.Prelude.{◌≡◌};
ghost use Rattle.sbpl_map.specs.declared.fault.ChangeFault.TheVariants.{NoMemory as Memory};
ghost use Rattle.sbpl_map.specs.Faults.{line_of, name_of, number_of};

use sbpl_cfg::NoMemory;
use std::alloc::{AllocError, AllocFailed};
use thiserror::Error;

/// The fault of the first faulty line of a change file, with the line's number. Lines are numbered from 1. Within a line
/// the faults come in the order of the variants; `NoReplan` comes only where no line is faulty. Lines of a start stand only in
/// texts that are read with a number of headings; in others such a line is a fault, `Word`.
#[derive(Clone, Copy, Debug, PartialEq, Eq, Error)]
pub enum ChangeFault {
    /// The first field is none of `cell`, `start` and `replan`, or the number of fields is wrong.
    #[error("not a line of a change file, at line {0}")]
    Word(u64),
    /// A field after `cell` or `start` is not a whole number.
    #[error("not a whole number, at line {0}")]
    Number(u64),
    /// x or y is not below the limit of states, the cost is outside 0..255, or the heading is not below the number of headings.
    #[error("a number outside its range, at line {0}")]
    Range(u64),
    /// The cell is not on the map.
    #[error("a cell off the map, at line {0}")]
    OffMap(u64),
    /// A cell or a start stands after the last `replan`. The line is that of the last of these.
    #[error("no replan after line {0}")]
    NoReplan(u64),
    /// Memory ran out. This says nothing of the text.
    #[error("out of memory")]
    NoMemory,
}

impl ChangeFault {
    /// The number that the program prints, 1 to 5 in the order of the variants; 0 for `NoMemory`, which isn't printed.
    pub fn number(&self) -> u8
        ensures number { result ≡ number_of self.now }
    {
        match self {
            ChangeFault::Word(_) => 1,
            ChangeFault::Number(_) => 2,
            ChangeFault::Range(_) => 3,
            ChangeFault::OffMap(_) => 4,
            ChangeFault::NoReplan(_) => 5,
            ChangeFault::NoMemory => 0,
        }
    }

    /// The variant's name, as the program prints it.
    pub fn name(&self) -> &'static str
        ensures name { result.now ≡ name_of self.now }
    {
        match self {
            ChangeFault::Word(_) => "Word",
            ChangeFault::Number(_) => "Number",
            ChangeFault::Range(_) => "Range",
            ChangeFault::OffMap(_) => "OffMap",
            ChangeFault::NoReplan(_) => "NoReplan",
            ChangeFault::NoMemory => "NoMemory",
        }
    }

    /// The number of the fault's line, from 1; 0 for `NoMemory`, which has none.
    pub fn line(&self) -> u64
        ensures line { result ≡ line_of self.now }
    {
        match self {
            ChangeFault::Word(line)
            | ChangeFault::Number(line)
            | ChangeFault::Range(line)
            | ChangeFault::OffMap(line)
            | ChangeFault::NoReplan(line) => *line,
            ChangeFault::NoMemory => 0,
        }
    }
}

impl From<NoMemory> for ChangeFault {
    ghost from_gives = { λ _ e. e ≡ Memory };

    fn from(_error: NoMemory) -> ChangeFault {
        ChangeFault::NoMemory
    }
}

impl From<AllocError> for ChangeFault {
    ghost from_gives = { λ _ e. e ≡ Memory };

    fn from(_error: AllocError) -> ChangeFault {
        ChangeFault::NoMemory
    }
}

impl<T: Drop> From<AllocFailed<T>> for ChangeFault {
    ghost from_gives = { λ _ e. e ≡ Memory };

    fn from(_error: AllocFailed<T>) -> ChangeFault {
        ChangeFault::NoMemory
    }
}
