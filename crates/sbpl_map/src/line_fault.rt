//! Why a line says nothing that it may say.

ghost use Rattle.std.specs.Prelude.{◌≡◌};
ghost use Rattle.sbpl_map.specs.Faults.{line_fault_name};

use thiserror::Error;

/// The fault of one line, by its fields: of a change file, or of another text whose lines give cells and places as lines of
/// change files do. The faults come in the order of the variants.
#[derive(Clone, Copy, Debug, PartialEq, Eq, Error)]
pub enum LineFault {
    /// There is no such line: it has another first field, or another number of fields.
    #[error("no such line")]
    Word,
    /// A field that must be a number is none.
    #[error("not a number")]
    Number,
    /// A number lies outside its range.
    #[error("a number outside its range")]
    Range,
    /// The cell is not on the map.
    #[error("a cell off the map")]
    OffMap,
}

impl LineFault {
    /// The variant's name, as the program prints it.
    pub fn name(&self) -> &'static str
        ensures name { result.now ≡ line_fault_name self.now }
    {
        match self {
            LineFault::Word => "Word",
            LineFault::Number => "Number",
            LineFault::Range => "Range",
            LineFault::OffMap => "OffMap",
        }
    }
}
