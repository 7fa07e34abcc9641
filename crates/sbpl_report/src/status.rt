//! How a run of the program ends, and the number of each way.

ghost use Rattle.std.specs.Prelude.{◌≡◌};
ghost use Rattle.sbpl_report.specs.Statuses.{number_of};

/// How a run of the program ended.
#[derive(Clone, Copy, Debug, PartialEq, Eq)]
pub enum Status {
    /// What the words ask for was done.
    Done,
    /// A section of labels has a flaw.
    FlawFound,
    /// The words name no job, or a start or a goal that is off the map.
    WordsRefused,
    /// The environment file has a fault.
    EnvironmentRefused,
    /// The primitive file has a fault, or a primitive is too wide or too dear.
    PrimitivesRefused,
    /// The change file has a fault.
    ChangesRefused,
    /// A file could not be read.
    NotRead,
    /// A write failed.
    NotWritten,
    /// A file holds more than 2^30 bytes.
    TooLong,
    /// Memory ran out.
    NoMemory,
    /// The text of labels has a fault.
    LabelsRefused,
}

impl Status {
    /// The number that the program ends with.
    pub fn number(self) -> u8
        ensures number { result ≡ number_of self }
    {
        match self {
            Status::Done => 0,
            Status::FlawFound => 1,
            Status::WordsRefused => 2,
            Status::EnvironmentRefused => 3,
            Status::PrimitivesRefused => 4,
            Status::ChangesRefused => 5,
            Status::NotRead => 6,
            Status::NotWritten => 7,
            Status::TooLong => 8,
            Status::NoMemory => 9,
            Status::LabelsRefused => 10,
        }
    }
}
