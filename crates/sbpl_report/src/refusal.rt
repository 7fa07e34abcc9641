//! Why a job is refused.

ghost use Rattle.std.specs.Prelude.{◌≡◌};
ghost use Rattle.sbpl_report.specs.Refusals.{refusal_status};
ghost use Rattle.sbpl_report.specs.Statuses.{number_of};
ghost use Rattle.sbpl_report.specs.declared.refusal.JobStop.TheVariants.{NoMemory as Memory};

use crate::status::Status;
use sbpl_cost::{ChangeFault, EnvFault, Message, PrimFault};
use sbpl_job::NoMemory;

/// A file that a job reads.
#[derive(Clone, Copy)]
pub enum Input {
    Environment,
    Primitives,
    Changes,
    Labels,
}

/// An end of a path.
#[derive(Clone, Copy)]
pub enum PathEnd {
    Start,
    Goal,
}

/// Why a job is refused, once the words have named it.
#[derive(Clone, Copy)]
pub enum Refusal {
    /// The environment file of a lattice has a fault.
    Environment(EnvFault),
    /// The environment file of a grid has a fault.
    Grid(EnvFault),
    /// The start or the goal that the words give is off the map.
    OffMap(PathEnd),
    /// The primitive file has a fault.
    Primitives(PrimFault),
    /// The primitive at this place of the file sweeps too many cells, or too many with those before it.
    TooWide(u32),
    /// The cost of the primitive at this place of the file is above the limit.
    TooDear(u32),
    /// The change file has a fault.
    Changes(ChangeFault),
    /// A file could not be read.
    Read(Input),
    /// A file holds more than 2^30 bytes.
    Length(Input),
}

impl Refusal {
    /// The program's status after this refusal.
    pub fn status(&self) -> Status
        ensures status { number_of result ≡ refusal_status self.now }
    {
        match self {
            Refusal::Environment(_) | Refusal::Grid(_) => Status::EnvironmentRefused,
            Refusal::OffMap(_) => Status::WordsRefused,
            Refusal::Primitives(_) | Refusal::TooWide(_) | Refusal::TooDear(_) => {
                Status::PrimitivesRefused
            }
            Refusal::Changes(_) => Status::ChangesRefused,
            Refusal::Read(_) => Status::NotRead,
            Refusal::Length(_) => Status::TooLong,
        }
    }
}

/// Why a job stopped before anything was written.
pub enum JobStop {
    /// The job is refused, and people are told this.
    Refused(Refusal, Message),
    /// Memory ran out.
    NoMemory,
}

impl From<NoMemory> for JobStop {
    ghost from_gives = { λ _ s. s ≡ Memory };

    fn from(_error: NoMemory) -> JobStop {
        JobStop::NoMemory
    }
}
