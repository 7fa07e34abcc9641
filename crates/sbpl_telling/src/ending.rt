//! How a run ended.

ghost use Rattle.std.specs.Prelude.{◌≡◌, ◌∷◌, []};
ghost use Rattle.sbpl_promises.specs.Writing.{IsOutput, WritesOnly, to_output};
ghost use Rattle.sbpl_promises.specs.sbpl_report.Statuses.{number_of};
ghost use Rattle.sbpl_telling.specs.Endings.{EndsTelling, message_of};

use crate::writing::{OUTPUT, status_after, write_text};
use sbpl_promises::{Desk, ListOf, Message, Status};
use std::alloc::Global;

/// What people are told where a write failed.
const UNWRITTEN: &[u8] =
    b"temjoask: a write failed: to the standard output, or to the file of --labels, --trace or --incumbent\n";

/// How a run ended: the program's status, and what people are told.
#[derive(Drop)]
pub struct Ending {
    /// The status.
    pub status: Status,
    /// Why the job was not done, or in a line each why plans have no path; empty where the status says it all.
    pub why: Message,
}

impl Ending {
    /// An ending of which no more is told than its status says.
    pub fn plain(alloc: Global, status: Status) -> Ending
        ensures status { result.status ≡ status }
        ensures untold { result.why ≡ [] }
    {
        Ending {
            status,
            why: ListOf::of(Vec::new(alloc)),
        }
    }

    /// What people are told, in lines; empty where nothing is.
    pub fn message(&self) -> &[u8]
        ensures message { result.now ≡ message_of self.now }
    {
        match self.status {
            Status::NotWritten => UNWRITTEN,
            _ => self.why.as_slice(),
        }
    }
}

/// Writes the last line of a run, which is to answer this status and to tell why. Where the line was not written, nothing
/// more is told.
pub fn end_with<D: Desk>(
    alloc: Global,
    line: &[u8],
    status: Status,
    why: Message,
    desk: &mut D,
) -> Ending
    ensures ends { EndsTelling (D.state desk.old) (D.state desk.new) (to_output line.now ∷ []) (number_of status) why result }
    ensures frame { WritesOnly IsOutput (D.state desk.old) (D.state desk.new) }
{
    match write_text(OUTPUT, line, desk) {
        Ok(()) => Ending { status, why },
        Err(stop) => Ending::plain(alloc, status_after(Err(stop), status)),
    }
}
