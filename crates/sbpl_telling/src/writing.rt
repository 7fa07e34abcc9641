//! Texts that are written under names.

ghost use Rattle.std.specs.Prelude.{◌≡◌, ◌∷◌, []};
ghost use Rattle.sbpl_promises.specs.Writing.{EndsIn, IsOutput, WritesOnly, status_after};
ghost use Rattle.sbpl_promises.specs.Intents.{last_write};
ghost use Rattle.sbpl_promises.specs.sbpl_report.Statuses.{number_of};

use sbpl_promises::{Desk, Status, WriteStop};

/// The name of the standard output.
pub const OUTPUT: &str = "-";

/// Writes a text under a name.
pub fn write_text<D: Desk>(name: &str, text: &[u8], desk: &mut D) -> Result<(), WriteStop>
    ensures ends { EndsIn (D.state desk.old) (D.state desk.new) (record { name = name.now; text = text.now } ∷ []) result }
    ensures frame { WritesOnly (λ other. other ≡ name.now) (D.state desk.old) (D.state desk.new) }
{
    desk.write(name, text)
}

/// The status after writing, where another one is wanted.
pub fn status_after(end: Result<(), WriteStop>, wanted: Status) -> Status
    ensures status { number_of result ≡ status_after (number_of wanted) end }
{
    match end {
        Ok(()) => wanted,
        Err(WriteStop::Failed) => Status::NotWritten,
        Err(WriteStop::NoMemory) => Status::NoMemory,
    }
}

/// Writes the last line.
pub fn write_last<D: Desk>(desk: &mut D) -> Result<(), WriteStop>
    ensures ends { EndsIn (D.state desk.old) (D.state desk.new) (last_write ∷ []) result }
    ensures frame { WritesOnly IsOutput (D.state desk.old) (D.state desk.new) }
{
    write_text(OUTPUT, b"done\n", desk)
}
