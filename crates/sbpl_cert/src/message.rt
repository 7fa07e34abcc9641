//! Messages for faults in the text of labels.

ghost use Rattle.std.specs.Prelude.{IfOk};
ghost use Rattle.sbpl_cert.specs.Faults.{place_of};
ghost use Rattle.sbpl_lists.specs.Messages.{IsMessageAt};

use crate::fault::LabelFault;
use sbpl_fixed::NoMemory;
use sbpl_lists::{Message, message_at};
use std::alloc::Global;

/// What must stand at the place of a fault.
fn wanted(fault: &LabelFault) -> &'static str {
    match fault {
        LabelFault::Word(_) => "another word, or the version 1 or 2, must stand here",
        LabelFault::Number(_) => "a number must stand here, or - for an infinite label",
        LabelFault::Range(_) => {
            "the number must lie in its range, and the states of the rows of version 2 must go upwards"
        }
        LabelFault::Ended(_) => "the section must go on, or the next one must follow",
        LabelFault::Trailing(_) => "the file must end after the section of the last plan",
        LabelFault::Count(_) => "the number must be that of the plan, or of the states of the map",
        LabelFault::NoMemory => "there must be memory",
    }
}

/// The message of a fault in the text of labels: where it is, what must stand there, and what was found.
pub fn labels_message(
    alloc: Global,
    name: &str,
    text: &[u8],
    fault: &LabelFault,
) -> Result<Message, NoMemory>
    // It has the line and the column of the fault's place, and shows the token that begins there.
    ensures message { IfOk result (λ m. IsMessageAt name.now text.now (place_of fault.now) m) }
{
    let message = message_at(alloc, name, text, fault.place(), wanted(fault))?;
    Ok(message)
}
