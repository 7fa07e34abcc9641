//! Messages for faults of change files.

ghost use Rattle.std.specs.Prelude.{◌≤◌, IfOk, length};
ghost use Rattle.sbpl_cfg.specs.sbpl_lists.Messages.{IsMessageOnLine};
ghost use Rattle.sbpl_map.specs.Faults.{line_of};

use crate::fault::ChangeFault;
use sbpl_cfg::{Message, NoMemory, message_on_line};
use std::alloc::{AllocError, Global};

/// A line of a text, counted from 1; empty where there is none.
fn line_at(text: &[u8], line: u64) -> &[u8] {
    let mut rest = text;
    let mut number: u64 = 1;
    while number < line {
        let Some(end) = rest.iter().position(|b| *b == b'\n') else {
            return &[];
        };
        rest = &rest[end + 1..];
        number += 1;
    }
    match rest.iter().position(|b| *b == b'\n') {
        Some(end) => &rest[..end],
        None => rest,
    }
}

/// How many spaces and tabs stand before the first field of a line.
fn indent(line: &[u8]) -> usize
    ensures bound { result ≤ length line.now }
{
    line.iter()
        .take_while(|b| **b == b' ' || **b == b'\t')
        .count()
}

/// The ranges of a line's numbers, where there may be this many states.
fn ranges(alloc: Global, whose: &str, third: &str, states: u32) -> Result<String, AllocError> {
    let last = states.saturating_sub(1);
    format!(in alloc; "X and Y of {whose} must be from 0 to {last}, and {third}")
}

/// What a line must be that has a fault.
fn wanted(alloc: Global, fault: &ChangeFault, states: u32) -> Result<String, AllocError> {
    let text = match fault {
        ChangeFault::Word(_) => "a line must be \"cell X Y C\" or \"replan\", or have no fields",
        ChangeFault::Number(_) => "X, Y and C of a cell must be whole numbers",
        ChangeFault::Range(_) => return ranges(alloc, "a cell", "C from 0 to 255", states),
        ChangeFault::OffMap(_) => "the cell must lie on the map",
        ChangeFault::NoReplan(_) => "the line \"replan\" must come after the last cell",
        ChangeFault::NoMemory => "there must be memory",
    };
    String::from_str(alloc, text)
}

/// What the line of a start must be that has a fault.
fn wanted_of_start(alloc: Global, fault: &ChangeFault, states: u32) -> Result<String, AllocError> {
    let text = match fault {
        ChangeFault::Number(_) => "X, Y and T of a start must be whole numbers",
        ChangeFault::Range(_) => return ranges(
            alloc,
            "a start",
            "T below the number of headings",
            states,
        ),
        ChangeFault::OffMap(_) => "the start must lie on the map",
        ChangeFault::NoReplan(_) => "the line \"replan\" must come after the last start",
        _ => return wanted(alloc, fault, states),
    };
    String::from_str(alloc, text)
}

/// What a line must be that has a fault, where lines can say where a robot is.
fn wanted_with_starts(
    alloc: Global,
    line: &[u8],
    fault: &ChangeFault,
    states: u32,
) -> Result<String, AllocError> {
    match fault {
        ChangeFault::Word(_) => String::from_str(
            alloc,
            "a line must be \"cell X Y C\", \"start X Y T\" or \"replan\", or have no fields",
        ),
        _ if line.starts_with(b"start") => wanted_of_start(alloc, fault, states),
        _ => wanted(alloc, fault, states),
    }
}

/// What a line must be that has a fault, where lines cannot say where a robot is.
fn wanted_without_starts(
    alloc: Global,
    line: &[u8],
    fault: &ChangeFault,
    states: u32,
) -> Result<String, AllocError> {
    match fault {
        ChangeFault::Word(_) if line.starts_with(b"start") => String::from_str(
            alloc,
            "\"start X Y T\" is for --planner back alone: a line must be \"cell X Y C\" or \"replan\", or have no fields",
        ),
        _ => wanted(alloc, fault, states),
    }
}

/// The message of a fault of a change file that was read with this limit of states: on which line the fault is, at which column
/// the line's first field begins, what the line must be, and what was found. `moves` says whether lines can say where a robot is.
pub fn changes_message(
    alloc: Global,
    name: &str,
    text: &[u8],
    moves: bool,
    fault: &ChangeFault,
    states: u32,
) -> Result<Message, NoMemory>
    // It has the line of the fault.
    ensures message { IfOk result (λ m. IsMessageOnLine name.now (line_of fault.now) m) }
{
    let line = line_at(text, fault.line());
    let blanks = indent(line);
    let line = &line[blanks..];
    let wanted = if moves {
        wanted_with_starts(alloc, line, fault, states)?
    } else {
        wanted_without_starts(alloc, line, fault, states)?
    };
    let message = message_on_line(
        alloc,
        name,
        fault.line() as usize,
        blanks + 1,
        wanted.as_str(),
        line,
    )?;
    Ok(message)
}
