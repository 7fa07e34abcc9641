//! Messages for faults of environment files.

ghost use Rattle.std.specs.Prelude.{IfOk};
ghost use Rattle.sbpl_cfg.specs.Faults.{place_of};
ghost use Rattle.sbpl_lists.specs.Messages.{IsMessageAt};

use crate::fault::EnvFault;
use sbpl_fixed::{NoMemory, read_nano, read_whole};
use sbpl_lists::{Message, Row, message_at, value_before, wanted_at};
use std::alloc::{AllocError, Global};

/// What must stand where the size of a map is told, and the costs of its cells, in the file of a grid too. A text that ends
/// in a space is completed by `with_limit`.
pub const START_WANTED: &str = "discretization(cells): must stand here";

pub const WIDTH_WANTED: &str = "the width in cells must be a whole number from 1 to ";

pub const HEIGHT_WANTED: &str = "the height in cells must be a whole number from 1 to ";

pub const OBSTACLE_WANTED: &str = "obsthresh must be a whole number from 0 to 255";

pub const COST_WANTED: &str = "the cost of a cell must be a whole number from 0 to 255";

/// What must stand after each word of an environment file.
const ROWS: [Row; 11] = [
    Row {
        word: "discretization(cells):",
        values: &[WIDTH_WANTED, HEIGHT_WANTED],
        next: "NumThetaDirs: or obsthresh: must stand here",
    },
    Row {
        word: "NumThetaDirs:",
        values: &["NumThetaDirs must be a whole number from 4 to 64"],
        next: "obsthresh: must stand here",
    },
    Row {
        word: "obsthresh:",
        values: &[OBSTACLE_WANTED],
        next: "cost_inscribed_thresh: must stand here",
    },
    Row {
        word: "cost_inscribed_thresh:",
        values: &["cost_inscribed_thresh must be a whole number from 0 to 255"],
        next: "cost_possibly_circumscribed_thresh: must stand here",
    },
    Row {
        word: "cost_possibly_circumscribed_thresh:",
        values: &["cost_possibly_circumscribed_thresh must be a whole number from -1 to 255"],
        next: "cellsize(meters): must stand here",
    },
    Row {
        word: "cellsize(meters):",
        values: &["cellsize(meters) must be a decimal from 0.000000001 to 1000"],
        next: "nominalvel(mpersecs): must stand here",
    },
    Row {
        word: "nominalvel(mpersecs):",
        values: &["nominalvel(mpersecs) must be a decimal from 0.000000001 to 1000"],
        next: "timetoturn45degsinplace(secs): must stand here",
    },
    Row {
        word: "timetoturn45degsinplace(secs):",
        values: &["timetoturn45degsinplace(secs) must be a decimal from 0.000000001 to 1000"],
        next: "start(meters,rads): must stand here",
    },
    Row {
        word: "start(meters,rads):",
        values: &[
            "x of the start must be a decimal from -1000000000 to 1000000000",
            "y of the start must be a decimal from -1000000000 to 1000000000",
            "theta of the start must be a decimal from -1000000000 to 1000000000",
        ],
        next: "end(meters,rads): must stand here",
    },
    Row {
        word: "end(meters,rads):",
        values: &[
            "x of the end must be a decimal from -1000000000 to 1000000000",
            "y of the end must be a decimal from -1000000000 to 1000000000",
            "theta of the end must be a decimal from -1000000000 to 1000000000",
        ],
        next: "environment: must stand here",
    },
    Row {
        word: "environment:",
        values: &[],
        next: COST_WANTED,
    },
];

/// What must stand at the place of a fault, whatever the file says, without the limit of states.
fn wanted(text: &[u8], fault: &EnvFault) -> &'static str {
    match fault {
        EnvFault::Word(place)
        | EnvFault::Number(place)
        | EnvFault::Range(place)
        | EnvFault::Ended(place) => wanted_at(&ROWS, START_WANTED, text, *place),
        EnvFault::Trailing(_) => "the file must end after the cost of the last cell",
        EnvFault::TooLarge(_) => "width times height times the number of headings must be at most ",
        EnvFault::StartOff(_) | EnvFault::EndOff(_) => "the pose must lie on the map",
        EnvFault::NoMemory => "there must be memory",
    }
}

/// A text that ends in a space, with the number that it leaves out: the last of a range from 0 that has `states` numbers, or
/// otherwise `states`. Any other text stays as it is.
pub fn with_limit(alloc: Global, text: &str, states: u32) -> Result<String, AllocError> {
    if text.ends_with(" 0 to ") {
        format!(in alloc; "{text}{}", states.saturating_sub(1))
    } else if text.ends_with(' ') {
        format!(in alloc; "{text}{states}")
    } else {
        String::from_str(alloc, text)
    }
}

/// Billionths of a metre as decimal metres, with this sign before them.
fn metres_after(alloc: Global, sign: &str, nano: u128) -> Result<String, AllocError> {
    let text = format!(in alloc;
        "{sign}{}.{:09}",
        nano / 1_000_000_000,
        nano % 1_000_000_000
    )?;
    let short = text.as_str().trim_end_matches('0').trim_end_matches('.');
    String::from_str(alloc, short)
}

/// Billionths of a metre as decimal metres.
pub fn metres(alloc: Global, nano: i64) -> Result<String, AllocError> {
    let sign = if nano < 0 { "-" } else { "" };
    metres_after(alloc, sign, u128::from(nano.unsigned_abs()))
}

/// The length of `count` cells of the side `cell`, in nanometres, as decimal metres.
fn length_of(alloc: Global, cell: i64, count: u32) -> Result<String, AllocError> {
    metres_after(
        alloc,
        "",
        u128::from(cell.unsigned_abs()) * u128::from(count),
    )
}

/// What is said of a pose of this name that is off a map of `width` times `height` cells of the side `cell`, in nanometres.
pub fn on_map_text(
    alloc: Global,
    name: &str,
    cell: i64,
    width: u32,
    height: u32,
) -> Result<String, AllocError> {
    let width = length_of(alloc, cell, width)?;
    let height = length_of(alloc, cell, height)?;
    format!(in alloc;
        "{name} must lie on the map, where x goes from 0 to below {} and y from 0 to below {} metres",
        width.as_str(),
        height.as_str()
    )
}

/// Number `k`, from 0, of the counts of cells after the first word of an environment file, of which a place lies further on.
pub fn count_before(text: &[u8], place: usize, k: usize) -> u32 {
    let count = value_before(text, place, "discretization(cells):", k);
    match read_whole(count) {
        Ok(count) if count > 0 && count <= i64::from(u32::MAX) => count as u32,
        _ => 0,
    }
}

/// What is said of a pose of this name at a place of an environment file, whose map it is off.
fn off_map_text(
    alloc: Global,
    name: &str,
    text: &[u8],
    place: usize,
) -> Result<String, AllocError> {
    let cell = read_nano(value_before(text, place, "cellsize(meters):", 0)).unwrap_or(0);
    let width = count_before(text, place, 0);
    let height = count_before(text, place, 1);
    on_map_text(alloc, name, cell, width, height)
}

/// What must stand at the place of a fault, where there may be this many states.
fn wanted_text(
    alloc: Global,
    text: &[u8],
    fault: &EnvFault,
    states: u32,
) -> Result<String, AllocError> {
    match fault {
        EnvFault::StartOff(place) => off_map_text(alloc, "the start", text, *place),
        EnvFault::EndOff(place) => off_map_text(alloc, "the end", text, *place),
        _ => with_limit(alloc, wanted(text, fault), states),
    }
}

/// The message of a fault of an environment file that was read with this limit of states: where the fault is, what must stand
/// there, and what was found.
pub fn environment_message(
    alloc: Global,
    name: &str,
    text: &[u8],
    fault: &EnvFault,
    states: u32,
) -> Result<Message, NoMemory>
    // It has the line and the column of the fault's place, and shows the token that begins there.
    ensures message { IfOk result (λ m. IsMessageAt name.now text.now (place_of fault.now) m) }
{
    let wanted = wanted_text(alloc, text, fault, states)?;
    let message = message_at(alloc, name, text, fault.place(), wanted.as_str())?;
    Ok(message)
}
