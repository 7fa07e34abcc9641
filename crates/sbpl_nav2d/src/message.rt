//! Messages for faults of the environment files of grids.

ghost use Rattle.std.specs.Prelude.{IfOk};
ghost use Rattle.sbpl_terrain.specs.sbpl_cfg.Faults.{place_of};
ghost use Rattle.sbpl_terrain.specs.sbpl_lists.Messages.{IsMessageAt};

use sbpl_fixed::NoMemory;
use sbpl_terrain::{
    COST_WANTED, EnvFault, HEIGHT_WANTED, Message, OBSTACLE_WANTED, Row, START_WANTED,
    WIDTH_WANTED, count_before, message_at, wanted_at, with_limit,
};
use std::alloc::{AllocError, Global};

/// What must stand after each word of the environment file of a grid.
const ROWS: [Row; 5] = [
    Row {
        word: "discretization(cells):",
        values: &[WIDTH_WANTED, HEIGHT_WANTED],
        next: "obsthresh: must stand here",
    },
    Row {
        word: "obsthresh:",
        values: &[OBSTACLE_WANTED],
        next: "start(cells): must stand here",
    },
    Row {
        word: "start(cells):",
        values: &[
            "x of the start must be a whole number from 0 to ",
            "y of the start must be a whole number from 0 to ",
        ],
        next: "end(cells): must stand here",
    },
    Row {
        word: "end(cells):",
        values: &[
            "x of the end must be a whole number from 0 to ",
            "y of the end must be a whole number from 0 to ",
        ],
        next: "environment: must stand here",
    },
    Row {
        word: "environment:",
        values: &[],
        next: COST_WANTED,
    },
];

/// What must stand at the place of a fault, whatever the file says, without the limit of states.
fn wanted(text: &[u8], fault: &EnvFault) -> &'static str {
    match fault {
        EnvFault::Word(place)
        | EnvFault::Number(place)
        | EnvFault::Range(place)
        | EnvFault::Ended(place) => wanted_at(&ROWS, START_WANTED, text, *place),
        EnvFault::Trailing(_) => "the file must end after the cost of the last cell",
        EnvFault::TooLarge(_) => "width times height must be at most ",
        EnvFault::StartOff(_) | EnvFault::EndOff(_) => "the cell must lie on the map",
        EnvFault::NoMemory => "there must be memory",
    }
}

/// What is said of a cell of this name that is off a map of this size.
pub fn on_grid_text(
    alloc: Global,
    name: &str,
    width: u32,
    height: u32,
) -> Result<String, AllocError> {
    format!(in alloc;
        "{name} must lie on the map, where x goes from 0 to below {width} and y from 0 to below {height}"
    )
}

/// What must stand at the place of a fault, where there may be this many states.
fn wanted_text(
    alloc: Global,
    text: &[u8],
    fault: &EnvFault,
    states: u32,
) -> Result<String, AllocError> {
    let (name, place) = match fault {
        EnvFault::StartOff(place) => ("the start", *place),
        EnvFault::EndOff(place) => ("the end", *place),
        _ => return with_limit(alloc, wanted(text, fault), states),
    };
    let width = count_before(text, place, 0);
    let height = count_before(text, place, 1);
    on_grid_text(alloc, name, width, height)
}

/// The message of a fault of the environment file of a grid that was read with this limit of states: where the fault is, what must
/// stand there, and what was found.
pub fn grid_message(
    alloc: Global,
    name: &str,
    text: &[u8],
    fault: &EnvFault,
    states: u32,
) -> Result<Message, NoMemory>
    // It has the line and the column of the fault's place, and shows the token that begins there.
    ensures message { IfOk result (λ m. IsMessageAt name.now text.now (place_of fault.now) m) }
{
    let wanted = wanted_text(alloc, text, fault, states)?;
    let message = message_at(alloc, name, text, fault.place(), wanted.as_str())?;
    Ok(message)
}
