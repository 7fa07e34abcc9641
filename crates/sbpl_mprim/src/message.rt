//! Messages for faults of primitive files.

ghost use Rattle.std.specs.Prelude.{IfOk};
ghost use Rattle.sbpl_mprim.specs.Faults.{place_of};
ghost use Rattle.sbpl_cfg.specs.sbpl_lists.Messages.{IsMessageAt};

use crate::fault::PrimFault;
use sbpl_cfg::{
    Before, Message, Row, is_named, message_at, metres, read_whole, value_before, wanted_after,
    word_before,
};
use sbpl_fixed::NoMemory;
use std::alloc::{AllocError, Global};

/// What must stand where no word stands before.
const START: &str = "resolution_m: must stand here";

/// The word whose values are a number of poses and then the poses.
const POSES_WORD: &str = "intermediateposes:";

/// What must stand after each word of a primitive file. After the poses of a primitive the next one begins.
const ROWS: [Row; 8] = [
    Row {
        word: "resolution_m:",
        values: &["resolution_m must be a decimal from 0.000000001 to 1000"],
        next: "numberofangles: must stand here",
    },
    Row {
        word: "numberofangles:",
        values: &["numberofangles must be a whole number from 1 to 64"],
        next: "totalnumberofprimitives: must stand here",
    },
    Row {
        word: "totalnumberofprimitives:",
        values: &["totalnumberofprimitives must be a whole number from 0 to 4096"],
        next: "primID: must stand here",
    },
    Row {
        word: "primID:",
        values: &["primID must be a whole number from 0 to 65535"],
        next: "startangle_c: must stand here",
    },
    Row {
        word: "startangle_c:",
        values: &["startangle_c must be a whole number from 0 to 15, one less than numberofangles"],
        next: "endpose_c: must stand here",
    },
    Row {
        word: "endpose_c:",
        values: &[
            "dx of endpose_c must be a whole number from -32767 to 32767",
            "dy of endpose_c must be a whole number from -32767 to 32767",
            "the heading of endpose_c must be a whole number from -32767 to 32767",
        ],
        next: "additionalactioncostmult: must stand here",
    },
    Row {
        word: "additionalactioncostmult:",
        values: &["additionalactioncostmult must be a whole number from 0 to 16777215"],
        next: "intermediateposes: must stand here",
    },
    Row {
        word: POSES_WORD,
        values: &["intermediateposes must be a whole number from 0 to 200000"],
        next: "primID: must stand here",
    },
];

/// What each number of a pose must be.
const POSE: [&str; 3] = [
    "x of a pose must be a decimal from -1000 to 1000",
    "y of a pose must be a decimal from -1000 to 1000",
    "theta of a pose must be a decimal from -1000000000 to 1000000000",
];

/// The word or the number that must stand after what stands before.
fn wanted_word(before: &Before) -> &'static str {
    wanted_after(&ROWS, START, before)
}

/// The number that must stand after what stands before.
fn wanted_number(before: &Before) -> &'static str {
    if before.after > 0 && is_named(before.word, POSES_WORD) {
        POSE[(before.after - 1) % 3]
    } else {
        wanted_word(before)
    }
}

/// Whether poses are to come, where a number of poses and some of their numbers stand before: each has three.
fn are_poses_left(before: &Before) -> bool {
    match read_whole(before.value) {
        Ok(count) => before.after as u64 <= count.unsigned_abs().saturating_mul(3),
        Err(_) => false,
    }
}

/// The word or the number that must stand where the file ends after what stands before.
fn wanted_at_end(before: &Before) -> &'static str {
    if are_poses_left(before) {
        wanted_number(before)
    } else {
        wanted_word(before)
    }
}

/// What must stand at the place of a fault that only this file can have.
fn wanted_of_primitive(fault: &PrimFault) -> &'static str {
    match fault {
        PrimFault::NoPose(_) => "a primitive must have at least one pose",
        PrimFault::SameId(_) =>
            "primID must differ from that of each earlier primitive with the same startangle_c",
        PrimFault::ZeroCost(_) =>
            "the primitive must cost something: additionalactioncostmult must be above 0, and the robot must move or turn",
        PrimFault::TooLarge(_) => "the primitives must have at most 200000 poses together",
        _ => "the file must end after the last primitive",
    }
}

/// What must stand at the place of a fault, whatever the files say.
fn wanted(text: &[u8], fault: &PrimFault) -> &'static str {
    match fault {
        PrimFault::Word(place) => wanted_word(&word_before(text, *place)),
        PrimFault::Ended(place) => wanted_at_end(&word_before(text, *place)),
        PrimFault::Number(place) | PrimFault::Range(place) => wanted_number(&word_before(
            text, *place,
        )),
        _ => wanted_of_primitive(fault),
    }
}

/// Which primitive a place is in, by its id and its heading.
fn primitive_at(alloc: Global, text: &[u8], place: usize) -> Result<String, AllocError> {
    let id = read_whole(value_before(text, place, "primID:", 0)).unwrap_or(0);
    let from = read_whole(value_before(text, place, "startangle_c:", 0)).unwrap_or(0);
    format!(in alloc; "primitive {id} at heading {from}")
}

/// Number `k` of the end of the primitive that a place is in.
fn end_at(text: &[u8], place: usize, k: usize) -> i64 {
    read_whole(value_before(text, place, "endpose_c:", k)).unwrap_or(0)
}

/// What must stand at the place of a fault, for an environment with this cell size in nanometres and this number of headings.
fn wanted_text(
    alloc: Global,
    text: &[u8],
    fault: &PrimFault,
    cell: i64,
    headings: u32,
) -> Result<String, AllocError> {
    match fault {
        PrimFault::Resolution(_) => {
            let cell = metres(alloc, cell)?;
            format!(in alloc;
                "resolution_m must be {}, the cellsize(meters) of the environment file",
                cell.as_str()
            )
        }
        PrimFault::Angles(_) => format!(in alloc;
            "numberofangles must be {headings}, the number of headings of the environment file"
        ),
        PrimFault::EndCell(place) => {
            let name = primitive_at(alloc, text, *place)?;
            format!(in alloc;
                "the last pose of {} must lie in its end cell, {} {} in endpose_c",
                name.as_str(),
                end_at(text, *place, 0),
                end_at(text, *place, 1)
            )
        }
        PrimFault::EndHeading(place) => {
            let name = primitive_at(alloc, text, *place)?;
            format!(in alloc;
                "theta of the last pose of {} must round to its end heading, {} in endpose_c",
                name.as_str(),
                end_at(text, *place, 2)
            )
        }
        _ => String::from_str(alloc, wanted(text, fault)),
    }
}

/// The message of a fault of a primitive file for an environment with this cell size in nanometres and this number of headings: where it is, what must stand there, and what was found.
pub fn primitives_message(
    alloc: Global,
    name: &str,
    text: &[u8],
    fault: &PrimFault,
    cell: i64,
    headings: u32,
) -> Result<Message, NoMemory>
    // It has the line and the column of the fault's place, and shows the token that begins there.
    ensures message { IfOk result (λ m. IsMessageAt name.now text.now (place_of fault.now) m) }
{
    let wanted = wanted_text(alloc, text, fault, cell, headings)?;
    let message = message_at(alloc, name, text, fault.place(), wanted.as_str())?;
    Ok(message)
}
