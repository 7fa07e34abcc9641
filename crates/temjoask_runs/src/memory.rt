//! Runs at a desk in memory, which holds the files that the words of a line name, and which has faults: calls that fail, and files
//! that are too long.

use crate::running::{answer_at, tell};
use sbpl_cli::MemoryDesk;
use std::rt::Files;
use std::sync::Wait;
use std::thread::Threads;
use std::{fs, io};

/// One byte more than a file may have.
const TOO_LONG: u64 = (1 << 30) + 1;

/// Lets a desk have faults, which are separated by a comma and a blank each: `CALL AFTER` is a call that fails, counted
/// from 0, and the number of bytes that it takes before, and `long NAME` a file that is too long. Answers whether all have
/// this form, and memory did not run out.
fn fails(faults: &str, desk: &mut MemoryDesk) -> Option<()> {
    for fault in faults.split(", ") {
        let (call, after) = fault.split_once(' ')?;
        if call == "long" {
            desk.hold_filled(after, TOO_LONG, 0).ok()?;
        } else {
            desk.fail(call.parse::<u64>().ok()?, after.parse::<usize>().ok()?)
                .ok()?;
        }
    }
    Some(())
}

/// Holds at a desk each file that a word names. Answers whether memory did not run out.
fn holds<R: Files + AllocGlobal>(rt: &R, line: &str, desk: &mut MemoryDesk) -> bool {
    for name in line.split(' ') {
        if let Ok(text) = fs::read_to_string(rt, name) {
            if desk.hold(name, text.as_bytes()).is_err() {
                return false;
            }
        }
    }
    true
}

/// Prints what was written under a name.
fn show_written<R: Print>(rt: &R, name: &str, written: &[u8]) -> io::Result<()> {
    match str::from_utf8(written) {
        Ok(text) => println!(rt; "{name} {text:?}"),
        Err(_) => println!(rt; "{name} is not text"),
    }
}

/// Prints what was written to the standard output, and then under the names among the words of a line.
fn show_outputs<R: Print>(rt: &R, line: &str, desk: &MemoryDesk) -> io::Result<()> {
    show_written(rt, "-", desk.written("-"))?;
    for name in line.split(' ') {
        let written = desk.written(name);
        if !written.is_empty() {
            show_written(rt, name, written)?;
        }
    }
    Ok(())
}

/// Runs the program on the words of a line at a desk with faults, and prints what it writes there.
fn run_at<R: Files + Print + Input + AllocGlobal + Threads + Wait + Sync>(
    rt: &R,
    faults: &str,
    line: &str,
    desk: &mut MemoryDesk,
    error: &mut Vec<u8>,
) -> io::Result<()> {
    if !holds(rt, line, desk) || fails(faults, desk).is_none() {
        return println!(rt; "no such faults");
    }
    let status = answer_at(rt, line, desk, error);
    show_outputs(rt, line, desk)?;
    tell(rt, status, error.as_slice())
}

/// Does what a line says, as in `FAULTS: WORDS`.
pub(crate) fn memory_line<R: Files + Print + Input + AllocGlobal + Threads + Wait + Sync>(
    rt: &R,
    line: &str,
) -> io::Result<()> {
    let Some((faults, words)) = line.split_once(": ") else {
        return println!(rt; "no such run");
    };
    let mut desk = MemoryDesk::new(rt.alloc());
    let mut error = Vec::new(rt.alloc());
    run_at(rt, faults, words, &mut desk, &mut error)
}
