//! The program, run on the words of a line.

use sbpl_cli::{Board, Desk, LiveBoard, Meter, NoGate, RealDesk, Status, answer};
use std::alloc::AllocError;
use std::io;
use std::rt::Files;
use std::sync::Wait;
use std::thread::Threads;

/// The words of a line, which are separated by one blank each; between two blanks stands an empty word. An empty line has none.
pub(crate) fn words_of<R: AllocGlobal>(rt: &R, line: &str) -> Result<Vec<String>, AllocError> {
    let mut words = Vec::new(rt.alloc());
    if !line.is_empty() {
        for word in line.split(' ') {
            words.push(String::from_str(rt.alloc(), word)?)?;
        }
    }
    Ok(words)
}

/// Runs the program on the words of a line at a desk, and answers its status. Its message is appended to `error`.
pub(crate) fn answer_at<R: AllocGlobal + Threads + Wait + Sync, D: Desk>(
    rt: &R,
    line: &str,
    desk: &mut D,
    error: &mut Vec<u8>,
) -> u8 {
    let Ok(words) = words_of(rt, line) else {
        return Status::NoMemory.number();
    };
    let Ok((board, mut publisher)) = Board::new(rt.alloc()) else {
        return Status::NoMemory.number();
    };
    let meter = Meter::off();
    let mut live = LiveBoard::new(rt, &board, &mut publisher, &meter);
    answer(
        rt.alloc(),
        words.as_slice(),
        &mut live,
        desk,
        &NoGate,
        error,
    )
}

/// Prints the status of a run, and the message that came with it.
pub(crate) fn tell<R: Print>(rt: &R, status: u8, error: &[u8]) -> io::Result<()> {
    println!(rt; "status {status}")?;
    match str::from_utf8(error) {
        Ok(message) => print!(rt; "{message}"),
        Err(_) => println!(rt; "a message that is not text"),
    }
}

/// Runs the program on the words of a line at the system's files, and prints its status, and its message where that is asked for.
pub(crate) fn run_line<R: Files + Print + Input + AllocGlobal + Threads + Wait + Sync>(
    rt: &R,
    line: &str,
    tells: bool,
) -> io::Result<()> {
    let mut desk = RealDesk::new(rt);
    let mut error = Vec::new(rt.alloc());
    let status = answer_at(rt, line, &mut desk, &mut error);
    if !tells {
        error.clear();
    }
    tell(rt, status, error.as_slice())
}
