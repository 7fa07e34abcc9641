//! Runs of the program, one after another, as the file `session` has them. It is here to be tested: each line of the session
//! is printed, and after it what comes of it.
//!
//! A line of a session is one of these; `\n` in an edit stands for the end of a line.
//!
//! - `$ temjoask WORDS` runs the program on these words, and prints its status and its message; `$ quiet WORDS` leaves the
//!   message out.
//! - `$ cat NAME` prints a file.
//! - `$ edit NAME: OLD -> NEW` writes the file `edited`, which is the file of that name with one text in place of another, once.
//! - `$ prefixes NAME: WORDS` runs the program for each prefix of a file, which it writes to the file `edited`, the shortest
//!   first, and leaves the messages out.
//! - `$ memory FAULTS: WORDS` runs the program at a desk in memory with faults, as `memory.rt` says.
//! - `$ print NAME` writes what an environment file or a primitive file says to the file `printed`.
//! - `$ job WORDS` prints the job that these words name.
//! - Any other line says what the runs after it show.
#![tactic(auto)]

mod memory;
mod reading;
mod running;

use crate::memory::memory_line;
use crate::reading::{job_line, print_line};
use crate::running::run_line;
use std::rt::Files;
use std::sync::Wait;
use std::thread::Threads;
use std::{fs, io};

/// Prints what a file holds.
fn show<R: Files + Print + AllocGlobal>(rt: &R, name: &str) -> io::Result<()> {
    let text = fs::read_to_string(rt, name)?;
    print!(rt; "{text}")
}

/// Writes `edited`: the file of this name with one text in place of another.
fn edit<R: Files + Print + AllocGlobal>(
    rt: &R,
    name: &str,
    old: &str,
    new: &str,
) -> io::Result<()> {
    let text = fs::read_to_string(rt, name)?;
    let edited = text.replacen(rt.alloc(), old, new, 1)?;
    drop(text);
    fs::write(rt, "edited", edited)
}

/// Does what an edit says, as in `NAME: OLD -> NEW`.
fn edit_line<R: Files + Print + AllocGlobal>(rt: &R, line: &str) -> io::Result<()> {
    let line = line.replace(rt.alloc(), "\\n", "\n")?;
    if let Some((name, change)) = line.as_str().split_once(": ") {
        if let Some((old, new)) = change.split_once(" -> ") {
            return edit(rt, name, old, new);
        }
    }
    println!(rt; "no such edit")
}

/// Runs the program for each prefix of a text, which it writes to `edited`.
fn run_prefixes<R: Files + Print + Input + AllocGlobal + Threads + Wait + Sync>(
    rt: &R,
    text: &str,
    words: &str,
) -> io::Result<()> {
    for len in 0..=text.len() {
        fs::write(rt, "edited", &text.as_bytes()[..len])?;
        run_line(rt, words, false)?;
    }
    Ok(())
}

/// Runs the program for the prefixes of a file, as in `NAME: WORDS`.
fn prefixes_line<R: Files + Print + Input + AllocGlobal + Threads + Wait + Sync>(
    rt: &R,
    line: &str,
) -> io::Result<()> {
    let Some((name, words)) = line.split_once(": ") else {
        return println!(rt; "no such prefixes");
    };
    let text = fs::read_to_string(rt, name)?;
    run_prefixes(rt, text.as_str(), words)
}

/// Does what a line says that prints a file or writes one, or says of what is read how it is read.
fn play_file<R: Files + Print + AllocGlobal>(rt: &R, verb: &str, rest: &str) -> io::Result<()> {
    match verb {
        "cat" => show(rt, rest),
        "edit" => edit_line(rt, rest),
        "print" => print_line(rt, rest),
        "job" => job_line(rt, rest),
        _ => println!(rt; "no such line"),
    }
}

/// Does what a line says.
fn play<R: Files + Print + Input + AllocGlobal + Threads + Wait + Sync>(
    rt: &R,
    verb: &str,
    rest: &str,
) -> io::Result<()> {
    match verb {
        "temjoask" => run_line(rt, rest, true),
        "quiet" => run_line(rt, rest, false),
        "prefixes" => prefixes_line(rt, rest),
        "memory" => memory_line(rt, rest),
        _ => play_file(rt, verb, rest),
    }
}

/// Prints a line of a session, and does what it says.
fn play_line<R: Files + Print + Input + AllocGlobal + Threads + Wait + Sync>(
    rt: &R,
    line: &str,
) -> io::Result<()> {
    println!(rt; "{line}")?;
    let Some(rest) = line.strip_prefix("$ ") else {
        return Ok(());
    };
    let (verb, rest) = rest.split_once(' ').unwrap_or((rest, ""));
    play(rt, verb, rest)
}

fn main(rt: HostRuntime) -> io::Result<()> {
    let session = fs::read_to_string(&rt, "session")?;
    for line in session.lines() {
        play_line(&rt, line)?;
    }
    Ok(())
}
