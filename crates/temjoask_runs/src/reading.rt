//! What is read from files and from words, as the program reads it, is printed.

use crate::running::words_of;
use sbpl_cli::{Job, JobFault, print_env, print_prims, read_env, read_job, read_prims};
use std::alloc::Global;
use std::rt::Files;
use std::{fs, io};

/// The cell size that primitives are read for, in nanometres.
const CELL: i64 = 25_000_000;

/// The number of headings that they are read for.
const HEADINGS: u32 = 16;

/// The limit of states that environments are read with: the usual one.
const STATES: u32 = 8_388_608;

/// Prints the environment that a text stands for, and answers whether it stands for one.
fn prints_environment(alloc: Global, text: &[u8], out: &mut Vec<u8>) -> bool {
    match read_env(alloc, text, STATES) {
        Ok((env, grid)) => print_env(&env, &grid, out).is_ok(),
        Err(_) => false,
    }
}

/// Prints the primitives that a text stands for, and answers whether it stands for some.
fn prints_primitives(alloc: Global, text: &[u8], out: &mut Vec<u8>) -> bool {
    match read_prims(alloc, text, CELL, HEADINGS) {
        Ok(prims) => print_prims(&prims, out).is_ok(),
        Err(_) => false,
    }
}

/// Writes what a file says to the file `printed`.
pub(crate) fn print_line<R: Files + Print + AllocGlobal>(rt: &R, name: &str) -> io::Result<()> {
    let text = fs::read_to_string(rt, name)?;
    let mut out = Vec::new(rt.alloc());
    let is_read = prints_environment(rt.alloc(), text.as_bytes(), &mut out)
        || prints_primitives(rt.alloc(), text.as_bytes(), &mut out);
    drop(text);
    if is_read {
        fs::write(rt, "printed", out)
    } else {
        println!(rt; "no such file")
    }
}

/// Prints what was read from words: a job, and whether the robot may move in it, or why there is none.
fn show_job<R: Print>(rt: &R, read: &Result<Job, JobFault>) -> io::Result<()> {
    match read {
        Ok(job) => println!(rt; "{job:?} {}", job.may_move()),
        Err(fault) => println!(rt; "{fault}"),
    }
}

/// Prints the job that the words of a line name.
pub(crate) fn job_line<R: Print + AllocGlobal>(rt: &R, line: &str) -> io::Result<()> {
    let words = words_of(rt, line)?;
    let read = read_job(rt.alloc(), words.as_slice());
    drop(words);
    show_job(rt, &read)
}
