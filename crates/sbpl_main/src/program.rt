//! The program from its start: its words, and its exit status.

ghost use Rattle.std.specs.Prelude.{◌≡◌, [], List, drop, map, string_bytes};
ghost use Rattle.sbpl_cli.specs.Answered.{IsAnswered};
ghost use Rattle.sbpl_cli.specs.sbpl_promises.Promises.{IsStatus};
ghost use Rattle.sbpl_cli.specs.sbpl_promises.Published.{Entry};
ghost use Rattle.sbpl_main.specs.Given.{IsQuiet, words_given};

use crate::progress::answer_on;
use sbpl_cli::{Board, Desk, RealDesk, Status, runs_may_end_at_once};
use std::io::IsTerminal;
use std::rt::{Env, Files};
use std::sync::Wait;
use std::thread::Threads;
use std::time::Clock;
use std::{env, io};

/// The program's words, its name first.
fn words_of<R: Env + AllocGlobal>(rt: &R) -> io::Result<Vec<String>> {
    Ok(env::args(rt)?.collect(rt.alloc())?)
}

/// The words after the program's name.
fn after_name(words: &[String]) -> &[String]
    ensures words { result.now ≡ drop 1 words.now }
{
    match words {
        [] => words,
        [_, rest @ ..] => rest,
    }
}

/// Does what the words after the program's name ask for at a desk, and answers the status, and the desk. Where the job was not
/// done, a line on `err` says why. Where `err` is a terminal, the newest path is shown on its last line while the planner works.
pub fn start_at<R: AllocGlobal + Threads + Wait + Clock + Sync, D: Desk, E: io::Write + Send>(
    rt: &R,
    words: &[String],
    desk: D,
    err: &mut E,
    is_terminal: bool,
) -> (u8, D)
    // Every promise of `answer`, at this desk, where nothing was published before.
    ensures answered { (published : List Entry) × IsAnswered (map string_bytes words.now) (D.state desk) (D.state result.1) []
        published result.0 }
    // At no terminal a message comes with the statuses 1 to 7 and 10 alone, and of a job that makes plans with 0.
    ensures quiet { IsQuiet is_terminal (map string_bytes words.now) result.0 (E.contents err.old) (E.contents err.new) }
{
    runs_may_end_at_once();
    match Board::new(rt.alloc()) {
        Ok((board, mut publisher)) => answer_on(
            rt,
            words,
            desk,
            err,
            is_terminal,
            &board,
            &mut publisher,
        ),
        Err(_) => (Status::NoMemory.number(), desk),
    }
}

/// Does what `start_at` does for the words that the system handed over, the program's name first. A word that isn't text names no
/// job, like no word at all.
fn start_given<R: AllocGlobal + Threads + Wait + Clock + Sync, D: Desk, E: io::Write + Send>(
    rt: &R,
    given: &io::Result<Vec<String>>,
    desk: D,
    err: &mut E,
    is_terminal: bool,
) -> (u8, D)
    ensures answered { (published : List Entry) × IsAnswered (words_given given.now) (D.state desk) (D.state result.1) []
        published result.0 }
    ensures quiet { IsQuiet is_terminal (words_given given.now) result.0 (E.contents err.old) (E.contents err.new) }
{
    runs_may_end_at_once();
    match given {
        Ok(words) => start_at(rt, after_name(words.as_slice()), desk, err, is_terminal),
        Err(error) if error.kind() == io::ErrorKind::OutOfMemory => (
            Status::NoMemory.number(),
            desk,
        ),
        Err(_) => start_at(rt, &[], desk, err, is_terminal),
    }
}

/// Does what the program's words ask for, at the system's files, standard output and standard input, and answers the status, which
/// is one of those that the help lists. Where the job was not done, a line on `err` says why. Where `err` is a terminal, the newest
/// path is shown on its last line while the planner works.
pub fn start<
    R: Env + Files + Print + Input + AllocGlobal + Threads + Wait + Clock + Sync,
    E: io::Write + IsTerminal + Send,
>(rt: &R, err: &mut E) -> u8
    ensures status { IsStatus result }
{
    let is_terminal = err.is_terminal();
    let (status, _desk) = start_given(rt, &words_of(rt), RealDesk::new(rt), err, is_terminal);
    status
}
