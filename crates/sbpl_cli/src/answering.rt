//! What the program does for the words after its name, at any desk.

ghost use Rattle.std.specs.Prelude.{◌≡◌, ◌<◌, ◌^◌, [], false, length, map, string_bytes};
ghost use Rattle.std.specs.Io.KnownBytes.{Keeps};
ghost use Rattle.sbpl_jobs.specs.sbpl_desk.Desk.{Rose};
ghost use Rattle.sbpl_jobs.specs.sbpl_promises.Explained.{has_message};
ghost use Rattle.sbpl_jobs.specs.sbpl_promises.Run.{IsOrUnwritten, job_named};
ghost use Rattle.sbpl_jobs.specs.sbpl_promises.Writing.{IsOutput, WritesOnly, output};
ghost use Rattle.sbpl_jobs.specs.sbpl_plans.Boards.{IsSamePublisher, entries_of};
ghost use Rattle.sbpl_jobs.specs.sbpl_report.Statuses.{number_of};
ghost use Rattle.sbpl_jobs.specs.sbpl_telling.Endings.{message_of};
ghost use Rattle.sbpl_cli.specs.Answered.{IsAnswered};

use sbpl_headline::promises_show_the_headline;
use sbpl_jobs::{
    Asked, Desk, Ending, Gate, LiveBoard, Status, Trouble, read_asked, run_words, status_after,
    told,
};
use sbpl_laws::runs_keep_promises;
use std::alloc::Global;
use std::io;
use std::sync::Wait;
use std::thread::Threads;

/// Writes the text that is asked for to the standard output, and answers the status.
fn tell<D: Desk>(alloc: Global, asked: Asked, desk: &mut D) -> Status
    ensures told { IsOrUnwritten 0 (number_of result) }
    ensures write { number_of result ≡ 7
        → Rose ((D.state desk.old).write_faults output) ((D.state desk.new).write_faults output) }
    ensures frame { WritesOnly IsOutput (D.state desk.old) (D.state desk.new) }
{
    let Ok(text) = told(alloc, asked) else {
        return Status::NoMemory;
    };
    status_after(desk.write("-", text.as_bytes()), Status::Done)
}

/// What is said of a write that failed besides, where the desk says what was in the way.
fn hindrance(trouble: Trouble) -> &'static str {
    match trouble {
        Trouble::Missing => ": there is no such folder",
        Trouble::Folder => ": a folder has this name",
        Trouble::Forbidden => ": the program is not allowed to write there",
        Trouble::Taken =>
            ": under another name the file is one that was read, or that is written already",
        Trouble::Untold | Trouble::Unread => "",
    }
}

/// Tells on `err` why a run that ended so did not do its job, if it did not, or why plans have no path. Where nobody reads the
/// output any more, as after `| head`, there is nothing to tell.
fn explain<E: io::Write>(ending: &Ending, trouble: Trouble, err: &mut E)
    ensures quiet { message_of ending.now ≡ [] → Keeps (E.contents err.old) (E.contents err.new) }
{
    let [told @ .., end] = ending.message() else {
        return;
    };
    if trouble == Trouble::Unread {
        return;
    }
    let besides = match ending.status {
        Status::NotWritten => hindrance(trouble),
        _ => "",
    };
    // The status says it all where even this cannot be written.
    let _ = err.write_all(told);
    let _ = err.write_all(besides.as_bytes());
    let _ = err.write_all(&[*end]);
}

#[tactic(none)]
/// Does what the words after the program's name ask for, and answers the program's status: tells help or the version, or does
/// the job that they name, as `run_with` does it. Where the job was not done, a line on `err` says why: which word, which file, or
/// where in a file and what must stand there; where it was, a line for each plan says why it has no path, if that is simple
/// (`run_to_end`). The board's publisher has published fewer than 2^62 entries.
pub fn answer<R: Threads + Wait + Sync, D: Desk, T: Gate + Sync, E: io::Write>(
    alloc: Global,
    words: &[String],
    live: &mut LiveBoard<R>,
    desk: &mut D,
    gate: &T,
    err: &mut E,
) -> u8
    requires few { length (entries_of live.old) < 2 ^ 62 }
    // Help or the version is told, or the job is done as `run_with` does it: every promise, the headline and the frame.
    ensures answered { IsAnswered (map string_bytes words.now) (D.state desk.old) (D.state desk.new) (entries_of live.old)
        (entries_of live.new) result }
    // The publisher stays the board's.
    ensures same { IsSamePublisher live.old live.new }
    // A message comes with the statuses 1 to 7 and 10 alone, and of a job that makes plans with 0.
    ensures quiet { has_message (job_named words.now) result ≡ false → Keeps (E.contents err.old) (E.contents err.new) }
{
    runs_keep_promises();
    promises_show_the_headline();
    match read_asked(words) {
        Some(asked) => tell(alloc, asked, desk).number(),
        None => {
            let ending = run_words(alloc, words, live, desk, gate);
            explain(&ending, desk.trouble(), err);
            ending.status.number()
        }
    }
}
