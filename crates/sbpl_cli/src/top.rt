//! The one public call: does the job that words name, at a desk.

ghost use Rattle.std.specs.Prelude.{◌≡◌, ◌^◌, ◌<◌, [], List, length, map, string_bytes};
ghost use Rattle.sbpl_headline.specs.Headline.{IsHeadline};
ghost use Rattle.sbpl_jobs.specs.sbpl_promises.Explained.{IsTold};
ghost use Rattle.sbpl_jobs.specs.sbpl_promises.Promises.{MayBeWritten};
ghost use Rattle.sbpl_jobs.specs.sbpl_promises.Published.{Entry};
ghost use Rattle.sbpl_jobs.specs.sbpl_promises.Run.{job_named};
ghost use Rattle.sbpl_jobs.specs.sbpl_promises.RunPromises.{RunPromises};
ghost use Rattle.sbpl_jobs.specs.sbpl_promises.Writing.{WritesOnly};
ghost use Rattle.sbpl_jobs.specs.sbpl_report.Statuses.{number_of};
ghost use Rattle.sbpl_jobs.specs.sbpl_telling.Endings.{message_of};

use sbpl_headline::promises_show_the_headline;
use sbpl_jobs::{
    Board, Desk, Ending, Gate, LiveBoard, Meter, NoMemory, Publisher, Status, run_words,
};
use sbpl_laws::runs_keep_promises;
use std::alloc::Global;
use std::sync::Wait;
use std::thread::Threads;

/// Does what `run_with` does, and answers what people are told besides the status: which word is wrong, which file could
/// not be read, where a file has its fault and what must stand there, that a write failed, or, of a job that was done, a line for
/// each plan that has no path because nothing is free at its start or its goal.
pub fn run_to_end<R: Threads + Wait + Sync, D: Desk, T: Gate + Sync>(
    rt: &R,
    alloc: Global,
    words: &[String],
    desk: &mut D,
    gate: &T,
    board: &Board,
    publisher: &mut Publisher,
) -> Ending
    requires board { publisher.old.board ≡ board.now }
    requires few { length publisher.old.published < 2 ^ 62 }
    ensures promises { RunPromises (job_named words.now) (D.state desk.old) (D.state desk.new) publisher.old.published
        publisher.new.published (number_of result.status) }
    ensures headline { IsHeadline (map string_bytes words.now) (D.state desk.old) (D.state desk.new)
        (number_of result.status) }
    ensures told { IsTold (job_named words.now) (D.state desk.old) (D.state desk.new) publisher.old.published
        (number_of result.status) (message_of result) }
    ensures board { publisher.new.board ≡ publisher.old.board }
    ensures frame { WritesOnly (MayBeWritten (job_named words.now)) (D.state desk.old) (D.state desk.new) }
{
    runs_keep_promises();
    promises_show_the_headline();
    let meter = Meter::off();
    let mut live = LiveBoard::new(rt, board, publisher, &meter);
    run_words(alloc, words, &mut live, desk, gate)
}

/// Does the job that the words after the program's name stand for, writes what came of it to the standard output, which has
/// the name `-`, and answers the status: 0 where the job was done, 1 for labels with a flaw, 2 for words that name no job or give a
/// start or a goal off the map, 3, 4 and 5 for a fault of the environment file, of the primitive file and of the change file, 6 for a file that could not be
/// read, 7 for a write that failed, 8 for a file of more than 2^30 bytes, 9 where memory ran out, and 10 for a fault in the
/// text of labels. Plans by ePA*SE are made by threads, each of which calls the gate before it judges an arc; no other job
/// starts a thread.
///
/// Each path that a pass finds is published on the board at once, so that other threads can read the newest one while the
/// planner works. The publisher is the board's, and has published fewer than 2^62 entries.
pub fn run_with<R: Threads + Wait + Sync, D: Desk, T: Gate + Sync>(
    rt: &R,
    alloc: Global,
    words: &[String],
    desk: &mut D,
    gate: &T,
    board: &Board,
    publisher: &mut Publisher,
) -> u8
    requires board { publisher.old.board ≡ board.now }
    requires few { length publisher.old.published < 2 ^ 62 }
    // Every promise, with what each status says, and what was published.
    ensures promises { RunPromises (job_named words.now) (D.state desk.old) (D.state desk.new) publisher.old.published
        publisher.new.published result }
    // The headline, of `plan` and `nav`, in definitions of its own.
    ensures headline { IsHeadline (map string_bytes words.now) (D.state desk.old) (D.state desk.new) result }
    ensures board { publisher.new.board ≡ publisher.old.board }
    // Nothing that is held changes, nothing is written under names other than the job's, and no count falls.
    ensures frame { WritesOnly (MayBeWritten (job_named words.now)) (D.state desk.old) (D.state desk.new) }
{
    run_to_end(rt, alloc, words, desk, gate, board, publisher)
        .status
        .number()
}

/// Does what `run_with` does, with a board of its own that nobody reads.
pub fn run<R: Threads + Wait + Sync, D: Desk, T: Gate + Sync>(
    rt: &R,
    alloc: Global,
    words: &[String],
    desk: &mut D,
    gate: &T,
) -> u8
    // Every promise, with what each status says, where nothing was published before.
    ensures promises { (published : List Entry) × RunPromises (job_named words.now) (D.state desk.old) (D.state desk.new) []
        published result }
    // The headline, of `plan` and `nav`, in definitions of its own.
    ensures headline { IsHeadline (map string_bytes words.now) (D.state desk.old) (D.state desk.new) result }
    // Nothing that is held changes, nothing is written under names other than the job's, and no count falls.
    ensures frame { WritesOnly (MayBeWritten (job_named words.now)) (D.state desk.old) (D.state desk.new) }
{
    runs_keep_promises();
    promises_show_the_headline();
    match Board::new(alloc) {
        Ok((board, mut publisher)) => run_with(
            rt,
            alloc,
            words,
            desk,
            gate,
            &board,
            &mut publisher,
        ),
        Err(NoMemory) => Status::NoMemory.number(),
    }
}
