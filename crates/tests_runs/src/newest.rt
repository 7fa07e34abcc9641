//! The newest path, read by a gate while the planner works.

ghost use Rattle.std.specs.Prelude.{◌≡◌, []};

use crate::runs::{DETOUR, hold, words_of};
use sbpl_cli::{Board, Gate, MemoryDesk, Publisher, Reader, run_with};
use std::alloc::Global;
use std::sync::{Mutex, Wait};
use std::test::Fail;
use std::thread::Threads;

/// A reader of a board, and what it got: the number of the newest entry, or 0.
#[derive(Drop)]
struct Seen<'b> {
    board: &'b Board,
    reader: Reader,
    /// The last number.
    last: u64,
    /// Whether a number was less than one before it.
    fell: bool,
    /// How many judgements of ticket 0 there were.
    firsts: usize,
    /// The numbers at the first three of them.
    at_first: [u64; 3],

    ghost same: { reader.board ≡ board.now },
}

impl<'b> Seen<'b> {
    /// Reads the board, before the judgement of a ticket.
    fn read<R: Wait>(&mut self, rt: &R, ticket: u64) {
        let number = match self.board.read(rt, &mut self.reader) {
            Some(entry) => entry.number,
            None => 0,
        };
        if number < self.last {
            self.fell = true;
        }
        self.last = number;
        if ticket == 0 && self.firsts < 3 {
            self.at_first[self.firsts] = number;
            self.firsts += 1;
        }
    }
}

/// A gate that reads the newest path before each judgement.
#[derive(Drop)]
struct Watching<'b, R> {
    rt: &'b R,
    seen: Mutex<Seen<'b>>,
}

impl<'b, R: Wait + Sync> Gate for Watching<'b, R> {
    fn before_judge(&self, ticket: u64) {
        self.seen.lock(self.rt).read(self.rt, ticket);
    }
}

/// The status of a run of these words on a map with a way around, whether the newest path that a gate reads is ever an older one,
/// how many judgements of ticket 0 there are, and the numbers at the first three.
fn seen_on<R: Threads + Wait + Sync>(
    rt: &R,
    alloc: Global,
    words: &str,
    desk: &mut MemoryDesk,
    board: &Board,
    publisher: &mut Publisher,
) -> Result<(u8, bool, usize, [u64; 3]), Fail>
    requires board { publisher.old.board ≡ board.now }
    requires none { publisher.old.published ≡ [] }
{
    hold(&DETOUR, desk)?;
    let words = words_of(alloc, words)?;
    let seen = Seen {
        board,
        reader: board.reader(publisher)?,
        last: 0,
        fell: false,
        firsts: 0,
        at_first: [0; 3],
    };
    let gate = Watching {
        rt,
        seen: Mutex::new(seen),
    };
    let status = run_with(rt, alloc, words.as_slice(), desk, &gate, board, publisher);
    let seen = gate.seen.lock(rt);
    Ok((status, seen.fell, seen.firsts, seen.at_first))
}

/// The same, on a desk and a board of its own.
fn seen_by<R: Threads + Wait + Sync>(
    rt: &R,
    alloc: Global,
    words: &str,
) -> Result<(u8, bool, usize, [u64; 3]), Fail> {
    let (board, mut publisher) = Board::new(alloc)?;
    let mut desk = MemoryDesk::new(alloc);
    let seen = seen_on(rt, alloc, words, &mut desk, &board, &mut publisher);
    drop(desk);
    seen
}

/// The numbers never fall, also while several workers plan passes of falling inflation. At the first judgement of each of three
/// plans by one worker the newest path is that of the plan before.
#[test]
fn read_while_planning(rt: HostRuntime) -> Result<(), Fail> {
    let words = "plan e m --first=3 --planner=epase --workers=4";
    let (status, fell, ..) = seen_by(&rt, rt.alloc(), words)?;
    let words = "plan e m --changes=c --planner=epase --workers=1";
    let plans = seen_by(&rt, rt.alloc(), words)?;
    assert_eq!(rt; (status, fell, plans), (0, false, (0, false, 3, [0, 1, 2])));
    Ok(())
}
