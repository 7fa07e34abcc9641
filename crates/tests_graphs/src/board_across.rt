//! A board that one thread reads while another publishes.

ghost use Rattle.std.specs.Prelude.{◌≡◌, ◌+◌, ◌<◌, ◌^◌, length};

use sbpl_incumbent::{Board, Note, Publisher, Reader};
use std::snapshot::Snapshot;
use std::sync::Wait;
use std::test::Fail;
use std::thread;
use std::thread::{Promise, Threads};

/// How many entries are published while another thread reads.
const COUNT: u32 = 1000;

/// The last number that is published. One entry is published before.
const LAST: u64 = 1001;

/// How often a reader looks for the last one.
const TURNS: u64 = 1 << 28;

/// What may go to another thread.
fn across<T: Send>(value: T) -> T
    ensures same { result ≡ value }
{
    value
}

/// Publishes this many entries more.
fn publish_all<R: Wait>(rt: &R, board: &Board, publisher: &mut Publisher, count: u32)
    requires board { publisher.old.board ≡ board.now }
    requires few { length publisher.old.published + count < 2 ^ 63 }
    ensures board { publisher.new.board ≡ publisher.old.board }
    ensures published { length publisher.new.published ≡ length publisher.old.published + count }
{
    for pass in 0..count {
        board.publish(rt, publisher, 0, pass, 100, 1000);
    }
}

/// Reads until this number is there, or until the turns are used up. Returns the last number that was read, or 0 where one
/// was below the one before.
fn follow<R: Wait>(rt: &R, board: &Board, reader: Reader, until: u64) -> (Reader, u64)
    requires board { reader.board ≡ board.now }
    ensures board { result.0.board ≡ board.now }
{
    let mut reader = reader;
    let mut last = 0;
    for _ in 0..TURNS {
        let number = match board.read(rt, &mut reader) {
            Some(entry) => entry.number,
            None => 0,
        };
        if number < last {
            return (reader, 0);
        }
        last = number;
        if last >= until {
            break;
        }
        thread::yield_now();
    }
    (reader, last)
}

/// A thread gives a reader of this board back.
#[derive(Drop)]
struct SameBoard(Snapshot<Board>);

impl Promise<(Reader, u64)> for SameBoard {
    ghost use Rattle.std.specs.Prelude.{◌≡◌};

    ghost kept_by = { λ promise result. result.0.board ≡ promise.0.value };
}

/// The last number that a thread reads which was told of this note, while this one publishes.
fn followed<R: Threads + Wait + Sync>(
    rt: &R,
    board: &Board,
    publisher: Publisher,
    reader: Reader,
    note: Note,
) -> Result<u64, Fail>
    requires board { publisher.board ≡ board.now }
    requires reader { reader.board ≡ board.now }
    requires note { note.board ≡ board.now }
    requires few { length publisher.published + 1000 < 2 ^ 63 }
{
    let mut publisher = publisher;
    let mut reader = reader;
    board.learn(&mut reader, across(note));
    thread::scope(
        thread::scope_env(),
        rt,
        move |scope| -> Result<u64, Fail>
            requires { (publisher.board ≡ board.now) × (reader.board ≡ board.now)
                × (length publisher.published + 1000 < 2 ^ 63) }
        {
            let job = move || -> (Reader, u64)
                requires { reader.board ≡ board.now }
                ensures { result.0.board ≡ board.entry.now }
            { follow(rt, board, reader, LAST) };
            match scope.spawn_with(SameBoard(Snapshot::of(board)), job) {
                Ok(handle) => {
                    let mut publisher = publisher;
                    publish_all(rt, board, &mut publisher, COUNT);
                    let (reader, last) = handle.join(rt);
                    board.give_back(rt, &mut publisher, reader);
                    Ok(last)
                }
                Err(_job) => Err(Fail::new("no thread")),
            }
        },
    )
}

#[test]
fn numbers_never_fall(rt: HostRuntime) -> Result<(), Fail> {
    let (board, publisher) = Board::new(rt.alloc())?;
    let mut publisher = across(publisher);
    board.publish(&rt, &mut publisher, 0, 0, 120, 1200);
    let note = board.note(&mut publisher)?;
    let reader = board.reader(&mut publisher)?;
    let last = followed(&rt, &board, publisher, reader, note)?;
    assert!(rt; last == LAST);
    Ok(())
}
