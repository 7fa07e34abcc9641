//! A board in one thread.

ghost use Rattle.std.specs.Prelude.{◌≡◌, IfOk};
ghost use Rattle.sbpl_incumbent.specs.Entries.{newest};

use sbpl_incumbent::{Board, Entry, Publisher, told_readers_get_the_newest};
use sbpl_plan::NoMemory;
use std::sync::Wait;
use std::test::Fail;

/// What a reader gets that was told of all that was published.
fn told<R: Wait>(
    rt: &R,
    board: &Board,
    publisher: &mut Publisher,
) -> Result<Option<Entry>, NoMemory>
    requires board { publisher.old.board ≡ board.now }
    ensures newest { IfOk result (λ answer. answer ≡ newest publisher.old.published) }
    ensures same { publisher.new ≡ publisher.old }
{
    told_readers_get_the_newest();
    let note = board.note(publisher)?;
    let mut reader = board.reader(publisher)?;
    board.learn(&mut reader, note);
    let answer = board.read(rt, &mut reader);
    board.give_back(rt, publisher, reader);
    Ok(answer)
}

/// The greatest bound, in thousandths, takes both of its words.
const BOUND: u128 = (1 << 100) - 1;

/// What is read before a path is published, after one, and after another.
static FOUND: [Result<Option<Entry>, NoMemory>; 3] = [
    Ok(None),
    Ok(Some(Entry {
        number: 1,
        plan: 7,
        pass: 0,
        cost: 120,
        bound: 1200,
    })),
    Ok(Some(Entry {
        number: 2,
        plan: 7,
        pass: 3,
        cost: 1 << 40,
        bound: BOUND,
    })),
];

#[test]
fn the_newest_is_read(rt: HostRuntime) -> Result<(), Fail> {
    let (board, mut publisher) = Board::new(rt.alloc())?;
    let none = told(&rt, &board, &mut publisher);
    board.publish(&rt, &mut publisher, 7, 0, 120, 1200);
    let first = told(&rt, &board, &mut publisher);
    board.publish(&rt, &mut publisher, 7, 3, 1 << 40, BOUND);
    let second = told(&rt, &board, &mut publisher);
    assert!(rt; [none, first, second] == FOUND);
    Ok(())
}
