//! The heap by hand.

ghost use Rattle.std.specs.Prelude.{◌≡◌};
ghost use Rattle.sbpl_adstar.specs.sbpl_open.OpenList.{states_of};

use sbpl_adstar::{Key, Open};
use std::test::Fail;

/// What is taken: of equal keys that of the lower state first, and nothing in the end.
const TAKEN: [Option<(u32, Key)>; 4] = [
    Some((0, Key(5, 2))),
    Some((3, Key(5, 2))),
    Some((1, Key(6, 0))),
    None,
];

/// Puts states into a heap that was emptied, and answers whether it names and gives back the least first.
fn gives_the_least(heap: &mut Open) -> bool
    requires states { states_of heap.old ≡ 8 }
{
    heap.put(2, Key(1, 1));
    heap.clear();
    heap.put(3, Key(5, 2));
    heap.put(1, Key(5, 1));
    heap.put(0, Key(5, 2));
    heap.put(1, Key(6, 0));
    heap.leave(7);
    let held = (heap.has(1), heap.has(7), heap.entries().len());
    let least = heap.least();
    let taken = [
        heap.take_least(),
        heap.take_least(),
        heap.take_least(),
        heap.take_least(),
    ];
    (held, least) == ((true, false, 3), Some((0, Key(5, 2)))) && taken == TAKEN
}

#[test]
fn least_first(rt: HostRuntime) -> Result<(), Fail> {
    let mut heap = Open::new(rt.alloc(), 8)?;
    let gives = gives_the_least(&mut heap);
    drop(heap);
    assert!(rt; gives);
    Ok(())
}
