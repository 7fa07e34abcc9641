//! What no clause says: that the calls of a desk in memory succeed.

use sbpl_cli::{Desk, MemoryDesk, ReadStop, WriteStop};
use std::process::Abort;

/// Names that are read by the calls 0 to 4 of the desk, the answers, and the bytes that were read.
const READS: [(&str, Result<(), ReadStop>, &str); 5] = [
    ("e", Ok(()), "size(cells):"),
    ("long", Err(ReadStop::TooLong), ""),
    ("dots", Ok(()), "..."),
    ("none", Err(ReadStop::Failed), ""),
    ("e", Err(ReadStop::Failed), ""),
];

/// Bytes that the calls 5 to 8 of the desk write, the answers, and all that is then written.
const WRITES: [(&str, Result<(), WriteStop>, &str); 4] = [
    ("plan 0\n", Ok(()), "plan 0\n"),
    ("abc", Err(WriteStop::Failed), "plan 0\nab"),
    ("xyz", Err(WriteStop::Failed), "plan 0\nabxyz"),
    ("done", Ok(()), "plan 0\nabxyzdone"),
];

/// Holds files, says which calls are to fail, and compares what the calls answer.
fn compare_calls(rt: &impl Abort, desk: &mut MemoryDesk, into: &mut Vec<u8>) {
    let held = [
        desk.hold("e", b"first"),
        desk.hold("e", b"size(cells):"),
        desk.hold_filled("dots", 3, b'.'),
        desk.hold_filled("long", (1 << 30) + 1, b'x'),
        desk.fail(4, 0),
        desk.fail(6, 2),
        desk.fail(7, 9),
    ];
    assert!(rt; held == [Ok(()); 7]);
    for (name, answer, bytes) in &READS {
        let said = desk.read(name, into) == *answer;
        assert!(rt; said && into.as_slice() == bytes.as_bytes(), "{name}");
    }
    for (bytes, answer, written) in &WRITES {
        let said = desk.write("-", bytes.as_bytes()) == *answer;
        assert!(rt; said && desk.written("-") == written.as_bytes(), "{bytes}");
    }
    assert!(rt; desk.written("e").is_empty());
}

#[test]
fn a_desk_in_memory_answers_as_it_was_told(rt: HostRuntime) {
    let mut into = Vec::new(rt.alloc());
    let mut desk = MemoryDesk::new(rt.alloc());
    compare_calls(&rt, &mut desk, &mut into);
}
