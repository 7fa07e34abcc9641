//! A small hall, by hand: its lattice, forwards and backwards, while its map changes, and passes by several workers.

use crate::change::are_touched;
use crate::heur::is_guided;
use crate::lattice::{are_arcs, are_gaps, are_known, are_read, is_written};
use crate::lattices::made;
use crate::passes::meet;
use sample_files::{E2, F2};
use sbpl_heur::Lattice;
use std::alloc::Global;
use std::sync::Wait;
use std::test::Fail;
use std::thread::Threads;

/// What is shown of the hall. Each call leaves the map as it was.
fn shown<R: Threads + Wait + Sync>(
    rt: &R,
    alloc: Global,
    hall: &mut Lattice,
    states: &mut Vec<u32>,
) -> [bool; 8] {
    [
        are_arcs(alloc, hall),
        are_known(alloc, hall),
        are_gaps(hall),
        is_written(hall),
        are_read(hall, states),
        are_touched(alloc, hall, states),
        meet(rt, alloc, hall),
        is_guided(rt, alloc, hall),
    ]
}

#[test]
fn a_hall_is_as_its_files_say(rt: HostRuntime) -> Result<(), Fail> {
    let Some(mut hall) = made(rt.alloc(), E2, F2) else {
        return Err(Fail::new("a lattice"));
    };
    let mut states = Vec::new(rt.alloc());
    let shown = shown(&rt, rt.alloc(), &mut hall, &mut states);
    drop(hall);
    drop(states);
    assert!(rt; shown == [true; 8]);
    Ok(())
}
