//! Batches on a small hall, by hand.

use sbpl_heur::{ArcEnd, Lattice, Write, apply, are_on_map};
use std::alloc::Global;

/// The corner becomes an obstacle.
pub(crate) const SHUT: Write = Write {
    x: 2,
    y: 1,
    cost: 100,
};

/// The corner is free again.
pub(crate) const FREE: Write = Write {
    x: 2,
    y: 1,
    cost: 0,
};

/// A cell gets the cost that it has.
pub(crate) const SAME: Write = Write {
    x: 0,
    y: 0,
    cost: 0,
};

/// Writes a batch, and answers whether it touches just these states at an end of the arcs.
fn touches(
    alloc: Global,
    hall: &mut Lattice,
    batch: &[Write],
    end: ArcEnd,
    want: &[u32],
    states: &mut Vec<u32>,
) -> bool {
    if !are_on_map(hall, batch) {
        return false;
    }
    apply(alloc, hall, batch, end, states).is_ok() && states.as_slice() == want
}

/// The corner touches two heads and four sources, each once and upwards, whatever else a batch writes. What is changed back
/// touches none.
pub(crate) fn are_touched(alloc: Global, hall: &mut Lattice, states: &mut Vec<u32>) -> bool {
    let heads = [32, 80].as_slice();
    let sources = [32, 48, 64, 80].as_slice();
    let shut = touches(alloc, hall, &[SHUT, SHUT], ArcEnd::Head, heads, states);
    let free = touches(alloc, hall, &[SAME, FREE], ArcEnd::Head, heads, states);
    let again = touches(alloc, hall, &[FREE, SHUT], ArcEnd::Head, heads, states);
    let freed = touches(alloc, hall, &[FREE], ArcEnd::Source, sources, states);
    let back = touches(alloc, hall, &[SHUT, FREE, SAME], ArcEnd::Head, &[], states);
    [shut, free, again, freed, back] == [true; 5]
}
