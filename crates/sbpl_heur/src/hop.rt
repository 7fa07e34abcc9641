//! Pairs by which primitives move.

/// A pair of numbers of cells by which some primitive moves, with the least cost of those that do.
#[derive(Clone, Copy)]
pub(crate) struct Hop {
    pub(crate) dx: i32,
    pub(crate) dy: i32,
    pub(crate) cost: u32,
}
