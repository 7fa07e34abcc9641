//! What contracts see of a judgement that comes back.

use std::collections::LinkedList;

/// A judgement that comes back: the seat of the worker that brings it, the number of its ticket, and the cost of its arc, or `None`
/// where the arc is not free.
#[derive(Clone, Copy, Debug, PartialEq, Eq)]
pub struct Post {
    pub seat: u32,
    pub ticket: u64,
    pub cost: Option<u32>,
}

/// What the worker of a seat put into a line, in order. It exists in proofs alone.
pub struct Sent {
    pub seat: u32,
    pub posts: LinkedList<Post>,
}
