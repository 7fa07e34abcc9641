//! What a pass of the queue knows.

use crate::{Post, Sent};
use std::collections::LinkedList;

/// What a pass of the queue knows. It exists in proofs alone.
pub(crate) enum Known {
    /// The drain's: how many senders were made, what was taken out, and what each sender that has ended had put in.
    Whole {
        made: u32,
        came: LinkedList<Post>,
        ended: LinkedList<Sent>,
    },
    /// A sender's: its seat, and what it put in.
    One(Sent),
    /// Nothing: its sender has ended.
    Nothing,
}
