//! What a pass of the cell knows.

use crate::Entry;
use std::collections::LinkedList;

/// What a pass of the cell knows. It exists in proofs alone.
pub(crate) enum Known {
    /// The publisher's: what was published, oldest first, and what a reader got that was joined and is not settled yet.
    Publishes {
        published: LinkedList<Entry>,
        joined: Option<LinkedList<Entry>>,
    },
    /// A reader's: what its loads found, oldest first, number 0 among them, and the greatest number that it was told.
    Reads {
        got: LinkedList<Entry>,
        told: u64,
    },
    /// A note's: the greatest number that was published when it was made, or 0.
    Notes(u64),
    /// Nothing: it was joined into another pass.
    Nothing,
}
