//! What a seat of the claims' table knows.

use sbpl_frontier_rules::Leg;
use std::collections::LinkedList;

/// What a seat knows. It exists in proofs alone.
pub(crate) enum Known {
    /// The keeper's: the arcs that are out, the next ticket number, and a claim that was joined and is not settled yet.
    Whole {
        out: LinkedList<Leg>,
        next: u64,
        joined: Option<Leg>,
    },
    /// A claim.
    One(Leg),
    /// Nothing: its claim was joined.
    Nothing,
}
