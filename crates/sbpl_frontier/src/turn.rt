//! What a worker is told.

use crate::Second;
use sbpl_postings::{Claim, Pass, Past, Seen, Ticket};

/// What a worker is told: an arc to judge with the claim on its ticket, or why there is none, with the journal that showed it.
pub enum Turn<N: Pass, U: Past, M: Second> {
    /// An arc to judge.
    Job(Ticket<N>, Claim<M>),
    /// No arc is ready and one is out, and the budget is spent or none of the 64 least open states is independent.
    NotYet(Seen<N, U>),
    /// The pass is at rest: no arc is ready or out, and no open key is below the goal's.
    Over(Seen<N, U>),
    /// No arc is ready or out, the budget is spent, and an open key is below the goal's.
    Spent(Seen<N, U>),
}
