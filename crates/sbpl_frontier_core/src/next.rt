//! What an asker is told.

use crate::{Pass, Ticket};

/// What an asker is told.
pub enum Next<N: Pass> {
    /// An arc to judge.
    Job(Ticket<N>),
    /// No arc is ready and one is out, and the budget is spent or none of the 64 least open states is independent.
    NotYet,
    /// The pass is at rest: no arc is ready or out, and no open key is below the goal's.
    Over,
    /// No arc is ready or out, the budget is spent, and an open key is below the goal's.
    Spent,
}
