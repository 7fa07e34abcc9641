//! The ledger of a pass.

use crate::Second;
use std::marker::PhantomData;
use std::sync::ledger::Ledger;

/// Counts the arcs that were taken.
#[derive(Drop)]
pub struct TakesOf<M> {
    of: PhantomData<M>,
}

impl<M: Second> Ledger for TakesOf<M> {
    ghost name = { M.takes };

    ghost parts = { M.parts };
}
