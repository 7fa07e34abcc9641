//! Tickets.

ghost use Rattle.std.specs.Prelude.{◌≡◌, ◌<◌};

use crate::Pass;
use std::marker::PhantomData;

/// The right to judge one arc of a state, under a number. It is spent by `judge`, and can neither be copied nor dropped.
pub struct Ticket<N: Pass> {
    pub(crate) number: u64,
    pub(crate) state: u32,
    pub(crate) arc: u32,
    pub(crate) of: PhantomData<N>,
    pub ghost state_fits: { state < N.query.network.states },
    pub ghost arc_fits: { arc < N.query.network.fan state },
}

impl<N: Pass> Ticket<N> {
    /// The ticket's number.
    pub fn number(&self) -> u64
        ensures value { result ≡ self.now.number }
    {
        self.number
    }

    /// The state that its arc leaves.
    pub fn state(&self) -> u32
        ensures value { result ≡ self.now.state }
    {
        self.state
    }

    /// The number of its arc there.
    pub fn arc(&self) -> u32
        ensures value { result ≡ self.now.arc }
    {
        self.arc
    }
}
