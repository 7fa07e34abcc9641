//! What a worker calls before it judges an arc.

/// What a worker calls before it judges an arc, with no lock held. A test can hold workers up here.
pub trait Gate {
    /// A worker is about to judge the arc of the ticket with this number.
    fn before_judge(&self, ticket: u64);
}

/// A gate that does nothing.
#[derive(Clone, Copy, Debug, Default)]
pub struct NoGate;

impl Gate for NoGate {
    fn before_judge(&self, _ticket: u64) {}
}
