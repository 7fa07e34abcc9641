//! What happens to a frontier.

/// One change of a frontier. The events of a pass in order are its journal.
#[derive(Clone, Copy, Debug, PartialEq, Eq)]
pub enum Event {
    /// A state was expanded, and its arcs became ready.
    Opened {
        state: u32,
    },
    /// The asker with the number `seat` was handed an arc to judge, under the next ticket number.
    Taken {
        ticket: u64,
        seat: u32,
        state: u32,
        arc: u32,
    },
    /// The arc of a ticket was judged: its cost, or `None` where it is not free.
    Posted {
        ticket: u64,
        cost: Option<u32>,
    },
}
