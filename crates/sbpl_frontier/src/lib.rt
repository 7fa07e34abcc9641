//! The frontier of a parallel pass, shared by workers: they ask it for arcs under one lock, judge them with no lock held, and put
//! the judgements into a line, which whoever next holds the lock empties.
#![tactic(auto)]

mod ledgers;
mod locked;
mod seat;
mod second;
mod shared;
mod turn;
mod waiters;

pub use sbpl_postings::{
    Claim, Claims, Core, CoreOf, Event, Gate, Journal, Judged, Keeper, Lined, Naming, Next, NoGate,
    Parts, Pass, Past, Seen, Space, Ticket, UnnamedQueue, Unseen, events_keep, go_on, judge,
    nothing_begun,
};
pub use seat::Seat;
pub use second::Second;
pub use shared::Shared;
pub use turn::Turn;
