//! The line by which judgements come back: workers put them in without waiting for each other, and whoever holds the frontier takes
//! them out. For each worker, what comes out is what it put in, in its order, whole and once.
#![tactic(auto)]

mod drain;
mod known;
mod laws;
mod line;
mod lined;
mod post;
mod posting;
mod queue;
mod rule;
mod sender;
mod steps;
mod wrapping;

pub use drain::Drain;
pub use laws::lines_keep_order;
pub use line::UnnamedQueue;
pub use lined::Lined;
pub use post::{Post, Sent};
pub use posting::Posting;
pub use queue::Queue;
pub use sbpl_claims::{Claim, Claims, Graph, Guide, Keeper, Naming, NoMemory, events_keep};
pub use sbpl_frontier_core::{
    Core, CoreOf, Event, Gate, Journal, Judged, Next, NoGate, Parts, Pass, Past, Seen, Space,
    Ticket, Unseen, go_on, judge, nothing_begun,
};
pub use sender::Sender;
