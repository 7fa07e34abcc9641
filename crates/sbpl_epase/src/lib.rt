//! ePA*SE as a planner: passes of the frontier core by workers, each of which judges arcs with no lock held.
#![tactic(auto)]

mod crew;
mod epase;
mod made;
mod parallel;
mod passed;
mod planner;
mod repair;
mod worker;

pub use epase::Epase;
pub use parallel::{parallel_pass, parallel_pass_parts};
pub use passed::Passed;
pub use sbpl_frontier::{
    Claim, Claims, Core, Event, Gate, Journal, Judged, Keeper, Lined, Naming, Next, NoGate, Parts,
    Pass, Seat, Second, Shared, Turn, UnnamedQueue, Unseen, judge,
};
