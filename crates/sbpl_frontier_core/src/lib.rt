//! A parallel search's frontier, as its workers call it: arcs are handed out, judged and applied, one event after another.
#![tactic(auto)]

mod choice;
mod clear;
mod cursor;
mod frontier;
mod gate;
mod journal;
mod judged;
mod low;
mod name;
mod next;
mod parts;
mod past;
mod posting;
mod seen;
mod serial;
mod space;
mod ticket;
mod unseen;

pub use frontier::{Core, CoreOf};
pub use gate::{Gate, NoGate};
pub use journal::{Journal, JournalOf};
pub use judged::{Judged, judge};
pub use name::Pass;
pub use next::Next;
pub use parts::Parts;
pub use past::Past;
pub use sbpl_frontier_rules::{Event, Leg};
pub use seen::Seen;
pub use serial::{go_on, nothing_begun};
pub use space::Space;
pub use ticket::Ticket;
pub use unseen::Unseen;
