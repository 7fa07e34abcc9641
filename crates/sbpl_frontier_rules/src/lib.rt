//! The rules of a parallel search's frontier: its events, what each does, and what they keep. Nothing here runs.
#![tactic(auto)]

mod event;
mod laws;
mod leg;

pub use event::Event;
pub use laws::events_keep;
pub use leg::Leg;
pub use sbpl_serial::{
    Budget, Closed, Entry, Graph, Guide, Key, Labels, NoMemory, Open, PassEnd, Step, low_of_queue,
    low_with, requeue, run_is_determined,
};
