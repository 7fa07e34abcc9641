//! Serial search: passes that expand one open state after another, the least key first, over any graph.
#![tactic(auto)]

mod closed;
mod expansion;
mod laws;
mod low;
mod note;
mod parts;
mod planner;
mod policy;
mod queue;
mod raise;
mod repair;
mod serial;
mod step;
mod steps;

pub use closed::Closed;
pub use laws::{exact_where_same, raising_goes_arc_by_arc, run_is_determined};
pub use low::{low_of_queue, low_with};
pub use parts::Parts;
pub use policy::{Anew, Policy, Repair};
pub use queue::requeue;
pub use repair::change_labels;
pub use sbpl_open::{Entry, Key, Open};
pub use sbpl_search::{
    Budget, Determined, FAR, Graph, Guide, Labels, NoMemory, PassEnd, Search, Zero, ceil_root,
};
pub use serial::Serial;
pub use step::Step;
pub use steps::Steps;
