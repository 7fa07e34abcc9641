//! Labels of states, the bound that they show, and the walk along their back arcs.
#![tactic(auto)]

mod bound;
mod budget;
mod clock;
mod labels;
mod meter;
mod pass_end;
mod row;
mod rows;
mod time;
mod walk;
mod ways;

pub use bound::bound_of;
pub use budget::Budget;
pub use clock::Timer;
pub use labels::Labels;
pub use meter::Meter;
pub use pass_end::PassEnd;
pub use sbpl_graph::{FAR, Graph, Guide, Zero, bound_holds, none_holds};
pub use sbpl_pages::{NoMemory, ceil_root};
pub use time::Time;
pub use walk::Walk;
