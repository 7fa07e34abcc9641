//! The interface between planners and all that is built on them: one trait for a search that makes passes.
#![tactic(auto)]

mod determined;
mod search;

pub use determined::Determined;
pub use sbpl_labels::{
    Budget, FAR, Graph, Guide, Labels, Meter, NoMemory, PassEnd, Time, Timer, Walk, Zero,
    bound_holds, bound_of, ceil_root, none_holds,
};
pub use search::Search;
