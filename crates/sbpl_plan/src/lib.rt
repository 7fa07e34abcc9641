//! One plan: passes of falling inflation, and what their labels show.
#![tactic(auto)]

mod ask;
mod ending;
mod found;
mod inquiry;
mod laws;
mod look;
mod make;
mod observer;
mod passes;
mod result;

pub use ask::Ask;
pub use found::Found;
pub use inquiry::Inquiry;
pub use laws::plan_is_determined;
pub use make::plan;
pub use observer::{Nobody, Observer};
pub use passes::{PassRecord, Passes, Trace};
pub use result::{Arcs, FoundPath, PlanResult, Planned};
pub use sbpl_lists::{ListOf, Piece, push_all, push_bytes, push_field, push_number};
pub use sbpl_search::{
    Budget, FAR, Graph, Guide, Labels, Meter, NoMemory, PassEnd, Search, Time, Timer, Walk, Zero,
    bound_holds, bound_of, none_holds,
};
