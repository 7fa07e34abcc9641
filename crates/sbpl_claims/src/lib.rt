//! Claims on the tickets of a parallel search that are out: whoever keeps them learns from a claim that its ticket is out, of
//! which state and which arc.
#![tactic(auto)]

mod claim;
mod claims;
mod keeper;
mod known;
mod making;
mod naming;
mod rule;
mod steps;

pub use claim::Claim;
pub use claims::Claims;
pub use keeper::Keeper;
pub use naming::Naming;
pub use sbpl_frontier_rules::{Graph, Guide, NoMemory, events_keep};
