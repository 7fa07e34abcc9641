//! A lattice the other way round: its reversed graph, as a view of a lattice and as something that is planned on, and the
//! guide for a search that goes from the goal to where a robot is.
#![tactic(auto)]

mod back;
mod from_start;
mod laws;
mod reversed;
mod turned;

pub use back::Back;
pub use from_start::FromStart;
pub use laws::{arcs_turn_round, paths_turn_round};
pub use reversed::Reversed;
pub use turned::turned_round;
