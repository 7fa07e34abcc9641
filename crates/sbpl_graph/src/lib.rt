//! Graphs with costs, guides to a goal, and what labels on a graph show.
#![tactic(auto)]

mod graph;
mod guide;
mod laws;
mod zero;

pub use graph::Graph;
pub use guide::Guide;
pub use laws::{bound_holds, none_holds};
pub use zero::Zero;

/// The label that stands for infinity. Every finite label is below `2^62`.
pub const FAR: u64 = 1 << 63;
