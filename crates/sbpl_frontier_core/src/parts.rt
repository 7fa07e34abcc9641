//! What a pass takes and gives back.

use crate::Space;
use sbpl_frontier_rules::{Budget, Labels};

/// What a pass takes and gives back: labels, a budget and memory. A planner that makes several passes hands them from one to the
/// next.
#[derive(Drop)]
pub struct Parts {
    pub labels: Labels,
    pub budget: Budget,
    pub space: Space,
}
