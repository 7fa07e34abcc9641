//! A plan that has ended.

use sbpl_plan::{FoundPath, Labels, PlanResult};

/// A plan that has ended: what it was made on, the goal of its search, its number, the labels that the search left, and the
/// result.
#[derive(Drop)]
pub struct Ended<'a, G, H> {
    pub graph: &'a G,
    pub guide: &'a H,
    pub goal: u32,
    pub plan: u32,
    pub labels: &'a Labels,
    pub found: &'a PlanResult<FoundPath>,
}
