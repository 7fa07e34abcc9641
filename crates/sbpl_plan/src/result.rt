//! The result of a plan.

use crate::passes::Passes;
use sbpl_lists::ListOf;

/// The arc numbers of a path from the start.
pub type Arcs = ListOf<u32>;

/// A path that a plan found.
#[derive(Debug, Drop)]
pub struct FoundPath {
    /// Its arc numbers, from the start.
    pub arcs: Arcs,
    /// The sum of their costs.
    pub cost: u64,
    /// Its bound, in thousandths.
    pub bound: u128,
}

/// The result of a plan, with what is told of its path.
#[derive(Debug, Drop)]
pub enum PlanResult<P> {
    /// A path.
    Path(P),
    /// There is no path.
    NoPath,
    /// The budget was spent before either was known.
    Unknown,
}

/// A plan that was made, by a search that records such actions.
#[derive(Debug, Drop)]
pub struct Planned<N> {
    /// Its passes in order.
    pub passes: Passes<N>,
    /// Whether the last pass was spent.
    pub spent: bool,
    /// Its result.
    pub outcome: PlanResult<FoundPath>,
}
