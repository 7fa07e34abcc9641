//! What a plan did: its passes and its result.

use sbpl_cert::Section;
use sbpl_cost::Place;
use sbpl_incumbent::Entry;
use sbpl_plan::{Arcs, ListOf, Passes, PlanResult};

/// Where a state is, as a report tells it.
#[derive(Clone, Copy)]
pub enum ReportPose {
    /// A cell and a heading.
    Pose(Place),
    /// A cell: its column and its row.
    Cell(u32, u32),
}

/// One step of a path: the number by which the environment's files name the motion, and where it ends.
#[derive(Clone, Copy)]
pub struct PathStep {
    /// On a lattice the primitive's id.
    pub id: u32,
    pub report_pose: ReportPose,
}

/// The steps of a path, in order.
pub type Steps = ListOf<PathStep>;

/// A line of a trace: one action of a search.
#[derive(Clone, Copy)]
pub enum TraceLine {
    /// An overconsistent state was expanded.
    Lower(u32),
    /// An underconsistent state was raised.
    Raise(u32),
    /// A state was expanded, and its arcs became ready to be judged.
    Open(u32),
    /// The worker at a seat took arc `arc` of `state`, under a ticket.
    Take {
        ticket: u64,
        seat: u32,
        state: u32,
        arc: u32,
    },
    /// The arc of a ticket was judged: its cost, or `None` where it is not free.
    Post {
        ticket: u64,
        cost: Option<u32>,
    },
}

/// A path from the start to the goal.
#[derive(Drop)]
pub struct PathRecord {
    /// The summed cost of its arcs.
    pub cost: u64,
    /// Its bound, in thousandths.
    pub bound: u128,
    /// Where it starts.
    pub start: ReportPose,
    /// Its steps, from the start.
    pub steps: Steps,
    /// Its arc numbers, from the start.
    pub arcs: Arcs,
}

/// States that were raised, in order.
pub type Raised = ListOf<u32>;

/// Why a plan has no path, where that is simple: what is in the way of each path between two states that differ.
#[derive(Clone, Copy)]
pub enum Blockage {
    /// No arc from the start is free.
    Start,
    /// No arc into the goal is free.
    Goal,
}

/// What a plan did.
#[derive(Drop)]
pub struct PlanRecord {
    /// The plan's number: 0, and one more for each batch of changes.
    pub plan: u32,
    /// The states that were raised before its passes, in order, where they are to be told.
    pub raised: Raised,
    /// Its passes in order.
    pub passes: Passes<TraceLine>,
    /// How many states they expanded together.
    pub expanded: u64,
    /// Where the last pass was spent, how many states the plan expanded.
    pub spent: Option<u64>,
    /// Its result.
    pub outcome: PlanResult<PathRecord>,
    /// Why it has no path, where it has none and that is simple.
    pub blockage: Option<Blockage>,
    /// The section of the final labels, where they are to be written.
    pub labels: Option<Section>,
    /// The newest path that was published by the end of the plan, if there is one.
    pub incumbent: Option<Entry>,
}
