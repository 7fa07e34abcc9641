//! What the plans of a job are asked for.

use sbpl_worlds::{Outputs, SearchJob, Updates};

/// What the plans of a job are asked for: how they are searched, what is written of them, how the map changes from plan to
/// plan and the robot moves, from which state the first goes, and to which all go.
#[derive(Drop)]
pub struct Task<'a> {
    pub how: &'a SearchJob,
    pub outputs: &'a Outputs,
    pub updates: &'a Updates,
    pub start: u32,
    pub goal: u32,
}

/// The number of a plan, and the state from which it goes.
#[derive(Clone, Copy)]
pub(crate) struct PlanStart {
    pub(crate) plan: u32,
    pub(crate) start: u32,
}
