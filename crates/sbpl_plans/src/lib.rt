//! The plans of a job: made by the planner that it asks for, published, and told.
#![tactic(auto)]

mod live_board;
mod plan_record;
mod planners;
mod plans;
mod publishing;
mod task;

pub use live_board::LiveBoard;
pub use planners::make_plans;
pub use sbpl_worlds::Meter;
pub use task::Task;
