//! The jobs of the program: from the words to the written bytes.
#![tactic(auto)]

mod check_job;
mod demo_job;
mod nav_job;
mod plan_job;
mod running;
mod sweep_job;

pub use running::run_words;
pub use sbpl_checks::{
    Asked, Board, CheckJob, Command, DemoJob, Desk, Ending, Entry, Gate, Job, JobFault, ListOf,
    MemoryDesk, Name, NavCheckJob, NavJob, NoGate, NoMemory, Outputs, PlanJob, Planner, Publisher,
    ReadStop, Reader, RealDesk, SearchJob, Setting, Sources, Status, Trouble, WriteStop, cell_at,
    heading_at, print_env, print_prims, read_asked, read_env, read_job, read_prims, status_after,
};
pub use sbpl_message::told;
pub use sbpl_plans::{LiveBoard, Meter};
