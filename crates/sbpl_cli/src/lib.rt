//! The program's top calls: from the words to the written bytes and the status, and `answer`, which tells help and the version too,
//! and says why a job was not done.
#![tactic(auto)]

mod answering;
mod laws;
mod top;

pub use answering::answer;
pub use laws::runs_may_end_at_once;
pub use sbpl_jobs::{
    Board, CheckJob, Command, DemoJob, Desk, Ending, Entry, Gate, Job, JobFault, ListOf, LiveBoard,
    MemoryDesk, Meter, Name, NavCheckJob, NavJob, NoGate, Outputs, PlanJob, Planner, Publisher,
    ReadStop, Reader, RealDesk, SearchJob, Setting, Sources, Status, Trouble, WriteStop, cell_at,
    heading_at, print_env, print_prims, read_env, read_job, read_prims,
};
pub use top::{run, run_to_end, run_with};
