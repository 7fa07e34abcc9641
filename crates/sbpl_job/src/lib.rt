//! The job that the program's words name.
#![tactic(auto)]

mod arguments;
mod demo;
mod ends;
mod files;
mod help;
mod job;
mod line;
mod name;
mod read;
mod values;
mod words;

pub use demo::{read_extent, read_seed};
pub use ends::{pose_by, square_by};
pub use files::form_named;
pub use help::{Asked, read_asked};
pub use job::{
    CheckJob, DemoJob, GridSources, Job, JobFault, LabelForm, NavCheckJob, NavJob, Outputs,
    PlanJob, Planner, SearchJob, Sources, Square,
};
pub use line::line_of;
pub use name::Name;
pub use read::{command_named, read_job};
pub use sbpl_cfg::{
    Message, NoMemory, next_token, plain_message, print_milli, read_whole, with_limit,
};
pub use values::{
    USUAL_STATES, back_of, budget_in, budget_of, milli_by, milli_in, planner_of, radius_of,
    states_by, workers_of,
};
pub use words::{Command, Setting, is_plain, setting_of, spaced_words, words_part_into_forms};
