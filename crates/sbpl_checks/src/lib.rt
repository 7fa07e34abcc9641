//! The labels of plans, read and checked on the map of each plan, and what is said of them.
#![tactic(auto)]

mod check_next;
mod label_file;
mod section_check;
mod text_check;

pub use label_file::LabelFile;
pub use sbpl_telling::{
    Ending, InFull, Lines, OUTPUT, Status, end_with, status_after, write_last, write_text,
};
pub use sbpl_worlds::{
    Asked, Board, Changes, CheckJob, Command, DemoJob, Desk, Entry, Gate, Graph, Input, Job,
    JobFault, JobStop, LabelForm, Lattice, ListOf, MemoryDesk, Message, Name, Nav, NavCheckJob,
    NavJob, NoGate, NoMemory, Outputs, PlanJob, Planner, Publisher, ReadStop, Reader, RealDesk,
    Refusal, Reversed, SearchJob, Setting, Sources, Trouble, Updates, Workspace, WriteStop,
    causes_stand, cell_at, demo_line, draw, heading_at, listing_at, print_env, print_prims,
    read_asked, read_env, read_file, read_grid_updates, read_job, read_lattice, read_prims,
    read_updates, refusal_line,
};
pub use text_check::check_text;
