//! What a job plans on: the lattice or the grid that files stand for, with the map updates of a change file, or a lattice that
//! is drawn.
#![tactic(auto)]

mod blocked;
mod cells;
mod drawn;
mod ends;
mod files;
mod grid;
mod lattice;
mod poses;
mod reversed;
mod updates;
mod workspace;

pub use drawn::draw;
pub use files::read_file;
pub use grid::read_grid_updates;
pub use lattice::{read_lattice, read_updates};
pub use updates::place_in;
pub use workspace::Workspace;

// Of `sbpl_graph`.
pub use sbpl_promises::{Graph, Guide};

// Of `sbpl_fixed`.
pub use sbpl_promises::{NoMemory, next_token};

// Of `sbpl_lists`.
pub use sbpl_promises::{ListOf, Message, push_bytes};

// Of `sbpl_desk`.
pub use sbpl_promises::{Desk, MemoryDesk, ReadStop, RealDesk, Trouble, WriteStop};

// Of `sbpl_cfg`.
pub use sbpl_promises::{cell_at, heading_at, print_env, read_env};

// Of `sbpl_mprim`.
pub use sbpl_promises::{print_prims, read_prims};

// Of `sbpl_map`.
pub use sbpl_promises::{Changes, writes_lead_to_the_next_map};

// Of `sbpl_terrain`.
pub use sbpl_promises::{Heuristic, write_batch};

// Of `sbpl_cost`.
pub use sbpl_promises::Lattice;

// Of `sbpl_back`.
pub use sbpl_promises::Reversed;

// Of `sbpl_nav2d`.
pub use sbpl_promises::{Nav, Octile};

// Of `sbpl_labels`.
pub use sbpl_promises::Meter;

// Of `sbpl_search`.
pub use sbpl_promises::Search;

// Of `sbpl_ara`.
pub use sbpl_promises::Ara;

// Of `sbpl_adstar`.
pub use sbpl_promises::AdStar;

// Of `sbpl_heur`.
pub use sbpl_promises::Best;

// Of `sbpl_incumbent`.
pub use sbpl_promises::{Board, Entry, Publisher, Reader, told_readers_get_the_newest};

// Of `sbpl_epase`.
pub use sbpl_promises::{Epase, Gate, NoGate, Parts, parallel_pass_parts};

// Of `sbpl_cert`.
pub use sbpl_promises::{
    Flaw, LabelFault, Outcome, Section, check, check_sparse, labels_message, plain_message,
    read_labels,
};

// Of `sbpl_plan`.
pub use sbpl_promises::{Arcs, Ask, FoundPath, Observer, PlanResult, Planned};

// Of `sbpl_replan`.
pub use sbpl_promises::Session;

// Of `sbpl_job`.
pub use sbpl_promises::{
    Asked, CheckJob, Command, DemoJob, GridSources, Job, JobFault, LabelForm, Name, NavCheckJob,
    NavJob, Outputs, PlanJob, Planner, SearchJob, Setting, Sources, Square, read_asked, read_job,
};

// Of `sbpl_report`.
pub use sbpl_promises::{
    Ended, Input, JobStop, PathRecord, PlanRecord, Raised, Refusal, Steps, Traced, demo_line,
    fault_line, flaw_line, holds_line, labels_of, listing_at, refusal_line, traced_passes,
};

// Of `sbpl_promises`.
pub use sbpl_promises::{Blockage, SectionStop, Updates, causes_stand};
