//! What the program prints: the record of a plan, and as texts its labels, its trace and its line, the lines of checks, of sweeps,
//! of a demonstration and of refusals; and the statuses that it ends with.
#![tactic(auto)]

mod check_lines;
mod ended;
mod labels;
mod record;
mod refusal;
mod refusal_lines;
mod report;
mod status;
mod sweep_lines;
mod trace;

pub use check_lines::{flaw_line, holds_line};
pub use ended::Ended;
pub use labels::{labels_of, labels_text};
pub use record::{
    Blockage, PathRecord, PathStep, PlanRecord, Raised, ReportPose, Steps, TraceLine,
};
pub use refusal::{Input, JobStop, PathEnd, Refusal};
pub use refusal_lines::{fault_line, refusal_line};
pub use report::{demo_line, incumbent_line, plan_line};
pub use status::Status;
pub use sweep_lines::listing_at;
pub use trace::{Traced, trace_of, traced_passes};

// Of `sbpl_graph`.
pub use sbpl_plan::{Graph, Guide};

// Of `sbpl_fixed`.
pub use sbpl_job::{NoMemory, next_token};

// Of `sbpl_lists`.
pub use sbpl_cost::{Message, plain_message};
pub use sbpl_plan::{ListOf, Piece, push_all, push_bytes};

// Of `sbpl_cfg`.
pub use sbpl_cost::{
    Env, EnvFault, Grid, Place, Pose, cell_at, environment_message, heading_at, metres,
    on_map_text, place_at, print_env, read_env, texts_are_environments_or_faulty,
};

// Of `sbpl_mprim`.
pub use sbpl_cost::{
    PrimFault, Prims, primitives_message, print_prims, read_prims, texts_are_primitives_or_faulty,
};

// Of `sbpl_map`.
pub use sbpl_cost::{
    ChangeFault, Changes, Map, Moves, changes_message, read_changes, read_moves,
    texts_are_changes_or_faulty, texts_are_moves_or_faulty, writes_lead_to_the_next_map,
};

// Of `sbpl_terrain`.
pub use sbpl_cost::{Heuristic, Terrain, write_batch};

// Of `sbpl_sweep`.
pub use sbpl_cost::{SweepFault, Sweeps};

// Of `sbpl_cost`.
pub use sbpl_cost::{
    Lattice, LatticeFault, alike_worlds_are_one_graph, lattice_has_its_arcs,
    lattice_tails_are_in_order,
};

// Of `sbpl_search`.
pub use sbpl_plan::Search;

// Of `sbpl_serial`.
pub use sbpl_frontier_rules::run_is_determined;

// Of `sbpl_incumbent`.
pub use sbpl_incumbent::{Board, Entry, Publisher, Reader, told_readers_get_the_newest};

// Of `sbpl_cert`.
pub use sbpl_cert::{
    Flaw, LabelFault, Outcome, Section, check, check_sparse, cut_rows_are_one, first_flaws_are_one,
    labels_message, read_labels, texts_are_sections_or_faulty,
};

// Of `sbpl_plan`.
pub use sbpl_plan::{
    Arcs, Ask, Found, FoundPath, Observer, PassRecord, PlanResult, Planned, plan_is_determined,
};

// Of `sbpl_job`.
pub use sbpl_job::{
    Asked, CheckJob, Command, DemoJob, GridSources, Job, JobFault, LabelForm, Name, NavCheckJob,
    NavJob, Outputs, PlanJob, Planner, SearchJob, Setting, Sources, Square, USUAL_STATES,
    read_asked, read_job, words_part_into_forms,
};
