//! What the program promises of the status that it answers and of what it writes, as definitions.
#![tactic(auto)]

mod laws;
mod section_stop;
mod updates;

pub use laws::causes_stand;
pub use section_stop::SectionStop;
pub use updates::Updates;

// Of `sbpl_graph`.
pub use sbpl_report::{Graph, Guide};

// Of `sbpl_fixed`.
pub use sbpl_report::{NoMemory, next_token};

// Of `sbpl_lists`.
pub use sbpl_report::{ListOf, Message, Piece, plain_message, push_all, push_bytes};

// Of `sbpl_desk`.
pub use sbpl_desk::{Desk, MemoryDesk, ReadStop, RealDesk, Trouble, WriteStop};

// Of `sbpl_cfg`.
pub use sbpl_report::{
    Env, EnvFault, Grid, Place, Pose, cell_at, environment_message, heading_at, metres,
    on_map_text, place_at, print_env, read_env, texts_are_environments_or_faulty,
};

// Of `sbpl_mprim`.
pub use sbpl_report::{
    PrimFault, Prims, primitives_message, print_prims, read_prims, texts_are_primitives_or_faulty,
};

// Of `sbpl_map`.
pub use sbpl_report::{
    ChangeFault, Changes, Map, changes_message, read_changes, read_moves,
    texts_are_changes_or_faulty, texts_are_moves_or_faulty, writes_lead_to_the_next_map,
};

// Of `sbpl_terrain`.
pub use sbpl_report::{Heuristic, Terrain, write_batch};

// Of `sbpl_sweep`.
pub use sbpl_report::{SweepFault, Sweeps};

// Of `sbpl_cost`.
pub use sbpl_report::{
    Lattice, LatticeFault, alike_worlds_are_one_graph, lattice_has_its_arcs,
    lattice_tails_are_in_order,
};

// Of `sbpl_demo`.
pub use sbpl_demo::{Demo, generate};

// Of `sbpl_back`.
pub use sbpl_replan::{Back, FromStart, Reversed, paths_turn_round, turned_round};

// Of `sbpl_nav2d`.
pub use sbpl_nav2d::{
    Nav, NavEnv, Octile, grid_message, on_grid_text, read_nav, texts_are_grids_or_faulty,
    worlds_are_grids,
};

// Of `sbpl_labels`.
pub use sbpl_replan::Meter;

// Of `sbpl_search`.
pub use sbpl_report::Search;

// Of `sbpl_serial`.
pub use sbpl_report::run_is_determined;

// Of `sbpl_ara`.
pub use sbpl_replan::Ara;

// Of `sbpl_adstar`.
pub use sbpl_replan::AdStar;

// Of `sbpl_heur`.
pub use sbpl_replan::Best;

// Of `sbpl_incumbent`.
pub use sbpl_report::{Board, Entry, Publisher, Reader, told_readers_get_the_newest};

// Of `sbpl_epase`.
pub use sbpl_epase::{Epase, Gate, NoGate, Parts, parallel_pass_parts};

// Of `sbpl_cert`.
pub use sbpl_report::{
    Flaw, LabelFault, Outcome, Section, check, check_sparse, cut_rows_are_one, first_flaws_are_one,
    labels_message, read_labels, texts_are_sections_or_faulty,
};

// Of `sbpl_plan`.
pub use sbpl_report::{
    Arcs, Ask, Found, FoundPath, Observer, PassRecord, PlanResult, Planned, plan_is_determined,
};

// Of `sbpl_replan`.
pub use sbpl_replan::Session;

// Of `sbpl_job`.
pub use sbpl_report::{
    Asked, CheckJob, Command, DemoJob, GridSources, Job, JobFault, LabelForm, Name, NavCheckJob,
    NavJob, Outputs, PlanJob, Planner, SearchJob, Setting, Sources, Square, USUAL_STATES,
    read_asked, read_job, words_part_into_forms,
};

// Of `sbpl_report`.
pub use sbpl_report::{
    Blockage, Ended, Input, JobStop, PathEnd, PathRecord, PathStep, PlanRecord, Raised, Refusal,
    ReportPose, Status, Steps, TraceLine, Traced, demo_line, fault_line, flaw_line, holds_line,
    incumbent_line, labels_of, labels_text, listing_at, plan_line, refusal_line, trace_of,
    traced_passes,
};
