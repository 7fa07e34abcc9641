//! Graphs over a map of cells whose costs change, guides that follow the map, and batches of changes: what these write, and which
//! states they touch.
#![tactic(auto)]

mod arc_end;
mod batch;
mod costs;
mod ends;
mod heuristic;
mod terrain;

pub use arc_end::ArcEnd;
pub use batch::{apply, are_on_map, write_batch};
pub use heuristic::Heuristic;
pub use sbpl_graph::{Graph, Guide};
pub use sbpl_map::{
    COST_WANTED, ChangeFault, Changes, Env, EnvFault, Grid, HEIGHT_WANTED, Map, Message, Moves,
    OBSTACLE_WANTED, OffMap, Row, START_WANTED, WIDTH_WANTED, Write, changes_message, count_before,
    message_at, read_changes, read_env, read_moves, texts_are_changes_or_faulty,
    texts_are_moves_or_faulty, wanted_at, with_limit, writes_lead_to_the_next_map,
};
pub use terrain::Terrain;
