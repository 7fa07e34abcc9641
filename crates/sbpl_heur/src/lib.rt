//! Heuristics on the lattice that are proved consistent.
#![tactic(auto)]

mod best;
mod cap;
mod cells;
mod hop;
mod hops;
mod queue;
mod walks;

pub use best::Best;
pub use sbpl_cost::{
    ArcEnd, ChangeFault, Changes, Env, Grid, Heuristic, Lattice, Map, Moves, OffMap, Place, Pose,
    Prims, SweepFault, Sweeps, Terrain, Write, apply, are_on_map, place_at, read_changes, read_env,
    read_moves, read_prims, write_batch,
};
pub use sbpl_serial::{Step, exact_where_same};
