//! Costs of primitives, and the lattice as a graph.
#![tactic(auto)]

mod arc_end;
mod checked;
mod fault;
mod gaps;
mod judging;
mod lattice;
mod laws;
mod places;
mod primitive_cost;
mod rate;
mod reach;
mod reading;
mod state_gaps;
mod strip;
mod strips;
mod tables;
mod walls;
mod way;

pub use fault::LatticeFault;
pub use lattice::Lattice;
pub use laws::{
    alike_worlds_are_one_graph, gaps_are_floors, gaps_rise_along_arcs, lattice_has_its_arcs,
    lattice_has_its_tails, lattice_tails_are_in_order, unread_arcs_cost_the_same,
};
pub use primitive_cost::{MOST_COST, cost_parts_are_least, prim_cost};
pub use sbpl_sweep::{
    Cell, Env, EnvFault, Grid, ListOf, Message, NoMemory, Piece, Place, Pose, Prim, PrimFault,
    Prims, SweepFault, Sweeps, Word, cell_at, environment_message, few_poses_are_narrow,
    heading_at, metres, on_map_text, place_at, plain_message, primitives_message, print_env,
    print_prims, push_all, push_line, push_lines, read_env, read_prims,
    texts_are_environments_or_faulty, texts_are_primitives_or_faulty,
};
pub use sbpl_terrain::{
    ArcEnd, ChangeFault, Changes, Graph, Guide, Heuristic, Map, Moves, OffMap, Terrain, Write,
    apply, are_on_map, changes_message, read_changes, read_moves, texts_are_changes_or_faulty,
    texts_are_moves_or_faulty, write_batch, writes_lead_to_the_next_map,
};
pub use state_gaps::StateGaps;
