//! The cells that motions touch: the centre cells of a primitive's poses, and the cells that a disc around them sweeps.
#![tactic(auto)]

mod band;
mod cell;
mod centres;
mod disc;
mod fault;
mod gathering;
mod laws;
mod reach;
mod reads;
mod rows;
mod stop;
mod sweeping;
mod sweeps;
mod tables;

pub use cell::Cell;
pub use fault::SweepFault;
pub use laws::{ends_are_centres, few_poses_are_narrow, point_sweeps_centres};
pub use reads::Read;
pub use sbpl_mprim::{
    Bits, Env, EnvFault, Grid, ListOf, Message, NoMemory, Piece, Place, Pose, Prim, PrimFault,
    Prims, Runs, Word, ceil_div, ceil_root, cell_at, environment_message, heading_at, metres,
    on_map_text, place_at, plain_message, primitives_message, print_env, print_prims, push_all,
    push_line, push_lines, read_env, read_prims, texts_are_environments_or_faulty,
    texts_are_primitives_or_faulty,
};
pub use sweeps::Sweeps;
