//! Motion primitive files.
#![tactic(auto)]

mod earlier;
mod fault;
mod judging;
mod message;
mod parts;
mod prim;
mod prims;
mod printing;
mod read;
mod reading;
mod text;

pub use fault::PrimFault;
pub use judging::primitives_are_judged_in_plain_words;
pub use message::primitives_message;
pub use prim::{Poses, Prim, Primitive};
pub use prims::Prims;
pub use printing::print_prims;
pub use read::read_prims;
pub use sbpl_cfg::{
    Bits, Env, EnvFault, Grid, ListOf, Message, Piece, Place, Pose, Runs, Word, cell_at,
    environment_message, heading_at, metres, on_map_text, place_at, plain_message, print_env,
    push_all, push_line, push_lines, read_env, texts_are_environments_or_faulty,
};
pub use sbpl_fixed::{NoMemory, ceil_div, ceil_root};
pub use text::texts_are_primitives_or_faulty;
