//! Grids with eight neighbours: their environment files, and the grid as a graph.
#![tactic(auto)]

mod cell;
mod env;
mod judging;
mod laws;
mod message;
mod nav;
mod octile;
mod parts;
mod read;
mod reading;
mod text;

pub use env::NavEnv;
pub use laws::{gaps_in_plain_words, grids_have_their_tails, worlds_are_grids};
pub use message::{grid_message, on_grid_text};
pub use nav::Nav;
pub use octile::Octile;
pub use read::read_nav;
pub use sbpl_terrain::{EnvFault, Map};
pub use text::texts_are_grids_or_faulty;
