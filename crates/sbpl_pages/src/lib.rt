//! A list that takes memory only where it was written.
#![tactic(auto)]

mod paged;

pub use paged::Paged;
pub use sbpl_fixed::{NoMemory, ceil_root};
