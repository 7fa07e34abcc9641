//! The outside of the program: files that are read, outputs that are written, and lines that are heard.
#![tactic(auto)]

mod desk;
mod line;
mod memory;
mod real;

pub use desk::{Desk, MOST_OF_LINE, ReadStop, Trouble, WriteStop};
pub use memory::MemoryDesk;
pub use real::RealDesk;
