//! The program from its start: its words, its desks, and a terminal that shows the newest path.
#![tactic(auto)]

mod program;
mod progress;

pub use program::{start, start_at};
