//! The cost and bound of the newest path, which other threads of a robot read while the planner works. Each path that is found is
//! published as one entry on a board. What a reader gets was published, whole, and is as new as all that it got or was told of
//! before. No clause says when a reader sees a new entry.
#![tactic(auto)]

mod board;
mod entry;
mod known;
mod laws;
mod note;
mod publisher;
mod reader;
mod rule;
mod slip;
mod steps;

pub use board::Board;
pub use entry::Entry;
pub use laws::{readers_get_what_was_published, told_readers_get_the_newest};
pub use note::Note;
pub use publisher::Publisher;
pub use reader::Reader;
