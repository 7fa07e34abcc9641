//! What is told: texts that are written under names, of a plan its sections or a line, why it has no path, and how a run ended.
#![tactic(auto)]

mod blocked;
mod ending;
mod plan_section;
mod sections;
mod telling;
mod writing;

pub use ending::{Ending, end_with};
pub use plan_section::section_of;
pub use sbpl_promises::Status;
pub use telling::{InFull, Lines, Telling};
pub use writing::{OUTPUT, status_after, write_last, write_text};
