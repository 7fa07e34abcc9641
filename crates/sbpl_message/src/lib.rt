//! What is said of the program's words: help and the version, and what is wrong with words that name no job.
#![tactic(auto)]

mod help;
mod tip;
mod unfit;
mod value;
mod wrong;

pub use help::told;
pub use wrong::words_message;
