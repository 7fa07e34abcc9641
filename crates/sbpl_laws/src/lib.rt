//! Laws of what the program promises: that files have one reading, that plans are determined, and that each way in which a run
//! ends keeps every promise.
#![tactic(auto)]

mod laws;

pub use laws::{records_are_determined, runs_keep_promises, texts_are_clear, writes_have_texts};
