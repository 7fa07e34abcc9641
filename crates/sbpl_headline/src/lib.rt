//! The headline of `plan` and `nav` in definitions of its own, which stand on little else, and the law that what a run
//! promises shows it.
#![tactic(auto)]

mod laws;

pub use laws::promises_show_the_headline;
