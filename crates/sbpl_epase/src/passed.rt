//! What a pass leaves.

use sbpl_adstar::PassEnd;
use sbpl_frontier::{Journal, Parts};

/// What a pass leaves where memory sufficed: the labels, the budget and the memory of a pass; its events; and how it ended.
#[derive(Drop)]
pub struct Passed {
    pub parts: Parts,
    pub journal: Journal,
    pub end: PassEnd,
}
