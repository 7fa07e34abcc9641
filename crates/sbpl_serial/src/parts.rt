//! The parts of a search.

use crate::{Closed, Steps};
use sbpl_open::Open;
use sbpl_search::Labels;

/// The parts of a search, of which another can be made without memory.
#[derive(Drop)]
pub struct Parts {
    pub labels: Labels,
    pub goal: u32,
    pub closed: Closed,
    pub steps: Steps,
    pub queue: Open,
}
