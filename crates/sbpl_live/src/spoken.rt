//! What a line of a session says.

use sbpl_map::{Place, Write};

/// The settings that count for one plan alone, where they are given. Inflations and bounds are in thousandths.
#[derive(Clone, Copy, Debug, PartialEq, Eq)]
pub struct Wants {
    /// The inflation of the first pass, 1000 to 100000.
    pub first: Option<u32>,
    /// By how much the inflation falls from pass to pass, 1 to 99000.
    pub step: Option<u32>,
    /// The bound that is good enough, 1000 to 100000.
    pub bound: Option<u32>,
    /// How many states the plan may expand, 1 to 2^30.
    pub budget: Option<u64>,
    /// How long the plan may take, in nanoseconds, 10^6 to 10^15.
    pub seconds: Option<u64>,
}

/// What a line of a session says.
#[derive(Clone, Copy, Debug, PartialEq, Eq)]
pub enum Spoken {
    /// Nothing: the line has no fields, or is a note.
    Nothing,
    /// A cell has this cost from now on.
    Cell(Write),
    /// The robot is here.
    Start(Place),
    /// The robot is to go there.
    Goal(Place),
    /// Plan now, with these settings.
    Plan(Wants),
}
