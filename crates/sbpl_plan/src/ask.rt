//! What a plan is asked for.

/// What a plan is asked for. Inflations and bounds are in thousandths.
#[derive(Clone, Copy, Debug, PartialEq, Eq)]
pub struct Ask {
    /// The inflation of the first pass, 1000 to 100000.
    pub first: u32,
    /// By how much the inflation falls from pass to pass, 1 to 99000. It never falls below 1000.
    pub step: u32,
    /// The bound that is good enough, at least 1000.
    pub bound: u32,
    /// Whether the expansions are to be told.
    pub traced: bool,
}
