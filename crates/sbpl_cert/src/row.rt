//! The row of a state.

/// The labels of a state, and what the guide says there. A label is 2^63, which stands for infinity, or below 2^62.
#[derive(Clone, Copy, Debug, PartialEq, Eq)]
pub struct Row {
    /// What the best known way to the state costs.
    pub g: u64,
    /// What that way cost when the state was last expanded.
    pub v: u64,
    /// The guide's lower bound on the cost from the state to the goal, below 2^55.
    pub h: u64,
}
