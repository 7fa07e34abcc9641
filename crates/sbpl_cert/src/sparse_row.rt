//! The row of a state in a sparse section.

/// The labels of a state in a sparse section. A label is 2^63, which stands for infinity, or below 2^62.
#[derive(Clone, Copy, Debug, PartialEq, Eq)]
pub struct SparseRow {
    /// The state.
    pub state: u32,
    /// What the best known way to the state costs.
    pub g: u64,
    /// What that way cost when the state was last expanded.
    pub v: u64,
}
