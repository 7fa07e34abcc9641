//! How a pass of a search ends.

/// How a pass of a search ends.
#[derive(Clone, Copy, Debug, PartialEq, Eq)]
pub enum PassEnd {
    /// No open state is left whose key is below the goal's.
    Rest,
    /// The budget was spent while such a state was left.
    Spent,
}
