//! What a plan answered.

/// What a plan answered.
#[derive(Clone, Copy, Debug, PartialEq, Eq)]
pub enum Outcome {
    /// A path.
    Path {
        /// The summed cost of its arcs, below 2^62.
        cost: u64,
        /// Its bound in thousandths, 1000 to 2^100 - 1.
        bound: u128,
    },
    /// There is no path.
    NoPath,
    /// The budget was spent before either was known.
    Unknown,
}
