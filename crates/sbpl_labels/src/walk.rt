//! What a walk along back arcs finds.

/// What a walk along the back arcs finds, from the goal to the start.
#[derive(Clone, Copy, Debug, PartialEq, Eq)]
pub enum Walk {
    /// A free path, and the sum of its costs.
    Path(u64),
    /// The first state on the chain of back arcs that is underconsistent.
    Broken(u32),
    /// No way to the goal is known.
    None,
}
