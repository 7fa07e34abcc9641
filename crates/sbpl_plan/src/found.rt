//! What a pass found.

/// What the walk along the back arcs gave after a pass.
#[derive(Clone, Copy, Debug, PartialEq, Eq)]
pub enum Found {
    /// A path of this cost, with its bound in thousandths.
    Path { cost: u64, bound: u128 },
    /// The goal was not reached.
    None,
    /// The chain of back arcs has an underconsistent state.
    Broken,
}
