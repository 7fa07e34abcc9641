//! One expansion.

/// The expansion of one state. An overconsistent state is lowered: its way has become cheaper. An
/// underconsistent one is raised: its way has become dearer.
#[derive(Clone, Copy, Debug, PartialEq, Eq)]
pub struct Step {
    pub state: u32,
    pub raised: bool,
}
