//! The labels of one state.

/// The labels of one state: what the best known way from the start costs, what it cost when the
/// state was last expanded, and the last arc of that way, as its source and its number there.
#[derive(Clone, Copy)]
pub struct Row {
    pub g: u64,
    pub v: u64,
    pub back: Option<(u32, u32)>,
}
