//! An arc that was handed out.

/// An arc that was handed out to be judged: the number of its ticket, the state that it leaves, and its number there.
#[derive(Clone, Copy, Debug, PartialEq, Eq)]
pub struct Leg {
    pub ticket: u64,
    pub state: u32,
    pub arc: u32,
}
