//! Whether a plan has a limit of time, and whether it is over.

/// Whether a plan has a limit of time, and whether its clock has said that it is late.
#[derive(Clone, Copy, PartialEq, Eq)]
pub enum Time {
    /// The plan has no limit of time, and no clock is asked.
    Unlimited,
    /// It has a limit, and its clock has not said that it is late.
    InTime,
    /// Its clock has said that it is late.
    Late,
}
