//! What a core does next.

/// What a core does next where no arc is ready: it opens a state, or answers.
pub(crate) enum Choice {
    Opens(u32),
    NotYet,
    Over,
    Spent,
}
