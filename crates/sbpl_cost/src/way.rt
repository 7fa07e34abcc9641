//! The ways in which a motion can get nearer to a goal.

/// A way to go: along an axis of the map, or round to another heading.
#[derive(Clone, Copy)]
pub(crate) enum Way {
    Right,
    Left,
    Up,
    Down,
    Round,
}
