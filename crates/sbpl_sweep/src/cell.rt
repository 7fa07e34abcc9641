//! Cells as offsets from a source cell.

/// A cell as an offset from the source cell of a motion. Cells are ordered by `y`, then by `x`.
#[derive(Clone, Copy, Debug, PartialEq, Eq, PartialOrd, Ord)]
pub struct Cell {
    pub y: i64,
    pub x: i64,
}
