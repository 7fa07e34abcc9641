//! One write to a map.

/// Cell `(x, y)` gets cost `cost`.
#[derive(Clone, Copy, Debug, PartialEq, Eq)]
pub struct Write {
    /// The cell's column, from 0.
    pub x: u32,
    /// The cell's row, from 0.
    pub y: u32,
    /// The cost that the cell gets, 0..255.
    pub cost: u8,
}
