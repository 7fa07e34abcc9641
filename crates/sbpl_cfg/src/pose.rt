//! Poses in the plane, and places on the map.

/// A pose in the plane: `x` and `y` in nanometres, `theta` in nanoradians.
#[derive(Clone, Copy, Debug, PartialEq, Eq)]
pub struct Pose {
    pub x: i64,
    pub y: i64,
    pub theta: i64,
}

/// A place of the lattice: the cell `(x, y)` with heading `t`.
#[derive(Clone, Copy, Debug, PartialEq, Eq)]
pub struct Place {
    pub x: u32,
    pub y: u32,
    pub t: u32,
}
