//! The parts of an environment file, as they are read.

/// The map's size: cells along x and along y.
#[derive(Clone, Copy)]
pub(crate) struct Size {
    pub(crate) width: u32,
    pub(crate) height: u32,
}

/// A cell, by its column and its row from 0. It may lie off the map.
#[derive(Clone, Copy)]
pub(crate) struct GridCell {
    pub(crate) x: u32,
    pub(crate) y: u32,
}
