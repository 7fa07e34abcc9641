//! Parts of a primitive that were read.

use sbpl_cfg::Pose;

/// A pose, with the offsets of its x and of its angle in the text.
#[derive(Clone, Copy)]
pub(crate) struct PlacedPose {
    pub(crate) pose: Pose,
    pub(crate) x_place: usize,
    pub(crate) theta_place: usize,
}

/// An id and a start heading, with the offset of the id.
#[derive(Clone, Copy)]
pub(crate) struct Start {
    pub(crate) id: u32,
    pub(crate) from: u32,
    pub(crate) place: usize,
}

/// An end cell, counted from the source cell, and an end heading.
#[derive(Clone, Copy)]
pub(crate) struct End {
    pub(crate) dx: i32,
    pub(crate) dy: i32,
    pub(crate) to: u32,
}
