//! The parts of an environment file, as they are read.

use crate::pose::Pose;

/// The map's size: cells along x and along y.
#[derive(Clone, Copy)]
pub(crate) struct Extent {
    pub(crate) width: u32,
    pub(crate) height: u32,
}

/// The lattice's size: cells along x and along y, and headings.
#[derive(Clone, Copy)]
pub(crate) struct Size {
    pub(crate) width: u32,
    pub(crate) height: u32,
    pub(crate) headings: u32,
}

/// What costs mean.
#[derive(Clone, Copy)]
pub(crate) struct Thresholds {
    pub(crate) obsthresh: u8,
    pub(crate) inscribed: u8,
    pub(crate) circumscribed: i16,
}

/// The side of a cell in nanometres, the speed in nanometres per second and the time to turn by 45 degrees in nanoseconds.
#[derive(Clone, Copy)]
pub(crate) struct Rates {
    pub(crate) cell: i64,
    pub(crate) speed: i64,
    pub(crate) turn45: i64,
}

/// All but the poses and the costs.
#[derive(Clone, Copy)]
pub(crate) struct Header {
    pub(crate) size: Size,
    pub(crate) thresholds: Thresholds,
    pub(crate) rates: Rates,
}

/// The start and the end.
#[derive(Clone, Copy)]
pub(crate) struct Ends {
    pub(crate) start: Pose,
    pub(crate) end: Pose,
}
