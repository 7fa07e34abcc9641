//! The numbers of an environment file of a grid.

use std::marker::Model;

/// The numbers of an environment file of a grid. Its type keeps the ranges of the format, that `width * height` is at
/// most 2^28, and that start and end are states. State `y * width + x` is the cell in column `x` and row `y`.
#[derive(Clone, Copy, PartialEq, Eq)]
pub struct NavEnv {
    /// Cells along x, 1..268435456.
    pub width: u32,
    /// Cells along y, 1..268435456.
    pub height: u32,
    /// A cell of this cost or more is an obstacle.
    pub obsthresh: u8,
    /// The state to start from.
    pub start: u32,
    /// The state to reach.
    pub end: u32,
}

impl Model for NavEnv {
    ghost use Rattle.sbpl_nav2d.specs.Environment.{NavEnvironment, IsNavEnvironment};

    ghost Value = { NavEnvironment };

    ghost view = { λ e. record {
      width = e.width;
      height = e.height;
      obsthresh = e.obsthresh;
      start = e.start;
      end = e.end;
    } };

    ghost invariant = { λ e. IsNavEnvironment (record {
      width = e.width;
      height = e.height;
      obsthresh = e.obsthresh;
      start = e.start;
      end = e.end;
    }) };

    ghost inverse = { λ e. record {
      width = e.width;
      height = e.height;
      obsthresh = e.obsthresh;
      start = e.start;
      end = e.end;
    } };
}
