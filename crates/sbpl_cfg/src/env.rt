//! The numbers of an environment file, and its costs.

use crate::pose::Pose;
use sbpl_lists::ListOf;
use std::marker::Model;

/// The costs of the cells, row by row from `y = 0`, with `x` along a row. Each cost is in 0..255.
pub type Grid = ListOf<u8>;

/// The number of headings of a file that doesn't say one.
pub(crate) const USUAL_HEADINGS: u32 = 16;

/// The word before the number of headings.
pub(crate) const HEADINGS_WORD: &[u8] = b"NumThetaDirs:";

/// The numbers of an environment file. Lengths are nanometres, times nanoseconds, speeds nanometres per second,
/// angles nanoradians. Its type keeps the ranges of the format, that `width * height * headings` is at most 2^28,
/// and that the cells of both poses are on the map.
#[derive(Clone, Copy, Debug, PartialEq, Eq)]
pub struct Env {
    /// Cells along x, 1..268435456.
    pub width: u32,
    /// Cells along y, 1..268435456.
    pub height: u32,
    /// A cell of this cost or more is an obstacle.
    pub obsthresh: u8,
    /// The robot's centre may not enter a cell of this cost or more.
    pub inscribed: u8,
    /// SBPL's circumscribed threshold, -1..255. It is read and kept and has no effect.
    pub circumscribed: i16,
    /// The side of a cell, 1..10^12 nanometres.
    pub cell: i64,
    /// The nominal speed, 1..10^12 nanometres per second.
    pub speed: i64,
    /// The time to turn by 45 degrees in place, 1..10^12 nanoseconds.
    pub turn45: i64,
    /// The pose to start from.
    pub start: Pose,
    /// The pose to reach.
    pub end: Pose,
    /// The number of headings, 4..64.
    pub headings: u32,
}

impl Model for Env {
    ghost use Rattle.sbpl_cfg.specs.Environment.{Environment, IsEnvironment};

    ghost Value = { Environment };

    ghost view = { λ e. record {
      width = e.width;
      height = e.height;
      obsthresh = e.obsthresh;
      inscribed = e.inscribed;
      circumscribed = e.circumscribed;
      cell = e.cell;
      speed = e.speed;
      turn45 = e.turn45;
      start = e.start;
      end = e.end;
      headings = e.headings;
    } };

    ghost invariant = { λ e. IsEnvironment (record {
      width = e.width;
      height = e.height;
      obsthresh = e.obsthresh;
      inscribed = e.inscribed;
      circumscribed = e.circumscribed;
      cell = e.cell;
      speed = e.speed;
      turn45 = e.turn45;
      start = e.start;
      end = e.end;
      headings = e.headings;
    }) };

    ghost inverse = { λ e. record {
      width = e.width;
      height = e.height;
      obsthresh = e.obsthresh;
      inscribed = e.inscribed;
      circumscribed = e.circumscribed;
      cell = e.cell;
      speed = e.speed;
      turn45 = e.turn45;
      start = e.start;
      end = e.end;
      headings = e.headings;
    } };
}
