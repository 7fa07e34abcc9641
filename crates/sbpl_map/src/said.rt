//! What a line of a change file says.

use crate::write::Write;
use sbpl_cfg::Place;

/// What a line says: nothing, where it has no fields; a write; where the robot is; or that the batch ends.
#[derive(Clone, Copy)]
pub(crate) enum Said {
    Nothing,
    Cell(Write),
    Start(Place),
    Replan,
}
