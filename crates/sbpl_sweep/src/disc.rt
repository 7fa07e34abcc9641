//! Discs among cells.

use crate::reach::Axis;

/// A disc around a pose: where its centre lies among cells, the side of a cell, and the radius, in half nanometres.
#[derive(Clone, Copy)]
pub(crate) struct Disc {
    pub(crate) column: Axis,
    pub(crate) row: Axis,
    pub(crate) side: u64,
    pub(crate) radius: u64,
}
