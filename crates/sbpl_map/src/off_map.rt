//! The one refusal of a map.

use thiserror::Error;

/// The cell is not on the map.
#[derive(Clone, Copy, Debug, PartialEq, Eq, Error)]
#[error("off the map")]
pub struct OffMap;
