//! What a change file says: the batches of its writes, and where the robot is.

use sbpl_report::{Changes, Moves};

/// Batches of writes to the map, and where the robot is from each batch on, if the file can say that.
#[derive(Drop)]
pub struct Updates {
    /// The batches in order.
    pub batches: Changes,
    /// One place or none for each batch; `None` where the robot does not move.
    pub moves: Option<Moves>,
}
