//! Where map updates say that the robot is.

ghost use Rattle.std.specs.Prelude.{◌≡◌, ◌<◌, length, IfSome};
ghost use Rattle.sbpl_worlds.specs.Moves.{move_at};

use sbpl_promises::{Place, Updates};

/// Where the robot is said to be from batch `k` on, if that is said.
pub fn place_in(updates: &Updates, k: u32) -> Option<Place>
    requires number { k < length updates.now.batches }
    requires moves { IfSome updates.now.moves (λ moves. length moves ≡ length updates.now.batches) }
    ensures place { result ≡ move_at updates.now.moves k }
{
    match &updates.moves {
        Some(moves) => moves.at(k),
        None => None,
    }
}
