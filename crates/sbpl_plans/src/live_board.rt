//! A board and its publisher, while a run goes on.

ghost use Rattle.std.specs.Prelude.{◌≡◌, ◌≤◌, ◌<◌, ◌^◌, length};

use sbpl_worlds::{Board, Meter, Publisher};

/// A board and its publisher, and the runtime by which their calls wait for other threads. Each path of which it is told is
/// published at once, as a path of the present plan. Its meter shows the expansions.
#[derive(Drop)]
pub struct LiveBoard<'a, R> {
    pub(crate) rt: &'a R,
    pub(crate) board: &'a Board,
    pub(crate) publisher: &'a mut Publisher,
    pub(crate) meter: &'a Meter,
    pub(crate) plan: u32,
    ghost fits: { (publisher.now.board ≡ board.now) × (length publisher.now.published ≤ 2 ^ 63) },
}

impl<'a, R> LiveBoard<'a, R> {
    /// The board of this publisher, which has published fewer than 2^62 entries, and a meter for the expansions of the plans. The
    /// present plan is number 0.
    pub fn new(
        rt: &'a R,
        board: &'a Board,
        publisher: &'a mut Publisher,
        meter: &'a Meter,
    ) -> LiveBoard<'a, R>
        requires board { publisher.now.board ≡ board.now }
        requires few { length publisher.now.published < 2 ^ 62 }
        ensures publisher { result.publisher ≡ publisher.entry }
    {
        LiveBoard {
            rt,
            board,
            publisher,
            meter,
            plan: 0,
        }
    }
}
