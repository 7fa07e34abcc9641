//! Cells of the plane, and the eight directions.

ghost use Rattle.std.specs.Prelude.{◌≡◌, ◌<◌};
ghost use Rattle.sbpl_nav2d.specs.Directions.{direction, is_diagonal, step_cost, moved, moved_back, IsNear, IsStep};

/// A cell of the plane, by its column and its row, or how far a cell lies from another. It may lie off the map.
#[derive(Clone, Copy)]
pub(crate) struct Cell {
    pub(crate) x: i64,
    pub(crate) y: i64,
}

/// The step in direction `k`.
pub(crate) fn direction(k: u32) -> Cell
    requires number { k < 8 }
    ensures value { result ≡ direction k }
    ensures step { IsStep result }
{
    match k {
        0 => Cell { x: 1, y: 0 },
        1 => Cell { x: 1, y: 1 },
        2 => Cell { x: 0, y: 1 },
        3 => Cell { x: -1, y: 1 },
        4 => Cell { x: -1, y: 0 },
        5 => Cell { x: -1, y: -1 },
        6 => Cell { x: 0, y: -1 },
        _ => Cell { x: 1, y: -1 },
    }
}

/// Whether direction `k` is a diagonal.
pub(crate) fn is_diagonal(k: u32) -> bool
    ensures value { result ≡ is_diagonal k }
{
    k % 2 == 1
}

/// What a step in direction `k` costs over cells of cost 0, in thousandths.
pub(crate) fn step_cost(k: u32) -> u32
    ensures value { result ≡ step_cost k }
{
    if is_diagonal(k) { 1414 } else { 1000 }
}

/// The cell that lies a step away from another.
pub(crate) fn moved(from: Cell, step: Cell) -> Cell
    requires from { IsNear 1 from }
    requires step { IsStep step }
    ensures cell { result ≡ moved from step }
    ensures near { IsNear 2 result }
{
    Cell {
        x: from.x + step.x,
        y: from.y + step.y,
    }
}

/// The cell from which another lies a step away.
pub(crate) fn moved_back(to: Cell, step: Cell) -> Cell
    requires to { IsNear 0 to }
    requires step { IsStep step }
    ensures cell { result ≡ moved_back to step }
    ensures near { IsNear 1 result }
{
    Cell {
        x: to.x - step.x,
        y: to.y - step.y,
    }
}
