//! The greatest cost that a step pays, where it is free.

ghost use Rattle.std.specs.Prelude.{◌≡◌, ◌<◌};
ghost use Rattle.sbpl_nav2d.specs.Directions.{IsNear};
ghost use Rattle.sbpl_nav2d.specs.Grids.{low_cost, greater, greatest_read};

use crate::cell::{Cell, direction, is_diagonal, moved};
use sbpl_terrain::Map;

/// The cost of a cell, where it is on the map and below a limit.
fn low_cost(map: &Map, cell: Cell, limit: u8) -> Option<u8>
    requires near { IsNear 2 cell }
    ensures value { result ≡ low_cost limit map.now cell }
{
    let cost = map.cost(cell.x, cell.y)?;
    if cost < limit { Some(cost) } else { None }
}

/// The greater cost of two cells, where both are on the map and below a limit.
fn greater_cost(map: &Map, a: Cell, b: Cell, limit: u8) -> Option<u8>
    requires first { IsNear 2 a }
    requires second { IsNear 2 b }
    ensures value { result ≡ greater (low_cost limit map.now a) (low_cost limit map.now b) }
{
    let first = low_cost(map, a, limit)?;
    let second = low_cost(map, b, limit)?;
    Some(first.max(second))
}

/// The greatest cost of the cells that the step from a cell in direction `k` reads, where they are all on the map and
/// below a limit: the cell, the one that the step ends at, and on a diagonal the two cells beside both.
#[tactic(auto, unfolding(crate::specs::Grids::greatest_read))]
pub(crate) fn greatest_read(map: &Map, from: Cell, k: u32, limit: u8) -> Option<u8>
    requires number { k < 8 }
    requires from { IsNear 0 from }
    ensures value { result ≡ greatest_read limit map.now from k }
{
    let to = moved(from, direction(k));
    let ends = greater_cost(map, from, to, limit)?;
    if !is_diagonal(k) {
        return Some(ends);
    }
    let sides = greater_cost(
        map,
        Cell { x: to.x, y: from.y },
        Cell { x: from.x, y: to.y },
        limit,
    )?;
    Some(ends.max(sides))
}
