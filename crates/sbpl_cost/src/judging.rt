//! Whether a motion is free on a map, and the greatest cost that it pays.

ghost use Rattle.std.specs.Prelude.{◌≡◌, ℕ, pos, negsuc, ◌^◌, ◌<◌, ◌+ℤ◌, ◌≤ℤ◌, ◌⊎◌, slice_get};
ghost use Rattle.std.specs.Prelude.{Some, IsTrue, false, IfSome, IfNone};
ghost use Rattle.sbpl_sweep.specs.sbpl_cfg.Environment.{IsWithin};
ghost use Rattle.sbpl_terrain.specs.sbpl_map.CellMap.{IsOnMap, cost_at};
ghost use Rattle.sbpl_sweep.specs.declared.cell.Cell.{Cell};
ghost use Rattle.sbpl_cost.specs.Strips.{cells_in, strip_cells};
ghost use Rattle.sbpl_cost.specs.Reaches.{AreOnMap, IsReach, LieWithin};
ghost use Rattle.sbpl_cost.specs.Walls.{AreWalls};
ghost use Rattle.sbpl_cost.specs.Judging.{IsNear, IsCellBelow, IsGreatestBelow, IsSomeBlocked, AreBelow, IsGreatestPassed};
ghost use Rattle.sbpl_cost.specs.Judging.{IsObstructed};

use crate::reach::Reach;
use crate::strip::Strip;
use sbpl_sweep::{Bits, Cell, Env, Place};
use sbpl_terrain::Map;

/// The cost of cell `(x, y)`, where it is on the map and costs less than a limit.
fn cost_below(map: &Map, x: i64, y: i64, limit: u8) -> Option<u8>
    ensures cost { IfSome result (λ c. cost_at map.now x y ≡ Some c) }
    ensures below { IfSome result (λ c. c < limit) }
    ensures blocked { IfNone result (IsCellBelow map.now x y limit → ⊥) }
{
    let cost = map.cost(x, y)?;
    if cost < limit { Some(cost) } else { None }
}

/// The cost of the cell that lies this far from cell `(x, y)`, where it is on the map and costs less than a limit.
fn cost_near(map: &Map, cell: Cell, x: u32, y: u32, limit: u8) -> Option<u8>
    requires cell { IsNear cell }
    ensures cost { IfSome result (λ c. cost_at map.now (pos x +ℤ cell.x) (pos y +ℤ cell.y) ≡ Some c) }
    ensures below { IfSome result (λ c. c < limit) }
    ensures blocked { IfNone result (IsCellBelow map.now (pos x +ℤ cell.x) (pos y +ℤ cell.y) limit → ⊥) }
{
    cost_below(map, i64::from(x) + cell.x, i64::from(y) + cell.y, limit)
}

/// The greatest of a number and the costs of the cells that lie this far from cell `(x, y)`, where they are all on the map
/// and cost less than a limit.
fn greatest_below(map: &Map, cells: &[Cell], x: u32, y: u32, limit: u8, least: u8) -> Option<u8>
    requires cells { (i : ℕ) (c : Cell) → slice_get cells.now i ≡ Some c → IsNear c }
    ensures greatest { IfSome result (IsGreatestBelow map.now cells.now (pos x) (pos y) limit least) }
    ensures blocked { IfNone result (IsSomeBlocked map.now cells.now (pos x) (pos y) limit) }
{
    let mut greatest = least;
    for cell in cells {
        let Some(cost) = cost_near(map, *cell, x, y, limit) else {
            return None;
        };
        greatest = greatest.max(cost);
    }
    Some(greatest)
}

/// The number of the row or column that lies this far from another, where it fits.
fn shifted(number: u32, by: i64) -> Option<u32>
    requires near { IsWithin (negsuc 10000000000000) (pos 10000000000000) by }
    ensures there { IfSome result (λ n. pos number +ℤ by ≡ pos n) }
    ensures off { IfNone result (((pos number +ℤ by) ≤ℤ negsuc 0) ⊎ (pos (2 ^ 32) ≤ℤ (pos number +ℤ by))) }
{
    u32::try_from(i64::from(number) + by).ok()
}

/// Whether the cells of a strip that lie this far from cell `(x, y)` are all on the map and no walls.
fn is_clear(walls: &Bits, map: &Map, strip: Strip, x: u32, y: u32, limit: u8) -> bool
    requires walls { AreWalls limit map.now.costs walls.now }
    requires some { 0 < strip.len }
    requires from { IsWithin (negsuc 10000000000000) (pos 10000000000000) strip.from }
    requires y { IsWithin (negsuc 10000000000000) (pos 10000000000000) strip.y }
    ensures below { IsTrue result → AreBelow map.now (strip_cells strip) (pos x) (pos y) limit }
    ensures blocked { result ≡ false → IsSomeBlocked map.now (strip_cells strip) (pos x) (pos y) limit }
{
    let (width, height) = (map.width() as usize, map.height() as usize);
    let Some(row) = shifted(y, strip.y) else {
        return false;
    };
    let Some(from) = shifted(x, strip.from) else {
        return false;
    };
    let (row, from, len) = (row as usize, from as usize, strip.len as usize);
    if row >= height || from + len > width {
        return false;
    }
    let at = row * width + from;
    walls.none_between(at, at + len)
}

/// Whether the cells of strips that lie this far from cell `(x, y)` are all on the map and no walls.
fn are_on_map_and_clear(
    walls: &Bits,
    map: &Map,
    strips: &[Strip],
    x: u32,
    y: u32,
    limit: u8,
) -> bool
    requires walls { AreWalls limit map.now.costs walls.now }
    requires cells { (i : ℕ) (c : Cell) → slice_get (cells_in strips.now) i ≡ Some c → IsNear c }
    ensures below { IsTrue result → AreBelow map.now (cells_in strips.now) (pos x) (pos y) limit }
    ensures blocked { result ≡ false → IsSomeBlocked map.now (cells_in strips.now) (pos x) (pos y) limit }
{
    for strip in strips {
        if strip.len > 0 && !is_clear(walls, map, *strip, x, y, limit) {
            return false;
        }
    }
    true
}

/// The number of the row or column that lies this far from another, where there is one.
#[inline]
fn moved(number: u32, by: i64) -> usize
    requires near { IsWithin (negsuc 10000000000000) (pos 10000000000000) by }
    requires there { pos 0 ≤ℤ (pos number +ℤ by) }
    ensures there { pos number +ℤ by ≡ pos result }
{
    (i64::from(number) + by) as usize
}

/// Whether the cells of a strip that lie this far from cell `(x, y)` are no walls, where they are all on the map.
#[inline]
fn is_clear_inside(walls: &Bits, map: &Map, strip: Strip, x: u32, y: u32, limit: u8) -> bool
    requires walls { AreWalls limit map.now.costs walls.now }
    requires some { 0 < strip.len }
    requires near { IsNear (record { y = strip.y; x = strip.from }) }
    requires first { IsOnMap map.now (pos x +ℤ strip.from) (pos y +ℤ strip.y) }
    requires last { ((pos x +ℤ strip.from) +ℤ pos strip.len) ≤ℤ pos map.now.width }
    ensures below { IsTrue result → AreBelow map.now (strip_cells strip) (pos x) (pos y) limit }
    ensures blocked { result ≡ false → IsSomeBlocked map.now (strip_cells strip) (pos x) (pos y) limit }
{
    let at = moved(y, strip.y) * map.width() as usize + moved(x, strip.from);
    walls.none_between(at, at + strip.len as usize)
}

/// Whether the cells of strips that lie this far from cell `(x, y)` are no walls, where they are all on the map.
fn are_clear_inside(walls: &Bits, map: &Map, strips: &[Strip], x: u32, y: u32, limit: u8) -> bool
    requires walls { AreWalls limit map.now.costs walls.now }
    requires cells { (i : ℕ) (c : Cell) → slice_get (cells_in strips.now) i ≡ Some c → IsNear c }
    requires inside { AreOnMap map.now (cells_in strips.now) x y }
    ensures below { IsTrue result → AreBelow map.now (cells_in strips.now) (pos x) (pos y) limit }
    ensures blocked { result ≡ false → IsSomeBlocked map.now (cells_in strips.now) (pos x) (pos y) limit }
{
    for strip in strips {
        if strip.len > 0 && !is_clear_inside(walls, map, *strip, x, y, limit) {
            return false;
        }
    }
    true
}

/// Whether the cells of strips that lie this far from cell `(x, y)` are all on the map and no walls. They lie within a reach: where
/// that is on the map as a whole, no strip is tested for the map's edge.
fn are_clear(
    walls: &Bits,
    map: &Map,
    strips: &[Strip],
    reach: &Reach,
    x: u32,
    y: u32,
    limit: u8,
) -> bool
    requires walls { AreWalls limit map.now.costs walls.now }
    requires cells { (i : ℕ) (c : Cell) → slice_get (cells_in strips.now) i ≡ Some c → IsNear c }
    requires reach { IsReach reach.now }
    requires within { LieWithin reach.now (cells_in strips.now) }
    ensures below { IsTrue result → AreBelow map.now (cells_in strips.now) (pos x) (pos y) limit }
    ensures blocked { result ≡ false → IsSomeBlocked map.now (cells_in strips.now) (pos x) (pos y) limit }
{
    if reach.is_inside(map, x, y) {
        are_clear_inside(walls, map, strips, x, y, limit)
    } else {
        are_on_map_and_clear(walls, map, strips, x, y, limit)
    }
}

/// The source cell of a motion.
const HERE: Cell = Cell { y: 0, x: 0 };

/// The greatest cost of the source cell of a motion and the cells along it, where the source cell and the cells around
/// the motion are low enough for the robot, and those along it for the robot and its centre. The cells around the motion
/// lie within a reach.
pub(crate) fn greatest_paid(
    env: &Env,
    map: &Map,
    source: Place,
    walls: &Bits,
    along: &[Cell],
    around: &[Strip],
    reach: &Reach,
) -> Option<u8>
    requires walls { AreWalls env.now.obsthresh map.now.costs walls.now }
    requires along { (i : ℕ) (c : Cell) → slice_get along.now i ≡ Some c → IsNear c }
    requires around { (i : ℕ) (c : Cell) → slice_get (cells_in around.now) i ≡ Some c → IsNear c }
    requires reach { IsReach reach.now }
    requires within { LieWithin reach.now (cells_in around.now) }
    ensures greatest { IfSome result (IsGreatestPassed env.now map.now source along.now (cells_in around.now)) }
    ensures blocked { IfNone result (IsObstructed env.now map.now source along.now (cells_in around.now)) }
{
    let limit = env.obsthresh.min(env.inscribed);
    let Some(start) = cost_near(map, HERE, source.x, source.y, env.obsthresh) else {
        return None;
    };
    let Some(greatest) = greatest_below(map, along, source.x, source.y, limit, start) else {
        return None;
    };
    if are_clear(walls, map, around, reach, source.x, source.y, env.obsthresh) {
        Some(greatest)
    } else {
        None
    }
}
