//! Which cells are obstacles for the robot, one bit each.

ghost use Rattle.std.specs.Prelude.{◌≡◌, IfOk, length};
ghost use Rattle.sbpl_terrain.specs.sbpl_map.CellMap.{CellMap, costs_with, index_in};
ghost use Rattle.sbpl_cost.specs.Walls.{AreWalls};

use sbpl_sweep::{Bits, Env, NoMemory};
use sbpl_terrain::Map;
use std::alloc::Global;

/// The cells whose costs are a limit or more.
pub(crate) fn walls_of(alloc: Global, costs: &[u8], limit: u8) -> Result<Bits, NoMemory>
    ensures walls { IfOk result (AreWalls limit costs.now) }
{
    let mut walls = Bits::new(alloc, costs.len())?;
    for i in 0..costs.len() {
        if costs[i] >= limit {
            walls.put(i, true);
        }
    }
    Ok(walls)
}

/// Notes that cell `(x, y)` of the map got this cost, where it is on the map.
pub(crate) fn note_wall(walls: &mut Bits, map: &Map, env: &Env, x: i64, y: i64, cost: u8)
    requires len { walls.old.len ≡ length map.now.costs }
    ensures kept { (before : CellMap) → before.width ≡ map.now.width → before.height ≡ map.now.height
        → map.now.costs ≡ costs_with before (index_in before x y) cost
        → AreWalls env.now.obsthresh before.costs walls.old → AreWalls env.now.obsthresh map.now.costs walls.new }
{
    if let Some(index) = map.index_of(x, y) {
        walls.put(index, cost >= env.obsthresh);
    }
}
