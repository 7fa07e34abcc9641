//! What the cells of a batch cost before it is written.

ghost use Rattle.std.specs.Prelude.{◌≡◌, ◌↔◌, pos, IsSome, OnOk, IfOk};
ghost use Rattle.sbpl_map.specs.CellMap.{cost_at, IsOnMap};
ghost use Rattle.sbpl_terrain.specs.Noted.{AreOnMap, AreCosts, IsNoted, KeepsNotes, AreNoted};

use crate::Terrain;
use sbpl_map::{NoMemory, Write};
use std::alloc::Global;
use std::collections::BTreeMap;

/// Costs of cells, by their columns and rows.
pub(crate) type Costs = BTreeMap<(u32, u32), u8>;

/// The present cost of cell `(x, y)`, or `None` exactly off the map.
pub(crate) fn present_cost<W: Terrain>(world: &W, x: u32, y: u32) -> Option<u8>
    ensures value { result ≡ cost_at (W.cells.map world.now) (pos x) (pos y) }
    ensures on_map { IsSome result ↔ IsOnMap (W.cells.map world.now) (pos x) (pos y) }
{
    world.map().cost(i64::from(x), i64::from(y))
}

/// Notes what the cell of a write costs at present.
fn note<W: Terrain>(world: &W, write: &Write, costs: &mut Costs) -> Result<(), NoMemory>
    requires on_map { IsOnMap (W.cells.map world.now) (pos write.now.x) (pos write.now.y) }
    requires sound { AreCosts (W.cells.map world.now) costs.old }
    ensures sound { OnOk result (AreCosts (W.cells.map world.now) costs.new) }
    ensures noted { OnOk result (IsNoted costs.new write.now.x write.now.y) }
    ensures kept { OnOk result (KeepsNotes costs.old costs.new) }
{
    if let Some(cost) = present_cost(world, write.x, write.y) {
        costs.insert((write.x, write.y), cost)?;
    }
    Ok(())
}

/// What each cell that a batch writes to costs at present, each cell once.
pub(crate) fn present_costs<W: Terrain>(
    alloc: Global,
    world: &W,
    batch: &[Write],
) -> Result<Costs, NoMemory>
    requires on_map { AreOnMap (W.cells.map world.now) batch.now }
    ensures noted { IfOk result (λ costs. AreNoted (W.cells.map world.now) batch.now costs) }
{
    let mut costs = BTreeMap::new(alloc);
    for write in batch {
        note(world, write, &mut costs)?;
    }
    Ok(costs)
}
