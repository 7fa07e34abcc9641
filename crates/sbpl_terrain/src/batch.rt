//! A batch of changes is written to the map under a graph.

ghost use Rattle.std.specs.Prelude.{◌≡◌, ◌↔◌, ◌⊎◌, pos, IsTrue, OnOk, OnErr};
ghost use Rattle.std.specs.List.Sorted.{IsStrictlyIncreasing};
ghost use Rattle.sbpl_map.specs.CellMap.{IsOnMap, ChangesCell};
ghost use Rattle.sbpl_map.specs.MapAfter.{AreWritten};
ghost use Rattle.sbpl_terrain.specs.Noted.{AreOnMap};
ghost use Rattle.sbpl_terrain.specs.Affected.{AreAffected, AreStates, KeepArcsElsewhere};

use crate::costs::{present_cost, present_costs};
use crate::ends::add_changed_ends;
use crate::{ArcEnd, Terrain};
use sbpl_map::{NoMemory, Write, writes_lead_to_the_next_map};
use std::alloc::Global;

/// Whether all cells of a batch are on the map.
pub fn are_on_map<W: Terrain>(world: &W, batch: &[Write]) -> bool
    ensures on_map { IsTrue result ↔ AreOnMap (W.cells.map world.now) batch.now }
{
    batch
        .iter()
        .all(|write| present_cost(world, write.x, write.y).is_some())
}

/// Makes a write.
fn make<W: Terrain>(world: &mut W, write: &Write)
    requires on_map { IsOnMap (W.cells.map world.old) (pos write.now.x) (pos write.now.y) }
    ensures changes { ChangesCell (W.cells.map world.old) (W.cells.map world.new) (pos write.now.x) (pos write.now.y)
        write.now.cost }
    ensures others { world.new ≡ W.cells.over world.old (W.cells.map world.new) }
{
    // The cell is on the map, so this is not refused.
    let _was = world.set(i64::from(write.x), i64::from(write.y), write.cost);
}

/// Writes a batch to the map, in turn. All cells of the batch are on the map. It takes no memory.
pub fn write_batch<W: Terrain>(world: &mut W, batch: &[Write])
    requires on_map { AreOnMap (W.cells.map world.old) batch.now }
    ensures written { AreWritten (W.cells.map world.old) batch.now (W.cells.map world.new) }
    ensures others { world.new ≡ W.cells.over world.old (W.cells.map world.new) }
    ensures kept { W.cells.is_made world.new }
{
    W::is_terrain();
    writes_lead_to_the_next_map();
    for write in batch {
        make(world, write);
    }
    let _map = world.map();
}

/// Writes a batch to the map, in turn, and puts into `touched` the states that a repair has to recompute: those at
/// this end of all arcs that read a cell whose cost after the batch is not that before it, each once, upwards. A search that goes
/// along the arcs recomputes their heads, and one that goes against them their sources. What was
/// in `touched` before is dropped. All cells of the batch are on the map. After
/// `NoMemory` the map is the old or the new one, and nothing is said of `touched`.
pub fn apply<W: Terrain>(
    alloc: Global,
    world: &mut W,
    batch: &[Write],
    end: ArcEnd,
    touched: &mut Vec<u32>,
) -> Result<(), NoMemory>
    requires on_map { AreOnMap (W.cells.map world.old) batch.now }
    ensures written { OnOk result (AreWritten (W.cells.map world.old) batch.now (W.cells.map world.new)) }
    ensures others { world.new ≡ W.cells.over world.old (W.cells.map world.new) }
    ensures kept { W.cells.is_made world.new }
    ensures touched { OnOk result (AreAffected W.network W.cells end world.old (W.cells.map world.new) touched.new.items) }
    ensures once { OnOk result (IsStrictlyIncreasing touched.new.items) }
    ensures same_arcs { OnOk result (KeepArcsElsewhere end (W.network world.old) (W.network world.new) touched.new.items) }
    ensures states { OnOk result (AreStates (W.network world.new) touched.new.items) }
    ensures refused { OnErr result ((W.cells.map world.new ≡ W.cells.map world.old)
        ⊎ AreWritten (W.cells.map world.old) batch.now (W.cells.map world.new)) }
{
    W::is_terrain();
    let _map = world.map();
    touched.clear();
    let costs = present_costs(alloc, world, batch)?;
    write_batch(world, batch);
    add_changed_ends(world, &costs, end, touched)
}
