//! A batch of changes, and the labels of a search.

ghost use Rattle.std.specs.Prelude.{◌≡◌, ◌^◌, ◌⊎◌, ℕ, OnErr, OnOk};
ghost use Rattle.sbpl_plan.specs.sbpl_search.Ready.{AreUsable, IsStartFresh};
ghost use Rattle.sbpl_heur.specs.sbpl_terrain.Noted.{AreOnMap};
ghost use Rattle.sbpl_heur.specs.sbpl_map.MapAfter.{AreWritten};
ghost use Rattle.sbpl_replan.specs.Replanning.{BeginsWith};

use sbpl_heur::{ArcEnd, Heuristic, Terrain, Write, apply, exact_where_same, write_batch};
use sbpl_plan::{NoMemory, Search};
use std::alloc::Global;

/// Writes a batch to the map, and makes the labels of a search ready for a plan on it. The touched states are
/// found only where the search repairs its labels; `touched` is room to work in. All cells of the batch are on the map.
pub(crate) fn change<W: Terrain, H: Heuristic<W>, S: Search<W, H>>(
    alloc: Global,
    world: &mut W,
    batch: &[Write],
    search: &mut S,
    touched: &mut Vec<u32>,
) -> Result<(), NoMemory>
    requires on_map { AreOnMap (W.cells.map world.old) batch.now }
    requires usable { AreUsable (W.network world.old) (S.state search.old).labels (2 ^ 30) }
    requires fresh { IsStartFresh (S.state search.old).labels }
    ensures written { OnOk result (AreWritten (W.cells.map world.old) batch.now (W.cells.map world.new)) }
    ensures refused { OnErr result ((W.cells.map world.new ≡ W.cells.map world.old)
        ⊎ AreWritten (W.cells.map world.old) batch.now (W.cells.map world.new)) }
    ensures others { world.new ≡ W.cells.over world.old (W.cells.map world.new) }
    ensures kept { W.cells.is_made world.new }
    ensures begun { OnOk result (BeginsWith S.meaning W.network W.cells world.old world.new (S.state search.old).labels
        (S.state search.new).labels (S.state search.new).raised) }
    ensures ready { (count : ℕ) → S.meaning.ready (W.network world.old) (S.state search.old).labels count
        → OnOk result (S.meaning.ready (W.network world.new) (S.state search.new).labels count) }
    ensures fresh { OnOk result (IsStartFresh (S.state search.new).labels) }
    ensures start { OnOk result ((S.state search.new).labels.start ≡ (S.state search.old).labels.start) }
    ensures same_goal { OnOk result ((S.state search.new).goal ≡ (S.state search.old).goal) }
    ensures same_workers { OnOk result ((S.state search.new).workers ≡ (S.state search.old).workers) }
    ensures unchanged { OnErr result (search.new ≡ search.old) }
    ensures serves { S.serves search.old → S.serves search.new }
{
    W::is_terrain();
    exact_where_same();
    let _map = world.map();
    if search.repairs() {
        apply(alloc, world, batch, ArcEnd::Head, touched)?;
        search.change(world, touched.as_slice());
    } else {
        write_batch(world, batch);
        search.change(world, &[]);
    }
    Ok(())
}
