//! The states at an end of the arcs that read cells whose costs changed.

ghost use Rattle.std.specs.Prelude.{◌≡◌, ℕ, [], ◌↔◌, OnOk};
ghost use Rattle.std.specs.List.{Contains};
ghost use Rattle.std.specs.List.Sorted.{IsStrictlyIncreasing};
ghost use Rattle.sbpl_terrain.specs.ChangedEnds.{AddsEndsOf, AreEndsOf};

use crate::costs::{Costs, present_cost};
use crate::{ArcEnd, Terrain};
use sbpl_map::NoMemory;

/// Adds the states at this end of the arcs that read cell `(x, y)`, unless that costs what it did.
fn add_ends<W: Terrain>(
    world: &W,
    x: u32,
    y: u32,
    was: u8,
    end: ArcEnd,
    ends: &mut Vec<u32>,
) -> Result<(), NoMemory>
    ensures added { OnOk result (AddsEndsOf W.network W.cells end world.now x y was ends.old.items ends.new.items) }
{
    if present_cost(world, x, y) != Some(was) {
        world.ends_reading(x, y, end, ends)?;
    }
    Ok(())
}

/// Orders a list upwards and leaves each number in it once, so that a state of many such arcs is recomputed once.
fn list_once(states: &mut Vec<u32>)
    ensures same { (s : ℕ) → Contains states.new.items s ↔ Contains states.old.items s }
    ensures once { IsStrictlyIncreasing states.new.items }
{
    states.sort_unstable();
    states.dedup();
}

/// Adds the states at this end of the arcs that read cells whose costs are not what they were, each once, upwards.
pub(crate) fn add_changed_ends<W: Terrain>(
    world: &W,
    costs: &Costs,
    end: ArcEnd,
    ends: &mut Vec<u32>,
) -> Result<(), NoMemory>
    requires empty { ends.old.items ≡ [] }
    ensures ends { OnOk result (AreEndsOf W.network W.cells end world.now costs.now ends.new.items) }
    ensures once { OnOk result (IsStrictlyIncreasing ends.new.items) }
{
    for (cell, was) in costs {
        add_ends(world, cell.0, cell.1, *was, end, ends)?;
    }
    list_once(ends);
    Ok(())
}
