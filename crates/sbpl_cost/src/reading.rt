//! Which arcs read a cell.

ghost use Rattle.std.specs.Prelude.{◌≡◌, ℕ, pos, ◌<◌, ◌-ℤ◌, ◌++◌, [], length, take, slice_get, Some, OnOk};
ghost use Rattle.std.specs.Prelude.{OnErr};
ghost use Rattle.std.specs.List.{filter_map, cons_option};
ghost use Rattle.sbpl_sweep.specs.sbpl_mprim.Primitives.{ArePrimitives};
ghost use Rattle.sbpl_cost.specs.Judging.{IsNear};
ghost use Rattle.sbpl_cost.specs.States.{place_on_map};
ghost use Rattle.sbpl_cost.specs.Reading.{end_of_read, AreReadable};

use crate::places::{end_state, number_of, place_on_map};
use sbpl_sweep::{Cell, Env, NoMemory, Place, Prims, Read};
use sbpl_terrain::ArcEnd;

/// The place with heading `t` in the cell from which cell `(x, y)` lies this far, or `None` where that is off the map.
fn source_of(env: &Env, cell: Cell, x: u32, y: u32, t: u32) -> Option<Place>
    requires near { IsNear cell }
    ensures value { result ≡ place_on_map env.now (pos x -ℤ cell.x) (pos y -ℤ cell.y) t }
{
    place_on_map(env, i64::from(x) - cell.x, i64::from(y) - cell.y, t)
}

/// The state at this end of the arc that reads cell `(x, y)` by this read, or `None` where its source or its end is off the map.
fn end_of_read(env: &Env, prims: &Prims, read: &Read, x: u32, y: u32, end: ArcEnd) -> Option<u32>
    requires primitives { ArePrimitives prims.now }
    requires headings { prims.now.headings ≡ env.now.headings }
    requires place { read.now.prim < length prims.now.items }
    requires near { IsNear read.now.cell }
    ensures value { result ≡ end_of_read end env.now prims.now.items (pos x) (pos y) read.now }
{
    let prim = prims.get(read.prim);
    let source = source_of(env, read.cell, x, y, prim.from)?;
    let head = end_state(env, source, prim)?;
    Some(match end {
        ArcEnd::Source => number_of(env, source.x, source.y, source.t),
        ArcEnd::Head => head,
    })
}

/// Adds a state where there is one. After `NoMemory` the states are unchanged.
fn push_some(states: &mut Vec<u32>, state: Option<u32>) -> Result<(), NoMemory>
    ensures added { OnOk result (states.new.items ≡ states.old.items ++ cons_option state []) }
    ensures refused { OnErr result (states.new.items ≡ states.old.items) }
{
    if let Some(state) = state {
        states.push(state)?;
    }
    Ok(())
}

/// Adds the states at this end of the arcs that read cell `(x, y)` by these reads. After `NoMemory` some of them are added.
fn push_ends(
    env: &Env,
    prims: &Prims,
    reads: &[Read],
    x: u32,
    y: u32,
    end: ArcEnd,
    into: &mut Vec<u32>,
) -> Result<(), NoMemory>
    requires primitives { ArePrimitives prims.now }
    requires headings { prims.now.headings ≡ env.now.headings }
    requires reads { AreReadable prims.now.items reads.now }
    ensures added { OnOk result (into.new.items ≡ into.old.items ++ filter_map
        (end_of_read end env.now prims.now.items (pos x) (pos y)) reads.now) }
    ensures front { OnErr result (take (length into.old.items) into.new.items ≡ into.old.items) }
{
    for read in reads {
        push_some(into, end_of_read(env, prims, read, x, y, end))?;
    }
    Ok(())
}

/// Adds the states at this end of the arcs that read cell `(x, y)` by these reads. After `NoMemory` nothing is added.
pub(crate) fn add_ends(
    env: &Env,
    prims: &Prims,
    reads: &[Read],
    x: u32,
    y: u32,
    end: ArcEnd,
    into: &mut Vec<u32>,
) -> Result<(), NoMemory>
    requires primitives { ArePrimitives prims.now }
    requires headings { prims.now.headings ≡ env.now.headings }
    requires reads { AreReadable prims.now.items reads.now }
    ensures added { OnOk result (into.new.items ≡ into.old.items ++ filter_map
        (end_of_read end env.now prims.now.items (pos x) (pos y)) reads.now) }
    ensures refused { OnErr result (into.new.items ≡ into.old.items) }
{
    let count = into.len();
    if let Err(error) = push_ends(env, prims, reads, x, y, end, into) {
        into.truncate(count);
        return Err(error);
    }
    Ok(())
}
