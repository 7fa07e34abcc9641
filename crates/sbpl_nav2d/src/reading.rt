//! Which arcs read a cell.

ghost use Rattle.std.specs.Prelude.{◌≡◌, ◌≢◌, ℕ, ◌+◌, ◌*◌, ◌%◌, ◌<◌, ◌++◌, ◌⊎◌, [], pos};
ghost use Rattle.std.specs.Prelude.{IfSome, IfNone, OnOk, OnErr};
ghost use Rattle.std.specs.List.{cons_option};
ghost use Rattle.sbpl_terrain.specs.sbpl_graph.Network.{IsArc};
ghost use Rattle.sbpl_nav2d.specs.Directions.{by, is_diagonal, IsNear, IsStep};
ghost use Rattle.sbpl_nav2d.specs.Grids.{network_of};
ghost use Rattle.sbpl_nav2d.specs.Adding.{Adds, Extends, IsEndBy, ReadsAs, ReadsBelow, ReadsIn};

use crate::cell::{Cell, direction, is_diagonal, moved, moved_back};
use crate::nav::Nav;
use sbpl_fixed::NoMemory;
use sbpl_terrain::ArcEnd;

/// The state at this end of the arc in direction `k` that reads a cell as this far from its source, or `None` where there is
/// no such arc or it leads off the map.
fn end_reading(nav: &Nav, cell: Cell, k: u32, offset: Cell, end: ArcEnd) -> Option<u32>
    requires number { k < 8 }
    requires near { IsNear 0 cell }
    requires offset { IsStep offset }
    ensures state { IfSome result (IsEndBy end nav.now k offset cell (network_of nav.now)) }
    ensures no_state { IfNone result ((s number t : ℕ)
        → IsArc (network_of nav.now) s number t → ReadsAs nav.now k offset cell s number → ⊥) }
{
    let _env = nav.env();
    let from = moved_back(cell, offset);
    let source = nav.state_at(from)?;
    let head = nav.state_at(moved(from, direction(k)))?;
    Some(match end {
        ArcEnd::Source => source,
        ArcEnd::Head => head,
    })
}

/// Adds a state where there is one. After `NoMemory` the states are unchanged.
fn push_some(states: &mut Vec<u32>, state: Option<u32>) -> Result<(), NoMemory>
    ensures added { OnOk result (states.new.items ≡ states.old.items ++ cons_option state []) }
    ensures refused { OnErr result (states.new.items ≡ states.old.items) }
{
    if let Some(state) = state {
        states.push(state)?;
    }
    Ok(())
}

/// Adds the states at this end of the arcs in direction `k` that read a cell as this far from their source, or as that far. After
/// `NoMemory` some of them are added.
fn push_pair(
    nav: &Nav,
    cell: Cell,
    k: u32,
    this: Cell,
    that: Cell,
    end: ArcEnd,
    into: &mut Vec<u32>,
) -> Result<(), NoMemory>
    requires number { k < 8 }
    requires near { IsNear 0 cell }
    requires this { IsStep this }
    requires that { IsStep that }
    requires apart { this ≢ that }
    ensures added { OnOk result (Adds end (network_of nav.now)
        (λ s n. ReadsAs nav.now k this cell s n ⊎ ReadsAs nav.now k that cell s n) into.old.items into.new.items 2) }
    ensures front { OnErr result (Extends into.old.items into.new.items) }
{
    push_some(into, end_reading(nav, cell, k, this, end))?;
    push_some(into, end_reading(nav, cell, k, that, end))
}

/// Adds the states at this end of all arcs in direction `k` that read a cell. After `NoMemory` some of them are added.
fn push_ends_in(
    nav: &Nav,
    cell: Cell,
    k: u32,
    end: ArcEnd,
    into: &mut Vec<u32>,
) -> Result<(), NoMemory>
    requires number { k < 8 }
    requires near { IsNear 0 cell }
    ensures added { OnOk result (Adds end (network_of nav.now)
        (ReadsIn nav.now k cell) into.old.items into.new.items (2 + 2 * (k % 2))) }
    ensures front { OnErr result (Extends into.old.items into.new.items) }
{
    let step = direction(k);
    push_pair(nav, cell, k, Cell { x: 0, y: 0 }, step, end, into)?;
    if !is_diagonal(k) {
        return Ok(());
    }
    push_pair(
        nav,
        cell,
        k,
        Cell { x: step.x, y: 0 },
        Cell { x: 0, y: step.y },
        end,
        into,
    )
}

/// Adds the states at this end of all arcs that read a cell. After `NoMemory` some of them are added.
fn push_ends(nav: &Nav, cell: Cell, end: ArcEnd, into: &mut Vec<u32>) -> Result<(), NoMemory>
    requires near { IsNear 0 cell }
    ensures added { OnOk result (Adds end (network_of nav.now)
        (ReadsBelow nav.now 8 cell) into.old.items into.new.items 24) }
    ensures front { OnErr result (Extends into.old.items into.new.items) }
{
    for k in 0..8 {
        push_ends_in(nav, cell, k, end, into)?;
    }
    Ok(())
}

/// Adds the states at this end of all arcs that read a cell, a state for each of them. After `NoMemory` nothing is added.
pub(crate) fn add_ends(
    nav: &Nav,
    x: u32,
    y: u32,
    end: ArcEnd,
    into: &mut Vec<u32>,
) -> Result<(), NoMemory>
    ensures added { OnOk result (Adds end (network_of nav.now)
        (ReadsBelow nav.now 8 (by (pos x) (pos y))) into.old.items into.new.items 24) }
    ensures refused { OnErr result (into.new.items ≡ into.old.items) }
{
    let count = into.len();
    let cell = Cell {
        x: i64::from(x),
        y: i64::from(y),
    };
    if let Err(error) = push_ends(nav, cell, end, into) {
        into.truncate(count);
        return Err(error);
    }
    Ok(())
}
