//! A graph over a map of cells.

ghost use Rattle.std.specs.Prelude.{◌≡◌, pos, ◌↔◌, IfOk, IsOk, OnErr, OnOk, Some};
ghost use Rattle.sbpl_map.specs.CellMap.{ChangesCell, IsOnMap, cost_at};
ghost use Rattle.sbpl_terrain.specs.Cells.{Cells, IsTerrain};
ghost use Rattle.sbpl_terrain.specs.Reading.{AddsEnds};

use crate::ArcEnd;
use sbpl_graph::Graph;
use sbpl_map::{Map, NoMemory, OffMap};

/// A graph each of whose arcs reads cells of a map: these say whether the arc is free and what it costs. The costs of cells
/// change, and the states, the arcs and where they lead stay. Plans are made and repaired over it.
pub trait Terrain: Graph {
    /// The map, and which cells the arcs read.
    ghost cells: { Cells Self };

    /// The present map.
    fn map(&self) -> &Map
        ensures map { result.now ≡ cells.map self.now }
        ensures kept { cells.is_made self.now };

    /// Writes cost `c` to cell `(x, y)` of the map and returns the old cost. `OffMap` comes exactly off the map, and then nothing
    /// changes. It takes no memory.
    fn set(&mut self, x: i64, y: i64, c: u8) -> Result<u8, OffMap>
        ensures on_map { IsOk result ↔ IsOnMap (cells.map self.old) x y }
        ensures old { IfOk result (λ was. cost_at (cells.map self.old) x y ≡ Some was) }
        ensures changes { OnOk result (ChangesCell (cells.map self.old) (cells.map self.new) x y c) }
        ensures others { self.new ≡ cells.over self.old (cells.map self.new) }
        ensures refused { OnErr result (self.new ≡ self.old) }
        ensures kept { cells.is_made self.new };

    /// Adds to a list the states at one end of all arcs with a head whose judgement reads cell `(x, y)`, which may be off the map.
    /// A state can be added more than once. After `NoMemory` the list is unchanged.
    fn ends_reading(&self, x: u32, y: u32, end: ArcEnd, into: &mut Vec<u32>) -> Result<(), NoMemory>
        ensures ends { OnOk result (AddsEnds Self.network cells end self.now (pos x) (pos y) into.old.items into.new.items) }
        ensures memory { OnErr result (into.new.items ≡ into.old.items) };

    /// A map changes costs alone, and an arc costs the same on two maps on which all cells that it reads cost the same. This does
    /// nothing when it runs.
    fn is_terrain()
        ensures law { IsTerrain Self.network cells };
}
