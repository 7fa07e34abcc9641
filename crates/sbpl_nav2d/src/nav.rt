//! The grid: an environment and a map, as a graph.

ghost use Rattle.std.specs.Prelude.{◌≡◌, ℕ, pos, ◌<◌, ◌≤◌, ◌↔◌, IsSome, IfSome, IsOk, IfOk, OnOk, OnErr};
ghost use Rattle.std.specs.Prelude.{Some};
ghost use Rattle.sbpl_terrain.specs.sbpl_map.CellMap.{cost_at, IsOnMap, ChangesCell};
ghost use Rattle.sbpl_nav2d.specs.Directions.{by, step_cost, IsNear};
ghost use Rattle.sbpl_nav2d.specs.World.{GridWorld, IsGridWorld};
ghost use Rattle.sbpl_nav2d.specs.Arc.{cell_of};
ghost use Rattle.sbpl_nav2d.specs.Grids.{network_of, state_at};
ghost use Rattle.sbpl_nav2d.specs.Reading.{AddsFewEnds, UnreadCostTheSame};
ghost use Rattle.sbpl_terrain.specs.Cells.{DifferInCostsAlone};
ghost use Rattle.sbpl_terrain.specs.declared.arc_end.ArcEnd.TheVariants as Ends;

use crate::cell::{Cell, direction, moved, moved_back, step_cost};
use crate::env::NavEnv;
use crate::judging::greatest_read;
use crate::octile::gap_between;
use crate::reading::add_ends;
use sbpl_fixed::NoMemory;
use sbpl_terrain::{ArcEnd, Graph, Map, OffMap, Terrain};
use std::marker::Model;

/// The grid of a map, with eight neighbours of each cell. A state is a cell, and its arcs are the steps in the eight
/// directions. The present map decides which arcs are free and what they cost.
#[derive(Drop)]
pub struct Nav {
    env: NavEnv,
    map: Map,
}

impl Model for Nav {
    ghost use Rattle.sbpl_nav2d.specs.World.{GridWorld, IsGridWorld};

    ghost Value = { GridWorld };

    ghost view = { λ n. record { env = n.env; map = n.map } };

    ghost invariant = { λ n. IsGridWorld (record { env = n.env; map = n.map }) };
}

/// The cost from which a cell is an obstacle.
fn limit_of(env: &NavEnv) -> u8
    ensures limit { result ≡ env.now.obsthresh }
{
    env.obsthresh
}

impl Nav {
    /// The grid of an environment and a map of its size. It takes no memory.
    pub fn new(env: &NavEnv, map: Map) -> Nav
        requires width { map.width ≡ env.now.width }
        requires height { map.height ≡ env.now.height }
        ensures world { result ≡ record { env = env.now; map = map } }
        ensures kept { IsGridWorld result }
    {
        prove!(map.width() == env.width && map.height() == env.height);
        Nav { env: *env, map }
    }

    /// The environment that the grid was made of. Its start and its end are states.
    pub fn env(&self) -> &NavEnv
        ensures env { result.now ≡ self.now.env }
        ensures start { result.now.start < (network_of self.now).states }
        ensures end { result.now.end < (network_of self.now).states }
        ensures kept { IsGridWorld self.now }
    {
        &self.env
    }

    /// The present map.
    pub fn map(&self) -> &Map
        ensures map { result.now ≡ self.now.map }
        ensures kept { IsGridWorld self.now }
    {
        &self.map
    }

    /// The present cost of cell `(x, y)`, or `None` exactly off the map.
    pub fn cell_cost(&self, x: i64, y: i64) -> Option<u8>
        ensures value { result ≡ cost_at self.now.map x y }
        ensures on_map { IsSome result ↔ IsOnMap self.now.map x y }
    {
        self.map.cost(x, y)
    }

    /// Adds to a list the heads of all arcs with a head whose judgement reads cell `(x, y)`, which may be off the map:
    /// a head for each such arc, so a state can be added more than once. After `NoMemory` the list is unchanged.
    pub fn heads_reading(&self, x: u32, y: u32, into: &mut Vec<u32>) -> Result<(), NoMemory>
        ensures heads { OnOk result (AddsFewEnds Ends.Head self.now (pos x) (pos y) into.old.items into.new.items) }
        ensures memory { OnErr result (into.new.items ≡ into.old.items) }
    {
        add_ends(self, x, y, ArcEnd::Head, into)
    }

    /// Adds to a list the states at one end of all arcs with a head whose judgement reads cell `(x, y)`, which may be off the map:
    /// a state for each such arc, so one can be added more than once. After `NoMemory` the list is unchanged.
    pub fn ends_reading(
        &self,
        x: u32,
        y: u32,
        end: ArcEnd,
        into: &mut Vec<u32>,
    ) -> Result<(), NoMemory>
        ensures ends { OnOk result (AddsFewEnds end self.now (pos x) (pos y) into.old.items into.new.items) }
        ensures memory { OnErr result (into.new.items ≡ into.old.items) }
    {
        add_ends(self, x, y, end, into)
    }

    /// Writes cost `c` to cell `(x, y)` of the map and returns the old cost. Arcs that do not read the cell cost what
    /// they did. `OffMap` comes exactly off the map, and then nothing changes.
    pub fn set(&mut self, x: i64, y: i64, c: u8) -> Result<u8, OffMap>
        ensures on_map { IsOk result ↔ IsOnMap self.old.map x y }
        ensures old { IfOk result (λ was. cost_at self.old.map x y ≡ Some was) }
        ensures changes { OnOk result (ChangesCell self.old.map self.new.map x y c) }
        ensures others { self.new ≡ record self.old { map = self.new.map } }
        ensures refused { OnErr result (self.new ≡ self.old) }
        ensures kept { IsGridWorld self.new }
        ensures unread { OnOk result (UnreadCostTheSame self.old self.new x y) }
        ensures rest { DifferInCostsAlone (network_of self.new) (network_of self.old) }
    {
        self.map.set(x, y, c)
    }

    /// The cell of state `s`.
    fn cell_of(&self, s: u32) -> Cell
        ensures cell { result ≡ cell_of self.now s }
        ensures near { IsNear 0 result }
    {
        let width = self.map.width();
        Cell {
            x: i64::from(s % width),
            y: i64::from(s / width),
        }
    }

    /// The state of a cell, or `None` off the map.
    pub(crate) fn state_at(&self, cell: Cell) -> Option<u32>
        requires near { IsNear 2 cell }
        ensures value { result ≡ state_at self.now.map cell }
        ensures inside { IfSome result (λ t. t < (network_of self.now).states) }
    {
        let index = self.map.index_of(cell.x, cell.y)?;
        Some(index as u32)
    }
}

impl Graph for Nav {
    ghost use Rattle.sbpl_nav2d.specs.Grids.{network_of};

    ghost network = { network_of };

    fn states(&self) -> u32 {
        self.map.width() * self.map.height()
    }

    fn fan(&self, _s: u32) -> u32 {
        8
    }

    fn head(&self, s: u32, k: u32) -> Option<u32> {
        self.state_at(moved(self.cell_of(s), direction(k)))
    }

    fn judge(&self, s: u32, k: u32) -> Option<u32> {
        let greatest = greatest_read(&self.map, self.cell_of(s), k, limit_of(&self.env))?;
        Some(step_cost(k) * (u32::from(greatest) + 1))
    }

    fn floor(&self, _s: u32, k: u32) -> u32
        ensures value { result ≡ step_cost k }
        ensures positive { 1 ≤ result }
        ensures floor { (c : ℕ) → (network_of self.now).cost _s k ≡ Some c → result ≤ c }
    {
        step_cost(k)
    }

    fn tail_fan(&self, _t: u32) -> u32 {
        8
    }

    fn tail(&self, t: u32, j: u32) -> Option<(u32, u32)> {
        let source = self.state_at(moved_back(self.cell_of(t), direction(j)))?;
        Some((source, j))
    }

    fn gap(&self, a: u32, b: u32) -> u64 {
        gap_between(self.map.width(), a, b)
    }
}

impl Terrain for Nav {
    ghost use Rattle.sbpl_nav2d.specs.Cells.{grid_cells};

    ghost cells = { grid_cells };

    fn map(&self) -> &Map {
        let _env = self.env();
        &self.map
    }

    fn set(&mut self, x: i64, y: i64, c: u8) -> Result<u8, OffMap> {
        Nav::set(self, x, y, c)
    }

    fn ends_reading(
        &self,
        x: u32,
        y: u32,
        end: ArcEnd,
        into: &mut Vec<u32>,
    ) -> Result<(), NoMemory> {
        Nav::ends_reading(self, x, y, end, into)
    }

    fn is_terrain() {}
}
