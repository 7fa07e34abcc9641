//! The costs of the cells, as they are at present.

ghost use Rattle.std.specs.Prelude.{◌≡◌, ◌*◌, ◌<◌, ◌↔◌, length, IfSome, IsSome, IsOk, IfOk, OnOk, OnErr, Some};
ghost use Rattle.sbpl_map.specs.CellMap.{cost_at, costs_with, index_in, IsOnMap, IsMapSize, IsCellMap, ChangesCell};

use crate::off_map::OffMap;
use sbpl_cfg::{Env, Grid};
use std::marker::Model;

/// The cost of each cell, 0..255. Cell `(x, y)` is on the map where `x` is in `0..width` and `y` is in `0..height`.
/// No call takes memory.
#[derive(Debug, Drop)]
pub struct Map {
    width: u32,
    height: u32,
    costs: Vec<u8>,
}

impl Model for Map {
    ghost use Rattle.sbpl_map.specs.CellMap.{CellMap, IsCellMap};

    ghost Value = { CellMap };

    ghost view = { λ m. record { width = m.width; height = m.height; costs = m.costs.items } };

    ghost invariant = { λ m. IsCellMap (record { width = m.width; height = m.height; costs = m.costs.items }) };
}

impl Map {
    /// The map of an environment, with the costs of its file. The grid has the environment's size.
    pub fn new(env: &Env, grid: Grid) -> Map
        requires size { length grid ≡ env.now.width * env.now.height }
        ensures map { result ≡ record { width = env.now.width; height = env.now.height; costs = grid } }
        ensures kept { IsCellMap result }
    {
        Map::plain(env.width, env.height, grid)
    }

    /// The map of a grid of costs with this many cells along x and along y: at least one each, and at most 2^28 cells in all. The
    /// grid has a cost for each of them.
    pub fn plain(width: u32, height: u32, grid: Grid) -> Map
        requires ranges { IsMapSize width height }
        requires size { length grid ≡ width * height }
        ensures map { result ≡ record { width = width; height = height; costs = grid } }
        ensures kept { IsCellMap result }
    {
        let costs = grid.into_vec();
        Map {
            width,
            height,
            costs,
        }
    }

    /// Cells along x.
    pub fn width(&self) -> u32
        ensures value { result ≡ self.now.width }
        ensures kept { IsCellMap self.now }
    {
        self.width
    }

    /// Cells along y.
    pub fn height(&self) -> u32
        ensures value { result ≡ self.now.height }
        ensures kept { IsCellMap self.now }
    {
        self.height
    }

    /// The costs of all cells, row by row.
    pub fn costs(&self) -> &[u8]
        ensures value { result.now ≡ self.now.costs }
        ensures kept { IsCellMap self.now }
    {
        self.costs.as_slice()
    }

    /// The cost of cell `(x, y)`, or `None` exactly off the map.
    pub fn cost(&self, x: i64, y: i64) -> Option<u8>
        ensures value { result ≡ cost_at self.now x y }
        ensures on_map { IsSome result ↔ IsOnMap self.now x y }
    {
        let index = self.index_at(x, y)?;
        Some(self.costs[index])
    }

    /// Writes cost `c` to cell `(x, y)` and returns the old cost. `OffMap` comes exactly off the map, and then nothing
    /// changes.
    pub fn set(&mut self, x: i64, y: i64, c: u8) -> Result<u8, OffMap>
        ensures on_map { IsOk result ↔ IsOnMap self.old x y }
        ensures old { IfOk result (λ was. cost_at self.old x y ≡ Some was) }
        ensures changes { OnOk result (ChangesCell self.old self.new x y c) }
        ensures written { self.new.costs ≡ costs_with self.old (index_in self.old x y) c }
        ensures refused { OnErr result (self.new ≡ self.old) }
        ensures width { self.new.width ≡ self.old.width }
        ensures height { self.new.height ≡ self.old.height }
        ensures kept { IsCellMap self.new }
    {
        let Some(index) = self.index_at(x, y) else {
            return Err(OffMap);
        };
        let was = self.costs[index];
        self.costs[index] = c;
        Ok(was)
    }

    /// The index of cell `(x, y)` among the costs, or `None` exactly off the map.
    pub fn index_of(&self, x: i64, y: i64) -> Option<usize>
        ensures value { result ≡ index_in self.now x y }
        ensures on_map { IsSome result ↔ IsOnMap self.now x y }
        ensures inside { IfSome result (λ i. i < length self.now.costs) }
    {
        let _costs = &self.costs;
        self.index_at(x, y)
    }

    /// The index of cell `(x, y)`, row by row.
    fn index_at(&self, x: i64, y: i64) -> Option<usize>
        ensures value { result ≡ index_in self.now x y }
        ensures on_map { IsSome result ↔ IsOnMap self.now x y }
    {
        let on_map = 0 <= x && x < i64::from(self.width) && 0 <= y && y < i64::from(self.height);
        if on_map {
            Some(y as usize * self.width as usize + x as usize)
        } else {
            None
        }
    }
}
