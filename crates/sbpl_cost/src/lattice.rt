//! The lattice: an environment, primitives and a map, as a graph.

ghost use Rattle.std.specs.Prelude.{◌≡◌, pos, ◌^◌, ◌<◌, ◌≤◌, ◌↔◌, ◌++◌, length, slice_get, Some};
ghost use Rattle.std.specs.Prelude.{IsSome, IfSome, IsOk};
ghost use Rattle.std.specs.Prelude.{IfOk, IfErr, OnOk, OnErr};
ghost use Rattle.std.specs.List.{filter_map};
ghost use Rattle.std.specs.Option.{option_map};
ghost use Rattle.sbpl_terrain.specs.sbpl_graph.Laws.{IsTail};
ghost use Rattle.sbpl_sweep.specs.sbpl_mprim.declared.prim.Primitive.{Primitive};
ghost use Rattle.sbpl_sweep.specs.Swept.{AreSweepsOf};
ghost use Rattle.sbpl_terrain.specs.sbpl_map.CellMap.{cost_at, IsOnMap, ChangesCell};
ghost use Rattle.sbpl_cost.specs.PrimitiveCost.{primitive_cost, most_cost};
ghost use Rattle.sbpl_cost.specs.Rates.{state_gap};
ghost use Rattle.sbpl_cost.specs.States.{IsPlace, place_of, state_count, state_number};
ghost use Rattle.sbpl_cost.specs.World.{World, IsWorld};
ghost use Rattle.sbpl_cost.specs.Arc.{IsArcBy};
ghost use Rattle.sbpl_cost.specs.Lattices.{network_of, arc_index, leaving, entering};
ghost use Rattle.sbpl_cost.specs.Reading.{end_of_read, AddsFewEnds, UnreadCostTheSame};
ghost use Rattle.sbpl_terrain.specs.Cells.{DifferInCostsAlone};
ghost use Rattle.sbpl_cost.specs.Tables.{AreCheap, IsCause};
ghost use Rattle.sbpl_terrain.specs.declared.arc_end.ArcEnd.TheVariants as Ends;

use crate::fault::LatticeFault;
use crate::gaps::Gaps;
use crate::judging::greatest_paid;
use crate::places::{end_state, heading_of, place_at, start_state, state_at, state_count};
use crate::reach::Reach;
use crate::reading::add_ends;
use crate::state_gaps::StateGaps;
use crate::strip::Strip;
use crate::tables::{Tables, tables_of};
use crate::walls::note_wall;
use sbpl_sweep::{Bits, Cell, Env, NoMemory, Place, Prims, Runs, Sweeps};
use sbpl_terrain::{ArcEnd, Graph, Map, OffMap, Terrain};
use std::alloc::Global;
use std::marker::Model;

/// SBPL's lattice over a map. A state is a cell with a heading; its arcs are the primitives that start at its heading,
/// in the order of the file. The present map decides which arcs are free and what they cost. `new` takes memory, and
/// `ends_reading` for the list that it adds to.
#[derive(Drop)]
pub struct Lattice {
    env: Env,
    prims: Prims,
    sweeps: Sweeps,
    map: Map,
    /// For each heading the indices in the file of the primitives that start at it.
    leaving: Runs<u32>,
    /// For each heading the indices in the file of the primitives that end at it.
    entering: Runs<u32>,
    /// For each primitive its number among those that start at its heading.
    numbers: Vec<u32>,
    /// For each primitive its number among those that end at its heading.
    tail_numbers: Vec<u32>,
    /// For each primitive its cost by itself.
    costs: Vec<u32>,
    /// For each primitive its centre cells.
    along: Runs<Cell>,
    /// For each primitive the cells that it sweeps.
    around: Runs<Strip>,
    /// For each primitive how far these lie.
    reaches: Vec<Reach>,
    /// The cells that are obstacles for the robot.
    walls: Bits,
    /// The least fractions of cost to cells.
    gaps: Gaps,
}

impl Model for Lattice {
    ghost use Rattle.sbpl_cost.specs.World.{World};
    ghost use Rattle.sbpl_cost.specs.Tables.{AreTables};

    ghost Value = { World };

    ghost view = { λ l. record { env = l.env; prims = l.prims; sweeps = l.sweeps; map = l.map } };

    ghost invariant = { λ l. AreTables (record { env = l.env; prims = l.prims; sweeps = l.sweeps; map = l.map }) l.leaving
        l.entering l.numbers.items l.tail_numbers.items l.costs.items l.along l.around l.reaches.items l.walls l.gaps };
}

impl Lattice {
    /// The lattice of an environment, its primitives, the sweeps that were made of these, and its map: they belong
    /// together by cell size, headings and size. `TooDear` names the first primitive, by its index in the file, whose cost
    /// by itself is above `MOST_COST`, and comes exactly where there is one.
    pub fn new(
        alloc: Global,
        env: &Env,
        prims: Prims,
        sweeps: Sweeps,
        map: Map,
    ) -> Result<Lattice, LatticeFault>
        requires cell { prims.cell ≡ env.now.cell }
        requires headings { prims.headings ≡ env.now.headings }
        requires sweeps { AreSweepsOf prims sweeps.radius sweeps }
        requires width { map.width ≡ env.now.width }
        requires height { map.height ≡ env.now.height }
        ensures world { IfOk result (λ l. l ≡ record { env = env.now; prims = prims; sweeps = sweeps; map = map }) }
        ensures kept { IfOk result (λ l. IsWorld l) }
        ensures cheap { IfOk result (λ _. AreCheap env.now prims.items) }
        ensures cause { IfErr result (λ e. IsCause env.now prims.items e) }
    {
        prove!(map.width() == env.width && map.height() == env.height);
        let Tables {
            costs,
            by_heading,
            reads,
            walls,
        } = tables_of(alloc, env, &prims, &sweeps, map.costs())?;
        let gaps = Gaps::new(env, &prims, costs.as_slice());
        Ok(Lattice {
            env: *env,
            prims,
            sweeps,
            map,
            leaving: by_heading.leaving,
            entering: by_heading.entering,
            numbers: by_heading.numbers,
            tail_numbers: by_heading.tail_numbers,
            costs,
            along: reads.along,
            around: reads.around,
            reaches: reads.reaches,
            walls,
            gaps,
        })
    }

    /// The environment that the lattice was made of.
    pub fn env(&self) -> &Env
        ensures env { result.now ≡ self.now.env }
        ensures kept { IsWorld self.now }
    {
        &self.env
    }

    /// The primitives that the lattice was made of.
    pub fn prims(&self) -> &Prims
        ensures prims { result.now ≡ self.now.prims }
        ensures kept { IsWorld self.now }
    {
        &self.prims
    }

    /// The sweeps that the lattice was made of: the centre cells and the swept cells of each primitive.
    pub fn sweeps(&self) -> &Sweeps
        ensures sweeps { result.now ≡ self.now.sweeps }
        ensures kept { IsWorld self.now }
    {
        &self.sweeps
    }

    /// The present map.
    pub fn map(&self) -> &Map
        ensures map { result.now ≡ self.now.map }
        ensures kept { IsWorld self.now }
    {
        &self.map
    }

    /// What going from one state to another costs at least, on each map of the lattice.
    pub fn gaps(&self) -> StateGaps
        ensures states { state_count result.env ≡ (network_of self.now).states }
        ensures gap { state_gap result ≡ (network_of self.now).gap }
    {
        StateGaps {
            env: self.env,
            rates: self.gaps,
        }
    }

    /// The state at a place, or `None` exactly where its cell is off the map or its heading is not one of the
    /// environment's.
    pub fn state_of(&self, p: &Place) -> Option<u32>
        ensures value { IfSome result (λ s. s ≡ state_number self.now.env p.now) }
        ensures place { IsSome result ↔ IsPlace self.now.env p.now }
        ensures state { IfSome result (λ s. s < (network_of self.now).states) }
        ensures back { IfSome result (λ s. place_of self.now.env s ≡ p.now) }
    {
        state_at(&self.env, p)
    }

    /// The place of state `s`.
    pub fn place_of(&self, s: u32) -> Place
        requires state { s < (network_of self.now).states }
        ensures value { result ≡ place_of self.now.env s }
        ensures place { IsPlace self.now.env result }
        ensures back { state_number self.now.env result ≡ s }
    {
        place_at(&self.env, s)
    }

    /// The index in the file of the primitive of arc `k` of state `s`: it is the `k`-th, from 0, of those that start at
    /// the heading of `s`.
    pub fn prim_of(&self, s: u32, k: u32) -> u32
        requires state { s < (network_of self.now).states }
        requires number { k < (network_of self.now).fan s }
        ensures value { arc_index self.now s k ≡ Some result }
        ensures primitive { (p : Primitive) × IsArcBy self.now s k result p }
        ensures inside { result < length self.now.prims.items }
    {
        self.leaving_at(heading_of(&self.env, s), k)
    }

    /// The index in the file of the `k`-th primitive, from 0, of those that start at heading `t`.
    fn leaving_at(&self, t: u32, k: u32) -> u32
        requires heading { t < self.now.env.headings }
        requires number { k < length (leaving self.now.prims.items t) }
        ensures place { slice_get (leaving self.now.prims.items t) k ≡ Some result }
        ensures inside { result < length self.now.prims.items }
    {
        self.leaving.at(t as usize)[k as usize]
    }

    /// The index in the file of the `j`-th primitive, from 0, of those that end at heading `t`.
    fn entering_at(&self, t: u32, j: u32) -> u32
        requires heading { t < self.now.env.headings }
        requires number { j < length (entering self.now.prims.items t) }
        ensures place { slice_get (entering self.now.prims.items t) j ≡ Some result }
        ensures inside { result < length self.now.prims.items }
    {
        self.entering.at(t as usize)[j as usize]
    }

    /// Arc `k` of state `s` as a tail: the state that it leads to, and its number among the tails of that state. `None` comes
    /// exactly where it leads to no state.
    pub fn as_tail(&self, s: u32, k: u32) -> Option<(u32, u32)>
        requires state { s < (network_of self.now).states }
        requires number { k < (network_of self.now).fan s }
        ensures head { (network_of self.now).head s k ≡ option_map (λ a. a.0) result }
        ensures tail { IfSome result (λ a. IsTail (network_of self.now) a.0 a.1 s k) }
    {
        let source = place_at(&self.env, s);
        let i = self.leaving_at(source.t, k);
        let Some(head) = end_state(&self.env, source, self.prims.get(i)) else {
            return None;
        };
        Some((head, self.tail_numbers[i as usize]))
    }

    /// The id of the primitive at index `i` of the file.
    pub fn prim_id(&self, i: u32) -> u32
        requires place { i < length self.now.prims.items }
        ensures id { (p : Primitive) × (slice_get self.now.prims.items i ≡ Some p) × (result ≡ p.id) }
    {
        self.prims.get(i).id
    }

    /// The cost by itself of the primitive at index `i` of the file, 1..16777215.
    pub fn cost_of(&self, i: u32) -> u32
        requires place { i < length self.now.prims.items }
        ensures cost { (p : Primitive) × (slice_get self.now.prims.items i ≡ Some p)
            × (result ≡ primitive_cost self.now.env p) }
        ensures positive { 1 ≤ result }
        ensures limit { result ≤ most_cost }
    {
        self.costs[i as usize]
    }

    /// The present cost of cell `(x, y)`, or `None` exactly off the map.
    pub fn cell_cost(&self, x: i64, y: i64) -> Option<u8>
        ensures value { result ≡ cost_at self.now.map x y }
        ensures on_map { IsSome result ↔ IsOnMap self.now.map x y }
    {
        self.map.cost(x, y)
    }

    /// Adds to a list the heads of all arcs with a head whose judgement reads cell `(x, y)`, as `ends_reading` does.
    pub fn heads_reading(&self, x: u32, y: u32, into: &mut Vec<u32>) -> Result<(), NoMemory>
        ensures heads { OnOk result (AddsFewEnds Ends.Head self.now (pos x) (pos y) into.old.items into.new.items) }
        ensures listed { OnOk result (into.new.items ≡ into.old.items ++ filter_map
            (end_of_read Ends.Head self.now.env self.now.prims.items (pos x) (pos y)) self.now.sweeps.reads) }
        ensures memory { OnErr result (into.new.items ≡ into.old.items) }
    {
        self.ends_reading(x, y, ArcEnd::Head, into)
    }

    /// Adds to a list the sources of all arcs with a head whose judgement reads cell `(x, y)`, as `ends_reading` does.
    pub fn tails_reading(&self, x: u32, y: u32, into: &mut Vec<u32>) -> Result<(), NoMemory>
        ensures sources { OnOk result (AddsFewEnds Ends.Source self.now (pos x) (pos y) into.old.items into.new.items) }
        ensures listed { OnOk result (into.new.items ≡ into.old.items ++ filter_map
            (end_of_read Ends.Source self.now.env self.now.prims.items (pos x) (pos y)) self.now.sweeps.reads) }
        ensures memory { OnErr result (into.new.items ≡ into.old.items) }
    {
        self.ends_reading(x, y, ArcEnd::Source, into)
    }

    /// Adds to a list the states at one end of all arcs with a head whose judgement reads cell `(x, y)`, which may be off the
    /// map: for each pair of a primitive and a cell that it reads, in the order of the table of reads, the state at that end of
    /// its arc that reads `(x, y)` as that cell, where there is one. So a state can be added more than once. After `NoMemory`
    /// the list is unchanged.
    pub fn ends_reading(
        &self,
        x: u32,
        y: u32,
        end: ArcEnd,
        into: &mut Vec<u32>,
    ) -> Result<(), NoMemory>
        ensures ends { OnOk result (AddsFewEnds end self.now (pos x) (pos y) into.old.items into.new.items) }
        ensures listed { OnOk result (into.new.items ≡ into.old.items ++ filter_map
            (end_of_read end self.now.env self.now.prims.items (pos x) (pos y)) self.now.sweeps.reads) }
        ensures memory { OnErr result (into.new.items ≡ into.old.items) }
    {
        add_ends(&self.env, &self.prims, self.sweeps.reads(), x, y, end, into)?;
        Ok(())
    }

    /// Writes cost `c` to cell `(x, y)` of the map and returns the old cost. Arcs that do not read the cell cost what they did.
    /// `OffMap` comes exactly off the map, and then nothing changes.
    pub fn set(&mut self, x: i64, y: i64, c: u8) -> Result<u8, OffMap>
        ensures on_map { IsOk result ↔ IsOnMap self.old.map x y }
        ensures old { IfOk result (λ was. cost_at self.old.map x y ≡ Some was) }
        ensures changes { OnOk result (ChangesCell self.old.map self.new.map x y c) }
        ensures others { self.new ≡ record self.old { map = self.new.map } }
        ensures refused { OnErr result (self.new ≡ self.old) }
        ensures kept { IsWorld self.new }
        ensures unread { OnOk result (UnreadCostTheSame self.old self.new x y) }
        ensures rest { DifferInCostsAlone (network_of self.new) (network_of self.old) }
    {
        let was = self.map.set(x, y, c);
        let _width = self.map.width();
        note_wall(&mut self.walls, &self.map, &self.env, x, y, c);
        was
    }
}

impl Graph for Lattice {
    ghost use Rattle.sbpl_cost.specs.Lattices.{network_of};

    ghost network = { network_of };

    fn states(&self) -> u32 {
        state_count(&self.env)
    }

    fn fan(&self, s: u32) -> u32 {
        self.leaving.at(heading_of(&self.env, s) as usize).len() as u32
    }

    fn head(&self, s: u32, k: u32) -> Option<u32> {
        let source = place_at(&self.env, s);
        let i = self.leaving_at(source.t, k);
        end_state(&self.env, source, self.prims.get(i))
    }

    fn judge(&self, s: u32, k: u32) -> Option<u32> {
        let source = place_at(&self.env, s);
        let i = self.leaving_at(source.t, k) as usize;
        let along = self.along.at(i);
        let around = self.around.at(i);
        let reach = &self.reaches[i];
        let Some(greatest) = greatest_paid(
            &self.env,
            &self.map,
            source,
            &self.walls,
            along,
            around,
            reach,
        ) else {
            return None;
        };
        Some(self.costs[i] * (u32::from(greatest) + 1))
    }

    fn floor(&self, s: u32, k: u32) -> u32 {
        let _env = self.env();
        self.cost_of(self.prim_of(s, k))
    }

    fn tail_fan(&self, t: u32) -> u32 {
        self.entering.at(heading_of(&self.env, t) as usize).len() as u32
    }

    fn tail(&self, t: u32, j: u32) -> Option<(u32, u32)> {
        let target = place_at(&self.env, t);
        let i = self.entering_at(target.t, j);
        let Some(source) = start_state(&self.env, target, self.prims.get(i)) else {
            return None;
        };
        Some((source, self.numbers[i as usize]))
    }

    fn gap(&self, a: u32, b: u32) -> u64 {
        let from = place_at(&self.env, a);
        let to = place_at(&self.env, b);
        self.gaps.between(&self.env, &from, &to)
    }
}

impl Terrain for Lattice {
    ghost use Rattle.sbpl_cost.specs.Cells.{lattice_cells};

    ghost cells = { lattice_cells };

    fn map(&self) -> &Map {
        let _env = self.env();
        &self.map
    }

    fn set(&mut self, x: i64, y: i64, c: u8) -> Result<u8, OffMap> {
        Lattice::set(self, x, y, c)
    }

    fn ends_reading(
        &self,
        x: u32,
        y: u32,
        end: ArcEnd,
        into: &mut Vec<u32>,
    ) -> Result<(), NoMemory> {
        Lattice::ends_reading(self, x, y, end, into)
    }

    fn is_terrain() {}
}
