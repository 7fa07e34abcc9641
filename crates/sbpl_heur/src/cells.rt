//! The cells of a map, and the hops between them.

ghost use Rattle.std.specs.Prelude.{◌≡◌, ◌+◌, ◌*◌, ◌/◌, ◌%◌, ◌^◌, ◌<◌, ◌≤◌, ◌↔◌, ◌+ℤ◌, pos};
ghost use Rattle.std.specs.Prelude.{length, slice_index, slice_set};
ghost use Rattle.std.specs.Prelude.{IsTrue, IfOk, IfSome, IfNone, [], vec_capacity, ℕ, Some, MatchOption, nat_lt, ◌&&◌};
ghost use Rattle.sbpl_serial.specs.sbpl_graph.declared.TheConstants.{FAR};
ghost use Rattle.sbpl_cost.specs.PrimitiveCost.{most_cost};
ghost use Rattle.sbpl_cost.specs.States.{IsOff};
ghost use Rattle.sbpl_heur.specs.Boards.{IsBoard, cell_in, step_cost, cell_count};
ghost use Rattle.sbpl_heur.specs.Boards.{start_of, end_of, cost_of};
ghost use Rattle.sbpl_heur.specs.Spots.{IsSpot, IsReach, IsInner, IsOver};
ghost use Rattle.sbpl_heur.specs.Boards.{AreLight, cell_before};
ghost use Rattle.sbpl_heur.specs.Followed.{IsArc, IsWall};
ghost use Rattle.std.specs.Prelude.{slice_get, ◌≤ℤ◌, ◌<ℤ◌, ◌-ℤ◌};
ghost use Rattle.sbpl_heur.specs.declared.hop.Hop.{Hop};

use crate::hop::Hop;
use sbpl_cost::{Env, Pose};
use sbpl_serial::{FAR, NoMemory};
use std::alloc::Global;
use std::marker::Model;

/// The cells of a map, row by row, and the hops that lead from cell to cell. It keeps the costs of the cells that it was
/// made for.
#[derive(Drop)]
pub(crate) struct Cells {
    env: Env,
    costs: Vec<u8>,
    hops: Vec<Hop>,
}

/// The column and the row of a cell.
#[derive(Clone, Copy)]
pub(crate) struct Spot {
    x: u32,
    y: u32,
}

/// How far hops lead along each axis, at most.
#[derive(Clone, Copy)]
pub(crate) struct Reach {
    x: u32,
    y: u32,
}

impl Model for Cells {
    ghost use Rattle.std.specs.Prelude.{vec_capacity};
    ghost use Rattle.sbpl_heur.specs.Boards.{Board, IsBoard};

    ghost Value = { Board };

    ghost view = { λ c. record { env = c.env; costs = c.costs.items; hops = c.hops.items; room = vec_capacity c.hops } };

    ghost invariant = { λ c. IsBoard (record {
      env = c.env;
      costs = c.costs.items;
      hops = c.hops.items;
      room = vec_capacity
          c.hops;
    }) };
}

/// A coordinate as one of the `count` cells of its axis.
fn on_axis(count: u32, x: i64) -> Option<u32>
    ensures cell { IfSome result (λ q. x ≡ pos q) }
    ensures inside { IfSome result (λ q. q < count) }
    ensures outside { IfNone result (IsOff count x) }
{
    if x < 0 {
        return None;
    }
    if x < i64::from(count) {
        Some(x as u32)
    } else {
        None
    }
}

/// The number of the cell in this column and row.
fn number_of(env: &Env, x: u32, y: u32) -> u32
    requires column { x < env.now.width }
    requires row { y < env.now.height }
    ensures number { result ≡ y * env.now.width + x }
    ensures inside { result < env.now.width * env.now.height }
{
    y * env.width + x
}

/// The cell in this column and row, or `None` off the map.
fn cell_in(env: &Env, x: i64, y: i64) -> Option<u32>
    ensures value { result ≡ cell_in env.now x y }
    ensures inside { IfSome result (λ cell. cell < env.now.width * env.now.height) }
{
    let column = on_axis(env.width, x)?;
    let row = on_axis(env.height, y)?;
    Some(number_of(env, column, row))
}

/// The column of a cell.
fn column_of(env: &Env, cell: u32) -> u32
    ensures column { result ≡ cell % env.now.width }
{
    cell % env.width
}

/// The row of a cell.
fn row_of(env: &Env, cell: u32) -> u32
    ensures row { result ≡ cell / env.now.width }
{
    cell / env.width
}

/// The coordinate from which this many cells lead to another.
fn coordinate_before(x: u32, d: i32) -> i64
    ensures before { pos x ≡ result +ℤ d }
{
    i64::from(x) - i64::from(d)
}

/// The coordinate to which this many cells lead from another.
fn coordinate_after(x: u32, d: i32) -> i64
    ensures after { result ≡ pos x +ℤ d }
{
    i64::from(x) + i64::from(d)
}

/// A coordinate of one of the `count` cells of an axis.
fn as_cell(count: u32, x: i64) -> u32
    requires low { pos 0 ≤ℤ x }
    requires high { x <ℤ pos count }
    ensures cell { x ≡ pos result }
    ensures inside { result < count }
{
    x as u32
}

/// The coordinate from which this many cells lead to another, on an axis of `count` cells.
fn inner_coordinate(count: u32, x: u32, d: i32) -> u32
    requires over { IsOver count x d }
    ensures before { pos x ≡ pos result +ℤ d }
    ensures inside { result < count }
{
    as_cell(count, coordinate_before(x, d))
}

/// The cell from which a hop leads to the inner cell at this spot.
fn inner_before(env: &Env, spot: Spot, hop: &Hop) -> u32
    requires column { IsOver env.now.width spot.x hop.now.dx }
    requires row { IsOver env.now.height spot.y hop.now.dy }
    ensures value { cell_in env.now (pos spot.x -ℤ hop.now.dx) (pos spot.y -ℤ hop.now.dy) ≡ Some result }
    ensures inside { result < env.now.width * env.now.height }
{
    let x = inner_coordinate(env.width, spot.x, hop.dx);
    let y = inner_coordinate(env.height, spot.y, hop.dy);
    number_of(env, x, y)
}

/// The first of these hops from `from` on whose start lies farther than the hop's cost, taken `times`, from a cell at this distance;
/// or how many hops there are.
fn first_farther(
    env: &Env,
    hops: &[Hop],
    distances: &[u64],
    spot: Spot,
    distance: u64,
    times: u32,
    from: u32,
) -> u32
    requires light { AreLight hops.now }
    requires few { length hops.now ≤ 4096 }
    requires size { length distances.now ≡ env.now.width * env.now.height }
    requires inner { IsInner env.now hops.now spot }
    requires low { distance ≤ FAR }
    requires times { times ≤ 256 }
    requires from { from < length hops.now }
    ensures from { from ≤ result }
    ensures within { result ≤ length hops.now }
    ensures skipped { (j a : ℕ) (h : Hop) → from ≤ j → j < result → slice_get hops.now j ≡ Some h
        → cell_in env.now (pos spot.x -ℤ h.dx) (pos spot.y -ℤ h.dy) ≡ Some a
        → slice_index distances.now a ≤ h.cost * times + distance }
{
    for j in from..hops.len() as u32 {
        let hop = &hops[j as usize];
        let start = inner_before(env, spot, hop);
        if u64::from(hop.cost * times) + distance < distances[start as usize] {
            return j;
        }
    }
    hops.len() as u32
}

/// Whether a coordinate is this far or farther from both ends of an axis of `count` cells.
fn is_clear(count: u32, x: u32, reach: u32) -> bool
    ensures clear { IsTrue result ↔ ((reach ≤ x) × (x + reach < count)) }
{
    reach <= x && u64::from(x) + u64::from(reach) < u64::from(count)
}

/// Whether a step to a cell of this cost may be free.
fn is_end_free(env: &Env, end: u8) -> bool
    ensures free { IsTrue result ↔ ((end < env.now.obsthresh) × (end < env.now.inscribed)) }
{
    end < env.obsthresh && end < env.inscribed
}

/// Whether a step between cells of these costs is free: both are below `obsthresh`, and the end is below the inscribed threshold.
fn is_free(env: &Env, start: u8, end: u8) -> bool
    ensures free { result ≡ (nat_lt start env.now.obsthresh && (nat_lt end env.now.obsthresh && nat_lt end env.now.inscribed)) }
{
    start < env.obsthresh && end < env.obsthresh && end < env.inscribed
}

/// What a step by a hop costs between cells of these costs, or `FAR` where it is not free. Both are computed, so that no branch
/// depends on obstacles, which come in no order.
fn step_weight(env: &Env, hop: &Hop, start: u8, end: u8) -> u64
    requires light { hop.now.cost ≤ most_cost }
    ensures weight { MatchOption (step_cost env.now hop.now start end) (result ≡ FAR) (λ cost. result ≡ cost) }
{
    let cost = u64::from(hop.cost * (u32::from(start.max(end)) + 1));
    if is_free(env, start, end) { cost } else { FAR }
}

/// Whether two environments have maps of one size, with the same thresholds and the same number of headings.
fn have_same_cells(env: &Env, other: &Env) -> bool
    ensures width { IsTrue result → env.now.width ≡ other.now.width }
    ensures height { IsTrue result → env.now.height ≡ other.now.height }
    ensures obsthresh { IsTrue result → env.now.obsthresh ≡ other.now.obsthresh }
    ensures inscribed { IsTrue result → env.now.inscribed ≡ other.now.inscribed }
    ensures headings { IsTrue result → env.now.headings ≡ other.now.headings }
{
    env.width == other.width
        && env.height == other.height
        && env.obsthresh == other.obsthresh
        && env.inscribed == other.inscribed
        && env.headings == other.headings
}

/// Whether two environments have the same cell size, speed and time to turn.
fn have_same_rates(env: &Env, other: &Env) -> bool
    ensures circumscribed { IsTrue result → env.now.circumscribed ≡ other.now.circumscribed }
    ensures cell { IsTrue result → env.now.cell ≡ other.now.cell }
    ensures speed { IsTrue result → env.now.speed ≡ other.now.speed }
    ensures turn45 { IsTrue result → env.now.turn45 ≡ other.now.turn45 }
{
    env.circumscribed == other.circumscribed
        && env.cell == other.cell
        && env.speed == other.speed
        && env.turn45 == other.turn45
}

/// Whether two poses are the same.
fn is_at(pose: &Pose, other: &Pose) -> bool
    ensures same { IsTrue result → pose.now ≡ other.now }
{
    pose.x == other.x && pose.y == other.y && pose.theta == other.theta
}

/// Whether two environments have the same start and the same end.
fn have_same_ends(env: &Env, other: &Env) -> bool
    ensures start { IsTrue result → env.now.start ≡ other.now.start }
    ensures end { IsTrue result → env.now.end ≡ other.now.end }
{
    is_at(&env.start, &other.start) && is_at(&env.end, &other.end)
}

/// Whether two environments are the same.
#[tactic(auto, using(crate::proofs::Environments::same_environment))]
fn is_same(env: &Env, other: &Env) -> bool
    ensures same { IsTrue result → env.now ≡ other.now }
{
    have_same_cells(env, other) && have_same_rates(env, other) && have_same_ends(env, other)
}

/// Whether two hops are the same.
fn is_like(hop: &Hop, other: &Hop) -> bool
    ensures same { IsTrue result → hop.now ≡ other.now }
{
    hop.dx == other.dx && hop.dy == other.dy && hop.cost == other.cost
}

/// Whether two lists have the same hops in the same order.
fn have_same(hops: &[Hop], others: &[Hop]) -> bool
    ensures same { IsTrue result → hops.now ≡ others.now }
{
    if hops.len() != others.len() {
        return false;
    }
    for j in 0..hops.len() {
        if !is_like(&hops[j], &others[j]) {
            return false;
        }
    }
    true
}

/// Makes a list one of these hops, without memory.
fn copy_hops(hops: &[Hop], into: &mut Vec<Hop>)
    requires room { length hops.now ≤ vec_capacity into.old }
    ensures items { into.new.items ≡ hops.now }
    ensures room { vec_capacity into.new ≡ vec_capacity into.old }
{
    into.clear();
    for hop in hops {
        into.push_reserved(*hop);
    }
}

impl Cells {
    /// The cells of an environment, without hops, with room for this number of them.
    pub(crate) fn new(alloc: Global, env: &Env, costs: &[u8], room: u32) -> Result<Cells, NoMemory>
        requires board { IsBoard (record { env = env.now; costs = costs.now; hops = []; room = room }) }
        ensures board { IfOk result (λ c. c ≡ record { env = env.now; costs = costs.now; hops = []; room = room }) }
    {
        let mut copy = vec![in alloc; 0; costs.len()]?;
        copy.copy_from_slice(costs);
        let hops = Vec::with_capacity(alloc, room as usize)?;
        Ok(Cells {
            env: *env,
            costs: copy,
            hops,
        })
    }

    /// The number of cells.
    pub(crate) fn count(&self) -> u32
        ensures value { result ≡ cell_count self.now }
        ensures few { result ≤ 2 ^ 28 }
        ensures kept { IsBoard self.now }
    {
        self.costs.len() as u32
    }

    /// Whether the graph is of this environment and has these hops.
    pub(crate) fn is_made_of(&self, env: &Env, hops: &[Hop]) -> bool
        ensures env { IsTrue result → self.now.env ≡ env.now }
        ensures hops { IsTrue result → self.now.hops ≡ hops.now }
    {
        is_same(&self.env, env) && have_same(self.hops.as_slice(), hops)
    }

    /// Whether a cell costs this.
    pub(crate) fn has_cost(&self, cell: u32, cost: u8) -> bool
        requires cell { cell < cell_count self.now }
        ensures value { IsTrue result ↔ (slice_index self.now.costs cell ≡ cost) }
    {
        self.costs[cell as usize] == cost
    }

    /// How many cells have a cost that differs from that in a list of all costs.
    pub(crate) fn count_changed(&self, costs: &[u8]) -> u32
        requires size { length costs.now ≡ cell_count self.now }
    {
        let mut changed = 0;
        for i in 0..costs.len() {
            if self.costs[i] != costs[i] {
                changed += 1;
            }
        }
        changed
    }

    /// Gives a cell a cost.
    pub(crate) fn set(&mut self, cell: u32, cost: u8)
        requires cell { cell < cell_count self.old }
        ensures set { self.new ≡ record self.old { costs = slice_set self.old.costs cell cost } }
        ensures kept { IsBoard self.new }
    {
        self.costs[cell as usize] = cost;
    }

    /// Becomes the graph of an environment, these costs and these hops.
    pub(crate) fn renew(&mut self, env: &Env, costs: &[u8], hops: &[Hop])
        requires same_size { length costs.now ≡ cell_count self.old }
        requires room { length hops.now ≤ self.old.room }
        requires board { IsBoard (record { env = env.now; costs = costs.now; hops = hops.now; room = self.old.room }) }
        ensures board { self.new ≡ record { env = env.now; costs = costs.now; hops = hops.now; room = self.old.room } }
    {
        self.env = *env;
        self.costs.copy_from_slice(costs);
        copy_hops(hops, &mut self.hops);
    }
}

impl Cells {
    /// Where a cell lies.
    pub(crate) fn spot_of(&self, cell: u32) -> Spot
        ensures spot { IsSpot self.now.env cell result }
    {
        Spot {
            x: column_of(&self.env, cell),
            y: row_of(&self.env, cell),
        }
    }

    /// The number of hops.
    pub(crate) fn fan(&self) -> u32
        ensures value { result ≡ length self.now.hops }
    {
        self.hops.len() as u32
    }

    /// The cell from which hop `k` leads to the cell at this spot, or `None` where that is off the map.
    pub(crate) fn before(&self, cell: u32, spot: Spot, k: u32) -> Option<u32>
        requires spot { IsSpot self.now.env cell spot }
        requires hop { k < length self.now.hops }
        ensures inside { IfSome result (λ start. start < cell_count self.now) }
        ensures value { result ≡ start_of self.now cell k }
    {
        let hop = &self.hops[k as usize];
        let x = coordinate_before(spot.x, hop.dx);
        let y = coordinate_before(spot.y, hop.dy);
        cell_in(&self.env, x, y)
    }

    /// The cell to which hop `k` leads from the cell at this spot, or `None` where that is off the map.
    pub(crate) fn after(&self, cell: u32, spot: Spot, k: u32) -> Option<u32>
        requires spot { IsSpot self.now.env cell spot }
        requires hop { k < length self.now.hops }
        ensures inside { IfSome result (λ end_. end_ < cell_count self.now) }
        ensures value { result ≡ end_of self.now cell k }
    {
        let hop = &self.hops[k as usize];
        let x = coordinate_after(spot.x, hop.dx);
        let y = coordinate_after(spot.y, hop.dy);
        cell_in(&self.env, x, y)
    }

    /// Whether a cell is an obstacle.
    pub(crate) fn is_wall(&self, cell: u32) -> bool
        requires cell { cell < cell_count self.now }
        ensures wall { IsTrue result ↔ IsWall self.now cell }
    {
        self.costs[cell as usize] >= self.env.obsthresh
    }

    /// How far hops lead along each axis, at most.
    pub(crate) fn reach(&self) -> Reach
        ensures reach { IsReach self.now.hops result }
    {
        let mut reach = Reach { x: 0, y: 0 };
        for hop in self.hops.as_slice() {
            reach.x = reach.x.max(hop.dx.unsigned_abs());
            reach.y = reach.y.max(hop.dy.unsigned_abs());
        }
        reach
    }

    /// Whether a spot is farther from each border than hops lead.
    pub(crate) fn is_inner(&self, spot: Spot, reach: Reach) -> bool
        requires reach { IsReach self.now.hops reach }
        ensures inner { IsTrue result → IsInner self.now.env self.now.hops spot }
    {
        if !is_clear(self.env.width, spot.x, reach.x) {
            return false;
        }
        is_clear(self.env.height, spot.y, reach.y)
    }

    /// The first hop from `k` on that may lower, in this list of distances, that of the cell from which it leads to an inner one; or
    /// how many hops there are. Of the costs it looks at the cell's alone.
    pub(crate) fn next_nearer(&self, distances: &[u64], cell: u32, spot: Spot, k: u32) -> u32
        requires size { length distances.now ≡ cell_count self.now }
        requires cell { cell < cell_count self.now }
        requires low { slice_index distances.now cell ≤ FAR }
        requires spot { IsSpot self.now.env cell spot }
        requires hop { k < length self.now.hops }
        requires inner { IsInner self.now.env self.now.hops spot }
        ensures from { k ≤ result }
        ensures within { result ≤ length self.now.hops }
        ensures skipped { (a j weight : ℕ) → k ≤ j → j < result → IsArc self.now a cell j weight
            → slice_index distances.now a ≤ weight + slice_index distances.now cell }
    {
        let end = self.costs[cell as usize];
        if !is_end_free(&self.env, end) {
            return self.hops.len() as u32;
        }
        first_farther(
            &self.env,
            self.hops.as_slice(),
            distances,
            spot,
            distances[cell as usize],
            u32::from(end) + 1,
            k,
        )
    }

    /// What hop `k` costs from a cell to another one, or `FAR` where that step is not free.
    pub(crate) fn weight(&self, start: u32, end: u32, k: u32) -> u64
        requires start { start < cell_count self.now }
        requires end { end < cell_count self.now }
        requires hop { k < length self.now.hops }
        ensures weight { MatchOption (cost_of self.now start end k) (result ≡ FAR) (λ cost. result ≡ cost) }
    {
        step_weight(
            &self.env,
            &self.hops[k as usize],
            self.costs[start as usize],
            self.costs[end as usize],
        )
    }

    /// The least and the greatest cost of a hop.
    pub(crate) fn hop_costs(&self) -> (u32, u32) {
        let mut least = u32::MAX;
        let mut most = 0;
        for hop in self.hops.as_slice() {
            least = least.min(hop.cost);
            most = most.max(hop.cost);
        }
        (least, most)
    }
}
