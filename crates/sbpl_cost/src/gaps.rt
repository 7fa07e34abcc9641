//! What going from one place to another costs at least, on every map.

ghost use Rattle.std.specs.Prelude.{◌≡◌, ℕ, ◌<◌, ◌≤◌, ◌-◌, ◌*◌, ◌/◌, pos, negsuc, List, map, max};
ghost use Rattle.std.specs.Prelude.{slice_get, Some};
ghost use Rattle.sbpl_sweep.specs.sbpl_cfg.Environment.{IsWithin};
ghost use Rattle.sbpl_sweep.specs.sbpl_mprim.declared.prim.Primitive.{Primitive};
ghost use Rattle.sbpl_sweep.specs.sbpl_mprim.Primitives.{IsPrimitive};
ghost use Rattle.sbpl_cost.specs.PrimitiveCost.{primitive_cost, most_cost};
ghost use Rattle.sbpl_cost.specs.Gaps.{positive_part, negative_part, advance, lesser, floor_for, floor_by};
ghost use Rattle.sbpl_cost.specs.Rates.{floor_at, gap_by, table_of, IsRate, AreGaps};
ghost use Rattle.sbpl_cost.specs.Tables.{AreCheap};

use crate::primitive_cost::bins_turned;
use crate::rate::Rate;
use crate::way::Way;
use sbpl_sweep::{Env, Place, Prim, Prims};

/// The least fractions of cost to cells of the primitives that go each way.
#[derive(Clone, Copy)]
pub(crate) struct Gaps {
    right: Rate,
    left: Rate,
    up: Rate,
    down: Rate,
    round: Rate,
}

/// The cells that a signed number of cells leads forwards, 0 where it leads backwards.
fn cells_forward(d: i32) -> u32
    requires range { IsWithin (negsuc 32766) (pos 32767) d }
    ensures cells { result ≡ positive_part d }
{
    if d > 0 { d.unsigned_abs() } else { 0 }
}

/// The cells that a signed number of cells leads backwards, 0 where it leads forwards.
fn cells_backward(d: i32) -> u32
    requires range { IsWithin (negsuc 32766) (pos 32767) d }
    ensures cells { result ≡ negative_part d }
{
    if d < 0 { d.unsigned_abs() } else { 0 }
}

/// How many cells, or bins of a turn, a primitive goes this way.
fn advance(headings: u32, way: Way, prim: &Prim) -> u32
    requires dx { IsWithin (negsuc 32766) (pos 32767) prim.now.dx }
    requires dy { IsWithin (negsuc 32766) (pos 32767) prim.now.dy }
    requires from { prim.now.from < headings }
    requires to { prim.now.to < headings }
    ensures advance { result ≡ advance headings way prim.now }
{
    match way {
        Way::Right => cells_forward(prim.dx),
        Way::Left => cells_backward(prim.dx),
        Way::Up => cells_forward(prim.dy),
        Way::Down => cells_backward(prim.dy),
        Way::Round => bins_turned(headings, prim.from, prim.to),
    }
}

/// A cost for a number of cells, where there are any.
fn fraction(cost: u32, cells: u32) -> Option<Rate>
    requires cheap { cost ≤ most_cost }
    ensures floor { (n : ℕ) → floor_at result n ≡ floor_for cost cells n }
{
    if cells == 0 {
        None
    } else {
        Some(Rate { cost, cells })
    }
}

/// The fraction of cost to cells of a primitive that costs this, where it goes this way.
fn fraction_by(env: &Env, way: Way, prim: &Prim, cost: u32) -> Option<Rate>
    requires primitive { IsPrimitive env.now.cell env.now.headings prim.now }
    requires cost { cost ≡ primitive_cost env.now prim.now }
    requires cheap { cost ≤ most_cost }
    ensures floor { (n : ℕ) → floor_at result n ≡ floor_by env.now way n prim.now }
{
    fraction(cost, advance(env.headings, way, prim))
}

/// The lesser of two fractions, either of which may be missing.
fn lesser(a: Option<Rate>, b: Option<Rate>) -> Option<Rate>
    ensures floor { (n : ℕ) → floor_at result n ≡ lesser (floor_at a n) (floor_at b n) }
{
    let Some(first) = a else {
        return b;
    };
    let Some(second) = b else {
        return a;
    };
    if second.is_less(&first) { b } else { a }
}

/// The least fraction of cost to cells of the primitives that go this way, or nothing for a cell where none does.
fn least_rate(env: &Env, prims: &[Prim], costs: &[u32], way: Way) -> Rate
    requires primitives { (i : ℕ) (p : Primitive) → slice_get prims.now i ≡ Some p
        → IsPrimitive env.now.cell env.now.headings p }
    requires costs { costs.now ≡ map (primitive_cost env.now) prims.now }
    requires cheap { AreCheap env.now prims.now }
    ensures rate { IsRate env.now prims.now way result }
{
    let mut least = None;
    for i in 0..prims.len() {
        least = lesser(least, fraction_by(env, way, &prims[i], costs[i]));
    }
    let Some(rate) = least else {
        return Rate { cost: 0, cells: 1 };
    };
    rate
}

/// What it costs to get along an axis from one cell to another, by the rates of going forwards and backwards.
fn along(from: u32, to: u32, forwards: &Rate, backwards: &Rate) -> u64
    ensures cost { result ≡ max ((to - from) * forwards.now.cost / forwards.now.cells)
        ((from - to) * backwards.now.cost / backwards.now.cells) }
{
    if from <= to {
        forwards.floor(to - from)
    } else {
        backwards.floor(from - to)
    }
}

impl Gaps {
    /// The least fractions of these primitives, which cost this.
    pub(crate) fn new(env: &Env, prims: &Prims, costs: &[u32]) -> Gaps
        requires cell { prims.now.cell ≡ env.now.cell }
        requires headings { prims.now.headings ≡ env.now.headings }
        requires costs { costs.now ≡ map (primitive_cost env.now) prims.now.items }
        requires cheap { AreCheap env.now prims.now.items }
        ensures gaps { AreGaps env.now prims.now.items result }
    {
        let prims = prims.as_slice();
        Gaps {
            right: least_rate(env, prims, costs, Way::Right),
            left: least_rate(env, prims, costs, Way::Left),
            up: least_rate(env, prims, costs, Way::Up),
            down: least_rate(env, prims, costs, Way::Down),
            round: least_rate(env, prims, costs, Way::Round),
        }
    }

    /// What going from one place to another costs at least. It takes at most three divisions.
    pub(crate) fn between(&self, env: &Env, a: &Place, b: &Place) -> u64
        requires a { a.now.t < env.now.headings }
        requires b { b.now.t < env.now.headings }
        ensures value { result ≡ gap_by (table_of env.now self.now) a.now b.now }
    {
        let x = along(a.x, b.x, &self.right, &self.left);
        let y = along(a.y, b.y, &self.up, &self.down);
        let turn = self.round.floor(bins_turned(env.headings, a.t, b.t));
        x.max(y.max(turn))
    }
}
