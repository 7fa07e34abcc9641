//! How far a disc reaches beyond the cell in which its centre lies, in half nanometres.

ghost use Rattle.std.specs.Prelude.{◌≡◌, ◌↔◌, ℕ, pos, negsuc, ◌+◌, ◌*◌, ◌^◌, ◌<◌, ◌≤◌, IsTrue};
ghost use Rattle.sbpl_mprim.specs.sbpl_cfg.Environment.{IsWithin};
ghost use Rattle.sbpl_sweep.specs.Reach.{squared_step, IsReach, IsAxis};

use sbpl_mprim::cell_at;

/// Where a point lies on one axis: the cell that it is in, and how far the cell's sides are from it.
#[derive(Clone, Copy)]
pub(crate) struct Axis {
    pub(crate) own: i64,
    pub(crate) before: u64,
    pub(crate) after: u64,
}

/// Where a point lies on an axis with cells of this side.
pub(crate) fn axis_at(side: u64, at: i64) -> Axis
    requires side { (1 ≤ side) × (side ≤ 2 * 10 ^ 12) }
    requires point { IsWithin (negsuc 2999999999999) (pos 3000000000000) at }
    ensures axis { IsAxis side at result }
    ensures own { IsWithin (negsuc 2999999999999) (pos 3000000000000) result.own }
    ensures before { result.before < side }
    ensures after { result.after ≤ side }
{
    let before = at.rem_euclid(side as i64) as u64;
    Axis {
        own: cell_at(side as i64, at),
        before,
        after: side - before,
    }
}

/// Whether the cell with number `n` beyond the next one begins nearer than the root of `most`.
fn is_reached(gap: u64, side: u64, n: u64, most: u128) -> bool
    requires inside { gap + side * n ≤ 2 ^ 62 }
    ensures reached { IsTrue result ↔ (squared_step gap side n < most) }
{
    let step = u128::from(gap + side * n);
    step * step < most
}

/// How many cells beyond the point's own begin nearer than `radius`.
pub(crate) fn reach_of(gap: u64, side: u64, radius: u64) -> u64
    requires side { (1 ≤ side) × (side ≤ 2 * 10 ^ 12) }
    requires gap { gap ≤ side }
    requires radius { radius ≤ 2 * 10 ^ 12 }
    ensures reach { IsReach gap side (radius * radius) result }
    ensures inside { gap + side * result ≤ 4 * 10 ^ 12 }
    ensures few { result ≤ 4 * 10 ^ 12 }
{
    if radius <= gap {
        return 0;
    }
    (radius - gap).div_ceil(side)
}

/// How many of `reach` cells beyond the point's own begin nearer than the root of `most`, where those beyond do not.
pub(crate) fn shrunk(reach: u64, gap: u64, side: u64, most: u128) -> u64
    requires inside { gap + side * reach ≤ 4 * 10 ^ 12 }
    requires beyond { (n : ℕ) → reach ≤ n → most ≤ squared_step gap side n }
    ensures reach { IsReach gap side most result }
    ensures less { result ≤ reach }
    ensures inside { gap + side * result ≤ 4 * 10 ^ 12 }
{
    let mut count = reach;
    while count > 0 && !is_reached(gap, side, count - 1, most) {
        count -= 1;
    }
    count
}
