//! The cost of a primitive by itself: SBPL's rule, in whole numbers.

ghost use Rattle.std.specs.Prelude.{◌≡◌, ◌≢◌, ℕ, pos, negsuc, ◌-ℤ◌, ◌+◌, ◌*◌, ◌^◌, ◌<◌};
ghost use Rattle.std.specs.Prelude.{◌≤◌, length, slice_get, Some};
ghost use Rattle.std.specs.Prelude.{IfSome, IfNone};
ghost use Rattle.sbpl_sweep.specs.sbpl_cfg.declared.pose.Pose.{Pose};
ghost use Rattle.sbpl_sweep.specs.sbpl_cfg.Environment.{IsWithin};
ghost use Rattle.sbpl_sweep.specs.sbpl_mprim.Primitives.{IsPrimitive, IsOffsetInRange, pose_count};
ghost use Rattle.sbpl_cost.specs.PrimitiveCost.{squared, distance, way_length, heading_gap, linear_time, angular_time};
ghost use Rattle.sbpl_cost.specs.PrimitiveCost.{primitive_cost, most_cost, IsTooDear, DistancesRoundUp, CeilingsRoundUp};
ghost use Rattle.sbpl_cost.specs.PrimitiveCost.{GapsAreShortest};

use sbpl_sweep::{Env, Pose, Prim, ceil_div, ceil_root};

/// The greatest cost that a primitive may have.
pub const MOST_COST: u32 = 16_777_215;

/// The square of how far two coordinates of poses are apart, in square nanometres.
fn squared_difference(a: i64, b: i64) -> u128
    requires a { IsWithin (negsuc 999999999999) (pos 1000000000000) a }
    requires b { IsWithin (negsuc 999999999999) (pos 1000000000000) b }
    ensures value { result ≡ squared (a -ℤ b) }
    ensures small { result ≤ 4 * 10 ^ 24 }
{
    let apart = u128::from(a.abs_diff(b));
    apart * apart
}

/// The distance of two poses in nanometres, rounded up.
fn pose_distance(p: &Pose, q: &Pose) -> u64
    requires p_in_range { IsOffsetInRange p.now }
    requires q_in_range { IsOffsetInRange q.now }
    ensures value { result ≡ distance p.now q.now }
    ensures small { result ≤ 3 * 10 ^ 12 }
{
    ceil_root(squared_difference(p.x, q.x) + squared_difference(p.y, q.y))
}

/// The distances of consecutive poses in nanometres, together.
fn length_of_way(poses: &[Pose]) -> u64
    requires count { length poses.now ≤ 200000 }
    requires in_range { (i : ℕ) (p : Pose) → slice_get poses.now i ≡ Some p → IsOffsetInRange p }
    ensures value { result ≡ way_length poses.now }
    ensures small { result ≤ 3 * 10 ^ 12 * length poses.now }
{
    let mut total: u64 = 0;
    for i in 1..poses.len() {
        total += pose_distance(&poses[i - 1], &poses[i]);
    }
    total
}

/// By how many of `headings` bins two headings differ, the shorter way round.
pub(crate) fn bins_turned(headings: u32, from: u32, to: u32) -> u32
    requires from { from < headings }
    requires to { to < headings }
    ensures bins { result ≡ heading_gap headings from to }
{
    let apart = from.abs_diff(to);
    apart.min(headings - apart)
}

/// The milliseconds that the way takes at the nominal speed, rounded up.
fn milliseconds_of_way(p: &Prim, env: &Env) -> u128
    requires primitive { IsPrimitive env.now.cell env.now.headings p.now }
    requires few_poses { pose_count p.now ≤ 200000 }
    ensures value { result ≡ linear_time env.now p.now }
    ensures positive { 0 < way_length p.now.poses → 1 ≤ result }
    ensures small { result ≤ 10 ^ 21 }
{
    let way = u128::from(length_of_way(p.poses.as_slice()));
    ceil_div(1000 * way, u128::from(env.speed.unsigned_abs()))
}

/// The milliseconds that the turn takes, rounded up.
fn milliseconds_of_turn(p: &Prim, env: &Env) -> u128
    requires primitive { IsPrimitive env.now.cell env.now.headings p.now }
    ensures value { result ≡ angular_time env.now p.now }
    ensures positive { p.now.from ≢ p.now.to → 1 ≤ result }
    ensures small { result ≤ 10 ^ 26 }
{
    let bins = u128::from(bins_turned(env.headings, p.from, p.to));
    let turn45 = u128::from(env.turn45.unsigned_abs());
    let all_bins = u128::from(env.headings) * 1_000_000_000;
    ceil_div(8000 * bins * turn45, all_bins)
}

/// The cost of a primitive of a file that was read for this environment's cell size and headings: its multiplier
/// times the milliseconds that the way along its poses takes at the nominal speed, or that its turn takes, whichever
/// are more, each rounded up. A turn goes the shorter way round, and 45 degrees of it take the time that the
/// environment gives. None where the cost is above `MOST_COST`.
///
/// This is SBPL's rule in whole numbers. That the distance of each two consecutive poses is rounded up to whole
/// nanometres is this project's profile.
pub fn prim_cost(p: &Prim, env: &Env) -> Option<u32>
    requires primitive { IsPrimitive env.now.cell env.now.headings p.now }
    requires few_poses { pose_count p.now ≤ 200000 }
    ensures value { IfSome result (λ c. c ≡ primitive_cost env.now p.now) }
    ensures limit { IfSome result (λ c. c ≤ most_cost) }
    ensures none { IfNone result (IsTooDear env.now p.now) }
    ensures positive { IfSome result (λ c. 1 ≤ c) }
{
    let time = milliseconds_of_way(p, env).max(milliseconds_of_turn(p, env));
    let cost = u128::from(p.mult) * time;
    if cost <= u128::from(MOST_COST) {
        Some(cost as u32)
    } else {
        None
    }
}

/// What a primitive's cost rests on: distances and times are rounded up to the next whole number, and headings
/// differ by the fewest bins. It does nothing.
pub fn cost_parts_are_least()
    ensures distances { DistancesRoundUp }
    ensures ceilings { CeilingsRoundUp }
    ensures gaps { GapsAreShortest }
{}
