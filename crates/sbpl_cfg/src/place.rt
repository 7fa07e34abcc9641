//! Where a pose lies on the lattice.

ghost use Rattle.std.specs.Prelude.{◌≡◌, ◌<◌, ◌↔◌, ℕ, ℤ, pos, ◌<ℤ◌, is_some, IsSome, IfSome};
ghost use Rattle.sbpl_cfg.specs.Environment.{is_on_axis, is_on_map, IsOnAxis, IsPlaceOf, IsPoseOnMap};
ghost use Rattle.sbpl_cfg.specs.Place.{cell_of, heading_of, turn_of, IsCellOf, IsHalfway, IsInBin, IsTurnOf};

use crate::env::Env;
use crate::pose::{Place, Pose};

/// A full turn, in nanoradians (this project's profile: `2 * pi` cut to whole nanoradians).
pub const TAU: i64 = 6_283_185_307;

/// The cell of a coordinate on a grid whose cells have the side `size`: the floor of the quotient, also below zero.
/// Both are nanometres.
pub fn cell_at(size: i64, x: i64) -> i64
    requires size { pos 0 <ℤ size }
    ensures cell { result ≡ cell_of size x }
{
    x.div_euclid(size)
}

/// The heading of an angle in nanoradians, among `headings` equal bins that are centred on the multiples of
/// `TAU / headings`: the nearest bin. Two are never equally near, whatever the number of headings, since `TAU` is odd.
#[tactic(auto, unfolding(crate::specs::Place::heading_of))]
pub fn heading_at(headings: u32, angle: i64) -> u32
    requires some { 0 < headings }
    ensures heading { result ≡ heading_of headings angle }
    ensures bound { result < headings }
{
    let turn = angle.rem_euclid(TAU) as u128;
    let full = TAU as u128;
    let count = u128::from(headings);
    ((2 * count * turn + full) / (2 * full) % count) as u32
}

/// The cell of a coordinate, where it is one of the `count` cells of its axis.
fn cell_on_axis(size: i64, count: u32, x: i64) -> Option<u32>
    requires size { pos 0 <ℤ size }
    ensures cell { IfSome result (λ q. pos q ≡ cell_of size x) }
    ensures bound { IfSome result (λ q. q < count) }
    ensures on_axis { is_some result ≡ is_on_axis size count x }
    ensures inside { IsSome result ↔ IsOnAxis size count x }
{
    let cell = cell_at(size, x);
    if cell < 0 || cell >= i64::from(count) {
        return None;
    }
    Some(cell as u32)
}

/// Whether a pose is on a map of `width` times `height` cells of the side `size`.
pub(crate) fn is_on_map(size: i64, width: u32, height: u32, p: &Pose) -> bool
    requires size { pos 0 <ℤ size }
    ensures on_map { result ≡ is_on_map size width height p.now }
{
    cell_on_axis(size, width, p.x).is_some() && cell_on_axis(size, height, p.y).is_some()
}

/// The cell and the heading of a pose. `None` exactly where the cell is off the map.
pub fn place_at(env: &Env, p: &Pose) -> Option<Place>
    ensures on_map { IsSome result ↔ IsPoseOnMap env.now p.now }
    ensures place { IfSome result (IsPlaceOf env.now p.now) }
    ensures bounds { IfSome result (λ q.
        (q.x < env.now.width) × (q.y < env.now.height) × (q.t < env.now.headings)) }
{
    let x = cell_on_axis(env.cell, env.width, p.x)?;
    let y = cell_on_axis(env.cell, env.height, p.y)?;
    let t = heading_at(env.headings, p.theta);
    Some(Place { x, y, t })
}

/// What a cell and a heading are, in plain words. Cell `q` of a coordinate is the one with
/// `q * size <= x < (q + 1) * size`. An angle and its turn, which is in `0..TAU`, differ by whole turns. A heading is that
/// of the bin whose centre is at most half a bin away. There is one such bin: whatever the number of headings, no angle lies
/// halfway between two, since a full turn has an odd number of nanoradians.
pub fn places_in_plain_words()
    ensures cell { (size x q : ℤ) → pos 0 <ℤ size → (cell_of size x ≡ q) ↔ IsCellOf size x q }
    ensures turn { (a : ℤ) → IsTurnOf a (turn_of a) }
    ensures heading { (n t : ℕ) (a : ℤ) → t < n → (heading_of n a ≡ t) ↔ IsInBin n t (turn_of a) }
    ensures some { (n : ℕ) (a : ℤ) → 0 < n → heading_of n a < n }
    ensures no_tie { (n c b : ℕ) → ¬ IsHalfway n c b }
{}
