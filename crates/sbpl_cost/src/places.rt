//! States and their places.

ghost use Rattle.std.specs.Prelude.{◌≡◌, ◌<◌, ◌↔◌, pos, ◌+ℤ◌, ◌-ℤ◌, IsSome, IfSome, IfNone};
ghost use Rattle.sbpl_cost.specs.States.{IsPlace, IsOff, place_of, state_number, state_in, state_count, place_on_map};

use sbpl_sweep::{Env, Place, Prim};

/// How many states there are, 1 to 2^28.
pub(crate) fn state_count(env: &Env) -> u32
    ensures value { result ≡ state_count env.now }
{
    env.width * env.height * env.headings
}

/// The number of the state of cell `(x, y)` with heading `t`.
pub(crate) fn number_of(env: &Env, x: u32, y: u32, t: u32) -> u32
    requires x { x < env.now.width }
    requires y { y < env.now.height }
    requires t { t < env.now.headings }
    ensures number { result ≡ state_number env.now (record { x = x; y = y; t = t }) }
    ensures state { result < state_count env.now }
    ensures back { place_of env.now result ≡ record { x = x; y = y; t = t } }
{
    (y * env.width + x) * env.headings + t
}

/// The heading of a state.
pub(crate) fn heading_of(env: &Env, s: u32) -> u32
    ensures value { result ≡ (place_of env.now s).t }
    ensures heading { result < env.now.headings }
{
    s % env.headings
}

/// The state at a place, or `None` where it is not a place of this environment.
pub(crate) fn state_at(env: &Env, p: &Place) -> Option<u32>
    ensures value { IfSome result (λ s. s ≡ state_number env.now p.now) }
    ensures place { IsSome result ↔ IsPlace env.now p.now }
    ensures state { IfSome result (λ s. s < state_count env.now) }
    ensures back { IfSome result (λ s. place_of env.now s ≡ p.now) }
{
    let on_map = p.x < env.width && p.y < env.height && p.t < env.headings;
    if on_map {
        Some(number_of(env, p.x, p.y, p.t))
    } else {
        None
    }
}

/// The place of a state.
pub(crate) fn place_at(env: &Env, s: u32) -> Place
    requires state { s < state_count env.now }
    ensures value { result ≡ place_of env.now s }
    ensures place { IsPlace env.now result }
    ensures back { state_number env.now result ≡ s }
{
    let cell = s / env.headings;
    Place {
        x: cell % env.width,
        y: cell / env.width,
        t: s % env.headings,
    }
}

/// A coordinate as one of the `count` cells of its axis.
fn on_axis(count: u32, x: i64) -> Option<u32>
    ensures cell { IfSome result (λ q. x ≡ pos q) }
    ensures inside { IfSome result (λ q. q < count) }
    ensures outside { IfNone result (IsOff count x) }
{
    if 0 <= x && x < i64::from(count) {
        Some(x as u32)
    } else {
        None
    }
}

/// The place with heading `t` in a cell of the plane, or `None` where the cell is off the map.
pub(crate) fn place_on_map(env: &Env, x: i64, y: i64, t: u32) -> Option<Place>
    ensures value { result ≡ place_on_map env.now x y t }
    ensures on_map { IfSome result (λ p. (p.x < env.now.width) × (p.y < env.now.height)) }
    ensures heading { IfSome result (λ p. p.t ≡ t) }
{
    let column = on_axis(env.width, x)?;
    let row = on_axis(env.height, y)?;
    Some(Place {
        x: column,
        y: row,
        t,
    })
}

/// The state of a cell of the plane with heading `t`, or `None` where the cell is off the map.
fn state_in(env: &Env, x: i64, y: i64, t: u32) -> Option<u32>
    requires heading { t < env.now.headings }
    ensures value { result ≡ state_in env.now x y t }
{
    let place = place_on_map(env, x, y, t)?;
    Some(number_of(env, place.x, place.y, place.t))
}

/// The state where the motion by a primitive from this place ends, or `None` where its cell is off the map.
pub(crate) fn end_state(env: &Env, source: Place, prim: &Prim) -> Option<u32>
    requires heading { prim.now.to < env.now.headings }
    ensures value { result ≡ state_in env.now (pos source.x +ℤ prim.now.dx) (pos source.y +ℤ prim.now.dy) prim.now.to }
{
    let x = i64::from(source.x) + i64::from(prim.dx);
    let y = i64::from(source.y) + i64::from(prim.dy);
    state_in(env, x, y, prim.to)
}

/// The state from which the motion by a primitive ends at this place, or `None` where its cell is off the map.
pub(crate) fn start_state(env: &Env, target: Place, prim: &Prim) -> Option<u32>
    requires heading { prim.now.from < env.now.headings }
    ensures value { result ≡ state_in env.now (pos target.x -ℤ prim.now.dx) (pos target.y -ℤ prim.now.dy) prim.now.from }
{
    let x = i64::from(target.x) - i64::from(prim.dx);
    let y = i64::from(target.y) - i64::from(prim.dy);
    state_in(env, x, y, prim.from)
}
