//! The room and the robot, from values: an environment, primitives, a map, and the lattice that they make.

ghost use Rattle.std.specs.Prelude.{◌≡◌, IfOk};

use sbpl_replan::{Env, Grid, Lattice, Map, Pose, Sweeps, Write, read_prims};
use std::alloc::{AllocError, Global};

/// The cost of a free cell: driving over it costs the way alone.
pub(crate) const FREE: u8 = 0;

/// The cost of a wall, which the robot may not touch.
pub(crate) const WALL: u8 = 254;

/// The room, row by row from `y = 0`: two halves with a wall between, and in it a near door and a far one.
const ROOM: [u8; 45] = [
    0, 0, 0, 0, 0, 0, 0, 0, 0, // the far door is in this row
    0, 0, 0, 0, 254, 0, 0, 0, 0, //
    0, 0, 0, 0, 0, 0, 0, 0, 0, // the near door is in this row
    0, 0, 0, 0, 254, 0, 0, 0, 0, //
    0, 0, 0, 0, 254, 0, 0, 0, 0, //
];

/// What the robot can do, in SBPL's form: along each of the four axes a step forward, and a quarter turn to the left and to the
/// right. Of the sixteen headings these are 0, 4, 8 and 12. It is a text, since only the reader makes primitives: it judges them.
const PRIMITIVES: &str = "resolution_m: 0.1 numberofangles: 16 totalnumberofprimitives: 12
primID: 0 startangle_c: 0 endpose_c: 1 0 0 additionalactioncostmult: 1 intermediateposes: 2 0 0 0 0.1 0 0
primID: 1 startangle_c: 0 endpose_c: 0 0 4 additionalactioncostmult: 1 intermediateposes: 2 0 0 0 0 0 1.5708
primID: 2 startangle_c: 0 endpose_c: 0 0 12 additionalactioncostmult: 1 intermediateposes: 2 0 0 0 0 0 -1.5708
primID: 0 startangle_c: 4 endpose_c: 0 1 4 additionalactioncostmult: 1 intermediateposes: 2 0 0 1.5708 0 0.1 1.5708
primID: 1 startangle_c: 4 endpose_c: 0 0 8 additionalactioncostmult: 1 intermediateposes: 2 0 0 1.5708 0 0 3.1416
primID: 2 startangle_c: 4 endpose_c: 0 0 0 additionalactioncostmult: 1 intermediateposes: 2 0 0 1.5708 0 0 0
primID: 0 startangle_c: 8 endpose_c: -1 0 8 additionalactioncostmult: 1 intermediateposes: 2 0 0 3.1416 -0.1 0 3.1416
primID: 1 startangle_c: 8 endpose_c: 0 0 12 additionalactioncostmult: 1 intermediateposes: 2 0 0 3.1416 0 0 4.7124
primID: 2 startangle_c: 8 endpose_c: 0 0 4 additionalactioncostmult: 1 intermediateposes: 2 0 0 3.1416 0 0 1.5708
primID: 0 startangle_c: 12 endpose_c: 0 -1 12 additionalactioncostmult: 1 intermediateposes: 2 0 0 4.7124 0 -0.1 4.7124
primID: 1 startangle_c: 12 endpose_c: 0 0 0 additionalactioncostmult: 1 intermediateposes: 2 0 0 4.7124 0 0 6.2832
primID: 2 startangle_c: 12 endpose_c: 0 0 8 additionalactioncostmult: 1 intermediateposes: 2 0 0 4.7124 0 0 3.1416
";

/// The radius of the robot, 4 cm: it fits through a door of one cell.
const RADIUS: u64 = 40_000_000;

/// The robot's numbers, its start in the one half of the room and its goal in the other. Lengths are nanometres, times
/// nanoseconds: cells of 10 cm, 1 m/s, a quarter turn a second.
fn environment() -> Env
    ensures width { result.width ≡ 9 }
    ensures height { result.height ≡ 5 }
{
    Env {
        width: 9,
        height: 5,
        obsthresh: WALL,
        inscribed: WALL,
        circumscribed: 0,
        cell: 100_000_000,
        speed: 1_000_000_000,
        turn45: 500_000_000,
        start: Pose {
            x: 150_000_000,
            y: 250_000_000,
            theta: 0,
        },
        end: Pose {
            x: 750_000_000,
            y: 250_000_000,
            theta: 0,
        },
        headings: 16,
    }
}

/// The map of the room.
fn room(alloc: Global, env: &Env) -> Result<Map, AllocError>
    requires width { env.now.width ≡ 9 }
    requires height { env.now.height ≡ 5 }
    ensures width { IfOk result (λ m. m.width ≡ env.now.width) }
    ensures height { IfOk result (λ m. m.height ≡ env.now.height) }
{
    let costs = Vec::from_array(alloc, ROOM)?;
    Ok(Map::new(env, Grid::of(costs)))
}

/// The lattice of the room: its states are cells with headings, and its arcs the primitives.
pub(crate) fn lattice(alloc: Global) -> anyhow::Result<Lattice> {
    let env = environment();
    let prims = read_prims(alloc, PRIMITIVES.as_bytes(), env.cell, env.headings)?;
    let sweeps = Sweeps::new(alloc, &prims, RADIUS, env.cell)?;
    let map = room(alloc, &env)?;
    Ok(Lattice::new(alloc, &env, prims, sweeps, map)?)
}

/// The door in row `y` gets this cost.
pub(crate) fn door(y: u32, cost: u8) -> Write {
    Write { x: 4, y, cost }
}
