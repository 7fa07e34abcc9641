//! The lattice of two texts.

use sbpl_heur::{Env, Grid, Lattice, Map, Prims, Sweeps, read_env, read_prims};
use std::alloc::Global;

/// The lattice of these parts for a robot of radius 0. `None` where they do not belong together, or where there is none.
fn swept(alloc: Global, env: &Env, grid: Grid, prims: Prims) -> Option<Lattice> {
    if prims.cell() != env.cell
        || prims.headings() != env.headings
        || grid.as_slice().len() as u64 != u64::from(env.width) * u64::from(env.height)
    {
        return None;
    }
    let sweeps = Sweeps::new(alloc, &prims, 0, prims.cell()).ok()?;
    Lattice::new(alloc, env, prims, sweeps, Map::new(env, grid)).ok()
}

/// The lattice of two texts for a robot of radius 0, where there is one.
pub(crate) fn made(alloc: Global, env: &str, prims: &str) -> Option<Lattice> {
    let (env, grid) = read_env(alloc, env.as_bytes(), 8_388_608).ok()?;
    let prims = read_prims(alloc, prims.as_bytes(), env.cell, env.headings).ok()?;
    swept(alloc, &env, grid, prims)
}
