//! How many cells sweeps may have, by hand.

use sbpl_heur::{SweepFault, Sweeps, read_prims};
use std::alloc::{AllocError, Global};

/// A primitive from heading 0 to the next cell along x, with cells of 25 millimetres, but for its id.
const AHEAD: &str = "
startangle_c: 0
endpose_c: 1 0 0
additionalactioncostmult: 1
intermediateposes: 2
0.0000 0.0000 0.0000
0.0250 0.0000 0.0000
";

/// A file of `count` such primitives.
fn ahead(alloc: Global, count: u8) -> Result<String, AllocError> {
    let mut text = format!(in alloc;
        "resolution_m: 0.025 numberofangles: 16 totalnumberofprimitives: {count}"
    )?;
    for id in 0..count {
        write!(text, "\nprimID: {id}{AHEAD}")?;
    }
    Ok(text)
}

/// The sweeps of `count` such primitives.
fn sweeps_of(alloc: Global, count: u8, radius: u64) -> Option<Result<Sweeps, SweepFault>> {
    let text = ahead(alloc, count).ok()?;
    let read = read_prims(alloc, text.as_bytes(), 25_000_000, 16);
    drop(text);
    let prims = read.ok()?;
    if prims.len() != u32::from(count) || radius > 1_000_000_000_000 {
        return None;
    }
    Some(Sweeps::new(alloc, &prims, radius, prims.cell()))
}

/// How many of `count` such primitives have sweeps, or why there are none.
fn swept(alloc: Global, count: u8, radius: u64) -> Option<Result<u32, SweepFault>> {
    Some(sweeps_of(alloc, count, radius)?.map(|sweeps| sweeps.count()))
}

#[test]
fn too_wide_names_the_first_primitive(rt: HostRuntime) {
    // A disc has 65,264 cells, and 64 of them are few enough.
    let wide = swept(rt.alloc(), 65, 3_580_000_000);
    let narrow = swept(rt.alloc(), 64, 3_580_000_000);
    assert!(rt; wide == Some(Err(SweepFault::TooWide(64))) && narrow == Some(Ok(64)));
}
