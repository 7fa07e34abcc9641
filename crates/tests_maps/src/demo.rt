//! Files drawn from a seed.

use sample_files::p16;
use sbpl_demo::generate;
use std::alloc::Global;
use std::test::Fail;

/// The environment of the seed 7 on 32 by 32 cells, up to its first row of costs, worked out separately.
const COSTS: &str = "discretization(cells): 32 32
obsthresh: 254
cost_inscribed_thresh: 253
cost_possibly_circumscribed_thresh: 128
cellsize(meters): 0.025000000
nominalvel(mpersecs): 1.000000000
timetoturn45degsinplace(secs): 2.000000000
start(meters,rads): 0.037500000 0.037500000 0.000000000
end(meters,rads): 0.762500000 0.762500000 0.000000000
environment:
0 0 0 0 0 20 0 0 0 0 0 0 0 0 0 0 254 0 0 0 0 0 0 0 0 254 0 0 0 0 0 20
";

/// The changes of the seed 2 on 8 by 8 cells, worked out separately. In each of the first two batches a line is left out.
const CHANGES: &str = "cell 5 1 254
cell 4 0 254
cell 3 4 0
cell 5 2 0
cell 0 2 254
cell 6 2 254
cell 6 2 254
replan
cell 1 7 254
cell 5 6 0
cell 2 1 0
cell 5 3 0
cell 5 4 0
cell 6 3 254
cell 0 6 0
replan
cell 4 3 0
cell 7 2 254
cell 0 3 0
cell 1 2 0
cell 3 3 0
cell 6 2 0
cell 5 2 254
cell 5 1 0
replan
";

/// Whether the environment of one seed begins so.
fn are_costs_drawn(alloc: Global) -> Option<bool> {
    let drawn = generate(alloc, 7, 32, 32).ok()?;
    let are = drawn.env.as_slice().starts_with(COSTS.as_bytes());
    drop(drawn);
    Some(are)
}

/// Whether the changes of another one are these, and its primitives those of the sample.
fn are_changes_drawn(alloc: Global, sample: &str) -> Option<bool> {
    let drawn = generate(alloc, 2, 8, 8).ok()?;
    let are = drawn.prims.as_slice() == sample.as_bytes()
        && drawn.changes.as_slice() == CHANGES.as_bytes();
    drop(drawn);
    Some(are)
}

#[test]
fn files_are_drawn_from_the_seed(rt: HostRuntime) -> Result<(), Fail> {
    let sample = p16(rt.alloc())?;
    let costs = are_costs_drawn(rt.alloc());
    let changes = are_changes_drawn(rt.alloc(), sample.as_str());
    drop(sample);
    assert!(rt; costs == Some(true) && changes == Some(true));
    Ok(())
}
