//! A goal that changes.

ghost use Rattle.std.specs.Prelude.{◌≡◌, ◌≤◌, vec_capacity};
ghost use Rattle.sbpl_plan.specs.sbpl_labels.Marks.{states_of};
ghost use Rattle.tests_graphs.specs.Sample.{height};

use crate::table::{DETOUR, Table};
use sbpl_adstar::{AdStar, Ara, Raiser, Step, means_adstar};
use sbpl_plan::{Budget, Labels, PassEnd, Walk, Zero};
use std::test::Fail;

/// After a pass from initial labels to state 5, by the guide to it, state 3 is the goal. Answers whether a pass without a guide
/// goes on from the labels to the best way to it.
fn goes_on(graph: &Table, search: &mut AdStar, arcs: &mut Vec<u32>) -> bool
    requires six { graph.now.last ≡ 5 }
    requires goal { search.old.goal ≡ 5 }
    requires guide { height graph.now.heights 5 ≡ 0 }
    requires states { states_of search.old.labels ≡ 6 }
    requires room { 6 ≤ vec_capacity arcs.old }
{
    let mut budget = Budget::new(10);
    search.reset();
    let _end = search.pass(graph, graph, 3000, &mut budget);
    search.aim(3);
    let end = search.pass(graph, &Zero, 1000, &mut budget);
    let step = Step {
        state: 1,
        raised: false,
    };
    let steps = search.trace() == [step].as_slice();
    arcs.clear();
    let walk = search.labels().walk(graph, 3, arcs);
    (end, steps, walk) == (PassEnd::Rest, true, Walk::Path(2))
        && arcs.as_slice() == [0, 0].as_slice()
}

#[test]
fn aimed_at_another_goal(rt: HostRuntime) -> Result<(), Fail> {
    let mut arcs = Vec::with_capacity(rt.alloc(), 6)?;
    means_adstar::<Table, Table>();
    let mut search = AdStar::from(Ara::open(rt.alloc(), 6, 0, 5)?);
    let goes = goes_on(&DETOUR, &mut search, &mut arcs);
    drop(search);
    drop(arcs);
    assert!(rt; goes);
    Ok(())
}

/// Initial labels have no underconsistent state.
#[test]
fn none_is_raised_of_initial_labels(rt: HostRuntime) -> Result<(), Fail> {
    let mut labels = Labels::open(rt.alloc(), 6, 0)?;
    let mut raiser = Raiser::new(rt.alloc(), 6)?;
    raiser.raise_all(&DETOUR, &mut labels);
    let none = raiser.raised().is_empty();
    drop(raiser);
    drop(labels);
    assert!(rt; none);
    Ok(())
}
