//! Labels on graphs of three states, and what needs no graph.

ghost use Rattle.std.specs.Prelude.{◌≡◌};
ghost use Rattle.sbpl_plan.specs.sbpl_labels.Marks.{states_of};

use crate::table::{LOOP, row};
use sbpl_plan::{Budget, FAR, Guide, Labels, Meter, Zero, bound_holds, bound_of, none_holds};
use std::alloc::Global;
use std::test::Fail;

/// The labels of state 1.
fn seen(labels: &Labels) -> (u64, u64, Option<(u32, u32)>)
    requires states { states_of labels.now ≡ 3 }
{
    (labels.g(1), labels.v(1), labels.back(1))
}

/// These where two ways to the state cost the same, where none is left, and where the state is raised then.
const SEEN: [(u64, u64, Option<(u32, u32)>); 3] = [
    (5, 4, Some((0, 0))),
    (FAR, 4, None),
    (FAR, FAR, None),
];

/// Makes labels initial, lowers and settles some of them, recomputes them on two graphs and raises them, and answers whether
/// they are then as they should be.
fn are_as_wanted(labels: &mut Labels) -> bool
    requires states { states_of labels.old ≡ 3 }
    requires start { labels.old.start ≡ 0 }
{
    labels.reset();
    let first = (labels.low(&Zero, 1), labels.shows_none(1), labels.start());
    labels.settle(0);
    let shown = labels.shows_none(1);
    let lowered = (labels.lower(1, 1, 0, 4), labels.lower(1, 0, 1, 4));
    let low = labels.low(&Zero, 1);
    labels.settle(1);
    labels.recompute(&LOOP, 1);
    let tied = seen(labels);
    labels.recompute(&row(0, 1), 1);
    let shut = seen(labels);
    if labels.v(1) < labels.g(1) {
        labels.raise(1);
    }
    let seen = [tied, shut, seen(labels)];
    (first, shown, lowered, low) == ((0, false, 0), true, (true, false), 4) && seen == SEEN
}

/// Costs, lower bounds, and the bounds in thousandths that they give.
const BOUNDS: [(u64, u64, Option<u128>); 6] = [
    (0, 0, Some(1000)),
    (1, 0, None),
    (5, 5, Some(1000)),
    (5, 7, Some(1000)),
    (10, 7, Some(1429)),
    (3, 1, Some(3000)),
];

/// Whether these are the bounds.
fn are_bounds() -> bool {
    for (cost, low, want) in BOUNDS {
        if bound_of(cost, low) != want {
            return false;
        }
    }
    true
}

/// Whether a budget counts expansions, and what the guide says that knows nothing.
fn is_counted() -> bool {
    bound_holds();
    none_holds();
    let mut budget = Budget::new(1);
    let unspent = (budget.used(), budget.spent());
    budget.spend();
    let spent = (budget.used(), budget.spent());
    budget.next_plan(None);
    let counts = (unspent, spent, budget.used(), Zero.to_goal(8_388_607));
    counts == ((0, false), (1, true), 0, 0)
}

/// Whether a meter is set to a run's expansions at once, and then at each 64th.
fn is_metered(alloc: Global) -> bool {
    let meter = Meter::new(alloc);
    let mut budget = Budget::new(100);
    budget.spend();
    budget.meter_by(&meter);
    let first = meter.read();
    for _ in 0..98 {
        if !budget.spent() {
            budget.spend();
        }
    }
    (first, meter.read(), Meter::off().read()) == (1, 64, 0)
}

#[test]
fn labels_change(rt: HostRuntime) -> Result<(), Fail> {
    let mut labels = Labels::open(rt.alloc(), 3, 0)?;
    let are = are_as_wanted(&mut labels);
    drop(labels);
    assert!(rt; are && are_bounds() && is_counted() && is_metered(rt.alloc()));
    Ok(())
}
