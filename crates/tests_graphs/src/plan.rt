//! Plans on graphs of three states.

ghost use Rattle.std.specs.Prelude.{◌≡◌, IsTrue};
ghost use Rattle.sbpl_plan.specs.sbpl_graph.Fit.{FitCount};
ghost use Rattle.sbpl_plan.specs.sbpl_labels.Marks.{states_of, g_of, v_of};
ghost use Rattle.sbpl_plan.specs.sbpl_search.Ready.{IsStartFresh};

use crate::table::{Table, row};
use crate::texts::reads;
use sbpl_adstar::AdStar;
use sbpl_plan::{Ask, Budget, Graph, Inquiry, Nobody, Zero, plan};
use std::alloc::Global;
use std::test::Fail;

/// What is asked of each plan.
const ASK: Ask = Ask {
    first: 3000,
    step: 500,
    bound: 1000,
    traced: true,
};

/// The first plan expands both states on the way.
const CHEAP_PLAN: &str =
    "Planned { passes: ListOf { items: [PassRecord { inflation: 3000, expanded: 2, found: Path { cost: 6, bound: 1000 }, trace: ListOf { items: [Step { state: 0, raised: false }, Step { state: 1, raised: false }] } }] }, spent: false, outcome: Path(FoundPath { arcs: ListOf { items: [0, 0] }, cost: 6, bound: 1000 }) }";

/// Where the first arc is dearer, the state behind it is raised and then lowered again.
const DEAR_PLAN: &str =
    "Planned { passes: ListOf { items: [PassRecord { inflation: 3000, expanded: 2, found: Path { cost: 8, bound: 1000 }, trace: ListOf { items: [Step { state: 1, raised: true }, Step { state: 1, raised: false }] } }] }, spent: false, outcome: Path(FoundPath { arcs: ListOf { items: [0, 0] }, cost: 8, bound: 1000 }) }";

/// Where it is blocked and the budget is spent, no state can be raised, and nothing is known: a break in the way is not taken
/// for the lack of one.
const BROKEN_PLAN: &str =
    "Planned { passes: ListOf { items: [PassRecord { inflation: 3000, expanded: 0, found: Broken, trace: ListOf { items: [] } }] }, spent: true, outcome: Unknown }";

/// With the budget of the next plan it is raised, and there is no path.
const NO_PLAN: &str =
    "Planned { passes: ListOf { items: [PassRecord { inflation: 3000, expanded: 1, found: None, trace: ListOf { items: [Step { state: 1, raised: true }] } }] }, spent: false, outcome: NoPath }";

/// Whether a plan to state 2 from labels that are repaired for this graph is as this text has it.
fn replans(
    alloc: Global,
    graph: &Table,
    search: &mut AdStar,
    budget: &mut Budget,
    want: &str,
) -> bool
    requires three { graph.now.last ≡ 2 }
    requires states { states_of search.old.labels ≡ 3 }
    requires start { search.old.labels.start ≡ 0 }
    requires goal { search.old.goal ≡ 2 }
    requires fits { FitCount 3 (g_of search.old.labels) (v_of search.old.labels) budget.old.run }
    requires fresh { IsStartFresh search.old.labels }
    ensures states { IsTrue result → states_of search.new.labels ≡ 3 }
    ensures start { IsTrue result → search.new.labels.start ≡ 0 }
    ensures goal { IsTrue result → search.new.goal ≡ 2 }
    ensures fits { IsTrue result → FitCount 3 (g_of search.new.labels) (v_of search.new.labels) budget.new.run }
    ensures fresh { IsTrue result → IsStartFresh search.new.labels }
{
    let _used = budget.used();
    let _states = graph.states();
    search.change(graph, [1, 2].as_slice());
    let inquiry = Inquiry {
        graph,
        guide: &Zero,
        ask: &ASK,
    };
    match plan(alloc, &inquiry, search, budget, &mut Nobody) {
        Ok(planned) => {
            let is = reads(format!(in alloc; "{planned:?}"), want);
            drop(planned);
            is
        }
        Err(_) => false,
    }
}

/// Whether the plans are as wanted while the way gets dearer, with a budget of four expansions, and then is blocked.
fn are_planned(alloc: Global, search: &mut AdStar) -> bool
    requires states { states_of search.old.labels ≡ 3 }
    requires start { search.old.labels.start ≡ 0 }
    requires goal { search.old.goal ≡ 2 }
    requires fits { FitCount 3 (g_of search.old.labels) (v_of search.old.labels) 0 }
    requires fresh { IsStartFresh search.old.labels }
{
    let mut budget = Budget::new(4);
    if !replans(alloc, &row(5, 1), search, &mut budget, CHEAP_PLAN)
        || !replans(alloc, &row(7, 1), search, &mut budget, DEAR_PLAN)
        || !replans(alloc, &row(0, 1), search, &mut budget, BROKEN_PLAN)
    {
        return false;
    }
    budget.next_plan(None);
    replans(alloc, &row(0, 1), search, &mut budget, NO_PLAN)
}

#[test]
fn planned_again_after_changes(rt: HostRuntime) -> Result<(), Fail> {
    let mut search = AdStar::open(rt.alloc(), 3, 0, 2)?;
    let are = are_planned(rt.alloc(), &mut search);
    drop(search);
    assert!(rt; are);
    Ok(())
}
