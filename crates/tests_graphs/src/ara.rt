//! Passes on graphs of six states.

ghost use Rattle.std.specs.Prelude.{◌≡◌, ◌≤◌};
ghost use Rattle.sbpl_plan.specs.sbpl_labels.Marks.{states_of};
ghost use Rattle.sbpl_plan.specs.sbpl_search.Ready.{AreReady};
ghost use Rattle.tests_graphs.specs.Sample.{height, sample};

use crate::table::{DETOUR, TIE, Table};
use crate::texts::reads;
use sbpl_adstar::{Ara, means_ara};
use sbpl_plan::Budget;
use std::alloc::Global;
use std::test::Fail;

/// Makes a pass, and answers whether its end and expansions are as this text has them, with the cost of state 5 and the back
/// arcs of the states 5 and 3.
fn passes(
    alloc: Global,
    graph: &Table,
    ara: &mut Ara,
    eps: u32,
    budget: &mut Budget,
    want: &str,
) -> bool
    requires six { graph.now.last ≡ 5 }
    requires eps_low { 1000 ≤ eps }
    requires eps_high { eps ≤ 100000 }
    requires goal { height graph.now.heights ara.old.goal ≡ 0 }
    requires ready { AreReady (sample graph.now.last graph.now.arcs graph.now.heights) ara.old.labels budget.old.run }
    ensures goal { ara.new.goal ≡ ara.old.goal }
    ensures ready { AreReady (sample graph.now.last graph.now.arcs graph.now.heights) ara.new.labels budget.new.run }
{
    let end = ara.pass(graph, graph, eps, budget);
    let labels = ara.labels();
    let (cost, back, before) = (labels.g(5), labels.back(5), labels.back(3));
    let steps = ara.trace();
    reads(
        format!(in alloc; "{end:?} {steps:?} {cost} {back:?} {before:?}"),
        want,
    )
}

/// With a high inflation the way that looks better is found, at cost 10.
const HIGH: &str =
    "Rest [Step { state: 0, raised: false }, Step { state: 2, raised: false }, Step { state: 4, raised: false }] 10 Some((4, 0)) None";

/// With none the cheap way is found from there, at cost 7.
const LOW: &str =
    "Rest [Step { state: 1, raised: false }, Step { state: 3, raised: false }] 7 Some((3, 0)) Some((1, 0))";

/// The same pass again has nothing to expand.
const AGAIN: &str = "Rest [] 7 Some((3, 0)) Some((1, 0))";

/// Of two states with equal keys that of the lower number comes first, and two expansions are allowed.
const CUT: &str =
    "Spent [Step { state: 0, raised: false }, Step { state: 1, raised: false }] 9223372036854775808 None Some((1, 0))";

/// A spent pass again.
const SPENT: &str = "Spent [] 9223372036854775808 None Some((1, 0))";

/// With the budget of the next plan it goes on; what is no cheaper takes no back arc.
const ON: &str =
    "Rest [Step { state: 2, raised: false }, Step { state: 3, raised: false }] 4 Some((3, 0)) Some((1, 0))";

/// Whether passes of falling inflation are as wanted, and then, from initial labels, passes with a spent budget.
fn are_as_wanted(alloc: Global, ara: &mut Ara) -> bool
    requires states { states_of ara.old.labels ≡ 6 }
    requires goal { ara.old.goal ≡ 5 }
{
    let (detour, tie) = (&DETOUR, &TIE);
    ara.reset();
    let mut budget = Budget::new(5);
    let high = passes(alloc, detour, ara, 3000, &mut budget, HIGH);
    let low = passes(alloc, detour, ara, 1000, &mut budget, LOW);
    let again = passes(alloc, detour, ara, 1000, &mut budget, AGAIN);
    ara.reset();
    let mut budget = Budget::new(2);
    let cut = passes(alloc, tie, ara, 1000, &mut budget, CUT);
    let spent = passes(alloc, tie, ara, 1000, &mut budget, SPENT);
    budget.next_plan(None);
    let on = passes(alloc, tie, ara, 1000, &mut budget, ON);
    high && low && again && cut && spent && on
}

#[test]
fn falling_inflation_and_a_spent_budget(rt: HostRuntime) -> Result<(), Fail> {
    means_ara::<Table, Table>();
    let mut ara = Ara::open(rt.alloc(), 6, 0, 5)?;
    let are = are_as_wanted(rt.alloc(), &mut ara);
    drop(ara);
    assert!(rt; are);
    Ok(())
}
