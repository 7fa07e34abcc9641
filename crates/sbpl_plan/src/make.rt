//! The making of a plan.

ghost use Rattle.std.specs.Prelude.{◌+◌, ◌≤◌, IfOk, OnErr};
ghost use Rattle.sbpl_search.specs.Ready.{IsStartFresh};
ghost use Rattle.sbpl_plan.specs.Asked.{IsAsk, MOST_PASSES};
ghost use Rattle.sbpl_plan.specs.Observed.{AreTold};
ghost use Rattle.sbpl_plan.specs.OutOfMemory.{RunsOutOfMemory};
ghost use Rattle.sbpl_plan.specs.Passing.{inquiry_of};
ghost use Rattle.sbpl_plan.specs.Planned.{IsPlanned};

use crate::ending::{is_last, is_spent, lowered, outcome_of};
use crate::inquiry::Inquiry;
use crate::look::look;
use crate::observer::{Observer, tell};
use crate::passes::{PassRecord, Passes, trace_of};
use crate::result::Planned;
use sbpl_search::{Budget, Graph, Guide, NoMemory, Search, bound_holds, none_holds};
use std::alloc::Global;

/// Makes a plan by this search to its goal: passes with the inflation `ask.first`, then `ask.step` less each time and never below
/// 1.000, until one finds a path whose bound is at most `ask.bound`, shows that there is no path, is spent, or has inflation
/// 1.000 (ARA*, Likhachev, Gordon and Thrun 2003; Anytime D*, Likhachev, Ferguson, Gordon, Stentz and Thrun 2005). The inquiry
/// holds `ask` and the graph, and a guide that was built for this graph and the goal. The observer is told of each path as soon
/// as the walk of a pass has given it, and of no other. After `NoMemory` another plan may be made from the labels that the passes
/// so far left, unless the pass in which memory ran out leaves them otherwise.
pub fn plan<G: Graph, H: Guide, S: Search<G, H>, O: Observer>(
    alloc: Global,
    inquiry: &Inquiry<G, H>,
    search: &mut S,
    budget: &mut Budget,
    observer: &mut O,
) -> Result<Planned<S::Action>, NoMemory>
    requires guide { H.guides inquiry.now.guide.now (G.network inquiry.now.graph.now) (S.state search.old).goal }
    requires asked { IsAsk inquiry.now.ask.now }
    requires ready { S.meaning.ready (G.network inquiry.now.graph.now) (S.state search.old).labels budget.old.run }
    requires fresh { IsStartFresh (S.state search.old).labels }
    requires serves { S.serves search.old }
    requires observed { MOST_PASSES ≤ O.room observer.old }
    ensures planned { IfOk result (IsPlanned S.meaning
        (inquiry_of (G.network inquiry.now.graph.now) (H.distance inquiry.now.guide.now)
        (S.state search.old).goal (S.state search.old).workers inquiry.now.ask.now)
        (S.state search.old) (S.state search.new) budget.old budget.new) }
    ensures memory { OnErr result (RunsOutOfMemory S.meaning
        (inquiry_of (G.network inquiry.now.graph.now) (H.distance inquiry.now.guide.now)
        (S.state search.old).goal (S.state search.old).workers inquiry.now.ask.now)
        inquiry.now.ask.now.first (S.state search.old) (S.state search.new) budget.old budget.new
        (λ ps. AreTold O.told 0 ps observer.old observer.new)) }
    ensures told { IfOk result (λ r. AreTold O.told 0 r.passes observer.old observer.new) }
    ensures observed { O.room observer.old ≤ O.room observer.new + MOST_PASSES }
    ensures serves { S.serves search.new }
{
    bound_holds();
    none_holds();
    let Inquiry { graph, guide, ask } = *inquiry;
    let goal = search.goal();
    let mut arcs = Vec::with_capacity(alloc, graph.states() as usize)?;
    let mut passes = Vec::new(alloc);
    let mut number = 0;
    let mut eps = ask.first;
    'passes: loop {
        let end = search.pass(alloc, graph, guide, eps, ask.traced, budget)?;
        let spent = is_spent(end);
        arcs.clear();
        let found = look(graph, guide, search, &mut arcs);
        tell(observer, number, found);
        let expanded = search.expanded();
        let trace = trace_of::<G, H, S>(alloc, search, ask.traced)?;
        passes.push(PassRecord {
            inflation: eps,
            expanded,
            found,
            trace,
        })?;
        if is_last(ask, eps, search.labels(), goal, spent, found) {
            let outcome = outcome_of(search.labels(), goal, found, arcs);
            let _used = budget.used();
            return Ok(Planned {
                passes: Passes::of(passes),
                spent,
                outcome,
            });
        }
        number += 1;
        eps = lowered(ask.step, eps);
    }
}
