//! What the caller of a pass does alone.

ghost use Rattle.std.specs.Prelude.{◌≡◌, ℕ, ◌<◌, ◌≤◌, [], IfOk};
ghost use Rattle.sbpl_frontier_rules.specs.sbpl_search.Query.{query};
ghost use Rattle.sbpl_frontier_rules.specs.sbpl_search.Ready.{AreReady};
ghost use Rattle.sbpl_frontier_core.specs.Longer.{IsLonger};
ghost use Rattle.sbpl_frontier_core.specs.Passes.{EndsSo, IsPassGivenUp};
ghost use Rattle.sbpl_frontier_core.specs.Seats.{AreTakenBelow};

use crate::{CoreOf, Gate, Next, Pass, Past, judge};
use sbpl_frontier_rules::{Budget, Graph, Guide, Labels, NoMemory, PassEnd, events_keep};

/// The caller alone, in seat 0, goes on with a core of which no arc is out, until the pass is at rest or its budget is spent. The
/// one error is that memory ran out, and then the core comes back as it stands.
pub fn go_on<'g, T: Gate, G: Graph, H: Guide, N: Pass, U: Past>(
    core: CoreOf<'g, G, H, N, U>,
    graph: &G,
    gate: &T,
) -> Result<(CoreOf<'g, G, H, N, U>, PassEnd), CoreOf<'g, G, H, N, U>>
    requires out { core.frontier.out ≡ [] }
    requires graph { G.network graph.now ≡ N.query.network }
    ensures ends { IfOk result (λ r. EndsSo N.query r.1 r.0.frontier) }
    ensures longer { IfOk result (λ r. IsLonger core.entry.journal r.0.journal) }
    // The journal tells only seats below a number, where it told no others before.
    ensures seats { (seats : ℕ) → 0 < seats → AreTakenBelow seats core.entry.journal
        → IfOk result (λ r. AreTakenBelow seats r.0.journal) }
{
    let mut core = core;
    'arcs: loop {
        match core.next(0) {
            Ok(Next::Job(ticket)) => {
                gate.before_judge(ticket.number());
                core.apply(judge(ticket, graph));
            }
            Ok(Next::Over) => return Ok((core, PassEnd::Rest)),
            Ok(Next::Spent) => return Ok((core, PassEnd::Spent)),
            Ok(Next::NotYet) => unreachable!(),
            Err(NoMemory) => return Err(core),
        }
    }
}

/// A pass that does not begin leaves what it was given. This does nothing when it runs.
pub fn nothing_begun<G: Graph, H: Guide>(
    graph: &G,
    guide: &H,
    labels: &Labels,
    goal: u32,
    eps: u32,
    budget: &Budget,
)
    requires guide { H.guides guide.now (G.network graph.now) goal }
    requires eps_low { 1000 ≤ eps }
    requires ready { AreReady (G.network graph.now) labels.now budget.now.run }
    ensures given_up { IsPassGivenUp (query (G.network graph.now) (H.distance guide.now) eps goal) labels.now budget.now
        labels.now budget.now }
{
    events_keep();
    let _states = graph.states();
    let _start = labels.start();
    let _used = budget.used();
}
