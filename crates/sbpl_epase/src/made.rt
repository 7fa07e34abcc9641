//! A pass made by what a planner was given.

ghost use Rattle.std.specs.Prelude.{IfErr, IfOk};
ghost use Rattle.sbpl_adstar.specs.sbpl_search.Query.{query};
ghost use Rattle.sbpl_frontier.specs.sbpl_frontier_core.Passes.{IsPassFinished, IsPassGivenUp};
ghost use Rattle.sbpl_frontier.specs.sbpl_frontier_core.Seats.{AreTakenBelow};
ghost use Rattle.sbpl_frontier.specs.sbpl_frontier_core.Waiting.{HoldsOver};
ghost use Rattle.sbpl_epase.specs.Making.{CanPass, MakesPasses};

use crate::Passed;
use sbpl_adstar::{Graph, Guide};
use sbpl_frontier::Parts;
use std::alloc::Global;

/// The pass that `make` makes by these workers.
pub(crate) fn pass_by<
    G: Graph,
    H: Guide,
    F: Fn(Global, &G, &H, u32, Parts, u32, u32, bool) -> Result<Passed, Parts>,
>(
    make: &F,
    alloc: Global,
    graph: &G,
    guide: &H,
    workers: u32,
    parts: Parts,
    goal: u32,
    eps: u32,
    keeps: bool,
) -> Result<Passed, Parts>
    requires makes { MakesPasses G.network H.distance H.guides F.pre F.post make.now }
    requires can { CanPass (query (G.network graph.now) (H.distance guide.now) eps goal)
        (H.guides guide.now (G.network graph.now) goal) workers parts }
    ensures finished { IfOk result (λ r. IsPassFinished (query (G.network graph.now) (H.distance guide.now) eps goal)
        parts.labels parts.budget keeps r.parts.labels r.parts.budget r.journal r.end) }
    ensures seats { IfOk result (λ r. AreTakenBelow workers r.journal.events) }
    ensures over { IfOk result (λ r. HoldsOver r.parts.space r.parts.labels) }
    ensures given_up { IfErr result (λ r. IsPassGivenUp (query (G.network graph.now) (H.distance guide.now) eps goal)
        parts.labels parts.budget r.labels r.budget) }
    ensures over_left { IfErr result (λ r. HoldsOver r.space r.labels) }
{
    make(alloc, graph, guide, workers, parts, goal, eps, keeps)
}
