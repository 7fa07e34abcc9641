//! A pass by several workers, with the guide that knows nothing.

ghost use Rattle.std.specs.Prelude.{◌≡◌, ◌<◌, ◌≤◌, true};
ghost use Rattle.sbpl_plan.specs.sbpl_search.Query.{query};
ghost use Rattle.sbpl_plan.specs.sbpl_search.Ready.{AreReady};

use crate::watched::Watched;
use sbpl_epase::{Core, NoGate, Pass, parallel_pass};
use sbpl_heur::Lattice;
use sbpl_plan::{Budget, Graph, Labels, NoMemory, Zero};
use std::alloc::Global;
use std::marker::Brand;
use std::sync::Wait;
use std::thread::Threads;

/// The cost that a pass of inflation 1 finds, where its values have a name.
fn pass_as<N: Pass + Send + Sync, R: Threads + Wait + Sync, G: Graph + Sync>(
    rt: &R,
    alloc: Global,
    graph: &G,
    labels: Labels,
    budget: Budget,
    goal: u32,
    workers: u32,
) -> Result<u64, NoMemory>
    requires some { 1 ≤ workers }
    requires few { workers ≤ 64 }
    requires query { query (G.network graph.now) (λ s. 0) 1000 goal ≡ N.query }
    requires labels { labels ≡ N.opening }
    requires budget { budget ≡ N.counts }
    requires keeps { N.keeps ≡ true }
    requires goal { goal < (G.network graph.now).states }
    requires ready { AreReady (G.network graph.now) labels budget.run }
{
    let guide = Zero;
    let opened = Core::<'_, G, Zero, N>::open(
        alloc, graph, &guide, labels, goal, 1000, budget, true,
    );
    let Ok(core) = opened else {
        return Err(NoMemory);
    };
    let core = parallel_pass(rt, alloc, core, graph, workers, &NoGate)?;
    let (labels, _budget, _journal) = core.finish();
    Ok(labels.g(goal))
}

/// The cost of the way from one state to another that a pass by this many workers finds.
fn cost_by<R: Threads + Wait + Sync, G: Graph + Sync>(
    rt: &R,
    alloc: Global,
    graph: &G,
    start: u32,
    goal: u32,
    workers: u32,
) -> Result<u64, NoMemory>
    requires some { 1 ≤ workers }
    requires few { workers ≤ 64 }
{
    let states = graph.states();
    if start >= states || goal >= states {
        return Err(NoMemory);
    }
    let labels = Labels::open(alloc, states, start)?;
    pass_as::<Brand, R, G>(
        rt,
        alloc,
        graph,
        labels,
        Budget::new(1 << 30),
        goal,
        workers,
    )
}

/// Whether a worker judges an arc while another one is still judging the first, since no lock is held meanwhile, and the
/// two find the cheap way.
pub(crate) fn meet<R: Threads + Wait + Sync>(rt: &R, alloc: Global, lattice: &Lattice) -> bool {
    let graph = Watched::new(lattice);
    match cost_by(rt, alloc, &graph, 0, 32, 2) {
        Ok(cost) => graph.has_met() && cost == 100,
        Err(_) => false,
    }
}
