//! Passes of one plan by workers that come and go.

ghost use Rattle.std.specs.Prelude.{◌≡◌, ◌<◌, ◌≤◌};
ghost use Rattle.sbpl_heur.specs.sbpl_cost.Lattices.{network_of};
ghost use Rattle.sbpl_heur.specs.Bests.{IsGuide, distance_in};
ghost use Rattle.sbpl_plan.specs.sbpl_search.Query.{query};
ghost use Rattle.sbpl_epase.specs.Making.{CanPass, Leaves};

use sbpl_epase::{Epase, Event, NoGate, Parts, Passed, parallel_pass_parts};
use sbpl_heur::{Best, Lattice};
use sbpl_plan::{Ask, Budget, Graph, Inquiry, Nobody, PlanResult, Planned, plan};
use std::alloc::Global;
use std::sync::Wait;
use std::thread::Threads;

/// What is asked of a plan whose inflation falls.
const FALLING: Ask = Ask {
    first: 3000,
    step: 500,
    bound: 1000,
    traced: false,
};

/// How many workers make the pass of this inflation, in thousandths, where there are at most so many.
fn workers_at(eps: u32, most: u32) -> u32
    requires some { 1 ≤ most }
    ensures some { 1 ≤ result }
    ensures few { result ≤ most }
{
    let workers = match eps {
        3000 => 1,
        2500 => 4,
        2000 => 2,
        _ => 3,
    };
    workers.min(most)
}

/// A pass of this inflation, by as many of the workers as are at it.
fn pass_at<R: Threads + Wait + Sync>(
    rt: &R,
    alloc: Global,
    graph: &Lattice,
    guide: &Best,
    most: u32,
    parts: Parts,
    goal: u32,
    eps: u32,
    keeps: bool,
) -> Result<Passed, Parts>
    requires can { CanPass (query (network_of graph.now) (distance_in guide.now) eps goal)
        (IsGuide (network_of graph.now) goal guide.now) most parts }
    ensures left { Leaves (query (network_of graph.now) (distance_in guide.now) eps goal) most parts keeps result }
{
    let workers = workers_at(eps, most);
    parallel_pass_parts(
        rt, &NoGate, workers, alloc, graph, guide, parts, goal, eps, keeps,
    )
}

/// How many passes a plan made, and the cost of its path.
fn told(planned: &Planned<Event>) -> Option<(usize, u64)> {
    match &planned.outcome {
        PlanResult::Path(path) => Some((planned.passes.as_slice().len(), path.cost)),
        _ => None,
    }
}

/// The passes of a plan from the first state to this one are made by one, four, two and three workers, and each begins with
/// the labels of the pass before: how many passes there are, and the cost of the path. The labels are then made initial
/// again.
pub(crate) fn falling<R: Threads + Wait + Sync>(
    rt: &R,
    alloc: Global,
    lattice: &Lattice,
    best: &Best,
    goal: u32,
) -> Option<(usize, u64)>
    requires goal { goal < (network_of lattice.now).states }
    requires guide { IsGuide (network_of lattice.now) goal best.now }
{
    let make = move |alloc: Global, graph: &Lattice, guide: &Best, most: u32, parts: Parts, goal: u32, eps: u32, keeps: bool|
        requires can { CanPass (query (network_of graph.now) (distance_in guide.now) eps goal)
            (IsGuide (network_of graph.now) goal guide.now) most parts }
        ensures left { Leaves (query (network_of graph.now) (distance_in guide.now) eps goal) most parts keeps result }
    { pass_at(rt, alloc, graph, guide, most, parts, goal, eps, keeps) };
    let Ok(mut search) = Epase::open(alloc, make, 4, lattice.states(), 0, goal) else {
        return None;
    };
    let mut budget = Budget::new(1 << 30);
    let inquiry = Inquiry {
        graph: lattice,
        guide: best,
        ask: &FALLING,
    };
    let planned = plan(alloc, &inquiry, &mut search, &mut budget, &mut Nobody);
    search.reset();
    drop(search);
    told(&planned.ok()?)
}
