//! One plan on a world.

ghost use Rattle.std.specs.Prelude.{map, [], if◌then◌else◌, ◌≡◌, ◌+◌, ◌^◌, ◌<◌, ◌≤◌, ℕ, length};
ghost use Rattle.std.specs.Prelude.{IfOk, MatchBool, None, OnErr, Option, Some};
ghost use Rattle.sbpl_worlds.specs.sbpl_promises.Blocked.{IsBlockageOf};
ghost use Rattle.sbpl_worlds.specs.sbpl_promises.Headline.{AreSteps, Before, IsKnownWithin, IsNoneThere, IsPathFrom};
ghost use Rattle.sbpl_worlds.specs.sbpl_promises.Headline.{IsSearched, IsWithinBound, KeepsPromises, Joins, JoinsStates};
ghost use Rattle.sbpl_worlds.specs.sbpl_promises.Headline.{IsSameResult, IsToldOf};
ghost use Rattle.sbpl_worlds.specs.sbpl_promises.Sites.{Leads, from_on, to_on};
ghost use Rattle.sbpl_worlds.specs.sbpl_report.Traces.{traced_pass};
ghost use Rattle.sbpl_plans.specs.Planning.{GoesOnFrom, IsPublishedInPart, IsSetFor, carried_of};
ghost use Rattle.sbpl_plans.specs.Boards.{IsSamePublisher, entries_of};
ghost use Rattle.sbpl_plans.specs.Tasks.{CanPlan};
ghost use Rattle.sbpl_worlds.specs.sbpl_promises.Published.{newest, with_plan};
ghost use Rattle.sbpl_worlds.specs.sbpl_plan.Asked.{IsAsk, MOST_PASSES};
ghost use Rattle.sbpl_worlds.specs.sbpl_replan.Replanning.{IsReady, standing_of};
ghost use Rattle.sbpl_worlds.specs.sbpl_promises.Asked.{ask_of, planner_on};
ghost use Rattle.sbpl_worlds.specs.sbpl_plan.Outcomes.{IsTrueOutcome};
ghost use Rattle.sbpl_worlds.specs.sbpl_report.Shown.{HasEnded, IsShown, IsThere};
ghost use Rattle.std.specs.Option.{is_some};
ghost use Rattle.sbpl_worlds.specs.sbpl_plan.Outcomes as Conclusions;
ghost use Rattle.sbpl_worlds.specs.sbpl_plan.declared.result.PlanResult.TheVariants as Results;

use crate::live_board::LiveBoard;
use crate::task::{PlanStart, Task};
use sbpl_worlds::{
    Ask, Blockage, Ended, Entry, FoundPath, NoMemory, Outputs, PathRecord, PlanRecord, PlanResult,
    Planned, Raised, Search, SearchJob, Section, Session, Steps, Traced, Workspace, labels_of,
    traced_passes,
};
use std::alloc::Global;
use std::sync::Wait;

/// The steps of the free path that these arcs are, from a state.
fn steps_of<W: Workspace>(
    alloc: Global,
    world: &W,
    from: u32,
    arcs: &[u32],
) -> Result<Steps, NoMemory>
    requires path { IsPathFrom (W.reporting.told world.now) from arcs.now }
    ensures steps { IfOk result (AreSteps W.Workspace world.now from arcs.now) }
{
    let mut steps = Vec::with_capacity(alloc, arcs.len())?;
    let mut at = from;
    for arc in arcs {
        let (head, step) = world.step(at, *arc);
        steps.push(step)?;
        at = head;
    }
    Ok(Steps::of(steps))
}

/// A path that a search found, step by step.
fn path_of<W: Workspace>(
    alloc: Global,
    world: &W,
    start: u32,
    goal: u32,
    found: FoundPath,
) -> Result<PathRecord, NoMemory>
    requires state { start < (W.reporting.told world.now).states }
    requires so { IsTrueOutcome (W.reporting.told world.now) start goal (Results.Path found) }
    ensures joins { IfOk result (JoinsStates W.Workspace world.now start goal) }
    ensures arcs { IfOk result (λ p. p.arcs ≡ found.arcs) }
    ensures cost { IfOk result (λ p. p.cost ≡ found.cost) }
    ensures bound { IfOk result (λ p. p.bound ≡ found.bound) }
{
    let FoundPath { arcs, cost, bound } = found;
    let steps = steps_of(alloc, world, start, arcs.as_slice())?;
    Ok(PathRecord {
        cost,
        bound,
        start: world.report_pose(start),
        steps,
        arcs,
    })
}

/// The result of a plan, told step by step.
fn outcome_of<W: Workspace>(
    alloc: Global,
    world: &W,
    start: u32,
    goal: u32,
    found: PlanResult<FoundPath>,
) -> Result<PlanResult<PathRecord>, NoMemory>
    requires state { start < (W.reporting.told world.now).states }
    requires so { IsTrueOutcome (W.reporting.told world.now) start goal found }
    ensures told { IfOk result (IsSameResult found) }
    ensures joins { IfOk result (Joins W.Workspace world.now start goal) }
    ensures within_the_bound { IfOk result (IsWithinBound (W.reporting.told world.now) start goal) }
    ensures none { IfOk result (IsNoneThere (W.reporting.told world.now) start goal) }
    ensures answered { IfOk result (λ o. (asked : ℕ) → Conclusions.IsConclusive asked found → IsKnownWithin asked o) }
{
    match found {
        PlanResult::Path(path) => Ok(PlanResult::Path(path_of(alloc, world, start, goal, path)?)),
        PlanResult::NoPath => Ok(PlanResult::NoPath),
        PlanResult::Unknown => Ok(PlanResult::Unknown),
    }
}

/// Why a plan with this result has no path, where it has none and that is simple.
fn blockage_of<W: Workspace>(
    world: &W,
    start: u32,
    goal: u32,
    outcome: &PlanResult<PathRecord>,
) -> Option<Blockage>
    requires start { start < (W.reporting.told world.now).states }
    requires goal { goal < (W.reporting.told world.now).states }
    ensures blockage { IsBlockageOf (W.reporting.told world.now) start goal outcome.now result }
{
    match outcome {
        PlanResult::NoPath => world.blockage(start, goal),
        PlanResult::Path(_) | PlanResult::Unknown => None,
    }
}

/// What a search is asked for.
fn ask_of(how: &SearchJob, outputs: &Outputs) -> Ask
    ensures ask { result ≡ ask_of how.now outputs.now }
{
    Ask {
        first: how.first,
        step: how.step,
        bound: how.bound,
        traced: outputs.trace.is_some(),
    }
}

/// The states that were raised before the passes of a plan, where they are to be told.
fn raised_of(alloc: Global, raised: &[u32], traced: bool) -> Result<Raised, NoMemory>
    ensures told { IfOk result (λ r. r ≡ (if traced then raised.now else [])) }
{
    let mut told = Vec::new(alloc);
    if traced {
        told.extend_from_slice(raised)?;
    }
    Ok(Raised::of(told))
}

/// How many states were expanded, where the last pass was spent.
fn mark_of(spent: bool, expanded: u64) -> Option<u64>
    ensures mark { MatchBool spent (result ≡ Some expanded) (result ≡ None) }
{
    if spent { Some(expanded) } else { None }
}

/// The section of the labels that plan `plan` left, where it is asked for.
fn section_of<W: Workspace + Drop, S: Search<W, W::Best> + Drop>(
    alloc: Global,
    session: &Session<W, W::Best, S>,
    plan: u32,
    found: &PlanResult<FoundPath>,
    outputs: &Outputs,
) -> Result<Option<Section>, NoMemory>
    requires ended { HasEnded (W.network session.now.world) (W.Best.guides session.now.guide)
        (W.Best.distance session.now.guide) session.now.search.goal session.now.search.labels found.now }
    ensures shown { IfOk result (IsThere (is_some outputs.now.labels) (IsShown outputs.now.form (W.network session.now.world)
        (W.Best.distance session.now.guide) session.now.search.labels.start session.now.search.goal plan
        session.now.search.labels found.now)) }
{
    let ended = Ended {
        graph: session.world(),
        guide: session.guide(),
        goal: session.goal(),
        plan,
        labels: session.labels(),
        found,
    };
    labels_of(alloc, &ended, outputs.labels.is_some(), outputs.form)
}

/// The record of plan `plan`, which expanded this number of states.
fn record_of<W: Workspace, N: Traced + Copy>(
    alloc: Global,
    world: &W,
    start: u32,
    goal: u32,
    plan: u32,
    planned: Planned<N>,
    expanded: u64,
    labels: Option<Section>,
    raised: Raised,
    incumbent: Option<Entry>,
) -> Result<PlanRecord, NoMemory>
    requires start { start < (W.reporting.told world.now).states }
    requires goal { goal < (W.reporting.told world.now).states }
    requires so { IsTrueOutcome (W.network world.now) (from_on W.Workspace start goal) (to_on W.Workspace start goal)
        planned.outcome }
    ensures number { IfOk result (λ r. r.plan ≡ plan) }
    ensures passes { IfOk result (λ r. r.passes ≡ map (traced_pass N.line) planned.passes) }
    ensures expanded { IfOk result (λ r. r.expanded ≡ expanded) }
    ensures told { IfOk result (λ r. IsToldOf (Leads W.reporting.back (W.reporting.told world.now) start goal) planned.outcome
        r.outcome) }
    ensures labels { IfOk result (λ r. r.labels ≡ labels) }
    ensures raised { IfOk result (λ r. r.raised ≡ raised) }
    ensures incumbent { IfOk result (λ r. r.incumbent ≡ incumbent) }
    ensures marked { IfOk result (λ r. MatchBool planned.spent (r.spent ≡ Some expanded) (r.spent ≡ None)) }
    ensures joins { IfOk result (λ r. Joins W.Workspace world.now start goal r.outcome) }
    ensures within_the_bound { IfOk result (λ r. IsWithinBound (W.reporting.told world.now) start goal r.outcome) }
    ensures none { IfOk result (λ r. IsNoneThere (W.reporting.told world.now) start goal r.outcome) }
    ensures blocked { IfOk result (λ r. IsBlockageOf (W.reporting.told world.now) start goal r.outcome r.blockage) }
    ensures answered { IfOk result (λ r. (asked : ℕ) → Conclusions.IsConclusive asked planned.outcome
        → IsKnownWithin asked r.outcome) }
{
    let passes = traced_passes(alloc, planned.passes.as_slice())?;
    let found = world.turn(alloc, start, goal, planned.outcome)?;
    let outcome = outcome_of(alloc, world, start, goal, found)?;
    let blockage = blockage_of(world, start, goal, &outcome);
    Ok(PlanRecord {
        plan,
        raised,
        passes,
        expanded,
        spent: mark_of(planned.spent, expanded),
        outcome,
        blockage,
        labels,
        incumbent,
    })
}

/// Makes a plan on the present map of a session, publishes each path as soon as it is found, and makes the plan's record.
pub(crate) fn make_record<W: Workspace + Drop, S: Search<W, W::Best> + Drop, B: Wait>(
    alloc: Global,
    session: &mut Session<W, W::Best, S>,
    task: &Task,
    at: PlanStart,
    live: &mut LiveBoard<B>,
) -> Result<PlanRecord, NoMemory>
where
    S::Action: Traced,
    requires can { CanPlan W.Workspace S.meaning W.Best.is_made_for task.now at session.old }
    requires few { length (entries_of live.old) + MOST_PASSES < 2 ^ 63 }
    ensures number { IfOk result (λ r. r.plan ≡ at.plan) }
    ensures promises { IfOk result (KeepsPromises W.Workspace session.old.world at.start task.now.goal task.now.how.now.bound) }
    ensures searched { (before : Before)
        → GoesOnFrom S.meaning W.Workspace session.old.world at.start task.now.goal before (standing_of session.old)
        → IfOk result (IsSearched (planner_on W.Workspace S.meaning S.Action.line) session.old.world task.now.how.now
        task.now.outputs.now at.start task.now.goal before
        (carried_of (W.cells.map session.old.world) (standing_of session.new))) }
    ensures ready { IfOk result (λ _. IsReady S.meaning W.network W.Best.is_made_for session.new) }
    ensures set { IfOk result (λ _. IsSetFor W.Workspace task.now.how.now at.start task.now.goal (standing_of session.new)) }
    ensures world { session.new.world ≡ session.old.world }
    ensures shown { IfOk result (λ r. entries_of live.new ≡ with_plan (entries_of live.old) r) }
    ensures incumbent { IfOk result (λ r. r.incumbent ≡ newest (entries_of live.new)) }
    ensures broken { (before : Before)
        → GoesOnFrom S.meaning W.Workspace session.old.world at.start task.now.goal before (standing_of session.old)
        → OnErr result (IsPublishedInPart (planner_on W.Workspace S.meaning S.Action.line) session.old.world task.now.how.now
        task.now.outputs.now at.start task.now.goal at.plan (entries_of live.old) (entries_of live.new) before) }
    ensures same { IsSamePublisher live.old live.new }
    ensures grown { length (entries_of live.new) ≤ length (entries_of live.old) + MOST_PASSES }
{
    let ask = ask_of(task.how, task.outputs);
    let raised = raised_of(alloc, session.raised(), ask.traced)?;
    live.begin(at.plan);
    let planned = session.plan(alloc, &ask, None, live)?;
    let incumbent = live.newest()?;
    let labels = section_of(alloc, session, at.plan, &planned.outcome, task.outputs)?;
    let expanded = session.expanded();
    record_of(
        alloc,
        session.world(),
        at.start,
        task.goal,
        at.plan,
        planned,
        expanded,
        labels,
        raised,
        incumbent,
    )
}
