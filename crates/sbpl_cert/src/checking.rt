//! A section is checked on a graph, wherever its labels came from.

ghost use Rattle.std.specs.Prelude.{◌≡◌, ℕ, ◌^◌, ◌<◌, ◌≤◌, Ok, Err, length, OnOk, IfErr, IfSome, MatchOption};
ghost use Rattle.std.specs.Prelude.{MatchResult};
ghost use Rattle.sbpl_labels.specs.sbpl_graph.Bound.{IsBound};
ghost use Rattle.sbpl_labels.specs.sbpl_graph.Certificate.{IsLabel};
ghost use Rattle.sbpl_labels.specs.sbpl_graph.Network.{IsFreeArc};
ghost use Rattle.sbpl_labels.specs.sbpl_graph.Path.{IsFreePath};
ghost use Rattle.sbpl_labels.specs.sbpl_graph.declared.TheConstants.{FAR as Far};
ghost use Rattle.sbpl_cert.specs.declared.flaw.Flaw.{Flaw as AFlaw};
ghost use Rattle.sbpl_cert.specs.Checking.{AreAllKept, IsArcFlaw, IsArcFlawAt, IsArcKept, IsBoundFlaw, IsFirstArcFlaw};
ghost use Rattle.sbpl_cert.specs.Checking.{IsFirstGuideFlaw, IsFirstLowFlaw, IsFirstUnsettledFlaw, IsGuideFlaw};
ghost use Rattle.sbpl_cert.specs.Checking.{IsGuideFlawAt, IsGuideKept, IsGuideOffFirst, IsGuideRight, IsLowAllowed};
ghost use Rattle.sbpl_cert.specs.Checking.{IsLowFlaw, IsLowKept, IsOutcomeFlaw, IsOutcomeRight, IsPathFlaw, IsSettled};
ghost use Rattle.sbpl_cert.specs.Checking.{IsShut, IsStepFlaw, IsSupportFlaw};
ghost use Rattle.sbpl_cert.specs.Claims.{claim_of};
ghost use Rattle.sbpl_cert.specs.Flaws.{HasNoFlaw, IsFirstFlaw};
ghost use Rattle.sbpl_cert.specs.Sections.{HasArcs};
ghost use Rattle.sbpl_cert.specs.Sound.{IsSo, ShowsAll};
ghost use Rattle.sbpl_cert.specs.Sparse.{sparse_claim};

use crate::flaw::Flaw;
use crate::label_set::LabelSet;
use crate::label_table::LabelTable;
use crate::outcome::Outcome;
use crate::sparse_row::SparseRow;
use crate::sparse_set::SparseSet;
use sbpl_labels::{FAR, Graph, Guide, bound_holds, bound_of, none_holds};

/// The head and the cost of an arc, if it is free.
fn free_arc<G: Graph>(graph: &G, s: u32, k: u32) -> Option<(u32, u32)>
    requires state { s < (G.network graph.now).states }
    requires number { k < (G.network graph.now).fan s }
    ensures free { MatchOption result (IsShut (G.network graph.now) s k) (λ arc. IsFreeArc (G.network graph.now) s k arc.0 arc.1) }
    ensures inside { IfSome result (λ arc. arc.0 < (G.network graph.now).states) }
    ensures small { IfSome result (λ arc. arc.1 < 2 ^ 32) }
{
    let cost = graph.judge(s, k)?;
    let head = graph.head(s, k)?;
    Some((head, cost))
}

/// The head of an arc has a label that the arc allows.
fn check_arc<G: Graph, T: LabelTable>(
    graph: &G,
    labels: &T,
    from: SparseRow,
    k: u32,
) -> Result<(), Flaw>
    requires states { (T.labelling labels.now).states ≡ (G.network graph.now).states }
    requires state { from.state < (G.network graph.now).states }
    requires number { k < (G.network graph.now).fan from.state }
    requires v { from.v ≡ (T.labelling labels.now).v from.state }
    requires near { from.v < 2 ^ 62 }
    ensures arc { MatchResult result (λ _. IsArcKept (G.network graph.now) (T.labelling labels.now).g
        (T.labelling labels.now).v from.state k)
        (IsArcFlaw (G.network graph.now) (T.labelling labels.now).g (T.labelling labels.now).v from.state k) }
{
    let Some((head, cost)) = free_arc(graph, from.state, k) else {
        return Ok(());
    };
    let has = labels.g(head);
    let most = from.v + u64::from(cost);
    if has > most {
        return Err(Flaw::Arc {
            state: from.state,
            arc: k,
            has,
            most,
        });
    }
    Ok(())
}

/// The labels along all free arcs from a state.
fn check_arcs_of<G: Graph, T: LabelTable>(
    graph: &G,
    labels: &T,
    from: SparseRow,
) -> Result<(), Flaw>
    requires states { (T.labelling labels.now).states ≡ (G.network graph.now).states }
    requires state { from.state < (G.network graph.now).states }
    requires v { from.v ≡ (T.labelling labels.now).v from.state }
    requires label { IsLabel from.v }
    ensures arcs { MatchResult result (λ _. (k : ℕ) → IsArcKept (G.network graph.now) (T.labelling labels.now).g
        (T.labelling labels.now).v from.state k)
        (IsArcFlawAt (G.network graph.now) (T.labelling labels.now).g (T.labelling labels.now).v from.state) }
{
    if from.v == FAR {
        return Ok(());
    }
    for k in 0..graph.fan(from.state) {
        check_arc(graph, labels, from, k)?;
    }
    Ok(())
}

/// The labels along all free arcs from states of finite v.
fn check_arcs<G: Graph, T: LabelTable>(graph: &G, labels: &T) -> Result<(), Flaw>
    requires states { (T.labelling labels.now).states ≡ (G.network graph.now).states }
    ensures arcs { MatchResult result (λ _. (s k : ℕ) → IsArcKept (G.network graph.now) (T.labelling labels.now).g
        (T.labelling labels.now).v s k)
        (IsFirstArcFlaw (G.network graph.now) (T.labelling labels.now).g (T.labelling labels.now).v) }
{
    for i in 0..labels.count() {
        check_arcs_of(graph, labels, labels.row(i))?;
    }
    Ok(())
}

/// The label of the start, and the labels along all free arcs from states of finite v.
fn check_support<G: Graph, T: LabelTable>(graph: &G, start: u32, labels: &T) -> Result<(), Flaw>
    requires states { (T.labelling labels.now).states ≡ (G.network graph.now).states }
    requires start { start < (G.network graph.now).states }
    ensures support { MatchResult result (λ _. AreAllKept (G.network graph.now) start (T.labelling labels.now).g
        (T.labelling labels.now).v)
        (IsSupportFlaw (G.network graph.now) start (T.labelling labels.now).g (T.labelling labels.now).v) }
{
    let g = labels.g(start);
    if g != 0 {
        return Err(Flaw::Start { g });
    }
    check_arcs(graph, labels)
}

/// The guide falls along an arc by no more than it costs.
fn check_guide_over<G: Graph, H: Guide>(graph: &G, guide: &H, s: u32, k: u32) -> Result<(), Flaw>
    requires known { (u : ℕ) → u < (G.network graph.now).states → H.knows guide.now u }
    requires state { s < (G.network graph.now).states }
    requires number { k < (G.network graph.now).fan s }
    ensures guide { MatchResult result (λ _. IsGuideKept (G.network graph.now) (H.distance guide.now) s k)
        (IsGuideFlaw (G.network graph.now) (H.distance guide.now) s k) }
{
    let Some((head, cost)) = free_arc(graph, s, k) else {
        return Ok(());
    };
    let has = guide.to_goal(s);
    let most = u64::from(cost) + guide.to_goal(head);
    if has > most {
        return Err(Flaw::Guide {
            state: s,
            arc: k,
            has,
            most,
        });
    }
    Ok(())
}

/// The guide along all free arcs from a state.
fn check_guide_of<G: Graph, H: Guide>(graph: &G, guide: &H, s: u32) -> Result<(), Flaw>
    requires known { (u : ℕ) → u < (G.network graph.now).states → H.knows guide.now u }
    requires state { s < (G.network graph.now).states }
    ensures guide { MatchResult result (λ _. (k : ℕ) → IsGuideKept (G.network graph.now) (H.distance guide.now) s k)
        (IsGuideFlawAt (G.network graph.now) (H.distance guide.now) s) }
{
    for k in 0..graph.fan(s) {
        check_guide_over(graph, guide, s, k)?;
    }
    Ok(())
}

/// The guide along all free arcs.
fn check_guides<G: Graph, H: Guide>(graph: &G, guide: &H) -> Result<(), Flaw>
    requires known { (u : ℕ) → u < (G.network graph.now).states → H.knows guide.now u }
    ensures guide { MatchResult result (λ _. (s k : ℕ) → IsGuideKept (G.network graph.now) (H.distance guide.now) s k)
        (IsFirstGuideFlaw (G.network graph.now) (H.distance guide.now)) }
{
    for s in 0..graph.states() {
        check_guide_of(graph, guide, s)?;
    }
    Ok(())
}

/// The guide at the goal and along all free arcs.
fn check_guide<G: Graph, H: Guide>(graph: &G, goal: u32, guide: &H) -> Result<(), Flaw>
    requires known { (u : ℕ) → u < (G.network graph.now).states → H.knows guide.now u }
    requires goal { goal < (G.network graph.now).states }
    ensures guide { MatchResult result (λ _. IsGuideRight (G.network graph.now) goal (H.distance guide.now))
        (IsGuideOffFirst (G.network graph.now) goal (H.distance guide.now)) }
{
    let has = guide.to_goal(goal);
    if has != 0 {
        return Err(Flaw::GoalGuide { has });
    }
    check_guides(graph, guide)
}

/// The low is at most g and the guide of each state whose g and v differ.
fn check_lows<T: LabelTable, H: Guide>(labels: &T, guide: &H, low: u64) -> Result<(), Flaw>
    requires known { (u : ℕ) → u < (T.labelling labels.now).states → H.knows guide.now u }
    ensures low { MatchResult result
        (λ _. (s : ℕ) → s < (T.labelling labels.now).states
        → IsLowKept (T.labelling labels.now).g (T.labelling labels.now).v (H.distance guide.now) low s)
        (IsFirstLowFlaw (T.labelling labels.now).states (T.labelling labels.now).g (T.labelling labels.now).v
        (H.distance guide.now) low) }
{
    for i in 0..labels.count() {
        let row = labels.row(i);
        let most = row.g + guide.to_goal(row.state);
        if row.g != row.v && low > most {
            return Err(Flaw::Low {
                state: row.state,
                has: low,
                most,
            });
        }
    }
    Ok(())
}

/// The low is at most g of the goal, and at most g and the guide of each state whose g and v differ.
fn check_low<T: LabelTable, H: Guide>(
    goal: u32,
    labels: &T,
    guide: &H,
    low: u64,
) -> Result<(), Flaw>
    requires known { (u : ℕ) → u < (T.labelling labels.now).states → H.knows guide.now u }
    requires goal { goal < (T.labelling labels.now).states }
    ensures low { MatchResult result
        (λ _. IsLowAllowed (T.labelling labels.now).states goal (T.labelling labels.now).g (T.labelling labels.now).v
        (H.distance guide.now) low)
        (IsLowFlaw (T.labelling labels.now).states goal (T.labelling labels.now).g (T.labelling labels.now).v
        (H.distance guide.now) low) }
{
    let most = labels.g(goal);
    if low > most {
        return Err(Flaw::Low {
            state: goal,
            has: low,
            most,
        });
    }
    check_lows(labels, guide, low)
}

/// Goes along the arcs from the start, as far as they are free. Answers the state where they end and their summed cost.
fn walk<G: Graph>(graph: &G, start: u32, arcs: &[u32]) -> Result<(u32, u64), Flaw>
    requires start { start < (G.network graph.now).states }
    requires few { length arcs.now < 2 ^ 28 }
    ensures walk { MatchResult result (λ x. IsFreePath (G.network graph.now) start arcs.now x.0 x.1)
        (IsStepFlaw (G.network graph.now) start arcs.now) }
{
    let mut at = start;
    let mut sum = 0;
    for i in 0..arcs.len() as u32 {
        let k = arcs[i as usize];
        if k >= graph.fan(at) {
            return Err(Flaw::Path { step: i });
        }
        let Some((head, cost)) = free_arc(graph, at, k) else {
            return Err(Flaw::Path { step: i });
        };
        at = head;
        sum += u64::from(cost);
    }
    Ok((at, sum))
}

/// The bound is the least that the cost and the low have.
fn check_bound(cost: u64, low: u64, bound: u128) -> Result<(), Flaw>
    ensures bound { MatchResult result (λ _. IsBound cost low bound) (IsBoundFlaw cost low bound) }
{
    let least = bound_of(cost, low);
    let Some(found) = least else {
        return Err(Flaw::Bound { has: bound, least });
    };
    if found != bound {
        return Err(Flaw::Bound { has: bound, least });
    }
    Ok(())
}

/// No state of finite g is the goal or has an infinite v.
fn check_none<T: LabelTable>(labels: &T, goal: u32) -> Result<(), Flaw>
    ensures settled { MatchResult result
        (λ _. (s : ℕ) → s < (T.labelling labels.now).states
        → IsSettled goal (T.labelling labels.now).g (T.labelling labels.now).v s)
        (IsFirstUnsettledFlaw (T.labelling labels.now).states goal (T.labelling labels.now).g (T.labelling labels.now).v) }
{
    for i in 0..labels.count() {
        let row = labels.row(i);
        if row.g < FAR && (row.state == goal || row.v == FAR) {
            return Err(Flaw::Goal { state: row.state });
        }
    }
    Ok(())
}

/// A path is free, has its cost and its bound, and ends at the goal.
fn check_path<G: Graph>(
    graph: &G,
    start: u32,
    goal: u32,
    arcs: &[u32],
    low: u64,
    cost: u64,
    bound: u128,
) -> Result<(), Flaw>
    requires start { start < (G.network graph.now).states }
    requires few { length arcs.now < 2 ^ 28 }
    ensures path { MatchResult result (λ _. IsFreePath (G.network graph.now) start arcs.now goal cost × IsBound cost low bound)
        (IsPathFlaw (G.network graph.now) start goal arcs.now cost low bound) }
{
    let (at, sum) = walk(graph, start, arcs)?;
    if sum != cost {
        return Err(Flaw::Cost { has: cost, sum });
    }
    check_bound(cost, low, bound)?;
    if at != goal {
        return Err(Flaw::Goal { state: at });
    }
    Ok(())
}

/// The outcome of a section.
fn check_outcome<G: Graph, T: LabelTable>(
    graph: &G,
    start: u32,
    goal: u32,
    labels: &T,
    low: u64,
    outcome: Outcome,
    arcs: &[u32],
) -> Result<(), Flaw>
    requires states { (T.labelling labels.now).states ≡ (G.network graph.now).states }
    requires start { start < (G.network graph.now).states }
    requires arcs { HasArcs outcome arcs.now }
    ensures outcome { MatchResult result
        (λ _. IsOutcomeRight (G.network graph.now) start goal low arcs.now (T.labelling labels.now).g
        (T.labelling labels.now).v outcome)
        (IsOutcomeFlaw (G.network graph.now) start goal low arcs.now (T.labelling labels.now).g (T.labelling labels.now).v
        outcome) }
{
    match outcome {
        Outcome::Path { cost, bound } => check_path(graph, start, goal, arcs, low, cost, bound),
        Outcome::NoPath => check_none(labels, goal),
        Outcome::Unknown => Ok(()),
    }
}

/// The section shows its outcome, or has a first flaw.
fn first_flaw<G: Graph>(graph: &G, start: u32, goal: u32, set: &LabelSet) -> Result<(), Flaw>
    requires start { start < (G.network graph.now).states }
    requires goal { goal < (G.network graph.now).states }
    requires states { length set.now.labels ≡ (G.network graph.now).states }
    ensures answer { MatchResult result (λ _. ShowsAll (G.network graph.now) start goal (claim_of set.now))
        (IsFirstFlaw (G.network graph.now) start goal (claim_of set.now)) }
{
    let _count = set.count();
    check_support(graph, start, set)?;
    check_guide(graph, goal, set)?;
    check_low(goal, set, set, set.low)?;
    check_outcome(
        graph,
        start,
        goal,
        set,
        set.low,
        set.outcome,
        set.arcs.as_slice(),
    )
}

/// The sparse section shows its outcome with this guide, or has a first flaw.
fn first_sparse_flaw<G: Graph, H: Guide>(
    graph: &G,
    guide: &H,
    start: u32,
    goal: u32,
    set: &SparseSet,
) -> Result<(), Flaw>
    requires start { start < (G.network graph.now).states }
    requires goal { goal < (G.network graph.now).states }
    requires states { set.now.states ≡ (G.network graph.now).states }
    requires guide { H.guides guide.now (G.network graph.now) goal }
    ensures answer { MatchResult result (λ _. ShowsAll (G.network graph.now) start goal
        (sparse_claim (H.distance guide.now) set.now))
        (IsFirstFlaw (G.network graph.now) start goal (sparse_claim (H.distance guide.now) set.now)) }
{
    let _count = set.count();
    check_support(graph, start, set)?;
    check_low(goal, set, guide, set.low)?;
    check_outcome(
        graph,
        start,
        goal,
        set,
        set.low,
        set.outcome,
        set.arcs.as_slice(),
    )
}

/// Checks a section on a graph, whose states its rows are. Flaws are tested in the order of their numbers over the whole
/// section, and within one number by the least state and then by the least arc or step; the first flaw is answered. Where
/// there is none, what the section says is so. Nothing is assumed of where its labels came from. It takes no memory.
pub fn check<G: Graph>(graph: &G, start: u32, goal: u32, set: &LabelSet) -> Result<(), Flaw>
    requires start { start < (G.network graph.now).states }
    requires goal { goal < (G.network graph.now).states }
    requires states { length set.now.labels ≡ (G.network graph.now).states }
    // A section without a flaw is accepted, and no other.
    ensures none { OnOk result (HasNoFlaw (G.network graph.now) start goal (claim_of set.now)) }
    ensures only_none { HasNoFlaw (G.network graph.now) start goal (claim_of set.now) → result ≡ Ok tt }
    // The flaw that is answered is the first one, with its states and numbers.
    ensures first { IfErr result (IsFirstFlaw (G.network graph.now) start goal (claim_of set.now)) }
    ensures only_first { (f : AFlaw) → IsFirstFlaw (G.network graph.now) start goal (claim_of set.now) f → result ≡ Err f }
    // What is accepted shows its bound and its outcome.
    ensures shows { OnOk result (ShowsAll (G.network graph.now) start goal (claim_of set.now)) }
    // A path that is accepted is one, with its cost and within its bound; where no path is accepted there is none.
    ensures so { OnOk result (IsSo (G.network graph.now) start goal set.now.arcs set.now.outcome) }
{
    let _states = graph.states();
    bound_holds();
    none_holds();
    first_flaw(graph, start, goal, set)
}

/// Checks a sparse section on a graph, with a guide to the goal on this graph. Flaws are tested as by `check`, but for those of the
/// guide: it is consistent. The time grows with the rows and their arcs, and not with the graph: the label of an arc's head is
/// found by a binary search among the rows, so it takes no memory.
pub fn check_sparse<G: Graph, H: Guide>(
    graph: &G,
    guide: &H,
    start: u32,
    goal: u32,
    set: &SparseSet,
) -> Result<(), Flaw>
    requires start { start < (G.network graph.now).states }
    requires goal { goal < (G.network graph.now).states }
    requires states { set.now.states ≡ (G.network graph.now).states }
    requires guide { H.guides guide.now (G.network graph.now) goal }
    // A section without a flaw is accepted, and no other.
    ensures none { OnOk result (HasNoFlaw (G.network graph.now) start goal (sparse_claim (H.distance guide.now) set.now)) }
    ensures only_none { HasNoFlaw (G.network graph.now) start goal (sparse_claim (H.distance guide.now) set.now)
        → result ≡ Ok tt }
    // The flaw that is answered is the first one, with its states and numbers.
    ensures first { IfErr result (IsFirstFlaw (G.network graph.now) start goal (sparse_claim (H.distance guide.now) set.now)) }
    ensures only_first { (f : AFlaw) → IsFirstFlaw (G.network graph.now) start goal
        (sparse_claim (H.distance guide.now) set.now) f → result ≡ Err f }
    // What is accepted shows its bound and its outcome.
    ensures shows { OnOk result (ShowsAll (G.network graph.now) start goal (sparse_claim (H.distance guide.now) set.now)) }
    // A path that is accepted is one, with its cost and within its bound; where no path is accepted there is none.
    ensures so { OnOk result (IsSo (G.network graph.now) start goal set.now.arcs set.now.outcome) }
{
    let _states = graph.states();
    bound_holds();
    none_holds();
    first_sparse_flaw(graph, guide, start, goal, set)
}
