//! The section of labels that a plan writes.

ghost use Rattle.std.specs.Prelude.{◌≡◌, IfOk};
ghost use Rattle.sbpl_report.specs.Shown.{HasEnded, IsShown, IsShownInFull, IsShownSparsely, IsThere};
ghost use Rattle.sbpl_report.specs.Shown.{arcs_of, labels_text, outcome_without_arcs};

use crate::ended::Ended;
use sbpl_cert::{
    Arcs, LabelSet, Outcome, Section, SparseSet, section_of, sparse_section_of, write_labels,
    write_sparse,
};
use sbpl_job::{LabelForm, NoMemory};
use sbpl_plan::{FoundPath, Graph, Guide, PlanResult};
use std::alloc::Global;

/// A result as a section says it: without the arcs of a path.
fn outcome_without_arcs(found: &PlanResult<FoundPath>) -> Outcome
    ensures outcome { result ≡ outcome_without_arcs found.now }
{
    match found {
        PlanResult::Path(path) => Outcome::Path {
            cost: path.cost,
            bound: path.bound,
        },
        PlanResult::NoPath => Outcome::NoPath,
        PlanResult::Unknown => Outcome::Unknown,
    }
}

/// The arcs of the path that a result is, or none.
fn arcs_of(alloc: Global, found: &PlanResult<FoundPath>) -> Result<Arcs, NoMemory>
    ensures arcs { IfOk result (λ a. a ≡ arcs_of found.now) }
{
    let mut copy = Vec::new(alloc);
    if let PlanResult::Path(path) = found {
        copy.extend_from_slice(path.arcs.as_slice())?;
    }
    Ok(Arcs::of(copy))
}

/// The section of the labels of a plan, with a row for each state.
fn make_full<G: Graph, H: Guide>(alloc: Global, ended: &Ended<G, H>) -> Result<LabelSet, NoMemory>
    requires ended { HasEnded (G.network ended.now.graph.now) (H.guides ended.now.guide.now) (H.distance ended.now.guide.now)
        ended.now.goal ended.now.labels.now ended.now.found.now }
    ensures shown { IfOk result (IsShownInFull (G.network ended.now.graph.now) (H.distance ended.now.guide.now)
        ended.now.labels.now.start ended.now.goal ended.now.plan ended.now.labels.now ended.now.found.now) }
{
    let Ended {
        graph,
        guide,
        goal,
        plan,
        labels,
        found,
    } = *ended;
    let states = graph.states();
    let arcs = arcs_of(alloc, found)?;
    let outcome = outcome_without_arcs(found);
    section_of(alloc, plan, states, goal, labels, guide, outcome, arcs)
}

/// The section of these labels, with rows for those that it needs.
fn make_sparse<G: Graph, H: Guide>(
    alloc: Global,
    ended: &Ended<G, H>,
) -> Result<SparseSet, NoMemory>
    requires ended { HasEnded (G.network ended.now.graph.now) (H.guides ended.now.guide.now) (H.distance ended.now.guide.now)
        ended.now.goal ended.now.labels.now ended.now.found.now }
    ensures shown { IfOk result (IsShownSparsely (G.network ended.now.graph.now) (H.distance ended.now.guide.now)
        ended.now.labels.now.start ended.now.goal ended.now.plan ended.now.labels.now ended.now.found.now) }
{
    let Ended {
        graph,
        guide,
        goal,
        plan,
        labels,
        found,
    } = *ended;
    let _states = graph.states();
    let arcs = arcs_of(alloc, found)?;
    let outcome = outcome_without_arcs(found);
    sparse_section_of(alloc, plan, graph, goal, labels, guide, outcome, arcs)
}

/// The section of these labels in a form.
fn make_section<G: Graph, H: Guide>(
    alloc: Global,
    ended: &Ended<G, H>,
    form: LabelForm,
) -> Result<Section, NoMemory>
    requires ended { HasEnded (G.network ended.now.graph.now) (H.guides ended.now.guide.now) (H.distance ended.now.guide.now)
        ended.now.goal ended.now.labels.now ended.now.found.now }
    ensures shown { IfOk result (IsShown form (G.network ended.now.graph.now) (H.distance ended.now.guide.now)
        ended.now.labels.now.start ended.now.goal ended.now.plan ended.now.labels.now ended.now.found.now) }
{
    match form {
        LabelForm::Full => match make_full(alloc, ended) {
            Ok(set) => Ok(Section::Full(set)),
            Err(NoMemory) => Err(NoMemory),
        },
        LabelForm::Sparse => match make_sparse(alloc, ended) {
            Ok(set) => Ok(Section::Sparse(set)),
            Err(NoMemory) => Err(NoMemory),
        },
    }
}

/// That section, where it is asked for.
pub fn labels_of<G: Graph, H: Guide>(
    alloc: Global,
    ended: &Ended<G, H>,
    asked: bool,
    form: LabelForm,
) -> Result<Option<Section>, NoMemory>
    requires ended { HasEnded (G.network ended.now.graph.now) (H.guides ended.now.guide.now) (H.distance ended.now.guide.now)
        ended.now.goal ended.now.labels.now ended.now.found.now }
    ensures shown { IfOk result (IsThere asked (IsShown form (G.network ended.now.graph.now) (H.distance ended.now.guide.now)
        ended.now.labels.now.start ended.now.goal ended.now.plan ended.now.labels.now ended.now.found.now)) }
{
    if !asked {
        return Ok(None);
    }
    match make_section(alloc, ended, form) {
        Ok(section) => Ok(Some(section)),
        Err(NoMemory) => Err(NoMemory),
    }
}

/// The text of the labels of a plan.
pub fn labels_text(alloc: Global, labels: &Option<Section>) -> Result<Vec<u8>, NoMemory>
    ensures text { IfOk result (λ text. text.items ≡ labels_text labels.now) }
{
    let mut text = Vec::new(alloc);
    match labels {
        Some(Section::Full(set)) => write_labels(set, &mut text)?,
        Some(Section::Sparse(set)) => write_sparse(set, &mut text)?,
        None => (),
    }
    Ok(text)
}
