//! A section is made of the labels that a plan left.

ghost use Rattle.std.specs.Prelude.{◌≡◌, ℕ, ◌<◌, IfOk};
ghost use Rattle.sbpl_labels.specs.sbpl_graph.Certificate.{AreSupported};
ghost use Rattle.sbpl_labels.specs.sbpl_graph.Laws.{IsSound};
ghost use Rattle.sbpl_labels.specs.sbpl_graph.Network.{Network};
ghost use Rattle.sbpl_labels.specs.Marks.{states_of, g_of, v_of};
ghost use Rattle.sbpl_cert.specs.Claims.{claim_of};
ghost use Rattle.sbpl_cert.specs.Made.{HaveRows, IsOfCutLabels, IsOfLabels};
ghost use Rattle.sbpl_cert.specs.Sections.{AreRows, HasArcs, IsOutcomeInRange, IsRow};
ghost use Rattle.sbpl_cert.specs.Sound.{ShowsBound};
ghost use Rattle.sbpl_cert.specs.Sparse.{sparse_claim};

use crate::cutting::cut;
use crate::label_set::{Arcs, LabelSet, Rows};
use crate::outcome::Outcome;
use crate::row::Row;
use crate::sparse_set::SparseSet;
use sbpl_fixed::NoMemory;
use sbpl_labels::{Graph, Guide, Labels};
use std::alloc::Global;

/// The row of a state.
fn row_of<H: Guide>(labels: &Labels, guide: &H, s: u32) -> Row
    requires state { s < states_of labels.now }
    requires known { H.knows guide.now s }
    ensures row { result ≡ record { g = g_of labels.now s; v = v_of labels.now s; h = H.distance guide.now s } }
    ensures kept { IsRow result }
{
    Row {
        g: labels.g(s),
        v: labels.v(s),
        h: guide.to_goal(s),
    }
}

/// The rows of all states.
fn rows_of<H: Guide>(
    alloc: Global,
    states: u32,
    labels: &Labels,
    guide: &H,
) -> Result<Rows, NoMemory>
    requires states { states ≡ states_of labels.now }
    requires known { (s : ℕ) → s < states_of labels.now → H.knows guide.now s }
    ensures rows { IfOk result (HaveRows labels.now (H.distance guide.now)) }
    ensures kept { IfOk result AreRows }
{
    let mut rows = Vec::with_capacity(alloc, states as usize)?;
    for s in 0..states {
        rows.push(row_of(labels, guide, s))?;
    }
    Ok(Rows::of(rows))
}

/// The section of plan `plan` that ended with these labels, which a search by this guide left: a row for each of the
/// `states` states, and the low that they give. The outcome and its arcs lie in the ranges that a section has for them.
/// Where the labels are supported on a graph that the guide was built for, the section shows its bound there.
pub fn section_of<H: Guide>(
    alloc: Global,
    plan: u32,
    states: u32,
    goal: u32,
    labels: &Labels,
    guide: &H,
    outcome: Outcome,
    arcs: Arcs,
) -> Result<LabelSet, NoMemory>
    requires states { states ≡ states_of labels.now }
    requires goal { goal < states_of labels.now }
    requires known { (s : ℕ) → s < states_of labels.now → H.knows guide.now s }
    requires outcome { IsOutcomeInRange outcome }
    requires arcs { HasArcs outcome arcs }
    ensures plan { IfOk result (λ s. s.plan ≡ plan) }
    ensures outcome { IfOk result (λ s. s.outcome ≡ outcome) }
    ensures arcs { IfOk result (λ s. s.arcs ≡ arcs) }
    ensures labels { IfOk result (IsOfLabels labels.now (H.distance guide.now) goal) }
    ensures shows { IfOk result
        (λ s. (n : Network) → n.states ≡ states_of labels.now → IsSound n → H.guides guide.now n goal
        → AreSupported n labels.now.start (g_of labels.now) (v_of labels.now)
        → ShowsBound n labels.now.start goal (claim_of s)) }
{
    let _start = labels.start();
    let low = labels.low(guide, goal);
    Ok(LabelSet {
        plan,
        low,
        outcome,
        arcs,
        labels: rows_of(alloc, states, labels, guide)?,
    })
}

/// The sparse section of plan `plan` that ended with these labels, which a search by this guide left: the low that they give, and
/// rows for the labels that are cut to it, or for all finite labels where there is no path. The outcome and its arcs lie in the
/// ranges that a section has for them. Where the labels are supported on this graph and the guide was built for it, the section
/// shows its bound there.
pub fn sparse_section_of<G: Graph, H: Guide>(
    alloc: Global,
    plan: u32,
    graph: &G,
    goal: u32,
    labels: &Labels,
    guide: &H,
    outcome: Outcome,
    arcs: Arcs,
) -> Result<SparseSet, NoMemory>
    requires states { states_of labels.now ≡ (G.network graph.now).states }
    requires goal { goal < states_of labels.now }
    requires known { (s : ℕ) → s < states_of labels.now → H.knows guide.now s }
    requires outcome { IsOutcomeInRange outcome }
    requires arcs { HasArcs outcome arcs }
    ensures plan { IfOk result (λ s. s.plan ≡ plan) }
    ensures states { IfOk result (λ s. s.states ≡ states_of labels.now) }
    ensures outcome { IfOk result (λ s. s.outcome ≡ outcome) }
    ensures arcs { IfOk result (λ s. s.arcs ≡ arcs) }
    ensures labels { IfOk result (IsOfCutLabels (G.network graph.now) labels.now (H.distance guide.now) goal) }
    ensures shows { IfOk result (λ s. H.guides guide.now (G.network graph.now) goal
        → AreSupported (G.network graph.now) labels.now.start (g_of labels.now) (v_of labels.now)
        → ShowsBound (G.network graph.now) labels.now.start goal (sparse_claim (H.distance guide.now) s)) }
{
    let _start = labels.start();
    let states = graph.states();
    let low = labels.low(guide, goal);
    let rows = cut(alloc, graph, guide, labels, low, &outcome)?;
    Ok(SparseSet {
        plan,
        states,
        low,
        outcome,
        arcs,
        rows,
    })
}
