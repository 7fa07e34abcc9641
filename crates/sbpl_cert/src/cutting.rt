//! Labels are cut to the rows that a section needs.

ghost use Rattle.std.specs.Prelude.{◌≡◌, ◌≢◌, ◌⊎◌, ℕ, ◌<◌, IfOk, IsTrue};
ghost use Rattle.sbpl_labels.specs.sbpl_graph.Certificate.{IsLabel};
ghost use Rattle.sbpl_labels.specs.sbpl_graph.declared.TheConstants.{FAR as Far};
ghost use Rattle.sbpl_labels.specs.Cut.{kept_v};
ghost use Rattle.sbpl_labels.specs.Marks.{states_of, g_of, v_of};
ghost use Rattle.sbpl_cert.specs.Cut.{AreCutRows, IsCutAt, IsNeededAt, IsReached, IsReachedBy};

use crate::outcome::Outcome;
use crate::sparse_row::SparseRow;
use crate::sparse_set::SparseRows;
use sbpl_fixed::NoMemory;
use sbpl_labels::{FAR, Graph, Guide, Labels};
use std::alloc::Global;

/// Whether tail `j` of a state is a free arc from a state whose v is kept.
fn is_reached_by<G: Graph, H: Guide>(
    graph: &G,
    guide: &H,
    labels: &Labels,
    low: u64,
    t: u32,
    j: u32,
) -> bool
    requires states { states_of labels.now ≡ (G.network graph.now).states }
    requires known { (s : ℕ) → s < states_of labels.now → H.knows guide.now s }
    requires state { t < (G.network graph.now).states }
    requires number { j < (G.network graph.now).tail_fan t }
    ensures reached { IsTrue result
        → IsReachedBy (G.network graph.now) (kept_v (g_of labels.now) (H.distance guide.now) low) t j }
    ensures unreached { IsReachedBy (G.network graph.now) (kept_v (g_of labels.now) (H.distance guide.now) low) t j
        → IsTrue result }
{
    let _states = graph.states();
    let Some((s, k)) = graph.tail(t, j) else {
        return false;
    };
    labels.kept_v(guide, s, low) < FAR && graph.judge(s, k).is_some()
}

/// Whether a free arc leads to a state from one whose v is kept.
fn is_reached<G: Graph, H: Guide>(graph: &G, guide: &H, labels: &Labels, low: u64, t: u32) -> bool
    requires states { states_of labels.now ≡ (G.network graph.now).states }
    requires known { (s : ℕ) → s < states_of labels.now → H.knows guide.now s }
    requires state { t < (G.network graph.now).states }
    ensures reached { IsTrue result → IsReached (G.network graph.now) (kept_v (g_of labels.now) (H.distance guide.now) low) t }
    ensures unreached { IsReached (G.network graph.now) (kept_v (g_of labels.now) (H.distance guide.now) low) t → IsTrue result }
{
    let _states = graph.states();
    for j in 0..graph.tail_fan(t) {
        if is_reached_by(graph, guide, labels, low, t, j) {
            return true;
        }
    }
    false
}

/// The cut labels of a state of finite g.
fn cut_near<G: Graph, H: Guide>(
    graph: &G,
    guide: &H,
    labels: &Labels,
    low: u64,
    s: u32,
) -> SparseRow
    requires states { states_of labels.now ≡ (G.network graph.now).states }
    requires known { (u : ℕ) → u < states_of labels.now → H.knows guide.now u }
    requires state { s < (G.network graph.now).states }
    ensures state { result.state ≡ s }
    ensures cut { IsCutAt (G.network graph.now) labels.now.start (g_of labels.now) (H.distance guide.now) low s result.g result.v }
{
    let v = labels.kept_v(guide, s, low);
    if s == labels.start() {
        return SparseRow { state: s, g: 0, v };
    }
    if is_reached(graph, guide, labels, low, s) {
        let g = labels.g(s);
        return SparseRow { state: s, g, v };
    }
    SparseRow {
        state: s,
        g: FAR,
        v,
    }
}

/// The cut labels of a state.
fn cut_row<G: Graph, H: Guide>(graph: &G, guide: &H, labels: &Labels, low: u64, s: u32) -> SparseRow
    requires states { states_of labels.now ≡ (G.network graph.now).states }
    requires known { (u : ℕ) → u < states_of labels.now → H.knows guide.now u }
    requires state { s < (G.network graph.now).states }
    ensures state { result.state ≡ s }
    ensures cut { IsCutAt (G.network graph.now) labels.now.start (g_of labels.now) (H.distance guide.now) low s result.g result.v }
{
    let _start = labels.start();
    if labels.g(s) == FAR {
        return SparseRow {
            state: s,
            g: FAR,
            v: FAR,
        };
    }
    cut_near(graph, guide, labels, low, s)
}

/// The labels of a state that a section of this outcome needs.
fn needed_row<G: Graph, H: Guide>(
    graph: &G,
    guide: &H,
    labels: &Labels,
    low: u64,
    outcome: Outcome,
    s: u32,
) -> SparseRow
    requires states { states_of labels.now ≡ (G.network graph.now).states }
    requires known { (u : ℕ) → u < states_of labels.now → H.knows guide.now u }
    requires state { s < (G.network graph.now).states }
    ensures state { result.state ≡ s }
    ensures needed { IsNeededAt outcome (G.network graph.now) labels.now (H.distance guide.now) low s result.g result.v }
    ensures labels { IsLabel result.g × IsLabel result.v }
{
    let _start = labels.start();
    match outcome {
        Outcome::NoPath => SparseRow {
            state: s,
            g: labels.g(s),
            v: labels.v(s),
        },
        Outcome::Path { .. } | Outcome::Unknown => cut_row(graph, guide, labels, low, s),
    }
}

/// Whether a row has a finite label.
fn is_finite(row: SparseRow) -> bool
    ensures finite { IsTrue result → (row.g < Far) ⊎ (row.v < Far) }
    ensures infinite { (row.g < Far) ⊎ (row.v < Far) → IsTrue result }
{
    row.g < FAR || row.v < FAR
}

/// The rows that a section of this outcome needs of the labels that a search by this guide left, with the low that they give: a row
/// for each state of which a label is finite, upwards. Where there is no path, all labels are needed. Otherwise they are
/// cut: v is g where g and the guide are below the low; g is 0 at the start and left where a free arc leads from a state of
/// such a v; all else is infinite. The cut labels show what the whole ones show. States of infinite g are passed over at
/// once.
pub fn cut<G: Graph, H: Guide>(
    alloc: Global,
    graph: &G,
    guide: &H,
    labels: &Labels,
    low: u64,
    outcome: &Outcome,
) -> Result<SparseRows, NoMemory>
    requires states { states_of labels.now ≡ (G.network graph.now).states }
    requires known { (s : ℕ) → s < states_of labels.now → H.knows guide.now s }
    ensures rows { IfOk result (AreCutRows outcome.now (G.network graph.now) labels.now (H.distance guide.now) low) }
{
    let mut rows = Vec::new(alloc);
    for s in 0..graph.states() {
        let row = needed_row(graph, guide, labels, low, *outcome, s);
        if is_finite(row) {
            rows.push(row)?;
        }
    }
    Ok(SparseRows::of(rows))
}
