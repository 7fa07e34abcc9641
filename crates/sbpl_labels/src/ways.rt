//! The least way to a state.

ghost use Rattle.std.specs.Prelude.{◌≡◌, ◌+◌, ◌<◌};
ghost use Rattle.sbpl_labels.specs.Marks.{states_of, v_of};
ghost use Rattle.sbpl_labels.specs.Ways.{IsLeastBelow, limit_of};

use crate::Labels;
use sbpl_graph::{FAR, Graph};

/// An arc, as its source and its number there, with the v + cost that it brings to its head.
type Way = ((u32, u32), u64);

/// The arc that gives `t` the least v + cost, as its source and its number there, with that
/// sum. Of equal sums it is the first tail's. There is none where no free arc comes from a finite v.
pub(crate) fn least_way<G: Graph>(labels: &Labels, graph: &G, t: u32) -> Option<Way>
    requires states { states_of labels.now ≡ (G.network graph.now).states }
    requires state { t < states_of labels.now }
    ensures least { IsLeastBelow (G.network graph.now) (v_of labels.now) t
        ((G.network graph.now).tail_fan t) result }
{
    let mut best = None;
    for j in 0..graph.tail_fan(t) {
        best = lesser_way(labels, graph, t, j, best);
    }
    best
}

/// The way over tail `j` of `t`, where it brings less than the best of the tails before it, and otherwise that. The tail is
/// judged only where it could: a cost is at least the arc's floor.
fn lesser_way<G: Graph>(
    labels: &Labels,
    graph: &G,
    t: u32,
    j: u32,
    best: Option<Way>,
) -> Option<Way>
    requires states { states_of labels.now ≡ (G.network graph.now).states }
    requires state { t < states_of labels.now }
    requires number { j < (G.network graph.now).tail_fan t }
    requires best { IsLeastBelow (G.network graph.now) (v_of labels.now) t j best }
    ensures least { IsLeastBelow (G.network graph.now) (v_of labels.now) t (j + 1) result }
{
    let _states = graph.states();
    let Some((s, k)) = graph.tail(t, j) else {
        return best;
    };
    let v = labels.v(s);
    if v == FAR {
        return best;
    }
    let limit = limit(best);
    if limit <= v + u64::from(graph.floor(s, k)) {
        return best;
    }
    let Some(cost) = graph.judge(s, k) else {
        return best;
    };
    let sum = v + u64::from(cost);
    if sum < limit {
        Some(((s, k), sum))
    } else {
        best
    }
}

/// The sum below which a way is better than this one: infinity where there is none yet.
fn limit(best: Option<Way>) -> u64
    ensures value { result ≡ limit_of best }
{
    match best {
        Some(way) => way.1,
        None => FAR,
    }
}
