//! What a judgement does.

ghost use Rattle.std.specs.Prelude.{◌≡◌, ◌^◌, ◌<◌, nat_eq, not, vec_capacity};
ghost use Rattle.sbpl_frontier_rules.specs.sbpl_graph.declared.TheConstants.{FAR};
ghost use Rattle.sbpl_frontier_rules.specs.sbpl_graph.Fit.{FitCount};
ghost use Rattle.sbpl_frontier_rules.specs.sbpl_labels.Marks.{g_of, states_of, v_of};
ghost use Rattle.sbpl_frontier_rules.specs.sbpl_serial.Relaxed.{IsRelaxed};
ghost use Rattle.sbpl_frontier_rules.specs.Frontier.{without};

use sbpl_frontier_rules::{Graph, Labels, Leg};

/// Lowers the head of arc `k` of `s`, which has this cost or is not free, where the way over it is cheaper, and answers it.
pub(crate) fn lower_head<G: Graph>(
    labels: &mut Labels,
    graph: &G,
    s: u32,
    k: u32,
    cost: Option<u32>,
) -> Option<u32>
    requires states { states_of labels.old ≡ (G.network graph.now).states }
    requires state { s < states_of labels.old }
    requires number { k < (G.network graph.now).fan s }
    requires judged { cost ≡ (G.network graph.now).cost s k }
    requires near { v_of labels.old s < FAR }
    requires fits { FitCount (states_of labels.old) (g_of labels.old) (v_of labels.old) (2 ^ 30) }
    ensures relaxed { IsRelaxed (G.network graph.now) labels.old labels.new s k result }
{
    let start = labels.start();
    let _states = graph.states();
    let cost = cost?;
    let t = graph.head(s, k)?;
    if t == start {
        return None;
    }
    let value = labels.v(s) + u64::from(cost);
    labels.lower(t, s, k, value).then_some(t)
}

/// Takes the arc of this ticket off those that are out.
pub(crate) fn take_back(out: &mut Vec<Leg>, ticket: u64)
    ensures out { out.new.items ≡ without ticket out.old.items }
    ensures room { vec_capacity out.new ≡ vec_capacity out.old }
{
    out.retain(
        |leg| -> bool
            ensures other { result ≡ not (nat_eq leg.now.ticket ticket) }
        { leg.ticket != ticket },
    );
}
