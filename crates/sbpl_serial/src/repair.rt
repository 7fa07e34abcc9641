//! Labels are repaired after a change of the graph.

ghost use Rattle.std.specs.Prelude.{◌≡◌, ℕ, ◌^◌, ◌<◌, ◌⊎◌};
ghost use Rattle.std.specs.List.{All, Contains};
ghost use Rattle.sbpl_search.specs.sbpl_graph.Fit.{FitCount};
ghost use Rattle.sbpl_search.specs.sbpl_graph.Kept.{NoneUnder};
ghost use Rattle.sbpl_search.specs.sbpl_labels.Marks.{states_of, g_of, v_of};
ghost use Rattle.sbpl_search.specs.Changed.{IsChangeable};
ghost use Rattle.sbpl_serial.specs.Meant.{AreRepairedFor};
ghost use Rattle.sbpl_serial.specs.Repaired.{AreRepaired};
ghost use Rattle.sbpl_serial.specs.Run.{IsOver, IsUnder};

use sbpl_search::{Graph, Labels};

/// Repairs labels after a change of the graph: each touched state is recomputed on the graph as it now is, and every v stays. The
/// condition is that every other state, but the start, has on this graph the g and the back arc, or none, that exact labels ask
/// for. A state may be touched twice. No other state is looked at. It takes no memory.
pub fn change_labels<G: Graph>(labels: &mut Labels, graph: &G, touched: &[u32])
    requires states { states_of labels.old ≡ (G.network graph.now).states }
    requires changeable { IsChangeable (G.network graph.now) touched.now labels.old }
    ensures repaired { AreRepairedFor (G.network graph.now) touched.now labels.old labels.new }
    ensures fits { (count : ℕ) → FitCount (states_of labels.old) (g_of labels.old) (v_of labels.old) count
        → FitCount (states_of labels.old) (g_of labels.new) (v_of labels.new) count }
    // Where no state was underconsistent, only touched ones are.
    ensures under { NoneUnder (states_of labels.old) (g_of labels.old) (v_of labels.old)
        → (s : ℕ) → s < states_of labels.old → IsUnder labels.new s → Contains touched.now s }
    // Only touched states become overconsistent.
    ensures over { (s : ℕ) → IsOver labels.new s → IsOver labels.old s ⊎ Contains touched.now s }
{
    let _states = graph.states();
    recompute_all(labels, graph, touched);
    let _start = labels.start();
}

/// Recomputes each of these states in turn.
fn recompute_all<G: Graph>(labels: &mut Labels, graph: &G, touched: &[u32])
    requires states { states_of labels.old ≡ (G.network graph.now).states }
    requires inside { All (λ t. t < states_of labels.old) touched.now }
    requires fits { FitCount (states_of labels.old) (g_of labels.old) (v_of labels.old) (2 ^ 30) }
    ensures repaired { AreRepaired (G.network graph.now) touched.now labels.old labels.new }
    ensures fits { (count : ℕ) → FitCount (states_of labels.old) (g_of labels.old) (v_of labels.old) count
        → FitCount (states_of labels.old) (g_of labels.new) (v_of labels.new) count }
{
    for t in touched.iter() {
        labels.recompute(graph, *t);
    }
}
