//! The labels of a search are made ready for a graph that has changed.

ghost use Rattle.std.specs.Prelude.{◌≡◌, ℕ, ◌≤◌};
ghost use Rattle.std.specs.List.Sorted.{IsStrictlyIncreasing};
ghost use Rattle.sbpl_adstar.specs.sbpl_graph.Kept.{NoneUnder};
ghost use Rattle.sbpl_adstar.specs.sbpl_graph.Network.{Network};
ghost use Rattle.sbpl_adstar.specs.sbpl_labels.Marks.{g_of, states_of, v_of};
ghost use Rattle.sbpl_adstar.specs.sbpl_search.Changed.{IsChangeable};
ghost use Rattle.sbpl_adstar.specs.sbpl_search.Ready.{AreReady, IsStartFresh};
ghost use Rattle.sbpl_frontier.specs.sbpl_frontier_core.Waiting.{HoldsOver};
ghost use Rattle.sbpl_epase.specs.Planner.{BeginsRaised};

use sbpl_adstar::{Graph, Labels, Raiser, change_labels};
use sbpl_frontier::Space;

/// Repairs labels, raises states until none is underconsistent, and notes where the next pass may find overconsistent ones: among
/// the touched and the raised states, and where it found them before.
pub(crate) fn repair<G: Graph>(
    labels: &mut Labels,
    space: &mut Space,
    raiser: &mut Raiser,
    graph: &G,
    touched: &[u32],
)
    requires states { states_of labels.old ≡ (G.network graph.now).states }
    requires changeable { IsChangeable (G.network graph.now) touched.now labels.old }
    requires upwards { IsStrictlyIncreasing touched.now }
    requires none_under { NoneUnder (states_of labels.old) (g_of labels.old) (v_of labels.old) }
    requires over { HoldsOver space.old labels.old }
    requires room { states_of labels.old ≤ raiser.old.room }
    ensures begun { BeginsRaised (G.network graph.now) touched.now labels.old labels.new raiser.new.raised }
    ensures none_under { NoneUnder (states_of labels.new) (g_of labels.new) (v_of labels.new) }
    ensures over { HoldsOver space.new labels.new }
    ensures ready { (n : Network) (count : ℕ) → n.states ≡ (G.network graph.now).states → AreReady n labels.old count
        → AreReady (G.network graph.now) labels.new count }
    ensures fresh { IsStartFresh labels.old → IsStartFresh labels.new }
    ensures start { labels.new.start ≡ labels.old.start }
    ensures same_states { states_of labels.new ≡ states_of labels.old }
    ensures room { raiser.new.room ≡ raiser.old.room }
{
    change_labels(labels, graph, touched);
    raiser.raise_touched(graph, labels, touched);
    space.note_over(labels, touched);
    space.note_over(labels, raiser.raised());
}
