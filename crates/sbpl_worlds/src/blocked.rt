//! What is in the way of a path, where that is simple.

ghost use Rattle.std.specs.Prelude.{◌≡◌, ◌<◌, true, false};
ghost use Rattle.sbpl_promises.specs.Blocked.{IsBlockage, NoneEnters, NoneLeaves};

use sbpl_promises::{Blockage, Graph};

/// Whether an arc from a state is free.
fn leads_on<G: Graph>(graph: &G, s: u32) -> bool
    requires state { s < (G.network graph.now).states }
    ensures one { result ≡ true → NoneLeaves (G.network graph.now) s → ⊥ }
    ensures none { result ≡ false → NoneLeaves (G.network graph.now) s }
{
    for k in 0..graph.fan(s) {
        if graph.judge(s, k).is_some() {
            return true;
        }
    }
    false
}

/// Whether an arc into a state is free.
fn is_led_to<G: Graph>(graph: &G, t: u32) -> bool
    requires state { t < (G.network graph.now).states }
    ensures one { result ≡ true → NoneEnters (G.network graph.now) t → ⊥ }
    ensures none { result ≡ false → NoneEnters (G.network graph.now) t }
{
    // For its clause: the tails of a state are those of the graph's laws.
    let _states = graph.states();
    for j in 0..graph.tail_fan(t) {
        if let Some((from, arc)) = graph.tail(t, j) {
            if graph.judge(from, arc).is_some() {
                return true;
            }
        }
    }
    false
}

/// What is in the way of each path between two states, if it is simple.
pub(crate) fn blockage_of<G: Graph>(graph: &G, start: u32, goal: u32) -> Option<Blockage>
    requires start { start < (G.network graph.now).states }
    requires goal { goal < (G.network graph.now).states }
    ensures blocks { IsBlockage (G.network graph.now) start goal result }
{
    if start == goal {
        None
    } else if !leads_on(graph, start) {
        Some(Blockage::Start)
    } else if !is_led_to(graph, goal) {
        Some(Blockage::Goal)
    } else {
        None
    }
}
