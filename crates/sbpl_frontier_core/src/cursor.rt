//! The ready arcs: those of one state that have a head, from one number on.

ghost use Rattle.std.specs.Prelude.{◌≡◌, ◌<◌, [], MatchOption};
ghost use Rattle.sbpl_frontier_core.specs.Cursor.{IsFirstHead, arcs_from};

use sbpl_frontier_rules::Graph;

/// The number of the first arc of `s` from this number on that has a head, if one has.
pub(crate) fn first_head<G: Graph>(graph: &G, s: u32, from: u32) -> Option<u32>
    requires state { s < (G.network graph.now).states }
    ensures first { MatchOption result (arcs_from (G.network graph.now) s from ≡ []) (IsFirstHead (G.network graph.now) s from) }
{
    for k in from..graph.fan(s) {
        if graph.head(s, k).is_some() {
            return Some(k);
        }
    }
    None
}
