//! What labels show after a pass.

ghost use Rattle.std.specs.Prelude.{◌≡◌, ◌≤◌, ◌<◌, [], vec_capacity};
ghost use Rattle.sbpl_search.specs.sbpl_graph.Exact.{AreExact};
ghost use Rattle.sbpl_search.specs.sbpl_labels.Marks.{states_of, g_of, v_of, back_of};
ghost use Rattle.sbpl_search.specs.Ready.{IsStartFresh};
ghost use Rattle.sbpl_plan.specs.Looking.{WalkFinds};

use crate::found::Found;
use sbpl_search::{Graph, Guide, Search, Walk, bound_of};

/// What the walk along the back arcs of a search gives. `into` has room for as many arcs as there are states; it then holds
/// the arcs of the path, from the start. It takes no memory.
pub(crate) fn look<G: Graph, H: Guide, S: Search<G, H>>(
    graph: &G,
    guide: &H,
    search: &S,
    into: &mut Vec<u32>,
) -> Found
    requires guide { H.guides guide.now (G.network graph.now) (S.state search.now).goal }
    requires states { states_of (S.state search.now).labels ≡ (G.network graph.now).states }
    requires exact { AreExact (G.network graph.now) (S.state search.now).labels.start (g_of (S.state search.now).labels)
        (v_of (S.state search.now).labels) (back_of (S.state search.now).labels) }
    requires fresh { IsStartFresh (S.state search.now).labels }
    requires empty { into.old.items ≡ [] }
    requires room { states_of (S.state search.now).labels ≤ vec_capacity into.old }
    ensures found { WalkFinds (G.network graph.now) (H.distance guide.now) (S.state search.now).goal
        (S.state search.now).labels into.new.items result }
    ensures room { vec_capacity into.new ≡ vec_capacity into.old }
{
    let _states = graph.states();
    match search.labels().walk(graph, search.goal(), into) {
        Walk::Path(cost) => {
            let bound = bound_of(cost, search.low(guide)).unwrap();
            Found::Path { cost, bound }
        }
        Walk::Broken(_) => Found::Broken,
        Walk::None => Found::None,
    }
}
