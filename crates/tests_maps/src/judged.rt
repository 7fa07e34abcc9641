//! An arc that is taken from a frontier and judged.

ghost use Rattle.std.specs.Prelude.{◌≡◌, ◌+◌, IfSome};

use sbpl_epase::{Claim, Judged, Lined, Pass, Seat, Second, Shared, Turn, Unseen, judge};
use sbpl_plan::{Graph, Guide};
use std::sync::Wait;

/// Takes an arc and judges it, where there is one.
pub(crate) fn judged<'g, G: Graph, H: Guide, N: Pass, M: Second, L: Lined, R: Wait>(
    rt: &R,
    shared: &Shared<'g, G, H, N, Unseen, M, L>,
    seat: &mut Seat<N, M, L>,
    graph: &G,
) -> Option<(Judged<N>, Claim<M>)>
    requires graph { G.network graph.now ≡ N.query.network }
    ensures same { IfSome result (λ r. r.1 ≡ record { ticket = r.0.number; state = r.0.state; arc = r.0.arc }) }
    ensures takes { IfSome result (λ r. seat.new ≡ record seat.old { takes = seat.old.takes + 1 }) }
{
    match shared.next(rt, seat) {
        Ok(Turn::Job(ticket, claim)) => Some((judge(ticket, graph), claim)),
        Ok(Turn::NotYet(_seen) | Turn::Over(_seen) | Turn::Spent(_seen)) => None,
        Err(_) => None,
    }
}
