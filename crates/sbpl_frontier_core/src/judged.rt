//! Arcs that have been judged.

ghost use Rattle.std.specs.Prelude.{◌≡◌};

use crate::{Pass, Ticket};
use sbpl_frontier_rules::Graph;
use std::marker::PhantomData;

/// The judgement of a ticket's arc: its cost on the graph, or `None` where it is not free. It cannot be copied.
#[derive(Drop)]
pub struct Judged<N: Pass> {
    pub(crate) number: u64,
    pub(crate) state: u32,
    pub(crate) arc: u32,
    pub(crate) cost: Option<u32>,
    pub(crate) of: PhantomData<N>,
    pub ghost judged: { cost ≡ N.query.network.cost state arc },
}

/// Judges the arc of a ticket, which is spent.
pub fn judge<G: Graph, N: Pass>(ticket: Ticket<N>, graph: &G) -> Judged<N>
    requires graph { G.network graph.now ≡ N.query.network }
    ensures number { result.number ≡ ticket.number }
    ensures state { result.state ≡ ticket.state }
    ensures arc { result.arc ≡ ticket.arc }
    ensures judged { result.cost ≡ N.query.network.cost ticket.state ticket.arc }
{
    let Ticket {
        number,
        state,
        arc,
        of,
    } = ticket;
    Judged {
        number,
        state,
        arc,
        cost: graph.judge(state, arc),
        of,
    }
}
