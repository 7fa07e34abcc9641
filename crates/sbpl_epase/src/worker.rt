//! What a worker does.

ghost use Rattle.std.specs.Prelude.{◌≡◌, IfOk, length};
ghost use Rattle.std.proofs.Props.{props};
ghost use Rattle.sbpl_frontier.specs.Tally.{posted};
ghost use Rattle.sbpl_epase.specs.Workers.{SawEnd};

use crate::Gate;
use sbpl_adstar::{Graph, Guide, NoMemory, PassEnd};
use sbpl_frontier::{Claim, Lined, Pass, Past, Seat, Second, Shared, Ticket, Turn, judge};
use std::sync::Wait;

/// The seat of a worker that has ended, which posted the judgement of each arc that it took, and why it ended: because it
/// saw how the pass ends, or because memory ran out for it.
#[derive(Drop)]
pub(crate) struct Done<N: Pass, M: Second, L: Lined> {
    pub(crate) seat: Seat<N, M, L>,
    pub(crate) why: Result<PassEnd, NoMemory>,
    pub ghost even: { length seat.posts ≡ seat.takes },
    pub ghost saw: { IfOk why (λ end. ∥ SawEnd N.query N.opening N.counts end seat ∥₁) } by { Prim.hlevel props },
}

impl<N: Pass, M: Second, L: Lined> Done<N, M, L> {
    fn new(seat: Seat<N, M, L>, why: Result<PassEnd, NoMemory>) -> Done<N, M, L>
        requires even { length seat.posts ≡ seat.takes }
        requires saw { IfOk why (λ end. ∥ SawEnd N.query N.opening N.counts end seat ∥₁) }
    {
        Done { seat, why }
    }
}

/// What all workers of a pass share: the runtime, the frontier, the graph and the gate, and how many of them are of use at a time.
#[derive(Drop)]
pub(crate) struct Context<'s, S, R, G, T> {
    pub(crate) rt: &'s R,
    pub(crate) shared: &'s S,
    pub(crate) graph: &'s G,
    pub(crate) gate: &'s T,
    pub(crate) most: u64,
}

/// A worker's work: it takes arcs until it sees how the pass ends, or memory runs out.
pub(crate) fn work<
    's,
    'g,
    R: Wait,
    T: Gate,
    G: Graph,
    H: Guide,
    N: Pass,
    U: Past,
    M: Second,
    L: Lined,
>(
    context: &Context<'s, Shared<'g, G, H, N, U, M, L>, R, G, T>,
    seat: Seat<N, M, L>,
) -> Done<N, M, L>
    requires graph { G.network context.now.graph.now ≡ N.query.network }
    requires even { length seat.posts ≡ seat.takes }
    ensures saw { IfOk result.why (λ end. ∥ SawEnd N.query N.opening N.counts end result.seat ∥₁) }
{
    let mut seat = seat;
    let why = take_turns(context, &mut seat);
    context.shared.wake_all();
    Done::new(seat, why)
}

/// Takes arcs, judges them with no lock held and posts the judgements, until the pass is at rest or its budget is spent, as the
/// journal then shows. The one error is that memory ran out. A worker that finds nothing to do waits until a judgement comes
/// back; one that gets an arc wakes another, for which there may be one too.
fn take_turns<'s, 'g, R: Wait, T: Gate, G: Graph, H: Guide, N: Pass, U: Past, M: Second, L: Lined>(
    context: &Context<'s, Shared<'g, G, H, N, U, M, L>, R, G, T>,
    seat: &mut Seat<N, M, L>,
) -> Result<PassEnd, NoMemory>
    requires graph { G.network context.now.graph.now ≡ N.query.network }
    requires even { length seat.old.posts ≡ seat.old.takes }
    ensures even { length seat.new.posts ≡ seat.new.takes }
    ensures saw { IfOk result (λ end. ∥ SawEnd N.query N.opening N.counts end seat.new ∥₁) }
{
    let Context {
        rt,
        shared,
        graph,
        gate,
        most,
    } = *context;
    'turns: for _ in rt.forever() {
        let moment = shared.moment();
        match shared.next(rt, seat)? {
            Turn::Job(ticket, claim) => {
                shared.wake_one(most);
                serve(rt, shared, seat, ticket, claim, graph, gate);
            }
            Turn::NotYet(_seen) => shared.wait(rt, moment, most),
            Turn::Over(_seen) => return Ok(PassEnd::Rest),
            Turn::Spent(_seen) => return Ok(PassEnd::Spent),
        }
    }
    unreachable!()
}

/// Judges an arc and posts the judgement.
fn serve<'g, R: Wait, T: Gate, G: Graph, H: Guide, N: Pass, U: Past, M: Second, L: Lined>(
    rt: &R,
    shared: &Shared<'g, G, H, N, U, M, L>,
    seat: &mut Seat<N, M, L>,
    ticket: Ticket<N>,
    claim: Claim<M>,
    graph: &G,
    gate: &T,
)
    requires graph { G.network graph.now ≡ N.query.network }
    requires same { claim ≡ record { ticket = ticket.number; state = ticket.state; arc = ticket.arc } }
    ensures posted { seat.new ≡ posted seat.old ticket.number (N.query.network.cost ticket.state ticket.arc) }
{
    gate.before_judge(ticket.number());
    let judged = judge(ticket, graph);
    shared.post(rt, seat, judged, claim);
}
