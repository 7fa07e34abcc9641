//! Judgements that come back by the line, with one seat: what the journal then holds.

ghost use Rattle.std.specs.Prelude.{◌≡◌, ℕ, ◌<◌, [], All, IfSome, length, sum_by, true, vec_len};
ghost use Rattle.sbpl_heur.specs.sbpl_cost.Lattices.{network_of};
ghost use Rattle.sbpl_heur.specs.Bests.{IsGuide, distance_in};
ghost use Rattle.sbpl_plan.specs.sbpl_search.Query.{query};
ghost use Rattle.sbpl_plan.specs.sbpl_search.Ready.{AreReady};

use crate::judged::judged;
use crate::texts::reads;
use sbpl_epase::{
    Claims, Core, Lined, Next, Pass, Seat, Second, Shared, UnnamedQueue, Unseen, judge,
};
use sbpl_heur::{Best, Lattice};
use sbpl_plan::{Budget, Graph, Labels};
use std::alloc::Global;
use std::marker::Brand;
use std::sync::Wait;
use std::sync::ledger::Blank;

/// Whether a fourth arc is taken and its judgement posted, what the journal then holds, and which arcs are taken next.
type Row = (bool, &'static str, [Option<(u32, u32)>; 2]);

/// Three judgements come back: the second and the third find the line full, which has room for one, and the end finds the
/// third there.
pub(crate) const THREE: Row = (
    false,
    "[Opened { state: 0 }, Taken { ticket: 0, seat: 0, state: 0, arc: 0 }, Taken { ticket: 1, seat: 0, state: 0, arc: 1 }, Taken { ticket: 2, seat: 0, state: 0, arc: 2 }, Posted { ticket: 0, cost: Some(75) }, Posted { ticket: 1, cost: Some(150) }, Posted { ticket: 2, cost: Some(25) }]",
    [Some((48, 0)), Some((48, 1))],
);

/// The same and a fourth. Whoever asks for it applies what the line holds, before it is told what to do.
pub(crate) const FOUR: Row = (
    true,
    "[Opened { state: 0 }, Taken { ticket: 0, seat: 0, state: 0, arc: 0 }, Taken { ticket: 1, seat: 0, state: 0, arc: 1 }, Taken { ticket: 2, seat: 0, state: 0, arc: 2 }, Posted { ticket: 0, cost: Some(75) }, Posted { ticket: 1, cost: Some(150) }, Posted { ticket: 2, cost: Some(25) }, Opened { state: 48 }, Taken { ticket: 3, seat: 0, state: 48, arc: 0 }, Posted { ticket: 3, cost: Some(25) }]",
    [Some((48, 1)), Some((48, 3))],
);

/// The frontier of these rows.
type Frontier<'g, N, M, L> = Shared<'g, Lattice, Best, N, Unseen, M, L>;

/// Takes three arcs, and then posts their judgements: the second and the third find the line full, which has room for one. Where
/// `further`, one more arc is taken and its judgement posted.
fn are_posted<'g, N: Pass, M: Second, L: Lined, R: Wait>(
    rt: &R,
    shared: &Frontier<'g, N, M, L>,
    seat: &mut Seat<N, M, L>,
    lattice: &Lattice,
    further: bool,
) -> Option<()>
    requires graph { network_of lattice.now ≡ N.query.network }
    requires even { length seat.old.posts ≡ seat.old.takes }
    ensures even { IfSome result (λ _. length seat.new.posts ≡ seat.new.takes) }
{
    let first = judged(rt, shared, seat, lattice)?;
    let second = judged(rt, shared, seat, lattice)?;
    let third = judged(rt, shared, seat, lattice)?;
    shared.post(rt, seat, first.0, first.1);
    shared.post(rt, seat, second.0, second.1);
    shared.post(rt, seat, third.0, third.1);
    if further {
        let (judged, claim) = judged(rt, shared, seat, lattice)?;
        shared.post(rt, seat, judged, claim);
    }
    Some(())
}

/// The same, by the one seat of a frontier.
fn posted_by<'g, N: Pass, M: Second, L: Lined, R: Wait>(
    rt: &R,
    shared: &Frontier<'g, N, M, L>,
    seats: Vec<Seat<N, M, L>>,
    lattice: &Lattice,
    further: bool,
) -> Option<Vec<Seat<N, M, L>>>
    requires graph { network_of lattice.now ≡ N.query.network }
    requires one { vec_len seats ≡ 1 }
    requires even { All (λ s. length s.posts ≡ s.takes) seats.items }
    ensures one { IfSome result (λ seats. vec_len seats ≡ 1) }
    ensures even { IfSome result (λ seats. sum_by (λ s. length s.posts) seats.items ≡ sum_by (λ s. s.takes) seats.items) }
{
    let mut seats = seats;
    let mut seat = seats.pop()?;
    are_posted(rt, shared, &mut seat, lattice, further)?;
    seats.push(seat).ok()?;
    Some(seats)
}

/// Takes an arc and applies its judgement, and answers of which state it is and its number.
fn next_arc<'g, N: Pass>(
    core: &mut Core<'g, Lattice, Best, N>,
    lattice: &Lattice,
) -> Option<(u32, u32)>
    requires graph { network_of lattice.now ≡ N.query.network }
{
    match core.next(0) {
        Ok(Next::Job(ticket)) => {
            let arc = (ticket.state(), ticket.arc());
            core.apply(judge(ticket, lattice));
            Some(arc)
        }
        Ok(Next::NotYet | Next::Over | Next::Spent) => None,
        Err(_) => None,
    }
}

/// Whether the journal and the next arcs are those of a row.
fn tells<'g, N: Pass>(
    alloc: Global,
    core: &mut Core<'g, Lattice, Best, N>,
    lattice: &Lattice,
    row: &Row,
) -> bool
    requires graph { network_of lattice.now ≡ N.query.network }
{
    let Some(events) = core.journal() else {
        return false;
    };
    reads(format!(in alloc; "{events:?}"), row.1)
        && [next_arc(core, lattice), next_arc(core, lattice)] == row.2
}

/// The same of a core once the judgements are posted, by values that have three names.
fn told_as<'g, L: Lined, M: Second, N: Pass, R: Wait>(
    rt: &R,
    alloc: Global,
    core: Core<'g, Lattice, Best, N>,
    takes: Blank,
    claims: Claims,
    line: UnnamedQueue<N, M>,
    lattice: &Lattice,
    row: &Row,
) -> bool
    requires graph { network_of lattice.now ≡ N.query.network }
    requires empty { core.journal ≡ [] }
    requires parts { M.parts ≡ 1 }
    requires takes { (takes.name ≡ M.takes) × (takes.parts ≡ M.parts) }
    requires claims { claims ≡ M.table }
    requires line { line ≡ L.line }
    requires room { line.slots ≡ 1 }
{
    let made = Shared::<'g, Lattice, Best, N, Unseen, M, L>::new(
        alloc, core, 1, takes, line, claims,
    );
    let (shared, seats) = match made {
        Ok(made) => made,
        Err(core) => {
            drop(core);
            return false;
        }
    };
    match posted_by(rt, &shared, seats, lattice, row.0) {
        Some(seats) => {
            let mut core = shared.finish(rt, seats);
            let tells = tells(alloc, &mut core, lattice, row);
            drop(core);
            tells
        }
        None => {
            drop(shared);
            false
        }
    }
}

/// The same, from labels, takes and claims that have names.
fn told_from<M: Second, N: Pass, R: Wait>(
    rt: &R,
    alloc: Global,
    lattice: &Lattice,
    best: &Best,
    labels: Labels,
    budget: Budget,
    takes: Blank,
    claims: Claims,
    goal: u32,
    row: &Row,
) -> bool
    requires query { query (network_of lattice.now) (distance_in best.now) 1000 goal ≡ N.query }
    requires guide { IsGuide (network_of lattice.now) goal best.now }
    requires labels { labels ≡ N.opening }
    requires budget { budget ≡ N.counts }
    requires keeps { N.keeps ≡ true }
    requires goal { goal < (network_of lattice.now).states }
    requires ready { AreReady (network_of lattice.now) labels budget.run }
    requires parts { M.parts ≡ 1 }
    requires takes { (takes.name ≡ M.takes) × (takes.parts ≡ M.parts) }
    requires claims { claims ≡ M.table }
{
    let Ok(line) = UnnamedQueue::<N, M>::new(alloc, 1) else {
        return false;
    };
    let opened = Core::<'_, Lattice, Best, N>::open(
        alloc, lattice, best, labels, goal, 1000, budget, true,
    );
    match opened {
        Ok(core) => told_as::<Brand, M, N, R>(rt, alloc, core, takes, claims, line, lattice, row),
        Err(_) => false,
    }
}

/// Labels to begin with.
fn labels_from<G: Graph>(alloc: Global, graph: &G, start: u32) -> Option<Labels>
    requires start { start < (G.network graph.now).states }
    ensures ready { IfSome result (λ labels. (count : ℕ) → AreReady (G.network graph.now) labels count) }
{
    match Labels::open(alloc, graph.states(), start) {
        Ok(labels) => Some(labels),
        Err(_) => None,
    }
}

/// Whether a row holds on the way from the first state to a goal.
pub(crate) fn told_on<R: Wait>(
    rt: &R,
    alloc: Global,
    lattice: &Lattice,
    best: &Best,
    goal: u32,
    row: &Row,
) -> Option<bool>
    requires guide { IsGuide (network_of lattice.now) goal best.now }
    requires goal { goal < (network_of lattice.now).states }
{
    let labels = labels_from(alloc, lattice, 0)?;
    let claims = Claims::new(alloc).ok()?;
    let budget = Budget::new(1 << 30);
    let takes = Blank::new(1);
    Some(told_from::<Brand, Brand, R>(
        rt, alloc, lattice, best, labels, budget, takes, claims, goal, row,
    ))
}
