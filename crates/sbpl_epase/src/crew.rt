//! The workers of a pass.

ghost use Rattle.std.specs.Prelude.{◌≡◌, ◌≤◌, [], All, IfOk, OnErr, OnOk, length, vec_capacity, vec_len};
ghost use Rattle.sbpl_epase.specs.Workers.{HasEnded};

use crate::Gate;
use crate::worker::{Context, Done, work};
use sbpl_adstar::{Graph, Guide, NoMemory};
use sbpl_frontier::{Lined, Pass, Past, Seat, Second, Shared};
use std::alloc::Global;
use std::sync::Wait;
use std::thread;
use std::thread::{JoinHandle, Scope, Threads};

/// A worker in a thread of its own, or what one left for which no thread could be started.
type Started<N, M, L> = Result<JoinHandle<Done<N, M, L>>, Done<N, M, L>>;

/// Has a worker in each seat work, in a thread of its own, until all have ended, and gives the seats back. Where a thread cannot be
/// started, the caller does that worker's work itself. The error is that memory ran out for a worker, or before the first one was
/// started.
pub(crate) fn run_workers<
    'g,
    R: Threads + Wait + Sync,
    T: Gate + Sync,
    G: Graph + Sync,
    H: Guide + Sync,
    N: Pass + Send + Sync,
    U: Past + Send,
    M: Second + Send + Sync,
    L: Lined + Send + Sync,
>(
    rt: &R,
    alloc: Global,
    shared: &Shared<'g, G, H, N, U, M, L>,
    seats: Vec<Seat<N, M, L>>,
    graph: &G,
    gate: &T,
) -> (Vec<Seat<N, M, L>>, Result<(), NoMemory>)
    requires graph { G.network graph.now ≡ N.query.network }
    requires even { All (λ s. length s.posts ≡ s.takes) seats.items }
    ensures all { vec_len result.0 ≡ vec_len seats }
    ensures even { All (λ s. length s.posts ≡ s.takes) result.0.items }
    ensures ended { OnOk result.1 (All (HasEnded N.query N.opening N.counts) result.0.items) }
{
    let context = Context {
        rt,
        shared,
        graph,
        gate,
        most: processors(rt),
    };
    let context = &context;
    thread::scope(
        thread::scope_env(),
        rt,
        move |scope| -> (Vec<Seat<N, M, L>>, Result<(), NoMemory>)
            requires { (G.network context.now.graph.now ≡ N.query.network) × All (λ s. length s.posts ≡ s.takes) seats.items }
            ensures { (vec_len result.0 ≡ vec_len seats) × All (λ s. length s.posts ≡ s.takes) result.0.items
                × OnOk result.1 (All (HasEnded N.query N.opening N.counts) result.0.items) }
        {
            let mut seats = seats;
            let outcome = work_all(scope, alloc, context, &mut seats);
            (seats, outcome)
        },
    )
}

/// Has a worker in each seat work until all have ended. The error is that memory ran out for a worker, or before the first one was
/// started.
fn work_all<
    's,
    'f,
    'g,
    E,
    R: Threads + Wait + Sync + 's,
    T: Gate + Sync + 's,
    G: Graph + Sync + 's,
    H: Guide + Sync + 's,
    N: Pass + Send + Sync + 's,
    U: Past + Send + 's,
    M: Second + Send + Sync + 's,
    L: Lined + Send + Sync + 's,
>(
    scope: &Scope<'s, E>,
    alloc: Global,
    context: &'s Context<'f, Shared<'g, G, H, N, U, M, L>, R, G, T>,
    seats: &mut Vec<Seat<N, M, L>>,
) -> Result<(), NoMemory>
    requires graph { G.network context.now.graph.now ≡ N.query.network }
    requires even { All (λ s. length s.posts ≡ s.takes) seats.old.items }
    ensures all { vec_len seats.new ≡ vec_len seats.old }
    ensures even { All (λ s. length s.posts ≡ s.takes) seats.new.items }
    ensures ended { OnOk result (All (HasEnded N.query N.opening N.counts) seats.new.items) }
{
    let started = start_all(scope, alloc, context, seats)?;
    join_all(context.rt, started, seats)
}

/// Starts a worker in each seat. The one error is that memory ran out before the first one was started.
fn start_all<
    's,
    'f,
    'g,
    E,
    R: Threads + Wait + Sync + 's,
    T: Gate + Sync + 's,
    G: Graph + Sync + 's,
    H: Guide + Sync + 's,
    N: Pass + Send + Sync + 's,
    U: Past + Send + 's,
    M: Second + Send + Sync + 's,
    L: Lined + Send + Sync + 's,
>(
    scope: &Scope<'s, E>,
    alloc: Global,
    context: &'s Context<'f, Shared<'g, G, H, N, U, M, L>, R, G, T>,
    seats: &mut Vec<Seat<N, M, L>>,
) -> Result<Vec<Started<N, M, L>>, NoMemory>
    requires graph { G.network context.now.graph.now ≡ N.query.network }
    requires even { All (λ s. length s.posts ≡ s.takes) seats.old.items }
    ensures all { IfOk result (λ started. vec_len started ≡ vec_len seats.old) }
    ensures none_left { OnOk result (seats.new.items ≡ []) }
    ensures room { OnOk result (vec_len seats.old ≤ vec_capacity seats.new) }
    ensures same { OnErr result (seats.new ≡ seats.old) }
{
    let mut started = Vec::new(alloc);
    started.reserve(seats.len())?;
    'starts: while let Some(seat) = seats.pop() {
        started.push_reserved(start(scope, context, seat));
    }
    Ok(started)
}

/// Starts a worker. Where no thread can be started, the caller does its work.
fn start<
    's,
    'f,
    'g,
    E,
    R: Threads + Wait + Sync + 's,
    T: Gate + Sync + 's,
    G: Graph + Sync + 's,
    H: Guide + Sync + 's,
    N: Pass + Send + Sync + 's,
    U: Past + Send + 's,
    M: Second + Send + Sync + 's,
    L: Lined + Send + Sync + 's,
>(
    scope: &Scope<'s, E>,
    context: &'s Context<'f, Shared<'g, G, H, N, U, M, L>, R, G, T>,
    seat: Seat<N, M, L>,
) -> Started<N, M, L>
    requires graph { G.network context.now.graph.now ≡ N.query.network }
    requires even { length seat.posts ≡ seat.takes }
{
    let job = move || -> Done<N, M, L>
        requires { (G.network context.now.graph.now ≡ N.query.network) × (length seat.posts ≡ seat.takes) }
    { work(context, seat) };
    match scope.spawn(job) {
        Ok(handle) => Ok(handle),
        Err(job) => Err((job.value)()),
    }
}

/// Waits until all workers have ended, and gives their seats back. The error is that memory ran out for one of them.
fn join_all<R: Threads, N: Pass, M: Second, L: Lined>(
    rt: &R,
    started: Vec<Started<N, M, L>>,
    seats: &mut Vec<Seat<N, M, L>>,
) -> Result<(), NoMemory>
    requires none { seats.old.items ≡ [] }
    requires room { vec_len started ≤ vec_capacity seats.old }
    ensures all { vec_len seats.new ≡ vec_len started }
    ensures even { All (λ s. length s.posts ≡ s.takes) seats.new.items }
    ensures ended { OnOk result (All (HasEnded N.query N.opening N.counts) seats.new.items) }
{
    let mut rest = started;
    let mut refused = false;
    'joins: while let Some(worker) = rest.pop() {
        let done = join(rt, worker);
        refused |= done.why.is_err();
        seats.push_reserved(done.seat);
    }
    if refused { Err(NoMemory) } else { Ok(()) }
}

/// Waits until a worker has ended.
fn join<R: Threads, N: Pass, M: Second, L: Lined>(
    rt: &R,
    worker: Started<N, M, L>,
) -> Done<N, M, L> {
    match worker {
        Ok(handle) => handle.join(rt),
        Err(done) => done,
    }
}

/// How many processors there are, or four where the system does not tell.
fn processors<R: Threads>(rt: &R) -> u64 {
    match thread::available_parallelism(rt) {
        Ok(count) => count.get() as u64,
        Err(_) => 4,
    }
}
