//! A judgement that is posted while another thread holds the lock of a frontier.

ghost use Rattle.std.specs.Prelude.{◌≡◌, [], false};
ghost use Rattle.tests_maps.specs.Pair.{pair};
ghost use Rattle.sbpl_plan.specs.sbpl_search.Query.{query};
ghost use Rattle.sbpl_plan.specs.sbpl_search.Ready.{AreReady};

use crate::judged::judged;
use sbpl_epase::{Claims, Core, Lined, Pass, Seat, Second, Shared, UnnamedQueue, Unseen};
use sbpl_plan::{Budget, Graph, Labels, Zero};
use std::alloc::Global;
use std::marker::Brand;
use std::sync::Wait;
use std::sync::atomic::{AtomicBool, Ordering};
use std::sync::ledger::Blank;
use std::test::Fail;
use std::thread::Threads;
use std::{hint, thread};

/// How often a thread looks for what another one does.
const TURNS: u64 = 1 << 28;

/// Whether this happens before the turns are used up.
fn comes(flag: &AtomicBool) -> bool {
    for _ in 0..TURNS {
        if flag.load(Ordering::SeqCst) {
            return true;
        }
        hint::spin_loop();
    }
    false
}

/// Two states, each with two arcs, which lead to the other and cost 1. Whoever asks where a second arc leads is held up
/// there until a judgement is posted, or until the turns are used up. A frontier asks for it while it holds its lock.
#[derive(Drop)]
struct Held {
    /// Whether somebody is held up.
    asked: AtomicBool,
    /// Whether a judgement is posted.
    posted: AtomicBool,
    /// Whether it was posted while somebody was held up.
    met: AtomicBool,
}

impl Held {
    /// A graph at which nobody is held up yet.
    fn new() -> Held {
        Held {
            asked: AtomicBool::new(false),
            posted: AtomicBool::new(false),
            met: AtomicBool::new(false),
        }
    }

    /// Waits until a judgement is posted.
    fn hold(&self) {
        self.asked.store(true, Ordering::SeqCst);
        self.met.store(comes(&self.posted), Ordering::SeqCst);
    }
}

impl Graph for Held {
    ghost use Rattle.tests_maps.specs.Pair.{pair};

    ghost network = { λ _. pair };

    fn states(&self) -> u32 {
        2
    }

    fn fan(&self, _s: u32) -> u32 {
        2
    }

    fn head(&self, s: u32, k: u32) -> Option<u32> {
        if k == 1 {
            self.hold();
        }
        Some(1 - s)
    }

    fn judge(&self, _s: u32, _k: u32) -> Option<u32> {
        Some(1)
    }

    fn tail_fan(&self, _t: u32) -> u32 {
        2
    }

    fn tail(&self, t: u32, j: u32) -> Option<(u32, u32)> {
        Some((1 - t, j))
    }

    fn gap(&self, _a: u32, _b: u32) -> u64 {
        0
    }
}

/// The frontier of this test.
type Frontier<'g, N, M, L> = Shared<'g, Held, Zero, N, Unseen, M, L>;

/// Asks for an arc, and posts its judgement.
fn ask<'g, R: Wait, N: Pass, M: Second, L: Lined>(
    rt: &R,
    shared: &Frontier<'g, N, M, L>,
    graph: &Held,
    seat: Seat<N, M, L>,
)
    requires network { N.query.network ≡ pair }
{
    let mut seat = seat;
    if let Some((judged, claim)) = judged(rt, shared, &mut seat, graph) {
        shared.post(rt, &mut seat, judged, claim);
    }
}

/// Whether a judgement is posted while another thread, which asks for an arc, holds the lock.
fn posts_meanwhile<
    'g,
    R: Threads + Wait + Sync,
    N: Pass + Send + Sync,
    M: Second + Send + Sync,
    L: Lined + Send + Sync,
>(rt: &R, shared: &Frontier<'g, N, M, L>, graph: &Held, seats: Vec<Seat<N, M, L>>) -> bool
    requires network { N.query.network ≡ pair }
{
    let mut seats = seats;
    let (Some(other), Some(mut seat)) = (seats.pop(), seats.pop()) else {
        return false;
    };
    thread::scope(
        thread::scope_env(),
        rt,
        move |scope| -> bool
            requires network { N.query.network ≡ pair }
        {
            let Some((judged, claim)) = judged(rt, shared, &mut seat, graph) else {
                return false;
            };
            let job = move ||
                requires { N.query.network ≡ pair }
            { ask(rt, shared, graph, other) };
            let Ok(handle) = scope.spawn(job) else {
                return false;
            };
            let is_asked = comes(&graph.asked);
            shared.post(rt, &mut seat, judged, claim);
            graph.posted.store(true, Ordering::SeqCst);
            handle.join(rt);
            is_asked && graph.met.load(Ordering::SeqCst)
        },
    )
}

/// The same, from a core whose values have three names.
fn posts_as<
    'g,
    L: Lined + Send + Sync,
    M: Second + Send + Sync,
    N: Pass + Send + Sync,
    R: Threads + Wait + Sync,
>(
    rt: &R,
    alloc: Global,
    core: Core<'g, Held, Zero, N>,
    takes: Blank,
    claims: Claims,
    line: UnnamedQueue<N, M>,
    graph: &Held,
) -> bool
    requires network { N.query.network ≡ pair }
    requires empty { core.journal ≡ [] }
    requires parts { M.parts ≡ 2 }
    requires takes { (takes.name ≡ M.takes) × (takes.parts ≡ M.parts) }
    requires claims { claims ≡ M.table }
    requires line { line ≡ L.line }
    requires room { line.slots ≡ 2 }
{
    let made = Shared::<'g, Held, Zero, N, Unseen, M, L>::new(alloc, core, 2, takes, line, claims);
    match made {
        Ok((shared, seats)) => {
            let posts = posts_meanwhile(rt, &shared, graph, seats);
            drop(shared);
            posts
        }
        Err(core) => {
            drop(core);
            false
        }
    }
}

/// The same, from labels, takes and claims that have names.
fn posts_from<M: Second + Send + Sync, N: Pass + Send + Sync, R: Threads + Wait + Sync>(
    rt: &R,
    alloc: Global,
    labels: Labels,
    budget: Budget,
    takes: Blank,
    claims: Claims,
    graph: &Held,
) -> bool
    requires query { query pair (λ s. 0) 1000 1 ≡ N.query }
    requires labels { labels ≡ N.opening }
    requires budget { budget ≡ N.counts }
    requires keeps { N.keeps ≡ false }
    requires ready { AreReady pair labels budget.run }
    requires parts { M.parts ≡ 2 }
    requires takes { (takes.name ≡ M.takes) × (takes.parts ≡ M.parts) }
    requires claims { claims ≡ M.table }
{
    let Ok(line) = UnnamedQueue::<N, M>::new(alloc, 2) else {
        return false;
    };
    let opened = Core::<'_, Held, Zero, N>::open(
        alloc, graph, &Zero, labels, 1, 1000, budget, false,
    );
    match opened {
        Ok(core) => posts_as::<Brand, M, N, R>(rt, alloc, core, takes, claims, line, graph),
        Err(_) => false,
    }
}

#[test]
fn posted_while_the_lock_is_held(rt: HostRuntime) -> Result<(), Fail> {
    let labels = Labels::open(rt.alloc(), 2, 0)?;
    let claims = Claims::new(rt.alloc())?;
    let graph = Held::new();
    let budget = Budget::new(8);
    let takes = Blank::new(2);
    let posts = posts_from::<Brand, Brand, HostRuntime>(
        &rt,
        rt.alloc(),
        labels,
        budget,
        takes,
        claims,
        &graph,
    );
    assert!(rt; posts, "the lock is waited for");
    Ok(())
}
