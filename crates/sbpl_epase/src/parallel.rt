//! A pass by several workers.

ghost use Rattle.std.specs.Prelude.{◌≡◌, ◌≤◌, ◌⊎◌, [], IfOk};
ghost use Rattle.sbpl_adstar.specs.sbpl_search.Query.{query};
ghost use Rattle.sbpl_frontier.specs.sbpl_frontier_rules.Events.{IsOutOfBudget, IsRest};
ghost use Rattle.sbpl_frontier.specs.sbpl_frontier_core.Book.{IsReplay};
ghost use Rattle.sbpl_frontier.specs.sbpl_frontier_core.Passes.{EndsSo};
ghost use Rattle.sbpl_frontier.specs.sbpl_frontier_core.Seats.{AreTakenBelow};
ghost use Rattle.sbpl_epase.specs.Making.{CanPass, Leaves};

use crate::crew::run_workers;
use crate::{Gate, Passed};
use sbpl_adstar::{Graph, Guide, NoMemory, PassEnd};
use sbpl_frontier::{
    Claims, Core, CoreOf, Lined, Parts, Pass, Past, Second, Shared, UnnamedQueue, Unseen, go_on,
    nothing_begun,
};
use std::alloc::Global;
use std::marker::Brand;
use std::sync::Wait;
use std::sync::ledger::Blank;
use std::thread::Threads;

/// Goes on, by 1 to 64 workers, with a core whose journal is empty, until the pass is at rest or its budget is spent: then no arc
/// is ready and none is out. Each worker takes arcs, calls the gate, judges with no lock held, and posts. The one error is that
/// memory ran out, and then the core is given up.
pub fn parallel_pass<
    'g,
    R: Threads + Wait + Sync,
    T: Gate + Sync,
    G: Graph + Sync,
    H: Guide + Sync,
    N: Pass + Send + Sync,
>(
    rt: &R,
    alloc: Global,
    core: Core<'g, G, H, N>,
    graph: &G,
    workers: u32,
    gate: &T,
) -> Result<Core<'g, G, H, N>, NoMemory>
    requires some { 1 ≤ workers }
    requires few { workers ≤ 64 }
    requires empty { core.journal ≡ [] }
    requires graph { G.network graph.now ≡ N.query.network }
    ensures ends { IfOk result (λ core. IsRest N.query core.frontier ⊎ IsOutOfBudget N.query core.frontier) }
    ensures replay { IfOk result (λ core. IsReplay N.query N.opening N.counts core.journal core.frontier) }
    // The workers sit in the seats from 0 upwards.
    ensures seats { IfOk result (λ core. AreTakenBelow workers core.journal) }
{
    match pass_of(rt, alloc, core, graph, workers, gate) {
        Ok((core, _end)) => {
            let _out = core.out();
            Ok(core)
        }
        Err(_core) => Err(NoMemory),
    }
}

/// The same, with how the pass ended, and with the core as it stands where memory ran out.
fn pass_of<
    'g,
    R: Threads + Wait + Sync,
    T: Gate + Sync,
    G: Graph + Sync,
    H: Guide + Sync,
    N: Pass + Send + Sync,
    U: Past + Send,
>(
    rt: &R,
    alloc: Global,
    core: CoreOf<'g, G, H, N, U>,
    graph: &G,
    workers: u32,
    gate: &T,
) -> Result<(CoreOf<'g, G, H, N, U>, PassEnd), CoreOf<'g, G, H, N, U>>
    requires some { 1 ≤ workers }
    requires few { workers ≤ 64 }
    requires empty { core.journal ≡ [] }
    requires graph { G.network graph.now ≡ N.query.network }
    ensures ends { IfOk result (λ r. EndsSo N.query r.1 r.0.frontier) }
    ensures seats { IfOk result (λ r. AreTakenBelow workers r.0.journal) }
{
    if workers == 1 {
        let _out = core.out();
        return go_on(core, graph, gate);
    }
    let claims = match Claims::new(alloc) {
        Ok(claims) => claims,
        Err(NoMemory) => return Err(core),
    };
    let takes = Blank::new(workers as u64);
    let core = share_as::<Brand, R, T, G, H, N, U>(
        rt, alloc, core, graph, workers, gate, takes, claims,
    )?;
    go_on(core, graph, gate)
}

/// Shares the core among workers, where the values that they share have a second name, until all of them have ended. Then no arc is
/// out. Where memory ran out the core comes back as the workers left it.
fn share_as<
    'g,
    M: Second + Send + Sync,
    R: Threads + Wait + Sync,
    T: Gate + Sync,
    G: Graph + Sync,
    H: Guide + Sync,
    N: Pass + Send + Sync,
    U: Past + Send,
>(
    rt: &R,
    alloc: Global,
    core: CoreOf<'g, G, H, N, U>,
    graph: &G,
    workers: u32,
    gate: &T,
    takes: Blank,
    claims: Claims,
) -> Result<CoreOf<'g, G, H, N, U>, CoreOf<'g, G, H, N, U>>
    requires some { 1 ≤ workers }
    requires few { workers ≤ 64 }
    requires empty { core.journal ≡ [] }
    requires graph { G.network graph.now ≡ N.query.network }
    requires parts { M.parts ≡ workers }
    requires takes { (takes.name ≡ M.takes) × (takes.parts ≡ M.parts) }
    requires claims { claims ≡ M.table }
    ensures out { IfOk result (λ core. core.frontier.out ≡ []) }
    ensures seats { IfOk result (λ core. AreTakenBelow workers core.journal) }
{
    let line = match UnnamedQueue::<N, M>::new(alloc, workers) {
        Ok(line) => line,
        Err(NoMemory) => return Err(core),
    };
    line_as::<Brand, M, R, T, G, H, N, U>(
        rt, alloc, core, graph, workers, gate, takes, claims, line,
    )
}

/// The same, where the line by which judgements come back has a name too.
fn line_as<
    'g,
    L: Lined + Send + Sync,
    M: Second + Send + Sync,
    R: Threads + Wait + Sync,
    T: Gate + Sync,
    G: Graph + Sync,
    H: Guide + Sync,
    N: Pass + Send + Sync,
    U: Past + Send,
>(
    rt: &R,
    alloc: Global,
    core: CoreOf<'g, G, H, N, U>,
    graph: &G,
    workers: u32,
    gate: &T,
    takes: Blank,
    claims: Claims,
    line: UnnamedQueue<N, M>,
) -> Result<CoreOf<'g, G, H, N, U>, CoreOf<'g, G, H, N, U>>
    requires some { 1 ≤ workers }
    requires few { workers ≤ 64 }
    requires empty { core.journal ≡ [] }
    requires graph { G.network graph.now ≡ N.query.network }
    requires parts { M.parts ≡ workers }
    requires takes { (takes.name ≡ M.takes) × (takes.parts ≡ M.parts) }
    requires claims { claims ≡ M.table }
    requires line { line ≡ L.line }
    requires room { line.slots ≡ workers }
    ensures out { IfOk result (λ core. core.frontier.out ≡ []) }
    ensures seats { IfOk result (λ core. AreTakenBelow workers core.journal) }
{
    let (shared, seats) = Shared::<'g, G, H, N, U, M, L>::new(
        alloc, core, workers, takes, line, claims,
    )?;
    let (seats, outcome) = run_workers(rt, alloc, &shared, seats, graph, gate);
    let core = shared.finish(rt, seats);
    match outcome {
        Ok(()) => Ok(core),
        Err(NoMemory) => Err(core),
    }
}

/// A pass of this inflation, in thousandths, 1000 to 100000, by 1 to 64 workers, from the parts that an earlier pass gave back,
/// and back to them. The journal is kept, or contracts alone see it. Where memory runs out, the parts come back as the events so
/// far left them.
pub fn parallel_pass_parts<
    R: Threads + Wait + Sync,
    T: Gate + Sync,
    G: Graph + Sync,
    H: Guide + Sync,
>(
    rt: &R,
    gate: &T,
    workers: u32,
    alloc: Global,
    graph: &G,
    guide: &H,
    parts: Parts,
    goal: u32,
    eps: u32,
    keeps: bool,
) -> Result<Passed, Parts>
    requires can { CanPass (query (G.network graph.now) (H.distance guide.now) eps goal)
        (H.guides guide.now (G.network graph.now) goal) workers parts }
    ensures left { Leaves (query (G.network graph.now) (H.distance guide.now) eps goal) workers parts keeps result }
{
    parts_as::<Brand, R, T, G, H>(
        rt, gate, workers, alloc, graph, guide, parts, goal, eps, keeps,
    )
}

/// The same, where the values of the pass have a name.
fn parts_as<
    N: Pass + Send + Sync,
    R: Threads + Wait + Sync,
    T: Gate + Sync,
    G: Graph + Sync,
    H: Guide + Sync,
>(
    rt: &R,
    gate: &T,
    workers: u32,
    alloc: Global,
    graph: &G,
    guide: &H,
    parts: Parts,
    goal: u32,
    eps: u32,
    keeps: bool,
) -> Result<Passed, Parts>
    requires query { query (G.network graph.now) (H.distance guide.now) eps goal ≡ N.query }
    requires labels { parts.labels ≡ N.opening }
    requires budget { parts.budget ≡ N.counts }
    requires keeps { keeps ≡ N.keeps }
    requires can { CanPass (query (G.network graph.now) (H.distance guide.now) eps goal)
        (H.guides guide.now (G.network graph.now) goal) workers parts }
    ensures left { Leaves N.query workers parts keeps result }
{
    nothing_begun(graph, guide, &parts.labels, goal, eps, &parts.budget);
    let core = CoreOf::<'_, G, H, N, Unseen>::open_parts(
        alloc, graph, guide, parts, goal, eps, keeps,
    )?;
    match pass_of(rt, alloc, core, graph, workers, gate) {
        Ok((core, end)) => {
            let (parts, journal) = core.finish_parts();
            Ok(Passed {
                parts,
                journal,
                end,
            })
        }
        Err(core) => Err(core.give_up()),
    }
}
