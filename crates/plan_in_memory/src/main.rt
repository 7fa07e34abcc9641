//! Plans and repairs in memory, without files: a room with two doors, which close and open while the robot waits.
#![tactic(auto)]

ghost use Rattle.std.specs.Prelude.{◌≡◌, ◌<◌, ℕ, IfOk, IfSome, OnOk};
ghost use Rattle.sbpl_replan.specs.sbpl_adstar.Planner.{adstar};
ghost use Rattle.sbpl_replan.specs.sbpl_cost.Lattices.{network_of};
ghost use Rattle.sbpl_replan.specs.sbpl_ara.sbpl_search.Ready.{IsStartFresh};
ghost use Rattle.sbpl_replan.specs.sbpl_graph.Path.{IsFreePath};
ghost use Rattle.sbpl_replan.specs.sbpl_plan.Outcomes.{IsTrueOutcome};
ghost use Rattle.sbpl_replan.specs.OnLattice.{IsReadyOn};
ghost use Rattle.sbpl_replan.specs.Replanning.{StaysTheSame, standing_of};

mod room;

use crate::room::{FREE, WALL, door, lattice};
use anyhow::Context;
use sbpl_replan::{
    AdStar, Ask, FoundPath, Graph, Lattice, LatticeSession, NoMemory, Nobody, PlanResult, Write,
    are_on_map, place_at,
};
use std::alloc::Global;
use std::io;

/// How many states each plan may expand.
const BUDGET: u64 = 1_000_000;

/// A plan of one pass, whose inflation is 1.000: its path is a best one.
const ASK: Ask = Ask {
    first: 1000,
    step: 500,
    bound: 1000,
    traced: false,
};

/// Where a path begins and where it ends, as states of the lattice.
#[derive(Clone, Copy)]
struct Trip {
    start: u32,
    goal: u32,
}

/// From the environment's start to its end.
fn trip_on(lattice: &Lattice) -> Option<Trip>
    ensures start { IfSome result (λ trip. trip.start < (network_of lattice.now).states) }
    ensures goal { IfSome result (λ trip. trip.goal < (network_of lattice.now).states) }
{
    let env = lattice.env();
    let start = lattice.state_of(&place_at(env, &env.start)?)?;
    let goal = lattice.state_of(&place_at(env, &env.end)?)?;
    Some(Trip { start, goal })
}

/// A search that repairs its labels where the map changes: Anytime D*.
fn search_on(alloc: Global, lattice: &Lattice, trip: Trip) -> Result<AdStar, NoMemory>
    requires start { trip.start < (network_of lattice.now).states }
    requires goal { trip.goal < (network_of lattice.now).states }
    ensures ready { IfOk result (λ s. adstar.ready (network_of lattice.now) s.labels 0) }
    ensures fresh { IfOk result (λ s. IsStartFresh s.labels) }
    ensures start { IfOk result (λ s. s.labels.start ≡ trip.start) }
    ensures goal { IfOk result (λ s. s.goal ≡ trip.goal) }
{
    AdStar::open(alloc, lattice.states(), trip.start, trip.goal)
}

/// A session on a lattice, which goes from the start to the goal.
fn session(alloc: Global, lattice: Lattice, trip: Trip) -> Result<LatticeSession<AdStar>, NoMemory>
    requires start { trip.start < (network_of lattice).states }
    requires goal { trip.goal < (network_of lattice).states }
    ensures ready { IfOk result (IsReadyOn adstar) }
    ensures start { IfOk result (λ s. s.search.labels.start ≡ trip.start) }
    ensures goal { IfOk result (λ s. s.search.goal ≡ trip.goal) }
    ensures world { IfOk result (λ s. s.world ≡ lattice) }
{
    let search = search_on(alloc, &lattice, trip)?;
    LatticeSession::open(alloc, lattice, search, BUDGET)
}

/// The steps of a path: the primitive that is driven, and the cell and the heading that it leads to. That the path is free is what
/// lets each call here be made without a test.
fn show_steps(rt: &impl Print, lattice: &Lattice, from: u32, arcs: &[u32]) -> io::Result<()>
    requires path { (goal : ℕ) × (cost : ℕ) × IsFreePath (network_of lattice.now) from arcs.now goal cost }
{
    let [arc, rest @ ..] = arcs else {
        return Ok(());
    };
    let id = lattice.prim_id(lattice.prim_of(from, *arc));
    let head = lattice.head(from, *arc).unwrap();
    let place = lattice.place_of(head);
    println!(rt;
        "  primitive {id} to cell ({}, {}), heading {}",
        place.x, place.y, place.t
    )?;
    show_steps(rt, lattice, head, rest)
}

/// What a plan found. It asks that this is so, as is proved of every plan: the path is free and within its bound, or there is none.
fn show(
    rt: &impl Print,
    lattice: &Lattice,
    trip: Trip,
    found: &PlanResult<FoundPath>,
) -> io::Result<()>
    requires so { IsTrueOutcome (network_of lattice.now) trip.start trip.goal found.now }
{
    match found {
        PlanResult::Path(path) => {
            println!(rt;
                "cost {}, bound {}.{:03}",
                path.cost,
                path.bound / 1000,
                path.bound % 1000
            )?;
            show_steps(rt, lattice, trip.start, path.arcs.as_slice())
        }
        PlanResult::NoPath => println!(rt; "there is no path"),
        PlanResult::Unknown => println!(rt; "the budget was spent before a path was found"),
    }
}

/// Plans on the present map, and shows what was found.
fn plan(
    rt: &impl Print,
    alloc: Global,
    session: &mut LatticeSession<AdStar>,
    trip: Trip,
) -> anyhow::Result<()>
    requires ready { IsReadyOn adstar session.old }
    requires start { session.old.search.labels.start ≡ trip.start }
    requires goal { session.old.search.goal ≡ trip.goal }
    ensures ready { OnOk result (IsReadyOn adstar session.new) }
    ensures same { OnOk result (StaysTheSame (standing_of session.old) (standing_of session.new)) }
    ensures world { session.new.world ≡ session.old.world }
{
    let planned = session.plan(alloc, &ASK, None, &mut Nobody)?;
    let shown = show(rt, session.world(), trip, &planned.outcome);
    drop(planned);
    Ok(shown?)
}

/// Writes costs to the map, and makes the session ready for a plan on it.
fn change(
    alloc: Global,
    session: &mut LatticeSession<AdStar>,
    writes: &[Write],
) -> anyhow::Result<()>
    requires ready { IsReadyOn adstar session.old }
    ensures ready { OnOk result (IsReadyOn adstar session.new) }
    ensures same { OnOk result (StaysTheSame (standing_of session.old) (standing_of session.new)) }
    ensures states { OnOk result ((network_of session.new.world).states ≡ (network_of session.old.world).states) }
{
    if !are_on_map(session.world(), writes) {
        anyhow::bail!("a cell off the map");
    }
    Ok(session.change(alloc, writes)?)
}

/// Plans the way back: from the trip's goal, where the robot is now, to its start.
fn plan_back(
    rt: &impl Print,
    alloc: Global,
    session: &mut LatticeSession<AdStar>,
    trip: Trip,
) -> anyhow::Result<()>
    requires ready { IsReadyOn adstar session.old }
    requires start { trip.start < (network_of session.old.world).states }
    requires goal { trip.goal < (network_of session.old.world).states }
{
    let back = Trip {
        start: trip.goal,
        goal: trip.start,
    };
    session.aim(alloc, back.goal)?;
    session.start_from(back.start);
    plan(rt, alloc, session, back)
}

/// Plans, and repairs the plan as the doors close and open. Then the robot goes back.
fn plan_and_repair(
    rt: &impl Print,
    alloc: Global,
    session: &mut LatticeSession<AdStar>,
    trip: Trip,
) -> anyhow::Result<()>
    requires ready { IsReadyOn adstar session.old }
    requires start { session.old.search.labels.start ≡ trip.start }
    requires goal { session.old.search.goal ≡ trip.goal }
    requires start_inside { trip.start < (network_of session.old.world).states }
    requires goal_inside { trip.goal < (network_of session.old.world).states }
{
    println!(rt; "both doors are open")?;
    plan(rt, alloc, session, trip)?;
    println!(rt; "the near door closes")?;
    change(alloc, session, [door(2, WALL)].as_slice())?;
    plan(rt, alloc, session, trip)?;
    println!(rt; "the far door closes too")?;
    change(alloc, session, [door(0, WALL)].as_slice())?;
    plan(rt, alloc, session, trip)?;
    println!(rt; "the near door opens")?;
    change(alloc, session, [door(2, FREE)].as_slice())?;
    plan(rt, alloc, session, trip)?;
    println!(rt; "and back")?;
    plan_back(rt, alloc, session, trip)
}

/// Makes a session on a lattice, and plans. A large value, such as a session, is dropped by a call of `drop` and not at the
/// end of the function, which keeps the proofs short.
fn go(rt: &impl Print, alloc: Global, lattice: Lattice) -> anyhow::Result<()> {
    let trip = trip_on(&lattice).context("the start or the end is off the map")?;
    let mut session = session(alloc, lattice, trip)?;
    let done = plan_and_repair(rt, alloc, &mut session, trip);
    drop(session);
    done
}

fn main(rt: HostRuntime) -> anyhow::Result<()> {
    let lattice = lattice(rt.alloc())?;
    go(&rt, rt.alloc(), lattice)
}
