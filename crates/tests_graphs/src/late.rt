//! Passes on a grid of 400 cells, with a limit of time and without.

ghost use Rattle.std.specs.Prelude.{◌≡◌};
ghost use Rattle.sbpl_nav2d.specs.Grids.{network_of};
ghost use Rattle.sbpl_plan.specs.sbpl_labels.Marks.{states_of};

use crate::texts::reads;
use sbpl_adstar::Ara;
use sbpl_nav2d::{EnvFault, Map, Nav, read_nav};
use sbpl_plan::{Budget, Graph, Timer, Zero};
use std::alloc::Global;
use std::test::Fail;
use std::time::Duration;

/// A hall of 20 columns and 20 rows, from one corner to the other.
const HEAD: &str = "\
discretization(cells): 20 20
obsthresh: 200
start(cells): 0 0
end(cells): 19 19
environment:
";

const ROW: &str = "0 0 0 0 0 0 0 0 0 0 0 0 0 0 0 0 0 0 0 0\n";

/// The hall.
fn hall(alloc: Global) -> Result<Nav, EnvFault> {
    let mut text = String::new(alloc);
    text.push_str(HEAD)?;
    for _ in 0..20 {
        text.push_str(ROW)?;
    }
    let (env, grid) = read_nav(alloc, text.as_str().as_bytes(), 8_388_608)?;
    let map = Map::plain(env.width, env.height, grid);
    Ok(Nav::new(&env, map))
}

/// Whether the first pass of a plan with this limit, told by this timer, has this end after so many expansions.
fn ends_so(
    alloc: Global,
    nav: &Nav,
    ara: &mut Ara,
    timer: Timer,
    limit: Option<Duration>,
    want: &str,
) -> bool
    requires states { states_of ara.old.labels ≡ (network_of nav.now).states }
    ensures states { states_of ara.new.labels ≡ states_of ara.old.labels }
{
    ara.reset();
    let mut budget = Budget::new(1000);
    budget.time_by(timer);
    budget.next_plan(limit);
    let end = ara.pass(nav, &Zero, 1000, &mut budget);
    let used = budget.used();
    reads(format!(in alloc; "{end:?} {used}"), want)
}

/// Whether a pass is spent at the expansion at which its clock says that it is late, and goes on to its rest where no clock says
/// so.
fn are_as_wanted(alloc: Global, nav: &Nav, ara: &mut Ara, system: Timer) -> bool
    requires states { states_of ara.old.labels ≡ (network_of nav.now).states }
{
    let limit = Some(Duration::from_secs(1));
    let late = ends_so(alloc, nav, ara, Timer::after(1), limit, "Spent 256");
    let unlimited = ends_so(alloc, nav, ara, Timer::after(1), None, "Rest 399");
    let later = ends_so(alloc, nav, ara, Timer::after(2), limit, "Rest 399");
    let off = ends_so(alloc, nav, ara, Timer::off(), limit, "Rest 399");
    let long = Some(Duration::from_secs(1_000_000));
    let over = ends_so(alloc, nav, ara, system, Some(Duration::ZERO), "Spent 256");
    let in_time = ends_so(alloc, nav, ara, system, long, "Rest 399");
    late && unlimited && later && off && over && in_time
}

#[test]
fn a_late_pass_is_spent(rt: HostRuntime) -> Result<(), Fail> {
    let nav = hall(rt.alloc())?;
    let (states, start, goal) = (nav.states(), nav.env().start, nav.env().end);
    let mut ara = Ara::open(rt.alloc(), states, start, goal)?;
    let are = are_as_wanted(rt.alloc(), &nav, &mut ara, Timer::of(rt));
    drop(ara);
    drop(nav);
    assert!(rt; are);
    Ok(())
}
