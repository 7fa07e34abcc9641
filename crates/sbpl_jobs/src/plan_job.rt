//! The job `plan`.

ghost use Rattle.std.specs.Prelude.{◌≡◌, ◌^◌, ◌<◌, length, IfErr, IfOk, OnErr};
ghost use Rattle.sbpl_checks.specs.sbpl_job.Jobs.{IsJob};
ghost use Rattle.sbpl_checks.specs.sbpl_job.declared.job.Job.TheVariants as Jobs;
ghost use Rattle.sbpl_checks.specs.sbpl_promises.Writing.{IsOutputOf, ReadsOnly, WritesOnly};
ghost use Rattle.sbpl_plans.specs.Boards.{IsSamePublisher, entries_of};
ghost use Rattle.sbpl_jobs.specs.Endings.{IsJobEnding, IsJobStop};

use sbpl_checks::{
    Desk, Ending, Gate, InFull, JobStop, Lattice, PlanJob, Reversed, Workspace, read_updates,
};
use sbpl_plans::{LiveBoard, Task, make_plans};
use std::alloc::Global;
use std::sync::Wait;
use std::thread::Threads;

/// Makes the plans of a job and writes what came of it; or answers why nothing was written. Where the planner lets the
/// robot move, the lattice is searched the other way round.
pub(crate) fn run_plan<R: Threads + Wait + Sync, D: Desk, T: Gate + Sync>(
    alloc: Global,
    job: &PlanJob,
    live: &mut LiveBoard<R>,
    desk: &mut D,
    gate: &T,
) -> Result<Ending, JobStop>
    requires range { IsJob (Jobs.Plan job.now) }
    requires few { length (entries_of live.old) < 2 ^ 62 }
    ensures ends { IfOk result (IsJobEnding (D.state desk.old) (D.state desk.new) (entries_of live.old)
        (entries_of live.new) (Jobs.Plan job.now)) }
    ensures stop { IfErr result (IsJobStop (D.state desk.old) (D.state desk.new) (Jobs.Plan job.now)) }
    ensures unwritten { OnErr result (ReadsOnly (D.state desk.old) (D.state desk.new)) }
    ensures unpublished { OnErr result (entries_of live.new ≡ entries_of live.old) }
    ensures same { IsSamePublisher live.old live.new }
    ensures frame { WritesOnly (IsOutputOf job.now.outputs) (D.state desk.old) (D.state desk.new) }
{
    let moving = job.search.planner.may_move();
    let (lattice, updates) = read_updates(alloc, &job.sources, &job.changes, moving, desk)?;
    let (start, goal) = lattice.ends();
    let task = Task {
        how: &job.search,
        outputs: &job.outputs,
        updates: &updates,
        start,
        goal,
    };
    let telling = InFull {
        outputs: &job.outputs,
        env: &job.sources.env,
    };
    if moving {
        let world = Reversed::new(lattice);
        let ending = make_plans(gate, alloc, world, &task, live, &telling, desk);
        // Let go by a call: the drop of each field here would make the proof long.
        drop(updates);
        return Ok(ending);
    }
    let ending = make_plans(gate, alloc, lattice, &task, live, &telling, desk);
    drop(updates);
    Ok(ending)
}
