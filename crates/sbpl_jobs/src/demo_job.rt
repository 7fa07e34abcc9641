//! The job `demo`: plans on an example that is drawn from a seed.

ghost use Rattle.std.specs.Prelude.{◌≡◌, ◌^◌, ◌<◌, ◌∷◌, [], false, length};
ghost use Rattle.sbpl_checks.specs.sbpl_cost.Lattices.{network_of};
ghost use Rattle.sbpl_checks.specs.sbpl_cost.World.{IsWorld};
ghost use Rattle.sbpl_checks.specs.sbpl_demo.Changes.{changes_drawn};
ghost use Rattle.sbpl_checks.specs.sbpl_job.Jobs.{IsDemoJob};
ghost use Rattle.sbpl_checks.specs.sbpl_job.declared.job.Job.TheVariants as Jobs;
ghost use Rattle.sbpl_checks.specs.sbpl_promises.Causes.{AreUpdatesIn, IsDrawn, demo_search};
ghost use Rattle.sbpl_checks.specs.sbpl_promises.LatticeSite.{lattice_site};
ghost use Rattle.sbpl_checks.specs.sbpl_report.Report.{demo_text};
ghost use Rattle.sbpl_checks.specs.sbpl_report.Statuses.{number_of};
ghost use Rattle.sbpl_checks.specs.sbpl_promises.Texts.{still};
ghost use Rattle.sbpl_checks.specs.sbpl_promises.Writing.{EndsIn, IsOutput, WritesOnly, to_output};
ghost use Rattle.sbpl_checks.specs.sbpl_promises.Promises.{EndsJob, IsOrUnwritten};
ghost use Rattle.sbpl_plans.specs.Boards.{IsSamePublisher, entries_of};
ghost use Rattle.sbpl_jobs.specs.Endings.{IsJobEnding};

use sbpl_checks::{
    Changes, DemoJob, Desk, Ending, Gate, Graph, LabelForm, Lattice, Lines, NoMemory, OUTPUT,
    Outputs, Planner, SearchJob, Status, Updates, Workspace, WriteStop, demo_line, draw,
    status_after, write_text,
};
use sbpl_plans::{LiveBoard, Task, make_plans};
use std::alloc::Global;
use std::sync::Wait;
use std::thread::Threads;

/// How a demonstration is planned.
fn demo_search() -> SearchJob
    ensures search { result ≡ demo_search }
{
    SearchJob {
        planner: Planner::AdStar,
        workers: 1,
        first: 3000,
        step: 500,
        bound: 1000,
        budget: 1 << 30,
    }
}

/// Writes the first line of a demonstration.
fn write_first<D: Desk>(
    alloc: Global,
    lattice: &Lattice,
    changes: &Changes,
    desk: &mut D,
) -> Result<(), WriteStop>
    ensures ends { EndsIn (D.state desk.old) (D.state desk.new) (to_output
        (demo_text (network_of lattice.now).states (length lattice.now.prims.items) (length changes.now)) ∷ []) result }
    ensures frame { WritesOnly IsOutput (D.state desk.old) (D.state desk.new) }
{
    let line = demo_line(
        alloc,
        lattice.states(),
        lattice.prims().len(),
        changes.batches(),
    );
    match line {
        Ok(line) => write_text(OUTPUT, line.as_slice(), desk),
        Err(NoMemory) => Err(WriteStop::NoMemory),
    }
}

/// Plans on an example that was drawn, writes a line for each plan, and answers the status.
fn demonstrate<R: Threads + Wait + Sync, D: Desk, T: Gate + Sync>(
    alloc: Global,
    job: &DemoJob,
    lattice: Lattice,
    updates: &Updates,
    live: &mut LiveBoard<R>,
    desk: &mut D,
    gate: &T,
) -> Status
    requires drawn { IsDrawn job.now lattice }
    requires updates { updates.now ≡ still (changes_drawn job.now.width job.now.height job.now.seed) }
    requires kept { IsWorld lattice }
    requires in_world { AreUpdatesIn lattice_site false lattice updates.now }
    requires few { length (entries_of live.old) < 2 ^ 62 }
    ensures ends { EndsJob (D.state desk.old) (D.state desk.new) (entries_of live.old) (entries_of live.new)
        (Jobs.Demo job.now) (number_of result) }
    ensures status { IsOrUnwritten 0 (number_of result) }
    ensures same { IsSamePublisher live.old live.new }
    ensures frame { WritesOnly IsOutput (D.state desk.old) (D.state desk.new) }
{
    let (start, goal) = lattice.ends();
    if let Err(stop) = write_first(alloc, &lattice, &updates.batches, desk) {
        return status_after(Err(stop), Status::NoMemory);
    }
    let outputs = Outputs {
        labels: None,
        form: LabelForm::Sparse,
        trace: None,
        incumbent: None,
    };
    let how = demo_search();
    let task = Task {
        how: &how,
        outputs: &outputs,
        updates,
        start,
        goal,
    };
    make_plans(gate, alloc, lattice, &task, live, &Lines, desk).status
}

/// Draws an example, plans on it, and writes a line for each plan. Nothing is read from the desk.
pub(crate) fn run_demo<R: Threads + Wait + Sync, D: Desk, T: Gate + Sync>(
    alloc: Global,
    job: &DemoJob,
    live: &mut LiveBoard<R>,
    desk: &mut D,
    gate: &T,
) -> Ending
    requires range { IsDemoJob job.now }
    requires few { length (entries_of live.old) < 2 ^ 62 }
    ensures ends { IsJobEnding (D.state desk.old) (D.state desk.new) (entries_of live.old) (entries_of live.new)
        (Jobs.Demo job.now) result }
    ensures same { IsSamePublisher live.old live.new }
    ensures frame { WritesOnly IsOutput (D.state desk.old) (D.state desk.new) }
{
    match draw(alloc, job) {
        Ok((lattice, batches)) => {
            let updates = Updates {
                batches,
                moves: None,
            };
            let status = demonstrate(alloc, job, lattice, &updates, live, desk, gate);
            // Let go by a call: the drop of each field here would make the proof long.
            drop(updates);
            Ending::plain(alloc, status)
        }
        Err(NoMemory) => Ending::plain(alloc, Status::NoMemory),
    }
}
