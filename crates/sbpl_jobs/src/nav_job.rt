//! The jobs `nav` and `navcheck`.

ghost use Rattle.std.specs.Prelude.{◌≡◌, ◌^◌, ◌<◌, List, length, IfErr, IfOk, OnErr};
ghost use Rattle.sbpl_checks.specs.sbpl_job.Jobs.{AreGridSources, IsJob};
ghost use Rattle.sbpl_checks.specs.sbpl_job.declared.job.Job.TheVariants as Jobs;
ghost use Rattle.sbpl_checks.specs.sbpl_promises.Causes.{AreRead, IsReadText, grid_files};
ghost use Rattle.sbpl_checks.specs.sbpl_promises.Published.{Entry};
ghost use Rattle.sbpl_checks.specs.sbpl_promises.Writing.{IsOutput, IsOutputOf, ReadsOnly, WritesOnly};
ghost use Rattle.sbpl_plans.specs.Boards.{IsSamePublisher, entries_of};
ghost use Rattle.sbpl_jobs.specs.Endings.{IsJobEnding, IsJobStop};

use sbpl_checks::{
    Desk, Ending, Gate, InFull, Input, JobStop, LabelFile, Nav, NavCheckJob, NavJob, Updates,
    Workspace, check_text, read_file, read_grid_updates,
};
use sbpl_plans::{LiveBoard, Task, make_plans};
use std::alloc::Global;
use std::sync::Wait;
use std::thread::Threads;

/// Makes the plans of a job on a grid and writes what came of it; or answers why nothing was written.
pub(crate) fn run_nav<R: Threads + Wait + Sync, D: Desk, T: Gate + Sync>(
    alloc: Global,
    job: &NavJob,
    live: &mut LiveBoard<R>,
    desk: &mut D,
    gate: &T,
) -> Result<Ending, JobStop>
    requires range { IsJob (Jobs.Nav job.now) }
    requires few { length (entries_of live.old) < 2 ^ 62 }
    ensures ends { IfOk result (IsJobEnding (D.state desk.old) (D.state desk.new) (entries_of live.old)
        (entries_of live.new) (Jobs.Nav job.now)) }
    ensures stop { IfErr result (IsJobStop (D.state desk.old) (D.state desk.new) (Jobs.Nav job.now)) }
    ensures unwritten { OnErr result (ReadsOnly (D.state desk.old) (D.state desk.new)) }
    ensures unpublished { OnErr result (entries_of live.new ≡ entries_of live.old) }
    ensures same { IsSamePublisher live.old live.new }
    ensures frame { WritesOnly (IsOutputOf job.now.outputs) (D.state desk.old) (D.state desk.new) }
{
    let (nav, updates) = read_grid_updates(alloc, &job.sources, &job.changes, desk)?;
    let (start, goal) = nav.ends();
    let task = Task {
        how: &job.search,
        outputs: &job.outputs,
        updates: &updates,
        start,
        goal,
    };
    let telling = InFull {
        outputs: &job.outputs,
        env: &job.sources.env,
    };
    Ok(make_plans(gate, alloc, nav, &task, live, &telling, desk))
}

/// The grid, the map updates of the change file, and the text of the labels.
fn read_nav_check<D: Desk>(
    alloc: Global,
    job: &NavCheckJob,
    desk: &mut D,
) -> Result<(Nav, Updates, Vec<u8>), JobStop>
    requires ranges { AreGridSources job.now.sources }
    ensures updates { IfOk result (λ x. AreRead (D.state desk.old).held (grid_files job.now.sources) job.now.changes x.0 x.1) }
    ensures text { IfOk result (λ x. IsReadText ((D.state desk.old).held job.now.labels) x.2.items) }
    ensures stop { IfErr result (IsJobStop (D.state desk.old) (D.state desk.new) (Jobs.NavCheck job.now)) }
    ensures frame { ReadsOnly (D.state desk.old) (D.state desk.new) }
{
    let (nav, updates) = match read_grid_updates(alloc, &job.sources, &job.changes, desk) {
        Ok(read) => read,
        Err(stop) => return Err(stop),
    };
    match read_file(alloc, &job.labels, Input::Labels, desk) {
        Ok(text) => Ok((nav, updates, text)),
        Err(stop) => Err(stop),
    }
}

/// Checks labels that a plan on a grid wrote, and writes what came of it.
pub(crate) fn run_navcheck<D: Desk>(
    alloc: Global,
    job: &NavCheckJob,
    desk: &mut D,
) -> Result<Ending, JobStop>
    requires ranges { AreGridSources job.now.sources }
    ensures ends { IfOk result (λ e. (log : List Entry) → IsJobEnding (D.state desk.old) (D.state desk.new) log log
        (Jobs.NavCheck job.now) e) }
    ensures stop { IfErr result (IsJobStop (D.state desk.old) (D.state desk.new) (Jobs.NavCheck job.now)) }
    ensures unwritten { OnErr result (ReadsOnly (D.state desk.old) (D.state desk.new)) }
    ensures frame { WritesOnly IsOutput (D.state desk.old) (D.state desk.new) }
{
    Nav::has_its_arcs();
    let (mut nav, updates, text) = read_nav_check(alloc, job, desk)?;
    let (start, goal) = nav.ends();
    let labels = LabelFile {
        name: &job.labels,
        text: text.as_slice(),
    };
    let ending = check_text(alloc, &mut nav, &updates, start, goal, &labels, desk);
    Ok(ending)
}
