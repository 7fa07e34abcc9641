//! The job `check`.

ghost use Rattle.std.specs.Prelude.{◌<◌, Bool, List, suc, length, IfErr, IfOk, OnErr};
ghost use Rattle.sbpl_checks.specs.sbpl_job.Jobs.{AreSources};
ghost use Rattle.sbpl_checks.specs.sbpl_job.declared.job.Job.TheVariants as Jobs;
ghost use Rattle.sbpl_checks.specs.Checking.{EndsSections};
ghost use Rattle.sbpl_checks.specs.sbpl_cost.Lattices.{network_of};
ghost use Rattle.sbpl_checks.specs.sbpl_cost.World.{IsWorld};
ghost use Rattle.sbpl_checks.specs.sbpl_fixed.Formats.{start_at};
ghost use Rattle.sbpl_checks.specs.sbpl_promises.Causes.{AreRead, AreUpdatesIn, IsReadText, check_files};
ghost use Rattle.sbpl_checks.specs.sbpl_promises.Checked.{case_of};
ghost use Rattle.sbpl_checks.specs.sbpl_promises.LatticeSite.{lattice_site};
ghost use Rattle.sbpl_checks.specs.sbpl_promises.Sites.{searched_on};
ghost use Rattle.sbpl_checks.specs.sbpl_promises.Published.{Entry};
ghost use Rattle.sbpl_checks.specs.sbpl_promises.Writing.{IsOutput, ReadsOnly, WritesOnly};
ghost use Rattle.sbpl_jobs.specs.Endings.{IsJobEnding, IsJobStop};

use sbpl_checks::{
    CheckJob, Desk, Ending, Input, JobStop, LabelFile, Lattice, Reversed, Updates, Workspace,
    check_text, read_file, read_updates,
};
use std::alloc::Global;

/// The lattice, the map updates of the change file, and the text of the labels.
fn read_check<D: Desk>(
    alloc: Global,
    job: &CheckJob,
    desk: &mut D,
) -> Result<(Lattice, Updates, Vec<u8>), JobStop>
    requires ranges { AreSources job.now.sources }
    ensures updates { IfOk result (λ x. AreRead (D.state desk.old).held (check_files job.now) job.now.changes x.0 x.1) }
    ensures text { IfOk result (λ x. IsReadText ((D.state desk.old).held job.now.labels) x.2.items) }
    ensures stop { IfErr result (IsJobStop (D.state desk.old) (D.state desk.new) (Jobs.Check job.now)) }
    ensures frame { ReadsOnly (D.state desk.old) (D.state desk.new) }
{
    let (lattice, updates) = match read_updates(alloc, &job.sources, &job.changes, job.back, desk) {
        Ok(read) => read,
        Err(stop) => return Err(stop),
    };
    match read_file(alloc, &job.labels, Input::Labels, desk) {
        Ok(text) => Ok((lattice, updates, text)),
        Err(stop) => {
            // Let go by a call: the drop of each field here would make the proof long.
            drop(lattice);
            drop(updates);
            Err(stop)
        }
    }
}

/// Checks the sections of a file of labels on a lattice, as `check_text` does: those of the planner `back` on the lattice
/// the other way round.
fn check_on_lattice<D: Desk>(
    alloc: Global,
    lattice: Lattice,
    updates: &Updates,
    start: u32,
    goal: u32,
    back: bool,
    labels: &LabelFile,
    desk: &mut D,
) -> Ending
    requires start { start < (network_of lattice).states }
    requires goal { goal < (network_of lattice).states }
    requires kept { IsWorld lattice }
    requires updates { (moving : Bool) × AreUpdatesIn lattice_site moving lattice updates.now }
    ensures ends { EndsSections (case_of (searched_on lattice_site back) lattice updates.now start goal) 0
        (suc (length updates.now.batches)) (start_at labels.now.text.now 0) labels.now (D.state desk.old)
        (D.state desk.new) result }
    ensures frame { WritesOnly IsOutput (D.state desk.old) (D.state desk.new) }
{
    if back {
        let mut reversed = Reversed::new(lattice);
        let ending = check_text(alloc, &mut reversed, updates, start, goal, labels, desk);
        // Let go by a call: the drop of each field here would make the proof long.
        drop(reversed);
        return ending;
    }
    let mut lattice = lattice;
    let ending = check_text(alloc, &mut lattice, updates, start, goal, labels, desk);
    drop(lattice);
    ending
}

/// Checks labels that a plan wrote, and writes what came of it.
pub(crate) fn run_check<D: Desk>(
    alloc: Global,
    job: &CheckJob,
    desk: &mut D,
) -> Result<Ending, JobStop>
    requires ranges { AreSources job.now.sources }
    ensures ends { IfOk result (λ e. (log : List Entry) → IsJobEnding (D.state desk.old) (D.state desk.new) log log
        (Jobs.Check job.now) e) }
    ensures stop { IfErr result (IsJobStop (D.state desk.old) (D.state desk.new) (Jobs.Check job.now)) }
    ensures unwritten { OnErr result (ReadsOnly (D.state desk.old) (D.state desk.new)) }
    ensures frame { WritesOnly IsOutput (D.state desk.old) (D.state desk.new) }
{
    Lattice::has_its_arcs();
    let (lattice, updates, text) = read_check(alloc, job, desk)?;
    let (start, goal) = lattice.ends();
    let labels = LabelFile {
        name: &job.labels,
        text: text.as_slice(),
    };
    let ending = check_on_lattice(
        alloc, lattice, &updates, start, goal, job.back, &labels, desk,
    );
    // Let go by a call: the drop of each field here would make the proof long.
    drop(updates);
    drop(text);
    Ok(ending)
}
