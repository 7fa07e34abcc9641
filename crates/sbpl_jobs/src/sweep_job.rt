//! The job `sweep`: the listing of what each primitive costs and sweeps.

ghost use Rattle.std.specs.Prelude.{◌<◌, ◌∷◌, [], length, List, IfErr, IfOk, OnErr};
ghost use Rattle.sbpl_checks.specs.sbpl_promises.Intents.{listing_writes};
ghost use Rattle.sbpl_checks.specs.sbpl_report.Listing.{listing_at};
ghost use Rattle.sbpl_checks.specs.sbpl_promises.Writing.{EndsIn, IsOutput, ReadsOnly, WritesOnly, to_output};
ghost use Rattle.sbpl_checks.specs.sbpl_promises.Published.{Entry};
ghost use Rattle.sbpl_checks.specs.sbpl_job.Jobs.{IsJob};
ghost use Rattle.sbpl_checks.specs.sbpl_job.declared.job.Job.TheVariants as Jobs;
ghost use Rattle.sbpl_jobs.specs.Endings.{IsJobEnding, IsJobStop};

use sbpl_checks::{
    Desk, Ending, JobStop, Lattice, NoMemory, OUTPUT, Sources, Status, WriteStop, listing_at,
    read_lattice, status_after, write_last, write_text,
};
use std::alloc::Global;

/// Writes the lines of the primitive at place `i` of the file.
fn write_listing<D: Desk>(
    alloc: Global,
    lattice: &Lattice,
    i: u32,
    desk: &mut D,
) -> Result<(), WriteStop>
    requires place { i < length lattice.now.prims.items }
    ensures ends { EndsIn (D.state desk.old) (D.state desk.new) (to_output (listing_at lattice.now i) ∷ []) result }
    ensures frame { WritesOnly IsOutput (D.state desk.old) (D.state desk.new) }
{
    match listing_at(alloc, lattice, i) {
        Ok(text) => write_text(OUTPUT, text.as_slice(), desk),
        Err(NoMemory) => Err(WriteStop::NoMemory),
    }
}

/// Writes the lines of all primitives in the order of the file, and the last line.
pub(crate) fn write_listings<D: Desk>(
    alloc: Global,
    lattice: &Lattice,
    desk: &mut D,
) -> Result<(), WriteStop>
    ensures ends { EndsIn (D.state desk.old) (D.state desk.new) (listing_writes lattice.now) result }
    ensures frame { WritesOnly IsOutput (D.state desk.old) (D.state desk.new) }
{
    let count = lattice.prims().len();
    for i in 0..count {
        if let Err(stop) = write_listing(alloc, lattice, i, desk) {
            return Err(stop);
        }
    }
    write_last(desk)
}

/// Lists what each primitive costs and sweeps; or answers why nothing was written.
pub(crate) fn run_sweep<D: Desk>(
    alloc: Global,
    from: &Sources,
    desk: &mut D,
) -> Result<Ending, JobStop>
    requires range { IsJob (Jobs.Sweep from.now) }
    ensures ends { IfOk result (λ e. (log : List Entry) → IsJobEnding (D.state desk.old) (D.state desk.new) log log
        (Jobs.Sweep from.now) e) }
    ensures stop { IfErr result (IsJobStop (D.state desk.old) (D.state desk.new) (Jobs.Sweep from.now)) }
    ensures unwritten { OnErr result (ReadsOnly (D.state desk.old) (D.state desk.new)) }
    ensures frame { WritesOnly IsOutput (D.state desk.old) (D.state desk.new) }
{
    match read_lattice(alloc, from, desk) {
        Ok(lattice) => {
            let status = status_after(write_listings(alloc, &lattice, desk), Status::Done);
            // Let go by a call: the drop of each field here would make the proof long.
            drop(lattice);
            Ok(Ending::plain(alloc, status))
        }
        Err(stop) => Err(stop),
    }
}
