//! The lattice that files stand for, and the batches of its changes.

ghost use Rattle.std.specs.Prelude.{◌≤◌, ◌^◌, IfErr, IfOk};
ghost use Rattle.sbpl_promises.specs.sbpl_cost.World.{IsWorld};
ghost use Rattle.sbpl_promises.specs.sbpl_sweep.Swept.{AreSweepsOf};
ghost use Rattle.sbpl_promises.specs.sbpl_sweep.Widths.{NoneTooWide};
ghost use Rattle.sbpl_promises.specs.sbpl_job.Jobs.{AreSources};
ghost use Rattle.sbpl_promises.specs.sbpl_lists.Messages.{IsPlainMessage};
ghost use Rattle.sbpl_promises.specs.Explained.{ExplainsUpdates, ExplainsLattice};
ghost use Rattle.sbpl_promises.specs.Causes.{AreRead, EarlyStopsFor, IsDearStop, IsWideStop, LatticeStopsFor, ReadsWorld};
ghost use Rattle.sbpl_promises.specs.Causes.{lattice_files};
ghost use Rattle.sbpl_promises.specs.Writing.{ReadsOnly};

use crate::files::{read_change_file, read_environment, read_primitives};
use sbpl_promises::{
    Desk, JobStop, Lattice, LatticeFault, Map, Message, Name, NoMemory, Prims, Refusal, Sources,
    SweepFault, Sweeps, Updates, plain_message,
};
use std::alloc::Global;

/// What is said of primitives of which one sweeps too many cells.
const TOO_WIDE: &str =
    "with this --radius each primitive must sweep at most 65536 cells, and with those before it at most 4194304: the line of the refusal has the first that does not, counted from 0";

/// What is said of primitives of which one costs too much.
const TOO_DEAR: &str =
    "each primitive must cost at most 16777215: the line of the refusal has the first that does not, counted from 0";

/// The message for primitives without a fault that the planner does not take.
fn size_message(alloc: Global, name: &str, what: &str) -> Result<Message, NoMemory>
    ensures message { IfOk result (λ m. IsPlainMessage name.now m) }
{
    let message = plain_message(alloc, name, what)?;
    Ok(message)
}

/// The sweeps of the primitives of these files for the robot's radius.
fn make_sweeps(alloc: Global, from: &Sources, prims: &Prims) -> Result<Sweeps, JobStop>
    requires radius { from.now.radius ≤ 10 ^ 12 }
    ensures made { IfOk result (AreSweepsOf prims.now from.now.radius) }
    ensures narrow { IfOk result (λ _. NoneTooWide prims.now from.now.radius) }
    ensures stop { IfErr result (IsWideStop from.now.prims prims.now from.now.radius) }
{
    match Sweeps::new(alloc, prims, from.radius, prims.cell()) {
        Ok(sweeps) => Ok(sweeps),
        Err(SweepFault::TooWide(place)) => {
            let message = size_message(alloc, from.prims.as_str(), TOO_WIDE)?;
            Err(JobStop::Refused(Refusal::TooWide(place), message))
        }
        Err(SweepFault::NoMemory) => Err(JobStop::NoMemory),
    }
}

/// Why files whose primitive at this place costs too much stand for no lattice, or that memory ran out.
fn dear_stop(alloc: Global, from: &Sources, place: u32) -> JobStop
    ensures stop { IsDearStop from.now.prims place result }
{
    match size_message(alloc, from.prims.as_str(), TOO_DEAR) {
        Ok(message) => JobStop::Refused(Refusal::TooDear(place), message),
        Err(NoMemory) => JobStop::NoMemory,
    }
}

/// The lattice of the environment file and the primitive file, for a robot of the radius that is given.
pub fn read_lattice<D: Desk>(
    alloc: Global,
    from: &Sources,
    desk: &mut D,
) -> Result<Lattice, JobStop>
    requires ranges { AreSources from.now }
    ensures says { IfOk result (ReadsWorld (D.state desk.old).held from.now) }
    ensures kept { IfOk result IsWorld }
    ensures stop { IfErr result (LatticeStopsFor (D.state desk.old) (D.state desk.new) from.now) }
    ensures explained { IfErr result (ExplainsLattice (D.state desk.old).held from.now) }
    ensures frame { ReadsOnly (D.state desk.old) (D.state desk.new) }
{
    let (env, grid) = read_environment(alloc, from, desk)?;
    let prims = read_primitives(alloc, from, &env, desk)?;
    let sweeps = make_sweeps(alloc, from, &prims)?;
    let map = Map::new(&env, grid);
    match Lattice::new(alloc, &env, prims, sweeps, map) {
        Ok(lattice) => Ok(lattice),
        Err(LatticeFault::TooDear(place)) => Err(dear_stop(alloc, from, place)),
        Err(LatticeFault::NoMemory) => Err(JobStop::NoMemory),
    }
}

/// The lattice of a job's files, and the map updates of its change file.
pub fn read_updates<D: Desk>(
    alloc: Global,
    from: &Sources,
    changes: &Option<Name>,
    moving: bool,
    desk: &mut D,
) -> Result<(Lattice, Updates), JobStop>
    requires ranges { AreSources from.now }
    ensures updates { IfOk result (λ x. AreRead (D.state desk.old).held (lattice_files from.now moving) changes.now x.0 x.1) }
    ensures stop { IfErr result (EarlyStopsFor (D.state desk.old) (D.state desk.new) (lattice_files from.now moving) changes.now) }
    ensures explained { IfErr result (ExplainsUpdates (D.state desk.old).held from.now changes.now) }
    ensures frame { ReadsOnly (D.state desk.old) (D.state desk.new) }
{
    let lattice = read_lattice(alloc, from, desk)?;
    match read_change_file(alloc, changes, moving, &lattice, from.states, desk) {
        Ok(updates) => Ok((lattice, updates)),
        Err(stop) => {
            // Let go by a call: the drop of each field here would make the proof long.
            drop(lattice);
            Err(stop)
        }
    }
}
