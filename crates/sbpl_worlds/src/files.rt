//! The files that a lattice is made of and the change file, read and judged.

ghost use Rattle.std.specs.Prelude.{◌≡◌, ◌≢◌, ◌≤◌, ◌^◌, [], true, None, length, IfOk, IfErr};
ghost use Rattle.sbpl_promises.specs.LatticeSite.{lattice_site};
ghost use Rattle.sbpl_promises.specs.sbpl_job.Jobs.{AreSources};
ghost use Rattle.sbpl_promises.specs.sbpl_lists.Messages.{IsPlainMessage};
ghost use Rattle.sbpl_promises.specs.Causes.{ChangesStopFor, IsChangesRefused, IsEnvironmentRefused, IsPrimitivesRefused};
ghost use Rattle.sbpl_promises.specs.Causes.{IsReadText, IsUnread, LatticeStopsFor, PrimitivesStopFor, AreUpdatesIn};
ghost use Rattle.sbpl_promises.specs.Causes.{ReadsUpdates, ReadsEnvironment, ReadsPrimitives, scope_of};
ghost use Rattle.sbpl_promises.specs.Explained.{ExplainsChanges, ExplainsLattice};
ghost use Rattle.sbpl_promises.specs.Texts.{HasChangeFault, IsChangeText, IsEnvironmentText, IsPrimitiveText, Scope, still_scope};
ghost use Rattle.sbpl_promises.specs.sbpl_map.ChangeText.{AreOnMap};
ghost use Rattle.sbpl_promises.specs.sbpl_map.declared.fault.ChangeFault.TheVariants as ChangeFaults;
ghost use Rattle.sbpl_promises.specs.Writing.{ReadsOnly};

use crate::ends::posed;
use sbpl_promises::{
    ChangeFault, Changes, Desk, Env, EnvFault, Grid, Input, JobStop, Lattice, ListOf, Map, Message,
    Name, NoMemory, PrimFault, Prims, ReadStop, Refusal, Sources, Trouble, Updates,
    changes_message, environment_message, plain_message, primitives_message, read_changes,
    read_env, read_moves, read_prims,
};
use std::alloc::Global;

/// What is said of a file that could not be read.
fn unread(trouble: Trouble) -> &'static str {
    match trouble {
        Trouble::Missing => "there is no such file",
        Trouble::Folder => "this is a folder, and not a file",
        Trouble::Forbidden => "the program is not allowed to read this file",
        Trouble::Untold | Trouble::Taken | Trouble::Unread =>
            "the file could not be read: it must exist, and the program must be allowed to read it",
    }
}

/// The message for a file that could not be read.
fn unread_message(alloc: Global, name: &str, trouble: Trouble) -> Result<Message, NoMemory>
    ensures message { IfOk result (λ m. IsPlainMessage name.now m) }
{
    let message = plain_message(alloc, name, unread(trouble))?;
    Ok(message)
}

/// The bytes of a file.
pub fn read_file<D: Desk>(
    alloc: Global,
    name: &Name,
    input: Input,
    desk: &mut D,
) -> Result<Vec<u8>, JobStop>
    ensures text { IfOk result (λ text. IsReadText ((D.state desk.old).held name.now) text.items) }
    ensures stop { IfErr result (IsUnread (D.state desk.old) (D.state desk.new) name.now input) }
    ensures frame { ReadsOnly (D.state desk.old) (D.state desk.new) }
{
    let mut text = Vec::new(alloc);
    match desk.read(name.as_str(), &mut text) {
        Ok(()) => Ok(text),
        Err(ReadStop::Failed) => {
            let message = unread_message(alloc, name.as_str(), desk.trouble())?;
            Err(JobStop::Refused(Refusal::Read(input), message))
        }
        Err(ReadStop::TooLong) => {
            let untold = ListOf::of(Vec::new(alloc));
            Err(JobStop::Refused(Refusal::Length(input), untold))
        }
        Err(ReadStop::NoMemory) => Err(JobStop::NoMemory),
    }
}

/// The environment that the text of the file of this name stands for, under this limit of states.
fn judge_environment(
    alloc: Global,
    name: &Name,
    text: &[u8],
    states: u32,
) -> Result<(Env, Grid), JobStop>
    requires limit { states ≤ 268435456 }
    ensures stands { IfOk result (λ x. IsEnvironmentText states text.now x.0 x.1) }
    ensures stop { IfErr result (IsEnvironmentRefused states name.now text.now) }
{
    match read_env(alloc, text, states) {
        Ok(found) => Ok(found),
        Err(EnvFault::NoMemory) => Err(JobStop::NoMemory),
        Err(fault) => {
            let message = environment_message(alloc, name.as_str(), text, &fault, states)?;
            Err(JobStop::Refused(Refusal::Environment(fault), message))
        }
    }
}

/// The environment file, with the start and the goal of the words in place of its own.
pub(crate) fn read_environment<D: Desk>(
    alloc: Global,
    from: &Sources,
    desk: &mut D,
) -> Result<(Env, Grid), JobStop>
    requires ranges { AreSources from.now }
    ensures says { IfOk result (λ x. ReadsEnvironment (D.state desk.old).held from.now x.0 x.1) }
    ensures stop { IfErr result (LatticeStopsFor (D.state desk.old) (D.state desk.new) from.now) }
    ensures explained { IfErr result (ExplainsLattice (D.state desk.old).held from.now) }
    ensures frame { ReadsOnly (D.state desk.old) (D.state desk.new) }
{
    let text = read_file(alloc, &from.env, Input::Environment, desk)?;
    let (file, grid) = judge_environment(alloc, &from.env, text.as_slice(), from.states)?;
    let env = posed(alloc, from, &file)?;
    Ok((env, grid))
}

/// The primitives that the text of the file of this name stands for, for this environment.
fn judge_primitives(alloc: Global, name: &Name, text: &[u8], env: &Env) -> Result<Prims, JobStop>
    ensures stands { IfOk result (IsPrimitiveText env.now text.now) }
    ensures stop { IfErr result (IsPrimitivesRefused env.now name.now text.now) }
{
    match read_prims(alloc, text, env.cell, env.headings) {
        Ok(prims) => Ok(prims),
        Err(PrimFault::NoMemory) => Err(JobStop::NoMemory),
        Err(fault) => {
            let message = primitives_message(
                alloc,
                name.as_str(),
                text,
                &fault,
                env.cell,
                env.headings,
            )?;
            Err(JobStop::Refused(Refusal::Primitives(fault), message))
        }
    }
}

/// The primitive file, for this environment.
pub(crate) fn read_primitives<D: Desk>(
    alloc: Global,
    from: &Sources,
    env: &Env,
    desk: &mut D,
) -> Result<Prims, JobStop>
    ensures says { IfOk result (ReadsPrimitives (D.state desk.old).held from.now env.now) }
    ensures stop { IfErr result (PrimitivesStopFor (D.state desk.old) (D.state desk.new) from.now env.now) }
    ensures explained { IfErr result (ExplainsLattice (D.state desk.old).held from.now) }
    ensures frame { ReadsOnly (D.state desk.old) (D.state desk.new) }
{
    let text = read_file(alloc, &from.prims, Input::Primitives, desk)?;
    judge_primitives(alloc, &from.prims, text.as_slice(), env)
}

/// Why the change file of this name is refused, whose text has this fault under this limit of states, or that memory ran out.
/// `moves` says whether its lines can say where the robot is.
fn stop_for(
    alloc: Global,
    name: &Name,
    text: &[u8],
    moves: bool,
    fault: ChangeFault,
    states: u32,
) -> JobStop
    ensures stop { (s : Scope) → (fault ≢ ChangeFaults.NoMemory → HasChangeFault s text.now fault)
        → IsChangesRefused s name.now text.now result }
{
    if let ChangeFault::NoMemory = fault {
        return JobStop::NoMemory;
    }
    match changes_message(alloc, name.as_str(), text, moves, &fault, states) {
        Ok(message) => JobStop::Refused(Refusal::Changes(fault), message),
        Err(NoMemory) => JobStop::NoMemory,
    }
}

/// The map updates that the text of the file of this name stands for, in which the robot stays where it is.
fn judge_still(
    alloc: Global,
    name: &Name,
    text: &[u8],
    map: &Map,
    states: u32,
) -> Result<Updates, JobStop>
    requires short { length text.now ≤ 2 ^ 30 }
    requires limit { states ≤ 268435456 }
    ensures stands { IfOk result (IsChangeText (still_scope states map.now) text.now) }
    ensures on_map { IfOk result (λ c. AreOnMap map.now c.batches) }
    ensures stays { IfOk result (λ c. c.moves ≡ None) }
    ensures stop { IfErr result (IsChangesRefused (still_scope states map.now) name.now text.now) }
{
    match read_changes(alloc, text, map, states) {
        Ok(batches) => Ok(Updates {
            batches,
            moves: None,
        }),
        Err(fault) => Err(stop_for(alloc, name, text, false, fault, states)),
    }
}

/// The map updates that the text of the file of this name stands for, whose lines can say where the robot is.
fn judge_moving(
    alloc: Global,
    name: &Name,
    text: &[u8],
    lattice: &Lattice,
    states: u32,
) -> Result<Updates, JobStop>
    requires short { length text.now ≤ 2 ^ 30 }
    requires limit { states ≤ 268435456 }
    ensures stands { IfOk result (IsChangeText (scope_of states true lattice.now) text.now) }
    ensures in_world { IfOk result (AreUpdatesIn lattice_site true lattice.now) }
    ensures stop { IfErr result (IsChangesRefused (scope_of states true lattice.now) name.now text.now) }
{
    match read_moves(alloc, text, lattice.map(), lattice.env().headings, states) {
        Ok((batches, moves)) => Ok(Updates {
            batches,
            moves: Some(moves),
        }),
        Err(fault) => Err(stop_for(alloc, name, text, true, fault, states)),
    }
}

/// No batches: those of an empty text, which has no fault.
fn no_changes(alloc: Global, map: &Map) -> Result<Changes, NoMemory>
    ensures none { IfOk result (λ c. c ≡ []) }
{
    match read_changes(alloc, &[], map, 1) {
        Ok(changes) => Ok(changes),
        Err(_) => Err(NoMemory),
    }
}

/// The map updates of a change file in whose lines the robot stays where it is; no batches where there is no such file.
pub(crate) fn read_still<D: Desk>(
    alloc: Global,
    changes: &Option<Name>,
    map: &Map,
    states: u32,
    desk: &mut D,
) -> Result<Updates, JobStop>
    requires limit { states ≤ 268435456 }
    ensures says { IfOk result (ReadsUpdates (D.state desk.old).held changes.now (still_scope states map.now)) }
    ensures on_map { IfOk result (λ c. AreOnMap map.now c.batches) }
    ensures stays { IfOk result (λ c. c.moves ≡ None) }
    ensures stop { IfErr result (ChangesStopFor (D.state desk.old) (D.state desk.new) changes.now (still_scope states map.now)) }
    ensures explained { IfErr result (ExplainsChanges (D.state desk.old).held changes.now) }
    ensures frame { ReadsOnly (D.state desk.old) (D.state desk.new) }
{
    let Some(name) = changes else {
        return match no_changes(alloc, map) {
            Ok(batches) => Ok(Updates {
                batches,
                moves: None,
            }),
            Err(NoMemory) => Err(JobStop::NoMemory),
        };
    };
    let text = read_file(alloc, name, Input::Changes, desk)?;
    judge_still(alloc, name, text.as_slice(), map, states)
}

/// The map updates of the change file on a lattice; no batches where there is no such file. Where the robot may move, lines of
/// the file can say where it is.
pub(crate) fn read_change_file<D: Desk>(
    alloc: Global,
    changes: &Option<Name>,
    moving: bool,
    lattice: &Lattice,
    states: u32,
    desk: &mut D,
) -> Result<Updates, JobStop>
    requires limit { states ≤ 268435456 }
    ensures says { IfOk result (ReadsUpdates (D.state desk.old).held changes.now (scope_of states moving lattice.now)) }
    ensures in_world { IfOk result (AreUpdatesIn lattice_site moving lattice.now) }
    ensures stop { IfErr result
        (ChangesStopFor (D.state desk.old) (D.state desk.new) changes.now (scope_of states moving lattice.now)) }
    ensures explained { IfErr result (ExplainsChanges (D.state desk.old).held changes.now) }
    ensures frame { ReadsOnly (D.state desk.old) (D.state desk.new) }
{
    match changes {
        Some(name) if moving => {
            let text = read_file(alloc, name, Input::Changes, desk)?;
            judge_moving(alloc, name, text.as_slice(), lattice, states)
        }
        _ => read_still(alloc, changes, lattice.map(), states, desk),
    }
}
