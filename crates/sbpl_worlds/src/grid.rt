//! The grid that an environment file stands for, and the batches of its changes.

ghost use Rattle.std.specs.Prelude.{◌≤◌, IfErr, IfOk};
ghost use Rattle.sbpl_promises.specs.sbpl_job.Jobs.{AreGridSources};
ghost use Rattle.sbpl_promises.specs.sbpl_nav2d.World.{IsGridWorld};
ghost use Rattle.sbpl_promises.specs.Causes.{AreRead, EarlyStopsFor, GridStopsFor, IsGridRefused, ReadsGrid, grid_files};
ghost use Rattle.sbpl_promises.specs.Explained.{ExplainsGrid, ExplainsGridUpdates};
ghost use Rattle.sbpl_promises.specs.Texts.{IsGridText};
ghost use Rattle.sbpl_promises.specs.Writing.{ReadsOnly};

use crate::ends::posed_on_grid;
use crate::files::{read_file, read_still};
use sbpl_promises::{
    Desk, EnvFault, Grid, GridSources, Input, JobStop, Map, Name, Nav, NavEnv, Refusal, Updates,
    grid_message, read_nav,
};
use std::alloc::Global;

/// The environment that the text of the file of this name stands for, under this limit of states, and the costs of its cells.
fn judge_grid(
    alloc: Global,
    name: &Name,
    text: &[u8],
    states: u32,
) -> Result<(NavEnv, Grid), JobStop>
    requires limit { states ≤ 268435456 }
    ensures stands { IfOk result (λ x. IsGridText states text.now x.0 x.1) }
    ensures stop { IfErr result (IsGridRefused states name.now text.now) }
{
    match read_nav(alloc, text, states) {
        Ok(found) => Ok(found),
        Err(EnvFault::NoMemory) => Err(JobStop::NoMemory),
        Err(fault) => {
            let message = grid_message(alloc, name.as_str(), text, &fault, states)?;
            Err(JobStop::Refused(Refusal::Grid(fault), message))
        }
    }
}

/// The grid of an environment file, with the start and the goal of the words in place of its own.
fn read_grid<D: Desk>(alloc: Global, from: &GridSources, desk: &mut D) -> Result<Nav, JobStop>
    requires ranges { AreGridSources from.now }
    ensures says { IfOk result (ReadsGrid (D.state desk.old).held from.now) }
    ensures kept { IfOk result IsGridWorld }
    ensures stop { IfErr result (GridStopsFor (D.state desk.old) (D.state desk.new) from.now) }
    ensures explained { IfErr result (ExplainsGrid (D.state desk.old).held from.now.env) }
    ensures frame { ReadsOnly (D.state desk.old) (D.state desk.new) }
{
    let text = read_file(alloc, &from.env, Input::Environment, desk)?;
    let (file, grid) = judge_grid(alloc, &from.env, text.as_slice(), from.states)?;
    let env = posed_on_grid(alloc, from, &file)?;
    let map = Map::plain(env.width, env.height, grid);
    Ok(Nav::new(&env, map))
}

/// The grid of an environment file, and the map updates of a change file.
pub fn read_grid_updates<D: Desk>(
    alloc: Global,
    from: &GridSources,
    changes: &Option<Name>,
    desk: &mut D,
) -> Result<(Nav, Updates), JobStop>
    requires ranges { AreGridSources from.now }
    ensures updates { IfOk result (λ x. AreRead (D.state desk.old).held (grid_files from.now) changes.now x.0 x.1) }
    ensures stop { IfErr result (EarlyStopsFor (D.state desk.old) (D.state desk.new) (grid_files from.now) changes.now) }
    ensures explained { IfErr result (ExplainsGridUpdates (D.state desk.old).held from.now.env changes.now) }
    ensures frame { ReadsOnly (D.state desk.old) (D.state desk.new) }
{
    let nav = read_grid(alloc, from, desk)?;
    match read_still(alloc, changes, nav.map(), from.states, desk) {
        Ok(updates) => Ok((nav, updates)),
        Err(stop) => Err(stop),
    }
}
