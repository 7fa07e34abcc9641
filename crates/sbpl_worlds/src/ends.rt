//! The start and the goal that words give in place of a file's.

ghost use Rattle.std.specs.Prelude.{◌≡◌, ◌*◌, ◌<◌, IfErr, IfOk, IfSome, MatchBool};
ghost use Rattle.std.specs.Option.{option_map_or};
ghost use Rattle.sbpl_promises.specs.sbpl_cfg.Environment.{IsPoseOnMap};
ghost use Rattle.sbpl_promises.specs.sbpl_job.Jobs.{AreSources};
ghost use Rattle.sbpl_promises.specs.Causes.{IsEndRefused, IsOffStop};
ghost use Rattle.sbpl_promises.specs.Texts.{AreOn, IsSquareOn, posed, posed_on_grid, square_state};

use sbpl_promises::{
    Env, GridSources, JobStop, NavEnv, PathEnd, Pose, Refusal, Sources, Square, metres,
    on_grid_text, on_map_text, place_at, plain_message,
};
use std::alloc::{AllocError, Global};

/// The program's name, which stands where a message is on no file.
const PROGRAM: &str = "temjoask";

/// How the words name an end of a path.
fn name_of(end: PathEnd) -> &'static str {
    match end {
        PathEnd::Start => "--start",
        PathEnd::Goal => "--goal",
    }
}

/// What is said of a pose that is off the map of an environment.
fn off_map_text(alloc: Global, end: PathEnd, pose: &Pose, env: &Env) -> Result<String, AllocError> {
    let wanted = on_map_text(alloc, name_of(end), env.cell, env.width, env.height)?;
    let x = metres(alloc, pose.x)?;
    let y = metres(alloc, pose.y)?;
    format!(in alloc;
        "{}, found {} and {}",
        wanted.as_str(),
        x.as_str(),
        y.as_str()
    )
}

/// What is said of a cell that is off a grid.
fn off_grid_text(
    alloc: Global,
    end: PathEnd,
    square: Square,
    env: &NavEnv,
) -> Result<String, AllocError> {
    let wanted = on_grid_text(alloc, name_of(end), env.width, env.height)?;
    format!(in alloc; "{}, found {} and {}", wanted.as_str(), square.x, square.y)
}

/// The refusal of an end that is off the map, of which this is said; or that memory ran out.
fn refused(alloc: Global, end: PathEnd, what: Result<String, AllocError>) -> JobStop
    ensures refused { IsEndRefused end result }
{
    let Ok(what) = what else {
        return JobStop::NoMemory;
    };
    match plain_message(alloc, PROGRAM, what.as_str()) {
        Ok(message) => JobStop::Refused(Refusal::OffMap(end), message),
        Err(_) => JobStop::NoMemory,
    }
}

/// The environment of a file, with the start and the goal of the words in place of its own.
pub(crate) fn posed(alloc: Global, from: &Sources, file: &Env) -> Result<Env, JobStop>
    requires ranges { AreSources from.now }
    ensures posed { IfOk result (λ e. e ≡ posed from.now file.now) }
    ensures on_map { IfOk result (λ _. AreOn (IsPoseOnMap file.now) from.now.start from.now.goal) }
    ensures stop { IfErr result (IsOffStop (IsPoseOnMap file.now) from.now.start from.now.goal) }
{
    if let Some(start) = &from.start {
        if place_at(file, start).is_none() {
            let what = off_map_text(alloc, PathEnd::Start, start, file);
            return Err(refused(alloc, PathEnd::Start, what));
        }
    }
    if let Some(goal) = &from.goal {
        if place_at(file, goal).is_none() {
            let what = off_map_text(alloc, PathEnd::Goal, goal, file);
            return Err(refused(alloc, PathEnd::Goal, what));
        }
    }
    Ok(Env {
        start: from.start.unwrap_or(file.start),
        end: from.goal.unwrap_or(file.end),
        ..*file
    })
}

/// Whether a cell is on a grid.
fn is_on_grid(env: &NavEnv, square: &Square) -> bool
    ensures on { MatchBool result (IsSquareOn env.now square.now) (IsSquareOn env.now square.now → ⊥) }
{
    square.x < env.width && square.y < env.height
}

/// The state of a cell of a grid, or that of the file where the words give no cell.
fn state_of(env: &NavEnv, square: &Option<Square>, own: u32) -> u32
    requires on { IfSome square.now (IsSquareOn env.now) }
    requires own { own < env.now.width * env.now.height }
    ensures state { result ≡ option_map_or (square_state env.now.width) square.now own }
    ensures inside { result < env.now.width * env.now.height }
{
    match square {
        Some(square) => square.y * env.width + square.x,
        None => own,
    }
}

/// The environment of a grid's file, with the start and the goal of the words in place of its own.
pub(crate) fn posed_on_grid(
    alloc: Global,
    from: &GridSources,
    file: &NavEnv,
) -> Result<NavEnv, JobStop>
    ensures posed { IfOk result (λ e. e ≡ posed_on_grid from.now file.now) }
    ensures on_map { IfOk result (λ _. AreOn (IsSquareOn file.now) from.now.start from.now.goal) }
    ensures stop { IfErr result (IsOffStop (IsSquareOn file.now) from.now.start from.now.goal) }
{
    if let Some(start) = &from.start {
        if !is_on_grid(file, start) {
            let what = off_grid_text(alloc, PathEnd::Start, *start, file);
            return Err(refused(alloc, PathEnd::Start, what));
        }
    }
    if let Some(goal) = &from.goal {
        if !is_on_grid(file, goal) {
            let what = off_grid_text(alloc, PathEnd::Goal, *goal, file);
            return Err(refused(alloc, PathEnd::Goal, what));
        }
    }
    Ok(NavEnv {
        start: state_of(file, &from.start, file.start),
        end: state_of(file, &from.goal, file.end),
        ..*file
    })
}
