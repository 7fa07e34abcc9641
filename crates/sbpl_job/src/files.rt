//! Names of files and outputs, which differ where they have to.

ghost use Rattle.std.specs.Prelude.{◌≡◌, IfOk, Some, option_map};
ghost use Rattle.std.specs.Str.{bytes_eq};
ghost use Rattle.sbpl_job.specs.declared.words.Setting.TheVariants as Settings;
ghost use Rattle.sbpl_job.specs.Found.{set_in};
ghost use Rattle.sbpl_job.specs.Jobs.{AreGridSources, AreSources, differ, form_by, form_named, grid_sources_in};
ghost use Rattle.sbpl_job.specs.Jobs.{is_input, output_by, outputs_by, outputs_in, sources_in};
ghost use Rattle.sbpl_job.specs.Words.{Names, text_of, texts};

use crate::ends::{pose_by, square_by};
use crate::job::{GridSources, JobFault, LabelForm, Outputs, Sources};
use crate::name::Name;
use crate::values::{radius_of, states_by};
use crate::words::stands_in;
use clap::ArgMatches;
use sbpl_cfg::Pose;
use std::alloc::{AllocError, Global};

/// These names, this limit of states, this radius, and this start and this goal in place of the file's.
fn make_sources(
    alloc: Global,
    env: &str,
    prims: &str,
    states: u32,
    radius: u64,
    start: Option<Pose>,
    goal: Option<Pose>,
) -> Result<Sources, AllocError>
    ensures sources { IfOk result (λ s. s ≡ record {
      env = env.now;
      prims = prims.now;
      states = states;
      radius = radius;
      start = start;
      goal = goal;
    }) }
{
    Ok(Sources {
        env: Name::of(alloc, env)?,
        prims: Name::of(alloc, prims)?,
        states,
        radius,
        start,
        goal,
    })
}

/// What the lattice of a command is made of.
pub(crate) fn sources_of(
    alloc: Global,
    env: &str,
    prims: &str,
    matches: &ArgMatches,
) -> Result<Sources, JobFault>
    ensures sources { Names (sources_in env.now prims.now (set_in matches.now)) result }
    ensures range { IfOk result AreSources }
{
    let states = states_by(matches.get_str("states"))?;
    let radius = radius_of(matches)?;
    let start = pose_by(alloc, matches.get_str("start"))?;
    let goal = pose_by(alloc, matches.get_str("goal"))?;
    Ok(make_sources(alloc, env, prims, states, radius, start, goal)?)
}

/// What the grid of a command is made of.
pub(crate) fn grid_sources_of(
    alloc: Global,
    env: &str,
    matches: &ArgMatches,
) -> Result<GridSources, JobFault>
    ensures sources { Names (grid_sources_in env.now (set_in matches.now)) result }
    ensures range { IfOk result AreGridSources }
{
    let states = states_by(matches.get_str("states"))?;
    let start = square_by(alloc, matches.get_str("start"), states)?;
    let goal = square_by(alloc, matches.get_str("goal"), states)?;
    Ok(GridSources {
        env: Name::of(alloc, env)?,
        states,
        start,
        goal,
    })
}

/// The name that this word is, if there is one.
pub(crate) fn name_of(alloc: Global, word: Option<&str>) -> Result<Option<Name>, AllocError>
    ensures name { IfOk result (λ name. name ≡ option_map text_of word.entry) }
{
    match word {
        None => Ok(None),
        Some(word) => Ok(Some(Name::of(alloc, word)?)),
    }
}

/// Whether a name is this word.
fn is_same(word: &str, name: &Name) -> bool
    ensures same { result ≡ bytes_eq word.now name.now }
{
    word == name.as_str()
}

/// Whether a name is that of a file that is read: one of these, or the changes.
fn is_input(files: &[&str], changes: &Option<Name>, name: &str) -> bool
    ensures input { result ≡ is_input (texts files.now) changes.now name.now }
{
    if stands_in(name, files) {
        return true;
    }
    match changes {
        Some(changes) => is_same(name, changes),
        None => false,
    }
}

/// The output of this name, which is no file that is read.
fn output_named(
    alloc: Global,
    files: &[&str],
    changes: &Option<Name>,
    name: &str,
) -> Result<Option<Name>, JobFault>
    ensures output { Names (output_by (texts files.now) changes.now (Some name.now)) result }
{
    if is_input(files, changes, name) {
        return Err(JobFault::Words);
    }
    Ok(Some(Name::of(alloc, name)?))
}

/// The output that this word names, if there is one.
fn output_of(
    alloc: Global,
    files: &[&str],
    changes: &Option<Name>,
    name: Option<&str>,
) -> Result<Option<Name>, JobFault>
    ensures output { Names (output_by (texts files.now) changes.now (option_map text_of name.entry)) result }
{
    match name {
        None => Ok(None),
        Some(name) => output_named(alloc, files, changes, name),
    }
}

/// The form of labels of this version.
pub fn form_named(version: &str) -> Result<LabelForm, JobFault>
    ensures form { Names (form_named version.now) result }
{
    match version {
        "1" => Ok(LabelForm::Full),
        "2" => Ok(LabelForm::Sparse),
        _ => Err(JobFault::Words),
    }
}

/// The form of labels of the version that this word names, which only goes with labels that are written; sparse where there is
/// no word.
fn form_of(labels: &Option<Name>, version: Option<&str>) -> Result<LabelForm, JobFault>
    ensures form { Names (form_by labels.now (option_map text_of version.entry)) result }
{
    match version {
        None => Ok(LabelForm::Sparse),
        Some(version) if labels.is_some() => form_named(version),
        Some(_) => Err(JobFault::Words),
    }
}

/// Whether two outputs differ, where both are set.
fn differ(first: &Option<Name>, second: &Option<Name>) -> bool
    ensures differ { result ≡ differ first.now second.now }
{
    match (first, second) {
        (Some(first), Some(second)) => !is_same(first.as_str(), second),
        _ => true,
    }
}

/// Three outputs, which differ where they are set.
fn all_outputs(
    labels: Option<Name>,
    form: LabelForm,
    trace: Option<Name>,
    incumbent: Option<Name>,
) -> Result<Outputs, JobFault>
    ensures outputs { Names (outputs_by labels form trace incumbent) result }
{
    if differ(&labels, &trace) && differ(&labels, &incumbent) && differ(&trace, &incumbent) {
        Ok(Outputs {
            labels,
            form,
            trace,
            incumbent,
        })
    } else {
        Err(JobFault::Words)
    }
}

/// Where a plan that reads these files and these changes writes its labels, its trace and the newest path, and in which form the
/// labels are.
pub(crate) fn outputs_of(
    alloc: Global,
    files: &[&str],
    changes: &Option<Name>,
    matches: &ArgMatches,
) -> Result<Outputs, JobFault>
    ensures outputs { Names (outputs_in (texts files.now) changes.now (set_in matches.now)) result }
{
    let labels = output_of(alloc, files, changes, matches.get_str("labels"))?;
    let form = form_of(&labels, matches.get_str("labels-as"))?;
    let trace = output_of(alloc, files, changes, matches.get_str("trace"))?;
    let incumbent = output_of(alloc, files, changes, matches.get_str("incumbent"))?;
    all_outputs(labels, form, trace, incumbent)
}
