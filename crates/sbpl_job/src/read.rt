//! The job that the words name.

ghost use Rattle.std.specs.Prelude.{◌≡◌, false, IfErr, IfOk, None, Some, option_and_then};
ghost use Rattle.sbpl_job.specs.Found.{job_found, set_in};
ghost use Rattle.sbpl_job.specs.Jobs.{AreGridSources, AreSources, IsJob, IsSearchJob, check_in, command_named, demo_in};
ghost use Rattle.sbpl_job.specs.Jobs.{job_by, job_named, may_move, nav_by, nav_check_in, nav_in, nav_on};
ghost use Rattle.sbpl_job.specs.Jobs.{plan_by, plan_in, plan_on, sweep_in};
ghost use Rattle.sbpl_job.specs.Words.{Names, parts_in, texts};

use crate::demo::{read_extent, read_seed};
use crate::files::{grid_sources_of, name_of, outputs_of, sources_of};
use crate::job::{
    CheckJob, DemoJob, GridSources, Job, JobFault, NavCheckJob, NavJob, Outputs, PlanJob,
    SearchJob, Sources,
};
use crate::line::find_parts;
use crate::name::Name;
use crate::values::{back_of, grid_search_of, search_of};
use crate::words::{Command, are_fit, spaced_words};
use clap::ArgMatches;
use std::alloc::Global;

/// The command of this name.
pub fn command_named(word: &str) -> Option<Command>
    ensures command { result ≡ command_named word.now }
{
    match word {
        "plan" => Some(Command::Plan),
        "check" => Some(Command::Check),
        "sweep" => Some(Command::Sweep),
        "demo" => Some(Command::Demo),
        "nav" => Some(Command::Nav),
        "navcheck" => Some(Command::NavCheck),
        _ => None,
    }
}

/// How the job `plan` on these sources, with these changes, searches, and what it writes.
fn plan_settings(
    alloc: Global,
    from: &Sources,
    changes: &Option<Name>,
    matches: &ArgMatches,
) -> Result<(SearchJob, Outputs), JobFault>
    ensures job { IfOk result (λ x. plan_on from.now changes.now (set_in matches.now)
        ≡ Some (plan_by from.now changes.now x.1 x.0)) }
    ensures none { IfErr result (λ e. e ≡ JobFault.Words → plan_on from.now changes.now (set_in matches.now) ≡ None) }
    ensures range { IfOk result (λ x. IsSearchJob x.0) }
{
    let files = [from.env.as_str(), from.prims.as_str()];
    let outputs = outputs_of(alloc, &files, changes, matches)?;
    let search = search_of(matches)?;
    Ok((search, outputs))
}

/// The job `plan` on these sources, with these changes.
fn plan_on(
    alloc: Global,
    sources: Sources,
    changes: Option<Name>,
    matches: &ArgMatches,
) -> Result<Job, JobFault>
    requires range { AreSources sources }
    ensures job { Names (plan_on sources changes (set_in matches.now)) result }
    ensures range { IfOk result IsJob }
{
    let (search, outputs) = plan_settings(alloc, &sources, &changes, matches)?;
    Ok(Job::Plan(PlanJob {
        sources,
        changes,
        search,
        outputs,
    }))
}

/// The job `plan` on these files.
fn plan_of(alloc: Global, env: &str, prims: &str, matches: &ArgMatches) -> Result<Job, JobFault>
    ensures job { Names (plan_in env.now prims.now (set_in matches.now)) result }
    ensures range { IfOk result IsJob }
{
    let sources = sources_of(alloc, env, prims, matches)?;
    let changes = name_of(alloc, matches.get_str("changes"))?;
    plan_on(alloc, sources, changes, matches)
}

/// The job `check` of this file of labels.
fn check_of(
    alloc: Global,
    env: &str,
    prims: &str,
    labels: &str,
    matches: &ArgMatches,
) -> Result<Job, JobFault>
    ensures job { Names (check_in env.now prims.now labels.now (set_in matches.now)) result }
    ensures range { IfOk result IsJob }
{
    let back = back_of(matches)?;
    Ok(Job::Check(CheckJob {
        sources: sources_of(alloc, env, prims, matches)?,
        changes: name_of(alloc, matches.get_str("changes"))?,
        labels: Name::of(alloc, labels)?,
        back,
    }))
}

/// The job `sweep` on these files.
fn sweep_of(alloc: Global, env: &str, prims: &str, matches: &ArgMatches) -> Result<Job, JobFault>
    ensures job { Names (sweep_in env.now prims.now (set_in matches.now)) result }
    ensures range { IfOk result IsJob }
{
    Ok(Job::Sweep(sources_of(alloc, env, prims, matches)?))
}

/// The job `demo` of this seed and this size.
fn demo_of(seed: &str, width: &str, height: &str) -> Result<Job, JobFault>
    ensures job { Names (demo_in seed.now width.now height.now) result }
    ensures range { IfOk result IsJob }
{
    Ok(Job::Demo(DemoJob {
        seed: read_seed(seed)?,
        width: read_extent(width)?,
        height: read_extent(height)?,
    }))
}

/// How the job `nav` on these sources, with these changes, searches, and what it writes.
fn nav_settings(
    alloc: Global,
    from: &GridSources,
    changes: &Option<Name>,
    matches: &ArgMatches,
) -> Result<(SearchJob, Outputs), JobFault>
    ensures job { IfOk result
        (λ x. nav_on from.now changes.now (set_in matches.now) ≡ Some (nav_by from.now changes.now x.1 x.0)) }
    ensures none { IfErr result (λ e. e ≡ JobFault.Words → nav_on from.now changes.now (set_in matches.now) ≡ None) }
    ensures range { IfOk result (λ x. IsSearchJob x.0) }
    ensures stays { IfOk result (λ x. may_move x.0.planner ≡ false) }
{
    let files = [from.env.as_str()];
    let outputs = outputs_of(alloc, &files, changes, matches)?;
    let search = grid_search_of(matches)?;
    Ok((search, outputs))
}

/// The job `nav` on these sources, with these changes.
fn nav_on(
    alloc: Global,
    sources: GridSources,
    changes: Option<Name>,
    matches: &ArgMatches,
) -> Result<Job, JobFault>
    requires range { AreGridSources sources }
    ensures job { Names (nav_on sources changes (set_in matches.now)) result }
    ensures range { IfOk result IsJob }
{
    let (search, outputs) = nav_settings(alloc, &sources, &changes, matches)?;
    Ok(Job::Nav(NavJob {
        sources,
        changes,
        search,
        outputs,
    }))
}

/// The job `nav` on this file.
fn nav_of(alloc: Global, env: &str, matches: &ArgMatches) -> Result<Job, JobFault>
    ensures job { Names (nav_in env.now (set_in matches.now)) result }
    ensures range { IfOk result IsJob }
{
    let sources = grid_sources_of(alloc, env, matches)?;
    let changes = name_of(alloc, matches.get_str("changes"))?;
    nav_on(alloc, sources, changes, matches)
}

/// The job `navcheck` of this file of labels.
fn nav_check_of(
    alloc: Global,
    env: &str,
    labels: &str,
    matches: &ArgMatches,
) -> Result<Job, JobFault>
    ensures job { Names (nav_check_in env.now labels.now (set_in matches.now)) result }
    ensures range { IfOk result IsJob }
{
    Ok(Job::NavCheck(NavCheckJob {
        sources: grid_sources_of(alloc, env, matches)?,
        changes: name_of(alloc, matches.get_str("changes"))?,
        labels: Name::of(alloc, labels)?,
    }))
}

/// The job `plan` of what was found.
fn found_plan(alloc: Global, matches: &ArgMatches) -> Result<Job, JobFault>
    ensures job { Names (job_found Command.Plan matches.now) result }
    ensures range { IfOk result IsJob }
{
    let Some(env) = matches.get_str("ENV") else {
        return Err(JobFault::Words);
    };
    let Some(prims) = matches.get_str("MPRIM") else {
        return Err(JobFault::Words);
    };
    plan_of(alloc, env, prims, matches)
}

/// The job `check` of what was found.
fn found_check(alloc: Global, matches: &ArgMatches) -> Result<Job, JobFault>
    ensures job { Names (job_found Command.Check matches.now) result }
    ensures range { IfOk result IsJob }
{
    let Some(env) = matches.get_str("ENV") else {
        return Err(JobFault::Words);
    };
    let Some(prims) = matches.get_str("MPRIM") else {
        return Err(JobFault::Words);
    };
    let Some(labels) = matches.get_str("LABELS") else {
        return Err(JobFault::Words);
    };
    check_of(alloc, env, prims, labels, matches)
}

/// The job `sweep` of what was found.
fn found_sweep(alloc: Global, matches: &ArgMatches) -> Result<Job, JobFault>
    ensures job { Names (job_found Command.Sweep matches.now) result }
    ensures range { IfOk result IsJob }
{
    let Some(env) = matches.get_str("ENV") else {
        return Err(JobFault::Words);
    };
    let Some(prims) = matches.get_str("MPRIM") else {
        return Err(JobFault::Words);
    };
    sweep_of(alloc, env, prims, matches)
}

/// The job `demo` of what was found.
fn found_demo(matches: &ArgMatches) -> Result<Job, JobFault>
    ensures job { Names (job_found Command.Demo matches.now) result }
    ensures range { IfOk result IsJob }
{
    let Some(seed) = matches.get_str("SEED") else {
        return Err(JobFault::Words);
    };
    let Some(width) = matches.get_str("W") else {
        return Err(JobFault::Words);
    };
    let Some(height) = matches.get_str("H") else {
        return Err(JobFault::Words);
    };
    demo_of(seed, width, height)
}

/// The job `nav` of what was found.
fn found_nav(alloc: Global, matches: &ArgMatches) -> Result<Job, JobFault>
    ensures job { Names (job_found Command.Nav matches.now) result }
    ensures range { IfOk result IsJob }
{
    let Some(env) = matches.get_str("ENV") else {
        return Err(JobFault::Words);
    };
    nav_of(alloc, env, matches)
}

/// The job `navcheck` of what was found.
fn found_nav_check(alloc: Global, matches: &ArgMatches) -> Result<Job, JobFault>
    ensures job { Names (job_found Command.NavCheck matches.now) result }
    ensures range { IfOk result IsJob }
{
    let Some(env) = matches.get_str("ENV") else {
        return Err(JobFault::Words);
    };
    let Some(labels) = matches.get_str("LABELS") else {
        return Err(JobFault::Words);
    };
    nav_check_of(alloc, env, labels, matches)
}

/// The job of what was found.
fn job_found(alloc: Global, command: Command, matches: &ArgMatches) -> Result<Job, JobFault>
    ensures job { Names (job_found command matches.now) result }
    ensures range { IfOk result IsJob }
{
    match command {
        Command::Plan => found_plan(alloc, matches),
        Command::Check => found_check(alloc, matches),
        Command::Sweep => found_sweep(alloc, matches),
        Command::Demo => found_demo(matches),
        Command::Nav => found_nav(alloc, matches),
        Command::NavCheck => found_nav_check(alloc, matches),
    }
}

/// The job of a command with words of the spaced form.
fn job_in(alloc: Global, command: Command, words: &[&str]) -> Result<Job, JobFault>
    ensures job { Names (option_and_then (job_by command) (parts_in command (texts words.now))) result }
    ensures range { IfOk result IsJob }
{
    if !are_fit(command, words) {
        return Err(JobFault::Words);
    }
    match find_parts(alloc, command, words) {
        Ok(matches) => job_found(alloc, command, &matches),
        Err(fault) => Err(fault),
    }
}

/// The job that the words after the program's name stand for. `Words` exactly where they name no job.
///
/// The first word is the command. The words after it are plain words, which are not empty and do not begin with `-`;
/// settings, each followed by a plain word as its value; and settings joined with their value by `=`. They stand in any
/// order, and a setting at most once.
pub fn read_job(alloc: Global, words: &[String]) -> Result<Job, JobFault>
    ensures job { Names (job_named words.now) result }
    ensures range { IfOk result IsJob }
{
    let [word, rest @ ..] = words else {
        return Err(JobFault::Words);
    };
    let Some(command) = command_named(word.as_str()) else {
        return Err(JobFault::Words);
    };
    let spaced = spaced_words(alloc, command, rest)?;
    job_in(alloc, command, spaced.as_slice())
}
