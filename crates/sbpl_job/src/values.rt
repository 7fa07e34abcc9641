//! Values of settings as numbers, and how a path is to be searched.

ghost use Rattle.std.specs.Prelude.{◌≡◌, ◌≤◌, ◌^◌, false, IfOk, IfSome, Some, option_map};
ghost use Rattle.sbpl_cfg.specs.sbpl_fixed.Numbers.{nano_of, whole_of};
ghost use Rattle.sbpl_job.specs.declared.words.Setting.TheVariants as Settings;
ghost use Rattle.sbpl_job.specs.Found.{set_in};
ghost use Rattle.sbpl_job.specs.Jobs.{IsSearchJob, back_by, budget_by, budget_in, grid_search_in, has_workers, may_move};
ghost use Rattle.sbpl_job.specs.Jobs.{milli_by, milli_from, milli_in, most_workers, planner_by, planner_named, radius_by};
ghost use Rattle.sbpl_job.specs.Jobs.{radius_in, search_in, states_by, states_in, workers_by, workers_in};
ghost use Rattle.sbpl_job.specs.Words.{Names, text_of};

use crate::job::{JobFault, Planner, SearchJob};
use crate::name::Name;
use clap::ArgMatches;
use sbpl_cfg::{NumFault, read_nano, read_whole};

/// The greatest radius, in nanometres.
const MOST_RADIUS: i64 = 1_000_000_000_000;

/// The most expansions of a plan.
const MOST_BUDGET: i64 = 1 << 30;

/// The greatest limit of states.
const MOST_STATES: i64 = 268_435_456;

/// The limit of states where none is given.
pub const USUAL_STATES: u32 = 8_388_608;

/// The most workers that a job can ask for.
const MOST_WORKERS: i64 = 64;

/// A radius in decimal metres, as nanometres.
fn read_radius(metres: &str) -> Result<u64, JobFault>
    ensures radius { Names (radius_in (nano_of metres.now)) result }
    ensures range { IfOk result (λ r. r ≤ 10 ^ 12) }
{
    match read_nano(metres.as_bytes()) {
        Ok(radius) if radius >= 0 && radius <= MOST_RADIUS => Ok(radius as u64),
        _ => Err(JobFault::Words),
    }
}

/// The radius of the robot in nanometres; 0 where it is not given.
pub fn radius_of(matches: &ArgMatches) -> Result<u64, JobFault>
    ensures radius { Names (radius_by (set_in matches.now Settings.Radius)) result }
    ensures range { IfOk result (λ r. r ≤ 10 ^ 12) }
{
    match matches.get_str("radius") {
        None => Ok(0),
        Some(metres) => read_radius(metres),
    }
}

/// The thousandths that a number of billionths is exactly, in their range; `None` where it is no such number, or none was read.
pub fn milli_in(nano: Result<i64, NumFault>, low: u32, high: u32) -> Option<u32>
    ensures milli { result ≡ milli_in low high nano }
    ensures range { IfSome result (λ m. (low ≤ m) × (m ≤ high)) }
{
    match nano {
        Ok(nano) if nano >= 0 => milli_of(nano as u64, low, high),
        _ => None,
    }
}

/// The thousandths that `nano` billionths are, in their range.
fn milli_of(nano: u64, low: u32, high: u32) -> Option<u32>
    ensures milli { result ≡ milli_from low high nano }
    ensures range { IfSome result (λ m. (low ≤ m) × (m ≤ high)) }
{
    let milli = nano / 1_000_000;
    if nano % 1_000_000 == 0 && u64::from(low) <= milli && milli <= u64::from(high) {
        Some(milli as u32)
    } else {
        None
    }
}

/// A number of thousandths in its range, which a decimal says exactly.
fn read_milli(text: &str, low: u32, high: u32) -> Result<u32, JobFault>
    ensures milli { Names (milli_in low high (nano_of text.now)) result }
    ensures range { IfOk result (λ m. (low ≤ m) × (m ≤ high)) }
{
    match milli_in(read_nano(text.as_bytes()), low, high) {
        Some(milli) => Ok(milli),
        None => Err(JobFault::Words),
    }
}

/// The thousandths that a text gives, in their range, or a default where there is none.
pub fn milli_by(text: Option<&str>, default: u32, low: u32, high: u32) -> Result<u32, JobFault>
    requires low { low ≤ default }
    requires high { default ≤ high }
    ensures milli { Names (milli_by default low high (option_map text_of text.entry)) result }
    ensures range { IfOk result (λ m. (low ≤ m) × (m ≤ high)) }
{
    match text {
        None => Ok(default),
        Some(text) => read_milli(text, low, high),
    }
}

/// A number of expansions, 1 to 2^30; `None` where it is no such number, or none was read.
pub fn budget_in(read: Result<i64, NumFault>) -> Option<u64>
    ensures budget { result ≡ budget_in read }
    ensures range { IfSome result (λ b. (1 ≤ b) × (b ≤ 2 ^ 30)) }
{
    match read {
        Ok(budget) if budget >= 1 && budget <= MOST_BUDGET => Some(budget as u64),
        _ => None,
    }
}

/// A number of expansions, 1 to 2^30.
fn read_budget(text: &str) -> Result<u64, JobFault>
    ensures budget { Names (budget_in (whole_of text.now)) result }
    ensures range { IfOk result (λ b. (1 ≤ b) × (b ≤ 2 ^ 30)) }
{
    match budget_in(read_whole(text.as_bytes())) {
        Some(budget) => Ok(budget),
        None => Err(JobFault::Words),
    }
}

/// How many states a plan may expand; 2^30 where it is not given.
pub fn budget_of(matches: &ArgMatches) -> Result<u64, JobFault>
    ensures budget { Names (budget_by (set_in matches.now Settings.Budget)) result }
    ensures range { IfOk result (λ b. (1 ≤ b) × (b ≤ 2 ^ 30)) }
{
    match matches.get_str("budget") {
        None => Ok(MOST_BUDGET as u64),
        Some(text) => read_budget(text),
    }
}

/// A limit of states, 1 to 2^28.
fn read_states(text: &str) -> Result<u32, JobFault>
    ensures states { Names (states_in (whole_of text.now)) result }
    ensures range { IfOk result (λ n. (1 ≤ n) × (n ≤ 268435456)) }
{
    match read_whole(text.as_bytes()) {
        Ok(states) if states >= 1 && states <= MOST_STATES => Ok(states as u32),
        _ => Err(JobFault::Words),
    }
}

/// How many states an environment may have, by a text that is given; 2^23 where there is none.
pub fn states_by(text: Option<&str>) -> Result<u32, JobFault>
    ensures states { Names (states_by (option_map text_of text.entry)) result }
    ensures range { IfOk result (λ n. (1 ≤ n) × (n ≤ 268435456)) }
{
    match text {
        None => Ok(USUAL_STATES),
        Some(text) => read_states(text),
    }
}

/// How to search; by Anytime D* where it is not given.
pub fn planner_of(matches: &ArgMatches) -> Result<Planner, JobFault>
    ensures planner { Names (planner_by (set_in matches.now Settings.Planner)) result }
{
    match matches.get_str("planner") {
        None => Ok(Planner::AdStar),
        Some(name) => planner_named(name),
    }
}

/// The planner of this name.
fn planner_named(name: &str) -> Result<Planner, JobFault>
    ensures planner { Names (planner_named name.now) result }
{
    match name {
        "ara" => Ok(Planner::Ara),
        "ad" => Ok(Planner::AdStar),
        "back" => Ok(Planner::Back),
        "epase" => Ok(Planner::Epase),
        _ => Err(JobFault::Words),
    }
}

/// Whether workers evaluate the edges of a planner.
fn has_workers(planner: Planner) -> bool
    ensures workers { result ≡ has_workers planner }
{
    match planner {
        Planner::Epase => true,
        Planner::Ara | Planner::AdStar | Planner::Back => false,
    }
}

/// A number of workers, 1 to 64.
fn read_workers(text: &str) -> Result<u32, JobFault>
    ensures workers { Names (workers_in (whole_of text.now)) result }
    ensures range { IfOk result (λ w. (1 ≤ w) × (w ≤ most_workers)) }
{
    match read_whole(text.as_bytes()) {
        Ok(workers) if workers >= 1 && workers <= MOST_WORKERS => Ok(workers as u32),
        _ => Err(JobFault::Words),
    }
}

/// The number of workers that a text gives a planner, which it can do only where the planner has workers.
fn workers_given(planner: Planner, text: &str) -> Result<u32, JobFault>
    ensures workers { Names (workers_by planner (Some text.now)) result }
    ensures range { IfOk result (λ w. (1 ≤ w) × (w ≤ most_workers)) }
    ensures none { IfOk result (λ w. has_workers planner ≡ false → w ≡ 1) }
{
    if has_workers(planner) {
        read_workers(text)
    } else {
        Err(JobFault::Words)
    }
}

/// How many workers evaluate the edges of a planner; 1 where it is not given.
pub fn workers_of(planner: Planner, matches: &ArgMatches) -> Result<u32, JobFault>
    ensures workers { Names (workers_by planner (set_in matches.now Settings.Workers)) result }
    ensures range { IfOk result (λ w. (1 ≤ w) × (w ≤ most_workers)) }
    ensures none { IfOk result (λ w. has_workers planner ≡ false → w ≡ 1) }
{
    match matches.get_str("workers") {
        None => Ok(1),
        Some(text) => workers_given(planner, text),
    }
}

/// Whether the labels of `check` are those of the planner `back`, the only one that can be set there.
pub fn back_of(matches: &ArgMatches) -> Result<bool, JobFault>
    ensures back { Names (back_by (set_in matches.now Settings.Planner)) result }
{
    match matches.get_str("planner") {
        None => Ok(false),
        Some("back") => Ok(true),
        Some(_) => Err(JobFault::Words),
    }
}

/// How the path of the job `plan` is to be searched.
pub(crate) fn search_of(matches: &ArgMatches) -> Result<SearchJob, JobFault>
    ensures search { Names (search_in (set_in matches.now)) result }
    ensures range { IfOk result IsSearchJob }
{
    let planner = planner_of(matches)?;
    let workers = workers_of(planner, matches)?;
    let first = milli_by(matches.get_str("first"), 1000, 1000, 100_000)?;
    let step = milli_by(matches.get_str("step"), 500, 1, 99_000)?;
    let bound = milli_by(matches.get_str("bound"), 1000, 1000, 100_000)?;
    let budget = budget_of(matches)?;
    Ok(SearchJob {
        planner,
        workers,
        first,
        step,
        bound,
        budget,
    })
}

/// How the path of the job `nav` is to be searched: by a planner under which the robot stays.
pub(crate) fn grid_search_of(matches: &ArgMatches) -> Result<SearchJob, JobFault>
    ensures search { Names (grid_search_in (set_in matches.now)) result }
    ensures range { IfOk result IsSearchJob }
    ensures stays { IfOk result (λ s. may_move s.planner ≡ false) }
{
    let search = search_of(matches)?;
    if search.planner.may_move() {
        return Err(JobFault::Words);
    }
    Ok(search)
}
