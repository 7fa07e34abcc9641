//! Values that words can give, and what they must be.

use clap::ArgMatches;
use sbpl_job::{
    Command, JobFault, Setting, USUAL_STATES, back_of, budget_of, form_named, milli_by, planner_of,
    pose_by, radius_of, read_extent, read_seed, square_by, states_by, with_limit, workers_of,
};
use std::alloc::{AllocError, Global};

/// A value that can be wrong.
#[derive(Clone, Copy)]
pub(crate) enum Value {
    Env,
    Prims,
    /// The file of labels that are checked.
    LabelsFile,
    Changes,
    /// The start on a lattice.
    Start,
    /// The goal on a lattice.
    Goal,
    /// The start on a grid.
    GridStart,
    /// The goal on a grid.
    GridGoal,
    Radius,
    First,
    Step,
    Bound,
    /// The planner on a lattice.
    Planner,
    /// The planner on a grid, where the robot stays.
    GridPlanner,
    /// The planner whose labels are checked.
    Back,
    Workers,
    Budget,
    States,
    /// The file of labels that are written.
    Labels,
    LabelsAs,
    Trace,
    Incumbent,
    Seed,
    Width,
    Height,
}

/// The plain words of a command, in order.
pub(crate) fn plain_values(command: Command) -> &'static [Value] {
    match command {
        Command::Plan | Command::Sweep => &[Value::Env, Value::Prims],
        Command::Check => &[Value::Env, Value::Prims, Value::LabelsFile],
        Command::Demo => &[Value::Seed, Value::Width, Value::Height],
        Command::Nav => &[Value::Env],
        Command::NavCheck => &[Value::Env, Value::LabelsFile],
    }
}

/// The planner that a command can be given.
fn planner_set(command: Command) -> Value {
    match command {
        Command::Check => Value::Back,
        Command::Nav => Value::GridPlanner,
        _ => Value::Planner,
    }
}

/// Whether a command is one on a grid.
fn is_on_grid(command: Command) -> bool {
    matches!(command, Command::Nav | Command::NavCheck)
}

/// What a setting of a command sets.
pub(crate) fn value_set(command: Command, setting: Setting) -> Value {
    match setting {
        Setting::Changes => Value::Changes,
        Setting::Start if is_on_grid(command) => Value::GridStart,
        Setting::Start => Value::Start,
        Setting::Goal if is_on_grid(command) => Value::GridGoal,
        Setting::Goal => Value::Goal,
        Setting::Radius => Value::Radius,
        Setting::Planner => planner_set(command),
        Setting::Workers => Value::Workers,
        Setting::First => Value::First,
        Setting::Step => Value::Step,
        Setting::Bound => Value::Bound,
        Setting::Budget => Value::Budget,
        Setting::States => Value::States,
        Setting::Labels => Value::Labels,
        Setting::LabelsAs => Value::LabelsAs,
        Setting::Trace => Value::Trace,
        Setting::Incumbent => Value::Incumbent,
    }
}

/// The numbers and choices of a command, in the order in which they are looked at.
fn values_of(command: Command) -> &'static [Value] {
    match command {
        Command::Plan => PLAN,
        Command::Check => &[
            Value::Start,
            Value::Goal,
            Value::Radius,
            Value::Back,
            Value::States,
        ],
        Command::Sweep => &[Value::Radius, Value::States],
        Command::Demo => &[Value::Seed, Value::Width, Value::Height],
        Command::Nav => NAV,
        Command::NavCheck => &[Value::States, Value::GridStart, Value::GridGoal],
    }
}

/// The values of `plan`.
const PLAN: &[Value] = &[
    Value::Start,
    Value::Goal,
    Value::Radius,
    Value::First,
    Value::Step,
    Value::Bound,
    Value::Planner,
    Value::Workers,
    Value::Budget,
    Value::States,
    Value::LabelsAs,
];

/// The values of `nav`.
const NAV: &[Value] = &[
    Value::States,
    Value::GridStart,
    Value::GridGoal,
    Value::GridPlanner,
    Value::First,
    Value::Step,
    Value::Bound,
    Value::Workers,
    Value::Budget,
    Value::LabelsAs,
];

/// How the words of a command name a value.
pub(crate) fn name_of(value: Value) -> &'static str {
    match value {
        Value::Env => "ENV",
        Value::Prims => "MPRIM",
        Value::LabelsFile => "LABELS",
        Value::Changes => "--changes",
        Value::Start | Value::GridStart => "--start",
        Value::Goal | Value::GridGoal => "--goal",
        Value::Radius => "--radius",
        Value::First => "--first",
        Value::Step => "--step",
        Value::Bound => "--bound",
        Value::Planner | Value::GridPlanner | Value::Back => "--planner",
        Value::Workers => "--workers",
        Value::Budget => "--budget",
        Value::States => "--states",
        Value::Labels => "--labels",
        Value::LabelsAs => "--labels-as",
        Value::Trace => "--trace",
        Value::Incumbent => "--incumbent",
        Value::Seed => "SEED",
        Value::Width => "W",
        Value::Height => "H",
    }
}

/// The argument that has a value.
fn id_of(value: Value) -> &'static str {
    let name = name_of(value);
    name.strip_prefix("--").unwrap_or(name)
}

/// The text that a command is given for a value.
pub(crate) fn given<'a>(value: Value, matches: &ArgMatches<'a>) -> Option<&'a str> {
    matches.get_str(id_of(value))
}

/// The limit of states that a command is given, or else the usual one.
fn limit_in(matches: &ArgMatches) -> u32 {
    states_by(matches.get_str("states")).unwrap_or(USUAL_STATES)
}

/// What a value must be. A text that ends in a space is completed by `wanted_with`.
fn wanted(value: Value) -> &'static str {
    match value {
        Value::Env | Value::Prims | Value::LabelsFile | Value::Changes =>
            "a file to read, whose name is not empty and does not begin with \"-\"",
        Value::Labels | Value::Trace | Value::Incumbent =>
            "a file to write, whose name is not empty and does not begin with \"-\"",
        Value::Start | Value::Goal =>
            "X,Y,T: three decimals from -1000000000 to 1000000000, two in metres and the angle in radians",
        Value::GridStart | Value::GridGoal => "X,Y: the column and the row of a cell, from 0 to ",
        Value::Radius => "a decimal from 0 to 1000, in metres",
        Value::First | Value::Bound => "a decimal from 1 to 100, in whole thousandths",
        Value::Step => "a decimal from 0.001 to 99, in whole thousandths",
        Value::Planner => "ad, ara, back or epase",
        Value::GridPlanner => "ad, ara or epase",
        Value::Back => "back",
        Value::Workers => "a whole number from 1 to 64, and goes with --planner epase",
        Value::Budget => "a whole number from 1 to 1073741824",
        Value::States => "a whole number from 1 to 268435456",
        Value::LabelsAs => "1 or 2, and goes with --labels",
        Value::Seed => "a whole number from 0 to 2^64 - 1",
        Value::Width | Value::Height => "a whole number from 8 to 512",
    }
}

/// The limit of states that words of the spaced form give, or else the usual one.
fn limit_of(words: &[&str]) -> u32 {
    for i in 1..words.len() {
        if words[i - 1] == "--states" {
            return states_by(Some(words[i])).unwrap_or(USUAL_STATES);
        }
    }
    USUAL_STATES
}

/// What a value must be that stands in words of the spaced form, with the limit of states that they give.
pub(crate) fn wanted_with(
    alloc: Global,
    value: Value,
    words: &[&str],
) -> Result<String, AllocError> {
    with_limit(alloc, wanted(value), limit_of(words))
}

/// Whether the workers fit the planner, where that is right.
fn are_workers_right(matches: &ArgMatches) -> bool {
    match planner_of(matches) {
        Ok(planner) => workers_of(planner, matches).is_ok(),
        Err(_) => true,
    }
}

/// Whether the planner is one under which the robot stays.
fn is_grid_planner_right(matches: &ArgMatches) -> bool {
    match planner_of(matches) {
        Ok(planner) => !planner.may_move(),
        Err(_) => false,
    }
}

/// Whether the form of labels is right, and stands with labels, if it is given.
fn is_form_right(matches: &ArgMatches) -> bool {
    match matches.get_str("labels-as") {
        Some(version) => matches.get_str("labels").is_some() && form_named(version).is_ok(),
        None => true,
    }
}

/// Whether a number or a choice is right, or not given.
fn is_right(alloc: Global, value: Value, matches: &ArgMatches) -> bool {
    let given = given(value, matches);
    match value {
        Value::Start | Value::Goal => !matches!(pose_by(alloc, given), Err(JobFault::Words)),
        Value::GridStart | Value::GridGoal => {
            !matches!(
                square_by(alloc, given, limit_in(matches)),
                Err(JobFault::Words)
            )
        }
        Value::Radius => radius_of(matches).is_ok(),
        Value::First | Value::Bound => milli_by(given, 1000, 1000, 100_000).is_ok(),
        Value::Step => milli_by(given, 500, 1, 99_000).is_ok(),
        Value::Planner => planner_of(matches).is_ok(),
        Value::GridPlanner => is_grid_planner_right(matches),
        Value::Back => back_of(matches).is_ok(),
        Value::Workers => are_workers_right(matches),
        Value::Budget => budget_of(matches).is_ok(),
        Value::States => states_by(given).is_ok(),
        Value::LabelsAs => is_form_right(matches),
        Value::Seed => read_seed(given.unwrap_or("")).is_ok(),
        Value::Width | Value::Height => read_extent(given.unwrap_or("")).is_ok(),
        _ => true,
    }
}

/// The first number or choice of a command that is wrong.
pub(crate) fn wrong_value(alloc: Global, command: Command, matches: &ArgMatches) -> Option<Value> {
    for value in values_of(command) {
        if !is_right(alloc, *value, matches) {
            return Some(*value);
        }
    }
    None
}

/// The files that a plan reads.
const READ: &[Value] = &[Value::Env, Value::Prims, Value::Changes];

/// The files that it writes.
const WRITTEN: &[Value] = &[Value::Labels, Value::Trace, Value::Incumbent];

/// Which of these files a file is, too, if it is given and is one.
fn same_as(value: Value, others: &[Value], matches: &ArgMatches) -> Option<Value> {
    let name = given(value, matches)?;
    for other in others {
        if given(*other, matches) == Some(name) {
            return Some(*other);
        }
    }
    None
}

/// A file and one that is written, which are the same, if there are such.
pub(crate) fn same_files(matches: &ArgMatches) -> Option<(Value, Value)> {
    for i in 0..WRITTEN.len() {
        let written = WRITTEN[i];
        if let Some(other) = same_as(written, READ, matches) {
            return Some((other, written));
        }
        if let Some(other) = same_as(written, &WRITTEN[..i], matches) {
            return Some((other, written));
        }
    }
    None
}
