//! The arguments of each command, with their help.

ghost use Rattle.std.specs.Prelude.{◌≡◌, map};
ghost use Rattle.sbpl_job.specs.Lines.{arguments, rule_for, word_of};

use crate::words::Command;

/// An argument of a command.
pub(crate) struct Argument {
    /// The word by which help and matches name it.
    pub(crate) id: &'static str,
    /// What the value of a setting is called; a plain word, which must stand, has none.
    pub(crate) value: Option<&'static str>,
    /// What help says of it.
    pub(crate) help: &'static str,
}

/// The environment file of a lattice.
const ENV: Argument = Argument {
    id: "ENV",
    value: None,
    help: "the environment file, SBPL's .cfg; it has 16 headings, or 4 to 64 by NumThetaDirs:",
};

/// The environment file of a grid.
const GRID: Argument = Argument {
    id: "ENV",
    value: None,
    help: "the environment file of a grid: its size, obsthresh, start and end in cells, and a cost for each cell",
};

/// The primitive file.
const MPRIM: Argument = Argument {
    id: "MPRIM",
    value: None,
    help: "the primitive file, SBPL's .mprim",
};

/// The file of labels that are checked.
const LABELS_FILE: Argument = Argument {
    id: "LABELS",
    value: None,
    help: "the file of labels",
};

/// The seed of a demonstration.
const SEED: Argument = Argument {
    id: "SEED",
    value: None,
    help: "what the example is drawn from, 0 to 2^64 - 1",
};

/// The width of its map.
const WIDTH: Argument = Argument {
    id: "W",
    value: None,
    help: "how many cells the map is wide, 8 to 512",
};

/// The height of its map.
const HEIGHT: Argument = Argument {
    id: "H",
    value: None,
    help: "how many cells the map is high, 8 to 512",
};

/// The change file.
const CHANGES: Argument = Argument {
    id: "changes",
    value: Some("F"),
    help: "the file of changes, made from plan to plan [default: no change]",
};

/// Where to start on a lattice.
const START: Argument = Argument {
    id: "start",
    value: Some("X,Y,T"),
    help: "where to start, in metres and radians [default: the environment file's start]",
};

/// Where to go on a lattice.
const GOAL: Argument = Argument {
    id: "goal",
    value: Some("X,Y,T"),
    help: "where to go, in metres and radians [default: the environment file's end]",
};

/// Where to start on a grid.
const GRID_START: Argument = Argument {
    id: "start",
    value: Some("X,Y"),
    help: "the cell to start from [default: the environment file's start]",
};

/// Where to go on a grid.
const GRID_GOAL: Argument = Argument {
    id: "goal",
    value: Some("X,Y"),
    help: "the cell to go to [default: the environment file's end]",
};

/// The radius.
const RADIUS: Argument = Argument {
    id: "radius",
    value: Some("M"),
    help: "the radius of the robot in metres, 0 to 1000 [default: 0]",
};

/// The planner on a lattice.
const PLANNER: Argument = Argument {
    id: "planner",
    value: Some("P"),
    help: "how to search: ad, ara, back or epase [default: ad]",
};

/// The planner on a grid.
const GRID_PLANNER: Argument = Argument {
    id: "planner",
    value: Some("P"),
    help: "how to search: ad, ara or epase [default: ad]",
};

/// The planner whose labels are checked, where it is `back`.
const BACK: Argument = Argument {
    id: "planner",
    value: Some("P"),
    help: "back: the labels are those of the planner back [default: those of another]",
};

/// The workers of a planner.
const WORKERS: Argument = Argument {
    id: "workers",
    value: Some("N"),
    help: "how many workers evaluate edges, for epase alone, 1 to 64 [default: 1]",
};

/// The inflation of the first pass.
const FIRST: Argument = Argument {
    id: "first",
    value: Some("E"),
    help: "the inflation of the first pass, 1 to 100 [default: 1.000]",
};

/// By how much the inflation falls.
const STEP: Argument = Argument {
    id: "step",
    value: Some("E"),
    help: "by how much the inflation falls from pass to pass, 0.001 to 99 [default: 0.500]",
};

/// The bound that ends a plan.
const BOUND: Argument = Argument {
    id: "bound",
    value: Some("B"),
    help: "the bound that is good enough, 1 to 100 [default: 1.000]",
};

/// The budget of a plan.
const BUDGET: Argument = Argument {
    id: "budget",
    value: Some("N"),
    help: "how many states each plan may expand, 1 to 2^30 [default: 2^30]",
};

/// The limit of states.
const STATES: Argument = Argument {
    id: "states",
    value: Some("N"),
    help: "how many states the environment may have, 1 to 2^28 [default: 2^23]",
};

/// Where labels are written.
const LABELS: Argument = Argument {
    id: "labels",
    value: Some("F"),
    help: "where the labels are written [default: nowhere]",
};

/// In which form they are written.
const LABELS_AS: Argument = Argument {
    id: "labels-as",
    value: Some("V"),
    help: "the version of their text, only with --labels: 1 has a row for each state, 2 for those that are needed [default: 2]",
};

/// Where expansions are written.
const TRACE: Argument = Argument {
    id: "trace",
    value: Some("F"),
    help: "where the expansions are written [default: nowhere]",
};

/// Where the newest path is written.
const INCUMBENT: Argument = Argument {
    id: "incumbent",
    value: Some("F"),
    help: "where the newest path after each plan is written [default: nowhere]",
};

/// The arguments of `plan`.
const PLAN: &[Argument] = &[
    ENV, MPRIM, CHANGES, START, GOAL, RADIUS, PLANNER, WORKERS, FIRST, STEP, BOUND, BUDGET, STATES,
    LABELS, LABELS_AS, TRACE, INCUMBENT,
];

/// The arguments of `check`.
const CHECK: &[Argument] = &[
    ENV,
    MPRIM,
    LABELS_FILE,
    CHANGES,
    START,
    GOAL,
    RADIUS,
    BACK,
    STATES,
];

/// The arguments of `sweep`.
const SWEEP: &[Argument] = &[ENV, MPRIM, RADIUS, STATES];

/// The arguments of `demo`.
const DEMO: &[Argument] = &[SEED, WIDTH, HEIGHT];

/// The arguments of `nav`.
const NAV: &[Argument] = &[
    GRID,
    CHANGES,
    GRID_START,
    GRID_GOAL,
    GRID_PLANNER,
    WORKERS,
    FIRST,
    STEP,
    BOUND,
    BUDGET,
    STATES,
    LABELS,
    LABELS_AS,
    TRACE,
    INCUMBENT,
];

/// The arguments of `navcheck`.
const NAV_CHECK: &[Argument] = &[GRID, LABELS_FILE, CHANGES, GRID_START, GRID_GOAL, STATES];

/// The arguments of a command, in order.
pub(crate) fn arguments_of(command: Command) -> &'static [Argument]
    ensures arguments { map rule_for result.now ≡ arguments command }
{
    match command {
        Command::Plan => PLAN,
        Command::Check => CHECK,
        Command::Sweep => SWEEP,
        Command::Demo => DEMO,
        Command::Nav => NAV,
        Command::NavCheck => NAV_CHECK,
    }
}

/// The word of a command.
pub(crate) fn word_of(command: Command) -> &'static str
    ensures word { result.now ≡ word_of command }
{
    match command {
        Command::Plan => "plan",
        Command::Check => "check",
        Command::Sweep => "sweep",
        Command::Demo => "demo",
        Command::Nav => "nav",
        Command::NavCheck => "navcheck",
    }
}

/// What help says of a command.
pub(crate) fn about(command: Command) -> &'static str {
    match command {
        Command::Plan => "Plans on SBPL's state lattice, and again after each batch of changes.",
        Command::Check => "Checks the labels that a plan wrote.",
        Command::Sweep => "Lists what each primitive costs, and the cells that it sweeps.",
        Command::Demo => "Plans on an example that is drawn from a seed.",
        Command::Nav =>
            "Plans on a grid with eight neighbours, and again after each batch of changes.",
        Command::NavCheck => "Checks the labels that a plan on a grid wrote.",
    }
}
