//! The jobs of the program.

ghost use Rattle.std.specs.Prelude.{◌≡◌};
ghost use Rattle.sbpl_job.specs.declared.job.JobFault.TheVariants.{NoMemory};
ghost use Rattle.sbpl_job.specs.Jobs.{may_move, moves_in};

use crate::name::Name;
use sbpl_cfg::Pose;
use std::alloc::{AllocError, AllocFailed};
use thiserror::Error;

/// A cell of a grid: its column and its row, each below the limit of states.
#[derive(Clone, Copy, Debug, PartialEq, Eq)]
pub struct Square {
    pub x: u32,
    pub y: u32,
}

/// What a grid is made of.
#[derive(Debug, Drop)]
pub struct GridSources {
    /// The environment file.
    pub env: Name,
    /// How many states the environment may have, 1 to 2^28.
    pub states: u32,
    /// The cell to start from, where it is not the file's.
    pub start: Option<Square>,
    /// The cell to go to, where it is not the file's.
    pub goal: Option<Square>,
}

/// What a lattice is made of.
#[derive(Debug, Drop)]
pub struct Sources {
    /// The environment file.
    pub env: Name,
    /// The primitive file.
    pub prims: Name,
    /// How many states the environment may have, 1 to 2^28.
    pub states: u32,
    /// The radius of the robot in nanometres, 0 to 10^12.
    pub radius: u64,
    /// Where to start, where it is not the file's start.
    pub start: Option<Pose>,
    /// Where to go, where it is not the file's end.
    pub goal: Option<Pose>,
}

/// How to search.
#[derive(Clone, Copy, Debug, PartialEq, Eq)]
pub enum Planner {
    /// Anytime Repairing A*, word `ara`: passes of falling inflation, which begin anew after changes.
    Ara,
    /// Anytime D*, word `ad`: passes of falling inflation, which repair what they found after changes.
    AdStar,
    /// Anytime D* from the goal backwards to a start that may move, word `back`: its labels stay of use when the robot has
    /// moved.
    Back,
    /// ePA*SE, word `epase`: passes of falling inflation whose edges are evaluated by workers, which repair what
    /// they found after changes (Mukherjee, Aine and Likhachev 2022).
    Epase,
}

impl Planner {
    /// Whether the robot may move between plans: then lines of the change file can say where it is.
    pub fn may_move(self) -> bool
        ensures value { result ≡ may_move self }
    {
        match self {
            Planner::Back => true,
            Planner::Ara | Planner::AdStar | Planner::Epase => false,
        }
    }
}

/// How a path is to be searched. Inflations and bounds are in thousandths.
#[derive(Clone, Copy, Debug, PartialEq, Eq)]
pub struct SearchJob {
    pub planner: Planner,
    /// How many workers evaluate edges, 1 to 64; 1 for each planner but `epase`.
    pub workers: u32,
    /// The inflation of the first pass, 1000 to 100000.
    pub first: u32,
    /// By how much the inflation falls from pass to pass, 1 to 99000.
    pub step: u32,
    /// The bound that is good enough, 1000 to 100000.
    pub bound: u32,
    /// How many states a plan may expand, 1 to 2^30.
    pub budget: u64,
}

/// In which form labels are written.
#[derive(Clone, Copy, Debug, PartialEq, Eq)]
pub enum LabelForm {
    /// Version 1 of the text: a row for each state.
    Full,
    /// Version 2 of the text: rows for the states that the certificate needs.
    Sparse,
}

/// Where a plan is written besides its report. The names differ from the files that are read, and from each other.
#[derive(Debug, Drop)]
pub struct Outputs {
    /// Where the labels of each plan are written, if they are.
    pub labels: Option<Name>,
    /// In which form they are written; sparse where nothing else is asked.
    pub form: LabelForm,
    /// Where the expansions of each plan are written, if they are.
    pub trace: Option<Name>,
    /// Where the newest path after each plan is written, if it is.
    pub incumbent: Option<Name>,
}

/// The job `plan`: plan a path on the lattice.
#[derive(Debug, Drop)]
pub struct PlanJob {
    /// What the lattice is made of.
    pub sources: Sources,
    /// The file of changes that are made from plan to plan, if there is one.
    pub changes: Option<Name>,
    /// How the path is to be searched.
    pub search: SearchJob,
    /// What is written besides the report.
    pub outputs: Outputs,
}

/// The job `check`: check the labels that a plan wrote.
#[derive(Debug, Drop)]
pub struct CheckJob {
    /// What the lattice is made of.
    pub sources: Sources,
    /// The file of changes that were made from plan to plan, if there is one.
    pub changes: Option<Name>,
    /// The file of labels.
    pub labels: Name,
    /// Whether the labels are those of the planner `back`.
    pub back: bool,
}

/// The job `demo`: plan on an example that is drawn from a seed.
#[derive(Clone, Copy, Debug, PartialEq, Eq)]
pub struct DemoJob {
    /// What the example is drawn from.
    pub seed: u64,
    /// How many cells the map is wide, 8 to 512.
    pub width: u32,
    /// How many cells the map is high, 8 to 512.
    pub height: u32,
}

/// The job `nav`: plan a path on a grid with eight neighbours.
#[derive(Debug, Drop)]
pub struct NavJob {
    /// What the grid is made of.
    pub sources: GridSources,
    /// The file of changes that are made from plan to plan, if there is one.
    pub changes: Option<Name>,
    /// How the path is to be searched; not by `back`, since the robot does not move here.
    pub search: SearchJob,
    /// What is written besides the report.
    pub outputs: Outputs,
}

/// The job `navcheck`: check the labels that a plan on a grid wrote.
#[derive(Debug, Drop)]
pub struct NavCheckJob {
    /// What the grid is made of.
    pub sources: GridSources,
    /// The file of changes that were made from plan to plan, if there is one.
    pub changes: Option<Name>,
    /// The file of labels.
    pub labels: Name,
}

/// A job of the program.
#[derive(Debug, Drop)]
pub enum Job {
    /// Plan a path on the lattice.
    Plan(PlanJob),
    /// Check the labels of a plan on the lattice.
    Check(CheckJob),
    /// List what each primitive costs and sweeps.
    Sweep(Sources),
    /// Plan on an example that is drawn from a seed.
    Demo(DemoJob),
    /// Plan a path on a grid.
    Nav(NavJob),
    /// Check the labels of a plan on a grid.
    NavCheck(NavCheckJob),
}

impl Job {
    /// Whether lines of the job's change file can say where the robot is.
    pub fn may_move(&self) -> bool
        ensures value { result ≡ moves_in self.now }
    {
        match self {
            Job::Plan(plan) => plan.search.planner.may_move(),
            Job::Check(check) => check.back,
            Job::Sweep(_) | Job::Demo(_) | Job::Nav(_) | Job::NavCheck(_) => false,
        }
    }
}

/// Why there is no job.
#[derive(Clone, Copy, Debug, PartialEq, Eq, Error)]
pub enum JobFault {
    /// The words name no job.
    #[error("the words name no job")]
    Words,
    /// Memory ran out.
    #[error("out of memory")]
    NoMemory,
}

impl From<AllocError> for JobFault {
    ghost from_gives = { λ _ e. e ≡ NoMemory };

    fn from(_error: AllocError) -> JobFault {
        JobFault::NoMemory
    }
}

impl<T: Drop> From<AllocFailed<T>> for JobFault {
    ghost from_gives = { λ _ e. e ≡ NoMemory };

    fn from(_error: AllocFailed<T>) -> JobFault {
        JobFault::NoMemory
    }
}
