//! Why a section does not hold on a graph.

ghost use Rattle.std.specs.Prelude.{◌≡◌};
ghost use Rattle.sbpl_cert.specs.Flaws.{name_of, number_of};

use thiserror::Error;

/// Why a section does not hold on a graph. Infinity counts as 2^63.
#[derive(Clone, Copy, Debug, PartialEq, Eq, Error)]
pub enum Flaw {
    /// The start's label g is not 0.
    #[error("g is {g} at the start")]
    Start {
        g: u64,
    },
    /// Over a free arc from a state of finite v the head's g is above v and the arc's cost.
    #[error("g is {has} after arc {arc} of state {state}, which allows {most}")]
    Arc {
        state: u32,
        arc: u32,
        has: u64,
        most: u64,
    },
    /// The guide is not 0 at the goal.
    #[error("the guide is {has} at the goal")]
    GoalGuide {
        has: u64,
    },
    /// The guide falls along a free arc by more than the arc costs.
    #[error("the guide is {has} at state {state}, and arc {arc} allows {most}")]
    Guide {
        state: u32,
        arc: u32,
        has: u64,
        most: u64,
    },
    /// The low is above the goal's g, or above g and the guide of a state whose g and v differ.
    #[error("the low is {has}, and state {state} allows {most}")]
    Low {
        state: u32,
        has: u64,
        most: u64,
    },
    /// A step of the path has no such arc, or one that is not free.
    #[error("step {step} of the path is not free")]
    Path {
        step: u32,
    },
    /// The cost of the path is not the sum of its arcs' costs.
    #[error("the path is said to cost {has}, and costs {sum}")]
    Cost {
        has: u64,
        sum: u64,
    },
    /// The bound is not the least that the cost and the low have, if they have one.
    #[error("the bound is not the least one")]
    Bound {
        has: u128,
        least: Option<u128>,
    },
    /// The path ends at a state other than the goal; or there is said to be no path, and this state of finite g is the
    /// goal or has an infinite v.
    #[error("state {state} speaks against the outcome")]
    Goal {
        state: u32,
    },
}

impl Flaw {
    /// The number that the program prints, 1 to 8, by which flaws are tested in order.
    pub fn number(&self) -> u8
        ensures number { result ≡ number_of self.now }
    {
        match self {
            Flaw::Start { .. } => 1,
            Flaw::Arc { .. } => 2,
            Flaw::GoalGuide { .. } | Flaw::Guide { .. } => 3,
            Flaw::Low { .. } => 4,
            Flaw::Path { .. } => 5,
            Flaw::Cost { .. } => 6,
            Flaw::Bound { .. } => 7,
            Flaw::Goal { .. } => 8,
        }
    }

    /// The name that the program prints.
    pub fn name(&self) -> &'static str
        ensures name { result.now ≡ name_of self.now }
    {
        match self {
            Flaw::Start { .. } => "Start",
            Flaw::Arc { .. } => "Arc",
            Flaw::GoalGuide { .. } | Flaw::Guide { .. } => "Guide",
            Flaw::Low { .. } => "Low",
            Flaw::Path { .. } => "Path",
            Flaw::Cost { .. } => "Cost",
            Flaw::Bound { .. } => "Bound",
            Flaw::Goal { .. } => "Goal",
        }
    }
}
