//! When a plan ends, and its result.

ghost use Rattle.std.specs.Prelude.{◌≡◌, ℕ, ◌<◌, ◌↔◌, IsTrue, IsFalse, ◌⊎◌, true};
ghost use Rattle.sbpl_search.specs.sbpl_graph.Network.{Network};
ghost use Rattle.sbpl_search.specs.sbpl_labels.CutOff.{IsCutOff};
ghost use Rattle.sbpl_search.specs.sbpl_labels.declared.pass_end.PassEnd.TheVariants as PassEnd;
ghost use Rattle.sbpl_search.specs.sbpl_labels.Marks.{states_of, g_of, v_of};
ghost use Rattle.sbpl_plan.specs.Asked.{lowered};
ghost use Rattle.sbpl_plan.specs.Looking.{IsEnough, WalkFinds};
ghost use Rattle.sbpl_plan.specs.Outcomes.{AgreesWithFound, IsResultOf};

use crate::ask::Ask;
use crate::found::Found;
use crate::result::{Arcs, FoundPath, PlanResult};
use sbpl_search::{Labels, PassEnd};

/// Whether a pass was spent.
pub(crate) fn is_spent(end: PassEnd) -> bool
    ensures spent { IsTrue result ↔ (end ≡ PassEnd.Spent) }
    ensures rest { IsFalse result ↔ (end ≡ PassEnd.Rest) }
{
    match end {
        PassEnd::Spent => true,
        PassEnd::Rest => false,
    }
}

/// Whether a path with a bound that is good enough was found.
fn is_enough(asked: u32, found: Found) -> bool
    ensures enough { IsTrue result ↔ IsEnough asked found }
{
    match found {
        Found::Path { cost: _, bound } => bound <= u128::from(asked),
        Found::None | Found::Broken => false,
    }
}

/// The inflation of the pass after one of inflation `eps`.
pub(crate) fn lowered(step: u32, eps: u32) -> u32
    ensures lowered { result ≡ lowered step eps }
{
    eps.saturating_sub(step).max(1000)
}

/// Whether a plan ends after a pass of inflation `eps` that was spent or not and found this.
pub(crate) fn is_last(
    ask: &Ask,
    eps: u32,
    labels: &Labels,
    goal: u32,
    spent: bool,
    found: Found,
) -> bool
    requires goal { goal < states_of labels.now }
    ensures last { IsTrue result ↔ (IsEnough ask.now.bound found ⊎ (IsCutOff (states_of labels.now) goal (g_of labels.now)
        (v_of labels.now) ⊎ ((spent ≡ true) ⊎ (eps ≡ 1000)))) }
{
    is_enough(ask.bound, found) || spent || eps == 1000 || labels.shows_none(goal)
}

/// The result by the final labels, where the last pass found this, with these arcs.
pub(crate) fn outcome_of(
    labels: &Labels,
    goal: u32,
    found: Found,
    arcs: Vec<u32>,
) -> PlanResult<FoundPath>
    requires goal { goal < states_of labels.now }
    ensures outcome { (n : Network) (h : ℕ → ℕ) → WalkFinds n h goal labels.now arcs.items found
        → IsResultOf n h goal labels.now result }
    ensures agrees { AgreesWithFound found result }
{
    match found {
        Found::Path { cost, bound } => PlanResult::Path(FoundPath {
            arcs: Arcs::of(arcs),
            cost,
            bound,
        }),
        Found::None | Found::Broken => {
            if labels.shows_none(goal) {
                PlanResult::NoPath
            } else {
                PlanResult::Unknown
            }
        }
    }
}
