//! That the definitions leave nothing of a plan open.

ghost use Rattle.sbpl_plan.specs.Determined.{OutcomesAreOne, PassesAreOne};

use sbpl_search::{Determined, Graph, Guide};

/// A plan by a search whose passes are determined is determined by what it is asked for, the labels that it begins with, its
/// budget and what the run has left: its passes, with what each did in order, its final labels and whether it was spent.
/// So is its result by the final labels.
pub fn plan_is_determined<G: Graph, H: Guide, S: Determined<G, H>>()
    ensures passes { PassesAreOne S.meaning }
    ensures outcome { OutcomesAreOne }
{
    <S as Determined<G, H>>::is_determined();
}
