//! The low of labels, found among the states that may be open.

ghost use Rattle.std.specs.Prelude.{◌≡◌, ◌≢◌, ℕ, ◌<◌, ◌⊎◌};
ghost use Rattle.std.specs.List.{All, Contains};
ghost use Rattle.sbpl_frontier_rules.specs.sbpl_graph.Bound.{IsLow};
ghost use Rattle.sbpl_frontier_rules.specs.sbpl_labels.Marks.{g_of, states_of, v_of};
ghost use Rattle.sbpl_frontier_rules.specs.sbpl_open.OpenList as open_list;
ghost use Rattle.sbpl_frontier_rules.specs.sbpl_serial.Low.{IsInQueue};

use sbpl_frontier_rules::{Guide, Labels, Open, low_of_queue, low_with};

/// The least of g of the goal and of g + h over those states of the queue and of the list whose g and v differ. It is the low of
/// the labels where no other state's g and v differ.
pub(crate) fn low_among<H: Guide>(
    queue: &Open,
    states: &[u32],
    labels: &Labels,
    guide: &H,
    goal: u32,
) -> u64
    requires goal { goal < states_of labels.now }
    requires known { (s : ℕ) → s < states_of labels.now → H.knows guide.now s }
    requires queue { open_list.states_of queue.now ≡ states_of labels.now }
    requires inside { All (λ s. s < states_of labels.now) states.now }
    requires all { (s : ℕ) → s < states_of labels.now → v_of labels.now s ≢ g_of labels.now s
        → IsInQueue queue.now s ⊎ Contains states.now s }
    ensures least { IsLow (states_of labels.now) goal (g_of labels.now) (v_of labels.now)
        (H.distance guide.now) result }
{
    let mut low = low_of_queue(queue, labels, guide, goal);
    for s in states {
        low = low_with(labels, guide, *s, low);
    }
    low
}
