//! The low of labels, found where a search left states whose g and v differ. A plan asks for it after each pass.

ghost use Rattle.std.specs.Prelude.{◌≡◌, ◌≢◌, ℕ, ◌+◌, ◌<◌, ◌≤◌, ◌⊎◌, true, IsSome};
ghost use Rattle.std.specs.List.{All};
ghost use Rattle.sbpl_search.specs.sbpl_graph.Bound.{IsLow};
ghost use Rattle.sbpl_search.specs.sbpl_labels.Marks.{states_of, g_of, v_of};
ghost use Rattle.sbpl_open.specs.OpenList as open_list;
ghost use Rattle.sbpl_serial.specs.Low.{IsLowOf, IsInQueue, IsInEither};
ghost use Rattle.sbpl_serial.specs.Queue.{is_among};

use crate::Step;
use sbpl_open::Open;
use sbpl_search::{Guide, Labels};

/// The lesser of `low` and, where g and v of `s` differ, of g + h.
pub fn low_with<H: Guide>(labels: &Labels, guide: &H, s: u32, low: u64) -> u64
    requires state { s < states_of labels.now }
    requires known { H.knows guide.now s }
    ensures falls { result ≤ low }
    ensures own { v_of labels.now s ≢ g_of labels.now s → result ≤ g_of labels.now s + H.distance guide.now s }
    ensures greatest { (x : ℕ) → x ≤ low
        → (v_of labels.now s ≢ g_of labels.now s → x ≤ g_of labels.now s + H.distance guide.now s)
        → x ≤ result }
{
    let g = labels.g(s);
    if labels.v(s) == g {
        low
    } else {
        low.min(g + guide.to_goal(s))
    }
}

/// The least of g of the goal and of g + h over the states of the queue whose g and v differ.
pub fn low_of_queue<H: Guide>(queue: &Open, labels: &Labels, guide: &H, goal: u32) -> u64
    requires goal { goal < states_of labels.now }
    requires known { (s : ℕ) → s < states_of labels.now → H.knows guide.now s }
    requires states { open_list.states_of queue.now ≡ states_of labels.now }
    ensures low { IsLowOf labels.now goal (H.distance guide.now) (IsInQueue queue.now) result }
{
    let entries = queue.entries();
    let mut low = labels.g(goal);
    for entry in entries {
        low = low_with(labels, guide, entry.state, low);
    }
    low
}

/// The least of g of the goal and of g + h over those states of the queue and of the steps whose g and v differ. It is the
/// low of the labels where no other state's g and v differ.
pub(crate) fn low_among<H: Guide>(
    queue: &Open,
    steps: &[Step],
    labels: &Labels,
    guide: &H,
    goal: u32,
) -> u64
    requires goal { goal < states_of labels.now }
    requires known { (s : ℕ) → s < states_of labels.now → H.knows guide.now s }
    requires states { open_list.states_of queue.now ≡ states_of labels.now }
    requires inside { All (λ step. step.state < states_of labels.now) steps.now }
    requires all { (s : ℕ) → s < states_of labels.now → v_of labels.now s ≢ g_of labels.now s
        → IsInEither queue.now steps.now s }
    ensures least { IsLow (states_of labels.now) goal (g_of labels.now) (v_of labels.now)
        (H.distance guide.now) result }
{
    let mut low = low_of_queue(queue, labels, guide, goal);
    for step in steps {
        low = low_with(labels, guide, step.state, low);
    }
    low
}
