//! States that may be open are noted in the queue.

ghost use Rattle.std.specs.Prelude.{◌≡◌, ◌≢◌, ℕ, ◌<◌, true, IsSome};
ghost use Rattle.std.specs.List.{All, Contains};
ghost use Rattle.sbpl_search.specs.sbpl_labels.Marks.{states_of, g_of, v_of};
ghost use Rattle.sbpl_open.specs.OpenList as open_list;
ghost use Rattle.sbpl_serial.specs.Queue.{is_among};

use crate::Step;
use sbpl_open::{Key, Open};
use sbpl_search::Labels;

/// Notes those of these states whose g and v differ.
pub(crate) fn note_touched(queue: &mut Open, labels: &Labels, touched: &[u32])
    requires states { open_list.states_of queue.old ≡ states_of labels.now }
    requires inside { All (λ t. t < states_of labels.now) touched.now }
    ensures states { open_list.states_of queue.new ≡ open_list.states_of queue.old }
    ensures kept { (s : ℕ) → IsSome (open_list.key_at queue.old s)
        → IsSome (open_list.key_at queue.new s) }
    ensures noted { (s : ℕ) → Contains touched.now s → g_of labels.now s ≢ v_of labels.now s
        → IsSome (open_list.key_at queue.new s) }
{
    for t in touched {
        note(queue, labels, *t);
    }
}

/// Notes those states of the steps whose g and v differ.
pub(crate) fn note_taken(queue: &mut Open, labels: &Labels, steps: &[Step])
    requires states { open_list.states_of queue.old ≡ states_of labels.now }
    requires inside { All (λ step. step.state < states_of labels.now) steps.now }
    ensures states { open_list.states_of queue.new ≡ open_list.states_of queue.old }
    ensures kept { (s : ℕ) → IsSome (open_list.key_at queue.old s)
        → IsSome (open_list.key_at queue.new s) }
    ensures noted { (s : ℕ) → is_among steps.now s ≡ true → g_of labels.now s ≢ v_of labels.now s
        → IsSome (open_list.key_at queue.new s) }
{
    for step in steps {
        note(queue, labels, step.state);
    }
}

/// Notes `s` where its g and v differ. Its key is given when the queue is filled again.
fn note(queue: &mut Open, labels: &Labels, s: u32)
    requires states { open_list.states_of queue.old ≡ states_of labels.now }
    requires state { s < states_of labels.now }
    ensures states { open_list.states_of queue.new ≡ open_list.states_of queue.old }
    ensures kept { (u : ℕ) → IsSome (open_list.key_at queue.old u)
        → IsSome (open_list.key_at queue.new u) }
    ensures noted { g_of labels.now s ≢ v_of labels.now s → IsSome (open_list.key_at queue.new s) }
{
    if labels.g(s) != labels.v(s) {
        queue.put(s, Key(0, 0));
    }
}
