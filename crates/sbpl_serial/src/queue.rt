//! The queue of open states.

ghost use Rattle.std.specs.Prelude.{◌≡◌, ℕ, ◌+◌, ◌<◌, ◌≤◌, true, None, Some, IsSome, MatchOption, length};
ghost use Rattle.std.specs.List.{All};
ghost use Rattle.sbpl_search.specs.sbpl_labels.Marks.{states_of};
ghost use Rattle.sbpl_open.specs.OpenList.{ChangesKey};
ghost use Rattle.sbpl_open.specs.OpenList as open_list;
ghost use Rattle.sbpl_serial.specs.Marked.{closed_at};
ghost use Rattle.sbpl_serial.specs.Queue.{AddsOpen, AreQueued, AreRefilled, IsUnplaced, is_among};
ghost use Rattle.sbpl_serial.specs.Run.{IsOpen, key_at, none_closed};

use crate::{Closed, Step, Steps};
use sbpl_open::{Key, Open};
use sbpl_search::{Guide, Labels};

/// Appends the open states to the steps, in no order. These steps are a list of states: they were not taken.
pub(crate) fn gather(queue: &Open, steps: &mut Steps)
    requires room { length steps.old.items + open_list.states_of queue.now ≤ steps.old.room }
    requires inside { All (λ step. step.state < open_list.states_of queue.now) steps.old.items }
    ensures inside { All (λ step. step.state < open_list.states_of queue.now) steps.new.items }
    ensures kept { (s : ℕ) → is_among steps.old.items s ≡ true → is_among steps.new.items s ≡ true }
    ensures gathered { (s : ℕ) → IsSome (open_list.key_at queue.now s)
        → is_among steps.new.items s ≡ true }
    ensures added { AddsOpen queue.now steps.old.items steps.new.items }
    ensures few { length steps.new.items ≤ length steps.old.items + open_list.states_of queue.now }
    ensures room { steps.new.room ≡ steps.old.room }
{
    let entries = queue.entries();
    for entry in entries {
        steps.push(Step {
            state: entry.state,
            raised: false,
        });
    }
}

/// Puts those states of the steps whose g and v differ into the empty queue.
pub(crate) fn refill<H: Guide>(
    queue: &mut Open,
    steps: &[Step],
    labels: &Labels,
    guide: &H,
    eps: u32,
)
    requires states { open_list.states_of queue.old ≡ states_of labels.now }
    requires empty { open_list.IsEmpty queue.old }
    requires inside { All (λ step. step.state < states_of labels.now) steps.now }
    requires known { (s : ℕ) → s < states_of labels.now → H.knows guide.now s }
    ensures refilled { AreRefilled eps (H.distance guide.now) steps.now labels.now queue.new }
{
    for step in steps {
        let key = key_of(labels, guide, eps, step.state);
        change(queue, step.state, key);
    }
}

/// Updates the queue for the state whose labels have changed, if one has: it is then in the queue with its present key
/// where it is open, and not in the queue where it is not.
pub fn requeue<H: Guide>(
    queue: &mut Open,
    changed: Option<u32>,
    closed: &Closed,
    labels: &Labels,
    guide: &H,
    eps: u32,
)
    requires closed { length closed.now ≡ states_of labels.now }
    requires known { (s : ℕ) → s < states_of labels.now → H.knows guide.now s }
    requires unplaced { IsUnplaced eps (H.distance guide.now) (closed_at closed.now) labels.now
        queue.old changed }
    ensures queued { AreQueued eps (H.distance guide.now) (closed_at closed.now) labels.now
        queue.new }
{
    let Some(t) = changed else { return };
    let key = open_key(labels, closed, guide, eps, t);
    change(queue, t, key);
}

/// Gives `s` this key, or lets it leave where there is none.
fn change(queue: &mut Open, s: u32, key: Option<Key>)
    requires state { s < open_list.states_of queue.old }
    ensures changed { MatchOption key (ChangesKey queue.old queue.new s None)
        (λ k. ChangesKey queue.old queue.new s (Some (k.0, k.1))) }
{
    match key {
        Some(key) => queue.put(s, key),
        None => queue.leave(s),
    }
}

/// The key of `s`, where it is open.
fn open_key<H: Guide>(labels: &Labels, closed: &Closed, guide: &H, eps: u32, s: u32) -> Option<Key>
    requires state { s < states_of labels.now }
    requires closed { length closed.now ≡ states_of labels.now }
    requires known { H.knows guide.now s }
    ensures key { MatchOption result (IsOpen (closed_at closed.now) labels.now s → ⊥)
        (λ key. IsOpen (closed_at closed.now) labels.now s
        × ((key.0, key.1) ≡ key_at eps (H.distance guide.now) labels.now s)) }
{
    if labels.g(s) < labels.v(s) && closed.has(s) {
        None
    } else {
        key_of(labels, guide, eps, s)
    }
}

/// The key of `s`, where its g and v differ. The guide of an overconsistent state is inflated by `eps`
/// thousandths.
fn key_of<H: Guide>(labels: &Labels, guide: &H, eps: u32, s: u32) -> Option<Key>
    requires state { s < states_of labels.now }
    requires known { H.knows guide.now s }
    ensures key { MatchOption result (IsOpen none_closed labels.now s → ⊥)
        (λ key. IsOpen none_closed labels.now s
        × ((key.0, key.1) ≡ key_at eps (H.distance guide.now) labels.now s)) }
{
    let g = labels.g(s);
    let v = labels.v(s);
    if v < g {
        let first = 1000 * (u128::from(v) + u128::from(guide.to_goal(s)));
        Some(Key(first, v))
    } else if g < v {
        let guided = u128::from(eps) * u128::from(guide.to_goal(s));
        Some(Key(1000 * u128::from(g) + guided, g))
    } else {
        None
    }
}
