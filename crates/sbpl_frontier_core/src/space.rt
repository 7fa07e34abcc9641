//! The memory of a pass.

ghost use Rattle.std.specs.Prelude.{◌≡◌, ℕ, ◌<◌, ◌≤◌, false, [], IfOk, IsSome, MatchOption, OnErr, OnOk};
ghost use Rattle.std.specs.List.{All, Contains};
ghost use Rattle.sbpl_frontier_rules.specs.sbpl_graph.Bound.{IsLow};
ghost use Rattle.sbpl_frontier_rules.specs.sbpl_graph.Kept.{NoneUnder};
ghost use Rattle.sbpl_frontier_rules.specs.sbpl_labels.Marks.{AreInitial, Marks, g_of, states_of, v_of};
ghost use Rattle.sbpl_frontier_rules.specs.sbpl_open.OpenList as open_list;
ghost use Rattle.sbpl_frontier_rules.specs.sbpl_serial.Marked.{closed_at};
ghost use Rattle.sbpl_frontier_rules.specs.sbpl_serial.Queue.{AreQueued};
ghost use Rattle.sbpl_frontier_rules.specs.sbpl_serial.Run.{IsOver, key_at, none_closed};
ghost use Rattle.sbpl_frontier_core.specs.Waiting.{AreFilled, HoldsOver, Waits};

use crate::clear::MOST_TRIED;
use crate::low::low_among;
use sbpl_frontier_rules::{Closed, Entry, Guide, Key, Labels, NoMemory, Open};
use std::alloc::Global;
use std::marker::Model;

/// What a pass needs besides labels and a budget: marks of the states that it opens, a queue, room to put entries of the queue
/// aside, and a list of the states that it expands. Between two passes the queue and the list hold the states that may be open, so
/// that the next pass need not look at all states.
#[derive(Drop)]
pub struct Space {
    pub(crate) opened: Closed,
    pub(crate) queue: Open,
    pub(crate) aside: Vec<Entry>,
    pub(crate) expanded: Vec<u32>,
}

impl Model for Space {
    ghost use Rattle.std.specs.Prelude.{◌≡◌, ◌<◌, ◌≤◌, [], length, vec_capacity};
    ghost use Rattle.std.specs.List.{All};
    ghost use Rattle.sbpl_frontier_rules.specs.sbpl_open.OpenList as open_list;
    ghost use Rattle.sbpl_frontier_core.specs.Waiting.{Waiting};

    ghost Value = { Waiting };

    ghost view = { λ a. record { marks = a.opened; queue = a.queue; expanded = a.expanded.items } };

    ghost invariant = { λ a. (length a.opened ≡ open_list.states_of a.queue)
        × All (λ s. s < open_list.states_of a.queue) a.expanded.items
        × (a.aside.items ≡ []) × (64 ≤ vec_capacity a.aside) };
}

impl Space {
    /// The memory for a pass over this many states. The one error is that memory ran out.
    pub fn new(alloc: Global, states: u32) -> Result<Space, NoMemory>
        ensures states { IfOk result (λ space. open_list.states_of space.queue ≡ states) }
        ensures empty { IfOk result (λ space. open_list.IsEmpty space.queue) }
        ensures none_expanded { IfOk result (λ space. space.expanded ≡ []) }
    {
        let opened = Closed::open(alloc, states)?;
        let queue = Open::new(alloc, states)?;
        let aside = Vec::with_capacity(alloc, MOST_TRIED)?;
        Ok(Space {
            opened,
            queue,
            aside,
            expanded: Vec::new(alloc),
        })
    }

    /// The memory for a pass from initial labels of this many states and with this start.
    pub fn initial(alloc: Global, states: u32, start: u32) -> Result<Space, NoMemory>
        requires start { start < states }
        ensures over { IfOk result (λ space. (m : Marks) → AreInitial m states start → HoldsOver space m) }
    {
        let mut space = Space::new(alloc, states)?;
        space.note(start);
        Ok(space)
    }

    /// Makes this the memory for a pass from initial labels with this start.
    pub fn restart(&mut self, start: u32)
        requires start { start < open_list.states_of self.old.queue }
        ensures states { open_list.states_of self.new.queue ≡ open_list.states_of self.old.queue }
        ensures over { (m : Marks) → AreInitial m (open_list.states_of self.old.queue) start → HoldsOver self.new m }
    {
        self.queue.clear();
        self.expanded.clear();
        self.note(start);
    }

    /// The memory for a pass from these labels. It looks at each state.
    pub fn find(alloc: Global, labels: &Labels, states: u32) -> Result<Space, NoMemory>
        requires states { states ≡ states_of labels.now }
        ensures over { IfOk result (λ space. HoldsOver space labels.now) }
    {
        let mut space = Space::new(alloc, states)?;
        for s in 0..states {
            if labels.g(s) < labels.v(s) {
                space.note(s);
            }
        }
        Ok(space)
    }

    /// Notes that `s` may be open.
    pub fn note(&mut self, s: u32)
        requires state { s < open_list.states_of self.old.queue }
        ensures states { open_list.states_of self.new.queue ≡ open_list.states_of self.old.queue }
        ensures noted { Waits self.new s }
        ensures kept { (u : ℕ) → Waits self.old u → Waits self.new u }
    {
        self.queue.put(s, Key(0, 0));
    }

    /// Notes that the overconsistent ones of these states may be open.
    pub fn note_over(&mut self, labels: &Labels, states: &[u32])
        requires same_states { open_list.states_of self.old.queue ≡ states_of labels.now }
        requires inside { All (λ s. s < states_of labels.now) states.now }
        ensures states { open_list.states_of self.new.queue ≡ open_list.states_of self.old.queue }
        ensures noted { (s : ℕ) → Contains states.now s → IsOver labels.now s → Waits self.new s }
        ensures kept { (u : ℕ) → Waits self.old u → Waits self.new u }
    {
        for s in states {
            if labels.g(*s) < labels.v(*s) {
                self.note(*s);
            }
        }
    }

    /// The low of labels none of which is underconsistent: the least of g of the goal and of g + h over all states whose g and v
    /// differ, with h by this guide. It looks only at the states that may be open.
    pub fn low<H: Guide>(&self, labels: &Labels, guide: &H, goal: u32) -> u64
        requires over { HoldsOver self.now labels.now }
        requires none_under { NoneUnder (states_of labels.now) (g_of labels.now) (v_of labels.now) }
        requires goal { goal < states_of labels.now }
        requires known { (s : ℕ) → s < states_of labels.now → H.knows guide.now s }
        ensures least { IsLow (states_of labels.now) goal (g_of labels.now) (v_of labels.now)
            (H.distance guide.now) result }
    {
        low_among(&self.queue, &self.expanded, labels, guide, goal)
    }

    /// Begins a pass: no state is opened, and the queue holds the overconsistent states, each with its key. No state is
    /// underconsistent. Where memory runs out nothing changes.
    pub(crate) fn begin<H: Guide>(
        &mut self,
        labels: &Labels,
        guide: &H,
        eps: u32,
    ) -> Result<(), NoMemory>
        requires over { HoldsOver self.old labels.now }
        requires none_under { NoneUnder (states_of labels.now) (g_of labels.now) (v_of labels.now) }
        requires known { (s : ℕ) → s < states_of labels.now → H.knows guide.now s }
        ensures queued { OnOk result (AreQueued eps (H.distance guide.now) none_closed labels.now self.new.queue) }
        ensures none_opened { OnOk result ((s : ℕ) → closed_at self.new.marks s ≡ false) }
        ensures none_expanded { OnOk result (self.new.expanded ≡ []) }
        ensures same { OnErr result (self.new ≡ self.old) }
    {
        gather(&self.queue, &mut self.expanded)?;
        self.queue.clear();
        refill(&mut self.queue, &self.expanded, labels, guide, eps);
        self.expanded.clear();
        self.opened.clear();
        Ok(())
    }
}

/// Appends the states of the queue.
fn gather(queue: &Open, states: &mut Vec<u32>) -> Result<(), NoMemory>
    requires inside { All (λ s. s < open_list.states_of queue.now) states.old.items }
    ensures inside { OnOk result (All (λ s. s < open_list.states_of queue.now) states.new.items) }
    ensures gathered { OnOk result ((s : ℕ) → IsSome (open_list.key_at queue.now s) → Contains states.new.items s) }
    ensures kept { OnOk result ((s : ℕ) → Contains states.old.items s → Contains states.new.items s) }
    ensures same { OnErr result (states.new.items ≡ states.old.items) }
{
    let entries = queue.entries();
    states.reserve(entries.len())?;
    for entry in entries {
        states.push_reserved(entry.state);
    }
    Ok(())
}

/// Puts the overconsistent ones of these states into the empty queue. No state is underconsistent.
fn refill<H: Guide>(queue: &mut Open, states: &[u32], labels: &Labels, guide: &H, eps: u32)
    requires queue { open_list.states_of queue.old ≡ states_of labels.now }
    requires empty { open_list.IsEmpty queue.old }
    requires inside { All (λ s. s < states_of labels.now) states.now }
    requires known { (s : ℕ) → s < states_of labels.now → H.knows guide.now s }
    ensures filled { AreFilled eps (H.distance guide.now) labels.now states.now queue.new }
{
    for s in states {
        if let Some(key) = over_key(labels, guide, eps, *s) {
            queue.put(*s, key);
        }
    }
}

/// The key of `s`, where it is overconsistent.
fn over_key<H: Guide>(labels: &Labels, guide: &H, eps: u32, s: u32) -> Option<Key>
    requires state { s < states_of labels.now }
    requires known { H.knows guide.now s }
    ensures key { MatchOption result (v_of labels.now s ≤ g_of labels.now s)
        (λ key. IsOver labels.now s × ((key.0, key.1) ≡ key_at eps (H.distance guide.now) labels.now s)) }
{
    let g = labels.g(s);
    if labels.v(s) <= g {
        return None;
    }
    let guided = u128::from(eps) * u128::from(guide.to_goal(s));
    Some(Key(1000 * u128::from(g) + guided, g))
}
