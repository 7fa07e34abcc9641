//! Which open state may be opened next.

ghost use Rattle.std.specs.Prelude.{◌≡◌, ℕ, ◌≤◌, ◌<◌, ◌↔◌, [], IsTrue, length, vec_capacity};
ghost use Rattle.std.specs.List.{All};
ghost use Rattle.sbpl_frontier_rules.specs.sbpl_labels.Marks.{g_of, states_of};
ghost use Rattle.sbpl_frontier_rules.specs.sbpl_serial.Keys.{goal_key};
ghost use Rattle.sbpl_frontier_rules.specs.sbpl_open.OpenList.{OpenList};
ghost use Rattle.sbpl_frontier_rules.specs.sbpl_open.OpenList as open_list;
ghost use Rattle.sbpl_frontier_rules.specs.sbpl_serial.Queue.{IsFirstBelow};
ghost use Rattle.sbpl_frontier_core.specs.Clear.{AreAside, ArePopped, HaveSameKeys, IsClear, IsClearOfAll, IsSearched, PopsTo};

use sbpl_frontier_rules::{Entry, Graph, Key, Labels, Leg, Open};

/// The key that the goal has by its g alone.
pub(crate) fn key_of_goal(labels: &Labels, goal: u32) -> Key
    requires goal { goal < states_of labels.now }
    ensures key { (result.0, result.1) ≡ goal_key (g_of labels.now goal) }
{
    let g = labels.g(goal);
    Key(1000 * u128::from(g), g)
}

/// How many open states are tried for one that may be opened.
pub(crate) const MOST_TRIED: usize = 64;

/// The least open state where its key is below the goal's.
pub(crate) fn least_below(queue: &Open, goal: Key) -> Option<u32>
    ensures least { IsFirstBelow queue.now (goal.0, goal.1) result }
{
    let (s, key) = queue.least()?;
    key.is_below(goal).then_some(s)
}

/// The least open state that is clear of all arcs that are out and of all open states before it, among the first 64 whose keys are
/// below the goal's. Each state that is not is put aside, and all are put back.
pub(crate) fn find_clear<G: Graph>(
    queue: &mut Open,
    aside: &mut Vec<Entry>,
    labels: &Labels,
    graph: &G,
    eps: u32,
    out: &[Leg],
    goal: Key,
) -> Option<u32>
    requires states { states_of labels.now ≡ (G.network graph.now).states }
    requires queue { open_list.states_of queue.old ≡ states_of labels.now }
    requires out { All (λ leg. leg.state < states_of labels.now) out.now }
    requires empty { aside.old.items ≡ [] }
    requires room { 64 ≤ vec_capacity aside.old }
    ensures same { HaveSameKeys queue.old queue.new }
    ensures empty { aside.new.items ≡ [] }
    ensures room { vec_capacity aside.new ≡ vec_capacity aside.old }
    ensures searched { IsSearched (G.network graph.now) eps labels.now out.now (goal.0, goal.1) queue.old result }
{
    let found = pop_to_clear(queue, aside, labels, graph, eps, out, goal);
    put_back(queue, aside);
    found
}

/// Puts states whose keys are below the goal's aside, in order, until one is clear, none is left or 64 are aside.
fn pop_to_clear<G: Graph>(
    queue: &mut Open,
    aside: &mut Vec<Entry>,
    labels: &Labels,
    graph: &G,
    eps: u32,
    out: &[Leg],
    goal: Key,
) -> Option<u32>
    requires states { states_of labels.now ≡ (G.network graph.now).states }
    requires queue { open_list.states_of queue.old ≡ states_of labels.now }
    requires out { All (λ leg. leg.state < states_of labels.now) out.now }
    requires empty { aside.old.items ≡ [] }
    requires room { 64 ≤ vec_capacity aside.old }
    ensures popped { ArePopped (G.network graph.now) eps labels.now out.now (goal.0, goal.1) queue.old aside.new.items queue.new }
    ensures leads { PopsTo (G.network graph.now) eps labels.now out.now (goal.0, goal.1) queue.old aside.new.items queue.new
        result }
    ensures room { vec_capacity aside.new ≡ vec_capacity aside.old }
{
    while aside.len() < MOST_TRIED {
        let Some((s, key)) = queue.least() else {
            return None
        };
        if !key.is_below(goal) {
            return None;
        }
        if is_clear(labels, graph, eps, out, aside, s) {
            return Some(s);
        }
        queue.leave(s);
        aside.push_reserved(Entry {
            first: key.0,
            second: key.1,
            state: s,
        });
    }
    None
}

/// Puts the entries that are aside back into the queue.
fn put_back(queue: &mut Open, aside: &mut Vec<Entry>)
    requires inside { All (λ entry. entry.state < open_list.states_of queue.old) aside.old.items }
    ensures back { (f : OpenList) → AreAside f aside.old.items queue.old → HaveSameKeys f queue.new }
    ensures empty { aside.new.items ≡ [] }
    ensures room { vec_capacity aside.new ≡ vec_capacity aside.old }
{
    while let Some(entry) = aside.pop() {
        queue.put(entry.state, Key(entry.first, entry.second));
    }
}

/// Whether `s` is clear of the source of each arc that is out, and of each of the entries.
fn is_clear<G: Graph>(
    labels: &Labels,
    graph: &G,
    eps: u32,
    out: &[Leg],
    others: &[Entry],
    s: u32,
) -> bool
    requires states { states_of labels.now ≡ (G.network graph.now).states }
    requires state { s < states_of labels.now }
    requires out { All (λ leg. leg.state < states_of labels.now) out.now }
    requires others { All (λ entry. entry.state < states_of labels.now) others.now }
    ensures clear { IsTrue result ↔ IsClearOfAll (G.network graph.now) eps labels.now out.now others.now s }
{
    is_clear_of_legs(labels, graph, eps, out, s)
        && is_clear_of_entries(labels, graph, eps, others, s)
}

/// Whether `s` is clear of the source of each arc that is out. Arcs of one state are mostly handed out one after another, and then
/// it is tested once.
fn is_clear_of_legs<G: Graph>(labels: &Labels, graph: &G, eps: u32, out: &[Leg], s: u32) -> bool
    requires states { states_of labels.now ≡ (G.network graph.now).states }
    requires state { s < states_of labels.now }
    requires out { All (λ leg. leg.state < states_of labels.now) out.now }
    ensures clear { IsTrue result ↔ All (λ leg. IsClear (G.network graph.now) eps labels.now s leg.state) out.now }
{
    let mut last = s;
    for leg in out {
        if leg.state != last {
            if !is_clear_of(labels, graph, eps, s, leg.state) {
                return false;
            }
            last = leg.state;
        }
    }
    true
}

/// Whether `s` is clear of the state of each entry.
fn is_clear_of_entries<G: Graph>(
    labels: &Labels,
    graph: &G,
    eps: u32,
    others: &[Entry],
    s: u32,
) -> bool
    requires states { states_of labels.now ≡ (G.network graph.now).states }
    requires state { s < states_of labels.now }
    requires others { All (λ entry. entry.state < states_of labels.now) others.now }
    ensures clear { IsTrue result ↔ All (λ entry. IsClear (G.network graph.now) eps labels.now s entry.state) others.now }
{
    for entry in others {
        if !is_clear_of(labels, graph, eps, s, entry.state) {
            return false;
        }
    }
    true
}

/// Whether `s` is clear of `p`: g of `s` is not above that of `p`, or above it by no more than the inflation times the gap.
fn is_clear_of<G: Graph>(labels: &Labels, graph: &G, eps: u32, s: u32, p: u32) -> bool
    requires states { states_of labels.now ≡ (G.network graph.now).states }
    requires state { s < states_of labels.now }
    requires other { p < states_of labels.now }
    ensures clear { IsTrue result ↔ IsClear (G.network graph.now) eps labels.now s p }
{
    let g = labels.g(s);
    let other = labels.g(p);
    if g <= other {
        return true;
    }
    1000 * u128::from(g - other) <= u128::from(eps) * u128::from(graph.gap(p, s))
}
