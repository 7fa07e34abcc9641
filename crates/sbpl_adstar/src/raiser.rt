//! Underconsistent states are raised before a search that takes none.

ghost use Rattle.std.specs.Prelude.{◌≡◌, ◌≢◌, ℕ, ◌^◌, ◌<◌, ◌≤◌, ◌↔◌, [], IfOk, IsTrue};
ghost use Rattle.std.specs.Prelude.{Option, Some, vec_capacity};
ghost use Rattle.std.specs.List.{All, Contains};
ghost use Rattle.std.specs.List.Sorted.{IsStrictlyIncreasing};
ghost use Rattle.sbpl_ara.specs.sbpl_graph.Fit.{FitCount};
ghost use Rattle.sbpl_ara.specs.sbpl_labels.Marks.{Marks, states_of, g_of, v_of, back_of};
ghost use Rattle.sbpl_ara.specs.sbpl_search.Ready.{AreUsable};
ghost use Rattle.sbpl_ara.specs.sbpl_serial.Raised.{IsReturned};
ghost use Rattle.sbpl_ara.specs.sbpl_serial.Run.{IsUnder, RaisesState};
ghost use Rattle.sbpl_adstar.specs.Listed.{AddsBecome, AddsUnder, AreListed};
ghost use Rattle.sbpl_adstar.specs.Raised.{RaisesAll};

use sbpl_ara::{Graph, Labels, NoMemory, raising_goes_arc_by_arc};
use std::alloc::Global;
use std::marker::Model;

/// Raises states, and keeps the list of those that it raised last. All memory is taken when it is made.
#[derive(Drop)]
pub struct Raiser {
    raised: Vec<u32>,
}

impl Model for Raiser {
    ghost use Rattle.std.specs.Prelude.{vec_capacity};
    ghost use Rattle.sbpl_adstar.specs.Raised.{Raising};

    ghost Value = { Raising };

    ghost view = { λ a. record { raised = a.raised.items; room = vec_capacity a.raised } };
}

impl Raiser {
    /// A raiser for labels of this many states, which has raised none. The one error is that memory ran out.
    pub fn new(alloc: Global, states: u32) -> Result<Raiser, NoMemory>
        ensures none { IfOk result (λ r. r.raised ≡ []) }
        ensures room { IfOk result (λ r. states ≤ r.room) }
    {
        let raised = Vec::with_capacity(alloc, states as usize)?;
        Ok(Raiser { raised })
    }

    /// Raises states in turn until none is underconsistent: v of an underconsistent state becomes infinite, and each state but the
    /// start whose back arc begins at it is recomputed (Anytime D*, Likhachev, Ferguson, Gordon, Stentz and Thrun 2005, but before
    /// the search and not within it). First come the states that are underconsistent before the call, upwards, and then each state
    /// that becomes so, as this is seen, with heads by arc numbers upwards. It looks at all states: `raise_touched` looks at few. It
    /// takes no memory.
    pub fn raise_all<G: Graph>(&mut self, graph: &G, labels: &mut Labels)
        requires room { states_of labels.old ≤ self.old.room }
        requires usable { AreUsable (G.network graph.now) labels.old (2 ^ 30) }
        ensures raised { RaisesAll (G.network graph.now) labels.old self.new.raised labels.new }
        ensures room { self.new.room ≡ self.old.room }
    {
        self.raised.clear();
        list_all_under(&mut self.raised, labels, graph.states());
        self.raise_listed(graph, labels);
    }

    /// Does what `raise_all` does, where only touched states, which come upwards and once each, are underconsistent before the
    /// call: only these are looked at, and the heads of the raised ones. It takes no memory.
    pub fn raise_touched<G: Graph>(&mut self, graph: &G, labels: &mut Labels, touched: &[u32])
        requires room { states_of labels.old ≤ self.old.room }
        requires usable { AreUsable (G.network graph.now) labels.old (2 ^ 30) }
        requires inside { All (λ t. t < states_of labels.old) touched.now }
        requires upwards { IsStrictlyIncreasing touched.now }
        requires under { (s : ℕ) → s < states_of labels.old → IsUnder labels.old s → Contains touched.now s }
        ensures raised { RaisesAll (G.network graph.now) labels.old self.new.raised labels.new }
        ensures room { self.new.room ≡ self.old.room }
    {
        self.raised.clear();
        list_under(&mut self.raised, labels, touched);
        self.raise_listed(graph, labels);
    }

    /// Raises the listed states, which are the underconsistent ones, upwards, and then each state that becomes so.
    fn raise_listed<G: Graph>(&mut self, graph: &G, labels: &mut Labels)
        requires room { states_of labels.old ≤ self.old.room }
        requires usable { AreUsable (G.network graph.now) labels.old (2 ^ 30) }
        requires listed { AreListed labels.old self.old.raised }
        requires under { All (IsUnder labels.old) self.old.raised }
        requires upwards { IsStrictlyIncreasing self.old.raised }
        ensures raised { RaisesAll (G.network graph.now) labels.old self.new.raised labels.new }
        ensures room { self.new.room ≡ self.old.room }
    {
        let _states = graph.states();
        let mut next = 0;
        'raises: while next < self.raised.len() {
            let s = self.raised[next];
            raise(&mut self.raised, graph, labels, s);
            next += 1;
        }
        let _start = labels.start();
    }

    /// Forgets the list of the last call.
    pub fn clear(&mut self)
        ensures none { self.new.raised ≡ [] }
        ensures room { self.new.room ≡ self.old.room }
    {
        self.raised.clear();
    }

    /// The states that the last call raised, in order, or none before the first.
    pub fn raised(&self) -> &[u32]
        ensures value { result.now ≡ self.now.raised }
    {
        self.raised.as_slice()
    }
}

/// Whether `s` is underconsistent.
fn is_under(labels: &Labels, s: u32) -> bool
    requires state { s < states_of labels.now }
    ensures under { IsTrue result ↔ IsUnder labels.now s }
{
    labels.v(s) < labels.g(s)
}

/// Lists the underconsistent states, upwards.
fn list_all_under(list: &mut Vec<u32>, labels: &Labels, count: u32)
    requires empty { list.old.items ≡ [] }
    requires count { count ≡ states_of labels.now }
    requires room { states_of labels.now ≤ vec_capacity list.old }
    ensures listed { AreListed labels.now list.new.items }
    ensures under { All (IsUnder labels.now) list.new.items }
    ensures upwards { IsStrictlyIncreasing list.new.items }
    ensures room { vec_capacity list.new ≡ vec_capacity list.old }
{
    for s in 0..count {
        if is_under(labels, s) {
            list.push_reserved(s);
        }
    }
}

/// Lists the underconsistent ones of these states, among which all are, upwards.
fn list_under(list: &mut Vec<u32>, labels: &Labels, states: &[u32])
    requires empty { list.old.items ≡ [] }
    requires room { states_of labels.now ≤ vec_capacity list.old }
    requires inside { All (λ t. t < states_of labels.now) states.now }
    requires upwards { IsStrictlyIncreasing states.now }
    requires under { (s : ℕ) → s < states_of labels.now → IsUnder labels.now s → Contains states.now s }
    ensures listed { AreListed labels.now list.new.items }
    ensures under { All (IsUnder labels.now) list.new.items }
    ensures upwards { IsStrictlyIncreasing list.new.items }
    ensures room { vec_capacity list.new ≡ vec_capacity list.old }
{
    for s in states {
        if is_under(labels, *s) {
            list.push_reserved(*s);
        }
    }
}

/// Raises the underconsistent state `s`, and lists the states that become underconsistent by it, by the numbers of the arcs of `s`
/// that were their back arcs upwards.
fn raise<G: Graph>(list: &mut Vec<u32>, graph: &G, labels: &mut Labels, s: u32)
    requires room { states_of labels.old ≤ vec_capacity list.old }
    requires usable { AreUsable (G.network graph.now) labels.old (2 ^ 30) }
    requires state { s < states_of labels.old }
    requires under { IsUnder labels.old s }
    requires listed { AreListed labels.old list.old.items }
    ensures raised { RaisesState (G.network graph.now) labels.old labels.new s }
    ensures usable { (count : ℕ) → AreUsable (G.network graph.now) labels.old count
        → AreUsable (G.network graph.now) labels.new count }
    ensures listed { AreListed labels.new list.new.items }
    ensures grown { (t : ℕ) → g_of labels.old t ≤ g_of labels.new t }
    ensures others { (t : ℕ) → t ≢ s → IsUnder labels.old t → IsUnder labels.new t }
    ensures added { AddsBecome labels.old labels.new s list.old.items list.new.items }
    ensures room { vec_capacity list.new ≡ vec_capacity list.old }
{
    raising_goes_arc_by_arc();
    let _states = graph.states();
    let _before = labels.start();
    labels.raise(s);
    for k in 0..graph.fan(s) {
        recompute_listed(list, graph, labels, s, k);
    }
    let _after = labels.start();
}

/// Recomputes the head of arc `k` of `s` where this arc is its back arc, and lists it where it becomes underconsistent.
fn recompute_listed<G: Graph>(list: &mut Vec<u32>, graph: &G, labels: &mut Labels, s: u32, k: u32)
    requires room { states_of labels.old ≤ vec_capacity list.old }
    requires states { states_of labels.old ≡ (G.network graph.now).states }
    requires state { s < states_of labels.old }
    requires number { k < (G.network graph.now).fan s }
    requires fits { FitCount (states_of labels.old) (g_of labels.old) (v_of labels.old) (2 ^ 30) }
    requires listed { AreListed labels.old list.old.items }
    requires grows { (new : Marks) (head : Option ℕ) → IsReturned (G.network graph.now) labels.old new s k head
        → (t : ℕ) → g_of labels.old t ≤ g_of new t }
    ensures returned { (head : Option ℕ) × IsReturned (G.network graph.now) labels.old labels.new s k head }
    ensures fits { (count : ℕ) → FitCount (states_of labels.old) (g_of labels.old) (v_of labels.old) count
        → FitCount (states_of labels.old) (g_of labels.new) (v_of labels.new) count }
    ensures listed { AreListed labels.new list.new.items }
    ensures grown { (t : ℕ) → g_of labels.old t ≤ g_of labels.new t }
    ensures stay { (t : ℕ) → IsUnder labels.old t → IsUnder labels.new t }
    ensures added { AddsUnder labels.new list.old.items list.new.items }
    ensures room { vec_capacity list.new ≡ vec_capacity list.old }
{
    let _states = graph.states();
    let _before = labels.start();
    let Some(t) = graph.head(s, k) else { return };
    // Most heads do not hang on the arc, so that costs one read.
    if !hangs_on(labels, t, s, k) {
        return;
    }
    let was_under = is_under(labels, t);
    labels.recompute(graph, t);
    let _after = labels.start();
    if !was_under && is_under(labels, t) {
        list.push_reserved(t);
    }
}

/// Whether arc `k` of `s` is the back arc of `t`.
fn hangs_on(labels: &Labels, t: u32, s: u32, k: u32) -> bool
    requires state { t < states_of labels.now }
    ensures back { IsTrue result ↔ (back_of labels.now t ≡ Some (s, k)) }
{
    labels.back(t) == Some((s, k))
}
