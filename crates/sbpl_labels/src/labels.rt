//! The labels of all states.

ghost use Rattle.std.specs.Prelude.{◌≡◌, ◌≢◌, ℕ, ◌^◌, ◌<◌, ◌≤◌, ◌↔◌, IfOk, IsTrue, Some, List};
ghost use Rattle.std.specs.Prelude.{[], length, vec_capacity};
ghost use Rattle.std.specs.Prelude.{slice_index_or};
ghost use Rattle.sbpl_graph.specs.Bound.{IsLow};
ghost use Rattle.sbpl_graph.specs.Certificate.{IsLabel, AreSupported};
ghost use Rattle.sbpl_graph.specs.Exact.{AreExact};
ghost use Rattle.sbpl_graph.specs.Fit.{FitCount};
ghost use Rattle.sbpl_graph.specs.Kept.{NoneUnder};
ghost use Rattle.sbpl_graph.specs.Laws.{IsSound};
ghost use Rattle.sbpl_graph.specs.Network.{Network};
ghost use Rattle.sbpl_graph.specs.Path.{IsFreePath};
ghost use Rattle.sbpl_labels.specs.Cut.{kept_v};
ghost use Rattle.sbpl_labels.specs.CutOff.{IsCutOff};
ghost use Rattle.sbpl_labels.specs.Marks.{Marks, AreLabels, AreInitial, ChangesRow, states_of, g_of, v_of, back_of, no_row};
ghost use Rattle.sbpl_labels.specs.Marks.{far_row};
ghost use Rattle.sbpl_labels.specs.Recomputed.{Recomputes};
ghost use Rattle.sbpl_labels.specs.Walks.{WalkGives};
ghost use Rattle.sbpl_graph.specs.declared.TheConstants.{FAR};

use crate::row::Row;
use crate::rows::Rows;
use crate::walk::Walk;
use crate::ways::least_way;
use sbpl_graph::{FAR, Graph, Guide};
use sbpl_pages::NoMemory;
use std::alloc::Global;
use std::marker::Model;

/// The labels g and v of each state of a graph, and a back arc where one was set. A label is 2^63,
/// which stands for infinity, or below 2^62. ARA* (Likhachev, Gordon and Thrun 2003) has these
/// labels; Anytime D* (2005) calls g `rhs` and v `g`.
#[derive(Drop)]
pub struct Labels {
    start: u32,
    rows: Rows,
}

/// The labels of a state to which no way is known.
const FAR_ROW: Row = Row {
    g: FAR,
    v: FAR,
    back: None,
};

impl Model for Labels {
    ghost use Rattle.sbpl_labels.specs.Marks.{Marks, AreLabels};

    ghost Value = { Marks };

    ghost view = { λ a. record { start = a.start; rows = a.rows } };

    ghost invariant = { λ a. AreLabels (record { start = a.start; rows = a.rows }) };
}

impl Labels {
    /// Opened labels of this many states: g is 0 at the start, all other labels are
    /// infinite, and there is no back arc. They are exact on every graph of this size. The one
    /// error is that memory ran out.
    pub fn open(alloc: Global, states: u32, start: u32) -> Result<Labels, NoMemory>
        requires start { start < states }
        ensures opened { IfOk result (λ m. AreInitial m states start) }
        ensures exact { IfOk result (λ m. (n : Network) → n.states ≡ states
            → AreExact n start (g_of m) (v_of m) (back_of m)) }
        ensures not_under { IfOk result (λ m. NoneUnder states (g_of m) (v_of m)) }
        ensures fits { IfOk result (λ m. (count : ℕ) → FitCount states (g_of m) (v_of m) count) }
    {
        let mut rows = Rows::new(alloc, states, FAR_ROW)?;
        rows.set_way(start, 0, None);
        Ok(Labels { start, rows })
    }

    /// Makes these opened labels again.
    pub fn reset(&mut self)
        ensures opened { AreInitial self.new (states_of self.old) self.old.start }
        ensures exact { (n : Network) → n.states ≡ states_of self.old
            → AreExact n self.old.start (g_of self.new) (v_of self.new) (back_of self.new) }
        ensures not_under { NoneUnder (states_of self.old) (g_of self.new) (v_of self.new) }
        ensures fits { (count : ℕ) → FitCount (states_of self.old) (g_of self.new) (v_of self.new) count }
    {
        self.restart(self.start());
    }

    /// Makes these opened labels from this start, a state by its number.
    pub fn restart(&mut self, start: u32)
        requires start { start < states_of self.old }
        ensures opened { AreInitial self.new (states_of self.old) start }
        ensures exact { (n : Network) → n.states ≡ states_of self.old
            → AreExact n start (g_of self.new) (v_of self.new) (back_of self.new) }
        ensures not_under { NoneUnder (states_of self.old) (g_of self.new) (v_of self.new) }
        ensures fits { (count : ℕ) → FitCount (states_of self.old) (g_of self.new) (v_of self.new) count }
    {
        self.rows.fill(FAR_ROW);
        self.rows.set_way(start, 0, None);
        self.start = start;
    }

    /// The start.
    pub fn start(&self) -> u32
        ensures value { result ≡ self.now.start }
        ensures labels { AreLabels self.now }
    {
        self.start
    }

    /// The number of states.
    fn count(&self) -> u32
        ensures value { result ≡ states_of self.now }
        ensures labels { AreLabels self.now }
    {
        self.rows.len()
    }

    /// What the best known way to `s` costs.
    pub fn g(&self, s: u32) -> u64
        requires state { s < states_of self.now }
        ensures value { result ≡ g_of self.now s }
        ensures label { IsLabel result }
    {
        self.rows.g(s)
    }

    /// What that way cost when `s` was last expanded, or infinity where it never was.
    pub fn v(&self, s: u32) -> u64
        requires state { s < states_of self.now }
        ensures value { result ≡ v_of self.now s }
        ensures label { IsLabel result }
    {
        self.rows.v(s)
    }

    /// The last arc of that way, as its source and its number there, where one was set.
    pub fn back(&self, s: u32) -> Option<(u32, u32)>
        requires state { s < states_of self.now }
        ensures value { result ≡ back_of self.now s }
    {
        self.rows.back(s)
    }

    /// Lowers g of `t` to this value, which comes over arc `k` of `s`, where that is lower, and
    /// answers whether it did. Otherwise nothing changes.
    pub fn lower(&mut self, t: u32, s: u32, k: u32, value: u64) -> bool
        requires state { t < states_of self.old }
        requires not_start { t ≢ self.old.start }
        requires small { value < 2 ^ 62 }
        ensures lowered { IsTrue result ↔ (value < g_of self.old t) }
        ensures yes { IsTrue result → ChangesRow self.old self.new t
            (record { g = value; v = v_of self.old t; back = Some (s, k) }) }
        ensures no { g_of self.old t ≤ value → self.new ≡ self.old }
    {
        if value < self.rows.g(t) {
            self.rows.set_way(t, value, Some((s, k)));
            true
        } else {
            false
        }
    }

    /// Settles `s`: its v becomes its g.
    pub fn settle(&mut self, s: u32)
        requires state { s < states_of self.old }
        requires over { g_of self.old s < v_of self.old s }
        ensures settled { ChangesRow self.old self.new s
            (record { g = g_of self.old s; v = g_of self.old s; back = back_of self.old s }) }
    {
        self.rows.set_v(s, self.rows.g(s));
    }

    /// Raises the underconsistent `s`: its v becomes infinite.
    pub fn raise(&mut self, s: u32)
        requires state { s < states_of self.old }
        requires under { v_of self.old s < g_of self.old s }
        ensures raised { ChangesRow self.old self.new s
            (record { g = g_of self.old s; v = FAR; back = back_of self.old s }) }
    {
        self.rows.set_v(s, FAR);
    }

    /// Recomputes `t`: its g becomes the least v + cost over the free arcs into it from states of
    /// finite v, and its back arc the first tail that gives the least. Where there is none, g becomes
    /// infinite and no back arc is left. The start stays as it is.
    pub fn recompute<G: Graph>(&mut self, graph: &G, t: u32)
        requires states { states_of self.old ≡ (G.network graph.now).states }
        requires state { t < states_of self.old }
        requires fits { FitCount (states_of self.old) (g_of self.old) (v_of self.old) (2 ^ 30) }
        ensures recomputed { t ≢ self.old.start → Recomputes (G.network graph.now) self.old self.new t }
        ensures start { t ≡ self.old.start → self.new ≡ self.old }
        ensures fits { (count : ℕ) → FitCount (states_of self.old) (g_of self.old) (v_of self.old) count
            → FitCount (states_of self.old) (g_of self.new) (v_of self.new) count }
    {
        if t == self.start {
            return;
        }
        let _states = graph.states();
        match least_way(self, graph, t) {
            Some((arc, g)) => self.rewrite(t, g, Some(arc)),
            None => self.rewrite(t, FAR, None),
        }
    }

    /// Gives `t` this g and this back arc.
    fn rewrite(&mut self, t: u32, g: u64, back: Option<(u32, u32)>)
        requires state { t < states_of self.old }
        requires not_start { t ≢ self.old.start }
        requires label { IsLabel g }
        ensures rewritten { ChangesRow self.old self.new t (record { g = g; v = v_of self.old t; back = back }) }
    {
        self.rows.set_way(t, g, back);
    }

    /// The least of g at the goal and of g + h over all states whose g and v differ, with h by this
    /// guide, which knows every state. Where the labels are supported on a graph that the guide was
    /// built for, every free path from the start to the goal costs at least this.
    pub fn low<H: Guide>(&self, guide: &H, goal: u32) -> u64
        requires goal { goal < states_of self.now }
        requires known { (s : ℕ) → s < states_of self.now → H.knows guide.now s }
        ensures least { IsLow (states_of self.now) goal (g_of self.now) (v_of self.now)
            (H.distance guide.now) result }
        ensures bound { (n : Network) → n.states ≡ states_of self.now → IsSound n
            → H.guides guide.now n goal
            → AreSupported n self.now.start (g_of self.now) (v_of self.now)
            → (arcs : List ℕ) (cost : ℕ) → IsFreePath n self.now.start arcs goal cost → result ≤ cost }
    {
        let mut low = self.g(goal);
        for s in 0..self.count() {
            let g = self.g(s);
            if self.v(s) != g {
                low = low.min(g + guide.to_goal(s));
            }
        }
        low
    }

    /// v of `s` in the labels that are cut to what this low needs: its g where g + h is below the low, with h by this guide, and
    /// infinite otherwise.
    pub fn kept_v<H: Guide>(&self, guide: &H, s: u32, low: u64) -> u64
        requires state { s < states_of self.now }
        requires known { H.knows guide.now s }
        ensures value { result ≡ kept_v (g_of self.now) (H.distance guide.now) low s }
    {
        let g = self.g(s);
        if g + guide.to_goal(s) < low { g } else { FAR }
    }

    /// Whether the goal's label is infinite and every state of finite g has a finite v. Where it is
    /// so and the labels are supported on a graph, no free path leads from the start to the goal.
    pub fn shows_none(&self, goal: u32) -> bool
        requires goal { goal < states_of self.now }
        ensures cut_off { IsTrue result ↔
            IsCutOff (states_of self.now) goal (g_of self.now) (v_of self.now) }
        ensures no_path { IsTrue result
            → (n : Network) → n.states ≡ states_of self.now → IsSound n
            → AreSupported n self.now.start (g_of self.now) (v_of self.now)
            → (arcs : List ℕ) (cost : ℕ) → IsFreePath n self.now.start arcs goal cost → ⊥ }
    {
        if self.g(goal) < FAR {
            return false;
        }
        for s in 0..self.count() {
            if self.g(s) < FAR && self.v(s) == FAR {
                return false;
            }
        }
        true
    }

    /// Follows the back arcs from the goal. No way to the goal is known exactly where its label is
    /// infinite. Otherwise the answer is the first underconsistent state on the chain of back arcs, exactly
    /// where there is one. Otherwise the chain leads to the start, and `into` holds the arc numbers from there: a free
    /// path whose summed cost is at most the goal's label. After the other answers `into` is empty.
    /// It takes no memory: `into` has room for as many arcs as there are states, and keeps it.
    pub fn walk<G: Graph>(&self, graph: &G, goal: u32, into: &mut Vec<u32>) -> Walk
        requires states { states_of self.now ≡ (G.network graph.now).states }
        requires goal { goal < states_of self.now }
        requires empty { into.old.items ≡ [] }
        requires room { states_of self.now ≤ vec_capacity into.old }
        requires exact { AreExact (G.network graph.now) self.now.start
            (g_of self.now) (v_of self.now) (back_of self.now) }
        ensures walk { WalkGives (G.network graph.now) self.now goal into.new.items result }
        ensures room { vec_capacity into.new ≡ vec_capacity into.old }
    {
        if self.g(goal) == FAR {
            return Walk::None;
        }
        let mut at = goal;
        let mut cost = 0;
        loop {
            if self.v(at) < self.g(at) {
                into.clear();
                return Walk::Broken(at);
            }
            let Some((s, k)) = self.back(at) else { break };
            cost += u64::from(graph.judge(s, k).unwrap());
            into.push_reserved(k);
            at = s;
        }
        into.reverse();
        Walk::Path(cost)
    }
}
