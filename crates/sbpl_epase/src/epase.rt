//! The search of ePA*SE.

ghost use Rattle.std.specs.Prelude.{◌≡◌, ℕ, ◌<◌, true, [], IfOk};
ghost use Rattle.std.specs.List.Sorted.{IsStrictlyIncreasing};
ghost use Rattle.sbpl_adstar.specs.sbpl_graph.Network.{Network};
ghost use Rattle.sbpl_adstar.specs.sbpl_graph.Bound.{IsLow};
ghost use Rattle.sbpl_adstar.specs.sbpl_labels.Marks.{AreInitial, AreLabels, g_of, states_of, v_of};
ghost use Rattle.sbpl_frontier.specs.sbpl_frontier_rules.Journal.{openings};
ghost use Rattle.sbpl_adstar.specs.sbpl_search.Changed.{IsChangeable};
ghost use Rattle.sbpl_adstar.specs.sbpl_search.Ready.{AreReady, IsStartFresh};
ghost use Rattle.sbpl_epase.specs.Parts.{IsCrew};
ghost use Rattle.sbpl_epase.specs.Planner.{BeginsRaised};

use crate::repair::repair;
use sbpl_adstar::{Graph, Guide, Labels, NoMemory, Raiser};
use sbpl_frontier::{Event, Journal, Space};
use std::alloc::Global;
use std::marker::Model;

/// A search by ePA*SE (Mukherjee, Aine and Likhachev 2022): each of its passes is a frontier, whose arcs are handed out, judged and
/// applied. It is given what makes a pass, which may be workers. Between passes no state is underconsistent: after a
/// change of the graph the labels are repaired, and states are raised.
#[derive(Drop)]
pub struct Epase<F> {
    /// What makes a pass, and by how many workers, 1 to 64.
    pub(crate) make: F,
    pub(crate) workers: u32,
    /// The labels, and the memory of a pass: `None` only within a pass.
    pub(crate) labels: Option<Labels>,
    pub(crate) space: Option<Space>,
    pub(crate) goal: u32,
    /// What the last pass did.
    pub(crate) journal: Journal,
    /// How many states it expanded.
    pub(crate) expanded: u64,
    /// The states that were raised after the last change of the graph.
    pub(crate) raiser: Raiser,
}

impl<F> Model for Epase<F> {
    ghost use Rattle.sbpl_epase.specs.Parts.{AreEpaseParts, Seeker, search_of};

    ghost Value = { Seeker F };

    ghost view = { λ a. record { make = a.make; search = search_of a.workers a.labels a.goal a.journal a.raiser.raised } };

    ghost invariant = { λ a. AreEpaseParts a.workers a.labels a.space a.goal a.journal a.expanded a.raiser };
}

impl<F> Epase<F> {
    /// A search from `start` to `goal` on a graph of this many states, before its first pass: its labels are initial. Its passes
    /// are made by `make`, by 1 to 64 workers.
    pub fn open(
        alloc: Global,
        make: F,
        workers: u32,
        states: u32,
        start: u32,
        goal: u32,
    ) -> Result<Epase<F>, NoMemory>
    where
        F: Drop,
        requires crew { IsCrew workers }
        requires start { start < states }
        requires goal { goal < states }
        ensures opened { IfOk result (λ a. AreInitial a.search.labels states start) }
        ensures ready { IfOk result
            (λ a. (n : Network) (count : ℕ) → n.states ≡ states → AreReady n a.search.labels count) }
        ensures fresh { IfOk result (λ a. IsStartFresh a.search.labels) }
        ensures goal { IfOk result (λ a. a.search.goal ≡ goal) }
        ensures workers { IfOk result (λ a. a.search.workers ≡ workers) }
        ensures none_raised { IfOk result (λ a. a.search.raised ≡ []) }
        ensures make { IfOk result (λ a. a.make ≡ make) }
    {
        let labels = Labels::open(alloc, states, start)?;
        let space = Space::initial(alloc, states, start)?;
        let raiser = Raiser::new(alloc, states)?;
        Ok(Epase {
            make,
            workers,
            labels: Some(labels),
            space: Some(space),
            goal,
            journal: Journal::open(alloc, false),
            expanded: 0,
            raiser,
        })
    }

    /// Makes the labels initial again. The start, the goal and the number of states stay. It takes no memory.
    pub fn reset(&mut self)
        ensures opened { AreInitial self.new.search.labels (states_of self.old.search.labels) self.old.search.labels.start }
        ensures ready { (n : Network) (count : ℕ) → n.states ≡ states_of self.old.search.labels
            → AreReady n self.new.search.labels count }
        ensures fresh { IsStartFresh self.new.search.labels }
        ensures none_raised { self.new.search.raised ≡ [] }
        ensures goal { self.new.search.goal ≡ self.old.search.goal }
        ensures workers { self.new.search.workers ≡ self.old.search.workers }
        ensures make { self.new.make ≡ self.old.make }
    {
        let start = self.labels().start();
        self.restart(start);
    }

    /// Makes the labels initial, from another start, a state by its number. The goal and the number of states stay. It takes no
    /// memory.
    pub fn restart(&mut self, start: u32)
        requires start { start < states_of self.old.search.labels }
        ensures opened { AreInitial self.new.search.labels (states_of self.old.search.labels) start }
        ensures ready { (n : Network) (count : ℕ) → n.states ≡ states_of self.old.search.labels
            → AreReady n self.new.search.labels count }
        ensures fresh { IsStartFresh self.new.search.labels }
        ensures none_raised { self.new.search.raised ≡ [] }
        ensures goal { self.new.search.goal ≡ self.old.search.goal }
        ensures workers { self.new.search.workers ≡ self.old.search.workers }
        ensures make { self.new.make ≡ self.old.make }
    {
        if let (Some(labels), Some(space)) = (&mut self.labels, &mut self.space) {
            labels.restart(start);
            space.restart(start);
        }
        self.raiser.clear();
    }

    /// Makes the labels ready for a plan on a graph that has changed. Each touched state is recomputed on the graph as it
    /// now is, and then states are raised until none is underconsistent: first the touched ones that are, upwards, and then
    /// each state that becomes so, as this is seen. The condition is that every other state, but the start, has on this
    /// graph the g and the back arc, or none, that exact labels ask for. The touched states come upwards, once each. Only
    /// these are looked at, and the heads of the raised ones. It takes no memory.
    pub fn change<G: Graph>(&mut self, graph: &G, touched: &[u32])
        requires states { states_of self.old.search.labels ≡ (G.network graph.now).states }
        requires changeable { IsChangeable (G.network graph.now) touched.now self.old.search.labels }
        requires upwards { IsStrictlyIncreasing touched.now }
        ensures begun { BeginsRaised (G.network graph.now) touched.now self.old.search.labels self.new.search.labels
            self.new.search.raised }
        ensures ready { (n : Network) (count : ℕ) → n.states ≡ (G.network graph.now).states
            → AreReady n self.old.search.labels count → AreReady (G.network graph.now) self.new.search.labels count }
        ensures fresh { IsStartFresh self.old.search.labels → IsStartFresh self.new.search.labels }
        ensures start { self.new.search.labels.start ≡ self.old.search.labels.start }
        ensures same_states { states_of self.new.search.labels ≡ states_of self.old.search.labels }
        ensures goal { self.new.search.goal ≡ self.old.search.goal }
        ensures workers { self.new.search.workers ≡ self.old.search.workers }
        ensures make { self.new.make ≡ self.old.make }
    {
        if let (Some(labels), Some(space)) = (&mut self.labels, &mut self.space) {
            repair(labels, space, &mut self.raiser, graph, touched);
        }
    }

    /// Sets the goal of the passes to come, a state by its number. All else stays, so the next pass goes on from these
    /// labels. It takes no memory.
    pub fn aim(&mut self, goal: u32)
        requires goal { goal < states_of self.old.search.labels }
        ensures aimed { self.new ≡ record self.old { search = record self.old.search { goal = goal } } }
    {
        self.goal = goal;
    }

    /// The goal of the passes, a state by its number.
    pub fn goal(&self) -> u32
        ensures value { result ≡ self.now.search.goal }
    {
        self.goal
    }

    /// The labels.
    pub fn labels(&self) -> &Labels
        ensures value { result.now ≡ self.now.search.labels }
        ensures labels { AreLabels self.now.search.labels }
        ensures goal { self.now.search.goal < states_of self.now.search.labels }
    {
        let labels = self.labels.as_ref().unwrap();
        let _start = labels.start();
        labels
    }

    /// The lower bound that the labels give: the least of g of the goal and of g + h over all states whose g and v differ, with
    /// h by this guide. It looks only at the states that may be open.
    pub fn low<H: Guide>(&self, guide: &H) -> u64
        requires known { (s : ℕ) → s < states_of self.now.search.labels → H.knows guide.now s }
        ensures least { IsLow (states_of self.now.search.labels) self.now.search.goal (g_of self.now.search.labels)
            (v_of self.now.search.labels) (H.distance guide.now) result }
    {
        let space = self.space.as_ref().unwrap();
        space.low(self.labels(), guide, self.goal)
    }

    /// What the last pass did, in order, where it was kept; nothing where it ran out of memory, and before the first.
    pub fn events(&self) -> &[Event]
        requires kept { self.now.search.kept ≡ true }
        ensures value { result.now ≡ self.now.search.actions }
    {
        self.journal.events().unwrap()
    }

    /// The states that were raised after the last change of the graph, in order; none before the first.
    pub fn raised(&self) -> &[u32]
        ensures value { result.now ≡ self.now.search.raised }
    {
        self.raiser.raised()
    }

    /// How many states the last pass expanded; none where it ran out of memory, and before the first.
    pub fn expanded(&self) -> u64
        ensures value { result ≡ openings self.now.search.actions }
    {
        self.expanded
    }
}
