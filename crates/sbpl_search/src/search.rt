//! A search that makes passes.

ghost use Rattle.std.specs.Prelude.{◌≡◌, ◌≢◌, ℕ, ◌+◌, ◌^◌, ◌<◌, ◌≤◌, ⊤, [], true, IfOk, OnErr};
ghost use Rattle.std.specs.Prelude.{OnOk};
ghost use Rattle.std.specs.List.Sorted.{IsStrictlyIncreasing};
ghost use Rattle.sbpl_labels.specs.sbpl_graph.Bound.{IsLow};
ghost use Rattle.sbpl_labels.specs.sbpl_graph.Network.{Network};
ghost use Rattle.sbpl_labels.specs.Marks.{AreInitial, AreLabels, Marks, states_of, g_of, v_of};
ghost use Rattle.sbpl_search.specs.Changed.{IsChangeable};
ghost use Rattle.sbpl_search.specs.Meaning.{Meaning};
ghost use Rattle.sbpl_search.specs.Passed.{IsPassed};
ghost use Rattle.sbpl_search.specs.Query.{query};
ghost use Rattle.sbpl_search.specs.Ready.{AreUsable, IsStartFresh};
ghost use Rattle.sbpl_search.specs.State.{State};

use sbpl_labels::{Budget, Graph, Guide, Labels, NoMemory, PassEnd};
use std::alloc::Global;

/// A search to one goal: labels of all states, and passes that improve them. Each planner implements this, and plans are made
/// and repaired over it. A planner that needs more than a graph, a guide, an inflation and a budget, such as workers, keeps it in
/// its value. It may ask more of the graph and the guide than the trait does, such as that threads can share them.
pub trait Search<G: Graph, H: Guide> {
    /// What a pass records of each thing that it does.
    type Action: Copy;

    /// What the planner's calls mean.
    ghost meaning: { Meaning Self.Action };

    /// The number of workers, the labels, the goal, what the last pass did, and the states that were raised for the present plan.
    ghost state: { Self → State Self.Action };

    /// What a pass asks of the planner's value, such as that it can call what it was given.
    ghost serves: { Self → Type 0 } = { λ _. ⊤ };

    /// A pass of this inflation, in thousandths, 1000 to 100000: it goes on until no open key is below the goal's, or until
    /// the budget is spent. What it does is kept where it is to be told, and else where the planner's meaning says so. Where memory runs out, the planner's meaning says what
    /// is left.
    fn pass(
        &mut self,
        alloc: Global,
        graph: &G,
        guide: &H,
        eps: u32,
        traced: bool,
        budget: &mut Budget,
    ) -> Result<PassEnd, NoMemory>
        requires eps_low { 1000 ≤ eps }
        requires eps_high { eps ≤ 100000 }
        requires guide { H.guides guide.now (G.network graph.now) (state self.old).goal }
        requires ready { meaning.ready (G.network graph.now) (state self.old).labels budget.old.run }
        requires serves { serves self.old }
        ensures passed { IfOk result (IsPassed meaning (query (G.network graph.now) (H.distance guide.now) eps
            (state self.old).goal) (state self.old) (state self.new) budget.old budget.new) }
        ensures kept { traced ≡ true → OnOk result ((state self.new).kept ≡ true) }
        ensures kept_so { OnOk result ((state self.new).kept ≡ meaning.keeps traced) }
        ensures cut { OnErr result (meaning.cut (query (G.network graph.now) (H.distance guide.now) eps
            (state self.old).goal) (state self.old) (state self.new) budget.old budget.new) }
        ensures serves { serves self.new };

    /// Whether labels are repaired after a change of the graph, for which the touched states are wanted.
    fn repairs(&self) -> bool
        ensures value { result ≡ meaning.repairs };

    /// Makes the labels ready for a plan on a graph that has changed: repaired, and raised where the planner wants it, or initial
    /// again. Where they are repaired, all states whose incoming arcs have changed are among the touched ones, which come upwards
    /// and once each; otherwise these are not looked at. It takes no memory.
    fn change(&mut self, graph: &G, touched: &[u32])
        requires states { states_of (state self.old).labels ≡ (G.network graph.now).states }
        requires fits { meaning.repairs ≡ true → IsChangeable (G.network graph.now) touched.now (state self.old).labels }
        requires upwards { meaning.repairs ≡ true → IsStrictlyIncreasing touched.now }
        ensures begun { meaning.begun (G.network graph.now) touched.now (state self.old).labels (state self.new).labels
            (state self.new).raised }
        ensures ready { (n : Network) (count : ℕ) → n.states ≡ (G.network graph.now).states
            → meaning.ready n (state self.old).labels count → meaning.ready (G.network graph.now) (state self.new).labels
            count }
        ensures fresh { IsStartFresh (state self.old).labels → IsStartFresh (state self.new).labels }
        ensures start { (state self.new).labels.start ≡ (state self.old).labels.start }
        ensures states { states_of (state self.new).labels ≡ states_of (state self.old).labels }
        ensures goal { (state self.new).goal ≡ (state self.old).goal }
        ensures workers { (state self.new).workers ≡ (state self.old).workers }
        ensures serves { serves self.old → serves self.new };

    /// Sets the goal of the passes to come, a state by its number. All else stays, so the next pass goes on from these
    /// labels, and may be guided to the new goal; `low` is right for the new goal at once. It takes no memory.
    fn aim(&mut self, goal: u32)
        requires goal { goal < states_of (state self.old).labels }
        ensures aimed { state self.new ≡ record (state self.old) { goal = goal } }
        ensures serves { serves self.old → serves self.new };

    /// Makes the labels initial, from another start, a state by its number. The goal stays. It takes no memory.
    fn restart(&mut self, start: u32)
        requires start { start < states_of (state self.old).labels }
        ensures initial { AreInitial (state self.new).labels (states_of (state self.old).labels) start }
        ensures ready { (n : Network) (count : ℕ) → n.states ≡ states_of (state self.old).labels
            → meaning.ready n (state self.new).labels count }
        ensures fresh { IsStartFresh (state self.new).labels }
        ensures none_raised { (state self.new).raised ≡ [] }
        ensures goal { (state self.new).goal ≡ (state self.old).goal }
        ensures workers { (state self.new).workers ≡ (state self.old).workers }
        ensures serves { serves self.old → serves self.new };

    /// The goal of the passes, a state by its number.
    fn goal(&self) -> u32
        ensures value { result ≡ (state self.now).goal };

    /// The labels.
    fn labels(&self) -> &Labels
        ensures value { result.now ≡ (state self.now).labels }
        ensures labels { AreLabels (state self.now).labels }
        ensures goal { (state self.now).goal < states_of (state self.now).labels };

    /// The lower bound that the labels give: the least of g of the goal and of g + h over all states whose g and v differ, with
    /// h by this guide. It looks only where the last pass may have left such states.
    fn low(&self, guide: &H) -> u64
        requires known { (s : ℕ) → s < states_of (state self.now).labels → H.knows guide.now s }
        ensures least { IsLow (states_of (state self.now).labels) (state self.now).goal
            (g_of (state self.now).labels) (v_of (state self.now).labels) (H.distance guide.now) result };

    /// What the last pass did, in order, where it was kept.
    fn actions(&self) -> &[Self::Action]
        requires kept { (state self.now).kept ≡ true }
        ensures value { result.now ≡ (state self.now).actions };

    /// The states that were raised when the labels were last made ready for a plan, in order: none where a planner raises states in
    /// its passes alone, and none before the first change.
    fn raised(&self) -> &[u32]
        ensures value { result.now ≡ (state self.now).raised };

    /// How many states the last pass expanded.
    fn expanded(&self) -> u64
        ensures value { result ≡ meaning.expansions (state self.now).actions };

    ghost usable: { (n : Network) (m : Marks) (count : ℕ) → meaning.ready n m count → AreUsable n m count };
}
