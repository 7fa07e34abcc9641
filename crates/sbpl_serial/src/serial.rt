//! A serial search: its parts, and the passes on them.

ghost use Rattle.std.specs.Prelude.{◌≡◌, ℕ, ◌<◌, ◌≤◌, [], IfOk};
ghost use Rattle.std.specs.List.{All};
ghost use Rattle.sbpl_search.specs.sbpl_graph.Bound.{IsLow};
ghost use Rattle.sbpl_search.specs.sbpl_graph.Fit.{FitCount};
ghost use Rattle.sbpl_search.specs.sbpl_graph.Network.{Network};
ghost use Rattle.sbpl_search.specs.sbpl_labels.Marks.{AreLabels, AreInitial, states_of, g_of, v_of};
ghost use Rattle.sbpl_open.specs.OpenList as open_list;
ghost use Rattle.sbpl_search.specs.Query.{query};
ghost use Rattle.sbpl_search.specs.Ready.{AreReady, IsStartFresh};
ghost use Rattle.sbpl_serial.specs.Meant.{AreRenewable, AreRenewed, MayBeginPass, trace_left};
ghost use Rattle.sbpl_serial.specs.Keys.{goal_key};
ghost use Rattle.sbpl_serial.specs.Passed.{GoesForward, IsSerialPass};
ghost use Rattle.sbpl_serial.specs.Queue.{AreQueued, IsFirstBelow};
ghost use Rattle.sbpl_serial.specs.Run.{none_closed};
ghost use Rattle.sbpl_serial.specs.Serial.{AreSerialParts};

use crate::low::low_among;
use crate::note::{note_taken, note_touched};
use crate::queue::{gather, refill};
use crate::{Anew, Closed, Parts, Policy, Repair, Step, Steps, change_labels};
use sbpl_open::{Key, Open};
use sbpl_search::{Budget, Graph, Guide, Labels, NoMemory, PassEnd};
use std::alloc::Global;
use std::marker::{Model, PhantomData};

/// A search that expands one open state after another: the labels of all states, the goal, the expansions of the last pass and
/// the queue that it left. Its policy says what becomes of the labels where the graph changes, and so which of the serial planners
/// it is: ARA* (Likhachev, Gordon and Thrun 2003), whose labels are never underconsistent, or Anytime D* (Likhachev, Ferguson,
/// Gordon, Stentz and Thrun 2005), whose labels are repaired. All memory is taken when it is opened.
#[derive(Drop)]
pub struct Serial<P> {
    pub(crate) labels: Labels,
    goal: u32,
    pub(crate) closed: Closed,
    pub(crate) steps: Steps,
    pub(crate) queue: Open,
    policy: PhantomData<P>,
}

impl<P> Model for Serial<P> {
    ghost use Rattle.sbpl_serial.specs.Serial.{SerialState, AreSerialParts};

    ghost Value = { SerialState };

    ghost view = { λ a. record { labels = a.labels; goal = a.goal; trace = a.steps.items; queue = a.queue } };

    ghost invariant = { λ a. AreSerialParts a.labels a.goal a.closed a.steps a.queue };
}

impl<P> Serial<P> {
    /// A search from `start` to `goal` on a graph of this many states, before its first pass: its labels are initial and its
    /// trace is empty.
    pub fn open(alloc: Global, states: u32, start: u32, goal: u32) -> Result<Serial<P>, NoMemory>
        requires start { start < states }
        requires goal { goal < states }
        ensures opened { IfOk result (λ a. AreInitial a.labels states start) }
        ensures ready { IfOk result
            (λ a. (n : Network) (count : ℕ) → n.states ≡ states → AreReady n a.labels count) }
        ensures fresh { IfOk result (λ a. IsStartFresh a.labels) }
        ensures goal { IfOk result (λ a. a.goal ≡ goal) }
        ensures untraced { IfOk result (λ a. a.trace ≡ []) }
    {
        let labels = Labels::open(alloc, states, start)?;
        let closed = Closed::open(alloc, states)?;
        let steps = Steps::with_room(alloc, 3 * states as usize)?;
        let mut queue = Open::new(alloc, states)?;
        queue.put(start, Key(0, 0));
        Ok(Serial {
            labels,
            goal,
            closed,
            steps,
            queue,
            policy: PhantomData,
        })
    }

    /// Makes the labels initial again and empties the trace. The start, the goal and the number of states stay. It takes no
    /// memory.
    pub fn reset(&mut self)
        ensures opened { AreInitial self.new.labels (states_of self.old.labels)
            self.old.labels.start }
        ensures ready { (n : Network) (count : ℕ) → n.states ≡ states_of self.old.labels
            → AreReady n self.new.labels count }
        ensures goal { self.new.goal ≡ self.old.goal }
        ensures untraced { self.new.trace ≡ [] }
    {
        let start = self.labels.start();
        self.restart(start);
    }

    /// Makes the labels initial, from another start, a state by its number, and empties the trace. The goal and the number of
    /// states stay. It takes no memory.
    pub fn restart(&mut self, start: u32)
        requires start { start < states_of self.old.labels }
        ensures opened { AreInitial self.new.labels (states_of self.old.labels) start }
        ensures ready { (n : Network) (count : ℕ) → n.states ≡ states_of self.old.labels
            → AreReady n self.new.labels count }
        ensures fresh { IsStartFresh self.new.labels }
        ensures goal { self.new.goal ≡ self.old.goal }
        ensures untraced { self.new.trace ≡ [] }
    {
        self.labels.restart(start);
        self.closed.clear();
        self.steps.clear();
        self.queue.clear();
        self.queue.put(start, Key(0, 0));
    }

    /// Sets the goal of the passes to come: a state, by its number. All else stays: the labels, the trace of the last pass, and
    /// the queue, in which each state whose g and v differ is, unless that pass expanded it. So the next pass goes on from these
    /// labels. It may have another guide, one to the new goal, since a pass gives each open state a new key when it begins;
    /// `low` is right for the new goal at once. Whether the back arcs lead from the new goal to the start is known only
    /// after a pass. It takes no memory.
    pub fn aim(&mut self, goal: u32)
        requires goal { goal < states_of self.old.labels }
        ensures aimed { self.new ≡ record self.old { goal = goal } }
    {
        self.goal = goal;
    }

    /// The parts of the search, without memory. Each open state is in the queue, the steps have room for three steps a state, and
    /// just those states are closed that the steps have closed.
    pub fn into_parts(self) -> Parts
        ensures labels { result.labels ≡ self.labels }
        ensures valid { AreLabels result.labels }
        ensures goal { result.goal ≡ self.goal }
        ensures steps { result.steps.items ≡ self.trace }
        ensures queue { result.queue ≡ self.queue }
        ensures parts { AreSerialParts result.labels result.goal result.closed result.steps result.queue }
    {
        let Serial {
            labels,
            goal,
            closed,
            steps,
            queue,
            policy: _,
        } = self;
        let _start = labels.start();
        Parts {
            labels,
            goal,
            closed,
            steps,
            queue,
        }
    }

    /// The search that has these parts. It takes no memory.
    pub fn from_parts(parts: Parts) -> Serial<P>
        requires parts { AreSerialParts parts.labels parts.goal parts.closed parts.steps parts.queue }
        ensures labels { result.labels ≡ parts.labels }
        ensures goal { result.goal ≡ parts.goal }
        ensures trace { result.trace ≡ parts.steps.items }
        ensures queue { result.queue ≡ parts.queue }
    {
        let Parts {
            labels,
            goal,
            closed,
            steps,
            queue,
        } = parts;
        Serial {
            labels,
            goal,
            closed,
            steps,
            queue,
            policy: PhantomData,
        }
    }

    /// The goal of the passes, a state by its number.
    pub fn goal(&self) -> u32
        ensures value { result ≡ self.now.goal }
    {
        self.goal
    }

    /// The labels.
    pub fn labels(&self) -> &Labels
        ensures value { result.now ≡ self.now.labels }
        ensures labels { AreLabels self.now.labels }
        ensures goal { self.now.goal < states_of self.now.labels }
    {
        let _start = self.labels.start();
        &self.labels
    }

    /// The low of the labels: the least of g of the goal and of g + h over all states whose g and v differ, with h by this
    /// guide, which may be another than that of the last pass. It looks only where such states may be: in the queue and among the
    /// expansions of the last pass.
    pub fn low<H: Guide>(&self, guide: &H) -> u64
        requires known { (s : ℕ) → s < states_of self.now.labels → H.knows guide.now s }
        ensures least { IsLow (states_of self.now.labels) self.now.goal (g_of self.now.labels)
            (v_of self.now.labels) (H.distance guide.now) result }
    {
        low_among(
            &self.queue,
            self.steps.as_slice(),
            &self.labels,
            guide,
            self.goal,
        )
    }

    /// The expansions of the last pass in order, or none before the first one and after a reset.
    pub fn trace(&self) -> &[Step]
        ensures value { result.now ≡ self.now.trace }
    {
        self.steps.as_slice()
    }
}

impl<P: Policy> Serial<P> {
    /// Makes the labels ready for a plan on a graph that has changed. Where the policy repairs them, each touched state is
    /// recomputed on the graph as it now is, and every v stays. The condition is that every other state, but the start, has on this
    /// graph the g and the back arc, or none, that exact labels ask for. A state may be touched twice. No other state is looked at.
    /// Where the policy does not repair them, the labels are initial again, and no touched state is looked at. It takes no memory.
    pub fn change<G: Graph>(&mut self, graph: &G, touched: &[u32])
        requires states { states_of self.old.labels ≡ (G.network graph.now).states }
        requires changeable { AreRenewable P.REPAIRS (G.network graph.now) touched.now self.old.labels }
        ensures renewed { AreRenewed P.REPAIRS (G.network graph.now) touched.now self.old.labels self.new.labels }
        ensures ready { (n : Network) (count : ℕ) → n.states ≡ (G.network graph.now).states
            → MayBeginPass P.REPAIRS n self.old.labels count
            → MayBeginPass P.REPAIRS (G.network graph.now) self.new.labels count }
        ensures fits { (count : ℕ)
            → FitCount (states_of self.old.labels) (g_of self.old.labels) (v_of self.old.labels) count
            → FitCount (states_of self.old.labels) (g_of self.new.labels) (v_of self.new.labels) count }
        ensures goal { self.new.goal ≡ self.old.goal }
        ensures trace { self.new.trace ≡ trace_left P.REPAIRS self.old.trace }
    {
        if !P::REPAIRS {
            self.reset();
            return;
        }
        change_labels(&mut self.labels, graph, touched);
        note_touched(&mut self.queue, &self.labels, touched);
    }

    /// A pass: open states are expanded, the least key first, until no open key is below the goal's or the budget is spent. Open
    /// are the states with v below g, and those with g below v that this pass has not lowered. A state with g below v is lowered:
    /// its v becomes its g, and each head gets the lesser of its g and the way over it. A state with v below g is raised: its v
    /// becomes infinite, and each head whose back arc comes from it is recomputed. The first part of a key is 1000 (v + h) where
    /// v is below g, and 1000 g + `eps` h otherwise, with h by the guide; the second is the lesser of g and v. Of equal keys that
    /// of the state of lower number comes first. `eps` is the inflation in thousandths, 1000 to 100000. Each expansion is
    /// counted, and no state is expanded more than three times. From labels none of which has v below g no state is raised, and
    /// none is expanded twice: so it always is in ARA*, which has only such labels. It takes no memory.
    pub fn pass<G: Graph, H: Guide>(
        &mut self,
        graph: &G,
        guide: &H,
        eps: u32,
        budget: &mut Budget,
    ) -> PassEnd
        requires eps_low { 1000 ≤ eps }
        requires eps_high { eps ≤ 100000 }
        requires guide { H.guides guide.now (G.network graph.now) self.old.goal }
        requires ready { MayBeginPass P.REPAIRS (G.network graph.now) self.old.labels budget.old.run }
        ensures passed { IsSerialPass (query (G.network graph.now) (H.distance guide.now) eps self.old.goal)
            self.old self.new budget.old budget.new result }
        ensures forward { GoesForward P.REPAIRS (query (G.network graph.now) (H.distance guide.now) eps self.old.goal)
            self.old self.new budget.old budget.new result }
        ensures ready { MayBeginPass P.REPAIRS (G.network graph.now) self.new.labels budget.new.run }
    {
        let _states = graph.states();
        let _start = self.labels.start();
        self.begin(guide, eps);
        'expansions: while let Some(s) = self.next() {
            if budget.spent() {
                return PassEnd::Spent;
            }
            budget.spend();
            if self.labels.v(s) < self.labels.g(s) {
                self.raise(graph, guide, eps, s);
            } else {
                self.expand(graph, guide, eps, s);
            }
        }
        PassEnd::Rest
    }
}

/// A search by Anytime D* that goes on from one by ARA*.
impl From<Serial<Anew>> for Serial<Repair> {
    ghost from_gives = { λ ara search. search ≡ ara };

    /// A search with the same labels, goal and trace, whose labels are repaired from now on. It takes no memory.
    fn from(ara: Serial<Anew>) -> Serial<Repair>
        ensures labels { result.labels ≡ ara.labels }
        ensures goal { result.goal ≡ ara.goal }
        ensures trace { result.trace ≡ ara.trace }
        ensures queue { result.queue ≡ ara.queue }
    {
        Serial::from_parts(ara.into_parts())
    }
}

impl<P> Serial<P> {
    /// Begins a pass: no state is closed, and the queue holds the states whose g and v differ. They are looked for only where they
    /// may be: in the queue and among the states of the last pass.
    fn begin<H: Guide>(&mut self, guide: &H, eps: u32)
        requires known { (s : ℕ) → s < states_of self.old.labels → H.knows guide.now s }
        ensures labels { self.new.labels ≡ self.old.labels }
        ensures goal { self.new.goal ≡ self.old.goal }
        ensures untraced { self.new.trace ≡ [] }
        ensures queued { AreQueued eps (H.distance guide.now) none_closed self.new.labels self.new.queue }
        ensures inside { self.old.goal < states_of self.old.labels }
    {
        note_taken(&mut self.queue, &self.labels, self.steps.as_slice());
        self.steps.clear();
        gather(&self.queue, &mut self.steps);
        self.queue.clear();
        refill(
            &mut self.queue,
            self.steps.as_slice(),
            &self.labels,
            guide,
            eps,
        );
        self.closed.clear();
        self.steps.clear();
    }

    /// The least state of the queue, where its key is below the goal's.
    fn next(&self) -> Option<u32>
        ensures next { IsFirstBelow self.now.queue (goal_key (g_of self.now.labels self.now.goal))
            result }
        ensures labels { AreLabels self.now.labels }
        ensures inside { self.now.goal < states_of self.now.labels }
    {
        let _start = self.labels.start();
        let (s, key) = self.queue.least()?;
        let g = self.labels.g(self.goal);
        key.is_below(Key(1000 * u128::from(g), g)).then_some(s)
    }
}
