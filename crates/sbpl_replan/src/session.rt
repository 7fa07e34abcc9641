//! A session: plans one after another, by one search, on a world whose map changes.

ghost use Rattle.std.specs.Prelude.{◌≡◌, false, ◌+◌, ◌^◌, ◌≤◌, ◌<◌, ◌⊎◌, IfOk, IsOk, OnErr, OnOk};
ghost use Rattle.sbpl_heur.specs.sbpl_map.MapAfter.{AreWritten};
ghost use Rattle.sbpl_heur.specs.sbpl_terrain.Noted.{AreOnMap};
ghost use Rattle.sbpl_plan.specs.sbpl_labels.Counts.{time_of};
ghost use Rattle.sbpl_plan.specs.sbpl_labels.Marks.{AreLabels};
ghost use Rattle.sbpl_plan.specs.sbpl_labels.declared.time.Time.TheVariants.{Unlimited};
ghost use Rattle.sbpl_plan.specs.sbpl_search.Ready.{IsStartFresh};
ghost use Rattle.sbpl_plan.specs.Asked.{IsAsk, MOST_PASSES};
ghost use Rattle.sbpl_plan.specs.Determined.{AreWithin};
ghost use Rattle.sbpl_plan.specs.Observed.{AreTold};
ghost use Rattle.sbpl_plan.specs.Planned.{IsPlanned};
ghost use Rattle.sbpl_replan.specs.Replanning.{BeginsWith, IsAimed, IsReady, StandsOutOfMemory, StaysTheSame, at_plan};
ghost use Rattle.sbpl_replan.specs.Replanning.{IsMoved, inquiry, standing_of};

use crate::change::change;
use sbpl_heur::{Best, Heuristic, Lattice, Terrain, Write};
use sbpl_plan::{
    Ask, Budget, Inquiry, Labels, Meter, NoMemory, Observer, Planned, Search, Timer, plan,
};
use std::alloc::Global;
use std::marker::Model;
use std::time::Duration;

/// A world, and plans on it by one search, one after another: batches of changes are written to its map, and the goal and the
/// start may change. The world may be a graph the other way round: then the search's goal is where the robot is. The heuristic
/// follows the map and the goal. It owns all of this, and borrows nothing.
#[derive(Drop)]
pub struct Session<W: Terrain + Drop, H: Heuristic<W>, S: Search<W, H> + Drop> {
    world: W,
    guide: H,
    search: S,
    budget: Budget,
    /// Room for the states that a batch touches.
    touched: Vec<u32>,
}

/// Plans on a lattice by the best heuristic.
pub type LatticeSession<S> = Session<Lattice, Best, S>;

impl<W: Terrain + Drop, H: Heuristic<W>, S: Search<W, H> + Drop> Model for Session<W, H, S> {
    ghost use Rattle.sbpl_replan.specs.Replanning.{SessionState};

    ghost Value = { SessionState S.Action H W };

    ghost view = { λ r. record { world = r.world; search = S.state r.search; guide = r.guide; counts = r.budget } };

    // What the search asks of its value for its passes.
    ghost invariant = { λ r. S.serves r.search };
}

impl<W: Terrain + Drop, H: Heuristic<W>, S: Search<W, H> + Drop> Session<W, H, S> {
    /// A session whose first plan begins with the labels of this search. A pass may begin with them on the world's map, and
    /// the search goes to a state of the world. A plan may expand `budget` states, 1 to 2^30.
    pub fn open(
        alloc: Global,
        world: W,
        search: S,
        budget: u64,
    ) -> Result<Session<W, H, S>, NoMemory>
        requires goal { (S.state search).goal < (W.network world).states }
        requires labels { S.meaning.ready (W.network world) (S.state search).labels 0 }
        requires fresh { IsStartFresh (S.state search).labels }
        requires serves { S.serves search }
        requires some { 1 ≤ budget }
        requires few { budget ≤ 2 ^ 30 }
        ensures ready { IfOk result (IsReady S.meaning W.network H.is_made_for) }
        ensures world { IfOk result (λ s. s.world ≡ world) }
        ensures search { IfOk result (λ s. s.search ≡ S.state search) }
        ensures counts { IfOk result (λ s. s.counts ≡ record { per_plan = budget; plan = 0; run = 0; time = Unlimited }) }
        ensures free { H.takes_memory ≡ false → IsOk result }
    {
        let guide = H::build(alloc, &world, search.goal())?;
        Ok(Session {
            world,
            guide,
            search,
            budget: Budget::new(budget),
            touched: Vec::new(alloc),
        })
    }

    /// Sets this meter from now on to how many states the plans have expanded so far, while a plan goes on too: where a plan
    /// begins, and at each 64th of its expansions.
    pub fn meter_by(&mut self, meter: &Meter)
        ensures same { self.new ≡ self.old }
    {
        self.budget.meter_by(meter);
    }

    /// The plans to come have their limits of time by this timer. Before the first call no time is told, so no limit comes to an
    /// end.
    pub fn time_by(&mut self, timer: Timer)
        ensures same { self.new ≡ self.old }
    {
        self.budget.time_by(timer);
    }

    /// What is planned on, with its present map.
    pub fn world(&self) -> &W
        ensures value { result.now ≡ self.now.world }
    {
        &self.world
    }

    /// The heuristic for the present map.
    pub fn guide(&self) -> &H
        ensures value { result.now ≡ self.now.guide }
    {
        &self.guide
    }

    /// The state to which the search goes.
    pub fn goal(&self) -> u32
        ensures value { result ≡ self.now.search.goal }
    {
        self.search.goal()
    }

    /// The labels, as the last call left them.
    pub fn labels(&self) -> &Labels
        ensures value { result.now ≡ self.now.search.labels }
        ensures labels { AreLabels self.now.search.labels }
    {
        self.search.labels()
    }

    /// Makes a plan on the present map: passes with the inflation `ask.first`, then `ask.step` less each time and never
    /// below 1.000, until one finds a path whose bound is at most `ask.bound`, shows that there is no path, is spent, or
    /// has inflation 1.000. With a limit of time, 0.001 s to 1,000,000 s from now on, the clock is asked at each 256th
    /// expansion, and a plan that is late is spent; without one no clock is asked. The observer is told of each path as soon as
    /// the walk of a pass has given it. After `NoMemory` another plan may be made on the map, from the labels that the passes so
    /// far left, unless memory ran out within a pass.
    pub fn plan<O: Observer>(
        &mut self,
        alloc: Global,
        ask: &Ask,
        limit: Option<Duration>,
        observer: &mut O,
    ) -> Result<Planned<S::Action>, NoMemory>
        requires ready { IsReady S.meaning W.network H.is_made_for self.old }
        requires asked { IsAsk ask.now }
        requires observed { MOST_PASSES ≤ O.room observer.old }
        ensures planned { IfOk result (IsPlanned S.meaning
            (inquiry (W.network self.old.world) (H.distance self.old.guide) (standing_of self.old) ask.now)
            self.old.search self.new.search (at_plan (time_of limit) self.old.counts) self.new.counts) }
        // No expansion is beyond the budget or the run's 2^30, and a plan is spent only where the one or the other is used up, or
        // the plan is late.
        ensures within { IfOk result (λ r. AreWithin self.old.counts.per_plan self.old.counts.run self.new.counts.time
            r.passes r.spent) }
        ensures unlimited { limit ≡ None → OnOk result (self.new.counts.time ≡ Unlimited) }
        ensures run { self.new.counts.run ≤ 2 ^ 30 }
        // Another plan may begin, and the map may change.
        ensures ready { IfOk result (λ _. IsReady S.meaning W.network H.is_made_for self.new) }
        ensures same { IfOk result (λ _. StaysTheSame (standing_of self.old) (standing_of self.new)) }
        ensures world { self.new.world ≡ self.old.world }
        ensures guide { self.new.guide ≡ self.old.guide }
        ensures memory { OnErr result (StandsOutOfMemory S.meaning
            (inquiry (W.network self.old.world) (H.distance self.old.guide) (standing_of self.old) ask.now) (time_of limit)
            (IsReady S.meaning W.network H.is_made_for self.new)
            (λ ps. AreTold O.told 0 ps observer.old observer.new)
            (standing_of self.old) (standing_of self.new)) }
        // The observer was told of each path that a pass found, as soon as it was found.
        ensures told { IfOk result (λ r. AreTold O.told 0 r.passes observer.old observer.new) }
        ensures observed { O.room observer.old ≤ O.room observer.new + MOST_PASSES }
    {
        self.budget.next_plan(limit);
        let inquiry = Inquiry {
            graph: &self.world,
            guide: &self.guide,
            ask,
        };
        let planned = plan(
            alloc,
            &inquiry,
            &mut self.search,
            &mut self.budget,
            observer,
        );
        let _counts = self.budget.used();
        planned
    }

    /// Writes a batch to the map, and makes the labels and the heuristic ready for a plan on it. All cells of the batch are on the
    /// map. After `NoMemory` the map is the old or the new one, and nothing else has changed.
    pub fn change(&mut self, alloc: Global, batch: &[Write]) -> Result<(), NoMemory>
        requires ready { IsReady S.meaning W.network H.is_made_for self.old }
        requires on_map { AreOnMap (W.cells.map self.old.world) batch.now }
        ensures written { OnOk result (AreWritten (W.cells.map self.old.world) batch.now (W.cells.map self.new.world)) }
        ensures refused { OnErr result ((W.cells.map self.new.world ≡ W.cells.map self.old.world)
            ⊎ AreWritten (W.cells.map self.old.world) batch.now (W.cells.map self.new.world)) }
        ensures others { self.new.world ≡ W.cells.over self.old.world (W.cells.map self.new.world) }
        ensures kept { W.cells.is_made self.new.world }
        // The labels are those that the planner makes of the ones that there were.
        ensures begun { OnOk result (BeginsWith S.meaning W.network W.cells self.old.world self.new.world
            self.old.search.labels self.new.search.labels self.new.search.raised) }
        ensures ready { OnOk result (IsReady S.meaning W.network H.is_made_for self.new) }
        ensures same { OnOk result (StaysTheSame (standing_of self.old) (standing_of self.new)) }
        ensures counts { self.new.counts ≡ self.old.counts }
        ensures unchanged { OnErr result (self.new ≡ record self.old { world = self.new.world }) }
    {
        W::is_terrain();
        let _used = self.budget.used();
        change(
            alloc,
            &mut self.world,
            batch,
            &mut self.search,
            &mut self.touched,
        )?;
        self.guide.rebuild(&self.world);
        Ok(())
    }

    /// Aims the plans to come at another goal, a state by its number: the labels stay, and the heuristic is made one to the
    /// new goal on the present map. Where the goal is the one to which the plans go, nothing is done. After `NoMemory`
    /// nothing has changed.
    pub fn aim(&mut self, alloc: Global, goal: u32) -> Result<(), NoMemory>
        requires ready { IsReady S.meaning W.network H.is_made_for self.old }
        requires goal { goal < (W.network self.old.world).states }
        ensures aimed { OnOk result (IsAimed goal (standing_of self.old) (standing_of self.new)) }
        ensures ready { OnOk result (IsReady S.meaning W.network H.is_made_for self.new) }
        ensures world { self.new.world ≡ self.old.world }
        ensures unchanged { OnErr result (self.new ≡ self.old) }
        ensures free { H.takes_memory ≡ false → IsOk result }
    {
        if goal == self.search.goal() {
            return Ok(());
        }
        self.guide.aim(alloc, &self.world, goal)?;
        self.search.aim(goal);
        Ok(())
    }

    /// Lets the searches of the plans to come go from another state, by its number: the labels become initial ones. Where
    /// they go from it already, nothing is done, and the labels stay. It takes no memory.
    pub fn start_from(&mut self, start: u32)
        requires ready { IsReady S.meaning W.network H.is_made_for self.old }
        requires start { start < (W.network self.old.world).states }
        ensures moved { IsMoved start (standing_of self.old) (standing_of self.new) }
        ensures ready { IsReady S.meaning W.network H.is_made_for self.new }
        ensures world { self.new.world ≡ self.old.world }
        ensures guide { self.new.guide ≡ self.old.guide }
    {
        if start == self.search.labels().start() {
            return;
        }
        self.search.restart(start);
    }

    /// The states that were raised when the labels were last made ready for a plan, in order, where the planner raises states
    /// outside its passes: by the last change, or none where another start came after it.
    pub fn raised(&self) -> &[u32]
        ensures value { result.now ≡ self.now.search.raised }
    {
        self.search.raised()
    }

    /// How many states the last plan expanded.
    pub fn expanded(&self) -> u64
        ensures value { result ≡ self.now.counts.plan }
    {
        self.budget.used()
    }
}
