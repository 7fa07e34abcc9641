//! The core of a parallel pass.

ghost use Rattle.std.specs.Prelude.{◌≡◌, ◌+◌, ◌<◌, ◌≤◌, ◌↔◌, ◌++◌, [], ◌∷◌, IfErr, IfOk};
ghost use Rattle.std.specs.Prelude.{IfSome, IsSome, IsTrue, OnErr};
ghost use Rattle.std.specs.Prelude.{OnOk, length};
ghost use Rattle.std.specs.List.{Contains};
ghost use Rattle.sbpl_frontier_rules.specs.sbpl_labels.Marks.{states_of};
ghost use Rattle.sbpl_frontier_rules.specs.sbpl_search.Query.{query};
ghost use Rattle.sbpl_frontier_rules.specs.sbpl_search.Ready.{AreReady};
ghost use Rattle.sbpl_frontier_rules.specs.declared.event.Event.TheVariants.{Posted};
ghost use Rattle.sbpl_frontier_rules.specs.Journal.{posts_in, takes_in};
ghost use Rattle.sbpl_frontier_rules.specs.Kept.{IsKept};
ghost use Rattle.sbpl_frontier_rules.specs.Events.{IsFirst, IsIdle, IsPosting, MayOpen};
ghost use Rattle.sbpl_frontier_core.specs.Answers.{IsFirstChoice, IsNextOpening, OpensTo};
ghost use Rattle.sbpl_frontier_core.specs.Book.{IsReplay};
ghost use Rattle.sbpl_frontier_core.specs.Choices.{IsChoice};
ghost use Rattle.sbpl_frontier_core.specs.Finished.{IsFinished, IsGivenUp};
ghost use Rattle.sbpl_frontier_core.specs.Given.{Answers, IsTaken};
ghost use Rattle.sbpl_frontier_core.specs.Waiting.{HoldsOver};

use crate::choice::Choice;
use crate::clear::{find_clear, key_of_goal, least_below};
use crate::cursor::first_head;
use crate::posting::{lower_head, take_back};
use crate::{Event, JournalOf, Judged, Leg, Next, Parts, Pass, Past, Seen, Space, Ticket, Unseen};
use sbpl_frontier_rules::{
    Budget, Closed, Entry, Graph, Guide, Labels, NoMemory, Open, events_keep, requeue,
};
use std::alloc::Global;
use std::marker::{Model, PhantomData};
use std::snapshot::Snapshot;

/// The frontier of one pass: labels, the states that are opened, the arcs that are ready and those that are out. It hands out arcs
/// and applies their judgements, and opens states on the way. (ePA*SE, Mukherjee, Aine and Likhachev 2022.)
pub type Core<'g, G, H, N> = CoreOf<'g, G, H, N, Unseen>;

/// The same, generic over what stands for events that are not kept in memory.
#[derive(Drop)]
pub struct CoreOf<'g, G: Graph, H: Guide, N: Pass, U: Past> {
    graph: &'g G,
    guide: &'g H,
    goal: u32,
    eps: u32,
    labels: Labels,
    opened: Closed,
    queue: Open,
    aside: Vec<Entry>,
    expanded: Vec<u32>,
    state: u32,
    from: u32,
    out: Vec<Leg>,
    next: u64,
    budget: Budget,
    journal: JournalOf<U>,
    of: PhantomData<N>,
}

impl<'g, G: Graph, H: Guide, N: Pass, U: Past> Model for CoreOf<'g, G, H, N, U> {
    ghost use Rattle.std.specs.Prelude.{◌≡◌, vec_capacity};
    ghost use Rattle.sbpl_frontier_core.specs.Book.{Book, frontier_of};
    ghost use Rattle.sbpl_frontier_core.specs.Together.{AreCoreParts};

    ghost Value = { Book };

    ghost view = { λ a. record {
      frontier = frontier_of N.query.network a.labels a.opened a.state a.from a.out.items a.next a.budget;
      journal = a.journal.events;
    } };

    ghost invariant = { λ a. (G.network a.graph.now ≡ N.query.network) × (H.distance a.guide.now ≡ N.query.guide)
        × H.guides a.guide.now N.query.network N.query.goal × (a.goal ≡ N.query.goal) × (a.eps ≡ N.query.eps)
        × AreCoreParts N.query N.opening N.counts N.keeps
        (frontier_of N.query.network a.labels a.opened a.state a.from a.out.items a.next a.budget)
        a.journal a.queue a.expanded.items a.state (record { entries = a.aside.items; size = vec_capacity a.aside }) };
}

impl<'g, G: Graph, H: Guide, N: Pass, U: Past> CoreOf<'g, G, H, N, U> {
    /// The core of a pass of this inflation, in thousandths, from these labels, which are exact and none of which is
    /// underconsistent. The one error is that memory ran out, and then the labels and the budget come back.
    pub fn open(
        alloc: Global,
        graph: &'g G,
        guide: &'g H,
        labels: Labels,
        goal: u32,
        eps: u32,
        budget: Budget,
        keeps: bool,
    ) -> Result<CoreOf<'g, G, H, N, U>, (Labels, Budget)>
        requires query { query (G.network graph.now) (H.distance guide.now) eps goal ≡ N.query }
        requires guide { H.guides guide.now (G.network graph.now) goal }
        requires eps_low { 1000 ≤ eps }
        requires eps_high { eps ≤ 100000 }
        requires goal { goal < (G.network graph.now).states }
        requires labels { labels ≡ N.opening }
        requires budget { budget ≡ N.counts }
        requires keeps { keeps ≡ N.keeps }
        requires ready { AreReady (G.network graph.now) labels budget.run }
        ensures first { IfOk result (λ core. IsFirst N.opening N.counts core.frontier) }
        ensures empty { IfOk result (λ core. core.journal ≡ []) }
        ensures back { IfErr result (λ back. (back.0 ≡ labels) × (back.1 ≡ budget)) }
    {
        let _start = labels.start();
        let Ok(space) = Space::find(alloc, &labels, graph.states()) else {
            return Err((labels, budget));
        };
        let parts = Parts {
            labels,
            budget,
            space,
        };
        match CoreOf::open_parts(alloc, graph, guide, parts, goal, eps, keeps) {
            Ok(core) => Ok(core),
            Err(parts) => Err((parts.labels, parts.budget)),
        }
    }

    /// The same from the parts that an earlier pass gave back: it looks only at the states that may be open.
    pub fn open_parts(
        alloc: Global,
        graph: &'g G,
        guide: &'g H,
        parts: Parts,
        goal: u32,
        eps: u32,
        keeps: bool,
    ) -> Result<CoreOf<'g, G, H, N, U>, Parts>
        requires query { query (G.network graph.now) (H.distance guide.now) eps goal ≡ N.query }
        requires guide { H.guides guide.now (G.network graph.now) goal }
        requires eps_low { 1000 ≤ eps }
        requires eps_high { eps ≤ 100000 }
        requires goal { goal < (G.network graph.now).states }
        requires labels { parts.labels ≡ N.opening }
        requires budget { parts.budget ≡ N.counts }
        requires keeps { keeps ≡ N.keeps }
        requires ready { AreReady (G.network graph.now) parts.labels parts.budget.run }
        requires over { HoldsOver parts.space parts.labels }
        ensures first { IfOk result (λ core. IsFirst N.opening N.counts core.frontier) }
        ensures empty { IfOk result (λ core. core.journal ≡ []) }
        ensures back { IfErr result (λ back. back ≡ parts) }
    {
        let _states = graph.states();
        let _start = parts.labels.start();
        let _used = parts.budget.used();
        let Parts {
            labels,
            budget,
            mut space,
        } = parts;
        let Ok(()) = space.begin(&labels, guide, eps) else {
            return Err(Parts {
                labels,
                budget,
                space,
            });
        };
        let Space {
            opened,
            queue,
            aside,
            expanded,
        } = space;
        Ok(CoreOf {
            graph,
            guide,
            goal,
            eps,
            labels,
            opened,
            queue,
            aside,
            expanded,
            state: goal,
            from: graph.fan(goal),
            out: Vec::new(alloc),
            next: 0,
            budget,
            journal: JournalOf::open(alloc, keeps),
            of: PhantomData,
        })
    }

    /// Tells the asker of this number what to do. Where an arc is ready, the one that became so first is handed out. Otherwise
    /// states are opened until an arc is ready: each time the first independent one of the 64 least open states below the goal's
    /// key. Room is made for the later judgement. If memory runs out, some states may have been opened, with their arcs ready.
    pub fn next(&mut self, seat: u32) -> Result<Next<N>, NoMemory>
        ensures answers { IfOk result (λ answer. Answers N.query seat self.old answer self.new) }
        ensures opened { OnErr result (OpensTo N.query self.old self.new) }
    {
        'openings: loop {
            if let Some(ticket) = self.take(seat)? {
                return Ok(Next::Job(ticket));
            }
            match self.choose() {
                Choice::Opens(s) => self.expand(s)?,
                Choice::NotYet => return Ok(Next::NotYet),
                Choice::Over => return Ok(Next::Over),
                Choice::Spent => return Ok(Next::Spent),
            }
        }
    }

    /// Hands out the arc that became ready first, where one is ready. Room is made for its judgement.
    fn take(&mut self, seat: u32) -> Result<Option<Ticket<N>>, NoMemory>
        ensures taken { IfOk result (λ ticket. IsTaken seat self.old ticket self.new) }
        ensures same { OnErr result (self.new ≡ self.old) }
    {
        let _used = self.budget.used();
        let Some(arc) = first_head(self.graph, self.state, self.from) else {
            return Ok(None);
        };
        self.journal.reserve(self.out.len() + 2)?;
        self.out.reserve(1)?;
        let (number, state) = (self.next, self.state);
        self.out.push_reserved(Leg {
            ticket: number,
            state,
            arc,
        });
        self.next += 1;
        self.from = arc + 1;
        self.journal.push(Event::Taken {
            ticket: number,
            seat,
            state,
            arc,
        });
        Ok(Some(Ticket {
            number,
            state,
            arc,
            of: PhantomData,
        }))
    }

    /// Opens `s` where no arc is ready: its v becomes its g, and its arcs become ready.
    fn expand(&mut self, s: u32) -> Result<(), NoMemory>
        requires none_ready { self.old.frontier.ready ≡ [] }
        requires may { MayOpen N.query self.old.frontier s }
        requires first { IsFirstChoice N.query self.old.frontier s }
        ensures opened { OnOk result (IsNextOpening N.query self.old s self.new) }
        ensures same { OnErr result (self.new ≡ self.old) }
    {
        let _states = self.graph.states();
        let _start = self.labels.start();
        self.journal.reserve(self.out.len() + 1)?;
        self.expanded.reserve(1)?;
        self.expanded.push_reserved(s);
        self.labels.settle(s);
        self.opened.insert(s);
        requeue(
            &mut self.queue,
            Some(s),
            &self.opened,
            &self.labels,
            self.guide,
            self.eps,
        );
        self.state = s;
        self.from = 0;
        self.budget.spend();
        self.journal.push(Event::Opened { state: s });
        Ok(())
    }

    /// What is to be done where no arc is ready.
    fn choose(&mut self) -> Choice
        requires none_ready { self.old.frontier.ready ≡ [] }
        ensures same { self.new ≡ self.old }
        ensures choice { IsChoice N.query self.old.frontier result }
    {
        events_keep();
        let _start = self.labels.start();
        let _states = self.graph.states();
        let goal = key_of_goal(&self.labels, self.goal);
        let idle = self.out.is_empty();
        if least_below(&self.queue, goal).is_none() {
            return if idle { Choice::Over } else { Choice::NotYet };
        }
        if self.budget.spent() {
            return if idle { Choice::Spent } else { Choice::NotYet };
        }
        let found = find_clear(
            &mut self.queue,
            &mut self.aside,
            &self.labels,
            self.graph,
            self.eps,
            self.out.as_slice(),
            goal,
        );
        match found {
            Some(s) => Choice::Opens(s),
            None => Choice::NotYet,
        }
    }

    /// Applies the judgement of an arc that is out: where the arc is free and the way over it is cheaper, the label of its head,
    /// which is not the start, is lowered. It takes no memory.
    pub fn apply(&mut self, judged: Judged<N>)
        requires out { Contains self.old.frontier.out
            (record { ticket = judged.number; state = judged.state; arc = judged.arc }) }
        ensures posted { IsPosting N.query.network self.old.frontier
            (record { ticket = judged.number; state = judged.state; arc = judged.arc }) judged.cost self.new.frontier }
        ensures fewer { length self.new.frontier.out < length self.old.frontier.out }
        ensures journal { self.new.journal ≡ self.old.journal ++ Posted judged.number judged.cost ∷ [] }
    {
        events_keep();
        let _states = self.graph.states();
        let _start = self.labels.start();
        let Judged {
            number,
            state,
            arc,
            cost,
            ..
        } = judged;
        let head = lower_head(&mut self.labels, self.graph, state, arc, cost);
        requeue(
            &mut self.queue,
            head,
            &self.opened,
            &self.labels,
            self.guide,
            self.eps,
        );
        take_back(&mut self.out, number);
        self.journal.push(Event::Posted {
            ticket: number,
            cost,
        });
    }

    /// The events of the pass in order, where they are kept. They lead to the frontier as it is, which is kept whatever results
    /// are missing.
    pub fn journal(&self) -> Option<&[Event]>
        ensures value { IfSome result (λ events. events.now ≡ self.now.journal) }
        ensures some { IsSome result ↔ IsTrue N.keeps }
        ensures replay { IsReplay N.query N.opening N.counts self.now.journal self.now.frontier }
        ensures kept { IsKept N.query self.now.frontier }
    {
        events_keep();
        self.journal.events()
    }

    /// The journal as it is, for contracts alone. Each arc that was handed out is out, or has its judgement in the journal.
    pub fn seen(&self) -> Seen<N, U>
        ensures value { result ≡ self.now.journal }
        ensures replay { IsReplay N.query N.opening N.counts self.now.journal self.now.frontier }
        ensures back { posts_in self.now.journal + length self.now.frontier.out ≡ takes_in self.now.journal }
    {
        events_keep();
        Seen {
            journal: Snapshot::of(&self.journal),
            of: PhantomData,
        }
    }

    /// How many arcs are out of a frontier that is kept, whatever results are missing.
    pub fn out(&self) -> u64
        ensures value { result ≡ length self.now.frontier.out }
        ensures replay { IsReplay N.query N.opening N.counts self.now.journal self.now.frontier }
        ensures kept { IsKept N.query self.now.frontier }
    {
        events_keep();
        self.out.len() as u64
    }

    /// The labels, the budget and the journal of a pass in which no arc is ready and none is out. Another pass may begin with them.
    pub fn finish(self) -> (Labels, Budget, JournalOf<U>)
        requires idle { IsIdle self.frontier }
        ensures finished { IsFinished N.query N.opening N.counts N.keeps self.entry result.0 result.1 result.2 }
    {
        let (parts, journal) = self.finish_parts();
        (parts.labels, parts.budget, journal)
    }

    /// The same with the memory of the pass, which holds the states that may be open.
    pub fn finish_parts(self) -> (Parts, JournalOf<U>)
        requires idle { IsIdle self.frontier }
        ensures finished { IsFinished N.query N.opening N.counts N.keeps self.entry result.0.labels result.0.budget result.1 }
        ensures over { HoldsOver result.0.space result.0.labels }
    {
        events_keep();
        let CoreOf {
            labels,
            opened,
            queue,
            aside,
            expanded,
            budget,
            journal,
            ..
        } = self;
        let space = Space {
            opened,
            queue,
            aside,
            expanded,
        };
        let parts = Parts {
            labels,
            budget,
            space,
        };
        (parts, journal)
    }

    /// The labels and the budget of a pass that is given up, as the events so far left them, with its memory.
    pub fn give_up(self) -> Parts
        ensures given_up { IsGivenUp N.query N.opening N.counts self.entry result.labels result.budget }
        ensures over { HoldsOver result.space result.labels }
    {
        events_keep();
        let CoreOf {
            labels,
            opened,
            queue,
            aside,
            expanded,
            budget,
            ..
        } = self;
        let space = Space {
            opened,
            queue,
            aside,
            expanded,
        };
        Parts {
            labels,
            budget,
            space,
        }
    }
}
