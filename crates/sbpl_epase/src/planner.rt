//! ePA*SE as a planner.

ghost use Rattle.sbpl_epase.specs.Making.{MakesPasses};
ghost use Rattle.sbpl_epase.specs.Planner.{epase};

use crate::made::pass_by;
use crate::{Epase, Passed};
use sbpl_adstar::{Budget, Graph, Guide, Labels, NoMemory, PassEnd, Search};
use sbpl_frontier::{Event, Journal, Parts, events_keep};
use std::alloc::Global;
use std::mem;

impl<
    G: Graph,
    H: Guide,
    F: Fn(Global, &G, &H, u32, Parts, u32, u32, bool) -> Result<Passed, Parts> + Drop,
> Search<G, H> for Epase<F> {
    type Action = Event;

    ghost meaning = { epase };

    ghost state = { λ planner. planner.search };

    ghost serves = { λ planner. MakesPasses G.network H.distance H.guides F.pre F.post planner.make };

    fn pass(
        &mut self,
        alloc: Global,
        graph: &G,
        guide: &H,
        eps: u32,
        traced: bool,
        budget: &mut Budget,
    ) -> Result<PassEnd, NoMemory> {
        events_keep();
        let _states = graph.states();
        let labels = self.labels.take().unwrap();
        let _start = labels.start();
        let before = budget.used();
        let space = self.space.take().unwrap();
        // The events of the pass before are dropped before those of this one take memory.
        self.journal = Journal::open(alloc, false);
        self.expanded = 0;
        let taken = mem::replace(budget, Budget::new(1));
        let parts = Parts {
            labels,
            budget: taken,
            space,
        };
        match pass_by(
            &self.make,
            alloc,
            graph,
            guide,
            self.workers,
            parts,
            self.goal,
            eps,
            traced,
        ) {
            Ok(passed) => {
                let left = passed.parts;
                self.labels = Some(left.labels);
                self.space = Some(left.space);
                *budget = left.budget;
                self.journal = passed.journal;
                self.expanded = budget.used() - before;
                Ok(passed.end)
            }
            Err(left) => {
                self.labels = Some(left.labels);
                self.space = Some(left.space);
                *budget = left.budget;
                Err(NoMemory)
            }
        }
    }

    fn repairs(&self) -> bool {
        true
    }

    fn change(&mut self, graph: &G, touched: &[u32]) {
        Epase::change(self, graph, touched);
    }

    fn aim(&mut self, goal: u32) {
        Epase::aim(self, goal);
    }

    fn restart(&mut self, start: u32) {
        Epase::restart(self, start);
    }

    fn goal(&self) -> u32 {
        Epase::goal(self)
    }

    fn labels(&self) -> &Labels {
        Epase::labels(self)
    }

    fn low(&self, guide: &H) -> u64 {
        Epase::low(self, guide)
    }

    fn actions(&self) -> &[Event] {
        self.events()
    }

    fn raised(&self) -> &[u32] {
        Epase::raised(self)
    }

    fn expanded(&self) -> u64 {
        Epase::expanded(self)
    }

    ghost usable = { λ n m count is. record { states = is.states; exact = is.exact; fits = is.fits } };
}
