//! A serial search as a planner.

ghost use Rattle.sbpl_serial.specs.Meant.{seen, serial, usable_by};

use crate::{Policy, Serial, Step, run_is_determined};
use sbpl_search::{Budget, Determined, Graph, Guide, Labels, NoMemory, PassEnd, Search};
use std::alloc::Global;

impl<G: Graph, H: Guide, P: Policy> Search<G, H> for Serial<P> {
    type Action = Step;

    ghost meaning = { serial P.REPAIRS };

    ghost state = { λ search. seen search };

    #[tactic(auto, using(crate::proofs::Policies::passed_by))]
    fn pass(
        &mut self,
        _alloc: Global,
        graph: &G,
        guide: &H,
        eps: u32,
        _traced: bool,
        budget: &mut Budget,
    ) -> Result<PassEnd, NoMemory> {
        Ok(Serial::pass(self, graph, guide, eps, budget))
    }

    fn repairs(&self) -> bool {
        P::REPAIRS
    }

    #[tactic(auto, using(crate::proofs::Policies::renewing))]
    fn change(&mut self, graph: &G, touched: &[u32]) {
        Serial::change(self, graph, touched);
    }

    fn aim(&mut self, goal: u32) {
        Serial::aim(self, goal);
    }

    #[tactic(auto, using(crate::proofs::Policies::beginning))]
    fn restart(&mut self, start: u32) {
        Serial::restart(self, start);
    }

    fn goal(&self) -> u32 {
        Serial::goal(self)
    }

    fn labels(&self) -> &Labels {
        Serial::labels(self)
    }

    fn low(&self, guide: &H) -> u64 {
        Serial::low(self, guide)
    }

    fn actions(&self) -> &[Step] {
        Serial::trace(self)
    }

    fn raised(&self) -> &[u32] {
        &[]
    }

    fn expanded(&self) -> u64 {
        self.trace().len() as u64
    }

    ghost usable = { usable_by P.REPAIRS };
}

impl<G: Graph, H: Guide, P: Policy> Determined<G, H> for Serial<P> {
    fn is_determined() {
        run_is_determined();
    }
}
