//! The expansion of one overconsistent state.

ghost use Rattle.std.specs.Prelude.{◌≡◌, ℕ, ◌+◌, ◌-◌, ◌*◌, ◌^◌, ◌<◌, false, length};
ghost use Rattle.sbpl_search.specs.sbpl_graph.declared.TheConstants.{FAR};
ghost use Rattle.sbpl_search.specs.sbpl_graph.Fit.{FitCount};
ghost use Rattle.sbpl_search.specs.sbpl_graph.Kept.{NoneUnder};
ghost use Rattle.sbpl_search.specs.sbpl_labels.Marks.{states_of, g_of, v_of};
ghost use Rattle.sbpl_serial.specs.Queue.{AreQueued};
ghost use Rattle.sbpl_serial.specs.Relaxed.{IsRelaxed};
ghost use Rattle.sbpl_serial.specs.Run.{IsOpen, IsOver, closed_after, none_closed};
ghost use Rattle.sbpl_search.specs.Ready.{AreUsable};
ghost use Rattle.sbpl_serial.specs.Taken.{IsTaken};

use crate::queue::requeue;
use crate::{Serial, Step};
use sbpl_search::{Graph, Guide, Labels};

impl<P> Serial<P> {
    /// Expands the overconsistent state `s` and closes it: its v becomes its g, each head gets the lesser of its label and the way
    /// over `s`, and they are placed in the queue.
    pub(crate) fn expand<G: Graph, H: Guide>(&mut self, graph: &G, guide: &H, eps: u32, s: u32)
        requires open { IsOpen (closed_after none_closed self.old.trace) self.old.labels s }
        requires over { IsOver self.old.labels s }
        requires usable { AreUsable (G.network graph.now) self.old.labels (2 ^ 30 - 1) }
        requires known { (u : ℕ) → u < states_of self.old.labels → H.knows guide.now u }
        requires queued { AreQueued eps (H.distance guide.now)
            (closed_after none_closed self.old.trace) self.old.labels self.old.queue }
        requires room { length self.old.trace < 3 * states_of self.old.labels }
        ensures taken { IsTaken (G.network graph.now) self.old self.new s false }
        ensures usable { (count : ℕ) → AreUsable (G.network graph.now) self.old.labels count
            → AreUsable (G.network graph.now) self.new.labels (count + 1) }
        ensures none_under { NoneUnder (G.network graph.now).states (g_of self.old.labels) (v_of self.old.labels)
            → NoneUnder (G.network graph.now).states (g_of self.new.labels) (v_of self.new.labels) }
        ensures queued { AreQueued eps (H.distance guide.now)
            (closed_after none_closed self.new.trace) self.new.labels self.new.queue }
        ensures goal { self.new.goal ≡ self.old.goal }
    {
        let _start = self.labels.start();
        let _states = graph.states();
        self.closed.insert(s);
        self.labels.settle(s);
        requeue(
            &mut self.queue,
            Some(s),
            &self.closed,
            &self.labels,
            guide,
            eps,
        );
        for k in 0..graph.fan(s) {
            let head = relax(&mut self.labels, graph, s, k);
            requeue(
                &mut self.queue,
                head,
                &self.closed,
                &self.labels,
                guide,
                eps,
            );
        }
        self.steps.push(Step {
            state: s,
            raised: false,
        });
    }
}

/// Lowers the head of arc `k` of `s` where the way over this arc is cheaper, and answers it. The arc
/// is judged only where it could be: a cost is at least the arc's floor, so no arc lowers a g that is at
/// most v of `s` plus that floor, and the start has g 0.
fn relax<G: Graph>(labels: &mut Labels, graph: &G, s: u32, k: u32) -> Option<u32>
    requires states { states_of labels.old ≡ (G.network graph.now).states }
    requires state { s < states_of labels.old }
    requires number { k < (G.network graph.now).fan s }
    requires near { v_of labels.old s < FAR }
    requires fits { FitCount (states_of labels.old) (g_of labels.old) (v_of labels.old)
        (2 ^ 30) }
    ensures relaxed { IsRelaxed (G.network graph.now) labels.old labels.new s k result }
{
    let _start = labels.start();
    let t = graph.head(s, k)?;
    let v = labels.v(s);
    if labels.g(t) <= v + u64::from(graph.floor(s, k)) {
        return None;
    }
    let cost = graph.judge(s, k)?;
    labels.lower(t, s, k, v + u64::from(cost)).then_some(t)
}
