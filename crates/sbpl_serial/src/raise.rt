//! The expansion of one underconsistent state.

ghost use Rattle.std.specs.Prelude.{◌≡◌, ℕ, ◌-◌, ◌*◌, ◌^◌, ◌<◌, true, length};
ghost use Rattle.sbpl_search.specs.sbpl_graph.Fit.{FitCount};
ghost use Rattle.sbpl_search.specs.sbpl_labels.Marks.{states_of, g_of, v_of};
ghost use Rattle.sbpl_serial.specs.Run.{IsOpen, IsUnder, closed_after, none_closed};
ghost use Rattle.sbpl_serial.specs.Queue.{AreQueued};
ghost use Rattle.sbpl_serial.specs.Raised.{IsReturned};
ghost use Rattle.sbpl_search.specs.Ready.{AreUsable};
ghost use Rattle.sbpl_serial.specs.Taken.{IsTaken};

use crate::queue::requeue;
use crate::{Serial, Step};
use sbpl_search::{Graph, Guide, Labels};

impl<P> Serial<P> {
    /// Raises the underconsistent state `s`: its v becomes infinite, each head whose back arc comes from `s` is recomputed,
    /// and they are placed in the queue.
    pub(crate) fn raise<G: Graph, H: Guide>(&mut self, graph: &G, guide: &H, eps: u32, s: u32)
        requires open { IsOpen (closed_after none_closed self.old.trace) self.old.labels s }
        requires under { IsUnder self.old.labels s }
        requires usable { AreUsable (G.network graph.now) self.old.labels (2 ^ 30 - 1) }
        requires known { (u : ℕ) → u < states_of self.old.labels → H.knows guide.now u }
        requires queued { AreQueued eps (H.distance guide.now)
            (closed_after none_closed self.old.trace) self.old.labels self.old.queue }
        requires room { length self.old.trace < 3 * states_of self.old.labels }
        ensures taken { IsTaken (G.network graph.now) self.old self.new s true }
        ensures usable { (count : ℕ) → AreUsable (G.network graph.now) self.old.labels count
            → AreUsable (G.network graph.now) self.new.labels count }
        ensures queued { AreQueued eps (H.distance guide.now)
            (closed_after none_closed self.new.trace) self.new.labels self.new.queue }
        ensures goal { self.new.goal ≡ self.old.goal }
    {
        let _start = self.labels.start();
        let _states = graph.states();
        self.labels.raise(s);
        requeue(
            &mut self.queue,
            Some(s),
            &self.closed,
            &self.labels,
            guide,
            eps,
        );
        for k in 0..graph.fan(s) {
            let head = recompute_head(&mut self.labels, graph, s, k);
            requeue(
                &mut self.queue,
                head,
                &self.closed,
                &self.labels,
                guide,
                eps,
            );
        }
        let _raised = self.labels.start();
        self.steps.push(Step {
            state: s,
            raised: true,
        });
    }
}

/// Recomputes the head of arc `k` of `s` where this arc is its back arc, and answers it.
fn recompute_head<G: Graph>(labels: &mut Labels, graph: &G, s: u32, k: u32) -> Option<u32>
    requires states { states_of labels.old ≡ (G.network graph.now).states }
    requires state { s < states_of labels.old }
    requires number { k < (G.network graph.now).fan s }
    requires fits { FitCount (states_of labels.old) (g_of labels.old) (v_of labels.old)
        (2 ^ 30) }
    ensures returned { IsReturned (G.network graph.now) labels.old labels.new s k result }
    ensures fits { (count : ℕ) → FitCount (states_of labels.old) (g_of labels.old) (v_of labels.old) count
        → FitCount (states_of labels.old) (g_of labels.new) (v_of labels.new) count }
{
    let _start = labels.start();
    let t = graph.head(s, k)?;
    if labels.back(t) != Some((s, k)) {
        return None;
    }
    labels.recompute(graph, t);
    Some(t)
}
