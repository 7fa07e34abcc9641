//! Whoever takes judgements out.

ghost use Rattle.std.specs.Prelude.{◌≡◌, [], IfSome, IsNone};
ghost use Rattle.sbpl_postings.specs.Kept.{AreBrought};
ghost use Rattle.sbpl_postings.specs.Posts.{post_of};
ghost use Rattle.sbpl_postings.specs.Steps.{drained_with, ended_with, fresh_sender, one_more};

use crate::rule::PostingPass;
use crate::steps::{absorb_sender, pop_beside, split_sender};
use crate::{Lined, Posting, Queue, Sender};
use sbpl_claims::Naming;
use sbpl_frontier_core::Pass;
use std::marker::{Model, PhantomData};
use std::sync::Wait;

/// The right to take postings out of a line, and to make its senders. Contracts see it as how many senders were made, what
/// came out, and what each sender that has ended had put in.
#[derive(Drop)]
pub struct Drain<N: Pass, M: Naming, L: Lined> {
    pub(crate) pass: PostingPass<N, M>,
    pub(crate) of: PhantomData<L>,
}

impl<N: Pass, M: Naming, L: Lined> Model for Drain<N, M, L> {
    ghost use Rattle.std.specs.Prelude.{◌≡◌, []};
    ghost use Rattle.crossbeam_queue.specs.Passes.{view as known_by};
    ghost use Rattle.sbpl_postings.specs.Drained.{Drained};
    ghost use Rattle.sbpl_postings.specs.Known.{drained_of, whole};

    ghost Value = { Drained };

    ghost view = { λ a. drained_of (known_by a.pass) };

    ghost invariant = { λ a. (a.pass.table_id ≡ L.line) × (a.pass.me.1 ≡ [])
        × (known_by a.pass ≡ whole (drained_of (known_by a.pass))) };
}

impl<N: Pass, M: Naming, L: Lined> Drain<N, M, L> {
    /// A sender for the next seat.
    pub fn sender(&mut self, queue: &Queue<N, M, L>) -> Sender<N, M, L>
        ensures sender { result ≡ fresh_sender self.old }
        ensures made { self.new ≡ one_more self.old }
    {
        Sender {
            pass: split_sender(&queue.postings, &mut self.pass),
            of: PhantomData,
        }
    }

    /// Takes out the posting that was put in first. Where there is none, all that this sender and those that have ended put in has
    /// come.
    pub fn pop<R: Wait>(
        &mut self,
        rt: &R,
        queue: &Queue<N, M, L>,
        sender: &mut Sender<N, M, L>,
    ) -> Option<Posting<N, M>>
        ensures came { IfSome result (λ posting. self.new ≡ drained_with self.old (post_of posting)) }
        ensures none { IsNone result → (self.new ≡ self.old) × AreBrought (ended_with self.old sender.old) [] }
        ensures sender { sender.new ≡ sender.old }
    {
        pop_beside(rt, &queue.postings, &mut self.pass, &mut sender.pass)
    }

    /// Takes a sender back, which puts no more in.
    pub fn end(&mut self, queue: &Queue<N, M, L>, sender: Sender<N, M, L>)
        ensures ended { self.new ≡ ended_with self.old sender }
    {
        absorb_sender(&queue.postings, &mut self.pass, sender.pass);
    }
}
