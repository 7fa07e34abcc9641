//! What the lock guards.

ghost use Rattle.std.specs.Prelude.{◌≡◌, ◌+◌, ◌<◌, [], ◌++◌, IfOk, IsFalse, IsTrue, OnErr, length, map, sum_by, vec_len};
ghost use Rattle.sbpl_postings.specs.sbpl_frontier_core.Answers.{OpensTo};
ghost use Rattle.sbpl_postings.specs.Kept.{AreBrought};
ghost use Rattle.sbpl_postings.specs.Posts.{of};
ghost use Rattle.sbpl_postings.specs.Steps.{ended_with};
ghost use Rattle.sbpl_frontier.specs.Tally.{sent_in};
ghost use Rattle.sbpl_frontier.specs.Turns.{Gives, IsToldLast, Shows, ShowsOwn};

use crate::ledgers::TakesOf;
use crate::{Seat, Second, Turn};
use sbpl_postings::{
    CoreOf, Drain, Graph, Guide, Keeper, Lined, Next, NoMemory, Pass, Past, Queue, Sender,
};
use std::marker::Model;
use std::sync::Wait;
use std::sync::ledger::{Book, Share};

/// A frontier, what its holder knows of the tickets that are out, the book of the ledger, and the right to take judgements out of
/// the line. Each of them agrees with the frontier whenever the lock is free.
#[derive(Drop)]
pub(crate) struct Locked<'g, G: Graph, H: Guide, N: Pass, U: Past, M: Second, L: Lined> {
    pub(crate) core: CoreOf<'g, G, H, N, U>,
    pub(crate) keeper: Keeper<M>,
    pub(crate) takes: Book<TakesOf<M>>,
    pub(crate) drain: Drain<N, M, L>,
}

impl<'g, G: Graph, H: Guide, N: Pass, U: Past, M: Second, L: Lined> Model
    for Locked<'g, G, H, N, U, M, L> {
    ghost use Rattle.std.specs.Prelude.{◌<◌};
    ghost use Rattle.sbpl_frontier.specs.Tied.{AreTied, Sight};

    ghost Value = { Sight };

    ghost view = { λ a. record { book = a.core; line = a.drain } };

    ghost invariant = { λ a. (0 < M.parts) × AreTied a.core a.keeper a.takes.total a.drain M.parts };
}

impl<'g, G: Graph, H: Guide, N: Pass, U: Past, M: Second, L: Lined> Locked<'g, G, H, N, U, M, L> {
    /// What the worker in this seat is to do, all of whose judgements have come out of the line.
    pub(crate) fn next(&mut self, seat: &mut Seat<N, M, L>) -> Result<Turn<N, U, M>, NoMemory>
        requires come { of seat.old.number self.old.line.came ≡ seat.old.posts }
        ensures gives { IfOk result (λ turn. Gives seat.old turn seat.new) }
        ensures same { OnErr result (seat.new ≡ seat.old) }
        ensures opened { OnErr result (OpensTo N.query self.old.book self.new.book) }
        ensures line { self.new.line ≡ self.old.line }
        ensures shows { IfOk result (λ turn. Shows N.query N.opening N.counts turn) }
        ensures own { IfOk result (λ turn. ShowsOwn seat.old turn) }
        // The journal ends with a job that is handed out, in the name of this seat.
        ensures told { IfOk result (λ turn. IsToldLast seat.old.number turn self.new.book.journal) }
    {
        match self.core.next(seat.number)? {
            Next::Job(ticket) => {
                let claim = self.keeper.make(ticket.state(), ticket.arc());
                self.takes.add(&mut seat.takes, 1);
                Ok(Turn::Job(ticket, claim))
            }
            Next::NotYet => Ok(Turn::NotYet(self.core.seen())),
            Next::Over => Ok(Turn::Over(self.core.seen())),
            Next::Spent => Ok(Turn::Spent(self.core.seen())),
        }
    }

    /// Takes all judgements out of the line that are in it, and applies them: all that this sender put in, and those that
    /// have ended.
    pub(crate) fn receive_all<R: Wait>(
        &mut self,
        rt: &R,
        queue: &Queue<N, M, L>,
        sender: &mut Sender<N, M, L>,
    )
        ensures ended { self.new.line.ended ≡ self.old.line.ended }
        ensures sender { sender.new ≡ sender.old }
        ensures brought { AreBrought (ended_with self.new.line sender.old) [] }
    {
        'postings: while self.receive(rt, queue, sender) {}
    }

    /// Takes all judgements out of the line that are in it, and applies them, once the senders of all seats have ended.
    pub(crate) fn receive_rest<R: Wait>(&mut self, rt: &R, queue: &Queue<N, M, L>)
        ensures ended { self.new.line.ended ≡ self.old.line.ended }
        ensures brought { AreBrought self.new.line [] }
    {
        // This sender puts nothing in.
        let mut sender = self.drain.sender(queue);
        self.receive_all(rt, queue, &mut sender);
    }

    /// Takes one judgement out of the line and applies it, whose ticket is out as its claim shows. It answers whether there
    /// was one.
    fn receive<R: Wait>(
        &mut self,
        rt: &R,
        queue: &Queue<N, M, L>,
        sender: &mut Sender<N, M, L>,
    ) -> bool
        ensures ended { self.new.line.ended ≡ self.old.line.ended }
        ensures sender { sender.new ≡ sender.old }
        ensures brought { IsFalse result → AreBrought (ended_with self.new.line sender.old) [] }
        // So all are soon received: each is of an arc that was out.
        ensures fewer { IsTrue result → length self.new.book.frontier.out < length self.old.book.frontier.out }
    {
        let Some(posting) = self.drain.pop(rt, queue, sender) else {
            return false;
        };
        let (judged, claim) = posting.open();
        self.keeper.settle(claim);
        self.core.apply(judged);
        true
    }

    /// Takes the seats back, whose workers have ended, with what each put into the line, and gives their shares in one.
    pub(crate) fn end_all(
        &mut self,
        queue: &Queue<N, M, L>,
        seats: Vec<Seat<N, M, L>>,
    ) -> Share<TakesOf<M>>
        requires some { 0 < vec_len seats }
        ensures ended { self.new.line.ended ≡ map sent_in seats.items ++ self.old.line.ended }
        ensures takes { result.amount ≡ sum_by (λ s. s.takes) seats.items }
        ensures parts { result.parts ≡ vec_len seats }
    {
        let mut rest = seats;
        let Seat {
            mut takes,
            sender,
            ..
        } = rest.pop().unwrap();
        self.drain.end(queue, sender);
        'seats: while let Some(seat) = rest.pop() {
            takes.merge(seat.takes);
            self.drain.end(queue, seat.sender);
        }
        takes
    }
}
