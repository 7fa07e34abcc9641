//! A frontier that workers share.

ghost use Rattle.std.specs.Prelude.{◌≡◌, ◌≤◌, [], All, IfErr, IfOk, OnErr, length, sum_by, vec_len};
ghost use Rattle.sbpl_postings.specs.sbpl_frontier_rules.Journal.{posts_in, takes_in};
ghost use Rattle.sbpl_postings.specs.sbpl_frontier_core.Seats.{AreTakenBelow};
ghost use Rattle.sbpl_postings.specs.Posts.{post_of};
ghost use Rattle.sbpl_frontier.specs.Come.{HaveCome};
ghost use Rattle.sbpl_frontier.specs.Tally.{fresh_seats, posted};
ghost use Rattle.sbpl_frontier.specs.Turns.{Gives, Shows, ShowsOwn};

use crate::ledgers::TakesOf;
use crate::locked::Locked;
use crate::seat::deal;
use crate::waiters::Waiters;
use crate::{Seat, Second, Turn};
use sbpl_postings::{
    Claim, Claims, CoreOf, Graph, Guide, Judged, Lined, NoMemory, Pass, Past, Posting, Queue,
    UnnamedQueue,
};
use std::alloc::Global;
use std::sync::ledger::Blank;
use std::sync::{Mutex, Wait};

/// The frontier of one pass, guarded by a lock, and the line by which judgements come back to it: workers share it by reference.
/// Each sits in a seat of its own.
#[derive(Drop)]
pub struct Shared<'g, G: Graph, H: Guide, N: Pass, U: Past, M: Second, L: Lined> {
    lock: Mutex<Locked<'g, G, H, N, U, M, L>>,
    queue: Queue<N, M, L>,
    waiters: Waiters,
}

impl<'g, G: Graph, H: Guide, N: Pass, U: Past, M: Second, L: Lined> Shared<'g, G, H, N, U, M, L> {
    /// Shares a core whose journal is empty among 1 to 64 seats, which have the numbers from 0 upwards. The one error is that
    /// memory ran out, and then the core comes back.
    pub fn new(
        alloc: Global,
        core: CoreOf<'g, G, H, N, U>,
        seats: u32,
        takes: Blank,
        line: UnnamedQueue<N, M>,
        claims: Claims,
    ) -> Result<(Shared<'g, G, H, N, U, M, L>, Vec<Seat<N, M, L>>), CoreOf<'g, G, H, N, U>>
        requires some { 1 ≤ seats }
        requires few { seats ≤ 64 }
        requires empty { core.journal ≡ [] }
        requires parts { M.parts ≡ seats }
        requires takes { (takes.name ≡ M.takes) × (takes.parts ≡ M.parts) }
        requires line { line ≡ L.line }
        requires room { line.slots ≡ seats }
        requires claims { claims ≡ M.table }
        ensures all { IfOk result (λ r. vec_len r.1 ≡ M.parts) }
        ensures fresh { IfOk result (λ r. r.1.items ≡ fresh_seats seats) }
        ensures none { IfOk result (λ r. All (λ s. (s.takes ≡ 0) × (s.posts ≡ [])) r.1.items) }
        ensures back { IfErr result (λ back. back ≡ core.entry) }
    {
        let _out = core.out();
        let (takes, all_takes) = takes.open::<TakesOf<M>>();
        let (queue, mut drain) = line.named::<L>();
        let Ok(places) = deal(alloc, seats, all_takes, &queue, &mut drain) else {
            return Err(core);
        };
        let locked = Locked {
            core,
            keeper: claims.named::<M>(),
            takes,
            drain,
        };
        let shared = Shared {
            lock: Mutex::new(locked),
            queue,
            waiters: Waiters::new(seats as u64),
        };
        Ok((shared, places))
    }

    /// Applies all judgements that the line holds, and then tells the worker in a seat what to do. The one error is that memory ran
    /// out, and then no arc was taken.
    pub fn next<R: Wait>(&self, rt: &R, seat: &mut Seat<N, M, L>) -> Result<Turn<N, U, M>, NoMemory>
        ensures gives { IfOk result (λ turn. Gives seat.old turn seat.new) }
        ensures same { OnErr result (seat.new ≡ seat.old) }
        ensures shows { IfOk result (λ turn. Shows N.query N.opening N.counts turn) }
        // No worker is told that there is nothing to do while a judgement that it brought itself waits in the line.
        ensures own { IfOk result (λ turn. ShowsOwn seat.old turn) }
    {
        let mut locked = self.lock.lock(rt);
        locked.receive_all(rt, &self.queue, &mut seat.sender);
        locked.next(seat)
    }

    /// Brings a judgement back, with the claim on its ticket: whoever next asks for an arc applies it. It takes no memory,
    /// and no lock where the line has room.
    pub fn post<R: Wait>(
        &self,
        rt: &R,
        seat: &mut Seat<N, M, L>,
        judged: Judged<N>,
        claim: Claim<M>,
    )
        requires same { claim ≡ record { ticket = judged.number; state = judged.state; arc = judged.arc } }
        ensures posted { seat.new ≡ posted seat.old judged.number judged.cost }
    {
        let posting = Posting::new(judged, claim, seat.number);
        if let Err(posting) = self.queue.push(rt, &mut seat.sender, posting) {
            self.post_again(rt, seat, posting);
        }
        self.waiters.note();
    }

    /// Puts a posting into a line that was full. Until it is in, what the line holds is applied; the lock is held meanwhile.
    fn post_again<R: Wait>(&self, rt: &R, seat: &mut Seat<N, M, L>, posting: Posting<N, M>)
        requires seat { (post_of posting).seat ≡ seat.old.number }
        ensures posted { seat.new ≡ posted seat.old (post_of posting).ticket (post_of posting).cost }
    {
        let mut locked = self.lock.lock(rt);
        let mut posting = posting;
        'fulls: for _ in rt.forever() {
            locked.receive_all(rt, &self.queue, &mut seat.sender);
            match self.queue.push(rt, &mut seat.sender, posting) {
                Ok(()) => return,
                Err(back) => posting = back,
            }
        }
        unreachable!()
    }

    /// The core, once each arc that was taken has its judgement posted: no arc is out, and what came back of each worker is what it
    /// posted.
    pub fn finish<R: Wait>(self, rt: &R, seats: Vec<Seat<N, M, L>>) -> CoreOf<'g, G, H, N, U>
        requires all { vec_len seats ≡ M.parts }
        requires even { sum_by (λ s. length s.posts) seats.items ≡ sum_by (λ s. s.takes) seats.items }
        ensures out { result.frontier.out ≡ [] }
        ensures takes { takes_in result.journal ≡ sum_by (λ s. s.takes) seats.items }
        ensures posts { posts_in result.journal ≡ sum_by (λ s. length s.posts) seats.items }
        ensures come { HaveCome result.journal seats.items }
        ensures told { AreTakenBelow M.parts result.journal }
    {
        let Shared {
            lock,
            queue,
            waiters: _,
        } = self;
        let mut locked = lock.into_inner();
        let mut all_takes = locked.end_all(&queue, seats);
        locked.receive_rest(rt, &queue);
        let Locked {
            core,
            mut takes,
            ..
        } = locked;
        let _seen = core.seen();
        takes.audit(&mut all_takes);
        core
    }

    /// How many judgements came back so far. It tells `wait` from when on to wait.
    pub fn moment(&self) -> u64 {
        self.waiters.changes()
    }

    /// Returns once a judgement came back after this moment, or where this worker is woken, and may return for no reason. Where
    /// `most` others are awake, it returns only where this worker is woken.
    pub fn wait<R: Wait>(&self, rt: &R, moment: u64, most: u64) {
        self.waiters.wait(rt, moment, most);
    }

    /// Wakes one worker that waits, where there is one and fewer than `most` are awake: there may be an arc for it.
    pub fn wake_one(&self, most: u64) {
        self.waiters.wake_one(most);
    }

    /// Wakes every worker that waits. From then on none waits.
    pub fn wake_all(&self) {
        self.waiters.wake_all();
    }
}
