//! A line before it has a name.

ghost use Rattle.std.specs.Prelude.{◌≡◌, ◌≤◌, ◌<◌, IfOk};
ghost use Rattle.sbpl_postings.specs.Steps.{nothing_came};

use crate::rule::{PostingPass, Postings};
use crate::{Drain, Lined, Posting, Queue};
use sbpl_claims::{Naming, NoMemory};
use sbpl_frontier_core::Pass;
use std::alloc::Global;
use std::marker::{Model, PhantomData};

/// A line with its drain, before it has a name: no sender was made, and nothing was put in. Contracts see it as the table
/// that it is made of.
#[derive(Drop)]
pub struct UnnamedQueue<N: Pass, M: Naming> {
    postings: Postings<N, M>,
    pass: PostingPass<N, M>,
}

impl<N: Pass, M: Naming> Model for UnnamedQueue<N, M> {
    ghost use Rattle.std.specs.Prelude.{◌≡◌, []};
    ghost use Rattle.atomic_table.specs.Seated.{TableId, table_id_coded};
    ghost use Rattle.crossbeam_queue.specs.Passes.{view as known_by};
    ghost use Rattle.sbpl_postings.specs.Lines.{line_of};
    ghost use Rattle.sbpl_postings.specs.Steps.{none_made};

    ghost Value = { TableId };

    ghost coded = { table_id_coded };

    ghost view = { λ a. line_of a.postings };

    ghost invariant = { λ a. (a.pass.table_id ≡ line_of a.postings) × (a.pass.me.1 ≡ []) × (known_by a.pass ≡ none_made) };
}

impl<N: Pass, M: Naming> UnnamedQueue<N, M> {
    /// A line of its own, which holds as many postings as there are seats, 1 to 64. The one error is that memory ran out, and no
    /// other call takes memory.
    pub fn new(alloc: Global, seats: u32) -> Result<UnnamedQueue<N, M>, NoMemory>
        requires some { 1 ≤ seats }
        requires few { seats ≤ 64 }
        ensures room { IfOk result (λ line. line.slots ≡ seats) }
    {
        let (postings, pass) = Postings::<N, M>::ruled(alloc, seats as usize)?;
        Ok(UnnamedQueue { postings, pass })
    }

    /// Gives the queue and its drain under a name.
    pub fn named<L: Lined>(self) -> (Queue<N, M, L>, Drain<N, M, L>)
        requires name { self ≡ L.line }
        ensures drain { result.1 ≡ nothing_came }
    {
        let UnnamedQueue { postings, pass } = self;
        let queue = Queue {
            postings,
            of: PhantomData,
        };
        let drain = Drain {
            pass,
            of: PhantomData,
        };
        (queue, drain)
    }
}
