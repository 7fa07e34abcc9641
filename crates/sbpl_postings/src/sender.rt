//! Senders.

use crate::rule::PostingPass;
use crate::{Lined, Posting};
use sbpl_claims::Naming;
use sbpl_frontier_core::Pass;
use std::marker::{Model, PhantomData};

/// A worker's right to put judgements into the line, in the name of its seat. Contracts see it as the seat and what was put in. It
/// takes no memory.
#[derive(Drop)]
pub struct Sender<N: Pass, M: Naming, L: Lined> {
    pub(crate) pass: PostingPass<N, M>,
    pub(crate) of: PhantomData<L>,
}

impl<N: Pass, M: Naming, L: Lined> Model for Sender<N, M, L> {
    ghost use Rattle.std.specs.Prelude.{◌≡◌, []};
    ghost use Rattle.crossbeam_queue.specs.Passes.{view as known_by};
    ghost use Rattle.sbpl_postings.specs.Known.{sent_of};
    ghost use Rattle.sbpl_postings.specs.declared.post.Sent.{Sent};
    ghost use Rattle.sbpl_postings.specs.declared.known.Known.TheVariants.{One};

    ghost Value = { Sent };

    ghost view = { λ a. sent_of (known_by a.pass) };

    ghost invariant = { λ a. (a.pass.table_id ≡ L.line) × (a.pass.me.1 ≡ [])
        × (known_by a.pass ≡ One (sent_of (known_by a.pass))) };
}
