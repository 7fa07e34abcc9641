//! The line itself.

ghost use Rattle.std.specs.Prelude.{◌≡◌, IfErr, OnOk};
ghost use Rattle.sbpl_postings.specs.Posts.{post_of};
ghost use Rattle.sbpl_postings.specs.Steps.{sent_with};

use crate::rule::Postings;
use crate::steps::push_posting;
use crate::{Lined, Posting, Sender};
use sbpl_claims::Naming;
use sbpl_frontier_core::Pass;
use std::marker::{Model, PhantomData};
use std::sync::Wait;

/// A queue of postings, which workers share by reference.
#[derive(Drop)]
pub struct Queue<N: Pass, M: Naming, L: Lined> {
    pub(crate) postings: Postings<N, M>,
    pub(crate) of: PhantomData<L>,
}

impl<N: Pass, M: Naming, L: Lined> Model for Queue<N, M, L> {
    ghost use Rattle.std.specs.Prelude.{◌≡◌};
    ghost use Rattle.atomic_table.specs.Seated.{TableId, table_id_coded};
    ghost use Rattle.sbpl_postings.specs.Lines.{line_of};

    ghost Value = { TableId };

    ghost coded = { table_id_coded };

    ghost view = { λ a. line_of a.postings };

    ghost invariant = { λ a. line_of a.postings ≡ L.line };
}

impl<N: Pass, M: Naming, L: Lined> Queue<N, M, L> {
    /// Puts a posting of the sender's seat in. Where the queue is full the posting comes back. It takes no memory and no lock.
    pub fn push<R: Wait>(
        &self,
        rt: &R,
        sender: &mut Sender<N, M, L>,
        posting: Posting<N, M>,
    ) -> Result<(), Posting<N, M>>
        requires seat { (post_of posting).seat ≡ sender.old.seat }
        ensures pushed { OnOk result (sender.new ≡ sent_with sender.old (post_of posting)) }
        ensures full { IfErr result (λ back. (back ≡ posting) × (sender.new ≡ sender.old)) }
    {
        push_posting(rt, &self.postings, &mut sender.pass, posting)
    }
}
