//! The steps of the queue, each over a pass.

ghost use Rattle.std.specs.Prelude.{◌≡◌, ◌<◌, [], IfErr, IfSome, IsNone, OnOk, length};
ghost use Rattle.crossbeam_queue.specs.Passes.{IsPassOf, view};
ghost use Rattle.sbpl_postings.specs.Kept.{AreBrought};
ghost use Rattle.sbpl_postings.specs.Known.{drained_of, sent_of, whole};
ghost use Rattle.sbpl_postings.specs.Posts.{post_of};
ghost use Rattle.sbpl_postings.specs.Steps.{ended_with, joined, popped, pushed, recalled, seated, sender_made, sender_recalled};
ghost use Rattle.sbpl_postings.specs.declared.known.Known.TheVariants.{One};

use crate::Posting;
use crate::rule::{Ended, Popped, PostingPass, Postings, Pushed, Recalled, Seated, Spared};
use sbpl_claims::Naming;
use sbpl_frontier_core::Pass;
use std::mem;
use std::sync::Wait;

/// Splits a sender's pass off the drain's.
pub(crate) fn split_sender<N: Pass, M: Naming>(
    postings: &Postings<N, M>,
    drain: &mut PostingPass<N, M>,
) -> PostingPass<N, M>
    requires pass { IsPassOf postings.now drain.old }
    requires whole { view drain.old ≡ whole (drained_of (view drain.old)) }
    ensures table { drain.new.table_id ≡ drain.old.table_id }
    ensures slots { drain.new.me.1 ≡ [] }
    ensures drain { view drain.new ≡ seated (view drain.old) }
    ensures pass { IsPassOf postings.now result }
    ensures sender { view result ≡ sender_made (view drain.old) }
{
    postings.another::<Seated>(drain)
}

/// Puts a posting in.
pub(crate) fn push_posting<R: Wait, N: Pass, M: Naming>(
    rt: &R,
    postings: &Postings<N, M>,
    sender: &mut PostingPass<N, M>,
    posting: Posting<N, M>,
) -> Result<(), Posting<N, M>>
    requires pass { IsPassOf postings.now sender.old }
    requires one { view sender.old ≡ One (sent_of (view sender.old)) }
    requires seat { (post_of posting).seat ≡ (sent_of (view sender.old)).seat }
    ensures table { sender.new.table_id ≡ sender.old.table_id }
    ensures slots { sender.new.me.1 ≡ [] }
    ensures pushed { OnOk result (view sender.new ≡ pushed (view sender.old) (post_of posting)) }
    ensures full { IfErr result (λ back. (back ≡ posting) × (view sender.new ≡ view sender.old)) }
{
    postings.push_as::<Pushed, R>(rt, sender, posting)
}

/// Takes a posting out.
fn pop_posting<R: Wait, N: Pass, M: Naming>(
    rt: &R,
    postings: &Postings<N, M>,
    drain: &mut PostingPass<N, M>,
) -> Option<Posting<N, M>>
    requires pass { IsPassOf postings.now drain.old }
    requires whole { view drain.old ≡ whole (drained_of (view drain.old)) }
    ensures table { drain.new.table_id ≡ drain.old.table_id }
    ensures slots { drain.new.me.1 ≡ [] }
    ensures popped { IfSome result (λ posting. view drain.new ≡ popped (view drain.old) (post_of posting)) }
    ensures none { IsNone result → (view drain.new ≡ view drain.old) × AreBrought (drained_of (view drain.old)) [] }
{
    postings.pop_as::<Popped, R>(rt, drain)
}

/// Takes a posting out while a sender stands by. Where there is none, all that it put in has come, as all that the senders
/// that have ended put in. For the time of the call the sender has ended.
pub(crate) fn pop_beside<R: Wait, N: Pass, M: Naming>(
    rt: &R,
    postings: &Postings<N, M>,
    drain: &mut PostingPass<N, M>,
    sender: &mut PostingPass<N, M>,
) -> Option<Posting<N, M>>
    requires pass { IsPassOf postings.now drain.old }
    requires sender_pass { IsPassOf postings.now sender.old }
    requires whole { view drain.old ≡ whole (drained_of (view drain.old)) }
    requires one { view sender.old ≡ One (sent_of (view sender.old)) }
    ensures table { drain.new.table_id ≡ drain.old.table_id }
    ensures slots { drain.new.me.1 ≡ [] }
    ensures sender_table { sender.new.table_id ≡ sender.old.table_id }
    ensures sender_slots { sender.new.me.1 ≡ [] }
    ensures sender { view sender.new ≡ view sender.old }
    ensures popped { IfSome result (λ posting. view drain.new ≡ popped (view drain.old) (post_of posting)) }
    ensures none { IsNone result → (view drain.new ≡ view drain.old)
        × AreBrought (ended_with (drained_of (view drain.old)) (sent_of (view sender.old))) [] }
{
    let spare = split_spare(postings, drain);
    absorb_sender(postings, drain, mem::replace(sender, spare));
    let posting = pop_posting(rt, postings, drain);
    *sender = recall_sender(postings, drain);
    posting
}

/// Splits a pass that knows nothing off the drain's.
fn split_spare<N: Pass, M: Naming>(
    postings: &Postings<N, M>,
    drain: &mut PostingPass<N, M>,
) -> PostingPass<N, M>
    requires pass { IsPassOf postings.now drain.old }
    requires whole { view drain.old ≡ whole (drained_of (view drain.old)) }
    ensures table { drain.new.table_id ≡ drain.old.table_id }
    ensures slots { drain.new.me.1 ≡ [] }
    ensures drain { view drain.new ≡ view drain.old }
    ensures spare { IsPassOf postings.now result }
{
    postings.another::<Spared>(drain)
}

/// Splits the pass of the sender that ended last off the drain's.
fn recall_sender<N: Pass, M: Naming>(
    postings: &Postings<N, M>,
    drain: &mut PostingPass<N, M>,
) -> PostingPass<N, M>
    requires pass { IsPassOf postings.now drain.old }
    requires whole { view drain.old ≡ whole (drained_of (view drain.old)) }
    requires some { 0 < length (drained_of (view drain.old)).ended }
    ensures table { drain.new.table_id ≡ drain.old.table_id }
    ensures slots { drain.new.me.1 ≡ [] }
    ensures drain { view drain.new ≡ recalled (view drain.old) }
    ensures pass { IsPassOf postings.now result }
    ensures sender { view result ≡ sender_recalled (view drain.old) }
{
    postings.another::<Recalled>(drain)
}

/// Joins a sender's pass into the drain's.
pub(crate) fn absorb_sender<N: Pass, M: Naming>(
    postings: &Postings<N, M>,
    drain: &mut PostingPass<N, M>,
    sender: PostingPass<N, M>,
)
    requires pass { IsPassOf postings.now drain.old }
    requires sender_pass { IsPassOf postings.now sender }
    requires whole { view drain.old ≡ whole (drained_of (view drain.old)) }
    requires one { view sender ≡ One (sent_of (view sender)) }
    ensures table { drain.new.table_id ≡ drain.old.table_id }
    ensures slots { drain.new.me.1 ≡ [] }
    ensures joined { view drain.new ≡ joined (view drain.old) (view sender) }
{
    postings.absorb::<Ended>(drain, sender);
}
