//! The rule of the queue, and the kinds of step that keep it.

use crate::Posting;
use crate::known::Known;
use crossbeam_queue::protocol::{Join, Lesson, Outcome, Protocol, Split};
use crossbeam_queue::{Pass as PassOf, RuledArrayQueue};
use sbpl_claims::Naming;
use sbpl_frontier_core::Pass;

/// A queue of postings.
pub(crate) type Postings<N, M> = RuledArrayQueue<Posting<N, M>, Known, Rule>;

/// A pass of it.
pub(crate) type PostingPass<N, M> = PassOf<Posting<N, M>, Known>;

/// For each sender, what was taken out and then what the queue holds is what it put in.
pub(crate) struct Rule;

impl<N: Pass, M: Naming> Protocol<Posting<N, M>, Known> for Rule {
    ghost use Rattle.std.specs.Prelude.{map};
    ghost use Rattle.sbpl_postings.specs.Kept.{IsKept};
    ghost use Rattle.sbpl_postings.specs.Posts.{post_of};
    ghost use Rattle.sbpl_postings.specs.Steps.{none_made};

    ghost holds = { λ items views. IsKept (map post_of items) views };

    ghost first = { none_made };
}

/// A sender puts a posting in. Where the queue is full nothing is learnt.
pub(crate) struct Pushed;

impl<N: Pass, M: Naming> Outcome<Posting<N, M>, Known> for Pushed {
    ghost use Rattle.std.specs.Prelude.{◌≡◌};
    ghost use Rattle.sbpl_postings.specs.Posts.{post_of};
    ghost use Rattle.sbpl_postings.specs.Steps.{pushed};

    ghost then = { λ v x w. w ≡ pushed v (post_of x) };
}

impl<N: Pass, M: Naming> Lesson<Posting<N, M>, Known> for Pushed {
    ghost use Rattle.std.specs.Prelude.{⊤};

    ghost fact = { λ v items. ⊤ };
}

/// The drain takes a posting out. Where the queue is empty, all that the ended senders put in has come.
pub(crate) struct Popped;

impl<N: Pass, M: Naming> Outcome<Posting<N, M>, Known> for Popped {
    ghost use Rattle.std.specs.Prelude.{◌≡◌};
    ghost use Rattle.sbpl_postings.specs.Posts.{post_of};
    ghost use Rattle.sbpl_postings.specs.Steps.{popped};

    ghost then = { λ v x w. w ≡ popped v (post_of x) };
}

impl<N: Pass, M: Naming> Lesson<Posting<N, M>, Known> for Popped {
    ghost use Rattle.std.specs.Prelude.{map};
    ghost use Rattle.sbpl_postings.specs.Kept.{AreBrought};
    ghost use Rattle.sbpl_postings.specs.Known.{drained_of};
    ghost use Rattle.sbpl_postings.specs.Posts.{post_of};

    ghost fact = { λ v items. AreBrought (drained_of v) (map post_of items) };
}

/// A sender is made, with the next seat.
pub(crate) struct Seated;

impl Split<Known> for Seated {
    ghost use Rattle.sbpl_postings.specs.Steps.{seated, sender_made};

    ghost left = { seated };

    ghost right = { sender_made };
}

/// A pass that knows nothing is made, for the place of a sender's.
pub(crate) struct Spared;

impl Split<Known> for Spared {
    ghost use Rattle.sbpl_postings.specs.declared.known.Known.TheVariants.{Nothing};

    ghost left = { λ v. v };

    ghost right = { λ _. Nothing };
}

/// The sender that ended last goes on.
pub(crate) struct Recalled;

impl Split<Known> for Recalled {
    ghost use Rattle.sbpl_postings.specs.Steps.{recalled, sender_recalled};

    ghost left = { recalled };

    ghost right = { sender_recalled };
}

/// A sender has ended, and the drain keeps what it put in.
pub(crate) struct Ended;

impl Join<Known> for Ended {
    ghost use Rattle.sbpl_postings.specs.declared.known.Known.TheVariants.{Nothing};
    ghost use Rattle.sbpl_postings.specs.Steps.{joined};

    ghost both = { joined };

    ghost spent = { Nothing };
}
