//! How a posting is made and opened.

ghost use Rattle.std.specs.Prelude.{◌≡◌};
ghost use Rattle.sbpl_postings.specs.Posts.{post_of};

use crate::Posting;
use sbpl_claims::{Claim, Naming};
use sbpl_frontier_core::{Judged, Pass};

impl<N: Pass, M: Naming> Posting<N, M> {
    /// What a worker brings back.
    pub fn new(judged: Judged<N>, claim: Claim<M>, seat: u32) -> Posting<N, M>
        requires same { claim ≡ record { ticket = judged.number; state = judged.state; arc = judged.arc } }
        ensures post { post_of result ≡ record { seat = seat; ticket = judged.number; cost = judged.cost } }
    {
        Posting {
            judged,
            claim,
            seat,
        }
    }

    /// The judgement and the claim on its ticket.
    pub fn open(self) -> (Judged<N>, Claim<M>)
        ensures same { result.1 ≡ record { ticket = result.0.number; state = result.0.state; arc = result.0.arc } }
        ensures ticket { result.0.number ≡ (post_of self).ticket }
        ensures cost { result.0.cost ≡ (post_of self).cost }
    {
        let Posting {
            judged,
            claim,
            seat: _,
        } = self;
        (judged, claim)
    }
}
