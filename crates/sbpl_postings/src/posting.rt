//! Judgements on their way back.

ghost use Rattle.std.specs.Prelude.{◌≡◌};

use sbpl_claims::{Claim, Naming};
use sbpl_frontier_core::{Judged, Pass};

/// A judgement on its way back, with the claim on its ticket and the seat of the worker that brings it. It cannot be copied.
#[derive(Drop)]
pub struct Posting<N: Pass, M: Naming> {
    pub(crate) judged: Judged<N>,
    pub(crate) claim: Claim<M>,
    pub(crate) seat: u32,
    pub ghost same: { claim ≡ record { ticket = judged.number; state = judged.state; arc = judged.arc } },
}
