//! The rule of the claims, and the kinds of step that keep it.

use crate::known::Known;
use crate::making::Making;
use atomic_table::{Join, Play, Seat, Split, Table, TableRule};
use std::alloc::Global;
use std::marker::PhantomData;

/// A table of one word, which stays as it is: only what the seats know counts.
pub(crate) type ClaimTable = Table<(), Known, (), Rule, Global>;

/// A seat of it.
pub(crate) type ClaimSeat = Seat<(), Known>;

/// One seat is the keeper's, and each claim stands in its list.
pub(crate) struct Rule;

impl TableRule<(), Known, ()> for Rule {
    ghost use Rattle.sbpl_claims.specs.Kept.{IsKept};
    ghost use Rattle.sbpl_claims.specs.Steps.{none_made};

    ghost holds = { λ _ s. IsKept s.views };

    ghost first = { λ _. none_made };
}

/// A claim on the next ticket is split off the keeper's seat.
pub(crate) struct Made<J: Making> {
    of: PhantomData<J>,
}

impl<J: Making> Split<Known> for Made<J> {
    ghost use Rattle.sbpl_claims.specs.Steps.{claim_made, made};

    ghost left = { made J.state J.arc };

    ghost right = { claim_made J.state J.arc };
}

/// A claim is joined into the keeper's seat, and leaves a seat that knows nothing.
pub(crate) struct Joined;

impl Join<Known> for Joined {
    ghost use Rattle.sbpl_claims.specs.declared.known.Known.TheVariants.{Nothing};
    ghost use Rattle.sbpl_claims.specs.Steps.{joined};

    ghost both = { joined };

    ghost spent = { Nothing };
}

/// A load by the keeper's seat shows that the ticket of the joined claim is out, and takes it off those that are.
pub(crate) struct Settled;

impl Play<(), Known> for Settled {
    ghost use Rattle.sbpl_claims.specs.Steps.{IsSettled};

    ghost then = { λ _ before _ after. IsSettled before after };
}
