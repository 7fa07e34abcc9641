//! Claims.

use crate::Naming;
use crate::rule::ClaimSeat;
use std::marker::{Model, PhantomData};

/// Shows the holder of the lock that a ticket is out, of which state and which arc. It cannot be copied; one that is dropped is
/// lost, and its ticket stays out. It takes no memory.
#[derive(Drop)]
pub struct Claim<M: Naming> {
    pub(crate) seat: ClaimSeat,
    pub(crate) of: PhantomData<M>,
}

impl<M: Naming> Model for Claim<M> {
    ghost use Rattle.std.specs.Prelude.{◌≡◌, []};
    ghost use Rattle.sbpl_frontier_rules.specs.declared.leg.Leg.{Leg};
    ghost use Rattle.sbpl_claims.specs.declared.known.Known.TheVariants.{One};
    ghost use Rattle.sbpl_claims.specs.Known.{leg_of};

    ghost Value = { Leg };

    ghost view = { λ a. leg_of a.seat.me.0 };

    ghost invariant = { λ a. (a.seat.table_id ≡ M.table) × (a.seat.me ≡ (One (leg_of a.seat.me.0), [])) };
}
