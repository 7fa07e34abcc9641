//! The keeper of the claims.

ghost use Rattle.std.specs.Prelude.{◌≡◌, ◌+◌, [], ◌∷◌, ◌++◌};
ghost use Rattle.std.specs.List.{Contains};
ghost use Rattle.sbpl_frontier_rules.specs.Frontier.{without};

use crate::making::Making;
use crate::rule::{ClaimSeat, ClaimTable};
use crate::steps::{join_claim, settle_claim, split_claim};
use crate::{Claim, Naming};
use std::marker::{Brand, Model, PhantomData};

/// What the holder of the lock knows of the tickets that are out. Contracts see it as the arcs that are out, in the order in which
/// they went out, and the next ticket number.
#[derive(Drop)]
pub struct Keeper<M: Naming> {
    pub(crate) table: ClaimTable,
    pub(crate) seat: ClaimSeat,
    pub(crate) of: PhantomData<M>,
}

impl<M: Naming> Model for Keeper<M> {
    ghost use Rattle.std.specs.Prelude.{◌≡◌, [], None};
    ghost use Rattle.sbpl_claims.specs.Standing.{Standing};
    ghost use Rattle.sbpl_claims.specs.Known.{standing_of, whole};

    ghost Value = { Standing };

    ghost view = { λ a. standing_of a.seat.me.0 };

    ghost invariant = { λ a. (a.table.shared.table_id ≡ M.table) × (M.table.words ≡ 1) × (a.seat.table_id ≡ M.table)
        × (a.seat.me ≡ (whole (standing_of a.seat.me.0) None, [])) };
}

impl<M: Naming> Keeper<M> {
    /// A claim on the next ticket, of this arc of a state.
    pub fn make(&mut self, state: u32, arc: u32) -> Claim<M>
        ensures claim { result ≡ record { ticket = self.old.next; state = state; arc = arc } }
        ensures out { self.new.out ≡ self.old.out ++ result ∷ [] }
        ensures next { self.new.next ≡ self.old.next + 1 }
    {
        make_as::<Brand, M>(self, state, arc)
    }

    /// Takes a claim back, which shows that its ticket is out, of its state and its arc. Then it is no longer out.
    pub fn settle(&mut self, claim: Claim<M>)
        ensures stood { Contains self.old.out claim }
        ensures out { self.new.out ≡ without claim.ticket self.old.out }
        ensures next { self.new.next ≡ self.old.next }
    {
        let Claim { seat, of: _ } = claim;
        join_claim(&self.table, &mut self.seat, seat);
        settle_claim(&self.table, &mut self.seat);
    }
}

/// The same, where the arc has a name.
fn make_as<J: Making, M: Naming>(keeper: &mut Keeper<M>, state: u32, arc: u32) -> Claim<M>
    requires state { state ≡ J.state }
    requires arc { arc ≡ J.arc }
    ensures claim { result ≡ record { ticket = keeper.old.next; state = state; arc = arc } }
    ensures out { keeper.new.out ≡ keeper.old.out ++ result ∷ [] }
    ensures next { keeper.new.next ≡ keeper.old.next + 1 }
{
    Claim {
        seat: split_claim::<J>(&keeper.table, &mut keeper.seat),
        of: PhantomData,
    }
}
