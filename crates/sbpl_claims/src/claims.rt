//! The table of the claims before it has a name.

ghost use Rattle.std.specs.Prelude.{◌≡◌, []};

use crate::rule::{ClaimSeat, ClaimTable};
use crate::{Keeper, Naming};
use sbpl_frontier_rules::NoMemory;
use std::alloc::Global;
use std::marker::{Model, PhantomData};

/// The table of the claims with the keeper's seat, before they have a name: no ticket is out, and the next number is 0. Contracts
/// see it as the table that it is.
#[derive(Drop)]
pub struct Claims {
    table: ClaimTable,
    seat: ClaimSeat,
}

impl Model for Claims {
    ghost use Rattle.std.specs.Prelude.{◌≡◌, []};
    ghost use Rattle.atomic_table.specs.Seated.{TableId, table_id_coded};
    ghost use Rattle.sbpl_claims.specs.Steps.{none_made};

    ghost Value = { TableId };

    ghost coded = { table_id_coded };

    ghost view = { λ a. a.table.shared.table_id };

    ghost invariant = { λ a. (a.table.shared.table_id.words ≡ 1) × (a.seat.table_id ≡ a.table.shared.table_id)
        × (a.seat.me ≡ (none_made, [])) };
}

impl Claims {
    /// A table of its own. The one error is that memory ran out, and no other call takes memory.
    pub fn new(alloc: Global) -> Result<Claims, NoMemory> {
        let (table, seat) = ClaimTable::of_words(alloc, &[0], &())?;
        Ok(Claims { table, seat })
    }

    /// Gives the keeper under a name.
    pub fn named<M: Naming>(self) -> Keeper<M>
        requires name { self ≡ M.table }
        ensures out { result.out ≡ [] }
        ensures next { result.next ≡ 0 }
    {
        let Claims { table, seat } = self;
        Keeper {
            table,
            seat,
            of: PhantomData,
        }
    }
}
