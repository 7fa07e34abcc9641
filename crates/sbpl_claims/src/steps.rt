//! The steps of the claims' table, each over a seat.

ghost use Rattle.std.specs.Prelude.{◌≡◌, ◌<◌, [], None, Some};
ghost use Rattle.std.specs.List.{Contains};
ghost use Rattle.sbpl_claims.specs.Known.{leg_of, standing_of, whole};
ghost use Rattle.sbpl_claims.specs.Steps.{claim_made, made, settled};
ghost use Rattle.sbpl_claims.specs.declared.known.Known.TheVariants.{One};

use crate::making::Making;
use crate::rule::{ClaimSeat, ClaimTable, Joined, Made, Settled};

/// Splits a claim on the next ticket off the keeper's seat.
pub(crate) fn split_claim<J: Making>(table: &ClaimTable, keeper: &mut ClaimSeat) -> ClaimSeat
    requires table { keeper.old.table_id ≡ table.now.shared.table_id }
    requires word { 0 < table.now.shared.table_id.words }
    requires whole { keeper.old.me ≡ (whole (standing_of keeper.old.me.0) None, []) }
    ensures table { keeper.new.table_id ≡ keeper.old.table_id }
    ensures claim_table { result.table_id ≡ keeper.old.table_id }
    ensures keeper { keeper.new.me ≡ (made J.state J.arc keeper.old.me.0, []) }
    ensures claim { result.me ≡ (claim_made J.state J.arc keeper.old.me.0, []) }
{
    table.shared.split_seat::<Made<J>>(keeper)
}

/// Joins a claim into the keeper's seat, which has none.
pub(crate) fn join_claim(table: &ClaimTable, keeper: &mut ClaimSeat, claim: ClaimSeat)
    requires table { keeper.old.table_id ≡ table.now.shared.table_id }
    requires claim_table { claim.table_id ≡ table.now.shared.table_id }
    requires word { 0 < table.now.shared.table_id.words }
    requires whole { keeper.old.me ≡ (whole (standing_of keeper.old.me.0) None, []) }
    requires one { claim.me ≡ (One (leg_of claim.me.0), []) }
    ensures table { keeper.new.table_id ≡ keeper.old.table_id }
    ensures joined { keeper.new.me ≡ (whole (standing_of keeper.old.me.0) (Some (leg_of claim.me.0)), []) }
{
    table.shared.join_seat::<Joined>(keeper, claim);
}

/// Shows that the ticket of the joined claim is out, and takes it off those that are.
pub(crate) fn settle_claim(table: &ClaimTable, keeper: &mut ClaimSeat)
    requires table { keeper.old.table_id ≡ table.now.shared.table_id }
    requires word { 0 < table.now.shared.table_id.words }
    requires joined { keeper.old.me ≡ (whole (standing_of keeper.old.me.0) (Some (leg_of keeper.old.me.0)), []) }
    ensures table { keeper.new.table_id ≡ keeper.old.table_id }
    ensures stood { Contains (standing_of keeper.old.me.0).out (leg_of keeper.old.me.0) }
    ensures keeper { keeper.new.me ≡ (settled keeper.old.me.0, []) }
{
    table.shared.load::<Settled>(keeper, 0);
}
