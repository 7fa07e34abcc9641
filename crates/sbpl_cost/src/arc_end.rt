//! The headings at the two ends of an arc.

ghost use Rattle.std.specs.Prelude.{◌≡◌};
ghost use Rattle.sbpl_cost.specs.Ends.{heading_at};

use sbpl_sweep::Prim;
use sbpl_terrain::ArcEnd;

/// The heading at an end of the motion by a primitive.
pub(crate) fn heading_at(end: ArcEnd, prim: &Prim) -> u32
    ensures heading { result ≡ heading_at end prim.now }
{
    match end {
        ArcEnd::Source => prim.from,
        ArcEnd::Head => prim.to,
    }
}
