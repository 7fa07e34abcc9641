//! The second name of a pass.

use sbpl_postings::Naming;
use std::marker::Brand;

/// What the seats, the claims and the frontier of one pass have in common besides its name: the table of the claims, the ledger of
/// the arcs that were taken, and into how many parts it is cut, one for each seat.
pub trait Second: Naming {
    ghost use Rattle.std.specs.Prelude.{ℕ};

    ghost takes: { ℕ };

    ghost parts: { ℕ };
}

impl Second for Brand {
    ghost takes = { 0 };

    ghost parts = { 0 };
}
