//! The name of a line.

use std::marker::Brand;

/// By which line the judgements of a pass come back. It stands in their types, and takes no memory.
pub trait Lined {
    ghost use Rattle.atomic_table.specs.Seated.{TableId};

    ghost line: { TableId };
}

impl Lined for Brand {
    ghost use Rattle.sbpl_claims.specs.Nowhere.{no_table};

    ghost line = { no_table };
}
