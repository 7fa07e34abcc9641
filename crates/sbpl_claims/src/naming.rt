//! The name of a table of claims.

use std::marker::Brand;

/// Which table the claims of a pass are of. It stands in their types, and takes no memory.
pub trait Naming {
    ghost use Rattle.atomic_table.specs.Seated.{TableId};

    ghost table: { TableId };
}

impl Naming for Brand {
    ghost use Rattle.sbpl_claims.specs.Nowhere.{no_table};

    ghost table = { no_table };
}
