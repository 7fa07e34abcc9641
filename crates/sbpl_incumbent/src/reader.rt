//! Readers.

use crate::rule::CellPass;
use std::marker::Model;

/// The right of a thread to read a board. Contracts see it as its board, what its loads found, oldest first, and the
/// greatest number that it was told.
#[derive(Drop)]
pub struct Reader {
    pub(crate) pass: CellPass,
}

impl Model for Reader {
    ghost use Rattle.std.specs.Prelude.{◌≡◌};
    ghost use Rattle.crossbeam_utils.specs.Seq.{cell_view};
    ghost use Rattle.sbpl_incumbent.specs.Views.{Reading};
    ghost use Rattle.sbpl_incumbent.specs.Known.{as_reader, got_of, told_of};

    ghost Value = { Reading };

    ghost view = { λ a. record { board = a.pass.table_id; got = got_of (cell_view a.pass); told = told_of (cell_view a.pass) } };

    ghost invariant = { λ a. cell_view a.pass ≡ as_reader (cell_view a.pass) };
}
