//! Notes.

use crate::rule::CellPass;
use std::marker::Model;

/// What was published when it was made, for a reader that is to see no less. Contracts see it as its board and the greatest number
/// that was published then, or 0.
#[derive(Drop)]
pub struct Note {
    pub(crate) pass: CellPass,
}

impl Model for Note {
    ghost use Rattle.std.specs.Prelude.{◌≡◌, []};
    ghost use Rattle.crossbeam_utils.specs.Seq.{cell_view};
    ghost use Rattle.sbpl_incumbent.specs.Views.{Noting};
    ghost use Rattle.sbpl_incumbent.specs.Known.{as_note, number_of};

    ghost Value = { Noting };

    ghost view = { λ a. record { board = a.pass.table_id; number = number_of (cell_view a.pass) } };

    ghost invariant = { λ a. (cell_view a.pass ≡ as_note (cell_view a.pass)) × (a.pass.me.1 ≡ []) };
}
