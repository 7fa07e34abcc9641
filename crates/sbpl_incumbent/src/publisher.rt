//! Publishers.

use crate::rule::CellPass;
use std::marker::Model;

/// The right to publish on a board. There is one for each board. Contracts see it as its board and what was published,
/// oldest first.
#[derive(Drop)]
pub struct Publisher {
    pub(crate) pass: CellPass,
    /// How many entries were published.
    pub(crate) count: u64,
}

impl Model for Publisher {
    ghost use Rattle.std.specs.Prelude.{◌≡◌, length};
    ghost use Rattle.crossbeam_utils.specs.Seq.{cell_view};
    ghost use Rattle.sbpl_incumbent.specs.Views.{Publishing};
    ghost use Rattle.sbpl_incumbent.specs.Known.{as_publisher, published_of};

    ghost Value = { Publishing };

    ghost view = { λ a. record { board = a.pass.table_id; published = published_of (cell_view a.pass) } };

    ghost invariant = { λ a. (cell_view a.pass ≡ as_publisher (cell_view a.pass))
        × (a.count ≡ length (published_of (cell_view a.pass))) };
}
