//! What an asker saw.

use crate::{JournalOf, Pass, Past};
use std::marker::{Model, PhantomData};
use std::snapshot::Snapshot;

/// The journal that stood when an asker was answered. Contracts alone see it: it takes no memory, however long the journal is.
#[derive(Drop)]
pub struct Seen<N: Pass, U: Past> {
    pub(crate) journal: Snapshot<JournalOf<U>>,
    pub(crate) of: PhantomData<N>,
}

impl<N: Pass, U: Past> Model for Seen<N, U> {
    ghost use Rattle.std.specs.Prelude.{List};
    ghost use Rattle.sbpl_frontier_rules.specs.declared.event.Event.{Event};

    ghost Value = { List Event };

    ghost view = { λ a. a.journal.value.events };
}
