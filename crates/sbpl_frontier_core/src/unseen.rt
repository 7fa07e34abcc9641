//! Events that contracts alone see.

use crate::Past;
use sbpl_frontier_rules::Event;
use std::marker::Model;
use std::snapshot::Snapshot;

/// A list of events that has at least one. It takes one byte, however long it is: no program can read it.
#[derive(Drop)]
pub struct Unseen {
    before: Option<Snapshot<Unseen>>,
    last: Snapshot<Event>,
}

impl Model for Unseen {
    ghost use Rattle.std.specs.Prelude.{List, length};
    ghost use Rattle.std.proofs.Common.{arith, length-append};
    ghost use Rattle.sbpl_frontier_rules.specs.declared.event.Event.{Event};

    ghost Value = { List Event };

    ghost use Rattle.sbpl_frontier_core.specs.Listed.{listed};

    ghost view = { λ a. listed (λ items. items) a.before a.last.value };

    ghost size = { length };

    ghost size_decreases = { λ a h. Prim.grind (arith, length-append) };
}

impl Past for Unseen {
    ghost items = { λ a. a };

    fn first(event: Event) -> Unseen {
        Unseen {
            before: None,
            last: Snapshot::of(&event),
        }
    }

    fn then(self, event: Event) -> Unseen {
        Unseen {
            before: Some(Snapshot::of(&self)),
            last: Snapshot::of(&event),
        }
    }
}
