//! What stands for a list of events that is not kept in memory.

ghost use Rattle.std.specs.Prelude.{◌≡◌, [], ◌∷◌, ◌++◌, List};
ghost use Rattle.sbpl_frontier_rules.specs.declared.event.Event.{Event};

use sbpl_frontier_rules::Event as AnEvent;

/// What stands for a list of at least one event that is not kept in memory. A journal, and a core that has one, is generic over
/// it, so that the proof that threads may share them need not look into it.
pub trait Past: Drop {
    /// The events.
    ghost items: { Self → List Event };

    /// This event alone.
    fn first(event: AnEvent) -> Self
        ensures listed { items result ≡ event ∷ [] };

    /// These events, and this one after them.
    fn then(self, event: AnEvent) -> Self
        ensures listed { items result ≡ items self ++ event ∷ [] };
}
