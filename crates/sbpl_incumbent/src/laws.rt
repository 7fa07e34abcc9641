//! What the rule of the board says of its readers.

ghost use Rattle.std.specs.Prelude.{◌≡◌, ℕ, ◌<◌, ◌≤◌, [], ◌∷◌, ◌++◌, List, Option, Some, IfSome};
ghost use Rattle.std.specs.Prelude.{length};
ghost use Rattle.sbpl_incumbent.specs.Entries.{IsHistory, found, newest};
ghost use Rattle.sbpl_incumbent.specs.Kept.{IsKept, IsPublisher, IsReader};
ghost use Rattle.sbpl_incumbent.specs.declared.entry.Entry.{Entry};
ghost use Rattle.sbpl_incumbent.specs.declared.known.Known.{Known};

/// A reader that was told of all that was published, and got one answer, got the newest entry, or `None` where nothing was
/// published. And the entry that is published last is the newest. This is a law: it does nothing.
pub fn told_readers_get_the_newest()
    ensures newest { (published : List Entry) (answer : Option Entry) → IfSome answer (λ entry. 0 < entry.number)
        → length published ≤ (found answer).number → IsHistory published (found answer ∷ [])
        → answer ≡ newest published }
    ensures last { (published : List Entry) (entry : Entry) → newest (published ++ entry ∷ []) ≡ Some entry }
{}

/// At every moment the newest entry stands on the board, what a reader got was published, in order, and the number that it was told
/// is at most that of the newest entry. This is a law: it does nothing.
pub fn readers_get_what_was_published()
    ensures board { (cell : Entry) (views : List Known) (publisher : ℕ) (published : List Entry)
        (joined : Option (List Entry)) → IsKept cell views
        → IsPublisher views publisher published joined → cell ≡ found (newest published) }
    ensures reader { (cell : Entry) (views : List Known) (publisher reader : ℕ) (published got : List Entry)
        (joined : Option (List Entry)) (told : ℕ) → IsKept cell views
        → IsPublisher views publisher published joined → IsReader views reader got told → IsHistory published got
        × (told ≤ cell.number) }
{}
