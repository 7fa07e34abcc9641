//! The map after batches of changes.

ghost use Rattle.std.specs.Prelude.{◌≡◌, ◌+◌, ℕ, pos, List, [], ◌∷◌, ◌++◌, slice_get, Some};
ghost use Rattle.sbpl_map.specs.declared.write.Write.{Write};
ghost use Rattle.sbpl_map.specs.CellMap.{CellMap, ChangesCell, IsCellMap};
ghost use Rattle.sbpl_map.specs.MapAfter.{AreWritten, IsMapAfter};

/// After no batches the map is that of the file. Where the writes of the next batch are made in turn on the map after some
/// batches, the result is the map after one more batch. There is just one map after each number of batches.
pub fn writes_lead_to_the_next_map()
    ensures first { (first : CellMap) (batches : List (List Write)) → IsMapAfter first batches 0 first }
    ensures no_writes { (old : CellMap) → AreWritten old [] old }
    ensures one_write { (old now new : CellMap) (writes : List Write) (w : Write)
        → AreWritten old writes now → ChangesCell now new (pos w.x) (pos w.y) w.cost
        → AreWritten old (writes ++ w ∷ []) new }
    ensures next { (first now new : CellMap) (batches : List (List Write)) (k : ℕ) (batch : List Write)
        → IsMapAfter first batches k now → slice_get batches k ≡ Some batch → AreWritten now batch new
        → IsMapAfter first batches (k + 1) new }
    ensures one_map { (first now other : CellMap) (batches : List (List Write)) (k : ℕ)
        → IsCellMap now → IsCellMap other → IsMapAfter first batches k now → IsMapAfter first batches k other
        → now ≡ other }
{}
