//! What the text of changes is, for every text.

ghost use Rattle.std.specs.Prelude.{◌≡◌, ◌≤◌, ◌⊎◌, ◌↔◌, ℕ, List, Option};
ghost use Rattle.sbpl_cfg.specs.declared.pose.Place.{Place};
ghost use Rattle.sbpl_map.specs.declared.fault.ChangeFault.{ChangeFault};
ghost use Rattle.sbpl_map.specs.declared.write.Write.{Write};
ghost use Rattle.sbpl_map.specs.CellMap.{CellMap};
ghost use Rattle.sbpl_map.specs.ChangeText.{HasNoStarts, IsMovesText, IsMovesTextOf, IsText, IsTextOf, no_moves};
ghost use Rattle.sbpl_map.specs.LineFaults.{HasFault, HasMovesFault, IsFaulty, IsMovesFaulty};
ghost use Rattle.sbpl_map.specs.Printed.{AreChangesOf, changes_text};

/// Under a limit of states, every text stands, on a map, for exactly one list of batches or has exactly one fault, and never
/// both. It stands for
/// batches where its lines with fields are, one after another, a cell's line for each write of a batch and the word of its
/// end after them. So does the plain text of batches whose writes are on the map, which has these lines and no others.
pub fn texts_are_changes_or_faulty()
    ensures either { (states : ℕ) (m : CellMap) (text : List ℕ) → IsText states m text ⊎ IsFaulty states m text }
    ensures not_both { (states : ℕ) (m : CellMap) (text : List ℕ) (f : ChangeFault)
        → IsText states m text → HasFault states m text f → ⊥ }
    ensures one_value { (states : ℕ) (m : CellMap) (text : List ℕ) (batches others : List (List Write))
        → IsTextOf states m text batches → IsTextOf states m text others → batches ≡ others }
    ensures one_fault { (states : ℕ) (m : CellMap) (text : List ℕ) (f g : ChangeFault)
        → HasFault states m text f → HasFault states m text g → f ≡ g }
    ensures printed { (states : ℕ) (m : CellMap) (batches : List (List Write)) → states ≤ 268435456
        → AreChangesOf states m batches → IsTextOf states m (changes_text batches) batches }
{}

/// The same for texts that can say where a robot is, whatever the limit, the map and the number of headings: every text stands for
/// exactly one list of batches with exactly one list of moves, or has exactly one fault, and never both. A text in which no
/// line says where the robot is has the batches or the fault that it has by the law above, and its moves are all none.
pub fn texts_are_moves_or_faulty()
    ensures either { (states : ℕ) (m : CellMap) (headings : ℕ) (text : List ℕ)
        → IsMovesText states m headings text ⊎ IsMovesFaulty states m headings text }
    ensures not_both { (states : ℕ) (m : CellMap) (headings : ℕ) (text : List ℕ) (f : ChangeFault)
        → IsMovesText states m headings text → HasMovesFault states m headings text f → ⊥ }
    ensures one_value { (states : ℕ) (m : CellMap) (headings : ℕ) (text : List ℕ)
        (batches others : List (List Write)) (moves more : List (Option Place))
        → IsMovesTextOf states m headings text batches moves → IsMovesTextOf states m headings text others more
        → (batches ≡ others) × (moves ≡ more) }
    ensures one_fault { (states : ℕ) (m : CellMap) (headings : ℕ) (text : List ℕ) (f g : ChangeFault)
        → HasMovesFault states m headings text f → HasMovesFault states m headings text g → f ≡ g }
    ensures same_batches { (states : ℕ) (m : CellMap) (headings : ℕ) (text : List ℕ)
        (batches : List (List Write)) (moves : List (Option Place))
        → HasNoStarts text
        → IsMovesTextOf states m headings text batches moves ↔ (IsTextOf states m text batches × (moves ≡ no_moves batches)) }
    ensures same_fault { (states : ℕ) (m : CellMap) (headings : ℕ) (text : List ℕ) (f : ChangeFault)
        → HasNoStarts text → HasMovesFault states m headings text f ↔ HasFault states m text f }
{}
