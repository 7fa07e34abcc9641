//! What the text of primitives is, for every text.

ghost use Rattle.std.specs.Prelude.{◌≡◌, ◌⊎◌, ◌↔◌, ℕ, ℤ, List};
ghost use Rattle.sbpl_fixed.specs.Printed.{lines_text};
ghost use Rattle.sbpl_fixed.specs.Meaning.{StandsFor};
ghost use Rattle.sbpl_mprim.specs.declared.fault.PrimFault.{PrimFault};
ghost use Rattle.sbpl_mprim.specs.Primitives.{ArePrimitives, Primitives};
ghost use Rattle.sbpl_mprim.specs.Printed.{prims_text};
ghost use Rattle.sbpl_mprim.specs.Reading.{prims_format};
ghost use Rattle.sbpl_mprim.specs.Text.{AreShown, AreSizes, HasFault, IsFaulty, IsText, IsTextOf, spelled, words_of};

/// For a cell size and a number of headings every text stands for exactly one list of primitives or has exactly one fault,
/// and never both. A text stands for primitives where its tokens are the words and numbers of the file in their order,
/// with these values, and the primitives are what a file may give. The format, which gives the faults, says exactly the
/// same. What is printed of primitives stands for them, so reading it gives them back; and so do other lines of words
/// that say the same.
pub fn texts_are_primitives_or_faulty()
    ensures format { (text : List ℕ) (ps : Primitives) → AreSizes ps.cell ps.headings
        → StandsFor (prims_format ps.cell ps.headings) text ps.items ↔ IsTextOf text ps }
    ensures either { (cell : ℤ) (headings : ℕ) (text : List ℕ) → AreSizes cell headings → IsText cell headings text
        ⊎ IsFaulty cell headings text }
    ensures not_both { (cell : ℤ) (headings : ℕ) (text : List ℕ) (f : PrimFault) → IsText cell headings text
        → HasFault cell headings text f → ⊥ }
    ensures one_value { (text : List ℕ) (ps qs : Primitives) → IsTextOf text ps → IsTextOf text qs → ps ≡ qs }
    ensures one_fault { (cell : ℤ) (headings : ℕ) (text : List ℕ) (f g : PrimFault) → HasFault cell headings text f
        → HasFault cell headings text g → f ≡ g }
    ensures printed { (ps : Primitives) → ArePrimitives ps → IsTextOf (prims_text ps) ps }
    ensures worded { (ps : Primitives) (lines : List (List (List ℕ))) → ArePrimitives ps
        → AreShown ps.headings (spelled ps) (words_of lines) → IsTextOf (lines_text lines) ps }
{}
