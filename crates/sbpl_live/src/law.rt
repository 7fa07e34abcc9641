//! What a line says, for every line.

ghost use Rattle.std.specs.Prelude.{◌≡◌, ◌⊎◌, ℕ, List};
ghost use Rattle.sbpl_map.specs.CellMap.{CellMap};
ghost use Rattle.sbpl_map.specs.declared.line_fault.LineFault.{LineFault};
ghost use Rattle.sbpl_live.specs.Lines.{HasFault, IsFaulty, LineSays, SaysSome, Scope, scope_of};
ghost use Rattle.sbpl_live.specs.declared.spoken.Spoken.{Spoken};

/// Under a limit of states, a map and a number of headings, each line says exactly one thing or has exactly one fault, and never
/// both. It says the same, or has the same fault, on each map of the same size, whatever its costs.
pub fn lines_say_or_are_faulty()
    ensures either { (s : Scope) (line : List ℕ) → SaysSome s line ⊎ IsFaulty s line }
    ensures not_both { (s : Scope) (line : List ℕ) (a : Spoken) (f : LineFault) → LineSays s line a → HasFault s line f → ⊥ }
    ensures one_saying { (s : Scope) (line : List ℕ) (a b : Spoken) → LineSays s line a → LineSays s line b → a ≡ b }
    ensures one_fault { (s : Scope) (line : List ℕ) (f g : LineFault) → HasFault s line f → HasFault s line g → f ≡ g }
    ensures same_saying { (states headings : ℕ) (m n : CellMap) (line : List ℕ) (a : Spoken)
        → m.width ≡ n.width → m.height ≡ n.height
        → LineSays (scope_of states m headings) line a → LineSays (scope_of states n headings) line a }
    ensures same_fault { (states headings : ℕ) (m n : CellMap) (line : List ℕ) (f : LineFault)
        → m.width ≡ n.width → m.height ≡ n.height
        → HasFault (scope_of states m headings) line f → HasFault (scope_of states n headings) line f }
{}
