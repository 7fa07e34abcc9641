//! What the text of a grid's environment is, for every text.

ghost use Rattle.std.specs.Prelude.{◌≡◌, ◌≤◌, ◌⊎◌, ◌↔◌, ℕ, List};
ghost use Rattle.sbpl_fixed.specs.Meaning.{StandsFor};
ghost use Rattle.sbpl_terrain.specs.sbpl_cfg.declared.fault.EnvFault.{EnvFault};
ghost use Rattle.sbpl_nav2d.specs.Environment.{NavEnvironment};
ghost use Rattle.sbpl_nav2d.specs.Format.{environment_format};
ghost use Rattle.sbpl_nav2d.specs.Text.{HasFault, IsFaulty, IsText, IsTextOf};

/// Under a limit of at most 2^28 states, every text stands for exactly one environment with its grid or has exactly one
/// fault, and never both. A text stands for them where its tokens are the words and numbers of the file in their order, with
/// these values in their ranges. The format, which gives the faults, says exactly the same.
pub fn texts_are_grids_or_faulty()
    ensures format { (states : ℕ) (text : List ℕ) (x : NavEnvironment × List ℕ) → states ≤ 268435456
        → StandsFor (environment_format states) text x ↔ IsTextOf states text x.0 x.1 }
    ensures either { (states : ℕ) (text : List ℕ) → states ≤ 268435456 → IsText states text ⊎ IsFaulty states text }
    ensures not_both { (states : ℕ) (text : List ℕ) (f : EnvFault) → IsText states text → HasFault states text f → ⊥ }
    ensures one_value { (states : ℕ) (text : List ℕ) (e d : NavEnvironment) (cells others : List ℕ)
        → IsTextOf states text e cells → IsTextOf states text d others → (e ≡ d) × (cells ≡ others) }
    ensures one_fault { (states : ℕ) (text : List ℕ) (f g : EnvFault)
        → HasFault states text f → HasFault states text g → f ≡ g }
{}
