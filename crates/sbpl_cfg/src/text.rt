//! What the text of an environment is, for every text.

ghost use Rattle.std.specs.Prelude.{◌≡◌, ◌≤◌, ◌⊎◌, ◌↔◌, ℕ, List, false};
ghost use Rattle.sbpl_fixed.specs.Meaning.{StandsFor};
ghost use Rattle.sbpl_cfg.specs.declared.fault.EnvFault.{EnvFault};
ghost use Rattle.sbpl_cfg.specs.Environment.{Environment, IsEnvironment, state_count, usual_headings};
ghost use Rattle.sbpl_cfg.specs.Format.{environment_format, says_headings};
ghost use Rattle.sbpl_cfg.specs.Printed.{environment_text};
ghost use Rattle.sbpl_cfg.specs.Text.{HasFault, IsFaulty, IsGrid, IsText, IsTextOf, LeavesOutUsual};

/// Under a limit of at most 2^28 states, every text stands for exactly one environment with its grid or has exactly one fault,
/// and never both. A text stands for
/// them where its tokens are the words and numbers of the file in their order, with these values in their ranges. The
/// format, which gives the faults, says exactly the same. A text without the number of headings has 16 of them, and one that
/// says 16 stands for the same as without it. What is printed of an environment and its grid stands for them under each limit
/// that it keeps, so reading it gives them back.
pub fn texts_are_environments_or_faulty()
    ensures format { (states : ℕ) (text : List ℕ) (x : Environment × List ℕ) → states ≤ 268435456
        → StandsFor (environment_format states (says_headings text)) text x ↔ IsTextOf states text x.0 x.1 }
    ensures either { (states : ℕ) (text : List ℕ) → states ≤ 268435456 → IsText states text ⊎ IsFaulty states text }
    ensures not_both { (states : ℕ) (text : List ℕ) (f : EnvFault) → IsText states text → HasFault states text f → ⊥ }
    ensures one_value { (states : ℕ) (text : List ℕ) (e d : Environment) (cells others : List ℕ)
        → IsTextOf states text e cells → IsTextOf states text d others → (e ≡ d) × (cells ≡ others) }
    ensures one_fault { (states : ℕ) (text : List ℕ) (f g : EnvFault)
        → HasFault states text f → HasFault states text g → f ≡ g }
    ensures left_out { (states : ℕ) (text : List ℕ) (e : Environment) (cells : List ℕ)
        → IsTextOf states text e cells → says_headings text ≡ false → e.headings ≡ usual_headings }
    ensures usual { (states : ℕ) (plain full : List ℕ) (e : Environment) (cells : List ℕ)
        → LeavesOutUsual plain full → IsTextOf states plain e cells ↔ IsTextOf states full e cells }
    ensures printed { (states : ℕ) (e : Environment) (cells : List ℕ) → state_count e ≤ states
        → IsEnvironment e → IsGrid e cells → IsTextOf states (environment_text e cells) e cells }
{}
