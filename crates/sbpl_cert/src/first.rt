//! What the order of flaws means: what a section claims has at most one first flaw.

ghost use Rattle.std.specs.Prelude.{◌≡◌, ℕ, ◌<◌};
ghost use Rattle.sbpl_labels.specs.sbpl_graph.Network.{Network};
ghost use Rattle.sbpl_cert.specs.declared.flaw.Flaw.{Flaw};
ghost use Rattle.sbpl_cert.specs.declared.section.Section.{Section};
ghost use Rattle.sbpl_cert.specs.Flaws.{HasFlaw, HasNoFlaw, IsFirstFlaw};
ghost use Rattle.sbpl_cert.specs.Versions.{claim_by};

/// On a graph, from a start to a goal, a section has at most one first flaw, and none where it is without flaws: what a
/// check answers is determined. A guide matters only for its values at states. It does nothing.
pub fn first_flaws_are_one()
    ensures one { (n : Network) (start goal : ℕ) (s : Section) (h k : ℕ → ℕ) (f e : Flaw)
        → ((u : ℕ) → u < n.states → h u ≡ k u)
        → IsFirstFlaw n start goal (claim_by h s) f → IsFirstFlaw n start goal (claim_by k s) e → f ≡ e }
    ensures none { (n : Network) (start goal : ℕ) (s : Section) (h k : ℕ → ℕ) (f : Flaw)
        → ((u : ℕ) → u < n.states → h u ≡ k u)
        → HasNoFlaw n start goal (claim_by h s) → HasFlaw n start goal (claim_by k s) f → ⊥ }
{}
