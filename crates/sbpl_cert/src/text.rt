//! What a label text is, for every text.

ghost use Rattle.std.specs.Prelude.{◌≡◌, ◌⊎◌, ◌↔◌, ◌+◌, ◌<◌, ◌^◌, ◌++◌, ℕ, List, length, true};
ghost use Rattle.sbpl_fixed.specs.Formats.{Left, Says};
ghost use Rattle.sbpl_fixed.specs.Runs.{ends_blank};
ghost use Rattle.sbpl_fixed.specs.Tokens.{Piece, tokens_from};
ghost use Rattle.sbpl_cert.specs.declared.fault.LabelFault.{LabelFault as AFault};
ghost use Rattle.sbpl_cert.specs.Format.{section_format};
ghost use Rattle.sbpl_cert.specs.declared.section.Section.{Section as ASection};
ghost use Rattle.sbpl_cert.specs.Printed.{section_text};
ghost use Rattle.sbpl_cert.specs.Text.{AreTokens, AreTokensOf, HasFault, HasSomeFault};
ghost use Rattle.sbpl_cert.specs.Versions.{IsOf, IsSection};

use crate::fault::LabelFault;
use crate::section::Section;
use sbpl_fixed::{
    printed_words_are_tokens, reading_is_what_is_said, unsigned_numbers_are_their_digits,
};

/// For a plan and a number of states, every text from an offset on begins with exactly one section of them, of either
/// version, or has exactly one first fault, and never both. Tokens stand for a section where they are its words and numbers
/// in their order, each in its range. The format, which gives the faults, says exactly the same. What is written of a
/// section stands for it, at the beginning of a text or after a blank, whatever follows, so reading gives it back.
pub fn texts_are_sections_or_faulty()
    ensures format { (plan states : ℕ) (s : ASection) (ts rest : List Piece) → plan < 2 ^ 32 → states < 2 ^ 32
        → Says (section_format plan states) ts s rest ↔ (IsOf plan states s × AreTokensOf ts s rest) }
    ensures either { (plan states : ℕ) (left : Left) → plan < 2 ^ 32 → states < 2 ^ 32 → AreTokens plan states left.tokens
        ⊎ HasSomeFault plan states left }
    ensures not_both { (plan states : ℕ) (left : Left) (f : AFault) → AreTokens plan states left.tokens
        → HasFault plan states left f → ⊥ }
    ensures one_value { (ts rest more : List Piece) (s u : ASection) → AreTokensOf ts s rest → AreTokensOf ts u more
        → (s ≡ u) × (rest ≡ more) }
    ensures one_fault { (plan states : ℕ) (left : Left) (f g : AFault) → HasFault plan states left f
        → HasFault plan states left g → f ≡ g }
    ensures written { (s : ASection) (before after : List ℕ) → IsSection s → ends_blank true before ≡ true
        → AreTokensOf (tokens_from (before ++ section_text s ++ after) (length before)) s
        (tokens_from (before ++ section_text s ++ after) (length before + length (section_text s))) }
{
    unsigned_numbers_are_their_digits();
    reading_is_what_is_said::<LabelFault, Section>();
    printed_words_are_tokens();
}
