//! Lines of words.

ghost use Rattle.std.specs.Prelude.{◌≡◌, ℕ, List, ◌++◌, ◌∷◌, OnOk, decimal, flat_map, map};
ghost use Rattle.sbpl_fixed.specs.Printed.{line_text, lines_text};
ghost use Rattle.sbpl_lists.specs.Pieces.{piece_text};

use crate::number::{push_bytes, push_number};
use crate::piece::{Piece, push_piece};
use sbpl_fixed::NoMemory;

/// What stands as a word in a line.
pub trait Word {
    /// Its text.
    ghost text: { Self → List ℕ };

    /// Appends it.
    fn push(&self, out: &mut Vec<u8>) -> Result<(), NoMemory>
        ensures appended { OnOk result (out.new.items ≡ out.old.items ++ text self.now) };
}

impl Word for Piece<'_> {
    ghost text = { piece_text };

    fn push(&self, out: &mut Vec<u8>) -> Result<(), NoMemory> {
        push_piece(out, *self)
    }
}

/// A whole number in digits.
impl Word for u8 {
    ghost text = { λ n. decimal n };

    fn push(&self, out: &mut Vec<u8>) -> Result<(), NoMemory> {
        push_number(out, u64::from(*self))
    }
}

/// A whole number in digits.
impl Word for u32 {
    ghost text = { λ n. decimal n };

    fn push(&self, out: &mut Vec<u8>) -> Result<(), NoMemory> {
        push_number(out, u64::from(*self))
    }
}

/// Appends words, with a space before each.
pub fn push_words<W: Word>(out: &mut Vec<u8>, words: &[W]) -> Result<(), NoMemory>
    ensures appended { OnOk result (out.new.items ≡ out.old.items ++ flat_map (λ word. 32 ∷ W.text word) words.now) }
{
    for word in words {
        push_bytes(out, b" ")?;
        word.push(out)?;
    }
    Ok(())
}

/// Appends words with a space between them, and a line feed after the last.
pub fn push_line<W: Word>(out: &mut Vec<u8>, words: &[W]) -> Result<(), NoMemory>
    ensures appended { OnOk result (out.new.items ≡ out.old.items ++ line_text (map W.text words.now)) }
{
    let Some((first, rest)) = words.split_first() else {
        return push_bytes(out, b"\n");
    };
    first.push(out)?;
    push_words(out, rest)?;
    push_bytes(out, b"\n")
}

/// Appends lines of pieces, each of which is a word.
pub fn push_lines(out: &mut Vec<u8>, lines: &[&[Piece]]) -> Result<(), NoMemory>
    ensures appended { OnOk result
        (out.new.items ≡ out.old.items ++ lines_text (map (λ line. map piece_text line.now) lines.now)) }
{
    for line in lines {
        push_line(out, *line)?;
    }
    Ok(())
}
