//! Pieces that are appended together.

ghost use Rattle.std.specs.Prelude.{◌≡◌, ◌++◌, OnOk, flat_map};
ghost use Rattle.sbpl_lists.specs.Pieces.{piece_text};

use crate::number::{push_bytes, push_number, push_signed};
use sbpl_fixed::{NoMemory, print_milli, print_nano};

/// A piece of a text.
#[derive(Clone, Copy)]
pub enum Piece<'a> {
    /// Bytes as they are.
    Bytes(&'a [u8]),
    /// A whole number in digits.
    Number(u64),
    /// A whole number with its sign.
    Signed(i64),
    /// A number of thousandths, with a point and three digits.
    Milli(u128),
    /// A number of billionths, with its sign, a point and nine digits.
    Nano(i64),
}

/// Appends a piece.
pub(crate) fn push_piece(out: &mut Vec<u8>, piece: Piece) -> Result<(), NoMemory>
    ensures appended { OnOk result (out.new.items ≡ out.old.items ++ piece_text piece.entry) }
{
    match piece {
        Piece::Bytes(bytes) => push_bytes(out, bytes),
        Piece::Number(number) => push_number(out, number),
        Piece::Signed(number) => push_signed(out, number),
        Piece::Milli(number) => print_milli(number, out),
        Piece::Nano(number) => print_nano(number, out),
    }
}

/// Appends pieces in order.
pub fn push_all(out: &mut Vec<u8>, pieces: &[Piece]) -> Result<(), NoMemory>
    ensures appended { OnOk result (out.new.items ≡ out.old.items ++ flat_map piece_text pieces.now) }
{
    for piece in pieces {
        push_piece(out, *piece)?;
    }
    Ok(())
}
