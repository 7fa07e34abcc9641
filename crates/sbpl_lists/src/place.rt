//! Lines and columns of a text, and the token that stands at a place.

ghost use Rattle.std.specs.Prelude.{◌≡◌, ◌≤◌, drop, length, reverse, take};
ghost use Rattle.std.specs.List.{count_by, prefix_len};
ghost use Rattle.sbpl_fixed.specs.Tokens.{is_blank, is_filled};
ghost use Rattle.sbpl_lists.specs.Places.{column_of, filled_at, is_in_line, is_line_feed, line_of};

/// How many line feeds a text has.
fn line_feeds(text: &[u8]) -> usize
    ensures count { result ≡ count_by is_line_feed text.now }
    ensures bound { result ≤ length text.now }
{
    text.iter().filter(|b| **b == b'\n').count()
}

/// How many bytes stand after the last line feed of a text.
fn last_len(text: &[u8]) -> usize
    ensures count { result ≡ prefix_len is_in_line (reverse text.now) }
    ensures bound { result ≤ length text.now }
{
    text.iter().rev().take_while(|b| **b != b'\n').count()
}

/// The line and the column of a place in a text, both counted from 1. A column counts bytes. A place after the text's end has
/// the line and the column of the end.
#[tactic(auto, using(std::proofs::lemmas::List::take_min))]
pub fn line_and_column(text: &[u8], place: usize) -> (usize, usize)
    // The line is one more than the number of line feeds before the place.
    ensures line { result.0 ≡ line_of text.now place }
    // The column is one more than the number of bytes from the last line feed before the place.
    ensures column { result.1 ≡ column_of text.now place }
{
    let before = &text[..place.min(text.len())];
    (line_feeds(before) + 1, last_len(before) + 1)
}

/// Whether a byte separates tokens.
fn is_blank(byte: u8) -> bool
    ensures blank { result ≡ is_blank byte }
{
    byte == b' ' || byte == b'\t' || byte == b'\n' || byte == 11 || byte == 12 || byte == b'\r'
}

/// How many bytes stand in a text before its first blank.
fn filled_len(text: &[u8]) -> usize
    ensures count { result ≡ prefix_len is_filled text.now }
    ensures bound { result ≤ length text.now }
{
    text.iter().take_while(|b| !is_blank(**b)).count()
}

/// A text from a place on.
fn from_place(text: &[u8], place: usize) -> &[u8]
    ensures rest { result.now ≡ drop place text.now }
{
    if place < text.len() {
        &text[place..]
    } else {
        &[]
    }
}

/// The bytes from a place to the next blank: the token that begins there, and none at the end of the text.
pub fn filled_at(text: &[u8], place: usize) -> &[u8]
    ensures filled { result.now ≡ filled_at text.now place }
{
    let rest = from_place(text, place);
    &rest[..filled_len(rest)]
}
