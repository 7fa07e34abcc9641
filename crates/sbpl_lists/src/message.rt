//! Messages on faults, in the form that compilers use: where, what must stand there, and what was found.

ghost use Rattle.std.specs.Prelude.{◌≡◌, ◌++◌, IfOk, OnOk, map, take};
ghost use Rattle.sbpl_lists.specs.Places.{column_of, filled_at, line_of};
ghost use Rattle.sbpl_lists.specs.Messages.{dots, found_text, message_text, plain_text, quoted_text, shown, shown_byte};
ghost use Rattle.sbpl_lists.specs.Messages.{position_text};

use crate::list_of::ListOf;
use crate::number::push_bytes;
use crate::piece::Piece::{Bytes, Number};
use crate::piece::push_all;
use crate::place::{filled_at, line_and_column};
use sbpl_fixed::NoMemory;
use std::alloc::{AllocError, Global};

/// What people are told, in a line.
pub type Message = ListOf<u8>;

/// How many bytes of what stands in a file a message shows.
const MOST_SHOWN: usize = 40;

/// A byte as a message shows it: a byte that a terminal might act on is shown as `?`.
fn shown_byte(byte: u8) -> u8
    ensures shown { result ≡ shown_byte byte }
{
    if byte > 31 && byte < 127 { byte } else { b'?' }
}

/// Bytes as a message shows them.
fn shown_bytes(alloc: Global, bytes: &[u8]) -> Result<Vec<u8>, AllocError>
    ensures shown { IfOk result (λ v. v.items ≡ map shown_byte bytes.now) }
{
    bytes.iter().map(|b| shown_byte(*b)).collect(alloc)
}

/// What follows the first bytes of what stands in a file: dots, where there are more.
fn dots(found: &[u8]) -> &'static str
    ensures dots { result.now ≡ dots found.now }
{
    if found.len() > MOST_SHOWN { "..." } else { "" }
}

/// The first bytes of what stands in a file, as many as a message shows.
#[tactic(auto, using(std::proofs::lemmas::List::take_min))]
fn front(found: &[u8]) -> &[u8]
    ensures front { result.now ≡ take 40 found.now }
{
    &found[..MOST_SHOWN.min(found.len())]
}

/// Appends what stands in a file, as a message shows it.
#[tactic(auto, unfolding(crate::specs::Messages::shown))]
fn push_shown(alloc: Global, out: &mut Vec<u8>, found: &[u8]) -> Result<(), NoMemory>
    ensures appended { OnOk result (out.new.items ≡ out.old.items ++ shown found.now) }
{
    let bytes = shown_bytes(alloc, front(found))?;
    push_bytes(out, bytes.as_slice())?;
    push_bytes(out, dots(found).as_bytes())
}

/// Appends where a message belongs.
#[tactic(auto, unfolding(crate::specs::Messages::position_text))]
fn push_spot(out: &mut Vec<u8>, name: &str, line: usize, column: usize) -> Result<(), NoMemory>
    ensures appended { OnOk result (out.new.items ≡ out.old.items ++ position_text name.now line column) }
{
    push_all(
        out,
        &[
            Bytes(name.as_bytes()),
            Bytes(b":"),
            Number(line as u64),
            Bytes(b":"),
            Number(column as u64),
            Bytes(b": "),
        ],
    )
}

/// Appends what was found, between quotation marks.
#[tactic(auto, unfolding(crate::specs::Messages::quoted_text))]
fn push_quoted(alloc: Global, out: &mut Vec<u8>, found: &[u8]) -> Result<(), NoMemory>
    ensures appended { OnOk result (out.new.items ≡ out.old.items ++ quoted_text found.now) }
{
    push_bytes(out, b", found \"")?;
    push_shown(alloc, out, found)?;
    push_bytes(out, b"\"")
}

/// Appends what was found, or that the file ends where nothing was.
fn push_found(alloc: Global, out: &mut Vec<u8>, found: &[u8]) -> Result<(), NoMemory>
    ensures appended { OnOk result (out.new.items ≡ out.old.items ++ found_text found.now) }
{
    if found.len() > 0 {
        push_quoted(alloc, out, found)
    } else {
        push_bytes(out, b", but the file ends here")
    }
}

/// The message for a line and a column of the file of this name: what must stand there, and what was found.
#[tactic(auto, unfolding(crate::specs::Messages::message_text))]
pub fn message_on_line(
    alloc: Global,
    name: &str,
    line: usize,
    column: usize,
    wanted: &str,
    found: &[u8],
) -> Result<Message, NoMemory>
    ensures text { IfOk result (λ m. m ≡ message_text name.now line column wanted.now found.now) }
{
    let mut out = Vec::new(alloc);
    push_spot(&mut out, name, line, column)?;
    push_bytes(&mut out, wanted.as_bytes())?;
    push_found(alloc, &mut out, found)?;
    push_bytes(&mut out, b"\n")?;
    Ok(ListOf::of(out))
}

/// The message for a place, an offset in the text of the file of this name, which shows the token that begins there.
pub fn message_at(
    alloc: Global,
    name: &str,
    text: &[u8],
    place: usize,
    wanted: &str,
) -> Result<Message, NoMemory>
    ensures text { IfOk result (λ m. m ≡ message_text name.now (line_of text.now place) (column_of text.now place)
        wanted.now (filled_at text.now place)) }
{
    let (line, column) = line_and_column(text, place);
    message_on_line(alloc, name, line, column, wanted, filled_at(text, place))
}

/// The message on a whole file, or on the program, of this name.
#[tactic(auto, unfolding(crate::specs::Messages::plain_text))]
pub fn plain_message<'a>(alloc: Global, name: &'a str, what: &'a str) -> Result<Message, NoMemory>
    ensures text { IfOk result (λ m. m ≡ plain_text name.now what.now) }
{
    let mut out = Vec::new(alloc);
    push_all(
        &mut out,
        &[
            Bytes(name.as_bytes()),
            Bytes(b": "),
            Bytes(what.as_bytes()),
            Bytes(b"\n"),
        ],
    )?;
    Ok(ListOf::of(out))
}
