//! A section is written at the end of a text.

ghost use Rattle.std.specs.Prelude.{◌≡◌, ℕ, List, ◌+◌, ◌<◌, ◌≤◌, ◌++◌, ◌∷◌, OnOk, OnErr, IfOk};
ghost use Rattle.std.specs.Prelude.{decimal, codes, length, map, drop};
ghost use Rattle.std.specs.List.{flat_map};
ghost use Rattle.sbpl_fixed.specs.Printed.{line_text};
ghost use Rattle.sbpl_lists.specs.Pieces.{piece_text};
ghost use Rattle.sbpl_cert.specs.Printed.{BeginsWith, full_text, head_line, label_text, outcome_line, row_text};
ghost use Rattle.sbpl_cert.specs.Printed.{sparse_head_line, sparse_row_text, sparse_text};
ghost use Rattle.sbpl_cert.specs.declared.outcome.Outcome.TheVariants as outcome;

use crate::label_set::LabelSet;
use crate::outcome::Outcome;
use crate::row::Row;
use crate::sparse_row::SparseRow;
use crate::sparse_set::SparseSet;
use itoa::write_digits;
use sbpl_fixed::NoMemory;
use sbpl_labels::FAR;
use sbpl_lists::Piece::{Bytes, Milli, Number};
use sbpl_lists::{Piece, push_all, push_bytes, push_line, push_words};
use std::alloc::Global;

/// Room for a row: three numbers of at most twenty digits, with a blank after each.
const ROOM: usize = 64;

/// Writes a byte before the offset `end`, and answers where it stands.
fn byte_before(buffer: &mut [u8], end: usize, byte: u8) -> usize
    requires room { 0 < end }
    requires inside { end ≤ length buffer.old }
    ensures place { result + 1 ≡ end }
    ensures text { drop result buffer.new ≡ byte ∷ drop end buffer.old }
{
    buffer[end - 1] = byte;
    end - 1
}

/// Writes a number before the offset `end`, and answers where it begins.
fn number_before(buffer: &mut [u8], end: usize, n: u64) -> usize
    requires room { 20 ≤ end }
    requires inside { end ≤ length buffer.old }
    ensures low { end ≤ result + 20 }
    ensures high { result < end }
    ensures text { drop result buffer.new ≡ decimal n ++ drop end buffer.old }
{
    write_digits(n, buffer, end)
}

/// Writes a label before the offset `end`, and answers where it begins.
fn label_before(buffer: &mut [u8], end: usize, label: u64) -> usize
    requires room { 20 ≤ end }
    requires inside { end ≤ length buffer.old }
    ensures low { end ≤ result + 20 }
    ensures high { result < end }
    ensures text { drop result buffer.new ≡ label_text label ++ drop end buffer.old }
{
    if label == FAR {
        byte_before(buffer, end, b'-')
    } else {
        number_before(buffer, end, label)
    }
}

/// Writes a row at the end of the buffer, and answers where it begins.
#[tactic(auto, using(std::proofs::lemmas::List::append_assoc), unfolding(sbpl_fixed::specs::Printed::line_text))]
fn row_before(buffer: &mut [u8], row: Row) -> usize
    requires size { length buffer.old ≡ 64 }
    ensures inside { result < length buffer.new }
    ensures text { drop result buffer.new ≡ row_text row }
{
    let end = buffer.len();
    let begin = byte_before(buffer, end, b'\n');
    let begin = number_before(buffer, begin, row.h);
    let begin = byte_before(buffer, begin, b' ');
    let begin = label_before(buffer, begin, row.v);
    let begin = byte_before(buffer, begin, b' ');
    label_before(buffer, begin, row.g)
}

/// Writes the row of a sparse section at the end of the buffer, and answers where it begins.
#[tactic(auto, using(std::proofs::lemmas::List::append_assoc), unfolding(sbpl_fixed::specs::Printed::line_text))]
fn sparse_row_before(buffer: &mut [u8], row: SparseRow) -> usize
    requires size { length buffer.old ≡ 64 }
    ensures inside { result < length buffer.new }
    ensures text { drop result buffer.new ≡ sparse_row_text row }
{
    let end = buffer.len();
    let begin = byte_before(buffer, end, b'\n');
    let begin = label_before(buffer, begin, row.v);
    let begin = byte_before(buffer, begin, b' ');
    let begin = label_before(buffer, begin, row.g);
    let begin = byte_before(buffer, begin, b' ');
    number_before(buffer, begin, u64::from(row.state))
}

/// A row of a section.
trait RowText: Copy {
    /// Its line.
    ghost text: { Self → List ℕ };

    /// Writes its line at the end of the buffer, and answers where it begins.
    fn line_before(self, buffer: &mut [u8]) -> usize
        requires size { length buffer.old ≡ 64 }
        ensures inside { result < length buffer.new }
        ensures text { drop result buffer.new ≡ text self };
}

impl RowText for Row {
    ghost text = { row_text };

    fn line_before(self, buffer: &mut [u8]) -> usize {
        row_before(buffer, self)
    }
}

impl RowText for SparseRow {
    ghost text = { sparse_row_text };

    fn line_before(self, buffer: &mut [u8]) -> usize {
        sparse_row_before(buffer, self)
    }
}

/// Appends a text.
fn put(out: &mut Vec<u8>, text: &[u8]) -> Result<(), NoMemory>
    ensures ok { OnOk result (out.new.items ≡ out.old.items ++ text.now) }
    ensures kept { BeginsWith out.old.items out.new.items }
{
    out.extend_from_slice(text)?;
    Ok(())
}

/// Appends the line of a row.
fn put_row<R: RowText>(out: &mut Vec<u8>, row: R) -> Result<(), NoMemory>
    ensures ok { OnOk result (out.new.items ≡ out.old.items ++ R.text row) }
    ensures kept { BeginsWith out.old.items out.new.items }
{
    let mut buffer = [0; ROOM];
    let begin = row.line_before(&mut buffer);
    put(out, &buffer[begin..])
}

/// Appends the lines of the rows.
#[tactic(auto, using(crate::proofs::Kept::kept))]
fn put_rows<R: RowText>(out: &mut Vec<u8>, rows: &[R]) -> Result<(), NoMemory>
    ensures ok { OnOk result (out.new.items ≡ out.old.items ++ flat_map R.text rows.now) }
    ensures kept { BeginsWith out.old.items out.new.items }
{
    for row in rows {
        put_row(out, *row)?;
    }
    Ok(())
}

/// Appends a section, of which the lines before the rows are given.
#[tactic(auto, using(crate::proofs::Kept::kept, std::proofs::lemmas::List::append_assoc))]
fn put_section<R: RowText>(out: &mut Vec<u8>, front: &[u8], rows: &[R]) -> Result<(), NoMemory>
    ensures ok { OnOk result (out.new.items ≡ out.old.items ++ (front.now ++ (flat_map R.text rows.now ++ codes "end\n"))) }
    ensures kept { BeginsWith out.old.items out.new.items }
{
    put(out, front)?;
    put_rows(out, rows)?;
    put(out, b"end\n")
}

/// Appends a section, of which the lines before the rows are given. After `NoMemory` the text is unchanged.
fn write_section<R: RowText>(out: &mut Vec<u8>, front: &[u8], rows: &[R]) -> Result<(), NoMemory>
    ensures ok { OnOk result (out.new.items ≡ out.old.items ++ (front.now ++ (flat_map R.text rows.now ++ codes "end\n"))) }
    ensures err { OnErr result (out.new.items ≡ out.old.items) }
{
    let before = out.len();
    let written = put_section(out, front, rows);
    if written.is_err() {
        out.truncate(before);
    }
    written
}

/// A label as a word.
fn label_word(label: u64) -> Piece<'static>
    ensures text { piece_text result ≡ label_text label }
{
    if label == FAR {
        Bytes(b"-")
    } else {
        Number(label)
    }
}

/// Appends the line of a path.
fn push_path(out: &mut Vec<u8>, cost: u64, bound: u128, arcs: &[u32]) -> Result<(), NoMemory>
    ensures ok { OnOk result (out.new.items ≡ out.old.items ++ line_text (outcome_line (outcome.Path cost bound) arcs.now)) }
{
    let count = Number(arcs.len() as u64);
    push_all(
        out,
        &[
            Bytes(b"path "),
            Number(cost),
            Bytes(b" "),
            Milli(bound),
            Bytes(b" "),
            count,
        ],
    )?;
    push_words(out, arcs)?;
    push_bytes(out, b"\n")
}

/// Appends the line of the outcome.
fn push_outcome(out: &mut Vec<u8>, outcome: Outcome, arcs: &[u32]) -> Result<(), NoMemory>
    ensures ok { OnOk result (out.new.items ≡ out.old.items ++ line_text (outcome_line outcome arcs.now)) }
{
    match outcome {
        Outcome::Path { cost, bound } => push_path(out, cost, bound, arcs),
        Outcome::NoPath => push_line(out, &[Bytes(b"nopath")]),
        Outcome::Unknown => push_line(out, &[Bytes(b"unknown")]),
    }
}

/// The first line, of these words, and the line of the outcome.
fn front_of(
    alloc: Global,
    words: &[Piece],
    outcome: Outcome,
    arcs: &[u32],
) -> Result<Vec<u8>, NoMemory>
    ensures text { IfOk result (λ text. text.items ≡ line_text (map piece_text words.now)
        ++ line_text (outcome_line outcome arcs.now)) }
{
    let mut text = Vec::new(alloc);
    push_line(&mut text, words)?;
    push_outcome(&mut text, outcome, arcs)?;
    Ok(text)
}

/// The lines of a section before its rows.
fn full_front(alloc: Global, set: &LabelSet) -> Result<Vec<u8>, NoMemory>
    ensures text { IfOk result (λ text. text.items ≡ line_text (head_line set.now)
        ++ line_text (outcome_line set.now.outcome set.now.arcs)) }
{
    let plan = Number(u64::from(set.plan));
    let states = Number(set.labels.as_slice().len() as u64);
    let low = label_word(set.low);
    front_of(
        alloc,
        &[
            Bytes(b"labels"),
            Bytes(b"1"),
            Bytes(b"plan"),
            plan,
            Bytes(b"states"),
            states,
            Bytes(b"low"),
            low,
        ],
        set.outcome,
        set.arcs.as_slice(),
    )
}

/// Appends the text of a section: a line with the version, the plan, the number of states and the low; a line with the
/// outcome; a line for each state; and a last line. `NoMemory` where memory runs out; the text is then unchanged.
#[tactic(auto, using(std::proofs::lemmas::List::append_assoc), unfolding(crate::specs::Printed::full_text))]
pub fn write_labels(set: &LabelSet, out: &mut Vec<u8>) -> Result<(), NoMemory>
    ensures ok { OnOk result (out.new.items ≡ out.old.items ++ full_text set.now) }
    ensures err { OnErr result (out.new.items ≡ out.old.items) }
{
    let front = full_front(*out.allocator(), set)?;
    write_section(out, &front, set.labels.as_slice())
}

/// The lines of a sparse section before its rows.
fn sparse_front(alloc: Global, set: &SparseSet) -> Result<Vec<u8>, NoMemory>
    ensures text { IfOk result (λ text. text.items ≡ line_text (sparse_head_line set.now)
        ++ line_text (outcome_line set.now.outcome set.now.arcs)) }
{
    let plan = Number(u64::from(set.plan));
    let states = Number(u64::from(set.states));
    let rows = Number(set.rows.as_slice().len() as u64);
    let low = label_word(set.low);
    front_of(
        alloc,
        &[
            Bytes(b"labels"),
            Bytes(b"2"),
            Bytes(b"plan"),
            plan,
            Bytes(b"states"),
            states,
            Bytes(b"rows"),
            rows,
            Bytes(b"low"),
            low,
        ],
        set.outcome,
        set.arcs.as_slice(),
    )
}

/// Appends the text of a sparse section: a line with the version, the plan, the number of states, the number of rows and the low; a
/// line with the outcome; a line for each row; and a last line. `NoMemory` where memory runs out; the text is then unchanged.
#[tactic(auto, using(std::proofs::lemmas::List::append_assoc), unfolding(crate::specs::Printed::sparse_text))]
pub fn write_sparse(set: &SparseSet, out: &mut Vec<u8>) -> Result<(), NoMemory>
    ensures ok { OnOk result (out.new.items ≡ out.old.items ++ sparse_text set.now) }
    ensures err { OnErr result (out.new.items ≡ out.old.items) }
{
    let front = sparse_front(*out.allocator(), set)?;
    write_section(out, &front, set.rows.as_slice())
}
