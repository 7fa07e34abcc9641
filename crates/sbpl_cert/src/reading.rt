//! A section is read from a text.

ghost use Rattle.std.specs.Prelude.{◌≡◌, ◌≢◌, ◌<◌, ◌≤◌, ◌∷◌, List, Ok, Err, pos, length, codes, IfOk};
ghost use Rattle.std.specs.Prelude.{IfErr};
ghost use Rattle.sbpl_fixed.specs.Formats.{Answers, Gives, Steps, next, reads, start_at, turns};
ghost use Rattle.sbpl_fixed.specs.Tokens.{Piece, tokens_from};
ghost use Rattle.sbpl_cert.specs.declared.fault.LabelFault.{LabelFault as AFault};
ghost use Rattle.sbpl_cert.specs.declared.fault.LabelFault.TheVariants.{NoMemory as Memory};
ghost use Rattle.sbpl_cert.specs.Faults.{told};
ghost use Rattle.sbpl_cert.specs.Format.{arc_turn, bound, count_format, digits, digits_from, front_format, full_format};
ghost use Rattle.sbpl_cert.specs.Format.{head_format, label, low_format, outcome_format, path_format, row_format, row_turn};
ghost use Rattle.sbpl_cert.specs.Format.{rows_format, section_format, sparse_format, sparse_head_format, sparse_row_format};
ghost use Rattle.sbpl_cert.specs.Format.{sparse_turn, title_format, version_word};
ghost use Rattle.sbpl_cert.specs.declared.section.Section.{Section as ASection};
ghost use Rattle.sbpl_cert.specs.Text.{AreTokensOf, EndsWith, HasFault, IsAfterEnd, with_rest};
ghost use Rattle.sbpl_cert.specs.Versions.{IsOf};

use crate::fault::LabelFault;
use crate::label_set::{Arcs, LabelSet, Rows};
use crate::outcome::Outcome;
use crate::row::Row;
use crate::section::Section;
use crate::sparse_row::SparseRow;
use crate::sparse_set::{SparseRows, SparseSet};
use sbpl_fixed::{
    NumFault, Placed, Reader, TextFault, read_digits, read_milli, reading_is_what_is_said,
    tokens_are_longest_runs, unsigned_numbers_are_their_digits,
};
use sbpl_labels::FAR;
use std::alloc::Global;

/// Every low is below this, or infinite.
const LOW_END: u64 = 1 << 63;

/// Every label and every cost is below this; a label may be infinite.
const LABEL_END: u64 = 1 << 62;

/// Every value of a guide is below this.
const GUIDE_END: u64 = 1 << 55;

/// Every number of arcs is below this.
const ARCS_END: u64 = 1 << 28;

/// Every arc number is below this.
const ARC_END: u64 = 4096;

/// Every plan's number and every number of states is below this.
const COUNT_END: u64 = 1 << 32;

/// The length of a section's last word.
const LAST_LENGTH: usize = 3;

/// The thousandths of every bound are below this.
const BOUND_END: u128 = 1 << 100;

/// The next token, which must be a number without a sign, below `end`.
#[tactic(auto, unfolding(sbpl_fixed::specs::Formats::next))]
fn next_digits(reader: &mut Reader, end: u64) -> Result<Placed<u64>, TextFault>
    ensures read { Steps (λ x. x.place) (λ x. pos x.value) result reader.new (next (digits end) reader.old) }
    ensures below { IfOk result (λ x. x.value < end) }
{
    let (bytes, place) = reader.token()?;
    match read_digits(bytes, end) {
        Ok(value) => Ok(Placed { value, place }),
        Err(NumFault::Form) => Err(TextFault::Number(place)),
        Err(NumFault::Size) => Err(TextFault::Range(place)),
    }
}

/// The next token, which must be such a number or a minus alone, which is infinity.
#[tactic(auto, unfolding(sbpl_fixed::specs::Formats::next))]
fn next_label(reader: &mut Reader, end: u64) -> Result<Placed<u64>, TextFault>
    ensures read { Steps (λ x. x.place) (λ x. pos x.value) result reader.new (next (label end) reader.old) }
{
    let (bytes, place) = reader.token()?;
    if bytes == b"-".as_slice() {
        return Ok(Placed { value: FAR, place });
    }
    match read_digits(bytes, end) {
        Ok(value) => Ok(Placed { value, place }),
        Err(NumFault::Form) => Err(TextFault::Number(place)),
        Err(NumFault::Size) => Err(TextFault::Range(place)),
    }
}

/// The next token, which must be a number of thousandths, of 1.000 and more.
#[tactic(auto, unfolding(sbpl_fixed::specs::Formats::next))]
fn next_bound(reader: &mut Reader) -> Result<Placed<u128>, TextFault>
    ensures read { Steps (λ x. x.place) (λ x. pos x.value) result reader.new (next bound reader.old) }
{
    let (bytes, place) = reader.token()?;
    match read_milli(bytes, BOUND_END) {
        Ok(value) if value >= 1000 => Ok(Placed { value, place }),
        Ok(_) => Err(TextFault::Range(place)),
        Err(NumFault::Form) => Err(TextFault::Number(place)),
        Err(NumFault::Size) => Err(TextFault::Range(place)),
    }
}

/// The next token, which must be a number without a sign, from `least` to below `end`.
#[tactic(auto, unfolding(sbpl_fixed::specs::Formats::next))]
fn next_digits_from(reader: &mut Reader, least: u64, end: u64) -> Result<Placed<u64>, TextFault>
    ensures read { Steps (λ x. x.place) (λ x. pos x.value) result reader.new (next (digits_from least end) reader.old) }
    ensures below { IfOk result (λ x. x.value < end) }
{
    let (bytes, place) = reader.token()?;
    match read_digits(bytes, end) {
        Ok(value) if value >= least => Ok(Placed { value, place }),
        Ok(_) => Err(TextFault::Range(place)),
        Err(NumFault::Form) => Err(TextFault::Number(place)),
        Err(NumFault::Size) => Err(TextFault::Range(place)),
    }
}

/// The next token, which must be a version.
#[tactic(auto, unfolding(sbpl_fixed::specs::Formats::next))]
fn next_version(reader: &mut Reader) -> Result<Placed<u64>, TextFault>
    ensures read { Steps (λ x. x.place) (λ x. pos x.value) result reader.new (next version_word reader.old) }
{
    let (bytes, place) = reader.token()?;
    if bytes == b"1".as_slice() {
        return Ok(Placed { value: 1, place });
    }
    if bytes == b"2".as_slice() {
        return Ok(Placed { value: 2, place });
    }
    Err(TextFault::Word(place))
}

/// Reads the first word, and the version.
#[tactic(auto, unfolding(sbpl_fixed::specs::Formats::reads, crate::specs::Format::title_format))]
fn read_title(reader: &mut Reader) -> Result<u64, LabelFault>
    ensures read { Gives Memory (λ x. x) result reader.new (reads told title_format reader.old) }
{
    reader.word(b"labels")?;
    let version = next_version(reader)?;
    Ok(version.value)
}

/// Reads a word, and a number that must be `n`.
#[tactic(auto, unfolding(sbpl_fixed::specs::Formats::reads, crate::specs::Format::count_format))]
fn read_count(word: &[u8], n: u32, reader: &mut Reader) -> Result<(), LabelFault>
    ensures read { Gives Memory (λ x. x) result reader.new (reads told (count_format word.now n) reader.old) }
{
    reader.word(word)?;
    let count = next_digits(reader, COUNT_END)?;
    if count.value == u64::from(n) {
        Ok(())
    } else {
        Err(LabelFault::Count(count.place))
    }
}

#[tactic(auto, unfolding(sbpl_fixed::specs::Formats::reads, crate::specs::Format::low_format))]
fn read_low(reader: &mut Reader) -> Result<u64, LabelFault>
    ensures read { Gives Memory (λ x. x) result reader.new (reads told low_format reader.old) }
{
    reader.word(b"low")?;
    let low = next_label(reader, LOW_END)?;
    Ok(low.value)
}

/// Reads the rest of the first line of a section in full. Answers the low.
#[tactic(auto, using(sbpl_fixed::specs::Parts::reads_and_then), unfolding(sbpl_fixed::specs::Formats::reads, crate::specs::Format::head_format))]
fn read_head(plan: u32, states: u32, reader: &mut Reader) -> Result<u64, LabelFault>
    ensures read { Gives Memory (λ x. x) result reader.new (reads told (head_format plan states) reader.old) }
{
    read_count(b"plan", plan, reader)?;
    read_count(b"states", states, reader)?;
    read_low(reader)
}

/// Reads how many rows there are.
#[tactic(auto, unfolding(sbpl_fixed::specs::Formats::reads, crate::specs::Format::rows_format))]
fn read_row_count(states: u32, reader: &mut Reader) -> Result<u32, LabelFault>
    ensures read { Gives Memory (λ x. x) result reader.new (reads told (rows_format states) reader.old) }
{
    reader.word(b"rows")?;
    let count = next_digits(reader, u64::from(states) + 1)?;
    Ok(count.value as u32)
}

/// Reads the rest of the first line of a sparse section. Answers the number of rows and the low.
#[tactic(auto, using(sbpl_fixed::specs::Parts::reads_and_then), unfolding(sbpl_fixed::specs::Formats::reads, crate::specs::Format::sparse_head_format))]
fn read_sparse_head(plan: u32, states: u32, reader: &mut Reader) -> Result<(u32, u64), LabelFault>
    ensures read { Gives Memory (λ x. x) result reader.new (reads told (sparse_head_format plan states) reader.old) }
{
    read_count(b"plan", plan, reader)?;
    read_count(b"states", states, reader)?;
    let rows = read_row_count(states, reader)?;
    let low = read_low(reader)?;
    Ok((rows, low))
}

/// Reads one more arc number.
#[tactic(auto, unfolding(sbpl_fixed::specs::Formats::reads, crate::specs::Format::arc_turn))]
fn read_arc(arcs: &mut Vec<u32>, reader: &mut Reader) -> Result<(), LabelFault>
    ensures read { Gives Memory (λ _. arcs.new.items) result reader.new (reads told (arc_turn arcs.old.items) reader.old) }
{
    let arc = next_digits(reader, ARC_END)?;
    arcs.push(arc.value as u32)?;
    Ok(())
}

/// Reads this number of further arc numbers.
fn read_arcs(count: u32, arcs: &mut Vec<u32>, reader: &mut Reader) -> Result<(), LabelFault>
    ensures read { Gives Memory (λ _. arcs.new.items) result reader.new
        (reads told (turns count arc_turn arcs.old.items) reader.old) }
{
    for _ in 0..count {
        read_arc(arcs, reader)?;
    }
    Ok(())
}

/// Reads a path after its word.
#[tactic(auto, using(sbpl_fixed::specs::Parts::reads_and_then), unfolding(sbpl_fixed::specs::Formats::reads, crate::specs::Format::path_format))]
fn read_path(alloc: Global, reader: &mut Reader) -> Result<(Outcome, Arcs), LabelFault>
    ensures read { Gives Memory (λ x. (x.0, x.1)) result reader.new (reads told path_format reader.old) }
{
    let cost = next_digits(reader, LABEL_END)?.value;
    let bound = next_bound(reader)?.value;
    let count = next_digits(reader, ARCS_END)?.value;
    let mut arcs = Vec::new(alloc);
    read_arcs(count as u32, &mut arcs, reader)?;
    Ok((Outcome::Path { cost, bound }, Arcs::of(arcs)))
}

/// Reads the outcome, with the arcs of a path.
#[tactic(auto, unfolding(sbpl_fixed::specs::Formats::reads, sbpl_fixed::specs::Formats::next, crate::specs::Format::outcome_format))]
fn read_outcome(alloc: Global, reader: &mut Reader) -> Result<(Outcome, Arcs), LabelFault>
    ensures read { Gives Memory (λ x. (x.0, x.1)) result reader.new (reads told outcome_format reader.old) }
{
    let (word, place) = reader.token()?;
    if word == b"path".as_slice() {
        return read_path(alloc, reader);
    }
    let outcome = if word == b"nopath".as_slice() {
        Outcome::NoPath
    } else if word == b"unknown".as_slice() {
        Outcome::Unknown
    } else {
        return Err(LabelFault::Word(place));
    };
    Ok((outcome, Arcs::of(Vec::new(alloc))))
}

/// Reads the row of a state.
#[tactic(auto, unfolding(sbpl_fixed::specs::Formats::reads, crate::specs::Format::row_format))]
fn read_row(reader: &mut Reader) -> Result<Row, LabelFault>
    ensures read { Gives Memory (λ x. x) result reader.new (reads told row_format reader.old) }
{
    let g = next_label(reader, LABEL_END)?.value;
    let v = next_label(reader, LABEL_END)?.value;
    let h = next_digits(reader, GUIDE_END)?.value;
    Ok(Row { g, v, h })
}

/// Reads one more row.
#[tactic(auto, using(sbpl_fixed::specs::Parts::reads_and_then), unfolding(sbpl_fixed::specs::Formats::reads, crate::specs::Format::row_turn))]
fn read_next_row(rows: &mut Vec<Row>, reader: &mut Reader) -> Result<(), LabelFault>
    ensures read { Gives Memory (λ _. rows.new.items) result reader.new (reads told (row_turn rows.old.items) reader.old) }
{
    let row = read_row(reader)?;
    rows.push(row)?;
    Ok(())
}

/// Reads this number of further rows.
fn read_rows(count: u32, rows: &mut Vec<Row>, reader: &mut Reader) -> Result<(), LabelFault>
    ensures read { Gives Memory (λ _. rows.new.items) result reader.new
        (reads told (turns count row_turn rows.old.items) reader.old) }
{
    for _ in 0..count {
        read_next_row(rows, reader)?;
    }
    Ok(())
}

/// Reads the row of a state from `least` to below `states`.
#[tactic(auto, unfolding(sbpl_fixed::specs::Formats::reads, crate::specs::Format::sparse_row_format))]
fn read_sparse_row(least: u32, states: u32, reader: &mut Reader) -> Result<SparseRow, LabelFault>
    ensures read { Gives Memory (λ x. x) result reader.new (reads told (sparse_row_format least states) reader.old) }
    ensures inside { IfOk result (λ row. row.state < states) }
{
    let state = next_digits_from(reader, u64::from(least), u64::from(states))?.value as u32;
    let g = next_label(reader, LABEL_END)?.value;
    let v = next_label(reader, LABEL_END)?.value;
    Ok(SparseRow { state, g, v })
}

/// Reads one more row, of a state from `least` on. Answers the state after that.
#[tactic(auto, using(sbpl_fixed::specs::Parts::reads_and_then), unfolding(sbpl_fixed::specs::Formats::reads, crate::specs::Format::sparse_turn))]
fn read_next_sparse_row(
    least: u32,
    states: u32,
    rows: &mut Vec<SparseRow>,
    reader: &mut Reader,
) -> Result<u32, LabelFault>
    ensures read { Gives Memory (λ next. (next, rows.new.items)) result reader.new
        (reads told (sparse_turn states (least, rows.old.items)) reader.old) }
{
    let row = read_sparse_row(least, states, reader)?;
    rows.push(row)?;
    Ok(row.state + 1)
}

/// Reads this number of further rows, upwards from `least`. Answers the state after the last of them.
fn read_sparse_rows(
    count: u32,
    mut least: u32,
    states: u32,
    rows: &mut Vec<SparseRow>,
    reader: &mut Reader,
) -> Result<u32, LabelFault>
    ensures read { Gives Memory (λ next. (next, rows.new.items)) result reader.new
        (reads told (turns count (sparse_turn states) (least, rows.old.items)) reader.old) }
{
    for _ in 0..count {
        least = read_next_sparse_row(least, states, rows, reader)?;
    }
    Ok(least)
}

/// Reads the parts of a section in full that stand between its version and its last word.
#[tactic(auto, using(sbpl_fixed::specs::Parts::reads_and_then), unfolding(sbpl_fixed::specs::Formats::reads, crate::specs::Format::full_format))]
fn read_full_parts(
    alloc: Global,
    plan: u32,
    states: u32,
    reader: &mut Reader,
) -> Result<(u64, Outcome, Arcs, Vec<Row>), LabelFault>
    ensures read { Gives Memory (λ x. record { plan = plan; low = x.0; outcome = x.1; arcs = x.2; labels = x.3.items })
        result reader.new (reads told (full_format plan states) reader.old) }
{
    let low = read_head(plan, states, reader)?;
    let (outcome, arcs) = read_outcome(alloc, reader)?;
    let mut rows = Vec::with_capacity(alloc, states as usize)?;
    read_rows(states, &mut rows, reader)?;
    Ok((low, outcome, arcs, rows))
}

/// Reads a section in full after its version, up to its last word.
fn read_full(
    alloc: Global,
    plan: u32,
    states: u32,
    reader: &mut Reader,
) -> Result<LabelSet, LabelFault>
    ensures read { Gives Memory (λ x. x) result reader.new (reads told (full_format plan states) reader.old) }
{
    unsigned_numbers_are_their_digits();
    reading_is_what_is_said::<LabelFault, LabelSet>();
    let (low, outcome, arcs, rows) = read_full_parts(alloc, plan, states, reader)?;
    Ok(LabelSet {
        plan,
        low,
        outcome,
        arcs,
        labels: Rows::of(rows),
    })
}

/// Reads the parts of a sparse section that stand between its version and its last word.
#[tactic(auto, using(sbpl_fixed::specs::Parts::reads_and_then), unfolding(sbpl_fixed::specs::Formats::reads, crate::specs::Format::sparse_format))]
fn read_sparse_parts(
    alloc: Global,
    plan: u32,
    states: u32,
    reader: &mut Reader,
) -> Result<(u64, Outcome, Arcs, Vec<SparseRow>), LabelFault>
    ensures read { Gives Memory (λ x. record {
      plan = plan;
      states = states;
      low = x.0;
      outcome = x.1;
      arcs = x.2;
      rows =
          x.3.items;
    }) result reader.new (reads told (sparse_format plan states) reader.old) }
{
    let (count, low) = read_sparse_head(plan, states, reader)?;
    let (outcome, arcs) = read_outcome(alloc, reader)?;
    let mut rows = Vec::with_capacity(alloc, count as usize)?;
    read_sparse_rows(count, 0, states, &mut rows, reader)?;
    Ok((low, outcome, arcs, rows))
}

/// Reads a sparse section after its version, up to its last word.
fn read_sparse(
    alloc: Global,
    plan: u32,
    states: u32,
    reader: &mut Reader,
) -> Result<SparseSet, LabelFault>
    ensures read { Gives Memory (λ x. x) result reader.new (reads told (sparse_format plan states) reader.old) }
{
    unsigned_numbers_are_their_digits();
    reading_is_what_is_said::<LabelFault, SparseSet>();
    let (low, outcome, arcs, rows) = read_sparse_parts(alloc, plan, states, reader)?;
    Ok(SparseSet {
        plan,
        states,
        low,
        outcome,
        arcs,
        rows: SparseRows::of(rows),
    })
}

/// Reads a section up to its last word.
#[tactic(auto, using(sbpl_fixed::specs::Parts::reads_and_then), unfolding(sbpl_fixed::specs::Formats::reads, crate::specs::Format::front_format))]
fn read_front(
    alloc: Global,
    plan: u32,
    states: u32,
    reader: &mut Reader,
) -> Result<Section, LabelFault>
    ensures read { Gives Memory (λ x. x) result reader.new (reads told (front_format plan states) reader.old) }
{
    if read_title(reader)? == 1 {
        let set = read_full(alloc, plan, states, reader)?;
        return Ok(Section::Full(set));
    }
    let set = read_sparse(alloc, plan, states, reader)?;
    Ok(Section::Sparse(set))
}

/// Reads a section, and answers where its last word stands.
#[tactic(auto, using(sbpl_fixed::specs::Parts::reads_and_then), unfolding(sbpl_fixed::specs::Formats::reads, crate::specs::Format::section_format))]
fn read_section(
    alloc: Global,
    plan: u32,
    states: u32,
    reader: &mut Reader,
) -> Result<(Section, usize), LabelFault>
    ensures read { Gives Memory (λ x. x.0) result reader.new (reads told (section_format plan states) reader.old) }
    ensures last { IfOk result
        (λ x. EndsWith reader.old.tokens (record { place = x.1; bytes = codes "end" } ∷ reader.new.tokens)) }
    ensures end { IfOk result (λ _. reader.new.end ≡ reader.old.end) }
{
    reading_is_what_is_said::<LabelFault, Section>();
    let set = read_front(alloc, plan, states, reader)?;
    let place = reader.word(b"end")?;
    Ok((set, place))
}

/// Reads a section, exactly as the format reads.
fn read_exactly(
    alloc: Global,
    text: &[u8],
    at: usize,
    plan: u32,
    states: u32,
) -> Result<(Section, usize), LabelFault>
    requires inside { at ≤ length text.now }
    ensures inside { IfOk result (λ x. (at < x.1) × (x.1 ≤ length text.now)) }
    ensures after { IfOk result (λ x. IsAfterEnd text.now at x.1) }
    ensures exact { Answers Memory (λ x. (x.0, start_at text.now x.1)) result
        (reads told (section_format plan states) (start_at text.now at)) }
{
    tokens_are_longest_runs();
    let mut reader = Reader::from(text, at);
    let (set, place) = read_section(alloc, plan, states, &mut reader)?;
    Ok((set, place + LAST_LENGTH))
}

/// Reads the section of either version that begins at an offset of a text, and answers the offset after it. Where the text
/// ends before the offset it has no more tokens. The section must be of this plan and this number of states. Any blanks
/// separate its tokens. Any other text has exactly one first fault in reading order, which is answered with its place.
/// `Trailing` is never answered, since more sections may follow this one. `NoMemory` says nothing of the text.
pub fn read_labels(
    alloc: Global,
    text: &[u8],
    at: usize,
    plan: u32,
    states: u32,
) -> Result<(Section, usize), LabelFault>
    // It is of the plan and of the number of states that were passed.
    ensures given { IfOk result (λ x. IsOf plan states x.0) }
    // The offset that is answered lies after `at` and in the text: right after the section's last word.
    ensures inside { IfOk result (λ x. (at < x.1) × (x.1 ≤ length text.now)) }
    ensures after { IfOk result (λ x. IsAfterEnd text.now at x.1) }
    // The tokens from `at` on stand for what is read, one by one, and then go on from the offset that is answered.
    ensures found { IfOk result (λ x. AreTokensOf (tokens_from text.now at) x.0 (tokens_from text.now x.1)) }
    // What the tokens stand for is read, unless memory runs out.
    ensures only { (s : ASection) (rest : List Piece) → IsOf plan states s → AreTokensOf (tokens_from text.now at) s rest
        → Answers Memory (λ x. with_rest x.0 (tokens_from text.now x.1)) result (Ok (with_rest s rest)) }
    // The fault is the first one, where it stands.
    ensures faulty { IfErr result (λ e. e ≢ Memory → HasFault plan states (start_at text.now at) e) }
    // A first fault is answered, unless memory runs out.
    ensures only_faulty { (e : AFault) → HasFault plan states (start_at text.now at) e
        → Answers Memory (λ x. x.0) result (Err e) }
    // All of this at once: the answer is what reading by the format gives.
    ensures exact { Answers Memory (λ x. (x.0, start_at text.now x.1)) result
        (reads told (section_format plan states) (start_at text.now at)) }
{
    unsigned_numbers_are_their_digits();
    reading_is_what_is_said::<LabelFault, Section>();
    read_exactly(alloc, text, at.min(text.len()), plan, states)
}
