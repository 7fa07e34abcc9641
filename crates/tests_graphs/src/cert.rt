//! Texts of both versions on graphs of three states.

ghost use Rattle.std.specs.Prelude.{◌≡◌};

use crate::table::{Table, row};
use crate::texts::{put_altered, reads};
use sbpl_cert::{
    Flaw, LabelFault, Section, check, check_sparse, read_labels, write_labels, write_sparse,
};
use sbpl_plan::Zero;
use std::alloc::{AllocError, Global};
use std::test::Fail;

/// The labels of a corridor of three states: two arcs of cost 25, one after the other.
const FULL: &str =
    "labels 1 plan 0 states 3 low 50\npath 50 1.000 2 0 0\n0 0 50\n25 25 25\n50 - 0\nend\n";

/// The same labels in version 2.
const SPARSE: &str =
    "labels 2 plan 0 states 3 rows 3 low 50\npath 50 1.000 2 0 0\n0 0 0\n1 25 25\n2 50 -\nend\n";

/// Lines of the corridor by their numbers, counted from 0, with other texts. After the arrow the fault, as its number, name and
/// place, or the flaw, as its number, name and values, or that the section holds. The five rows before the first that holds
/// have two faults: at one number the form comes first, then the range, then the count, and all before the next token. Infinity
/// is 2^63. A state whose g and v differ limits the low, and one whose labels are equal does not.
const FULL_ROWS: &str = "\
0 label 1 plan 0 states 3 low 50 => 1 Word 0
0 labels 01 plan 0 states 3 low 50 => 1 Word 7
0 labels 3 plan 0 states 3 low 50 => 1 Word 7
0 labels 2 plan 0 states 3 low 50 => 1 Word 25
1 paths 50 1.000 2 0 0 => 1 Word 32
4 50 - 0 50 - 0 => 1 Word 75
0 labels 1 plan +0 states 3 low 50 => 2 Number 14
0 labels 1 plan 0 states 3 low -1 => 2 Number 29
1 path - 1.000 2 0 0 => 2 Number 37
1 path 50 .500 2 0 0 => 2 Number 40
1 path 50 1.00 2 0 0 => 2 Number 40
1 path 50 1.0000 2 0 0 => 2 Number 40
2 0 -- 50 => 2 Number 54
4 50 - - => 2 Number 73
0 labels 1 plan 0 states 3 low 9223372036854775808 => 3 Range 29
1 path 4611686018427387904 1.000 2 0 0 => 3 Range 37
1 path 50 0.500 2 0 0 => 3 Range 40
1 path 50 1267650600228229401496703205.376 2 0 0 => 3 Range 40
1 path 50 1.000 268435456 0 0 => 3 Range 46
1 path 50 1.000 2 4096 0 => 3 Range 48
2 4611686018427387904 0 50 => 3 Range 52
2 0 0 36028797018963968 => 3 Range 56
5  => 4 Ended 76
0 labels 1 plan 1 states 3 low 50 => 6 Count 14
0 labels 1 plan 0 states 2 low 50 => 6 Count 23
0 labels 1 plan 1.0 states x low 50 => 2 Number 14
0 labels 1 plan 4294967296 states x low 50 => 3 Range 14
0 labels 1 plan 1 states x low 50 => 6 Count 14
0 labels 1 plan 0 states 4294967296 low x => 3 Range 23
0 labels 1 plan 0 states 4 low x => 6 Count 23
0 labels 1 plan 0 states 3 low 50 => holds
2 1 0 50 => 1 Start Start { g: 1 }
3 26 25 25 => 2 Arc Arc { state: 0, arc: 0, has: 26, most: 25 }
4 50 - 1 => 3 Guide GoalGuide { has: 1 }
2 0 0 51 => 3 Guide Guide { state: 0, arc: 0, has: 51, most: 50 }
0 labels 1 plan 0 states 3 low - => 4 Low Low { state: 2, has: 9223372036854775808, most: 50 }
2 0 - 49 => 4 Low Low { state: 0, has: 50, most: 49 }
2 0 0 49 => holds
1 path 50 1.000 2 1 0 => 5 Path Path { step: 0 }
1 path 50 1.000 3 0 0 0 => 5 Path Path { step: 2 }
1 path 51 1.000 2 0 0 => 6 Cost Cost { has: 51, sum: 50 }
1 path 50 1.001 2 0 0 => 7 Bound Bound { has: 1001, least: Some(1000) }
0 labels 1 plan 0 states 3 low 40 => 7 Bound Bound { has: 1000, least: Some(1250) }
0 labels 1 plan 0 states 3 low 0 => 7 Bound Bound { has: 1000, least: None }
1 path 25 1.000 1 0 => 8 Goal Goal { state: 1 }
1 nopath => 8 Goal Goal { state: 2 }
1 unknown => holds";

/// The same of the sparse corridor. Where one row is left out the next token is read in its place; where there is one too many it
/// stands where the last word must. The six rows before the first that holds have two faults. A state without a row has infinite
/// labels.
const SPARSE_ROWS: &str = "\
0 labels 3 plan 0 states 3 rows 3 low 50 => 1 Word 7
0 labels 1 plan 0 states 3 rows 3 low 50 => 1 Word 25
0 labels 2 plan 0 states 3 low 50 => 1 Word 25
0 labels 2 plan 0 states 3 rows 2 low 50 => 1 Word 73
5 fin => 1 Word 80
0 labels 2 plan 0 states 3 rows - low 50 => 2 Number 30
2 -0 0 0 => 2 Number 59
4 2 -- - => 2 Number 75
4 2 50 => 2 Number 78
4  => 2 Number 74
0 labels 2 plan 0 states 3 rows 4 low 50 => 3 Range 30
0 labels 2 plan 0 states 3 rows 3 low 9223372036854775808 => 3 Range 36
3 0 25 25 => 3 Range 65
2 1 0 0 => 3 Range 65
4 3 50 - => 3 Range 73
2 4294967296 0 0 => 3 Range 59
4 2 4611686018427387904 - => 3 Range 75
5  => 4 Ended 81
0 labels 2 plan 1 states 3 rows 3 low 50 => 6 Count 14
0 labels 2 plan 0 states 2 rows 3 low 50 => 6 Count 23
0 labels 2 plan 0 states 4 rows 5 low 50 => 6 Count 23
0 labels 2 plan 0 states 3 rows 4.0 low 50 => 2 Number 30
0 labels 2 plan 0 states 3 rows 4 low x => 3 Range 30
3 0.0 25 25 => 2 Number 65
3 0 x 25 => 3 Range 65
4 3 - x => 3 Range 73
0 labels 2 plan 0 states 3 rows 3 low 50 => holds
2 0 1 0 => 1 Start Start { g: 1 }
2 0 - 0 => 1 Start Start { g: 9223372036854775808 }
3 1 26 25 => 2 Arc Arc { state: 0, arc: 0, has: 26, most: 25 }
4 2 51 - => 2 Arc Arc { state: 1, arc: 0, has: 51, most: 50 }
0 labels 2 plan 0 states 3 rows 3 low - => 4 Low Low { state: 2, has: 9223372036854775808, most: 50 }
3 1 25 - => 4 Low Low { state: 1, has: 50, most: 25 }
1 path 50 1.000 2 1 0 => 5 Path Path { step: 0 }
1 path 50 1.000 3 0 0 0 => 5 Path Path { step: 2 }
1 path 51 1.000 2 0 0 => 6 Cost Cost { has: 51, sum: 50 }
1 path 50 1.001 2 0 0 => 7 Bound Bound { has: 1001, least: Some(1000) }
0 labels 2 plan 0 states 3 rows 3 low 40 => 7 Bound Bound { has: 1000, least: Some(1250) }
0 labels 2 plan 0 states 3 rows 3 low 0 => 7 Bound Bound { has: 1000, least: None }
1 path 25 1.000 1 0 => 8 Goal Goal { state: 1 }
1 nopath => 8 Goal Goal { state: 2 }
1 unknown => holds";

/// Whole texts for the corridor, as one line each. Leading zeros and other blanks are allowed. Of two flaws the first is answered:
/// labels along arcs come before the guide, the goal's guide before that of each arc, and the cost before the bound. An arc from a
/// state of finite v needs a finite g where it leads; one from a state whose v is infinite needs none. A text can end too early
/// before the first token, the number of rows, the outcome, the rows, the last row, and the last word.
const WHOLE_ROWS: &str = "\
0 labels\t1 plan 000 states 03\r low 050 path 050 01.000 02 00 0 0 00 50 025 25 25 50 - 0 end => holds
0 labels 1 plan 0 states 3 low 50 unknown 0 0 60 30 25 60 60 25 1 end => 2 Arc Arc { state: 0, arc: 0, has: 30, most: 25 }
0 labels 1 plan 0 states 3 low 50 unknown 0 0 60 25 25 60 50 - 1 end => 3 Guide GoalGuide { has: 1 }
0 labels 1 plan 0 states 3 low 50 path 25 1.001 2 0 0 0 0 50 25 25 25 50 - 0 end => 6 Cost Cost { has: 25, sum: 50 }
0 labels 2 plan 0 states 3 rows 1 low 0 unknown 1 25 25 end => 1 Start Start { g: 9223372036854775808 }
0 labels 2 plan 0 states 3 rows 0 low 0 unknown end => 1 Start Start { g: 9223372036854775808 }
0 labels 2 plan 0 states 3 rows 2 low 50 unknown 0 0 0 1 25 25 end => 2 Arc Arc { state: 1, arc: 0, has: 9223372036854775808, most: 50 }
0 labels 2 plan 0 states 3 rows 2 low 50 unknown 0 0 0 2 50 - end => 2 Arc Arc { state: 0, arc: 0, has: 9223372036854775808, most: 25 }
0 labels 2 plan 0 states 3 rows 2 low 25 path 50 2.000 2 0 0 0 0 0 1 25 - end => holds
0 labels\t2 plan 00 states 03\rrows 02 low 00 unknown 00 0 00 01 25 - end => holds
0  => 4 Ended 1
0 labels 2 plan 0 states 3 rows => 4 Ended 30
0 labels 2 plan 0 states 3 rows 3 low 50 => 4 Ended 39
0 labels 2 plan 0 states 3 rows 3 low 50 path 50 1.000 2 0 0 => 4 Ended 59
0 labels 2 plan 0 states 3 rows 3 low 50 path 50 1.000 2 0 0 0 0 0 1 25 25 => 4 Ended 73
0 labels 2 plan 0 states 3 rows 3 low 50 path 50 1.000 2 0 0 0 0 0 1 25 25 2 50 - => 4 Ended 80";

/// The same for the graph on which no way leads to the goal.
const PARTED_ROWS: &str = "\
0 labels 1 plan 0 states 3 low 0 nopath 0 0 50 25 25 25 - - 0 end => holds
0 labels 1 plan 0 states 3 low 0 nopath 0 0 50 25 - 25 - - 0 end => 8 Goal Goal { state: 1 }
0 labels 1 plan 0 states 3 low 0 nopath 0 - 50 - - 25 - - 0 end => 8 Goal Goal { state: 0 }
0 labels 2 plan 0 states 3 rows 2 low - nopath 0 0 0 1 25 25 end => holds
0 labels 2 plan 0 states 3 rows 2 low 0 nopath 0 0 0 1 25 - end => 8 Goal Goal { state: 1 }
0 labels 2 plan 0 states 3 rows 1 low 0 nopath 0 0 - end => 8 Goal Goal { state: 0 }";

/// A section in full of one state with the greatest bound, and one of no state after it.
const TWO: &str = "labels 1 plan 0 states 1 low -
path 3 1267650600228229401496703205.375 1 4095
0 - 7
end
labels 1 plan 1 states 0 low 0
nopath
end
";

/// A section in full, and a sparse one after it.
const MIXED: &str = "labels 1 plan 0 states 1 low 0
unknown
0 0 0
end
labels 2 plan 1 states 1 rows 1 low -
nopath
0 0 0
end
";

/// A sparse section, and one in full after it.
const SPARSE_FIRST: &str = "labels 2 plan 0 states 3 rows 3 low 50
path 50 1.000 2 0 0
0 0 0
1 25 25
2 50 -
end
labels 1 plan 1 states 3 low 50
path 50 1.000 2 0 0
0 0 50
25 25 25
50 - 0
end
";

/// What the check of a text says on this graph.
fn flaw_in(alloc: Global, graph: &Table, text: &[u8]) -> Result<Option<Flaw>, LabelFault>
    requires three { graph.now.last ≡ 2 }
{
    let (section, _after) = read_labels(alloc, text, 0, 0, 3)?;
    let checked = match &section {
        Section::Full(set) => check(graph, 0, 2, set),
        Section::Sparse(set) => check_sparse(graph, &Zero, 0, 2, set),
    };
    drop(section);
    Ok(checked.err())
}

/// The fault or the flaw of a text as a line, or that it holds.
fn said_of(alloc: Global, graph: &Table, text: &[u8]) -> Result<String, AllocError>
    requires three { graph.now.last ≡ 2 }
{
    match flaw_in(alloc, graph, text) {
        Ok(None) => String::from_str(alloc, "holds"),
        Ok(Some(flaw)) => { format!(in alloc; "{} {} {flaw:?}", flaw.number(), flaw.name()) }
        Err(fault) => { format!(in alloc; "{} {} {}", fault.number(), fault.name(), fault.place()) }
    }
}

/// Whether a text with another line has the fault or the flaw that a row says.
fn row_holds(alloc: Global, graph: &Table, whole: &str, row: &str) -> Option<bool>
    requires three { graph.now.last ≡ 2 }
{
    let (change, want) = row.split_once(" => ")?;
    let (at, line) = change.split_once(' ')?;
    let at = at.parse::<usize>().ok()?;
    let mut text = String::new(alloc);
    let is_made = put_altered(&mut text, whole, at, line).is_ok();
    let holds = reads(said_of(alloc, graph, text.as_bytes()), want);
    drop(text);
    Some(is_made && holds)
}

/// Whether each row of a table holds.
fn rows_hold(alloc: Global, graph: &Table, whole: &str, table: &str) -> bool
    requires three { graph.now.last ≡ 2 }
{
    for row in table.lines() {
        if row_holds(alloc, graph, whole, row) != Some(true) {
            return false;
        }
    }
    true
}

#[test]
fn texts_have_their_faults_and_flaws(rt: HostRuntime) {
    let (corridor, parted) = (row(25, 25), row(25, 0));
    let hold = [
        rows_hold(rt.alloc(), &corridor, FULL, FULL_ROWS),
        rows_hold(rt.alloc(), &corridor, SPARSE, SPARSE_ROWS),
        rows_hold(rt.alloc(), &corridor, "\n", WHOLE_ROWS),
        rows_hold(rt.alloc(), &parted, "\n", PARTED_ROWS),
    ];
    assert!(rt; hold == [true; 4]);
}

/// Reads a section and writes it again, and answers where it ends.
fn written_again(
    alloc: Global,
    text: &[u8],
    at: usize,
    plan: u32,
    states: u32,
    out: &mut Vec<u8>,
) -> Option<usize> {
    let Ok((section, after)) = read_labels(alloc, text, at, plan, states) else {
        return None;
    };
    let written = match &section {
        Section::Full(set) => write_labels(set, out),
        Section::Sparse(set) => write_sparse(set, out),
    };
    drop(section);
    written.is_ok().then_some(after)
}

/// Reads a text of two sections and writes them again. Answers where the first one ends, if they are written as they were and
/// nothing stands after the second.
fn both_written(
    alloc: Global,
    text: &[u8],
    first: u32,
    second: u32,
    out: &mut Vec<u8>,
) -> Option<usize> {
    out.clear();
    let middle = written_again(alloc, text, 0, 0, first, out)?;
    let after = written_again(alloc, text, middle, 1, second, out)?;
    let ended = match read_labels(alloc, text, after, 2, 0) {
        Ok((section, _after)) => {
            drop(section);
            false
        }
        Err(fault) => fault == LabelFault::Ended(text.len()),
    };
    (ended && out.as_slice() == text).then_some(middle)
}

#[test]
fn sections_are_written_as_they_were(rt: HostRuntime) -> Result<(), Fail> {
    let mut out = Vec::new(rt.alloc());
    let ends = [
        both_written(rt.alloc(), TWO.as_bytes(), 1, 0, &mut out),
        both_written(rt.alloc(), MIXED.as_bytes(), 1, 1, &mut out),
        both_written(rt.alloc(), SPARSE_FIRST.as_bytes(), 3, 3, &mut out),
    ];
    drop(out);
    assert!(rt; ends == [Some(87), Some(48), Some(83)]);
    Ok(())
}
