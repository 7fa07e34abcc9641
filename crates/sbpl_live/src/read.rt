//! A line of a session is read.

ghost use Rattle.std.specs.Prelude.{◌≡◌, IfErr, IfOk};
ghost use Rattle.sbpl_map.specs.Fields.{fields};
ghost use Rattle.sbpl_map.specs.Reading.{numbers, three};
ghost use Rattle.sbpl_live.specs.Lines.{HasFault, LineSays, scope_of};
ghost use Rattle.sbpl_live.specs.Reading.{cell_said, goal_said, heard, heard_in, is_note, start_said};
ghost use Rattle.sbpl_live.specs.Wanted.{AreInRange};

use crate::setting::planned;
use crate::spoken::Spoken;
use sbpl_map::{LineFault, Map, Place, Write, first_field, read_three};

/// A line has at most this many bytes.
const MOST_BYTES: usize = 4096;

/// A cost is below this.
const COSTS: u32 = 256;

/// Whether a line whose first field this is is a note.
fn is_note(word: &[u8]) -> bool
    ensures note { result ≡ is_note word.now }
{
    match word {
        [first, ..] => *first == b'#',
        [] => false,
    }
}

/// The write of the fields after the word of a cell.
fn cell(line: &[u8], map: &Map, states: u32) -> Result<Spoken, LineFault>
    ensures said { result ≡ cell_said (numbers states map.now 256 (three (fields line.now))) }
{
    let (x, y, cost) = read_three(line, map, COSTS, states)?;
    let cost = cost as u8;
    Ok(Spoken::Cell(Write { x, y, cost }))
}

/// Where the robot is by the fields after the word of a start.
fn start(line: &[u8], map: &Map, headings: u32, states: u32) -> Result<Spoken, LineFault>
    ensures said { result ≡ start_said (numbers states map.now headings (three (fields line.now))) }
{
    let (x, y, t) = read_three(line, map, headings, states)?;
    Ok(Spoken::Start(Place { x, y, t }))
}

/// Where the robot is to go by the fields after the word of a goal.
fn goal(line: &[u8], map: &Map, headings: u32, states: u32) -> Result<Spoken, LineFault>
    ensures said { result ≡ goal_said (numbers states map.now headings (three (fields line.now))) }
{
    let (x, y, t) = read_three(line, map, headings, states)?;
    Ok(Spoken::Goal(Place { x, y, t }))
}

/// What the fields of a line say, or their fault.
#[tactic(auto, unfolding(crate::specs::Reading::heard_in))]
fn heard_in(line: &[u8], map: &Map, headings: u32, states: u32) -> Result<Spoken, LineFault>
    ensures said { result ≡ heard_in (scope_of states map.now headings) (fields line.now) }
{
    let Some((word, rest)) = first_field(line) else {
        return Ok(Spoken::Nothing);
    };
    if is_note(word) {
        Ok(Spoken::Nothing)
    } else if word == b"cell".as_slice() {
        cell(rest, map, states)
    } else if word == b"start".as_slice() {
        start(rest, map, headings, states)
    } else if word == b"goal".as_slice() {
        goal(rest, map, headings, states)
    } else if word == b"plan".as_slice() {
        planned(rest)
    } else {
        Err(LineFault::Word)
    }
}

/// What a line says, or its fault.
fn heard(line: &[u8], map: &Map, headings: u32, states: u32) -> Result<Spoken, LineFault>
    ensures said { result ≡ heard (scope_of states map.now headings) line.now }
{
    if line.len() > MOST_BYTES {
        return Err(LineFault::Word);
    }
    heard_in(line, map, headings, states)
}

/// Reads one line of a session, without its line feed. Fields are separated by spaces and tabs. `cell X Y C` says that cell
/// (X, Y) costs C, 0 to 255, from now on; `start X Y T` that the robot is in this cell with heading T; `goal X Y T` that it is to
/// go there; and `plan`, with pairs of a setting's word and its value after it, that a plan is asked for. The words are `first`,
/// `step`, `bound`, `budget` and `seconds`, each at most once, in any order. A line without fields says nothing, and so does one
/// whose first byte that is no blank is `#`.
///
/// Faults come in this order: `Word` where there is no such line, or the line has more than 4096 bytes; `Number` where a
/// field that must be a number is none; `Range` where a number is outside its range, or an inflation is no whole number of
/// thousandths; `OffMap`. X and Y are below `states`, the limit of states, and T is below `headings`, the number of headings; then
/// the cell must be on the map, of which only the size counts. No memory is taken.
pub fn read_line(line: &[u8], map: &Map, headings: u32, states: u32) -> Result<Spoken, LineFault>
    // What is read is what the line says.
    ensures said { IfOk result (LineSays (scope_of states map.now headings) line.now) }
    // A fault is the line's.
    ensures faulty { IfErr result (HasFault (scope_of states map.now headings) line.now) }
    // The settings of a plan are in their ranges.
    ensures ranges { IfOk result AreInRange }
{
    heard(line, map, headings, states)
}
