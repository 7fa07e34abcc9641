//! What a line says.

ghost use Rattle.std.specs.Prelude.{◌≡◌, ◌<◌, Some, option_map, IfOk, IfSome};
ghost use Rattle.sbpl_map.specs.Fields.{fields};
ghost use Rattle.sbpl_map.specs.Reading.{at_line, cell_said, ended, in_range, judged, lacks_form, measured, numbers, on_map};
ghost use Rattle.sbpl_map.specs.Reading.{started, three};

use crate::fault::ChangeFault;
use crate::line::first_field;
use crate::line_fault::LineFault;
use crate::map::Map;
use crate::said::Said;
use crate::write::Write;
use sbpl_cfg::{NumFault, Place, read_whole};

/// A cost is below this.
const COSTS: u32 = 256;

/// Whether a text does not have the form of a number.
pub fn lacks_form(read: Result<i64, NumFault>) -> bool
    ensures form { result ≡ lacks_form read }
{
    match read {
        Err(NumFault::Form) => true,
        Ok(_) | Err(NumFault::Size) => false,
    }
}

/// A number that was read, where it lies in `0..limit`.
fn in_range(read: Result<i64, NumFault>, limit: u32) -> Option<u32>
    ensures value { result ≡ in_range limit read }
    ensures small { IfSome result (λ n. n < limit) }
{
    match read {
        Ok(n) if 0 <= n && n < i64::from(limit) => Some(n as u32),
        _ => None,
    }
}

/// The fault of the line with this number.
fn at_line(number: u64, fault: LineFault) -> ChangeFault
    ensures fault { result ≡ at_line number fault }
{
    match fault {
        LineFault::Word => ChangeFault::Word(number),
        LineFault::Number => ChangeFault::Number(number),
        LineFault::Range => ChangeFault::Range(number),
        LineFault::OffMap => ChangeFault::OffMap(number),
    }
}

/// A cell and a third number, or `OffMap` where the cell is not on the map.
fn on_map(map: &Map, x: u32, y: u32, third: u32) -> Result<(u32, u32, u32), LineFault>
    ensures three { result ≡ on_map map.now (Some x) (Some y) (Some third) }
    ensures third { IfOk result (λ n. n.2 ≡ third) }
{
    if x < map.width() && y < map.height() {
        Ok((x, y, third))
    } else {
        Err(LineFault::OffMap)
    }
}

/// The numbers of three fields: each must be a whole number, then each in its range, and then the cell on the map. A column or
/// a row that a line names is below `states`, the limit of states, and the third number below `limit`.
fn measured(
    map: &Map,
    limit: u32,
    x: Result<i64, NumFault>,
    y: Result<i64, NumFault>,
    third: Result<i64, NumFault>,
    states: u32,
) -> Result<(u32, u32, u32), LineFault>
    ensures three { result ≡ measured states map.now limit x y third }
    ensures small { IfOk result (λ n. n.2 < limit) }
{
    if lacks_form(x) || lacks_form(y) || lacks_form(third) {
        return Err(LineFault::Number);
    }
    match (
        in_range(x, states),
        in_range(y, states),
        in_range(third, limit),
    ) {
        (Some(x), Some(y), Some(third)) => on_map(map, x, y, third),
        _ => Err(LineFault::Range),
    }
}

/// The fields of a line that has just three.
fn three_fields(line: &[u8]) -> Option<(&[u8], &[u8], &[u8])>
    ensures fields { three (fields line.now) ≡ option_map (λ t. (t.0.now, t.1.now, t.2.now)) result }
{
    let (x, rest) = first_field(line)?;
    let (y, rest) = first_field(rest)?;
    let (third, rest) = first_field(rest)?;
    match first_field(rest) {
        Some(_) => None,
        None => Some((x, y, third)),
    }
}

/// The numbers of the fields that stand after the word of a line that wants three: a cell of the map, whose column and row are
/// below `states`, the limit of states, and a third number below `limit`. The fault is `Word` where the fields are not three,
/// otherwise `Number` where one is no whole number, otherwise `Range` where one is outside its range, otherwise `OffMap`. No
/// memory is taken.
pub fn read_three(
    line: &[u8],
    map: &Map,
    limit: u32,
    states: u32,
) -> Result<(u32, u32, u32), LineFault>
    ensures three { result ≡ numbers states map.now limit (three (fields line.now)) }
    ensures small { IfOk result (λ n. n.2 < limit) }
{
    match three_fields(line) {
        Some((x, y, third)) => measured(
            map,
            limit,
            read_whole(x),
            read_whole(y),
            read_whole(third),
            states,
        ),
        None => Err(LineFault::Word),
    }
}

/// The write of the fields after the word of a cell.
fn written(map: &Map, number: u64, line: &[u8], states: u32) -> Result<Said, ChangeFault>
    ensures said { result ≡ cell_said number (numbers states map.now 256 (three (fields line.now))) }
{
    match read_three(line, map, COSTS, states) {
        Ok((x, y, cost)) => {
            let cost = cost as u8;
            Ok(Said::Cell(Write { x, y, cost }))
        }
        Err(fault) => Err(at_line(number, fault)),
    }
}

/// Where the robot is by the fields after the word of a start, where lines can say so.
fn started(
    map: &Map,
    headings: Option<u32>,
    number: u64,
    line: &[u8],
    states: u32,
) -> Result<Said, ChangeFault>
    ensures said { result ≡ started states map.now headings number (fields line.now) }
{
    let Some(headings) = headings else {
        return Err(ChangeFault::Word(number));
    };
    match read_three(line, map, headings, states) {
        Ok((x, y, t)) => Ok(Said::Start(Place { x, y, t })),
        Err(fault) => Err(at_line(number, fault)),
    }
}

/// The end of a batch, after whose word nothing may stand.
fn ended(number: u64, line: &[u8]) -> Result<Said, ChangeFault>
    ensures end { result ≡ ended number (fields line.now) }
{
    match first_field(line) {
        Some(_) => Err(ChangeFault::Word(number)),
        None => Ok(Said::Replan),
    }
}

/// What the line with this number says, or its fault. There are starts only where a number of headings is given.
#[tactic(auto, unfolding(crate::specs::Reading::judged))]
pub(crate) fn judged(
    map: &Map,
    headings: Option<u32>,
    number: u64,
    line: &[u8],
    states: u32,
) -> Result<Said, ChangeFault>
    ensures said { result ≡ judged states map.now headings number (fields line.now) }
{
    let Some((word, rest)) = first_field(line) else {
        return Ok(Said::Nothing);
    };
    if word == b"cell".as_slice() {
        written(map, number, rest, states)
    } else if word == b"start".as_slice() {
        started(map, headings, number, rest, states)
    } else if word == b"replan".as_slice() {
        ended(number, rest)
    } else {
        Err(ChangeFault::Word(number))
    }
}
