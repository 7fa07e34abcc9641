//! Maps, and the texts of changes to them.

ghost use Rattle.std.specs.Prelude.{◌≡◌, length};

use crate::texts::reads;
use sample_files::{E1, E2};
use sbpl_heur::{
    ChangeFault, Changes, Map, Moves, OffMap, Place, Write, read_changes, read_env, read_moves,
};
use std::alloc::Global;
use std::test::Fail;

/// The limit of states that texts are read with: the usual one.
const STATES: u32 = 8_388_608;

/// The map of an environment file.
pub(crate) fn map_of(alloc: Global, text: &str) -> Result<Map, Fail> {
    let (env, grid) = read_env(alloc, text.as_bytes(), STATES)?;
    let cells = grid.as_slice().len();
    if cells as u64 == u64::from(env.width) * u64::from(env.height) {
        Ok(Map::new(&env, grid))
    } else {
        Err(Fail::new("size"))
    }
}

/// Texts of changes of three cells in a row, each with `;` after it. After its arrow comes the fault where lines can say where
/// a robot is, as its number, name and line, and then the fault where they cannot.
const ROW_FAULTS: &str = "\
cell 3 0 1\nreplan\n => 4 OffMap 1, 4 OffMap 1;\
cell 0 1 1\nreplan\n => 4 OffMap 1, 4 OffMap 1;\
replan\ncell 1 0 5\n => 5 NoReplan 2, 5 NoReplan 2;\
cell 1 0 5\n\ncell 1 0 6\n \n => 5 NoReplan 3, 5 NoReplan 3;\
cell 1 0 5\ncells 1 0 5 => 1 Word 2, 1 Word 2;\
\n\t\n\r\nCell 1 0 5\n => 1 Word 4, 1 Word 4;\
cell 1 0\n => 1 Word 1, 1 Word 1;\
cell 1 0 5 6\n => 1 Word 1, 1 Word 1;\
replan 1\n => 1 Word 1, 1 Word 1;\
replan\r => 1 Word 1, 1 Word 1;\
replan\r\r\n => 1 Word 1, 1 Word 1;\
replan\x0b\n => 1 Word 1, 1 Word 1;\
cell 1\x0c0 5\n => 1 Word 1, 1 Word 1;\
cell 1 0 5.0\n => 2 Number 1, 2 Number 1;\
cell 1 0 5\r => 2 Number 1, 2 Number 1;\
cell 9999999999999999999 - 5\n => 2 Number 1, 2 Number 1;\
cell 9999999999999999999 0 5\n => 3 Range 1, 3 Range 1;\
cell -1 0 5\n => 3 Range 1, 3 Range 1;\
cell 8388608 0 5\n => 3 Range 1, 3 Range 1;\
cell 8388607 0 256\n => 3 Range 1, 3 Range 1;\
cell 8388607 0 255\n => 4 OffMap 1, 4 OffMap 1";

/// The same for two rows of three cells, with sixteen headings.
const HALL_FAULTS: &str = "\
start 0 0 16\nreplan\n => 3 Range 1, 1 Word 1;\
start 0 0 -1\nreplan\n => 3 Range 1, 1 Word 1;\
start 8388608 0 0\nreplan\n => 3 Range 1, 1 Word 1;\
start 3 0 0\nreplan\n => 4 OffMap 1, 1 Word 1;\
start 0 2 16\nreplan\n => 3 Range 1, 1 Word 1;\
start 0 1\nreplan\n => 1 Word 1, 1 Word 1;\
start 0 1 0 0\nreplan\n => 1 Word 1, 1 Word 1;\
starts 0 1 0\nreplan\n => 1 Word 1, 1 Word 1;\
start a 1 99\nreplan\n => 2 Number 1, 1 Word 1;\
cell 0 0 1\nreplan\nstart 0 1 0\n => 5 NoReplan 3, 1 Word 3;\
start 0 1 0\ncell 0 0 1\n => 5 NoReplan 2, 1 Word 1;\
cell 0 0 256\nstart 0 1 0\n => 3 Range 1, 3 Range 1;\
cell 0 0 255\n => 5 NoReplan 1, 5 NoReplan 1";

/// The fault of a text of changes that can say where a robot is, or that cannot.
fn fault_of(alloc: Global, map: &Map, text: &str, moves: bool) -> Option<ChangeFault> {
    if text.len() > 100 {
        return None;
    }
    if moves {
        read_moves(alloc, text.as_bytes(), map, 16, STATES).err()
    } else {
        read_changes(alloc, text.as_bytes(), map, STATES).err()
    }
}

/// Whether the fault of a text is this one: its number, name and line.
fn is_fault(alloc: Global, map: &Map, text: &str, moves: bool, want: &str) -> bool {
    match fault_of(alloc, map, text, moves) {
        Some(fault) => reads(
            format!(in alloc; "{} {} {}", fault.number(), fault.name(), fault.line()),
            want,
        ),
        None => false,
    }
}

/// Whether a text has the faults that a row says.
fn row_holds(alloc: Global, map: &Map, row: &str) -> Option<bool> {
    let (text, want) = row.split_once(" => ")?;
    let (moved, told) = want.split_once(", ")?;
    Some(is_fault(alloc, map, text, true, moved) && is_fault(alloc, map, text, false, told))
}

/// Whether each row of a table holds.
fn rows_hold(alloc: Global, map: &Map, table: &str) -> bool {
    for row in table.split(';') {
        if row_holds(alloc, map, row) != Some(true) {
            return false;
        }
    }
    true
}

/// What the first of three batches writes, and the last. The second writes nothing.
const FIRST: [Write; 2] = [
    Write {
        x: 2,
        y: 0,
        cost: 7,
    },
    Write {
        x: 0,
        y: 1,
        cost: 255,
    },
];

const LAST: [Write; 1] = [Write {
    x: 1,
    y: 0,
    cost: 0,
}];

/// Where the robot then is, by the last line of the first batch that says so, and not said by the second.
const THERE: [Option<Place>; 3] = [
    Some(Place { x: 0, y: 1, t: 0 }),
    None,
    Some(Place { x: 1, y: 0, t: 15 }),
];

/// Whether three batches are these.
fn are_batches(changes: &Changes, moves: &Moves) -> bool
    requires each { length moves.now ≡ length changes.now }
{
    if changes.batches() != 3 {
        return false;
    }
    let there = [moves.at(0), moves.at(1), moves.at(2)];
    changes.batch(0) == FIRST.as_slice()
        && changes.batch(1).is_empty()
        && changes.batch(2) == LAST.as_slice()
        && there == THERE
}

/// Three batches for two rows of three cells.
const TEXT: &str =
    "\t cell +02\t000 007 \r\n\n  \t\nstart 2 1 15\ncell 0 1 255\nstart\t0 1 0\r\nreplan\r\nreplan\n start +1 0 015\ncell 1 -0 0\n replan";

/// Whether the text has these batches, and a text of blanks alone has none.
fn are_read(alloc: Global, map: &Map) -> bool {
    let Ok((changes, moves)) = read_moves(alloc, TEXT.as_bytes(), map, 16, STATES) else {
        return false;
    };
    let are = are_batches(&changes, &moves);
    drop((changes, moves));
    let Ok(none) = read_changes(alloc, b" \r\n", map, STATES) else {
        return false;
    };
    are && none.batches() == 0
}

#[test]
fn a_text_gives_its_batches_or_its_first_fault(rt: HostRuntime) -> Result<(), Fail> {
    let map = map_of(rt.alloc(), E2)?;
    let are = are_read(rt.alloc(), &map);
    let hold = rows_hold(rt.alloc(), &map, HALL_FAULTS);
    drop(map);
    assert!(rt; are && hold);
    Ok(())
}

/// What was there before each write, or that it is off the map.
const WRITES: [Result<u8, OffMap>; 4] = [Ok(0), Ok(9), Err(OffMap), Err(OffMap)];

/// The costs after them.
const COSTS: [Option<u8>; 7] = [Some(0), Some(8), Some(0), None, None, None, None];

/// Writes to the middle of three cells in a row, and answers whether the map then has it, and nothing beside its cells.
fn takes_writes(map: &mut Map) -> bool {
    let size = (map.width(), map.height());
    let writes = [
        map.set(1, 0, 9),
        map.set(1, 0, 8),
        map.set(3, 0, 7),
        map.set(0, -1, 7),
    ];
    let costs = [
        map.cost(0, 0),
        map.cost(1, 0),
        map.cost(2, 0),
        map.cost(3, 0),
        map.cost(0, 1),
        map.cost(-1, 0),
        map.cost(0, -1),
    ];
    size == (3, 1) && writes == WRITES && costs == COSTS
}

#[test]
fn a_map_takes_writes_to_its_cells(rt: HostRuntime) -> Result<(), Fail> {
    let mut map = map_of(rt.alloc(), E1)?;
    let hold = rows_hold(rt.alloc(), &map, ROW_FAULTS);
    let takes = takes_writes(&mut map);
    drop(map);
    assert!(rt; takes && hold);
    Ok(())
}
