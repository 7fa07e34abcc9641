//! Lines of a session.

use crate::map::map_of;
use sample_files::E2;
use sbpl_heur::{Map, Place, Write};
use sbpl_live::{LineFault, Planner, SearchJob, Spoken, Wants, read_line, refused_line, wanted};
use std::alloc::Global;
use std::test::Fail;

/// The limit of states.
const STATES: u32 = 8_388_608;

/// Lines on two rows of three cells with sixteen headings, each with `;` after it. After its arrow comes its fault.
const FAULTS: &str = "\
cell 9 9 0 => OffMap;\
cell 1 0 => Word;\
cell 1 0 256 => Range;\
fly => Word;\
cell 1 0 x => Number;\
cell 9 9 x => Number;\
cell 9 9 256 => Range;\
start 3 0 0 => OffMap;\
start 9 9 16 => Range;\
goal 0 2 0 => OffMap;\
goal 0 2 16 => Range;\
goal a 9 99 => Number;\
goal 0 0 => Word;\
replan => Word;\
Plan => Word;\
plan\r => Word;\
plan first => Word;\
plan first 3 first 2 => Word;\
plan first x fast 2 => Word;\
plan budget x => Number;\
plan first x budget 0 => Number;\
plan budget 1.0 => Number;\
plan bound 0.5 => Range;\
plan first 1.0005 => Range;\
plan step 0 => Range;\
plan budget 1073741825 => Range;\
plan seconds 0.0009 => Range;\
plan seconds 1000000.000000001 => Range";

/// Whether a line has the fault that a row says.
fn row_holds(map: &Map, row: &str) -> Option<bool> {
    let (line, want) = row.split_once(" => ")?;
    let fault = read_line(line.as_bytes(), map, 16, STATES).err()?;
    Some(fault.name() == want)
}

/// Whether each line has its fault.
fn faults_hold(map: &Map) -> bool {
    for row in FAULTS.split(';') {
        if row_holds(map, row) != Some(true) {
            return false;
        }
    }
    true
}

/// A plan with the job's own settings.
const PLAIN: Wants = Wants {
    first: None,
    step: None,
    bound: None,
    budget: None,
    seconds: None,
};

/// A plan with other inflations.
const QUICK: Wants = Wants {
    first: Some(3000),
    step: None,
    bound: Some(3000),
    budget: None,
    seconds: None,
};

/// A plan with other limits.
const SHORT: Wants = Wants {
    first: None,
    step: Some(500),
    bound: None,
    budget: Some(7),
    seconds: Some(1_500_000),
};

/// Whether a line says this.
fn says(map: &Map, line: &[u8], want: Spoken) -> bool {
    read_line(line, map, 16, STATES) == Ok(want)
}

/// Whether lines of cells and places say what they should.
fn places_are_read(map: &Map) -> bool {
    let cell = Write {
        x: 1,
        y: 0,
        cost: 255,
    };
    let start = Place { x: 2, y: 1, t: 15 };
    let goal = Place { x: 2, y: 1, t: 0 };
    says(map, b"cell 1 0 255", Spoken::Cell(cell))
        && says(map, b"start 2 1 15", Spoken::Start(start))
        && says(map, b" goal\t+2 01 -0 ", Spoken::Goal(goal))
}

/// Whether lines that say nothing, and lines that ask for plans, say so.
fn plans_are_read(map: &Map) -> bool {
    says(map, b"", Spoken::Nothing)
        && says(map, b" \t", Spoken::Nothing)
        && says(map, b"# note", Spoken::Nothing)
        && says(map, b"\t#cell 9 9 0", Spoken::Nothing)
        && says(map, b"plan", Spoken::Plan(PLAIN))
        && says(map, b"plan first 3 bound 3", Spoken::Plan(QUICK))
        && says(
            map,
            b"plan seconds 0.0015000009 budget 7 step .5",
            Spoken::Plan(SHORT),
        )
}

/// Blanks, one more than a line may have.
const BLANKS: [u8; 4097] = [b' '; 4097];

/// Whether a line that is too long is refused, and one that is just not says nothing.
fn length_counts(map: &Map) -> bool {
    says(map, &BLANKS[1..], Spoken::Nothing)
        && read_line(&BLANKS, map, 16, STATES) == Err(LineFault::Word)
}

/// How a job is to be searched.
const HOW: SearchJob = SearchJob {
    planner: Planner::Ara,
    workers: 1,
    first: 5000,
    step: 100,
    bound: 1000,
    budget: 90,
};

/// Whether settings of one plan take the place of a job's.
fn settings_count() -> bool {
    let quick = SearchJob {
        first: 3000,
        bound: 3000,
        ..HOW
    };
    let short = SearchJob {
        step: 500,
        budget: 7,
        ..HOW
    };
    wanted(&HOW, &PLAIN) == HOW && wanted(&HOW, &QUICK) == quick && wanted(&HOW, &SHORT) == short
}

/// Whether a refusal is told.
fn refusal_is_told(alloc: Global) -> bool {
    match refused_line(alloc, 3, LineFault::Range) {
        Ok(line) => line.as_slice() == b"refused line 3 Range\n".as_slice(),
        Err(_) => false,
    }
}

#[test]
fn a_line_says_something_or_has_its_fault(rt: HostRuntime) -> Result<(), Fail> {
    let map = map_of(rt.alloc(), E2)?;
    let hold = faults_hold(&map) && length_counts(&map);
    let are = places_are_read(&map) && plans_are_read(&map);
    drop(map);
    let told = refusal_is_told(rt.alloc());
    assert!(rt; hold && are && told && settings_count());
    Ok(())
}
