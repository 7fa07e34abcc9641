//! Plans by ePA*SE with several workers, over a desk in memory.

ghost use Rattle.std.specs.Prelude.{◌<◌};

use crate::runs::{DETOUR, Files, reports};
use sample_files::{FIELD, car};
use sbpl_cli::{Gate, MemoryDesk, NoGate};
use std::alloc::Global;
use std::hint;
use std::sync::Wait;
use std::sync::atomic::{AtomicBool, AtomicU64, Ordering};
use std::test::Fail;
use std::thread::Threads;

/// How often a worker that is held up looks for another one.
const TURNS: u64 = 1 << 28;

/// A gate that holds the first judgement until a second has begun, or until the turns are used up; or that holds none.
#[derive(Drop)]
struct Held {
    /// How many judgements have begun, and one more where none is held.
    begun: AtomicU64,
    /// Whether a second one began while the first was held, or none is held.
    met: AtomicBool,
}

impl Held {
    /// Waits until a second judgement has begun, or until the turns are used up.
    fn hold(&self) {
        for _ in 0..TURNS {
            if self.begun.load(Ordering::SeqCst) > 1 {
                self.met.store(true, Ordering::SeqCst);
                return;
            }
            hint::spin_loop();
        }
    }
}

impl Gate for Held {
    fn before_judge(&self, _ticket: u64) {
        if self.begun.fetch_add(1, Ordering::SeqCst) == 0 {
            self.hold();
        }
    }
}

/// A number below `limit`, drawn from a word that each draw replaces.
fn draw(word: &mut u64, limit: u32) -> u32
    requires some { 0 < limit }
    ensures below { result < limit }
{
    *word = word
        .wrapping_mul(6_364_136_223_846_793_005)
        .wrapping_add(1_442_695_040_888_963_407);
    ((*word >> 33) % u64::from(limit)) as u32
}

/// A path of the least cost from the start on, and the last line. Which states are expanded depends on the workers, and
/// nothing is said of them.
const PATH: &str = ".. cost 100 bound 1.000\npose 0 0 0\n..\ndone\n";

/// What a check of labels writes, of one plan and of three.
const HOLDS: &str = "plan 0 path holds\ndone\n";

const ALL_HOLD: &str = "plan 0 path holds\nplan 1 path holds\nplan 2 path holds\ndone\n";

/// A grid with a wall in its middle.
static GRID: Files<'static> = [
    Some(
        "discretization(cells): 3 3
obsthresh: 100
start(cells): 0 0
end(cells): 2 2
environment:
0 0 0
0 100 0
0 0 0
",
    ),
    None,
    None,
];

/// Whether the first judgement is held; the words of a plan that workers make with labels, and the report; and then the
/// words of a check of these labels, and its report.
type Row = (bool, &'static str, &'static str, &'static str, &'static str);

/// Plans on the map with a way around, and one on the grid, round its wall.
static PLANS: [Row; 7] = [
    (
        false,
        "plan e m --planner epase --workers 1 --labels l",
        PATH,
        "check e m l",
        HOLDS,
    ),
    (
        false,
        "plan e m --planner epase --workers 2 --labels l",
        PATH,
        "check e m l",
        HOLDS,
    ),
    (
        true,
        "plan e m --planner epase --workers 2 --labels l",
        PATH,
        "check e m l",
        HOLDS,
    ),
    (
        false,
        "plan e m --planner epase --workers 4 --labels l",
        PATH,
        "check e m l",
        HOLDS,
    ),
    (
        false,
        "plan e m --planner epase --workers 64 --labels l",
        PATH,
        "check e m l",
        HOLDS,
    ),
    (
        false,
        "plan e m --changes=c --planner=epase --workers=4 --labels=l",
        "..",
        "check e m l --changes c",
        ALL_HOLD,
    ),
    (
        false,
        "nav e --planner epase --workers 4 --labels l",
        "plan 0\n.. best 4000 bound 1.000\npath 4 cost 4000 bound 1.000\n..\ndone\n",
        "navcheck e l",
        HOLDS,
    ),
];

/// Whether a plan reports as its row says, and then a check, on another desk, of the labels that it wrote.
fn plans_and_holds<R: Threads + Wait + Sync>(
    rt: &R,
    alloc: Global,
    row: &Row,
    gate: &Held,
    desk: &mut MemoryDesk,
    other: &mut MemoryDesk,
) -> Result<bool, Fail> {
    let (_, words, report, check, holds) = *row;
    let files = if words.starts_with("nav") {
        &GRID
    } else {
        &DETOUR
    };
    let plans = reports(rt, alloc, files, words, report, gate, desk)?;
    other.hold("l", desk.written("l"))?;
    Ok(plans && reports(rt, alloc, files, check, holds, &NoGate, other)?)
}

/// One worker and several find paths of the same cost, and labels that hold. A worker judges an arc while another one is still
/// judging the first.
#[test]
fn workers(rt: HostRuntime) -> Result<(), Fail> {
    for row in &PLANS {
        let is_held = row.0;
        let gate = Held {
            begun: AtomicU64::new(u64::from(!is_held)),
            met: AtomicBool::new(!is_held),
        };
        let mut desk = MemoryDesk::new(rt.alloc());
        let mut other = MemoryDesk::new(rt.alloc());
        let right = plans_and_holds(&rt, rt.alloc(), row, &gate, &mut desk, &mut other);
        drop(other);
        drop(desk);
        assert!(rt; right? && gate.met.load(Ordering::SeqCst), "{}", row.1);
    }
    Ok(())
}

/// Makes plans on these files, and appends what each makes known: the cost of its path, or that there is none.
fn put_known<R: Threads + Wait + Sync>(
    rt: &R,
    alloc: Global,
    files: &Files,
    words: &str,
    desk: &mut MemoryDesk,
    known: &mut String,
) -> Result<(), Fail> {
    if !reports(rt, alloc, files, words, "..", &NoGate, desk)? {
        return Err(Fail::new("status"));
    }
    for line in str::from_utf8(desk.written("-")).unwrap_or("").lines() {
        let mut words = line.split(' ');
        let cost = match words.next() {
            Some("path") => words.nth(2),
            Some("nopath") => Some("none"),
            _ => None,
        };
        if let Some(cost) = cost {
            known.push_str(cost)?;
            known.push(' ')?;
        }
    }
    Ok(())
}

/// The same on a desk of its own.
fn put_known_by<R: Threads + Wait + Sync>(
    rt: &R,
    alloc: Global,
    files: &Files,
    words: &str,
    known: &mut String,
) -> Result<(), Fail> {
    let mut desk = MemoryDesk::new(alloc);
    let put = put_known(rt, alloc, files, words, &mut desk, known);
    drop(desk);
    put
}

/// Thirty batches for the field: in each a third of sixty writes make an obstacle, and a third make a cell dear.
fn thirty_batches(alloc: Global) -> Result<String, Fail> {
    let mut word = 24;
    let mut text = String::new(alloc);
    for _ in 0..30 {
        for _ in 0..60 {
            let cost = [0, 20, 254][draw(&mut word, 3) as usize];
            let x = draw(&mut word, 32);
            let y = draw(&mut word, 32);
            let line = format!(in alloc; "cell {x} {y} {cost}\n")?;
            text.push_str(line.as_str())?;
        }
        text.push_str("replan\n")?;
    }
    Ok(text)
}

/// Whether repairing by four workers makes known these costs on the map with a way around; and what planning anew does on
/// these files, for 31 plans, of which some find a path and some none.
fn repairs<R: Threads + Wait + Sync>(
    rt: &R,
    alloc: Global,
    files: &Files,
    known: &mut String,
) -> Result<bool, Fail> {
    let repair = "plan e m --changes=c --planner=epase --workers=4";
    put_known_by(rt, alloc, &DETOUR, repair, known)?;
    let is_right = known.as_str() == "100 150 100 ";
    known.clear();
    put_known_by(
        rt,
        alloc,
        files,
        "plan e m --changes=c --planner=ara",
        known,
    )?;
    let (half, all, none) = (
        known.len(),
        known.matches(" ").count(),
        known.matches("none ").count(),
    );
    put_known_by(rt, alloc, files, repair, known)?;
    let is_same = known.as_bytes().get(..half) == known.as_bytes().get(half..);
    Ok(is_right && is_same && all == 31 && 0 < none && none < 31)
}

/// Four workers repair as planning anew does, after each of thirty drawn batches.
#[test]
fn repaired_by_workers(rt: HostRuntime) -> Result<(), Fail> {
    let prims = car(rt.alloc())?;
    let batches = thirty_batches(rt.alloc())?;
    let mut known = String::new(rt.alloc());
    let files = [Some(FIELD), Some(prims.as_str()), Some(batches.as_str())];
    let repairs = repairs(&rt, rt.alloc(), &files, &mut known);
    drop(known);
    drop(batches);
    drop(prims);
    assert!(rt; repairs?);
    Ok(())
}
