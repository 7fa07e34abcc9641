//! The newest path and the number of expansions, shown to people while the planner works.

ghost use Rattle.std.specs.Prelude.{◌≡◌, ◌<◌, ◌^◌, false, length, map, string_bytes};
ghost use Rattle.std.specs.Io.KnownBytes.{Keeps};
ghost use Rattle.sbpl_cli.specs.Answered.{IsAnswered};
ghost use Rattle.sbpl_cli.specs.sbpl_promises.Explained.{has_message};
ghost use Rattle.sbpl_cli.specs.sbpl_promises.Run.{job_named};
ghost use Rattle.sbpl_main.specs.Given.{IsQuiet};

use sbpl_cli::{
    Board, Desk, Entry, LiveBoard, Meter, NoGate, Publisher, ReadStop, Reader, Status, Trouble,
    WriteStop, answer, runs_may_end_at_once,
};
use std::alloc::{AllocError, Global};
use std::io;
use std::sync::{Mutex, Wait};
use std::thread::{self, Threads};
use std::time::{Clock, Duration, Instant};

/// How long the board is left alone between two looks at it, in milliseconds.
const BETWEEN_LOOKS: u64 = 50;

/// How long nothing is shown where no path is published yet, in tenths of a second: most runs end before.
const BEFORE_FIRST: u128 = 5;

/// Goes to the beginning of the line, and clears it.
const CLEAR_LINE: &[u8] = b"\r\x1b[K";

/// The same, and has what follows cut at the terminal's edge and not go on in the next line.
const BEGIN_LINE: &str = "\r\x1b[?7l\x1b[K";

/// Lets later lines go on in the next one again.
const END_LINE: &str = "\x1b[?7h";

/// What tells another thread how far a run is: the board with the newest path, and the meter of the expansions.
#[derive(Clone, Copy)]
struct Progress<'b> {
    board: &'b Board,
    meter: &'b Meter,
}

/// A terminal, and whether the newest path is still shown on its last line.
#[derive(Drop)]
struct Console<'e, E> {
    err: &'e mut E,
    shows: bool,
}

/// A number with a comma before each three digits.
fn with_commas(alloc: Global, number: u64) -> Result<String, AllocError> {
    let digits = format!(in alloc; "{number}")?;
    let mut text = String::new(alloc);
    let mut left = digits.len();
    for digit in digits.chars() {
        if left % 3 == 0 && !text.is_empty() {
            text.push(',')?;
        }
        text.push(digit)?;
        left = left.saturating_sub(1);
    }
    Ok(text)
}

/// What the line says after so many expansions, this long after the run began: the newest path, or after a while that the program
/// is at work.
fn text_of(
    alloc: Global,
    newest: Option<Entry>,
    expansions: u64,
    time: Duration,
) -> Result<String, AllocError> {
    let count = with_commas(alloc, expansions)?;
    let tenths = time.as_millis() / 100;
    let (seconds, tenth) = (tenths / 10, tenths % 10);
    match newest {
        Some(entry) => format!(in alloc;
            "plan {} pass {} cost {} bound {}.{:03}, {count} expansions, {seconds}.{tenth} s",
            entry.plan,
            entry.pass,
            entry.cost,
            entry.bound / 1000,
            entry.bound % 1000
        ),
        None if tenths >= BEFORE_FIRST => {
            format!(in alloc; "working, {count} expansions, {seconds}.{tenth} s")
        }
        None => Ok(String::new(alloc)),
    }
}

/// What puts that in place of what stood on the line; nothing where there is nothing to say.
fn line_of(
    alloc: Global,
    newest: Option<Entry>,
    expansions: u64,
    time: Duration,
) -> Result<String, AllocError> {
    let text = text_of(alloc, newest, expansions, time)?;
    if text.is_empty() {
        return Ok(text);
    }
    let mut line = String::from_str(alloc, BEGIN_LINE)?;
    line.push_str(text.as_str())?;
    line.push_str(END_LINE)?;
    Ok(line)
}

impl<E: io::Write> Console<'_, E> {
    /// Clears the line, and shows nothing more.
    fn end(&mut self) {
        if self.shows {
            self.shows = false;
            let _ = self.err.write_all(CLEAR_LINE);
        }
    }
}

/// A desk whose first write ends what the console shows, since the standard output may be the same terminal.
#[derive(Drop)]
struct ConsoleDesk<'r, 'c, 'e, R, D, E> {
    rt: &'r R,
    desk: D,
    console: &'c Mutex<Console<'e, E>>,
}

impl<R: Wait, D: Desk, E: io::Write> Desk for ConsoleDesk<'_, '_, '_, R, D, E> {
    ghost state = { λ d. D.state d.desk };

    fn read(&mut self, name: &str, into: &mut Vec<u8>) -> Result<(), ReadStop> {
        self.desk.read(name, into)
    }

    fn write(&mut self, name: &str, bytes: &[u8]) -> Result<(), WriteStop> {
        self.console.lock(self.rt).end();
        self.desk.write(name, bytes)
    }

    fn hear(&mut self, into: &mut Vec<u8>) -> Result<bool, ReadStop> {
        self.desk.hear(into)
    }

    fn trouble(&self) -> Trouble {
        self.desk.trouble()
    }
}

/// Shows the newest path, the number of expansions and how long the run has taken, until the console shows nothing more.
fn show<R: Wait + Clock, E: io::Write>(
    rt: &R,
    alloc: Global,
    progress: Progress,
    reader: &mut Reader,
    console: &Mutex<Console<E>>,
)
    requires board { reader.old.board ≡ progress.board.now }
{
    let Ok(began) = Instant::now(rt) else {
        return;
    };
    for _ in 0..u64::MAX {
        let newest = progress.board.read(rt, reader);
        let line = match Instant::now(rt) {
            Ok(now) => line_of(
                alloc,
                newest,
                progress.meter.read(),
                now.saturating_duration_since(began),
            ),
            Err(_) => Ok(String::new(alloc)),
        };
        let mut locked = console.lock(rt);
        if !locked.shows {
            return;
        }
        // The run goes on as well where the line cannot be made or written.
        if let Ok(line) = line {
            let _ = locked.err.write_all(line.as_bytes());
        }
        drop(locked);
        thread::sleep(rt, Duration::from_millis(BETWEEN_LOOKS));
    }
}

/// Does what `answer` does at this desk with this board and this meter.
fn answer_live<R: Threads + Wait + Sync, D: Desk, E: io::Write>(
    rt: &R,
    alloc: Global,
    words: &[String],
    desk: &mut D,
    err: &mut E,
    progress: Progress,
    publisher: &mut Publisher,
) -> u8
    requires board { publisher.old.board ≡ progress.board.now }
    requires few { length publisher.old.published < 2 ^ 62 }
    ensures answered { IsAnswered (map string_bytes words.now) (D.state desk.old) (D.state desk.new) publisher.old.published
        publisher.new.published result }
    ensures board { publisher.new.board ≡ publisher.old.board }
    ensures quiet { has_message (job_named words.now) result ≡ false → Keeps (E.contents err.old) (E.contents err.new) }
{
    let mut live = LiveBoard::new(rt, progress.board, publisher, progress.meter);
    answer(alloc, words, &mut live, desk, &NoGate, err)
}

/// Does what `answer` does at this desk, and writes the message, if there is one, once the newest path is no longer shown.
fn answer_beside<R: Threads + Wait + Clock + Sync, D: Desk, E: io::Write + Send>(
    rt: &R,
    alloc: Global,
    words: &[String],
    desk: &mut D,
    progress: Progress,
    publisher: &mut Publisher,
    console: &Mutex<Console<'_, E>>,
) -> u8
    requires board { publisher.old.board ≡ progress.board.now }
    requires few { length publisher.old.published < 2 ^ 62 }
    ensures answered { IsAnswered (map string_bytes words.now) (D.state desk.old) (D.state desk.new) publisher.old.published
        publisher.new.published result }
    ensures board { publisher.new.board ≡ publisher.old.board }
{
    runs_may_end_at_once();
    let Ok(mut reader) = progress.board.reader(publisher) else {
        return Status::NoMemory.number();
    };
    let mut message = Vec::new(alloc);
    let mut looks = ||
        requires { reader.board ≡ progress.board.now }
    { show(rt, alloc, progress, &mut reader, console) };
    let mut answers = || -> u8
        requires { (publisher.now.board ≡ progress.board.now) × (length publisher.now.published < 2 ^ 62) }
        ensures answered { IsAnswered (map string_bytes words.entry.now) (D.state desk.entry.now) (D.state desk.exit.now)
            publisher.entry.now.published publisher.exit.now.published result }
        ensures board { publisher.exit.now.board ≡ publisher.entry.now.board }
    {
        let status = answer_live(rt, alloc, words, desk, &mut message, progress, publisher);
        console.lock(rt).end();
        status
    };
    let ((), status) = thread::join_mut(rt, &mut looks, &mut answers);
    let _ = console.lock(rt).err.write_all(message.as_slice());
    status
}

/// Does what `answer` does at this desk, and shows the newest path and the number of expansions on the last line of a terminal
/// while the planner works. Nothing that the run writes depends on it. It answers the status, and the desk.
fn answer_at_terminal<R: AllocGlobal + Threads + Wait + Clock + Sync, D: Desk, E: io::Write + Send>(
    rt: &R,
    words: &[String],
    desk: D,
    err: &mut E,
    board: &Board,
    publisher: &mut Publisher,
) -> (u8, D)
    requires board { publisher.old.board ≡ board.now }
    requires few { length publisher.old.published < 2 ^ 62 }
    ensures answered { IsAnswered (map string_bytes words.now) (D.state desk) (D.state result.1) publisher.old.published
        publisher.new.published result.0 }
    ensures board { publisher.new.board ≡ publisher.old.board }
{
    let meter = Meter::new(rt.alloc());
    let progress = Progress {
        board,
        meter: &meter,
    };
    let console = Mutex::new(Console { err, shows: true });
    let mut desk = ConsoleDesk {
        rt,
        desk,
        console: &console,
    };
    let status = answer_beside(
        rt,
        rt.alloc(),
        words,
        &mut desk,
        progress,
        publisher,
        &console,
    );
    (status, desk.desk)
}

/// Does what `answer` does at this desk with this board, and answers the status, and the desk. Where `err` is a terminal, the
/// newest path is shown on its last line while the planner works.
pub(crate) fn answer_on<
    R: AllocGlobal + Threads + Wait + Clock + Sync,
    D: Desk,
    E: io::Write + Send,
>(
    rt: &R,
    words: &[String],
    desk: D,
    err: &mut E,
    is_terminal: bool,
    board: &Board,
    publisher: &mut Publisher,
) -> (u8, D)
    requires board { publisher.old.board ≡ board.now }
    requires few { length publisher.old.published < 2 ^ 62 }
    ensures answered { IsAnswered (map string_bytes words.now) (D.state desk) (D.state result.1) publisher.old.published
        publisher.new.published result.0 }
    ensures board { publisher.new.board ≡ publisher.old.board }
    ensures quiet { IsQuiet is_terminal (map string_bytes words.now) result.0 (E.contents err.old) (E.contents err.new) }
{
    if is_terminal {
        return answer_at_terminal(rt, words, desk, err, board, publisher);
    }
    let mut desk = desk;
    let meter = Meter::off();
    let progress = Progress {
        board,
        meter: &meter,
    };
    let status = answer_live(rt, rt.alloc(), words, &mut desk, err, progress, publisher);
    (status, desk)
}
