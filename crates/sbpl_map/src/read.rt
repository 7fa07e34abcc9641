//! A change file is read.

ghost use Rattle.std.specs.Prelude.{◌≡◌, ◌≢◌, ◌+◌, ◌<◌, ◌≤◌, ◌^◌, List, Option, Ok, Err, length};
ghost use Rattle.std.specs.Prelude.{IfOk, IfErr, OnOk};
ghost use Rattle.sbpl_cfg.specs.sbpl_fixed.Formats.{Answers};
ghost use Rattle.sbpl_cfg.specs.declared.pose.Place.{Place};
ghost use Rattle.sbpl_map.specs.declared.fault.ChangeFault.{ChangeFault};
ghost use Rattle.sbpl_map.specs.declared.fault.ChangeFault.TheVariants.{NoMemory as Memory};
ghost use Rattle.sbpl_map.specs.declared.write.Write.{Write};
ghost use Rattle.sbpl_map.specs.ChangeText.{ArePlacesOnMap, AreOnMap, IsMovesTextOf, IsTextOf};
ghost use Rattle.sbpl_map.specs.LineFaults.{HasFault, HasMovesFault};
ghost use Rattle.sbpl_map.specs.Reading.{Drafted, alone, closed, drafted, kept_of, nothing_read, parted, told_by};

use crate::changes::Changes;
use crate::fault::ChangeFault;
use crate::judging::judged;
use crate::line::first_line;
use crate::map::Map;
use crate::moves::Moves;
use crate::said::Said;
use crate::write::Write;
use sbpl_cfg::{NoMemory, Place};
use std::alloc::Global;
use std::marker::Model;

/// What was read of a change file: whole batches, and where the robot is in each; the writes after the last of them, and
/// where the robot is then; and the number of the last line that gave any of this.
#[derive(Drop)]
struct Draft {
    changes: Changes,
    moves: Moves,
    batch: Vec<Write>,
    start: Option<Place>,
    last: u64,
}

impl Model for Draft {
    ghost use Rattle.sbpl_map.specs.Reading.{Kept};

    ghost Value = { Kept };

    ghost view = { λ d. record { batches = d.changes; moves = d.moves; batch = d.batch.items; start = d.start; last = d.last } };
}

impl Draft {
    fn new(alloc: Global) -> Result<Draft, NoMemory>
        ensures empty { IfOk result (λ d. d ≡ kept_of nothing_read) }
    {
        Ok(Draft {
            changes: Changes::none(alloc)?,
            moves: Moves::none(alloc),
            batch: Vec::new(alloc),
            start: None,
            last: 0,
        })
    }

    /// One more line, with its number.
    fn add(&mut self, number: u64, said: Said) -> Result<(), NoMemory>
        requires few { length self.old.batches + 1 < 2 ^ 32 }
        ensures added { OnOk result ((d : Drafted) → self.old ≡ kept_of d → self.new ≡ kept_of (drafted d number said)) }
    {
        match said {
            Said::Nothing => {}
            Said::Cell(write) => {
                self.batch.push(write)?;
                self.last = number;
            }
            Said::Start(place) => {
                self.start = Some(place);
                self.last = number;
            }
            Said::Replan => {
                self.changes.push(self.batch.as_slice())?;
                self.moves.push(self.start)?;
                self.batch.clear();
                self.start = None;
            }
        }
        Ok(())
    }

    /// The batches, after which nothing may be left.
    fn close(self) -> Result<(Changes, Moves), ChangeFault>
        ensures closed { (d : Drafted) → self ≡ kept_of d → result ≡ parted (closed d) }
    {
        if self.batch.is_empty() && self.start.is_none() {
            Ok((self.changes, self.moves))
        } else {
            Err(ChangeFault::NoReplan(self.last))
        }
    }
}

/// The lines of a text, one after another.
fn read_lines(
    alloc: Global,
    text: &[u8],
    map: &Map,
    headings: Option<u32>,
    states: u32,
) -> Result<(Changes, Moves), ChangeFault>
    requires short { length text.now ≤ 2 ^ 30 }
    ensures read { Answers Memory (λ x. x) result (parted (told_by states map.now headings text.now)) }
{
    let mut draft = Draft::new(alloc)?;
    let mut rest = text;
    let mut number: u64 = 1;
    while !rest.is_empty() {
        let (line, after) = first_line(rest);
        draft.add(number, judged(map, headings, number, line, states)?)?;
        number += 1;
        rest = after;
    }
    draft.close()
}

/// The batches without the moves.
fn alone(read: Result<(Changes, Moves), ChangeFault>) -> Result<Changes, ChangeFault>
    ensures batches { result ≡ alone read }
{
    let (changes, _moves) = read?;
    Ok(changes)
}

/// Reads a change file of at most 2^30 bytes for a map. Its lines end at line feeds, and one carriage return before a line
/// feed is dropped. The fields of a line are separated by spaces and tabs. `cell X Y C` writes cost C to cell (X, Y), `replan`
/// ends a batch, and a line without fields is skipped. X and Y are below `states`, the limit of states. A
/// fault is that of the first faulty line; lines are numbered from 1, skipped ones too.
pub fn read_changes(
    alloc: Global,
    text: &[u8],
    map: &Map,
    states: u32,
) -> Result<Changes, ChangeFault>
    requires short { length text.now ≤ 2 ^ 30 }
    requires limit { states ≤ 268435456 }
    // What is read is what the text stands for.
    ensures found { IfOk result (λ c. IsTextOf states map.now text.now c) }
    // What a text stands for is read, unless memory runs out.
    ensures only { (batches : List (List Write))
        → IsTextOf states map.now text.now batches → Answers Memory (λ c. c) result (Ok batches) }
    // A fault is the text's first one.
    ensures faulty { IfErr result (λ f. f ≢ Memory → HasFault states map.now text.now f) }
    // The first fault of a text is answered, unless memory runs out.
    ensures only_faulty { (f : ChangeFault)
        → HasFault states map.now text.now f → Answers Memory (λ c. c) result (Err f) }
    // Each write is to a cell of the map.
    ensures on_map { IfOk result (λ c. AreOnMap map.now c) }
{
    alone(read_lines(alloc, text, map, None, states))
}

/// Reads a change file of at most 2^30 bytes as `read_changes` does, and besides where the robot is. `start X Y T` says
/// that from the batch on that the line stands in, it is at cell (X, Y) with heading T; the last such line of a batch
/// stands. There is one move or none for each batch. X and Y have the ranges of a cell, and T is below `headings`, the
/// environment's number of headings, otherwise the fault is `Range`. `NoReplan` also comes of a start that stands after the
/// last `replan`. A text without such lines has the batches or the fault that `read_changes` answers, and no moves.
pub fn read_moves(
    alloc: Global,
    text: &[u8],
    map: &Map,
    headings: u32,
    states: u32,
) -> Result<(Changes, Moves), ChangeFault>
    requires short { length text.now ≤ 2 ^ 30 }
    requires limit { states ≤ 268435456 }
    // What is read is what the text stands for.
    ensures found { IfOk result (λ x. IsMovesTextOf states map.now headings text.now x.0 x.1) }
    // What a text stands for is read, unless memory runs out.
    ensures only { (batches : List (List Write)) (moves : List (Option Place))
        → IsMovesTextOf states map.now headings text.now batches moves → Answers Memory (λ x. x) result (Ok (batches, moves)) }
    // A fault is the text's first one.
    ensures faulty { IfErr result (λ f. f ≢ Memory → HasMovesFault states map.now headings text.now f) }
    // The first fault of a text is answered, unless memory runs out.
    ensures only_faulty { (f : ChangeFault)
        → HasMovesFault states map.now headings text.now f → Answers Memory (λ x. x) result (Err f) }
    // Each write is to a cell of the map.
    ensures on_map { IfOk result (λ x. AreOnMap map.now x.0) }
    // Each place is on the map, with a heading of the environment.
    ensures places { IfOk result (λ x. ArePlacesOnMap map.now headings x.1) }
    // There is one place or none for each batch.
    ensures each { IfOk result (λ x. length x.1 ≡ length x.0) }
{
    read_lines(alloc, text, map, Some(headings), states)
}
