//! The section of a plan, checked, and what is said of it.

ghost use Rattle.std.specs.Prelude.{◌≡◌, ◌<◌, ◌≤◌, ◌∷◌, [], length, IfErr, IfOk, Some};
ghost use Rattle.sbpl_worlds.specs.sbpl_fixed.Formats.{start_at};
ghost use Rattle.sbpl_worlds.specs.sbpl_lists.Messages.{IsPlainMessage};
ghost use Rattle.sbpl_worlds.specs.sbpl_promises.Checked.{ground};
ghost use Rattle.sbpl_checks.specs.Checking.{EndsAtSection, HoldsAndPrints, IsFaultTold, IsFlawTold, IsStopTold};
ghost use Rattle.sbpl_worlds.specs.sbpl_promises.Intents.{stop_status, stop_writes};
ghost use Rattle.sbpl_worlds.specs.sbpl_report.Refusals.{label_fault_text};
ghost use Rattle.sbpl_worlds.specs.sbpl_report.Statuses.{number_of};
ghost use Rattle.sbpl_worlds.specs.sbpl_report.Verdicts.{flaw_text, holds_text};
ghost use Rattle.sbpl_worlds.specs.sbpl_promises.Writing.{EndsAs, EndsIn, IsOutput, WritesOnly, to_output};

use crate::label_file::LabelFile;
use crate::section_check::check_section;
use sbpl_telling::{Ending, OUTPUT, Status, end_with, status_after, write_text};
use sbpl_worlds::{
    Desk, Flaw, Graph, Guide, LabelFault, Message, NoMemory, Outcome, SectionStop, WriteStop,
    fault_line, flaw_line, holds_line, labels_message, plain_message,
};
use std::alloc::{AllocError, Global};
use std::fmt;

/// From here on a number of a flaw is infinite (`Flaw`).
const INFINITE: u64 = 1 << 63;

/// A label or a limit, as people read it.
#[derive(Clone, Copy)]
struct Label(u64);

impl fmt::Display for Label {
    fn fmt<W: fmt::Write>(&self, f: &mut fmt::Formatter<W>) -> fmt::Result {
        if self.0 >= INFINITE {
            f.write_str("infinite")
        } else {
            write!(f, "{}", self.0)
        }
    }
}

/// A flaw in words.
fn flaw_words(alloc: Global, flaw: &Flaw) -> Result<String, AllocError> {
    match *flaw {
        Flaw::Start { g } => format!(in alloc; "g is {} at the start", Label(g)),
        Flaw::Arc {
            state,
            arc,
            has,
            most,
        } => format!(in alloc;
            "g is {} after arc {arc} of state {state}, which allows {}",
            Label(has),
            Label(most)
        ),
        Flaw::Low { state, has, most } => format!(in alloc;
            "the low is {}, and state {state} allows {}",
            Label(has),
            Label(most)
        ),
        _ => format!(in alloc; "{flaw}"),
    }
}

/// The message on a flaw in the section of a plan.
fn flaw_message(alloc: Global, name: &str, plan: u32, flaw: &Flaw) -> Result<Message, NoMemory>
    ensures message { IfOk result (λ m. IsPlainMessage name.now m) }
{
    let words = flaw_words(alloc, flaw)?;
    let what = format!(in alloc;
        "the labels of plan {plan} have a flaw: {words}; are the map, the changes, --radius and --planner those of the plan?"
    )?;
    let message = plain_message(alloc, name, what.as_str())?;
    Ok(message)
}

/// Writes the line of a flaw, and tells it in words.
fn tell_flaw<D: Desk>(
    alloc: Global,
    goal: u32,
    plan: u32,
    labels: &LabelFile,
    flaw: &Flaw,
    desk: &mut D,
) -> Ending
    ensures ends { EndsAs (D.state desk.old) (D.state desk.new) (to_output (flaw_text goal plan flaw.now) ∷ []) 1
        (number_of result.status) }
    ensures told { IsFlawTold labels.now result }
    ensures frame { WritesOnly IsOutput (D.state desk.old) (D.state desk.new) }
{
    let Ok(message) = flaw_message(alloc, labels.name.as_str(), plan, flaw) else {
        return Ending::plain(alloc, Status::NoMemory);
    };
    match flaw_line(alloc, goal, plan, flaw) {
        Ok(line) => end_with(alloc, line.as_slice(), Status::FlawFound, message, desk),
        Err(NoMemory) => Ending::plain(alloc, Status::NoMemory),
    }
}

/// Writes the line of a fault in the text, and tells its place.
pub(crate) fn tell_fault<D: Desk>(
    alloc: Global,
    labels: &LabelFile,
    fault: &LabelFault,
    desk: &mut D,
) -> Ending
    ensures ends { EndsAs (D.state desk.old) (D.state desk.new) (to_output (label_fault_text fault.now) ∷ []) 10
        (number_of result.status) }
    ensures told { IsFaultTold labels.now fault.now result }
    ensures frame { WritesOnly IsOutput (D.state desk.old) (D.state desk.new) }
{
    let Ok(message) = labels_message(alloc, labels.name.as_str(), labels.text, fault) else {
        return Ending::plain(alloc, Status::NoMemory);
    };
    match fault_line(alloc, fault) {
        Ok(line) => end_with(alloc, line.as_slice(), Status::LabelsRefused, message, desk),
        Err(NoMemory) => Ending::plain(alloc, Status::NoMemory),
    }
}

/// Writes why the checking of sections ends.
fn tell_stop<D: Desk>(
    alloc: Global,
    goal: u32,
    plan: u32,
    labels: &LabelFile,
    stop: &SectionStop,
    desk: &mut D,
) -> Ending
    ensures ends { EndsAs (D.state desk.old) (D.state desk.new) (stop_writes goal plan stop.now) (stop_status stop.now)
        (number_of result.status) }
    ensures told { IsStopTold labels.now (Some stop.now) result }
    ensures frame { WritesOnly IsOutput (D.state desk.old) (D.state desk.new) }
{
    match stop {
        SectionStop::Flaw(flaw) => tell_flaw(alloc, goal, plan, labels, flaw, desk),
        SectionStop::Fault(fault) => tell_fault(alloc, labels, fault, desk),
        SectionStop::NoMemory => Ending::plain(alloc, Status::NoMemory),
    }
}

/// Writes that the section of a plan holds.
fn write_holds<D: Desk>(
    alloc: Global,
    plan: u32,
    outcome: &Outcome,
    desk: &mut D,
) -> Result<(), WriteStop>
    ensures ends { EndsIn (D.state desk.old) (D.state desk.new) (to_output (holds_text plan outcome.now) ∷ []) result }
    ensures frame { WritesOnly IsOutput (D.state desk.old) (D.state desk.new) }
{
    match holds_line(alloc, plan, outcome) {
        Ok(line) => write_text(OUTPUT, line.as_slice(), desk),
        Err(NoMemory) => Err(WriteStop::NoMemory),
    }
}

/// Checks the section of a plan on a graph and writes that it holds, and answers the offset after it; or writes why the
/// checking ends. The search went from the state `from` to the state `to`, with this guide.
pub(crate) fn check_next<G: Graph, H: Guide, D: Desk>(
    alloc: Global,
    graph: &G,
    guide: &H,
    from: u32,
    to: u32,
    plan: u32,
    labels: &LabelFile,
    at: usize,
    desk: &mut D,
) -> Result<usize, Ending>
    requires from { from < (G.network graph.now).states }
    requires to { to < (G.network graph.now).states }
    requires guide { H.guides guide.now (G.network graph.now) to }
    requires at { at ≤ length labels.now.text.now }
    ensures inside { IfOk result (λ next. next ≤ length labels.now.text.now) }
    ensures holds { IfOk result (λ next. HoldsAndPrints (ground (G.network graph.now) (H.distance guide.now)) from to plan
        (start_at labels.now.text.now at) (start_at labels.now.text.now next) (D.state desk.old) (D.state desk.new)) }
    ensures ends { IfErr result (EndsAtSection (ground (G.network graph.now) (H.distance guide.now)) from to plan
        (start_at labels.now.text.now at) labels.now (D.state desk.old) (D.state desk.new)) }
    ensures frame { WritesOnly IsOutput (D.state desk.old) (D.state desk.new) }
{
    match check_section(alloc, graph, guide, from, to, plan, labels.text, at) {
        Ok((outcome, next)) => match write_holds(alloc, plan, &outcome, desk) {
            Ok(()) => Ok(next),
            Err(stop) => Err(Ending::plain(alloc, status_after(Err(stop), Status::NoMemory))),
        },
        Err(stop) => Err(tell_stop(alloc, to, plan, labels, &stop, desk)),
    }
}
