//! The lines of a trace.

ghost use Rattle.std.specs.Prelude.{◌≡◌, ◌++◌, IfOk, OnOk, flat_map, map};
ghost use Rattle.sbpl_report.specs.Traces.{line_of, line_of_event, line_text, lines_text, raise_text, traced_pass, trace_text};
ghost use Rattle.sbpl_report.specs.Report.{line_feed};
ghost use Rattle.sbpl_report.specs.declared.record.TraceLine.{TraceLine};
ghost use Rattle.sbpl_report.specs.declared.record.TraceLine.TheVariants as Lines;

use crate::record::{PlanRecord, TraceLine};
use sbpl_frontier_rules::{Event, Step};
use sbpl_job::NoMemory;
use sbpl_plan::Piece::{Bytes, Milli, Number};
use sbpl_plan::{PassRecord, Passes, Trace, push_all, push_bytes, push_field};
use std::alloc::Global;

/// An action of a pass, which has a line in a trace.
pub trait Traced {
    /// The line of an action.
    ghost line: { Self → TraceLine };

    /// The line of this action.
    fn line(&self) -> TraceLine
        ensures value { result ≡ line self.now };
}

impl Traced for Step {
    ghost line = { λ step. line_of step };

    fn line(&self) -> TraceLine {
        if self.raised {
            TraceLine::Raise(self.state)
        } else {
            TraceLine::Lower(self.state)
        }
    }
}

impl Traced for Event {
    ghost line = { λ event. line_of_event event };

    fn line(&self) -> TraceLine {
        match *self {
            Event::Opened { state } => TraceLine::Open(state),
            Event::Taken {
                ticket,
                seat,
                state,
                arc,
            } => TraceLine::Take {
                ticket,
                seat,
                state,
                arc,
            },
            Event::Posted { ticket, cost } => TraceLine::Post { ticket, cost },
        }
    }
}

/// The lines of what a pass did.
fn lines_of<N: Traced>(alloc: Global, actions: &[N]) -> Result<Trace<TraceLine>, NoMemory>
    ensures lines { IfOk result (λ lines. lines ≡ map N.line actions.now) }
{
    let mut lines = Vec::new(alloc);
    for action in actions {
        lines.push(action.line())?;
    }
    Ok(Trace::of(lines))
}

/// A pass, with what it did as lines.
fn traced_pass<N: Traced>(
    alloc: Global,
    pass: &PassRecord<N>,
) -> Result<PassRecord<TraceLine>, NoMemory>
    ensures traced { IfOk result (λ traced. traced ≡ traced_pass N.line pass.now) }
{
    let trace = lines_of(alloc, pass.trace.as_slice())?;
    Ok(PassRecord {
        inflation: pass.inflation,
        expanded: pass.expanded,
        found: pass.found,
        trace,
    })
}

/// The passes of a plan, with what they did as lines.
pub fn traced_passes<N: Traced>(
    alloc: Global,
    passes: &[PassRecord<N>],
) -> Result<Passes<TraceLine>, NoMemory>
    ensures traced { IfOk result (λ traced. traced ≡ map (traced_pass N.line) passes.now) }
{
    let mut traced = Vec::new(alloc);
    for pass in passes {
        traced.push(traced_pass(alloc, pass)?)?;
    }
    Ok(Passes::of(traced))
}

/// Appends the taking of an arc.
#[tactic(auto, unfolding(crate::specs::Traces::line_text))]
fn push_take(
    out: &mut Vec<u8>,
    ticket: u64,
    seat: u32,
    state: u32,
    arc: u32,
) -> Result<(), NoMemory>
    ensures appended { OnOk result (out.new.items ++ line_feed ≡ out.old.items ++ line_text (Lines.Take ticket seat state arc)) }
{
    push_all(
        out,
        &[
            Bytes(b"take "),
            Number(ticket),
            Bytes(b" "),
            Number(u64::from(seat)),
            Bytes(b" "),
            Number(u64::from(state)),
            Bytes(b" "),
            Number(u64::from(arc)),
        ],
    )
}

/// Appends the judgement of the arc of a ticket.
#[tactic(auto, unfolding(crate::specs::Traces::line_text))]
fn push_post(out: &mut Vec<u8>, ticket: u64, cost: Option<u32>) -> Result<(), NoMemory>
    ensures appended { OnOk result (out.new.items ++ line_feed ≡ out.old.items ++ line_text (Lines.Post ticket cost)) }
{
    push_field(out, b"post ", ticket)?;
    match cost {
        Some(cost) => push_field(out, b" ", u64::from(cost)),
        None => push_bytes(out, b" -"),
    }
}

/// Appends a line.
#[tactic(auto, unfolding(crate::specs::Traces::line_text))]
fn push_line(out: &mut Vec<u8>, line: TraceLine) -> Result<(), NoMemory>
    ensures appended { OnOk result (out.new.items ≡ out.old.items ++ line_text line) }
{
    match line {
        TraceLine::Lower(state) => push_field(out, b"lower ", u64::from(state))?,
        TraceLine::Raise(state) => push_field(out, b"raise ", u64::from(state))?,
        TraceLine::Open(state) => push_field(out, b"open ", u64::from(state))?,
        TraceLine::Take {
            ticket,
            seat,
            state,
            arc,
        } => push_take(out, ticket, seat, state, arc)?,
        TraceLine::Post { ticket, cost } => push_post(out, ticket, cost)?,
    }
    push_bytes(out, b"\n")
}

/// Appends lines.
fn push_lines(out: &mut Vec<u8>, lines: &[TraceLine]) -> Result<(), NoMemory>
    ensures appended { OnOk result (out.new.items ≡ out.old.items ++ flat_map line_text lines.now) }
{
    for line in lines {
        push_line(out, *line)?;
    }
    Ok(())
}

/// Appends the lines of states that were raised before the passes of a plan.
fn push_raised(out: &mut Vec<u8>, states: &[u32]) -> Result<(), NoMemory>
    ensures appended { OnOk result (out.new.items ≡ out.old.items ++ flat_map raise_text states.now) }
{
    for state in states {
        push_line(out, TraceLine::Raise(*state))?;
    }
    Ok(())
}

/// Appends the lines of a pass.
#[tactic(auto, unfolding(crate::specs::Traces::lines_text))]
fn push_pass(out: &mut Vec<u8>, pass: &PassRecord<TraceLine>) -> Result<(), NoMemory>
    ensures appended { OnOk result (out.new.items ≡ out.old.items ++ lines_text pass.now) }
{
    push_all(
        out,
        &[
            Bytes(b"pass "),
            Milli(u128::from(pass.inflation)),
            Bytes(b"\n"),
        ],
    )?;
    push_lines(out, pass.trace.as_slice())
}

/// Appends the lines of passes.
fn push_passes(out: &mut Vec<u8>, passes: &[PassRecord<TraceLine>]) -> Result<(), NoMemory>
    ensures appended { OnOk result (out.new.items ≡ out.old.items ++ flat_map lines_text passes.now) }
{
    for pass in passes {
        push_pass(out, pass)?;
    }
    Ok(())
}

/// The section of a plan in a trace: which states were raised before its passes, and what these did, in order.
#[tactic(auto, unfolding(crate::specs::Traces::trace_text))]
pub fn trace_of(alloc: Global, plan: &PlanRecord) -> Result<Vec<u8>, NoMemory>
    ensures text { IfOk result (λ text. text.items ≡ trace_text plan.now) }
{
    let mut out = Vec::new(alloc);
    push_all(
        &mut out,
        &[
            Bytes(b"trace plan "),
            Number(u64::from(plan.plan)),
            Bytes(b"\n"),
        ],
    )?;
    push_raised(&mut out, plan.raised.as_slice())?;
    push_passes(&mut out, plan.passes.as_slice())?;
    push_bytes(&mut out, b"end\n")?;
    Ok(out)
}
