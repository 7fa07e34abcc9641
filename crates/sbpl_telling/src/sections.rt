//! The sections of a plan, written: of the report, of labels and of a trace.

ghost use Rattle.std.specs.Prelude.{◌∷◌, ◌++◌, []};
ghost use Rattle.sbpl_promises.specs.Intents.{incumbent_writes, labels_writes, section_writes, trace_writes};
ghost use Rattle.sbpl_promises.specs.sbpl_report.Report.{section_text};
ghost use Rattle.sbpl_promises.specs.Writing.{EndsIn, IsNamed, IsOutput, IsOutputOf, WritesOnly, to_named, to_output};

use crate::plan_section::section_of;
use crate::writing::{OUTPUT, write_text};
use sbpl_promises::{
    Desk, Name, NoMemory, Outputs, PlanRecord, WriteStop, incumbent_line, labels_text, trace_of,
};
use std::alloc::Global;

/// Writes the section of a plan.
fn write_section<D: Desk>(alloc: Global, plan: &PlanRecord, desk: &mut D) -> Result<(), WriteStop>
    ensures ends { EndsIn (D.state desk.old) (D.state desk.new) (to_output (section_text plan.now) ∷ []) result }
    ensures frame { WritesOnly IsOutput (D.state desk.old) (D.state desk.new) }
{
    match section_of(alloc, plan) {
        Ok(text) => write_text(OUTPUT, text.as_slice(), desk),
        Err(NoMemory) => Err(WriteStop::NoMemory),
    }
}

/// Writes a text under a name, if there is one.
fn write_named<D: Desk>(name: &Option<Name>, text: &[u8], desk: &mut D) -> Result<(), WriteStop>
    ensures ends { EndsIn (D.state desk.old) (D.state desk.new) (to_named name.now text.now) result }
    ensures frame { WritesOnly (IsNamed name.now) (D.state desk.old) (D.state desk.new) }
{
    match name {
        Some(name) => write_text(name.as_str(), text, desk),
        None => Ok(()),
    }
}

/// Writes the labels of a plan, where they are to be written.
fn write_labels<D: Desk>(
    alloc: Global,
    outputs: &Outputs,
    plan: &PlanRecord,
    desk: &mut D,
) -> Result<(), WriteStop>
    ensures ends { EndsIn (D.state desk.old) (D.state desk.new) (labels_writes outputs.now plan.now) result }
    ensures frame { WritesOnly (IsNamed outputs.now.labels) (D.state desk.old) (D.state desk.new) }
{
    match labels_text(alloc, &plan.labels) {
        Ok(text) => write_named(&outputs.labels, text.as_slice(), desk),
        Err(NoMemory) => Err(WriteStop::NoMemory),
    }
}

/// Writes the trace of a plan, where it is to be written.
fn write_trace<D: Desk>(
    alloc: Global,
    outputs: &Outputs,
    plan: &PlanRecord,
    desk: &mut D,
) -> Result<(), WriteStop>
    ensures ends { EndsIn (D.state desk.old) (D.state desk.new) (trace_writes outputs.now plan.now) result }
    ensures frame { WritesOnly (IsNamed outputs.now.trace) (D.state desk.old) (D.state desk.new) }
{
    match trace_of(alloc, plan) {
        Ok(text) => write_named(&outputs.trace, text.as_slice(), desk),
        Err(NoMemory) => Err(WriteStop::NoMemory),
    }
}

/// Writes the newest path after a plan, where it is to be written.
fn write_incumbent<D: Desk>(
    alloc: Global,
    outputs: &Outputs,
    plan: &PlanRecord,
    desk: &mut D,
) -> Result<(), WriteStop>
    ensures ends { EndsIn (D.state desk.old) (D.state desk.new) (incumbent_writes outputs.now plan.now) result }
    ensures frame { WritesOnly (IsNamed outputs.now.incumbent) (D.state desk.old) (D.state desk.new) }
{
    match incumbent_line(alloc, &plan.incumbent) {
        Ok(line) => write_named(&outputs.incumbent, line.as_slice(), desk),
        Err(NoMemory) => Err(WriteStop::NoMemory),
    }
}

/// Writes the trace of a plan and then the newest path, where they are to be written.
fn write_last_outputs<D: Desk>(
    alloc: Global,
    outputs: &Outputs,
    plan: &PlanRecord,
    desk: &mut D,
) -> Result<(), WriteStop>
    ensures ends { EndsIn (D.state desk.old) (D.state desk.new) (trace_writes outputs.now plan.now
        ++ incumbent_writes outputs.now plan.now) result }
    ensures frame { WritesOnly (IsOutputOf outputs.now) (D.state desk.old) (D.state desk.new) }
{
    match write_trace(alloc, outputs, plan, desk) {
        Ok(()) => write_incumbent(alloc, outputs, plan, desk),
        Err(stop) => Err(stop),
    }
}

/// Writes what a plan writes besides the report: its labels, its trace, and the newest path.
fn write_outputs<D: Desk>(
    alloc: Global,
    outputs: &Outputs,
    plan: &PlanRecord,
    desk: &mut D,
) -> Result<(), WriteStop>
    ensures ends { EndsIn (D.state desk.old) (D.state desk.new) (labels_writes outputs.now plan.now
        ++ (trace_writes outputs.now plan.now ++ incumbent_writes outputs.now plan.now)) result }
    ensures frame { WritesOnly (IsOutputOf outputs.now) (D.state desk.old) (D.state desk.new) }
{
    match write_labels(alloc, outputs, plan, desk) {
        Ok(()) => write_last_outputs(alloc, outputs, plan, desk),
        Err(stop) => Err(stop),
    }
}

/// Writes all of a plan: its section of the report, its labels, its trace, and the newest path.
pub(crate) fn write_plan<D: Desk>(
    alloc: Global,
    outputs: &Outputs,
    plan: &PlanRecord,
    desk: &mut D,
) -> Result<(), WriteStop>
    ensures ends { EndsIn (D.state desk.old) (D.state desk.new) (section_writes outputs.now plan.now) result }
    ensures frame { WritesOnly (IsOutputOf outputs.now) (D.state desk.old) (D.state desk.new) }
{
    match write_section(alloc, plan, desk) {
        Ok(()) => write_outputs(alloc, outputs, plan, desk),
        Err(stop) => Err(stop),
    }
}
