//! Single lines: of a plan, of the newest path, and of a demonstration.

ghost use Rattle.std.specs.Prelude.{◌≡◌, ◌++◌, IfOk, OnOk};
ghost use Rattle.sbpl_report.specs.Report.{demo_text, entry_text, incumbent_text, outcome_line, plan_line};

use crate::record::{PathRecord, PlanRecord};
use sbpl_incumbent::Entry;
use sbpl_job::NoMemory;
use sbpl_plan::Piece::{Bytes, Milli, Number};
use sbpl_plan::{PlanResult, push_all, push_bytes};
use std::alloc::Global;

/// Appends the result of a plan in one line.
fn push_outcome_line(out: &mut Vec<u8>, outcome: &PlanResult<PathRecord>) -> Result<(), NoMemory>
    ensures appended { OnOk result (out.new.items ≡ out.old.items ++ outcome_line outcome.now) }
{
    match outcome {
        PlanResult::Path(path) => push_all(
            out,
            &[
                Bytes(b"path "),
                Number(path.steps.as_slice().len() as u64),
                Bytes(b" cost "),
                Number(path.cost),
                Bytes(b" bound "),
                Milli(path.bound),
            ],
        ),
        PlanResult::NoPath => push_bytes(out, b"nopath"),
        PlanResult::Unknown => push_bytes(out, b"unknown"),
    }
}

/// Appends the line of a plan.
#[tactic(auto, unfolding(crate::specs::Report::plan_line))]
fn push_line(out: &mut Vec<u8>, plan: &PlanRecord) -> Result<(), NoMemory>
    ensures appended { OnOk result (out.new.items ≡ out.old.items ++ plan_line plan.now) }
{
    push_all(
        out,
        &[Bytes(b"plan "), Number(u64::from(plan.plan)), Bytes(b" ")],
    )?;
    push_outcome_line(out, &plan.outcome)?;
    push_all(
        out,
        &[Bytes(b" expanded "), Number(plan.expanded), Bytes(b"\n")],
    )
}

/// The line of a plan.
pub fn plan_line(alloc: Global, plan: &PlanRecord) -> Result<Vec<u8>, NoMemory>
    ensures text { IfOk result (λ line. line.items ≡ plan_line plan.now) }
{
    let mut line = Vec::new(alloc);
    push_line(&mut line, plan)?;
    Ok(line)
}

/// Appends the line of an entry.
#[tactic(auto, unfolding(crate::specs::Report::entry_text))]
fn push_entry(out: &mut Vec<u8>, entry: &Entry) -> Result<(), NoMemory>
    ensures appended { OnOk result (out.new.items ≡ out.old.items ++ entry_text entry.now) }
{
    push_all(
        out,
        &[
            Bytes(b"incumbent "),
            Number(entry.number),
            Bytes(b" plan "),
            Number(u64::from(entry.plan)),
            Bytes(b" pass "),
            Number(u64::from(entry.pass)),
            Bytes(b" cost "),
            Number(entry.cost),
            Bytes(b" bound "),
            Milli(entry.bound),
            Bytes(b"\n"),
        ],
    )
}

/// The line of the newest path, or that there is none.
pub fn incumbent_line(alloc: Global, newest: &Option<Entry>) -> Result<Vec<u8>, NoMemory>
    ensures text { IfOk result (λ line. line.items ≡ incumbent_text newest.now) }
{
    let mut line = Vec::new(alloc);
    match newest {
        Some(entry) => push_entry(&mut line, entry)?,
        None => push_bytes(&mut line, b"incumbent none\n")?,
    }
    Ok(line)
}

/// Appends the first line of a demonstration.
#[tactic(auto, unfolding(crate::specs::Report::demo_text))]
fn push_demo(out: &mut Vec<u8>, states: u64, primitives: u64, batches: u64) -> Result<(), NoMemory>
    ensures appended { OnOk result (out.new.items ≡ out.old.items ++ demo_text states primitives batches) }
{
    push_all(
        out,
        &[
            Bytes(b"demo states "),
            Number(states),
            Bytes(b" primitives "),
            Number(primitives),
            Bytes(b" batches "),
            Number(batches),
            Bytes(b"\n"),
        ],
    )
}

/// The first line of a demonstration.
pub fn demo_line(
    alloc: Global,
    states: u32,
    primitives: u32,
    batches: u32,
) -> Result<Vec<u8>, NoMemory>
    ensures text { IfOk result (λ line. line.items ≡ demo_text states primitives batches) }
{
    let mut line = Vec::new(alloc);
    push_demo(
        &mut line,
        u64::from(states),
        u64::from(primitives),
        u64::from(batches),
    )?;
    Ok(line)
}
