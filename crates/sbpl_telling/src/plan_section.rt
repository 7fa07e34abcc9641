//! The section of a plan in the report.

ghost use Rattle.std.specs.Prelude.{◌≡◌, ◌++◌, IfOk, OnOk, flat_map};
ghost use Rattle.sbpl_promises.specs.sbpl_report.Report.{found_text, outcome_text, pass_text, path_text, place_text};
ghost use Rattle.sbpl_promises.specs.sbpl_report.Report.{section_text, spent_text, report_pose_text, step_text};

use sbpl_promises::Piece::{Bytes, Milli, Number};
use sbpl_promises::{
    Found, NoMemory, PassRecord, PathRecord, PathStep, Place, PlanRecord, PlanResult, ReportPose,
    TraceLine, push_all, push_bytes,
};
use std::alloc::Global;

/// Appends what a pass found.
fn push_found(out: &mut Vec<u8>, found: Found) -> Result<(), NoMemory>
    ensures appended { OnOk result (out.new.items ≡ out.old.items ++ found_text found) }
{
    match found {
        Found::Path { cost, bound } => push_all(
            out,
            &[
                Bytes(b" best "),
                Number(cost),
                Bytes(b" bound "),
                Milli(bound),
            ],
        ),
        Found::None => push_bytes(out, b" none"),
        Found::Broken => push_bytes(out, b" broken"),
    }
}

/// Appends the line of a pass.
#[tactic(auto, unfolding(crate::specs::Report::pass_text))]
fn push_pass(out: &mut Vec<u8>, pass: &PassRecord<TraceLine>) -> Result<(), NoMemory>
    ensures appended { OnOk result (out.new.items ≡ out.old.items ++ pass_text pass.now) }
{
    push_all(
        out,
        &[
            Bytes(b"pass "),
            Milli(u128::from(pass.inflation)),
            Bytes(b" expanded "),
            Number(pass.expanded),
        ],
    )?;
    push_found(out, pass.found)?;
    push_bytes(out, b"\n")
}

/// Appends the lines of passes.
fn push_passes(out: &mut Vec<u8>, passes: &[PassRecord<TraceLine>]) -> Result<(), NoMemory>
    ensures appended { OnOk result (out.new.items ≡ out.old.items ++ flat_map pass_text passes.now) }
{
    for pass in passes {
        push_pass(out, pass)?;
    }
    Ok(())
}

/// Appends a place and the end of its line.
#[tactic(auto, unfolding(crate::specs::Report::place_text))]
fn push_place(out: &mut Vec<u8>, place: Place) -> Result<(), NoMemory>
    ensures appended { OnOk result (out.new.items ≡ out.old.items ++ place_text place) }
{
    push_all(
        out,
        &[
            Number(u64::from(place.x)),
            Bytes(b" "),
            Number(u64::from(place.y)),
            Bytes(b" "),
            Number(u64::from(place.t)),
            Bytes(b"\n"),
        ],
    )
}

/// Appends where a state is, and the end of its line.
fn push_report_pose(out: &mut Vec<u8>, report_pose: ReportPose) -> Result<(), NoMemory>
    ensures appended { OnOk result (out.new.items ≡ out.old.items ++ report_pose_text report_pose) }
{
    match report_pose {
        ReportPose::Pose(place) => push_place(out, place),
        ReportPose::Cell(x, y) => push_all(
            out,
            &[
                Number(u64::from(x)),
                Bytes(b" "),
                Number(u64::from(y)),
                Bytes(b"\n"),
            ],
        ),
    }
}

/// Appends the line of a step.
#[tactic(auto, unfolding(crate::specs::Report::step_text))]
fn push_step(out: &mut Vec<u8>, step: &PathStep) -> Result<(), NoMemory>
    ensures appended { OnOk result (out.new.items ≡ out.old.items ++ step_text step.now) }
{
    push_all(
        out,
        &[Bytes(b"step "), Number(u64::from(step.id)), Bytes(b" ")],
    )?;
    push_report_pose(out, step.report_pose)
}

/// Appends the lines of steps.
fn push_steps(out: &mut Vec<u8>, steps: &[PathStep]) -> Result<(), NoMemory>
    ensures appended { OnOk result (out.new.items ≡ out.old.items ++ flat_map step_text steps.now) }
{
    for step in steps {
        push_step(out, step)?;
    }
    Ok(())
}

/// Appends the lines of a path.
#[tactic(auto, unfolding(crate::specs::Report::path_text))]
fn push_path(out: &mut Vec<u8>, path: &PathRecord) -> Result<(), NoMemory>
    ensures appended { OnOk result (out.new.items ≡ out.old.items ++ path_text path.now) }
{
    let steps = path.steps.as_slice();
    push_all(
        out,
        &[
            Bytes(b"path "),
            Number(steps.len() as u64),
            Bytes(b" cost "),
            Number(path.cost),
            Bytes(b" bound "),
            Milli(path.bound),
            Bytes(b"\npose "),
        ],
    )?;
    push_report_pose(out, path.start)?;
    push_steps(out, steps)
}

/// Appends the lines of a result.
fn push_outcome(out: &mut Vec<u8>, outcome: &PlanResult<PathRecord>) -> Result<(), NoMemory>
    ensures appended { OnOk result (out.new.items ≡ out.old.items ++ outcome_text outcome.now) }
{
    match outcome {
        PlanResult::Path(path) => push_path(out, path),
        PlanResult::NoPath => push_bytes(out, b"nopath\n"),
        PlanResult::Unknown => push_bytes(out, b"unknown\n"),
    }
}

/// Appends the line of a plan that was spent.
fn push_spent(out: &mut Vec<u8>, spent: Option<u64>) -> Result<(), NoMemory>
    ensures appended { OnOk result (out.new.items ≡ out.old.items ++ spent_text spent) }
{
    match spent {
        None => Ok(()),
        Some(expanded) => push_all(out, &[Bytes(b"spent "), Number(expanded), Bytes(b"\n")]),
    }
}

/// Appends the section of a plan.
#[tactic(auto, unfolding(crate::specs::Report::section_text))]
fn push_section(out: &mut Vec<u8>, plan: &PlanRecord) -> Result<(), NoMemory>
    ensures appended { OnOk result (out.new.items ≡ out.old.items ++ section_text plan.now) }
{
    push_all(
        out,
        &[Bytes(b"plan "), Number(u64::from(plan.plan)), Bytes(b"\n")],
    )?;
    push_passes(out, plan.passes.as_slice())?;
    push_spent(out, plan.spent)?;
    push_outcome(out, &plan.outcome)
}

/// The section of a plan.
pub fn section_of(alloc: Global, plan: &PlanRecord) -> Result<Vec<u8>, NoMemory>
    ensures text { IfOk result (λ text. text.items ≡ section_text plan.now) }
{
    let mut text = Vec::new(alloc);
    push_section(&mut text, plan)?;
    Ok(text)
}
