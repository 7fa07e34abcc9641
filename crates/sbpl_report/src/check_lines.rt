//! The lines of a check.

ghost use Rattle.std.specs.Prelude.{◌≡◌, ◌++◌, IfOk, OnOk};
ghost use Rattle.sbpl_report.specs.Verdicts.{at_arc, at_goal, at_state, bound_text, flaw_kind, flaw_numbers, flaw_text};
ghost use Rattle.sbpl_report.specs.Verdicts.{holds_text, limit_text, outcome_word, two_bounds, two_limits};

use sbpl_cert::{Flaw, Outcome};
use sbpl_job::{NoMemory, print_milli};
use sbpl_plan::Piece::{Bytes, Number};
use sbpl_plan::{FAR, push_all, push_bytes, push_number};
use std::alloc::Global;

/// The word for what a plan answered.
fn outcome_word(outcome: &Outcome) -> &'static [u8]
    ensures word { result.now ≡ outcome_word outcome.now }
{
    match outcome {
        Outcome::Path { .. } => b"path",
        Outcome::NoPath => b"nopath",
        Outcome::Unknown => b"unknown",
    }
}

/// The line of a section that holds.
#[tactic(auto, unfolding(crate::specs::Verdicts::holds_text))]
pub fn holds_line(alloc: Global, plan: u32, outcome: &Outcome) -> Result<Vec<u8>, NoMemory>
    ensures text { IfOk result (λ line. line.items ≡ holds_text plan outcome.now) }
{
    let mut line = Vec::new(alloc);
    push_all(
        &mut line,
        &[
            Bytes(b"plan "),
            Number(u64::from(plan)),
            Bytes(b" "),
            Bytes(outcome_word(outcome)),
            Bytes(b" holds\n"),
        ],
    )?;
    Ok(line)
}

/// Appends a label, a low or a limit.
fn push_limit(out: &mut Vec<u8>, limit: u64) -> Result<(), NoMemory>
    ensures appended { OnOk result (out.new.items ≡ out.old.items ++ limit_text limit) }
{
    if limit >= FAR {
        push_bytes(out, b"-")
    } else {
        push_number(out, limit)
    }
}

/// Appends two of these.
#[tactic(auto, unfolding(crate::specs::Verdicts::two_limits))]
fn push_limits(out: &mut Vec<u8>, first: u64, second: u64) -> Result<(), NoMemory>
    ensures appended { OnOk result (out.new.items ≡ out.old.items ++ two_limits first second) }
{
    push_limit(out, first)?;
    push_bytes(out, b" ")?;
    push_limit(out, second)
}

/// Appends a state, an arc, and two numbers.
#[tactic(auto, unfolding(crate::specs::Verdicts::at_arc))]
fn push_at_arc(out: &mut Vec<u8>, state: u32, arc: u32, has: u64, most: u64) -> Result<(), NoMemory>
    ensures appended { OnOk result (out.new.items ≡ out.old.items ++ at_arc state arc has most) }
{
    push_all(
        out,
        &[
            Number(u64::from(state)),
            Bytes(b" "),
            Number(u64::from(arc)),
            Bytes(b" "),
        ],
    )?;
    push_limits(out, has, most)
}

/// Appends a state, and two numbers.
#[tactic(auto, unfolding(crate::specs::Verdicts::at_state))]
fn push_at_state(out: &mut Vec<u8>, state: u32, has: u64, most: u64) -> Result<(), NoMemory>
    ensures appended { OnOk result (out.new.items ≡ out.old.items ++ at_state state has most) }
{
    push_all(out, &[Number(u64::from(state)), Bytes(b" ")])?;
    push_limits(out, has, most)
}

/// Appends the guide's value at the goal.
#[tactic(auto, unfolding(crate::specs::Verdicts::at_goal))]
fn push_at_goal(out: &mut Vec<u8>, goal: u32, has: u64) -> Result<(), NoMemory>
    ensures appended { OnOk result (out.new.items ≡ out.old.items ++ at_goal goal has) }
{
    push_all(
        out,
        &[
            Number(u64::from(goal)),
            Bytes(b" - "),
            Number(has),
            Bytes(b" 0"),
        ],
    )
}

/// Appends a bound, or a minus where there is none.
fn push_bound(out: &mut Vec<u8>, bound: Option<u128>) -> Result<(), NoMemory>
    ensures appended { OnOk result (out.new.items ≡ out.old.items ++ bound_text bound) }
{
    match bound {
        None => push_bytes(out, b"-"),
        Some(bound) => print_milli(bound, out),
    }
}

/// Appends a bound, and the one that it should be.
#[tactic(auto, unfolding(crate::specs::Verdicts::two_bounds))]
fn push_bounds(out: &mut Vec<u8>, has: u128, least: Option<u128>) -> Result<(), NoMemory>
    ensures appended { OnOk result (out.new.items ≡ out.old.items ++ two_bounds has least) }
{
    print_milli(has, out)?;
    push_bytes(out, b" ")?;
    push_bound(out, least)
}

/// Appends the numbers of a flaw.
fn push_numbers(out: &mut Vec<u8>, goal: u32, flaw: &Flaw) -> Result<(), NoMemory>
    ensures appended { OnOk result (out.new.items ≡ out.old.items ++ flaw_numbers goal flaw.now) }
{
    match *flaw {
        Flaw::Start { g } => push_limit(out, g),
        Flaw::Arc {
            state,
            arc,
            has,
            most,
        } => push_at_arc(out, state, arc, has, most),
        Flaw::GoalGuide { has } => push_at_goal(out, goal, has),
        Flaw::Guide {
            state,
            arc,
            has,
            most,
        } => push_at_arc(out, state, arc, has, most),
        Flaw::Low { state, has, most } => push_at_state(out, state, has, most),
        Flaw::Path { step } => push_number(out, u64::from(step)),
        Flaw::Cost { has, sum } => push_limits(out, has, sum),
        Flaw::Bound { has, least } => push_bounds(out, has, least),
        Flaw::Goal { state } => push_number(out, u64::from(state)),
    }
}

/// Appends which flaw it is.
#[tactic(auto, unfolding(crate::specs::Verdicts::flaw_kind))]
fn push_kind(out: &mut Vec<u8>, plan: u32, flaw: &Flaw) -> Result<(), NoMemory>
    ensures appended { OnOk result (out.new.items ≡ out.old.items ++ flaw_kind plan flaw.now) }
{
    push_all(
        out,
        &[
            Bytes(b"flaw "),
            Number(u64::from(flaw.number())),
            Bytes(b" "),
            Bytes(flaw.name().as_bytes()),
            Bytes(b" plan "),
            Number(u64::from(plan)),
        ],
    )
}

/// The line of a flaw.
#[tactic(auto, unfolding(crate::specs::Verdicts::flaw_text))]
pub fn flaw_line(alloc: Global, goal: u32, plan: u32, flaw: &Flaw) -> Result<Vec<u8>, NoMemory>
    ensures text { IfOk result (λ line. line.items ≡ flaw_text goal plan flaw.now) }
{
    let mut line = Vec::new(alloc);
    push_kind(&mut line, plan, flaw)?;
    push_bytes(&mut line, b" ")?;
    push_numbers(&mut line, goal, flaw)?;
    push_bytes(&mut line, b"\n")?;
    Ok(line)
}
