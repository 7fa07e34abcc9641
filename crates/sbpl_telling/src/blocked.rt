//! What people are told of a plan that has no path.

ghost use Rattle.std.specs.Prelude.{◌≡◌, ◌++◌, IfOk, OnOk};
ghost use Rattle.sbpl_promises.specs.Blocked.{blocked_line, blocked_text, line_of};

use sbpl_promises::Piece::{Bytes, Number};
use sbpl_promises::{Blockage, ListOf, Message, NoMemory, PlanRecord, push_all};
use std::alloc::Global;

/// What is said of a plan that is blocked so.
fn said(why: Blockage) -> &'static str
    ensures said { result.now ≡ blocked_text why }
{
    match why {
        Blockage::Start => "no motion from the start is free of obstacles and stays on the map",
        Blockage::Goal => "no motion into the goal is free of obstacles",
    }
}

/// Appends the line on a plan of this number that is blocked so.
#[tactic(auto, unfolding(crate::specs::Report::line_of))]
fn push_line(out: &mut Vec<u8>, name: &str, plan: u32, why: Blockage) -> Result<(), NoMemory>
    ensures appended { OnOk result (out.new.items ≡ out.old.items ++ line_of name.now plan why) }
{
    push_all(
        out,
        &[
            Bytes(name.as_bytes()),
            Bytes(b": plan "),
            Number(u64::from(plan)),
            Bytes(b" has no path: "),
            Bytes(said(why).as_bytes()),
            Bytes(b"\n"),
        ],
    )
}

/// What people are told of a plan on the environment file of this name: in a line why it has no path, where that is simple.
pub(crate) fn blocked_line(
    alloc: Global,
    name: &str,
    plan: &PlanRecord,
) -> Result<Message, NoMemory>
    ensures line { IfOk result (λ m. m ≡ blocked_line name.now plan.now) }
{
    let mut out = Vec::new(alloc);
    if let Some(why) = plan.blockage {
        push_line(&mut out, name, plan.plan, why)?;
    }
    Ok(ListOf::of(out))
}
