//! How plans are told: in full, or each in a line.

ghost use Rattle.std.specs.Prelude.{◌≡◌, ◌∷◌, [], List, ℕ, IfOk};
ghost use Rattle.sbpl_promises.specs.sbpl_report.declared.record.PlanRecord.{PlanRecord};
ghost use Rattle.sbpl_promises.specs.Blocked.{blocked_line};
ghost use Rattle.sbpl_promises.specs.Intents.{section_writes};
ghost use Rattle.sbpl_promises.specs.sbpl_report.Report.{plan_line};
ghost use Rattle.sbpl_promises.specs.Writing.{EndsIn, IsOutput, IsOutputOf, Write, WritesOnly, output, to_output};

use crate::blocked::blocked_line;
use crate::sections::write_plan;
use crate::writing::{OUTPUT, write_text};
use sbpl_promises::{
    Desk, ListOf, Message, Name, NoMemory, Outputs, PlanRecord, WriteStop, plan_line,
};
use std::alloc::Global;

/// A way to tell plans.
pub trait Telling {
    /// What is written of a plan.
    ghost written: { Self → PlanRecord → List Write };

    /// What people are told of it besides: lines, or nothing.
    ghost told: { Self → PlanRecord → List ℕ };

    /// The names under which it may be written.
    ghost under: { Self → List ℕ → Type 0 };

    /// The standard output is one of them.
    ghost output: { (t : Self) (name : List ℕ) → IsOutput name → under t name };

    /// Writes what is written of a plan, and answers what people are told of it besides.
    fn tell<D: Desk>(
        &self,
        alloc: Global,
        plan: &PlanRecord,
        desk: &mut D,
    ) -> Result<Message, WriteStop>
        ensures ends { EndsIn (D.state desk.old) (D.state desk.new) (written self.now plan.now) result }
        ensures told { IfOk result (λ m. m ≡ told self.now plan.now) }
        ensures frame { WritesOnly (under self.now) (D.state desk.old) (D.state desk.new) };
}

/// In full: a section of the report, one of labels and one of a trace, where they are asked for; and why a plan has no path, where
/// that is simple.
#[derive(Clone, Copy)]
pub struct InFull<'a> {
    /// Where the sections are written.
    pub outputs: &'a Outputs,
    /// The environment file, on which people are told.
    pub env: &'a Name,
}

impl Telling for InFull<'_> {
    ghost use Rattle.std.proofs.Common.{inl};

    ghost written = { λ t plan. section_writes t.outputs.now plan };

    ghost told = { λ t plan. blocked_line t.env.now plan };

    ghost under = { λ t name. IsOutputOf t.outputs.now name };

    ghost output = { λ t name is. inl is };

    fn tell<D: Desk>(
        &self,
        alloc: Global,
        plan: &PlanRecord,
        desk: &mut D,
    ) -> Result<Message, WriteStop> {
        match blocked_line(alloc, self.env.as_str(), plan) {
            Ok(line) => match write_plan(alloc, self.outputs, plan, desk) {
                Ok(()) => Ok(line),
                Err(stop) => Err(stop),
            },
            Err(NoMemory) => Err(WriteStop::NoMemory),
        }
    }
}

/// Each plan in a line of the report.
pub struct Lines;

impl Telling for Lines {
    ghost written = { λ _ plan. to_output (plan_line plan) ∷ [] };

    ghost told = { λ _ plan. [] };

    ghost under = { λ _ name. IsOutput name };

    ghost output = { λ _ name is. is };

    fn tell<D: Desk>(
        &self,
        alloc: Global,
        plan: &PlanRecord,
        desk: &mut D,
    ) -> Result<Message, WriteStop> {
        match plan_line(alloc, plan) {
            Ok(line) => match write_text(OUTPUT, line.as_slice(), desk) {
                Ok(()) => Ok(ListOf::of(Vec::new(alloc))),
                Err(stop) => Err(stop),
            },
            Err(NoMemory) => Err(WriteStop::NoMemory),
        }
    }
}
