//! The lines of refusals.

ghost use Rattle.std.specs.Prelude.{◌≡◌, ◌++◌, OnOk, IfOk, None, Some};
ghost use Rattle.sbpl_report.specs.Refusals.{fault_text, file_name, input_name, label_fault_text, name_or_nothing};
ghost use Rattle.sbpl_report.specs.Refusals.{refusal_text, unread_text};

use crate::refusal::{Input, Refusal};
use sbpl_cert::LabelFault;
use sbpl_job::{CheckJob, Job, Name, NavCheckJob, NavJob, NoMemory, PlanJob, Sources};
use sbpl_plan::Piece::{Bytes, Number};
use sbpl_plan::push_all;
use std::alloc::Global;

/// Appends the line of a fault in a file.
#[tactic(auto, unfolding(crate::specs::Refusals::fault_text))]
fn push_fault<'a>(
    out: &mut Vec<u8>,
    kind: &'a [u8],
    number: u8,
    name: &'a str,
    place: u64,
) -> Result<(), NoMemory>
    ensures appended { OnOk result (out.new.items ≡ out.old.items ++ fault_text kind.now number name.now place) }
{
    push_all(
        out,
        &[
            Bytes(b"refused "),
            Bytes(kind),
            Bytes(b" "),
            Number(u64::from(number)),
            Bytes(b" "),
            Bytes(name.as_bytes()),
            Bytes(b" "),
            Number(place),
            Bytes(b"\n"),
        ],
    )
}

/// Appends the line for a file that was not read.
#[tactic(auto, unfolding(crate::specs::Refusals::unread_text))]
fn push_unread<'a>(out: &mut Vec<u8>, why: &'a [u8], name: &'a str) -> Result<(), NoMemory>
    ensures appended { OnOk result (out.new.items ≡ out.old.items ++ unread_text why.now name.now) }
{
    push_all(
        out,
        &[
            Bytes(b"refused "),
            Bytes(why),
            Bytes(b" "),
            Bytes(name.as_bytes()),
            Bytes(b"\n"),
        ],
    )
}

/// The name, if there is one, and nothing otherwise.
fn name_or_nothing(name: &Option<Name>) -> &str
    ensures name { result.now ≡ name_or_nothing name.now }
{
    match name {
        Some(name) => name.as_str(),
        None => "",
    }
}

/// The name of a file that the job `sweep` reads; empty where it reads none.
fn sources_name(from: &Sources, input: Input) -> &str
    ensures name { result.now ≡ file_name from.now.env (Some from.now.prims) None None input }
{
    match input {
        Input::Environment => from.env.as_str(),
        Input::Primitives => from.prims.as_str(),
        Input::Changes | Input::Labels => "",
    }
}

/// The name of a file that a job `plan` reads; empty where it reads none.
fn plan_name(job: &PlanJob, input: Input) -> &str
    ensures name { result.now ≡ file_name job.now.sources.env (Some job.now.sources.prims) job.now.changes None input }
{
    match input {
        Input::Environment => job.sources.env.as_str(),
        Input::Primitives => job.sources.prims.as_str(),
        Input::Changes => name_or_nothing(&job.changes),
        Input::Labels => "",
    }
}

/// The name of a file that a job `check` reads; empty where it reads none.
fn check_name(job: &CheckJob, input: Input) -> &str
    ensures name { result.now ≡ file_name job.now.sources.env (Some job.now.sources.prims) job.now.changes
        (Some job.now.labels) input }
{
    match input {
        Input::Environment => job.sources.env.as_str(),
        Input::Primitives => job.sources.prims.as_str(),
        Input::Changes => name_or_nothing(&job.changes),
        Input::Labels => job.labels.as_str(),
    }
}

/// The name of a file that a job `nav` reads; empty where it reads none.
fn nav_name(job: &NavJob, input: Input) -> &str
    ensures name { result.now ≡ file_name job.now.sources.env None job.now.changes None input }
{
    match input {
        Input::Environment => job.sources.env.as_str(),
        Input::Changes => name_or_nothing(&job.changes),
        Input::Primitives | Input::Labels => "",
    }
}

/// The name of a file that a job `navcheck` reads; empty where it reads none.
fn nav_check_name(job: &NavCheckJob, input: Input) -> &str
    ensures name { result.now ≡ file_name job.now.sources.env None job.now.changes (Some job.now.labels) input }
{
    match input {
        Input::Environment => job.sources.env.as_str(),
        Input::Primitives => "",
        Input::Changes => name_or_nothing(&job.changes),
        Input::Labels => job.labels.as_str(),
    }
}

/// The name of a file that a job reads; empty where it reads none.
fn name_of(job: &Job, input: Input) -> &str
    ensures name { result.now ≡ input_name job.now input }
{
    match job {
        Job::Plan(job) => plan_name(job, input),
        Job::Check(job) => check_name(job, input),
        Job::Sweep(from) => sources_name(from, input),
        Job::Demo(_) => "",
        Job::Nav(job) => nav_name(job, input),
        Job::NavCheck(job) => nav_check_name(job, input),
    }
}

/// Appends the line of a refusal.
fn push_refusal(out: &mut Vec<u8>, job: &Job, refusal: &Refusal) -> Result<(), NoMemory>
    ensures appended { OnOk result (out.new.items ≡ out.old.items ++ refusal_text job.now refusal.now) }
{
    match refusal {
        Refusal::Environment(fault) => push_fault(
            out,
            b"environment",
            fault.number(),
            fault.name(),
            fault.place() as u64,
        ),
        Refusal::Grid(fault) => push_fault(
            out,
            b"environment",
            fault.number(),
            fault.name(),
            fault.place() as u64,
        ),
        Refusal::OffMap(_) => push_all(out, &[Bytes(b"refused words\n")]),
        Refusal::Primitives(fault) => push_fault(
            out,
            b"primitives",
            fault.number(),
            fault.name(),
            fault.place() as u64,
        ),
        Refusal::TooWide(prim) => push_fault(out, b"primitives", 14, "TooWide", u64::from(*prim)),
        Refusal::TooDear(prim) => push_fault(out, b"primitives", 15, "TooDear", u64::from(*prim)),
        Refusal::Changes(fault) => push_fault(
            out,
            b"changes",
            fault.number(),
            fault.name(),
            fault.line(),
        ),
        Refusal::Read(input) => push_unread(out, b"read", name_of(job, *input)),
        Refusal::Length(input) => push_unread(out, b"length", name_of(job, *input)),
    }
}

/// The line of a refusal.
pub fn refusal_line(alloc: Global, job: &Job, refusal: &Refusal) -> Result<Vec<u8>, NoMemory>
    ensures text { IfOk result (λ line. line.items ≡ refusal_text job.now refusal.now) }
{
    let mut line = Vec::new(alloc);
    push_refusal(&mut line, job, refusal)?;
    Ok(line)
}

/// The line of a fault in a text of labels.
pub fn fault_line(alloc: Global, fault: &LabelFault) -> Result<Vec<u8>, NoMemory>
    ensures text { IfOk result (λ line. line.items ≡ label_fault_text fault.now) }
{
    let mut line = Vec::new(alloc);
    push_fault(
        &mut line,
        b"labels",
        fault.number(),
        fault.name(),
        fault.place() as u64,
    )?;
    Ok(line)
}
