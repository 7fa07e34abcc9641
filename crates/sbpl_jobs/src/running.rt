//! How a job is run: it is done or refused, what came of it is written, and people are told why it was refused.

ghost use Rattle.std.specs.Prelude.{◌≡◌, ◌^◌, ◌<◌, List, ℕ, length, Some, IfErr, IfOk, OnErr};
ghost use Rattle.sbpl_checks.specs.sbpl_lists.Messages.{IsPlainMessage};
ghost use Rattle.sbpl_checks.specs.sbpl_promises.Explained.{program};
ghost use Rattle.sbpl_checks.specs.sbpl_promises.Run.{IsJob, Job, MayBeWritten, job_named, refusal_status, refusal_writes};
ghost use Rattle.sbpl_checks.specs.sbpl_promises.Run.{words_writes};
ghost use Rattle.sbpl_checks.specs.sbpl_promises.Writing.{IsOutput, ReadsOnly, WritesOnly};
ghost use Rattle.sbpl_checks.specs.sbpl_telling.Endings.{EndsTelling};
ghost use Rattle.sbpl_plans.specs.Boards.{IsSamePublisher, entries_of};
ghost use Rattle.sbpl_jobs.specs.Endings.{IsJobEnding, IsJobStop, IsRunEnding};

use crate::check_job::run_check;
use crate::demo_job::run_demo;
use crate::nav_job::{run_nav, run_navcheck};
use crate::plan_job::run_plan;
use crate::sweep_job::run_sweep;
use sbpl_checks::{
    Desk, Ending, Gate, Job, JobFault, JobStop, Message, NoMemory, Refusal, Status, causes_stand,
    end_with, read_job, refusal_line,
};
use sbpl_message::words_message;
use sbpl_plans::LiveBoard;
use std::alloc::Global;
use std::sync::Wait;
use std::thread::Threads;

/// Writes the line of a refusal, of which people are told this.
fn refuse<D: Desk>(alloc: Global, job: &Job, refusal: Refusal, why: Message, desk: &mut D) -> Ending
    ensures ends { EndsTelling (D.state desk.old) (D.state desk.new) (refusal_writes job.now refusal)
        (refusal_status refusal) why result }
    ensures frame { WritesOnly IsOutput (D.state desk.old) (D.state desk.new) }
{
    match refusal_line(alloc, job, &refusal) {
        Ok(line) => end_with(alloc, line.as_slice(), refusal.status(), why, desk),
        Err(NoMemory) => Ending::plain(alloc, Status::NoMemory),
    }
}

/// Does a job and writes what came of it; or answers why nothing was written.
fn run_job<R: Threads + Wait + Sync, D: Desk, T: Gate + Sync>(
    alloc: Global,
    job: &Job,
    live: &mut LiveBoard<R>,
    desk: &mut D,
    gate: &T,
) -> Result<Ending, JobStop>
    requires range { IsJob job.now }
    requires few { length (entries_of live.old) < 2 ^ 62 }
    ensures ends { IfOk result (IsJobEnding (D.state desk.old) (D.state desk.new) (entries_of live.old)
        (entries_of live.new) job.now) }
    ensures stop { IfErr result (IsJobStop (D.state desk.old) (D.state desk.new) job.now) }
    ensures unwritten { OnErr result (ReadsOnly (D.state desk.old) (D.state desk.new)) }
    ensures unpublished { OnErr result (entries_of live.new ≡ entries_of live.old) }
    ensures same { IsSamePublisher live.old live.new }
    ensures frame { WritesOnly (MayBeWritten (Some job.now)) (D.state desk.old) (D.state desk.new) }
{
    match job {
        Job::Plan(plan) => run_plan(alloc, plan, live, desk, gate),
        Job::Check(check) => run_check(alloc, check, desk),
        Job::Sweep(from) => run_sweep(alloc, from, desk),
        Job::Demo(job) => Ok(run_demo(alloc, job, live, desk, gate)),
        Job::Nav(nav) => run_nav(alloc, nav, live, desk, gate),
        Job::NavCheck(check) => run_navcheck(alloc, check, desk),
    }
}

/// Writes that the words name no job, and tells what is wrong with them.
fn refuse_words<D: Desk>(alloc: Global, words: &[String], desk: &mut D) -> Ending
    ensures ends { (why : List ℕ) × IsPlainMessage program why × EndsTelling (D.state desk.old) (D.state desk.new)
        words_writes 2 why result }
    ensures frame { WritesOnly IsOutput (D.state desk.old) (D.state desk.new) }
{
    match words_message(alloc, words) {
        Ok(why) => end_with(alloc, b"refused words\n", Status::WordsRefused, why, desk),
        Err(NoMemory) => Ending::plain(alloc, Status::NoMemory),
    }
}

/// Finds the job that the words name, does it or refuses it, and writes what came of it. Answers the status, and what
/// people are told where the job was not done: which word is wrong, which file could not be read, or where a file has its
/// fault and what must stand there.
pub fn run_words<R: Threads + Wait + Sync, D: Desk, T: Gate + Sync>(
    alloc: Global,
    words: &[String],
    live: &mut LiveBoard<R>,
    desk: &mut D,
    gate: &T,
) -> Ending
    requires few { length (entries_of live.old) < 2 ^ 62 }
    ensures ends { IsRunEnding (job_named words.now) (D.state desk.old) (D.state desk.new) (entries_of live.old)
        (entries_of live.new) result }
    ensures same { IsSamePublisher live.old live.new }
    ensures frame { WritesOnly (MayBeWritten (job_named words.now)) (D.state desk.old) (D.state desk.new) }
{
    causes_stand();
    let job = match read_job(alloc, words) {
        Ok(job) => job,
        Err(JobFault::Words) => return refuse_words(alloc, words, desk),
        Err(JobFault::NoMemory) => return Ending::plain(alloc, Status::NoMemory),
    };
    // The job is let go by a call: the drop of each field here would make the proof long.
    match run_job(alloc, &job, live, desk, gate) {
        Ok(ending) => {
            drop(job);
            ending
        }
        Err(JobStop::Refused(refusal, why)) => {
            let ending = refuse(alloc, &job, refusal, why, desk);
            drop(job);
            ending
        }
        Err(JobStop::NoMemory) => {
            drop(job);
            Ending::plain(alloc, Status::NoMemory)
        }
    }
}
