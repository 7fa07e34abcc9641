//! The plans of a job: one on the map as it is, and one after each batch of changes.

ghost use Rattle.std.specs.Prelude.{◌≡◌, ◌==◌, if◌then◌else◌, ◌+◌, ◌^◌, ◌<◌, ◌≤◌, ◌∷◌, ◌++◌, [], length, IfOk};
ghost use Rattle.sbpl_worlds.specs.sbpl_promises.Headline.{Before, NoPlan};
ghost use Rattle.sbpl_worlds.specs.sbpl_promises.Asked.{planner_on};
ghost use Rattle.sbpl_worlds.specs.sbpl_replan.Replanning.{IsReady, standing_of};
ghost use Rattle.sbpl_plans.specs.Planning.{EndsOnePlan, GoesOnFrom, IsNewSearch, IsSetFor, carried_of};
ghost use Rattle.sbpl_plans.specs.Boards.{IsSamePublisher, entries_of};
ghost use Rattle.sbpl_plans.specs.Tasks.{CanBeMade, CanPlan, EndsTask};
ghost use Rattle.sbpl_worlds.specs.sbpl_plan.Asked.{MOST_PASSES};
ghost use Rattle.sbpl_worlds.specs.sbpl_promises.Intents.{last_write};
ghost use Rattle.sbpl_worlds.specs.sbpl_promises.Writing.{EndsAs, IsOutput, WritesOnly};
ghost use Rattle.sbpl_worlds.specs.sbpl_report.Statuses.{number_of};

use crate::live_board::LiveBoard;
use crate::plan_record::make_record;
use crate::task::{PlanStart, Task};
use sbpl_telling::{Ending, Status, Telling, end_with, status_after};
use sbpl_worlds::{
    Desk, ListOf, Message, Meter, NoMemory, Search, Session, Traced, Workspace, WriteStop,
    place_in, push_bytes, writes_lead_to_the_next_map,
};
use std::alloc::Global;
use std::sync::Wait;

/// Makes a plan on the present map of a session, writes what is written of it, and answers what people are told of it besides.
fn make_plan<D: Desk, T: Telling, W: Workspace + Drop, S: Search<W, W::Best> + Drop, B: Wait>(
    alloc: Global,
    session: &mut Session<W, W::Best, S>,
    task: &Task,
    at: PlanStart,
    live: &mut LiveBoard<B>,
    telling: &T,
    desk: &mut D,
) -> Result<Message, WriteStop>
where
    S::Action: Traced,
    requires can { CanPlan W.Workspace S.meaning W.Best.is_made_for task.now at session.old }
    requires few { length (entries_of live.old) + MOST_PASSES < 2 ^ 63 }
    ensures ends { (before : Before)
        → GoesOnFrom S.meaning W.Workspace session.old.world at.start task.now.goal before (standing_of session.old)
        → EndsOnePlan (planner_on W.Workspace S.meaning S.Action.line) (T.written telling.now) (T.told telling.now)
        session.old.world
        task.now.how.now task.now.outputs.now at.start task.now.goal at.plan (entries_of live.old) (entries_of live.new) before
        (carried_of (W.cells.map session.old.world) (standing_of session.new)) (D.state desk.old) (D.state desk.new) result }
    ensures ready { IfOk result (λ _. IsReady S.meaning W.network W.Best.is_made_for session.new) }
    ensures set { IfOk result (λ _. IsSetFor W.Workspace task.now.how.now at.start task.now.goal (standing_of session.new)) }
    ensures world { session.new.world ≡ session.old.world }
    ensures same { IsSamePublisher live.old live.new }
    ensures grown { length (entries_of live.new) ≤ length (entries_of live.old) + MOST_PASSES }
    ensures frame { WritesOnly (T.under telling.now) (D.state desk.old) (D.state desk.new) }
{
    W::has_its_arcs();
    match make_record(alloc, session, task, at, live) {
        Ok(record) => telling.tell(alloc, &record, desk),
        Err(NoMemory) => Err(WriteStop::NoMemory),
    }
}

/// A session on this world for the plans of a task, whose first plan begins with the labels of a search that has made no pass yet.
/// The meter shows its expansions.
fn open_session<W: Workspace + Drop, S: Search<W, W::Best> + Drop>(
    alloc: Global,
    world: W,
    search: S,
    task: &Task,
    meter: &Meter,
) -> Result<Session<W, W::Best, S>, NoMemory>
    requires task { CanBeMade W.Workspace world task.now }
    requires new { IsNewSearch S.meaning W.Workspace world task.now.how.now task.now.start task.now.goal
        (S.state search) }
    requires serves { S.serves search }
    ensures world { IfOk result (λ s. s.world ≡ world) }
    ensures ready { IfOk result (IsReady S.meaning W.network W.Best.is_made_for) }
    ensures set { IfOk result (λ s. IsSetFor W.Workspace task.now.how.now task.now.start task.now.goal (standing_of s)) }
    ensures begun { IfOk result (λ s.
        GoesOnFrom S.meaning W.Workspace world task.now.start task.now.goal NoPlan (standing_of s)) }
{
    let mut session = Session::open(alloc, world, search, task.how.budget)?;
    session.meter_by(meter);
    Ok(session)
}

/// Adds what is told of the last plan to what is told of those before it, writes the last line, and answers how the plans ended.
fn end_plans<D: Desk>(alloc: Global, mut why: Vec<u8>, line: Message, desk: &mut D) -> Ending
    ensures ends { EndsAs (D.state desk.old) (D.state desk.new) (last_write ∷ []) 0 (number_of result.status) }
    ensures told { result.why ≡ (if number_of result.status == 0 then why.items ++ line else []) }
    ensures frame { WritesOnly IsOutput (D.state desk.old) (D.state desk.new) }
{
    match push_bytes(&mut why, line.as_slice()) {
        Ok(()) => end_with(alloc, b"done\n", Status::Done, ListOf::of(why), desk),
        Err(NoMemory) => Ending::plain(alloc, Status::NoMemory),
    }
}

/// Makes and tells the plans of a task on this world, while its map changes batch by batch and the start moves where it
/// may, writes the last line, and answers how they ended. The search has made no pass yet.
pub(crate) fn go_through<
    D: Desk,
    T: Telling,
    W: Workspace + Drop,
    S: Search<W, W::Best> + Drop,
    B: Wait,
>(
    alloc: Global,
    world: W,
    search: S,
    task: &Task,
    live: &mut LiveBoard<B>,
    telling: &T,
    desk: &mut D,
) -> Ending
where
    S::Action: Traced,
    requires task { CanBeMade W.Workspace world task.now }
    requires few { length (entries_of live.old) < 2 ^ 62 }
    requires new { IsNewSearch S.meaning W.Workspace world task.now.how.now task.now.start task.now.goal
        (S.state search) }
    requires serves { S.serves search }
    ensures ends { EndsTask (planner_on W.Workspace S.meaning S.Action.line) (T.written telling.now) (T.told telling.now) world
        task.now (entries_of live.old) (entries_of live.new) (D.state desk.old) (D.state desk.new) result }
    ensures same { IsSamePublisher live.old live.new }
    ensures frame { WritesOnly (T.under telling.now) (D.state desk.old) (D.state desk.new) }
{
    W::is_terrain();
    writes_lead_to_the_next_map();
    let mut session = match open_session(alloc, world, search, task, live.meter) {
        Ok(session) => session,
        Err(NoMemory) => return Ending::plain(alloc, Status::NoMemory),
    };
    let updates = task.updates;
    let mut start = task.start;
    let mut why = Vec::new(alloc);
    for k in 0..updates.batches.batches() {
        let at = PlanStart { plan: k, start };
        let line = match make_plan(alloc, &mut session, task, at, live, telling, desk) {
            Ok(line) => line,
            Err(stop) => return Ending::plain(alloc, status_after(Err(stop), Status::NoMemory)),
        };
        if let Err(NoMemory) = push_bytes(&mut why, line.as_slice()) {
            return Ending::plain(alloc, Status::NoMemory);
        }
        if let Err(NoMemory) = session.change(alloc, updates.batches.batch(k)) {
            return Ending::plain(alloc, Status::NoMemory);
        }
        start = session.world().start_at(place_in(updates, k), start);
        let (_from, to) = W::way(start, task.goal);
        if let Err(NoMemory) = session.aim(alloc, to) {
            return Ending::plain(alloc, Status::NoMemory);
        }
    }
    let last = PlanStart {
        plan: updates.batches.batches(),
        start,
    };
    match make_plan(alloc, &mut session, task, last, live, telling, desk) {
        Ok(line) => end_plans(alloc, why, line, desk),
        Err(stop) => Ending::plain(alloc, status_after(Err(stop), Status::NoMemory)),
    }
}
