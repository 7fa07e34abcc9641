//! The planners: the plans of a job by the one that it asks for.

ghost use Rattle.std.specs.Prelude.{◌^◌, ◌<◌, ◌≤◌, length};
ghost use Rattle.sbpl_worlds.specs.sbpl_epase.Making.{CanPass, Leaves};
ghost use Rattle.sbpl_worlds.specs.sbpl_search.Query.{query};
ghost use Rattle.sbpl_worlds.specs.sbpl_promises.Asked.{planner_as_is};
ghost use Rattle.sbpl_plans.specs.Boards.{IsSamePublisher, entries_of};
ghost use Rattle.sbpl_plans.specs.Tasks.{CanBeMade, EndsTask};
ghost use Rattle.sbpl_worlds.specs.sbpl_promises.Writing.{WritesOnly};

use crate::live_board::LiveBoard;
use crate::plans::go_through;
use crate::task::Task;
use sbpl_telling::{Ending, Status, Telling};
use sbpl_worlds::{
    AdStar, Ara, Desk, Epase, Gate, Graph, NoMemory, Parts, Planner, Workspace, parallel_pass_parts,
};
use std::alloc::Global;
use std::sync::Wait;
use std::thread::Threads;

/// Makes and tells the plans of a task on this world by the planner that it asks for, while the map changes batch by batch,
/// writes the last line, and answers how they ended, with what people are told of them. What is planned on says which way the
/// search goes. Threads are started only by ePA*SE.
pub fn make_plans<
    R: Threads + Wait + Sync,
    G: Gate + Sync,
    D: Desk,
    T: Telling,
    W: Workspace + Sync + Drop,
>(
    gate: &G,
    alloc: Global,
    world: W,
    task: &Task,
    live: &mut LiveBoard<R>,
    telling: &T,
    desk: &mut D,
) -> Ending
where
    W::Best: Sync,
    requires task { CanBeMade W.Workspace world task.now }
    requires few { length (entries_of live.old) < 2 ^ 62 }
    ensures ends { EndsTask (planner_as_is W.Workspace task.now.how.now.planner) (T.written telling.now) (T.told telling.now) world
        task.now (entries_of live.old) (entries_of live.new) (D.state desk.old) (D.state desk.new) result }
    ensures same { IsSamePublisher live.old live.new }
    ensures frame { WritesOnly (T.under telling.now) (D.state desk.old) (D.state desk.new) }
{
    let states = world.states();
    let (from, to) = W::way(task.start, task.goal);
    match task.how.planner {
        Planner::Ara => match Ara::open(alloc, states, from, to) {
            Ok(search) => go_through(alloc, world, search, task, live, telling, desk),
            Err(NoMemory) => Ending::plain(alloc, Status::NoMemory),
        },
        Planner::AdStar | Planner::Back => match AdStar::open(alloc, states, from, to) {
            Ok(search) => go_through(alloc, world, search, task, live, telling, desk),
            Err(NoMemory) => Ending::plain(alloc, Status::NoMemory),
        },
        Planner::Epase => {
            let rt = live.rt;
            let make = move |alloc: Global, graph: &W, guide: &W::Best, workers: u32, parts: Parts, goal: u32, eps: u32, keeps: bool|
                requires can { CanPass (query (W.network graph.now) (W.Best.distance guide.now) eps goal)
                    (W.Best.guides guide.now (W.network graph.now) goal) workers parts }
                ensures left { Leaves (query (W.network graph.now) (W.Best.distance guide.now) eps goal) workers parts keeps
                    result }
            {
                parallel_pass_parts(
                    rt, gate, workers, alloc, graph, guide, parts, goal, eps, keeps,
                )
            };
            match Epase::open(alloc, make, task.how.workers, states, from, to) {
                Ok(search) => go_through(alloc, world, search, task, live, telling, desk),
                Err(NoMemory) => Ending::plain(alloc, Status::NoMemory),
            }
        }
    }
}
