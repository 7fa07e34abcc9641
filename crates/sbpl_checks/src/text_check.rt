//! The labels of a text, checked section by section while batches of changes are written to the map.

ghost use Rattle.std.specs.Prelude.{◌<◌, ◌≤◌, ℕ, Bool, suc, length, IfErr, IfOk, OnOk};
ghost use Rattle.sbpl_worlds.specs.sbpl_fixed.Formats.{start_at};
ghost use Rattle.sbpl_worlds.specs.sbpl_promises.Causes.{AreUpdatesIn};
ghost use Rattle.sbpl_worlds.specs.sbpl_promises.Checked.{Case, case_of};
ghost use Rattle.sbpl_checks.specs.Checking.{EndsSections, EndsText, HoldsInCase, IsPlanIn};
ghost use Rattle.sbpl_worlds.specs.sbpl_promises.Sites.{to_on};
ghost use Rattle.sbpl_worlds.specs.sbpl_promises.Writing.{IsOutput, WritesOnly};

use crate::check_next::{check_next, tell_fault};
use crate::label_file::LabelFile;
use sbpl_telling::{Ending, Status, status_after, write_last};
use sbpl_worlds::{
    Desk, Heuristic, LabelFault, NoMemory, Updates, Workspace, next_token, place_in, write_batch,
    writes_lead_to_the_next_map,
};
use std::alloc::Global;

/// Ends the checking after the last section, where no token may stand.
fn end_sections<D: Desk>(alloc: Global, labels: &LabelFile, at: usize, desk: &mut D) -> Ending
    requires at { at ≤ length labels.now.text.now }
    ensures ends { EndsText (start_at labels.now.text.now at) labels.now (D.state desk.old) (D.state desk.new) result }
    ensures frame { WritesOnly IsOutput (D.state desk.old) (D.state desk.new) }
{
    match next_token(labels.text, at) {
        Some(token) => tell_fault(alloc, labels, &LabelFault::Trailing(token.from), desk),
        None => Ending::plain(alloc, status_after(write_last(desk), Status::Done)),
    }
}

/// Checks the section of a plan on the present map, as `check_next` does.
fn check_plan<D: Desk, W: Workspace>(
    alloc: Global,
    world: &W,
    guide: &W::Best,
    start: u32,
    goal: u32,
    plan: u32,
    labels: &LabelFile,
    at: usize,
    desk: &mut D,
) -> Result<usize, Ending>
    requires start { start < (W.reporting.told world.now).states }
    requires goal { goal < (W.reporting.told world.now).states }
    requires made { W.Best.is_made_for guide.now world.now (to_on W.Workspace start goal) }
    requires at { at ≤ length labels.now.text.now }
    ensures inside { IfOk result (λ next. next ≤ length labels.now.text.now) }
    ensures holds { (c : Case W.Workspace) → IsPlanIn c plan world.now start goal
        → IfOk result (λ next. HoldsInCase c plan (start_at labels.now.text.now at) (start_at labels.now.text.now next)
        (D.state desk.old) (D.state desk.new)) }
    ensures ends { (c : Case W.Workspace) (more : ℕ) → IsPlanIn c plan world.now start goal
        → IfErr result (EndsSections c plan (suc more) (start_at labels.now.text.now at) labels.now
        (D.state desk.old) (D.state desk.new)) }
    ensures frame { WritesOnly IsOutput (D.state desk.old) (D.state desk.new) }
{
    let (from, to) = W::way(start, goal);
    check_next(alloc, world, guide, from, to, plan, labels, at, desk)
}

/// Aims a guide at another state. Where it is the same one, nothing is done.
fn aim<W: Workspace>(
    alloc: Global,
    world: &W,
    guide: &mut W::Best,
    was: u32,
    to: u32,
) -> Result<(), NoMemory>
    requires made { W.Best.is_made_for guide.old world.now was }
    requires to { to < (W.network world.now).states }
    ensures made { OnOk result (W.Best.is_made_for guide.new world.now to) }
{
    if to == was {
        return Ok(());
    }
    guide.aim(alloc, world, to)
}

/// Checks the sections of a file of labels, one for each map, while batches of changes are written to the map and the robot
/// moves, and writes what came of it. The guide is to the state to which the search of the first plan goes.
fn check_sections<D: Desk, W: Workspace>(
    alloc: Global,
    world: &mut W,
    guide: &mut W::Best,
    updates: &Updates,
    start: u32,
    goal: u32,
    labels: &LabelFile,
    desk: &mut D,
) -> Ending
    requires start { start < (W.reporting.told world.old).states }
    requires goal { goal < (W.reporting.told world.old).states }
    requires kept { W.cells.is_made world.old }
    requires updates { (moving : Bool) × AreUpdatesIn W.Workspace moving world.old updates.now }
    requires made { W.Best.is_made_for guide.old world.old (to_on W.Workspace start goal) }
    ensures ends { EndsSections (case_of W.Workspace world.old updates.now start goal) 0 (suc (length updates.now.batches))
        (start_at labels.now.text.now 0) labels.now (D.state desk.old) (D.state desk.new) result }
    ensures frame { WritesOnly IsOutput (D.state desk.old) (D.state desk.new) }
{
    W::is_terrain();
    writes_lead_to_the_next_map();
    let mut start = start;
    let mut at = 0;
    for k in 0..updates.batches.batches() {
        match check_plan(alloc, world, guide, start, goal, k, labels, at, desk) {
            Ok(next) => at = next,
            Err(ending) => return ending,
        }
        write_batch(world, updates.batches.batch(k));
        guide.rebuild(world);
        let (_from, was) = W::way(start, goal);
        start = world.start_at(place_in(updates, k), start);
        let (_from, to) = W::way(start, goal);
        if let Err(NoMemory) = aim(alloc, world, guide, was, to) {
            return Ending::plain(alloc, Status::NoMemory);
        }
    }
    let last = updates.batches.batches();
    match check_plan(alloc, world, guide, start, goal, last, labels, at, desk) {
        Ok(next) => end_sections(alloc, labels, next, desk),
        Err(ending) => ending,
    }
}

/// Checks the sections of a file of labels, which were searched as `W` is, on the maps while batches of changes are
/// written, and writes what came of it.
pub fn check_text<D: Desk, W: Workspace>(
    alloc: Global,
    world: &mut W,
    updates: &Updates,
    start: u32,
    goal: u32,
    labels: &LabelFile,
    desk: &mut D,
) -> Ending
    requires start { start < (W.reporting.told world.old).states }
    requires goal { goal < (W.reporting.told world.old).states }
    requires kept { W.cells.is_made world.old }
    requires updates { (moving : Bool) × AreUpdatesIn W.Workspace moving world.old updates.now }
    ensures ends { EndsSections (case_of W.Workspace world.old updates.now start goal) 0 (suc (length updates.now.batches))
        (start_at labels.now.text.now 0) labels.now (D.state desk.old) (D.state desk.new) result }
    ensures frame { WritesOnly IsOutput (D.state desk.old) (D.state desk.new) }
{
    let (_from, to) = W::way(start, goal);
    match W::Best::build(alloc, world, to) {
        Ok(mut guide) => check_sections(
            alloc, world, &mut guide, updates, start, goal, labels, desk,
        ),
        Err(NoMemory) => Ending::plain(alloc, Status::NoMemory),
    }
}
