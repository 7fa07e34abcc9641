//! What a job plans on.

ghost use Rattle.std.specs.Prelude.{◌≡◌, ◌<◌, ℕ, IfOk, IsSome};
ghost use Rattle.sbpl_promises.specs.sbpl_map.CellMap.{CellMap};
ghost use Rattle.sbpl_promises.specs.sbpl_map.ChangeText.{IsPlaceOnMap};
ghost use Rattle.sbpl_worlds.specs.Moves.{state_or};
ghost use Rattle.sbpl_promises.specs.Blocked.{IsBlockage};
ghost use Rattle.sbpl_promises.specs.Headline.{IsTurned};
ghost use Rattle.sbpl_promises.specs.Sites.{Leads, WordPlacesAlike, Reporting, from_of, to_of};
ghost use Rattle.sbpl_promises.specs.sbpl_plan.Outcomes.{IsTrueOutcome};

use sbpl_promises::{
    Blockage, FoundPath, Heuristic, NoMemory, PathStep, Place, PlanResult, ReportPose, Terrain,
};
use std::alloc::Global;

/// What a job plans on: a graph over a map, which is made of the job's files. Plans are told of a graph whose states and
/// arcs a report can name, from its start to its goal; a search may go over that graph or over it the other way round.
///
/// Its ghost members, after those of `Graph` and `Terrain`, are the site that is planned on: they stand in the order of `Site`,
/// and contracts name the site of `W` by `W.Workspace`.
pub trait Workspace: Terrain {
    /// What guides a search.
    type Best: Heuristic<Self>;

    /// What the guide of a search says at each state, in a world and to the state to which the search goes.
    ghost says: { Self → (goal : ℕ) → (guide : ℕ → ℕ) → Type 0 };

    /// How plans on it are reported.
    ghost reporting: { Reporting Self };

    /// The states between which the environment asks for plans: its start and its end.
    fn ends(&self) -> (u32, u32)
        ensures start { reporting.starts self.now result.0 }
        ensures goal { reporting.ends self.now result.1 }
        ensures start_inside { result.0 < (reporting.told self.now).states }
        ensures goal_inside { result.1 < (reporting.told self.now).states };

    /// The state from which the search of a plan from `start` to `goal` goes, and the state to which it goes.
    fn way(start: u32, goal: u32) -> (u32, u32)
        ensures from { result.0 ≡ from_of reporting.back start goal }
        ensures to { result.1 ≡ to_of reporting.back start goal };

    /// Where a state is.
    fn report_pose(&self, state: u32) -> ReportPose
        requires state { state < (reporting.told self.now).states }
        ensures report_pose { result ≡ reporting.report_pose self.now state };

    /// The state that an arc leads to, and the step that it is.
    fn step(&self, from: u32, arc: u32) -> (u32, PathStep)
        requires state { from < (reporting.told self.now).states }
        requires number { arc < (reporting.told self.now).fan from }
        requires head { IsSome ((reporting.told self.now).head from arc) }
        ensures head { (reporting.told self.now).head from arc ≡ Some result.0 }
        ensures step { reporting.step self.now from arc result.0 result.1 };

    /// The state of a place that a change file gives, or `start` where it gives none.
    fn start_at(&self, place: Option<Place>, start: u32) -> u32
        requires place { IsPlaceOnMap (Self.cells.map self.now) (reporting.headings self.now) place }
        requires start { start < (reporting.told self.now).states }
        ensures state { result ≡ state_or reporting self.now place start }
        ensures inside { result < (reporting.told self.now).states };

    /// What is in the way of each path from `start` to `goal`, if it is simple.
    fn blockage(&self, start: u32, goal: u32) -> Option<Blockage>
        requires start { start < (reporting.told self.now).states }
        requires goal { goal < (reporting.told self.now).states }
        ensures blocks { IsBlockage (reporting.told self.now) start goal result };

    /// The result of a plan from `start` to `goal`, as it is told, of what a search found. It takes memory only where a
    /// path is turned round.
    fn turn(
        &self,
        alloc: Global,
        start: u32,
        goal: u32,
        found: PlanResult<FoundPath>,
    ) -> Result<PlanResult<FoundPath>, NoMemory>
        requires start { start < (reporting.told self.now).states }
        requires goal { goal < (reporting.told self.now).states }
        requires so { IsTrueOutcome (Self.network self.now) (from_of reporting.back start goal)
            (to_of reporting.back start goal) found }
        ensures so { IfOk result (IsTrueOutcome (reporting.told self.now) start goal) }
        ensures turned { IfOk result (IsTurned (Leads reporting.back (reporting.told self.now) start goal) found) };

    /// The graph has just the arcs that the files make. This does nothing when it runs.
    fn has_its_arcs()
        ensures law { (w : Self) → Self.cells.is_made w → reporting.arcs (reporting.told w) w };

    /// What a guide says that is made for a world and a goal.
    ghost says_so: { (guide : Self.Best) (w : Self) (goal : ℕ) → Self.Best.is_made_for guide w goal
        → says w goal (Self.Best.distance guide) };

    /// The graph that is searched has the states of the one whose paths are told.
    ghost same_states: { (w : Self) → (reporting.told w).states ≡ (Self.network w).states };

    /// Places are worded alike on each map.
    ghost places_stay: { (w : Self) (m : CellMap) → WordPlacesAlike reporting w (Self.cells.over w m) };
}
