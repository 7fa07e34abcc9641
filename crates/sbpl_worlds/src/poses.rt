//! The lattice, whose states are poses, as what a job plans on.

use crate::blocked::blockage_of;
use crate::workspace::Workspace;
use sbpl_promises::{
    Best, Blockage, FoundPath, Graph, Lattice, NoMemory, PathStep, Place, PlanResult, ReportPose,
    Terrain, lattice_has_its_arcs, lattice_tails_are_in_order, place_at,
};
use std::alloc::Global;

impl Workspace for Lattice {
    ghost use Rattle.std.proofs.Common.{refl};
    ghost use Rattle.sbpl_promises.specs.LatticeSite.{lattice_site};

    type Best = Best;

    ghost says = { lattice_site.says };

    ghost reporting = { lattice_site.reporting };

    fn ends(&self) -> (u32, u32) {
        let env = self.env();
        let start = place_at(env, &env.start).unwrap();
        let goal = place_at(env, &env.end).unwrap();
        let start = self.state_of(&start).unwrap();
        let goal = self.state_of(&goal).unwrap();
        (start, goal)
    }

    fn way(start: u32, goal: u32) -> (u32, u32) {
        (start, goal)
    }

    fn report_pose(&self, state: u32) -> ReportPose {
        ReportPose::Pose(self.place_of(state))
    }

    fn step(&self, from: u32, arc: u32) -> (u32, PathStep) {
        let id = self.prim_id(self.prim_of(from, arc));
        let head = self.head(from, arc).unwrap();
        let report_pose = ReportPose::Pose(self.place_of(head));
        (head, PathStep { id, report_pose })
    }

    fn start_at(&self, place: Option<Place>, start: u32) -> u32 {
        let _map = self.map();
        match place {
            Some(place) => self.state_of(&place).unwrap(),
            None => start,
        }
    }

    fn blockage(&self, start: u32, goal: u32) -> Option<Blockage> {
        blockage_of(self, start, goal)
    }

    fn turn(
        &self,
        _alloc: Global,
        _start: u32,
        _goal: u32,
        found: PlanResult<FoundPath>,
    ) -> Result<PlanResult<FoundPath>, NoMemory> {
        Ok(found)
    }

    fn has_its_arcs() {
        lattice_has_its_arcs();
        lattice_tails_are_in_order();
    }

    ghost says_so = { λ b w goal made. made.best };

    ghost same_states = { λ w. refl };

    ghost places_stay = { λ w m. record { headings = refl; state = refl } };
}
