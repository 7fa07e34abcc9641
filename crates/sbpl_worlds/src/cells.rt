//! The grid, whose states are cells, as what a job plans on.

use crate::blocked::blockage_of;
use crate::workspace::Workspace;
use sbpl_promises::{
    Blockage, FoundPath, Graph, Nav, NoMemory, Octile, PathStep, Place, PlanResult, ReportPose,
    worlds_are_grids,
};
use std::alloc::Global;

impl Workspace for Nav {
    ghost use Rattle.std.proofs.Common.{refl};
    ghost use Rattle.sbpl_promises.specs.GridSite.{grid_site};

    type Best = Octile;

    ghost says = { grid_site.says };

    ghost reporting = { grid_site.reporting };

    fn ends(&self) -> (u32, u32) {
        let env = self.env();
        (env.start, env.end)
    }

    fn way(start: u32, goal: u32) -> (u32, u32) {
        (start, goal)
    }

    fn report_pose(&self, state: u32) -> ReportPose {
        let width = self.env().width;
        ReportPose::Cell(state % width, state / width)
    }

    fn step(&self, from: u32, arc: u32) -> (u32, PathStep) {
        let head = self.head(from, arc).unwrap();
        let report_pose = self.report_pose(head);
        (
            head,
            PathStep {
                id: arc,
                report_pose,
            },
        )
    }

    fn start_at(&self, place: Option<Place>, start: u32) -> u32 {
        match place {
            // A place has a heading, and here there is none.
            Some(_) => unreachable!(),
            None => start,
        }
    }

    fn blockage(&self, start: u32, goal: u32) -> Option<Blockage> {
        blockage_of(self, start, goal)
    }

    fn turn(
        &self,
        _alloc: Global,
        _start: u32,
        _goal: u32,
        found: PlanResult<FoundPath>,
    ) -> Result<PlanResult<FoundPath>, NoMemory> {
        Ok(found)
    }

    fn has_its_arcs() {
        worlds_are_grids();
    }

    ghost says_so = { λ o w goal made s inside. made.guides.gaps s };

    ghost same_states = { λ w. refl };

    ghost places_stay = { λ w m. record { headings = refl; state = refl } };
}
