//! The lattice searched from the goal back to the robot, as what a job plans on.

ghost use Rattle.std.specs.Prelude.{◌≡◌, IfOk};
ghost use Rattle.sbpl_promises.specs.sbpl_back.Reversed.{AreTurned, reversed};
ghost use Rattle.sbpl_promises.specs.sbpl_cost.Lattices.{network_of};
ghost use Rattle.sbpl_promises.specs.sbpl_graph.Path.{IsFreePath};

use crate::workspace::Workspace;
use sbpl_promises::{
    Arcs, Blockage, FoundPath, FromStart, Graph, Lattice, NoMemory, PathStep, Place, PlanResult,
    ReportPose, Reversed, Terrain, paths_turn_round, turned_round,
};
use std::alloc::Global;

/// A path that was found from the goal, turned round.
fn turn_path(
    alloc: Global,
    lattice: &Lattice,
    start: u32,
    goal: u32,
    found: FoundPath,
) -> Result<FoundPath, NoMemory>
    requires free { IsFreePath (reversed (network_of lattice.now)) goal found.arcs start found.cost }
    ensures turned { IfOk result (λ p. AreTurned (network_of lattice.now) goal found.arcs start p.arcs) }
    ensures free { IfOk result (λ p. IsFreePath (network_of lattice.now) start p.arcs goal p.cost) }
    ensures cost { IfOk result (λ p. p.cost ≡ found.cost) }
    ensures bound { IfOk result (λ p. p.bound ≡ found.bound) }
{
    let FoundPath { arcs, cost, bound } = found;
    let turned = turned_round(alloc, lattice, goal, arcs.as_slice())?;
    Ok(FoundPath {
        arcs: Arcs::of(turned),
        cost,
        bound,
    })
}

impl Workspace for Reversed {
    ghost use Rattle.std.specs.Prelude.{true};
    ghost use Rattle.std.proofs.Common.{refl};
    ghost use Rattle.sbpl_promises.specs.LatticeSite.{lattice_site};
    ghost use Rattle.sbpl_promises.specs.Sites.{searched_on};

    type Best = FromStart;

    ghost says = { (searched_on lattice_site true).says };

    ghost reporting = { (searched_on lattice_site true).reporting };

    fn ends(&self) -> (u32, u32) {
        self.lattice().ends()
    }

    fn way(start: u32, goal: u32) -> (u32, u32) {
        (goal, start)
    }

    fn report_pose(&self, state: u32) -> ReportPose {
        self.lattice().report_pose(state)
    }

    fn step(&self, from: u32, arc: u32) -> (u32, PathStep) {
        self.lattice().step(from, arc)
    }

    fn start_at(&self, place: Option<Place>, start: u32) -> u32 {
        self.lattice().start_at(place, start)
    }

    fn blockage(&self, start: u32, goal: u32) -> Option<Blockage> {
        self.lattice().blockage(start, goal)
    }

    fn turn(
        &self,
        alloc: Global,
        start: u32,
        goal: u32,
        found: PlanResult<FoundPath>,
    ) -> Result<PlanResult<FoundPath>, NoMemory> {
        paths_turn_round();
        let lattice = self.lattice();
        let _states = lattice.states();
        match found {
            PlanResult::Path(path) => {
                let turned = turn_path(alloc, lattice, start, goal, path)?;
                Ok(PlanResult::Path(turned))
            }
            PlanResult::NoPath => Ok(PlanResult::NoPath),
            PlanResult::Unknown => Ok(PlanResult::Unknown),
        }
    }

    fn has_its_arcs() {
        Lattice::has_its_arcs();
    }

    ghost says_so = { λ f w goal made. made.gaps };

    ghost same_states = { λ w. refl };

    ghost places_stay = { λ w m. record { headings = refl; state = refl } };
}
