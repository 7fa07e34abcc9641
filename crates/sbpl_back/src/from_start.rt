//! The guide for a search from the goal to where a robot is.

ghost use Rattle.std.specs.Prelude.{◌≡◌, ◌<◌};
ghost use Rattle.sbpl_cost.specs.Lattices.{network_of};
ghost use Rattle.sbpl_back.specs.Reversed.{reversed};
ghost use Rattle.sbpl_back.specs.Starts.{IsGuideFrom, from_start};

use crate::reversed::Reversed;
use sbpl_cost::{Graph, Guide, Heuristic, Lattice, NoMemory, StateGaps, gaps_rise_along_arcs};
use std::alloc::Global;
use std::marker::Model;

/// For the reversed graph of a lattice, the guide to the state where a robot is: at each state the lattice's gap from there
/// to it. It borrows nothing, and no call takes memory.
#[derive(Drop)]
pub struct FromStart {
    gaps: StateGaps,
    start: u32,
}

impl Model for FromStart {
    ghost use Rattle.std.specs.Prelude.{ℕ, ◌^◌, ◌<◌};
    ghost use Rattle.sbpl_cost.specs.Rates.{state_gap};
    ghost use Rattle.sbpl_cost.specs.States.{state_count};
    ghost use Rattle.sbpl_back.specs.Starts.{StartIn};

    ghost Value = { StartIn };

    ghost view = { λ f. record { gaps = f.gaps; start = f.start } };

    // The start is a state, and no gap from it is great.
    ghost invariant = { λ f. (f.start < state_count f.gaps.env)
        × ((s : ℕ) → s < state_count f.gaps.env → state_gap f.gaps f.start s < 2 ^ 55) };
}

impl FromStart {
    /// The guide to this state, one of the lattice's. It says the same on each map of the lattice.
    pub fn new(lattice: &Lattice, start: u32) -> FromStart
        requires start { start < (network_of lattice.now).states }
        ensures start { result.start ≡ start }
        ensures gap { from_start result ≡ (network_of lattice.now).gap start }
        ensures guides { IsGuideFrom result (reversed (network_of lattice.now)) start }
    {
        gaps_rise_along_arcs();
        let _states = lattice.states();
        let _env = lattice.env();
        FromStart {
            gaps: lattice.gaps(),
            start,
        }
    }
}

impl Guide for FromStart {
    ghost use Rattle.sbpl_cost.specs.States.{state_count};
    ghost use Rattle.sbpl_back.specs.Starts.{IsGuideFrom, from_start, guide_covers};

    ghost distance = { from_start };

    ghost knows = { λ f s. s < state_count f.gaps.env };

    ghost guides = { IsGuideFrom };

    ghost consistent = { λ f n goal h. h.consistent };

    ghost covered = { guide_covers };

    ghost bounded = { λ f n goal s h state. h.small s state };

    fn to_goal(&self, s: u32) -> u64 {
        self.gaps.between(self.start, s)
    }
}

impl Heuristic<Reversed> for FromStart {
    ghost use Rattle.std.specs.Prelude.{false};
    ghost use Rattle.sbpl_back.specs.Starts.{IsMadeFrom};

    ghost is_made_for = { IsMadeFrom };

    ghost takes_memory = { false };

    fn build(_alloc: Global, world: &Reversed, goal: u32) -> Result<FromStart, NoMemory> {
        Ok(FromStart::new(world.lattice(), goal))
    }

    fn rebuild(&mut self, world: &Reversed) {
        // A lattice has the same gaps on each map.
        *self = FromStart::new(world.lattice(), self.start);
    }

    ghost guides_there = { λ f w goal made. made.guides };
}
