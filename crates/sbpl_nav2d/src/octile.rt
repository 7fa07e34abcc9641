//! Octile distances, and the guide that they make.

ghost use Rattle.std.specs.Prelude.{◌≡◌, ◌*◌, ◌^◌, ◌<◌, ◌≤◌};
ghost use Rattle.sbpl_nav2d.specs.Gap.{gap_of};
ghost use Rattle.sbpl_nav2d.specs.Grids.{network_of};
ghost use Rattle.sbpl_nav2d.specs.Guides.{IsGuideTo};
ghost use Rattle.sbpl_nav2d.specs.World.{GridWorld, IsGridWorld};

use crate::env::NavEnv;
use crate::nav::Nav;
use sbpl_fixed::NoMemory;
use sbpl_terrain::{Guide, Heuristic};
use std::alloc::Global;
use std::marker::Model;

/// The octile distance of two states of a grid of this width, in thousandths of a cell's side.
pub(crate) fn gap_between(width: u32, a: u32, b: u32) -> u64
    requires width { 1 ≤ width }
    ensures value { result ≡ gap_of width a b }
    ensures small { result < 2 ^ 55 }
{
    let across = u64::from((a % width).abs_diff(b % width));
    let along = u64::from((a / width).abs_diff(b / width));
    1000 * across.max(along) + 414 * across.min(along)
}

/// The guide to a goal by octile distances: a few additions for each answer. No call takes memory.
#[derive(Drop)]
pub struct Octile {
    width: u32,
    goal: u32,
}

impl Model for Octile {
    ghost use Rattle.std.specs.Prelude.{◌≤◌};
    ghost use Rattle.sbpl_nav2d.specs.Guides.{OctileTo};

    ghost Value = { OctileTo };

    ghost view = { λ o. record { width = o.width; goal = o.goal } };

    ghost invariant = { λ o. 1 ≤ o.width };
}

impl Octile {
    /// The guide to the end of an environment, on each of its maps.
    pub fn new(env: &NavEnv) -> Octile
        ensures made { result ≡ record { width = env.now.width; goal = env.now.end } }
        ensures guides { (w : GridWorld)
            → IsGridWorld w → w.env ≡ env.now → IsGuideTo result (network_of w) env.now.end }
    {
        Octile::to(env, env.end)
    }

    /// The guide to a state of an environment, on each of its maps.
    pub fn to(env: &NavEnv, goal: u32) -> Octile
        requires state { goal < env.now.width * env.now.height }
        ensures made { result ≡ record { width = env.now.width; goal = goal } }
        ensures guides { (w : GridWorld)
            → IsGridWorld w → w.env ≡ env.now → IsGuideTo result (network_of w) goal }
    {
        Octile {
            width: env.width,
            goal,
        }
    }
}

impl Guide for Octile {
    ghost use Rattle.sbpl_nav2d.specs.Guides.{IsGuideTo, distance_to};

    ghost distance = { distance_to };

    ghost knows = { λ _ _. Unit {0} };

    ghost guides = { IsGuideTo };

    ghost consistent = { λ o n goal h. h.consistent };

    ghost covered = { λ _ _ _ _ _ _. tt };

    ghost bounded = { λ o n goal s h inside. h.bounded s inside };

    fn to_goal(&self, s: u32) -> u64 {
        gap_between(self.width, s, self.goal)
    }
}

impl Heuristic<Nav> for Octile {
    ghost use Rattle.std.specs.Prelude.{false};
    ghost use Rattle.sbpl_nav2d.specs.Guides.{IsOctileFor};

    ghost is_made_for = { IsOctileFor };

    ghost takes_memory = { false };

    fn build(_alloc: Global, nav: &Nav, goal: u32) -> Result<Octile, NoMemory> {
        Ok(Octile::to(nav.env(), goal))
    }

    fn rebuild(&mut self, nav: &Nav) {
        let _env = nav.env();
    }

    ghost guides_there = { λ o w goal made. made.guides };
}
