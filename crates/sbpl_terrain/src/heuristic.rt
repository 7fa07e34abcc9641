//! Guides that follow a map.

ghost use Rattle.std.specs.Prelude.{◌≡◌, ℕ, Bool, false, ◌<◌, IfOk, IsOk, OnErr, OnOk};
ghost use Rattle.sbpl_map.specs.CellMap.{CellMap};

use crate::Terrain;
use sbpl_graph::Guide;
use sbpl_map::NoMemory;
use std::alloc::Global;

/// A guide to a goal that is made for a graph over a map, made anew where the map has changed, and aimed at another goal.
pub trait Heuristic<W: Terrain>: Guide + Drop {
    /// It is made for a world and a goal.
    ghost is_made_for: { Self → W → (goal : ℕ) → Type 0 };

    /// Whether memory is taken to make one.
    ghost takes_memory: { Bool };

    /// The guide to a goal on the present map.
    fn build(alloc: Global, world: &W, goal: u32) -> Result<Self, NoMemory>
        requires goal { goal < (W.network world.now).states }
        ensures made { IfOk result (λ guide. is_made_for guide world.now goal) }
        ensures free { takes_memory ≡ false → IsOk result };

    /// Makes the guide anew for the present map, where it was made for another map of the same graph. It takes no memory.
    fn rebuild(&mut self, world: &W)
        requires made { (m : CellMap) × (goal : ℕ) × is_made_for self.old (W.cells.over world.now m) goal }
        ensures made { (m : CellMap) (goal : ℕ) → is_made_for self.old (W.cells.over world.now m) goal
            → is_made_for self.new world.now goal };

    /// Makes the guide one to another goal, on the present map. After `NoMemory` it is the guide that it was.
    fn aim(&mut self, alloc: Global, world: &W, goal: u32) -> Result<(), NoMemory>
        requires goal { goal < (W.network world.now).states }
        ensures made { OnOk result (is_made_for self.new world.now goal) }
        ensures unchanged { OnErr result (self.new ≡ self.old) }
        ensures free { takes_memory ≡ false → IsOk result }
    {
        *self = Self::build(alloc, world, goal)?;
        Ok(())
    }

    /// It guides to the goal.
    ghost guides_there: { (guide : Self) (w : W) (goal : ℕ) → is_made_for guide w goal
        → Self.guides guide (W.network w) goal };
}
