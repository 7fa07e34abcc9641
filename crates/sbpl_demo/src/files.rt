//! The three files of a demonstration.

ghost use Rattle.std.specs.Prelude.{◌≡◌, ◌≤◌, ℕ, length, slice_get, Some, IfOk};
ghost use Rattle.sbpl_cost.specs.sbpl_cfg.Printed.{environment_text};
ghost use Rattle.sbpl_cost.specs.sbpl_cfg.Text.{IsTextOf as IsEnvironmentText};
ghost use Rattle.sbpl_cost.specs.sbpl_mprim.declared.prim.Primitive.{Primitive};
ghost use Rattle.sbpl_cost.specs.sbpl_mprim.Text.{IsTextOf as IsPrimitiveText};
ghost use Rattle.sbpl_cost.specs.sbpl_map.CellMap.{CellMap};
ghost use Rattle.sbpl_cost.specs.sbpl_map.ChangeText.{IsTextOf as IsChangeText};
ghost use Rattle.sbpl_cost.specs.sbpl_map.Printed.{changes_text};
ghost use Rattle.sbpl_cost.specs.sbpl_sweep.Widths.{NoneTooWide};
ghost use Rattle.sbpl_cost.specs.PrimitiveCost.{most_cost, primitive_cost};
ghost use Rattle.sbpl_demo.specs.Environment.{costs, environment};
ghost use Rattle.sbpl_demo.specs.Changes.{changes_drawn};
ghost use Rattle.sbpl_demo.specs.Primitives.{primitives, primitives_text};

use crate::changes::draw_changes;
use crate::draws::Draws;
use crate::environment::draw_environment;
use crate::primitives::primitives;
use sbpl_cost::{
    ListOf, cost_parts_are_least, few_poses_are_narrow, texts_are_changes_or_faulty,
    texts_are_environments_or_faulty, texts_are_primitives_or_faulty,
};
use sbpl_fixed::NoMemory;
use std::alloc::Global;

/// The bytes of a file.
pub type Bytes = ListOf<u8>;

/// The three files of a demonstration.
#[derive(Debug, Drop)]
pub struct Demo {
    /// The environment file.
    pub env: Bytes,
    /// The primitive file.
    pub prims: Bytes,
    /// The change file.
    pub changes: Bytes,
}

/// The three files.
fn draw_files(alloc: Global, seed: u64, width: u32, height: u32) -> Result<Demo, NoMemory>
    requires width { (8 ≤ width) × (width ≤ 512) }
    requires height { (8 ≤ height) × (height ≤ 512) }
    ensures env { IfOk result (λ demo. demo.env ≡ environment_text (environment width height) (costs width height seed)) }
    ensures prims { IfOk result (λ demo. demo.prims ≡ primitives_text) }
    ensures changes { IfOk result (λ demo. demo.changes ≡ changes_text (changes_drawn width height seed)) }
{
    let mut draws = Draws::of(seed);
    let env = Bytes::of(draw_environment(alloc, &mut draws, width, height)?);
    let prims = Bytes::of(primitives(alloc)?);
    let changes = Bytes::of(draw_changes(alloc, &mut draws, width, height)?);
    Ok(Demo {
        env,
        prims,
        changes,
    })
}

/// Draws an environment of `width` by `height` cells, 8..512 each, and three batches of changes of it from a seed. The
/// primitives are the same for each seed and size. Each of the three texts is read without a fault, where there may be 2^23
/// states; that of the changes is read on the map of the environment. The text of the changes has at most 429 bytes. For a robot
/// of radius 0 no primitive is too wide, and none is too dear in this environment.
#[tactic(auto, using(crate::proofs::Batches::are_three, crate::proofs::Batches::are_short, crate::proofs::Eighty::eighty))]
pub fn generate(alloc: Global, seed: u64, width: u32, height: u32) -> Result<Demo, NoMemory>
    requires width { (8 ≤ width) × (width ≤ 512) }
    requires height { (8 ≤ height) × (height ≤ 512) }
    ensures env { IfOk result (λ demo. demo.env ≡ environment_text (environment width height) (costs width height seed)) }
    ensures prims { IfOk result (λ demo. demo.prims ≡ primitives_text) }
    ensures changes { IfOk result (λ demo. demo.changes ≡ changes_text (changes_drawn width height seed)) }
    // The environment file is read as this environment and these costs.
    ensures env_said { IfOk result (λ demo. IsEnvironmentText 8388608 demo.env (environment width height)
        (costs width height seed)) }
    // The primitive file is read as these primitives.
    ensures prims_said { IfOk result (λ demo. IsPrimitiveText demo.prims primitives) }
    // The change file is read as these batches, on each map of this size.
    ensures changes_said { IfOk result (λ demo. (m : CellMap)
        → m.width ≡ width → m.height ≡ height → IsChangeText 8388608 m demo.changes (changes_drawn width height seed)) }
    ensures eighty { length primitives.items ≡ 80 }
    ensures three { length (changes_drawn width height seed) ≡ 3 }
    ensures short { IfOk result (λ demo. length demo.changes ≤ 429) }
    // No primitive sweeps too many cells for a robot of radius 0, and none is too dear.
    ensures narrow { NoneTooWide primitives 0 }
    ensures cheap { (i : ℕ) (p : Primitive)
        → slice_get primitives.items i ≡ Some p → primitive_cost (environment width height) p ≤ most_cost }
{
    texts_are_environments_or_faulty();
    texts_are_primitives_or_faulty();
    texts_are_changes_or_faulty();
    few_poses_are_narrow();
    cost_parts_are_least();
    draw_files(alloc, seed, width, height)
}
