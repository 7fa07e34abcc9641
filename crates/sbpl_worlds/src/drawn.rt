//! The lattice and the batches of changes that are drawn from a seed: three texts, read as files are. They have no fault.

ghost use Rattle.std.specs.Prelude.{◌≡◌, ◌≤◌, length, IfOk};
ghost use Rattle.sbpl_promises.specs.sbpl_cfg.Text.{IsTextOf as IsEnvironmentText};
ghost use Rattle.sbpl_promises.specs.sbpl_mprim.Text.{IsTextOf as IsPrimitiveText};
ghost use Rattle.sbpl_promises.specs.sbpl_map.CellMap.{CellMap};
ghost use Rattle.sbpl_promises.specs.sbpl_map.ChangeText.{AreOnMap};
ghost use Rattle.sbpl_promises.specs.sbpl_map.ChangeText.{IsTextOf as IsChangeText};
ghost use Rattle.sbpl_promises.specs.sbpl_sweep.Widths.{NoneTooWide};
ghost use Rattle.sbpl_promises.specs.sbpl_sweep.Swept.{AreSweepsOf};
ghost use Rattle.sbpl_promises.specs.sbpl_cost.World.{IsWorld};
ghost use Rattle.sbpl_promises.specs.sbpl_demo.Environment.{costs, environment};
ghost use Rattle.sbpl_promises.specs.sbpl_demo.Changes.{changes_drawn};
ghost use Rattle.sbpl_promises.specs.sbpl_demo.Primitives.{primitives};
ghost use Rattle.sbpl_promises.specs.sbpl_job.Jobs.{IsDemoJob};
ghost use Rattle.sbpl_promises.specs.Causes.{IsDrawn, NoneTooDear};

use sbpl_promises::{
    ChangeFault, Changes, Demo, DemoJob, Env, EnvFault, Grid, Lattice, LatticeFault, Map, NoMemory,
    PrimFault, Prims, SweepFault, Sweeps, USUAL_STATES, generate, read_changes, read_env,
    read_prims,
};
use std::alloc::Global;

/// The environment and the costs that are drawn.
fn env_of(alloc: Global, text: &[u8], job: &DemoJob) -> Result<(Env, Grid), NoMemory>
    requires said { IsEnvironmentText 8388608 text.now (environment job.now.width job.now.height)
        (costs job.now.width job.now.height job.now.seed) }
    ensures env { IfOk result (λ x. x.0 ≡ environment job.now.width job.now.height) }
    ensures grid { IfOk result (λ x. x.1 ≡ costs job.now.width job.now.height job.now.seed) }
{
    match read_env(alloc, text, USUAL_STATES) {
        Ok(drawn) => Ok(drawn),
        Err(EnvFault::NoMemory) => Err(NoMemory),
        // What is drawn has no fault.
        Err(_) => unreachable!(),
    }
}

/// The primitives, which are the same for each seed.
fn prims_of(alloc: Global, text: &[u8]) -> Result<Prims, NoMemory>
    requires said { IsPrimitiveText text.now primitives }
    ensures prims { IfOk result (λ x. x ≡ primitives) }
{
    match read_prims(alloc, text, 25_000_000, 16) {
        Ok(prims) => Ok(prims),
        Err(PrimFault::NoMemory) => Err(NoMemory),
        // What is drawn has no fault.
        Err(_) => unreachable!(),
    }
}

/// The batches of changes that are drawn.
fn changes_of(alloc: Global, text: &[u8], map: &Map, job: &DemoJob) -> Result<Changes, NoMemory>
    requires short { length text.now ≤ 429 }
    requires said { IsChangeText 8388608 map.now text.now (changes_drawn job.now.width job.now.height job.now.seed) }
    ensures changes { IfOk result (λ x. x ≡ changes_drawn job.now.width job.now.height job.now.seed) }
    ensures on_map { IfOk result (AreOnMap map.now) }
{
    match read_changes(alloc, text, map, USUAL_STATES) {
        Ok(changes) => Ok(changes),
        Err(ChangeFault::NoMemory) => Err(NoMemory),
        // What is drawn has no fault.
        Err(_) => unreachable!(),
    }
}

/// The sweeps of the primitives, for a point.
fn sweeps_of(alloc: Global, prims: &Prims) -> Result<Sweeps, NoMemory>
    requires prims { prims.now ≡ primitives }
    requires narrow { NoneTooWide primitives 0 }
    ensures sweeps { IfOk result (AreSweepsOf primitives 0) }
{
    match Sweeps::new(alloc, prims, 0, 25_000_000) {
        Ok(sweeps) => Ok(sweeps),
        Err(SweepFault::NoMemory) => Err(NoMemory),
        // What is drawn has no fault.
        Err(_) => unreachable!(),
    }
}

/// The lattice of these parts.
fn lattice_of(
    alloc: Global,
    env: &Env,
    prims: Prims,
    sweeps: Sweeps,
    map: Map,
    job: &DemoJob,
) -> Result<Lattice, NoMemory>
    requires env { env.now ≡ environment job.now.width job.now.height }
    requires prims { prims ≡ primitives }
    requires sweeps { AreSweepsOf primitives 0 sweeps }
    requires wide { map.width ≡ job.now.width }
    requires high { map.height ≡ job.now.height }
    requires cheap { NoneTooDear (environment job.now.width job.now.height) primitives }
    ensures lattice { IfOk result (λ l. l ≡ record {
      env = environment job.now.width job.now.height;
      prims = primitives;
      sweeps = sweeps;
      map = map;
    }) }
    ensures kept { IfOk result IsWorld }
{
    match Lattice::new(alloc, env, prims, sweeps, map) {
        Ok(lattice) => Ok(lattice),
        Err(LatticeFault::NoMemory) => Err(NoMemory),
        // What is drawn has no fault.
        Err(_) => unreachable!(),
    }
}

/// The lattice that the texts of a drawn example stand for.
fn lattice_from(alloc: Global, demo: &Demo, job: &DemoJob) -> Result<Lattice, NoMemory>
    requires env { IsEnvironmentText 8388608 demo.now.env (environment job.now.width job.now.height)
        (costs job.now.width job.now.height job.now.seed) }
    requires prims { IsPrimitiveText demo.now.prims primitives }
    requires narrow { NoneTooWide primitives 0 }
    requires cheap { NoneTooDear (environment job.now.width job.now.height) primitives }
    ensures drawn { IfOk result (IsDrawn job.now) }
    ensures kept { IfOk result IsWorld }
{
    let (env, grid) = env_of(alloc, demo.env.as_slice(), job)?;
    let prims = prims_of(alloc, demo.prims.as_slice())?;
    let sweeps = sweeps_of(alloc, &prims)?;
    let map = Map::new(&env, grid);
    lattice_of(alloc, &env, prims, sweeps, map, job)
}

/// The lattice and the batches of changes that the texts of a drawn example stand for.
fn parts_of(alloc: Global, demo: &Demo, job: &DemoJob) -> Result<(Lattice, Changes), NoMemory>
    requires env { IsEnvironmentText 8388608 demo.now.env (environment job.now.width job.now.height)
        (costs job.now.width job.now.height job.now.seed) }
    requires prims { IsPrimitiveText demo.now.prims primitives }
    requires changes { (m : CellMap) → m.width ≡ job.now.width → m.height ≡ job.now.height
        → IsChangeText 8388608 m demo.now.changes (changes_drawn job.now.width job.now.height job.now.seed) }
    requires short { length demo.now.changes ≤ 429 }
    requires narrow { NoneTooWide primitives 0 }
    requires cheap { NoneTooDear (environment job.now.width job.now.height) primitives }
    ensures drawn { IfOk result (λ x. IsDrawn job.now x.0) }
    ensures changes { IfOk result (λ x. x.1 ≡ changes_drawn job.now.width job.now.height job.now.seed) }
    ensures kept { IfOk result (λ x. IsWorld x.0) }
    ensures on_map { IfOk result (λ x. AreOnMap x.0.map x.1) }
{
    let lattice = lattice_from(alloc, demo, job)?;
    match changes_of(alloc, demo.changes.as_slice(), lattice.map(), job) {
        Ok(changes) => Ok((lattice, changes)),
        Err(NoMemory) => {
            // Let go by a call: the drop of each field here would make the proof long.
            drop(lattice);
            Err(NoMemory)
        }
    }
}

/// The lattice and the batches of changes that are drawn from a seed.
pub fn draw(alloc: Global, job: &DemoJob) -> Result<(Lattice, Changes), NoMemory>
    requires range { IsDemoJob job.now }
    ensures drawn { IfOk result (λ x. IsDrawn job.now x.0) }
    ensures changes { IfOk result (λ x. x.1 ≡ changes_drawn job.now.width job.now.height job.now.seed) }
    ensures kept { IfOk result (λ x. IsWorld x.0) }
    ensures on_map { IfOk result (λ x. AreOnMap x.0.map x.1) }
{
    let demo = generate(alloc, job.seed, job.width, job.height)?;
    parts_of(alloc, &demo, job)
}
