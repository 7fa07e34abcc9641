//! What a lattice computes once, when it is made.

ghost use Rattle.std.specs.Prelude.{◌≡◌, ◌<◌, ◌≤◌, ◌^◌, map, IfOk, IfErr};
ghost use Rattle.sbpl_sweep.specs.Swept.{AreSweepsOf};
ghost use Rattle.sbpl_cost.specs.Checked.{HaveAlong, HaveAround};
ghost use Rattle.sbpl_cost.specs.PrimitiveCost.{primitive_cost};
ghost use Rattle.sbpl_cost.specs.Lattices.{leaving, entering};
ghost use Rattle.sbpl_cost.specs.Reaches.{HaveReaches};
ghost use Rattle.sbpl_cost.specs.Tables.{AreLeaving, AreEntering, AreNumbers, AreCheap, IsCause};
ghost use Rattle.sbpl_cost.specs.Walls.{AreWalls};
ghost use Rattle.sbpl_terrain.specs.declared.arc_end.ArcEnd.TheVariants as Ends;

use crate::arc_end::heading_at;
use crate::checked::{along_table, around_table, reach_table};
use crate::fault::LatticeFault;
use crate::primitive_cost::prim_cost;
use crate::reach::Reach;
use crate::strip::Strip;
use crate::walls::walls_of;
use sbpl_sweep::{Bits, Cell, Env, NoMemory, Prims, Runs, Sweeps};
use sbpl_terrain::ArcEnd;
use std::alloc::Global;

/// The indices in the file of the primitives that start at heading `t`.
fn places_leaving(alloc: Global, prims: &Prims, t: u32) -> Result<Vec<u32>, NoMemory>
    ensures places { IfOk result (λ v. v.items ≡ leaving prims.now.items t) }
{
    let mut places = Vec::new(alloc);
    for i in 0..prims.len() {
        if prims.get(i).from == t {
            places.push(i)?;
        }
    }
    Ok(places)
}

/// For each heading the indices in the file of the primitives that start at it.
pub(crate) fn leaving_table(alloc: Global, prims: &Prims) -> Result<Runs<u32>, NoMemory>
    ensures table { IfOk result (λ r. AreLeaving prims.now r) }
{
    let mut table = Runs::new(alloc)?;
    for t in 0..prims.headings() {
        let places = places_leaving(alloc, prims, t)?;
        table.push(places.as_slice())?;
    }
    Ok(table)
}

/// The indices in the file of the primitives that end at heading `t`.
fn places_entering(alloc: Global, prims: &Prims, t: u32) -> Result<Vec<u32>, NoMemory>
    ensures places { IfOk result (λ v. v.items ≡ entering prims.now.items t) }
{
    let mut places = Vec::new(alloc);
    for i in 0..prims.len() {
        if prims.get(i).to == t {
            places.push(i)?;
        }
    }
    Ok(places)
}

/// For each heading the indices in the file of the primitives that end at it.
pub(crate) fn entering_table(alloc: Global, prims: &Prims) -> Result<Runs<u32>, NoMemory>
    ensures table { IfOk result (λ r. AreEntering prims.now r) }
{
    let mut table = Runs::new(alloc)?;
    for t in 0..prims.headings() {
        let places = places_entering(alloc, prims, t)?;
        table.push(places.as_slice())?;
    }
    Ok(table)
}

/// For each primitive its number among those with its heading at this end.
pub(crate) fn number_table(alloc: Global, prims: &Prims, end: ArcEnd) -> Result<Vec<u32>, NoMemory>
    ensures numbers { IfOk result (λ v. AreNumbers end prims.now.items v.items) }
{
    let mut counts: Vec<u32> = vec![in alloc; 0; prims.headings() as usize]?;
    let mut numbers = Vec::new(alloc);
    for i in 0..prims.len() {
        let heading = heading_at(end, prims.get(i)) as usize;
        let number = counts[heading];
        numbers.push(number)?;
        counts[heading] = number + 1;
    }
    Ok(numbers)
}

/// The cost of each primitive by itself. `TooDear` names the first whose cost is above `MOST_COST`, and comes exactly
/// where there is one.
pub(crate) fn primitive_costs(
    alloc: Global,
    env: &Env,
    prims: &Prims,
) -> Result<Vec<u32>, LatticeFault>
    requires cell { prims.now.cell ≡ env.now.cell }
    requires headings { prims.now.headings ≡ env.now.headings }
    ensures costs { IfOk result (λ v. v.items ≡ map (primitive_cost env.now) prims.now.items) }
    ensures cheap { IfOk result (λ _. AreCheap env.now prims.now.items) }
    ensures cause { IfErr result (λ e. IsCause env.now prims.now.items e) }
{
    let mut costs = Vec::new(alloc);
    let primitives = prims.as_slice();
    for i in 0..prims.len() {
        let Some(cost) = prim_cost(&primitives[i as usize], env) else {
            return Err(LatticeFault::TooDear(i));
        };
        let Ok(()) = costs.push(cost) else {
            return Err(LatticeFault::NoMemory);
        };
    }
    Ok(costs)
}

/// The primitives by the headings at which they start and end.
#[derive(Drop)]
pub(crate) struct ByHeading {
    /// For each heading the indices in the file of the primitives that start at it.
    pub(crate) leaving: Runs<u32>,
    /// For each heading the indices in the file of the primitives that end at it.
    pub(crate) entering: Runs<u32>,
    /// For each primitive its number among those that start at its heading.
    pub(crate) numbers: Vec<u32>,
    /// For each primitive its number among those that end at its heading.
    pub(crate) tail_numbers: Vec<u32>,
}

/// These primitives by the headings at which they start and end.
fn by_heading(alloc: Global, prims: &Prims) -> Result<ByHeading, NoMemory>
    ensures leaving { IfOk result (λ t. AreLeaving prims.now t.leaving) }
    ensures entering { IfOk result (λ t. AreEntering prims.now t.entering) }
    ensures numbers { IfOk result (λ t. AreNumbers Ends.Source prims.now.items t.numbers.items) }
    ensures tail_numbers { IfOk result (λ t. AreNumbers Ends.Head prims.now.items t.tail_numbers.items) }
{
    let leaving = leaving_table(alloc, prims)?;
    let entering = entering_table(alloc, prims)?;
    let numbers = number_table(alloc, prims, ArcEnd::Source)?;
    let tail_numbers = number_table(alloc, prims, ArcEnd::Head)?;
    Ok(ByHeading {
        leaving,
        entering,
        numbers,
        tail_numbers,
    })
}

/// The cells that judgements read besides the source cell.
#[derive(Drop)]
pub(crate) struct Reads {
    /// For each primitive its centre cells.
    pub(crate) along: Runs<Cell>,
    /// For each primitive the cells that it sweeps.
    pub(crate) around: Runs<Strip>,
    /// For each primitive how far these lie.
    pub(crate) reaches: Vec<Reach>,
}

/// The cells that judgements of these primitives read besides the source cell.
fn reads_of(alloc: Global, prims: &Prims, sweeps: &Sweeps) -> Result<Reads, NoMemory>
    requires sweeps { AreSweepsOf prims.now sweeps.now.radius sweeps.now }
    requires radius { sweeps.now.radius ≤ 10 ^ 12 }
    ensures along { IfOk result (λ r. HaveAlong prims.now r.along) }
    ensures around { IfOk result (λ r. HaveAround prims.now sweeps.now.radius r.around) }
    ensures reaches { IfOk result (λ r. HaveReaches prims.now r.around r.reaches.items) }
{
    let along = along_table(alloc, prims, sweeps)?;
    let around = around_table(alloc, prims, sweeps)?;
    let reaches = reach_table(alloc, prims, sweeps.radius(), &around)?;
    Ok(Reads {
        along,
        around,
        reaches,
    })
}

/// What a lattice computes once, when it is made.
#[derive(Drop)]
pub(crate) struct Tables {
    /// For each primitive its cost by itself.
    pub(crate) costs: Vec<u32>,
    pub(crate) by_heading: ByHeading,
    pub(crate) reads: Reads,
    /// The cells that are obstacles for the robot.
    pub(crate) walls: Bits,
}

/// What a lattice computes once, when it is made. Its owner holds no large value meanwhile that a failure would drop.
pub(crate) fn tables_of(
    alloc: Global,
    env: &Env,
    prims: &Prims,
    sweeps: &Sweeps,
    cells: &[u8],
) -> Result<Tables, LatticeFault>
    requires cell { prims.now.cell ≡ env.now.cell }
    requires headings { prims.now.headings ≡ env.now.headings }
    requires sweeps { AreSweepsOf prims.now sweeps.now.radius sweeps.now }
    requires radius { sweeps.now.radius ≤ 10 ^ 12 }
    ensures costs { IfOk result (λ t. t.costs.items ≡ map (primitive_cost env.now) prims.now.items) }
    ensures cheap { IfOk result (λ _. AreCheap env.now prims.now.items) }
    ensures leaving { IfOk result (λ t. AreLeaving prims.now t.by_heading.leaving) }
    ensures entering { IfOk result (λ t. AreEntering prims.now t.by_heading.entering) }
    ensures numbers { IfOk result (λ t. AreNumbers Ends.Source prims.now.items t.by_heading.numbers.items) }
    ensures tail_numbers { IfOk result (λ t. AreNumbers Ends.Head prims.now.items t.by_heading.tail_numbers.items) }
    ensures along { IfOk result (λ t. HaveAlong prims.now t.reads.along) }
    ensures around { IfOk result (λ t. HaveAround prims.now sweeps.now.radius t.reads.around) }
    ensures reaches { IfOk result (λ t. HaveReaches prims.now t.reads.around t.reads.reaches.items) }
    ensures walls { IfOk result (λ t. AreWalls env.now.obsthresh cells.now t.walls) }
    ensures cause { IfErr result (λ e. IsCause env.now prims.now.items e) }
{
    let costs = primitive_costs(alloc, env, prims)?;
    let by_heading = by_heading(alloc, prims)?;
    let reads = reads_of(alloc, prims, sweeps)?;
    let walls = walls_of(alloc, cells, env.obsthresh)?;
    Ok(Tables {
        costs,
        by_heading,
        reads,
        walls,
    })
}
