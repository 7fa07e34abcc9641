//! An environment file of a grid is read.

ghost use Rattle.std.specs.Prelude.{ℕ, List, Ok, Err, ◌≡◌, ◌≢◌, ◌*◌, ◌<◌, ◌≤◌, true, IfOk, IfErr};
ghost use Rattle.sbpl_fixed.specs.Formats.{Answers, Gives, reads};
ghost use Rattle.sbpl_terrain.specs.sbpl_cfg.Faults.{told};
ghost use Rattle.sbpl_terrain.specs.sbpl_cfg.declared.fault.EnvFault.{EnvFault};
ghost use Rattle.sbpl_terrain.specs.sbpl_cfg.declared.fault.EnvFault.TheVariants.{NoMemory};
ghost use Rattle.sbpl_nav2d.specs.Environment.{NavEnvironment};
ghost use Rattle.sbpl_nav2d.specs.Format.{cost_format, end_format, end_grid_cell_format, environment_format, grid_format};
ghost use Rattle.sbpl_nav2d.specs.Format.{is_on_map, numbers_format, obsthresh_format, size_format, grid_cell_format};
ghost use Rattle.sbpl_nav2d.specs.Format.{start_format, start_grid_cell_format, state_of};
ghost use Rattle.sbpl_nav2d.specs.Text.{HasFault, IsTextOf};

use crate::env::NavEnv;
use crate::parts::{GridCell, Size};
use sbpl_fixed::{Placed, Reader};
use sbpl_terrain::{EnvFault, Grid};
use std::alloc::Global;

/// The map's size, which must leave room for the states. `states` is the limit.
#[tactic(auto, unfolding(sbpl_fixed::specs::Formats::reads, crate::specs::Format::size_format))]
fn size(reader: &mut Reader, states: u32) -> Result<Size, EnvFault>
    requires limit { states ≤ 268435456 }
    ensures read { Gives NoMemory (λ x. x) result reader.new (reads told (size_format states) reader.old) }
    ensures width { IfOk result (λ x. (1 ≤ x.width) × (x.width ≤ states)) }
    ensures height { IfOk result (λ x. (1 ≤ x.height) × (x.height ≤ states)) }
    ensures states { IfOk result (λ x. x.width * x.height ≤ states) }
{
    reader.word(b"discretization(cells):")?;
    let width = reader.natural(1, states)?;
    let height = reader.natural(1, states)?;
    if u64::from(width.value) * u64::from(height.value) > u64::from(states) {
        return Err(EnvFault::TooLarge(width.place));
    }
    Ok(Size {
        width: width.value,
        height: height.value,
    })
}

/// The cost from which a cell is an obstacle.
#[tactic(auto, unfolding(sbpl_fixed::specs::Formats::reads, crate::specs::Format::obsthresh_format))]
fn obsthresh(reader: &mut Reader) -> Result<u8, EnvFault>
    ensures read { Gives NoMemory (λ x. x) result reader.new (reads told obsthresh_format reader.old) }
{
    reader.word(b"obsthresh:")?;
    Ok(reader.natural(0, 255)?.value as u8)
}

/// A word, and a cell after it, with the place of its x.
#[tactic(auto, unfolding(sbpl_fixed::specs::Formats::reads, crate::specs::Format::grid_cell_format))]
fn grid_cell(reader: &mut Reader, word: &[u8], states: u32) -> Result<Placed<GridCell>, EnvFault>
    ensures read { Gives NoMemory (λ x. x) result reader.new (reads told (grid_cell_format states word.now) reader.old) }
{
    reader.word(word)?;
    let last = states.saturating_sub(1);
    let x = reader.natural(0, last)?;
    let y = reader.natural(0, last)?;
    Ok(Placed {
        value: GridCell {
            x: x.value,
            y: y.value,
        },
        place: x.place,
    })
}

/// Whether a cell is on the map.
fn is_on_map(size: &Size, p: &GridCell) -> bool
    ensures on_map { result ≡ is_on_map size.now p.now }
{
    p.x < size.width && p.y < size.height
}

/// The state of a cell on the map.
fn state_of(size: &Size, p: &GridCell) -> u32
    requires states { size.now.width * size.now.height ≤ 268435456 }
    requires on_map { is_on_map size.now p.now ≡ true }
    ensures state { result ≡ state_of size.now p.now }
    ensures inside { result < size.now.width * size.now.height }
{
    p.y * size.width + p.x
}

/// The start's word and cell.
#[tactic(auto, unfolding(crate::specs::Format::start_grid_cell_format))]
fn start_grid_cell(reader: &mut Reader, states: u32) -> Result<Placed<GridCell>, EnvFault>
    ensures read { Gives NoMemory (λ x. x) result reader.new (reads told (start_grid_cell_format states) reader.old) }
{
    grid_cell(reader, b"start(cells):", states)
}

/// The start, which must be on the map.
#[tactic(auto, using(sbpl_fixed::specs::Parts::reading), unfolding(sbpl_fixed::specs::Formats::reads, crate::specs::Format::start_format))]
fn start(reader: &mut Reader, size: &Size, states: u32) -> Result<u32, EnvFault>
    requires states { size.now.width * size.now.height ≤ 268435456 }
    ensures read { Gives NoMemory (λ x. x) result reader.new (reads told (start_format states size.now) reader.old) }
    ensures inside { IfOk result (λ s. s < size.now.width * size.now.height) }
{
    let grid_cell = start_grid_cell(reader, states)?;
    if !is_on_map(size, &grid_cell.value) {
        return Err(EnvFault::StartOff(grid_cell.place));
    }
    Ok(state_of(size, &grid_cell.value))
}

/// The end's word and cell.
#[tactic(auto, unfolding(crate::specs::Format::end_grid_cell_format))]
fn end_grid_cell(reader: &mut Reader, states: u32) -> Result<Placed<GridCell>, EnvFault>
    ensures read { Gives NoMemory (λ x. x) result reader.new (reads told (end_grid_cell_format states) reader.old) }
{
    grid_cell(reader, b"end(cells):", states)
}

/// The end, which must be on the map.
#[tactic(auto, using(sbpl_fixed::specs::Parts::reading), unfolding(sbpl_fixed::specs::Formats::reads, crate::specs::Format::end_format))]
fn end(reader: &mut Reader, size: &Size, states: u32) -> Result<u32, EnvFault>
    requires states { size.now.width * size.now.height ≤ 268435456 }
    ensures read { Gives NoMemory (λ x. x) result reader.new (reads told (end_format states size.now) reader.old) }
    ensures inside { IfOk result (λ s. s < size.now.width * size.now.height) }
{
    let grid_cell = end_grid_cell(reader, states)?;
    if !is_on_map(size, &grid_cell.value) {
        return Err(EnvFault::EndOff(grid_cell.place));
    }
    Ok(state_of(size, &grid_cell.value))
}

/// All numbers but the costs.
#[tactic(auto, using(sbpl_fixed::specs::Parts::reading), unfolding(sbpl_fixed::specs::Formats::reads, crate::specs::Format::numbers_format))]
fn numbers(reader: &mut Reader, states: u32) -> Result<NavEnv, EnvFault>
    requires limit { states ≤ 268435456 }
    ensures read { Gives NoMemory (λ x. x) result reader.new (reads told (numbers_format states) reader.old) }
{
    let size = size(reader, states)?;
    let obsthresh = obsthresh(reader)?;
    let start = start(reader, &size, states)?;
    let end = end(reader, &size, states)?;
    Ok(NavEnv {
        width: size.width,
        height: size.height,
        obsthresh,
        start,
        end,
    })
}

/// The costs of the cells, after their word.
#[tactic(auto, using(sbpl_fixed::specs::Parts::reading), unfolding(sbpl_fixed::specs::Formats::reads, crate::specs::Format::cost_format, crate::specs::Format::grid_format))]
fn costs(alloc: Global, reader: &mut Reader, count: u32) -> Result<Vec<u8>, EnvFault>
    ensures read { Gives NoMemory (λ x. x.items) result reader.new (reads told (grid_format count) reader.old) }
{
    reader.word(b"environment:")?;
    let mut costs = Vec::with_capacity(alloc, count as usize)?;
    for _ in 0..count {
        let cost = reader.natural(0, 255)?;
        costs.push(cost.value as u8)?;
    }
    Ok(costs)
}

/// The whole file.
#[tactic(auto, using(sbpl_fixed::specs::Parts::reading), unfolding(sbpl_fixed::specs::Formats::reads, crate::specs::Format::environment_format))]
fn environment(alloc: Global, reader: &mut Reader, states: u32) -> Result<(NavEnv, Grid), EnvFault>
    requires limit { states ≤ 268435456 }
    ensures read { Gives NoMemory (λ x. x) result reader.new (reads told (environment_format states) reader.old) }
{
    let env = numbers(reader, states)?;
    let costs = costs(alloc, reader, env.width * env.height)?;
    reader.end()?;
    Ok((env, Grid::of(costs)))
}

/// Reads an environment file of a grid: `discretization(cells):` with width and height, `obsthresh:`, `start(cells):` and
/// `end(cells):` with x and y, `environment:` and the costs row by row, separated by any blanks; a number may have a sign and
/// leading zeros. There may be at most `states` states. The other ranges are those of `NavEnv`. A fault is the first one in
/// reading order, with its offset: `TooLarge` comes directly after the height, `StartOff` and `EndOff` directly after their
/// y. Only the costs take memory.
#[tactic(auto, using(sbpl_fixed::proofs::Meaning::answering))]
pub fn read_nav(alloc: Global, text: &[u8], states: u32) -> Result<(NavEnv, Grid), EnvFault>
    requires limit { states ≤ 268435456 }
    // What is read is what the text stands for.
    ensures found { IfOk result (λ x. IsTextOf states text.now x.0 x.1) }
    // What a text stands for is read, unless memory runs out.
    ensures only { (x : NavEnvironment × List ℕ)
        → IsTextOf states text.now x.0 x.1 → Answers NoMemory (λ y. y) result (Ok x) }
    // A fault is the text's first one.
    ensures faulty { IfErr result (λ f. f ≢ NoMemory → HasFault states text.now f) }
    // The first fault of a text is answered, unless memory runs out.
    ensures only_faulty { (f : EnvFault)
        → HasFault states text.now f → Answers NoMemory (λ y. y) result (Err f) }
{
    environment(alloc, &mut Reader::new(text), states)
}
