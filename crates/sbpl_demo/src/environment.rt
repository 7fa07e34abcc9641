//! The environment that is drawn, and the costs of its cells.

ghost use Rattle.std.specs.Prelude.{◌≡◌, ◌*◌, ◌<◌, ◌≤◌, OnOk, IfOk, vec_len};
ghost use Rattle.sbpl_cost.specs.sbpl_cfg.Printed.{environment_text};
ghost use Rattle.sbpl_demo.specs.Generator.{word_after};
ghost use Rattle.sbpl_demo.specs.Environment.{center, center_pose, cost_of, costs, costs_drawn, environment};

use crate::draws::Draws;
use sbpl_cost::{Env, Grid, Pose, print_env};
use sbpl_fixed::NoMemory;
use std::alloc::Global;

/// The cost that a draw gives a cell.
#[tactic(auto, unfolding(crate::specs::Environment::cost_of))]
fn cost_of(drawn: u64) -> u8
    ensures cost { result ≡ cost_of drawn }
{
    match drawn % 100 {
        0..15 => 254,
        15..30 => 20,
        _ => 0,
    }
}

/// Draws the cost of each cell.
#[tactic(auto, using(crate::proofs::Steps::costs_none, crate::proofs::Steps::costs_next, crate::proofs::Steps::word_none, crate::proofs::Steps::word_next))]
fn draw_costs(alloc: Global, draws: &mut Draws, count: u32) -> Result<Vec<u8>, NoMemory>
    ensures costs { IfOk result (λ cells. cells.items ≡ costs_drawn count draws.old.word) }
    ensures size { IfOk result (λ cells. vec_len cells ≡ count) }
    ensures word { OnOk result (draws.new.word ≡ word_after count draws.old.word) }
{
    let mut cells = Vec::new(alloc);
    for _ in 0..count {
        cells.push(cost_of(draws.draw()))?;
    }
    Ok(cells)
}

/// Draws the cost of each cell, and clears the start's cell and the end's.
fn draw_grid(alloc: Global, draws: &mut Draws, width: u32, height: u32) -> Result<Vec<u8>, NoMemory>
    requires width { (8 ≤ width) × (width ≤ 512) }
    requires height { (8 ≤ height) × (height ≤ 512) }
    ensures costs { IfOk result (λ cells. cells.items ≡ costs width height draws.old.word) }
    ensures size { IfOk result (λ cells. vec_len cells ≡ width * height) }
    ensures word { OnOk result (draws.new.word ≡ word_after (width * height) draws.old.word) }
{
    let mut cells = draw_costs(alloc, draws, width * height)?;
    cells[(width + 1) as usize] = 0;
    cells[((height - 2) * width + (width - 2)) as usize] = 0;
    Ok(cells)
}

/// The centre of a cell along an axis, in nanometres.
fn center(cell: u32) -> i64
    requires inside { cell < 512 }
    ensures center { result ≡ center cell }
{
    25_000_000 * i64::from(cell) + 12_500_000
}

/// The centre of a cell, with heading 0.
fn center_pose(x: u32, y: u32) -> Pose
    requires x { x < 512 }
    requires y { y < 512 }
    ensures pose { result ≡ center_pose x y }
{
    Pose {
        x: center(x),
        y: center(y),
        theta: 0,
    }
}

/// The environment, whose start is the cell after the first corner and whose end is the cell before the last.
#[tactic(auto, using(crate::proofs::Environments::is_environment))]
fn environment(width: u32, height: u32) -> Env
    requires width { (8 ≤ width) × (width ≤ 512) }
    requires height { (8 ≤ height) × (height ≤ 512) }
    ensures environment { result ≡ environment width height }
{
    Env {
        width,
        height,
        obsthresh: 254,
        inscribed: 253,
        circumscribed: 128,
        cell: 25_000_000,
        speed: 1_000_000_000,
        turn45: 2_000_000_000,
        start: center_pose(1, 1),
        end: center_pose(width - 2, height - 2),
        headings: 16,
    }
}

/// The text of an environment whose costs are drawn cell by cell, row by row.
pub(crate) fn draw_environment(
    alloc: Global,
    draws: &mut Draws,
    width: u32,
    height: u32,
) -> Result<Vec<u8>, NoMemory>
    requires width { (8 ≤ width) × (width ≤ 512) }
    requires height { (8 ≤ height) × (height ≤ 512) }
    ensures text { IfOk result (λ text. text.items ≡ environment_text (environment width height)
        (costs width height draws.old.word)) }
    ensures word { OnOk result (draws.new.word ≡ word_after (width * height) draws.old.word) }
{
    let grid = Grid::of(draw_grid(alloc, draws, width, height)?);
    let mut text = Vec::new(alloc);
    print_env(&environment(width, height), &grid, &mut text)?;
    Ok(text)
}
