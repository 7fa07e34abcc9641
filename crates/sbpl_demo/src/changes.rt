//! The batches of changes that are drawn.

ghost use Rattle.std.specs.Prelude.{◌≡◌, ◌<◌, ◌≤◌, ◌++◌, map, OnOk, IfOk};
ghost use Rattle.sbpl_fixed.specs.Printed.{line_text, lines_text};
ghost use Rattle.sbpl_cost.specs.sbpl_map.Printed.{batch_lines, changes_text, write_line};
ghost use Rattle.sbpl_cost.specs.sbpl_map.declared.write.Write.{Write};
ghost use Rattle.sbpl_demo.specs.Generator.{word_after};
ghost use Rattle.sbpl_demo.specs.Changes.{batches, cell_writes, change, change_cost, is_end, writes};

use crate::draws::Draws;
use sbpl_cost::Piece::{Bytes, Number};
use sbpl_cost::push_line;
use sbpl_fixed::NoMemory;
use std::alloc::Global;

/// Appends the line that writes a cost to a cell.
fn put_cell(out: &mut Vec<u8>, x: u32, y: u32, cost: u32) -> Result<(), NoMemory>
    ensures ok { OnOk result (out.new.items ≡ out.old.items ++ line_text (write_line (record { x = x; y = y; cost = cost }))) }
{
    let x = Number(u64::from(x));
    let y = Number(u64::from(y));
    let cost = Number(u64::from(cost));
    push_line(out, &[Bytes(b"cell"), x, y, cost])
}

/// Whether a cell is the start's or the end's.
fn is_end(width: u32, height: u32, x: u32, y: u32) -> bool
    requires width { 8 ≤ width }
    requires height { 8 ≤ height }
    ensures end { result ≡ is_end width height x y }
{
    (x == 1 && y == 1) || (x == width - 2 && y == height - 2)
}

/// Appends the line that writes a cost to a cell, and nothing for the start's cell and the end's.
fn put_change(
    out: &mut Vec<u8>,
    width: u32,
    height: u32,
    x: u32,
    y: u32,
    cost: u32,
) -> Result<(), NoMemory>
    requires width { 8 ≤ width }
    requires height { 8 ≤ height }
    ensures ok { OnOk result (out.new.items ≡ out.old.items ++ lines_text (map write_line (cell_writes width height x y cost))) }
{
    if is_end(width, height, x, y) {
        return Ok(());
    }
    put_cell(out, x, y, cost)
}

/// The cost that a draw gives: an obstacle where it is odd.
fn change_cost(drawn: u64) -> u32
    ensures cost { result ≡ change_cost drawn }
{
    if drawn % 2 == 1 { 254 } else { 0 }
}

/// Draws a cell and its cost, and appends the line.
#[tactic(auto, using(crate::proofs::Steps::word_three), unfolding(crate::specs::Changes::change, crate::specs::Generator::word_after))]
fn draw_change(
    out: &mut Vec<u8>,
    draws: &mut Draws,
    width: u32,
    height: u32,
) -> Result<(), NoMemory>
    requires width { 8 ≤ width }
    requires height { 8 ≤ height }
    ensures ok { OnOk result (out.new.items ≡ out.old.items ++ lines_text (map write_line (change width height draws.old.word))) }
    ensures word { OnOk result (draws.new.word ≡ word_after 3 draws.old.word) }
{
    let x = (draws.draw() % u64::from(width)) as u32;
    let y = (draws.draw() % u64::from(height)) as u32;
    let cost = change_cost(draws.draw());
    put_change(out, width, height, x, y, cost)
}

/// Draws a batch of eight changes and appends its lines.
#[tactic(auto, using(crate::proofs::Steps::writes_none, crate::proofs::Steps::writes_next, crate::proofs::Steps::batch_ends, crate::proofs::Steps::word_none, crate::proofs::Steps::word_change, std::proofs::lemmas::List::append_assoc), unfolding(sbpl_fixed::specs::Printed::line_text))]
fn draw_batch(out: &mut Vec<u8>, draws: &mut Draws, width: u32, height: u32) -> Result<(), NoMemory>
    requires width { 8 ≤ width }
    requires height { 8 ≤ height }
    ensures ok { OnOk result (out.new.items ≡ out.old.items ++ lines_text (batch_lines (writes width height 8 draws.old.word))) }
    ensures word { OnOk result (draws.new.word ≡ word_after 24 draws.old.word) }
{
    for _ in 0..8u32 {
        draw_change(out, draws, width, height)?;
    }
    push_line(out, &[Bytes(b"replan")])
}

/// The text of three batches of changes.
#[tactic(auto, using(crate::proofs::Steps::batches_none, crate::proofs::Steps::batches_next, crate::proofs::Steps::word_none, crate::proofs::Steps::word_batch))]
pub(crate) fn draw_changes(
    alloc: Global,
    draws: &mut Draws,
    width: u32,
    height: u32,
) -> Result<Vec<u8>, NoMemory>
    requires width { 8 ≤ width }
    requires height { 8 ≤ height }
    ensures text { IfOk result (λ text. text.items ≡ changes_text (batches width height 3 draws.old.word)) }
{
    let mut text = Vec::new(alloc);
    for _ in 0..3u32 {
        draw_batch(&mut text, draws, width, height)?;
    }
    Ok(text)
}
