//! An environment is printed.

ghost use Rattle.std.specs.Prelude.{◌≡◌, ◌*◌, ◌++◌, length, OnOk, OnErr};
ghost use Rattle.sbpl_fixed.specs.Printed.{line_text, lines_text};
ghost use Rattle.sbpl_cfg.specs.Printed.{end_lines, environment_text, grid_lines, heading_lines, pose_words, rate_lines};
ghost use Rattle.sbpl_cfg.specs.Printed.{size_lines, threshold_lines};

use crate::env::{Env, Grid, HEADINGS_WORD, USUAL_HEADINGS};
use crate::pose::Pose;
use sbpl_fixed::NoMemory;
use sbpl_lists::Piece::{Bytes, Nano, Number, Signed};
use sbpl_lists::{push_line, push_lines};

/// The map's size.
fn put_size(out: &mut Vec<u8>, env: &Env) -> Result<(), NoMemory>
    ensures ok { OnOk result (out.new.items ≡ out.old.items ++ lines_text (size_lines env.now)) }
{
    let width = Number(u64::from(env.width));
    let height = Number(u64::from(env.height));
    push_line(out, &[Bytes(b"discretization(cells):"), width, height])
}

/// The number of headings, where it isn't the usual one.
fn put_headings(out: &mut Vec<u8>, env: &Env) -> Result<(), NoMemory>
    ensures ok { OnOk result (out.new.items ≡ out.old.items ++ lines_text (heading_lines env.now)) }
{
    if env.headings == USUAL_HEADINGS {
        return Ok(());
    }
    push_line(
        out,
        &[Bytes(HEADINGS_WORD), Number(u64::from(env.headings))],
    )
}

/// What costs mean.
fn put_thresholds(out: &mut Vec<u8>, env: &Env) -> Result<(), NoMemory>
    ensures ok { OnOk result (out.new.items ≡ out.old.items ++ lines_text (threshold_lines env.now)) }
{
    let obsthresh = Number(u64::from(env.obsthresh));
    let inscribed = Number(u64::from(env.inscribed));
    let circumscribed = Signed(i64::from(env.circumscribed));
    push_lines(
        out,
        &[
            &[Bytes(b"obsthresh:"), obsthresh],
            &[Bytes(b"cost_inscribed_thresh:"), inscribed],
            &[Bytes(b"cost_possibly_circumscribed_thresh:"), circumscribed],
        ],
    )
}

/// The side of a cell, the speed and the time to turn.
fn put_rates(out: &mut Vec<u8>, env: &Env) -> Result<(), NoMemory>
    ensures ok { OnOk result (out.new.items ≡ out.old.items ++ lines_text (rate_lines env.now)) }
{
    push_lines(
        out,
        &[
            &[Bytes(b"cellsize(meters):"), Nano(env.cell)],
            &[Bytes(b"nominalvel(mpersecs):"), Nano(env.speed)],
            &[Bytes(b"timetoturn45degsinplace(secs):"), Nano(env.turn45)],
        ],
    )
}

/// A line with a word and a pose.
fn put_pose(out: &mut Vec<u8>, word: &[u8], pose: &Pose) -> Result<(), NoMemory>
    ensures ok { OnOk result (out.new.items ≡ out.old.items ++ line_text (pose_words word.now pose.now)) }
{
    let x = Nano(pose.x);
    let y = Nano(pose.y);
    push_line(out, &[Bytes(word), x, y, Nano(pose.theta)])
}

/// The start, the end, and the word before the grid.
fn put_ends(out: &mut Vec<u8>, env: &Env) -> Result<(), NoMemory>
    ensures ok { OnOk result (out.new.items ≡ out.old.items ++ lines_text (end_lines env.now)) }
{
    put_pose(out, b"start(meters,rads):", &env.start)?;
    put_pose(out, b"end(meters,rads):", &env.end)?;
    push_line(out, &[Bytes(b"environment:")])
}

fn put_grid(out: &mut Vec<u8>, width: u32, height: u32, cells: &[u8]) -> Result<(), NoMemory>
    requires size { length cells.now ≡ width * height }
    ensures ok { OnOk result (out.new.items ≡ out.old.items ++ lines_text (grid_lines height width cells.now)) }
{
    let mut rest = cells;
    for _y in 0..height {
        let (row, below) = rest.split_at(width as usize);
        push_line(out, row)?;
        rest = below;
    }
    Ok(())
}

fn put_all(out: &mut Vec<u8>, env: &Env, cells: &[u8]) -> Result<(), NoMemory>
    requires size { length cells.now ≡ env.now.width * env.now.height }
    ensures ok { OnOk result (out.new.items ≡ out.old.items ++ environment_text env.now cells.now) }
{
    put_size(out, env)?;
    put_headings(out, env)?;
    put_thresholds(out, env)?;
    put_rates(out, env)?;
    put_ends(out, env)?;
    put_grid(out, env.width, env.height, cells)?;
    Ok(())
}

/// Appends the text of an environment: a line for each word and what it says, and a line for each row of costs. The number
/// of headings has its line, after that of the size, only where it isn't 16. A grid of the environment's size is asked for.
/// After `NoMemory` the text is unchanged.
pub fn print_env(env: &Env, grid: &Grid, out: &mut Vec<u8>) -> Result<(), NoMemory>
    requires size { length grid.now ≡ env.now.width * env.now.height }
    ensures ok { OnOk result (out.new.items ≡ out.old.items ++ environment_text env.now grid.now) }
    ensures err { OnErr result (out.new.items ≡ out.old.items) }
{
    // The lines are first put together in a text of their own, so that `out` stays as it is where memory runs out on the way.
    let mut lines = Vec::new(*out.allocator());
    put_all(&mut lines, env, grid.as_slice())?;
    out.extend_from_slice(&lines)?;
    Ok(())
}
