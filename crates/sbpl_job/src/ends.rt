//! Where to start and where to go, as words give them in place of the environment file.

ghost use Rattle.std.specs.Prelude.{◌≡◌, pos, negsuc, [], ◌∷◌, IfOk, IfSome, option_map};
ghost use Rattle.std.specs.List.{slice_split};
ghost use Rattle.sbpl_cfg.specs.Environment.{IsPoseInRange, IsWithin};
ghost use Rattle.sbpl_cfg.specs.sbpl_fixed.Numbers.{nano_of, whole_of};
ghost use Rattle.sbpl_job.specs.Jobs.{coordinate_in, index_in, is_comma, pose_by, pose_in, square_by, square_in};
ghost use Rattle.sbpl_job.specs.Words.{Names, text_of, texts};

use crate::job::{JobFault, Square};
use sbpl_cfg::{Pose, read_nano, read_whole};
use std::alloc::{AllocError, Global};

/// The greatest coordinate in nanometres, and the greatest angle in nanoradians.
const MOST_COORDINATE: i64 = 1_000_000_000_000_000_000;

/// What stands between the commas of a word.
fn parts_of(alloc: Global, word: &str) -> Result<Vec<&str>, AllocError>
    ensures parts { IfOk result (λ v. texts v.items ≡ slice_split is_comma word.now) }
{
    word.split(',').collect(alloc)
}

/// A coordinate in decimal metres or an angle in decimal radians, as billionths.
fn read_coordinate(text: &str) -> Result<i64, JobFault>
    ensures coordinate { Names (coordinate_in (nano_of text.now)) result }
    ensures range { IfOk result (IsWithin (negsuc 999999999999999999) (pos 1000000000000000000)) }
{
    match read_nano(text.as_bytes()) {
        Ok(nano) if -MOST_COORDINATE <= nano && nano <= MOST_COORDINATE => Ok(nano),
        _ => Err(JobFault::Words),
    }
}

/// The pose of three texts.
fn pose_of(x: &str, y: &str, theta: &str) -> Result<Pose, JobFault>
    ensures pose { Names (pose_in (x.now ∷ (y.now ∷ (theta.now ∷ [])))) result }
    ensures range { IfOk result IsPoseInRange }
{
    let x = read_coordinate(x)?;
    let y = read_coordinate(y)?;
    let theta = read_coordinate(theta)?;
    Ok(Pose { x, y, theta })
}

/// The pose of these parts of a word.
fn pose_in(parts: &[&str]) -> Result<Pose, JobFault>
    ensures pose { Names (pose_in (texts parts.now)) result }
    ensures range { IfOk result IsPoseInRange }
{
    match parts {
        [x, y, theta] => pose_of(*x, *y, *theta),
        _ => Err(JobFault::Words),
    }
}

/// The pose that a word says: metres, metres and radians, between commas.
fn read_pose(alloc: Global, word: &str) -> Result<Pose, JobFault>
    ensures pose { Names (pose_in (slice_split is_comma word.now)) result }
    ensures range { IfOk result IsPoseInRange }
{
    let parts = parts_of(alloc, word)?;
    pose_in(parts.as_slice())
}

/// The pose that a word gives in place of the file's, if there is one.
pub fn pose_by(alloc: Global, word: Option<&str>) -> Result<Option<Pose>, JobFault>
    ensures pose { Names (pose_by (option_map text_of word.entry)) result }
    ensures range { IfOk result (λ p. IfSome p IsPoseInRange) }
{
    match word {
        None => Ok(None),
        Some(word) => Ok(Some(read_pose(alloc, word)?)),
    }
}

/// A column or a row, below the limit of states.
fn read_index(text: &str, states: u32) -> Result<u32, JobFault>
    ensures index { Names (index_in states (whole_of text.now)) result }
{
    match read_whole(text.as_bytes()) {
        Ok(index) if 0 <= index && index < i64::from(states) => Ok(index as u32),
        _ => Err(JobFault::Words),
    }
}

/// The cell of two texts.
fn square_of(x: &str, y: &str, states: u32) -> Result<Square, JobFault>
    ensures square { Names (square_in states (x.now ∷ (y.now ∷ []))) result }
{
    let x = read_index(x, states)?;
    let y = read_index(y, states)?;
    Ok(Square { x, y })
}

/// The cell of these parts of a word.
fn square_in(parts: &[&str], states: u32) -> Result<Square, JobFault>
    ensures square { Names (square_in states (texts parts.now)) result }
{
    match parts {
        [x, y] => square_of(*x, *y, states),
        _ => Err(JobFault::Words),
    }
}

/// The cell that a word says: its column and its row, with a comma between.
fn read_square(alloc: Global, word: &str, states: u32) -> Result<Square, JobFault>
    ensures square { Names (square_in states (slice_split is_comma word.now)) result }
{
    let parts = parts_of(alloc, word)?;
    square_in(parts.as_slice(), states)
}

/// The cell that a word gives in place of the file's, if there is one.
pub fn square_by(alloc: Global, word: Option<&str>, states: u32) -> Result<Option<Square>, JobFault>
    ensures square { Names (square_by states (option_map text_of word.entry)) result }
{
    match word {
        None => Ok(None),
        Some(word) => Ok(Some(read_square(alloc, word, states)?)),
    }
}
