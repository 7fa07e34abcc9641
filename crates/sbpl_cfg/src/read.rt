//! An environment file is read.

ghost use Rattle.std.specs.Prelude.{true, false, bytes_eq, ℕ, List, Ok, Err, ◌≡◌, ◌≢◌, ◌*◌, ◌<◌, ◌≤◌};
ghost use Rattle.std.specs.Prelude.{pos, negsuc, ◌≤ℤ◌};
ghost use Rattle.std.specs.Prelude.{◌<ℤ◌, IfOk, IfErr, MatchResult, length};
ghost use Rattle.sbpl_fixed.specs.Formats.{Answers, Gives, reads};
ghost use Rattle.sbpl_fixed.specs.Tokens.{tokens};
ghost use Rattle.sbpl_cfg.specs.declared.fault.EnvFault.{EnvFault};
ghost use Rattle.sbpl_cfg.specs.declared.fault.EnvFault.TheVariants.{NoMemory};
ghost use Rattle.sbpl_cfg.specs.Environment.{Environment, IsEnvironment, IsHeadingCount, IsPoseInRange, IsWithin};
ghost use Rattle.sbpl_cfg.specs.Faults.{told};
ghost use Rattle.sbpl_cfg.specs.Format.{cell_format, circumscribed_format, cost_format, end_format, end_pose_format};
ghost use Rattle.sbpl_cfg.specs.Format.{ends_format, environment_format, environment_of, extent_format, grid_format};
ghost use Rattle.sbpl_cfg.specs.Format.{header_format, headings_format, headings_word, inscribed_format, is_fourth_token};
ghost use Rattle.sbpl_cfg.specs.Format.{is_on_map_of, IsHeaderInRange, nano_format, numbers_format, obsthresh_format};
ghost use Rattle.sbpl_cfg.specs.Format.{pose_format, rates_format, says_headings, size_format, speed_format, start_format};
ghost use Rattle.sbpl_cfg.specs.Format.{start_pose_format, thresholds_format, turn45_format, whole_format};
ghost use Rattle.sbpl_cfg.specs.Text.{HasFault, IsTextOf};

use crate::env::{Env, Grid, HEADINGS_WORD, USUAL_HEADINGS};
use crate::fault::EnvFault;
use crate::parts::{Ends, Extent, Header, Rates, Size, Thresholds};
use crate::place::is_on_map;
use crate::pose::Pose;
use sbpl_fixed::{Placed, Reader, TextFault};
use std::alloc::Global;

/// The greatest side, speed and time: nanometres, nanometres per second, nanoseconds.
const MOST_RATE: i64 = 1_000_000_000_000;

/// The greatest absolute value of a number of a pose: nanometres or nanoradians.
const FARTHEST: i64 = 1_000_000_000_000_000_000;

/// A word, and a number of zero or more after it.
#[tactic(auto, unfolding(sbpl_fixed::specs::Formats::reads, crate::specs::Format::whole_format))]
fn natural(reader: &mut Reader, word: &[u8], low: u32, high: u32) -> Result<u32, EnvFault>
    ensures read { Gives NoMemory (λ x. pos x) result reader.new (reads told (whole_format word.now (pos low) (pos high))
        reader.old) }
    ensures between { IfOk result (λ x. (low ≤ x) × (x ≤ high)) }
{
    reader.word(word)?;
    Ok(reader.natural(low, high)?.value)
}

/// A word, and a whole number after it.
#[tactic(auto, unfolding(sbpl_fixed::specs::Formats::reads, crate::specs::Format::whole_format))]
fn whole(reader: &mut Reader, word: &[u8], low: i64, high: i64) -> Result<i64, EnvFault>
    ensures read { Gives NoMemory (λ x. x) result reader.new (reads told (whole_format word.now low high) reader.old) }
    ensures between { IfOk result (IsWithin low high) }
{
    reader.word(word)?;
    Ok(reader.whole(low, high)?.value)
}

/// A word, and a decimal after it.
#[tactic(auto, unfolding(sbpl_fixed::specs::Formats::reads, crate::specs::Format::nano_format))]
fn nano(reader: &mut Reader, word: &[u8], low: i64, high: i64) -> Result<i64, EnvFault>
    ensures read { Gives NoMemory (λ x. x) result reader.new (reads told (nano_format word.now low high) reader.old) }
    ensures between { IfOk result (IsWithin low high) }
{
    reader.word(word)?;
    Ok(reader.nano(low, high)?.value)
}

/// The fourth token of a text, the one after the height.
fn fourth_token(text: &[u8]) -> Result<&[u8], TextFault>
    ensures fourth { MatchResult result
        (λ bytes. is_fourth_token (tokens text.now) ≡ bytes_eq bytes.now headings_word)
        (λ _. is_fourth_token (tokens text.now) ≡ false) }
{
    let mut reader = Reader::new(text);
    reader.token()?;
    reader.token()?;
    reader.token()?;
    Ok(reader.token()?.0)
}

/// Whether a text says its number of headings: whether the word for it is the fourth token.
fn says_headings(text: &[u8]) -> bool
    ensures said { result ≡ says_headings text.now }
{
    match fourth_token(text) {
        Ok(bytes) => bytes == HEADINGS_WORD,
        Err(_) => false,
    }
}

/// Cells along x and along y, with the place of the width. `states` is the limit.
#[tactic(auto, unfolding(sbpl_fixed::specs::Formats::reads, crate::specs::Format::extent_format))]
fn extent(reader: &mut Reader, states: u32) -> Result<Placed<Extent>, EnvFault>
    ensures read { Gives NoMemory (λ x. x) result reader.new (reads told (extent_format states) reader.old) }
    ensures width { IfOk result (λ x. (1 ≤ x.value.width) × (x.value.width ≤ states)) }
    ensures height { IfOk result (λ x. (1 ≤ x.value.height) × (x.value.height ≤ states)) }
{
    reader.word(b"discretization(cells):")?;
    let width = reader.natural(1, states)?;
    let height = reader.natural(1, states)?;
    Ok(Placed {
        value: Extent {
            width: width.value,
            height: height.value,
        },
        place: width.place,
    })
}

/// The number of headings, which is read where the text says it.
#[tactic(auto, unfolding(crate::specs::Format::headings_format, sbpl_fixed::specs::Formats::reads))]
fn headings(reader: &mut Reader, said: bool) -> Result<u32, EnvFault>
    ensures read { Gives NoMemory (λ x. pos x) result reader.new (reads told (headings_format said) reader.old) }
    ensures between { IfOk result IsHeadingCount }
{
    if !said {
        return Ok(USUAL_HEADINGS);
    }
    natural(reader, HEADINGS_WORD, 4, 64)
}

/// The lattice's size, which must leave room for the states.
#[tactic(auto, using(sbpl_fixed::specs::Parts::reading), unfolding(sbpl_fixed::specs::Formats::reads, crate::specs::Format::size_format))]
fn size(reader: &mut Reader, said: bool, states: u32) -> Result<Size, EnvFault>
    requires limit { states ≤ 268435456 }
    ensures read { Gives NoMemory (λ x. x) result reader.new (reads told (size_format states said) reader.old) }
    ensures width { IfOk result (λ x. (1 ≤ x.width) × (x.width ≤ states)) }
    ensures height { IfOk result (λ x. (1 ≤ x.height) × (x.height ≤ states)) }
    ensures headings { IfOk result (λ x. IsHeadingCount x.headings) }
    ensures states { IfOk result (λ x. x.width * x.height * x.headings ≤ states) }
{
    let extent = extent(reader, states)?;
    let headings = headings(reader, said)?;
    let Extent { width, height } = extent.value;
    if u64::from(width) * u64::from(height) * u64::from(headings) > u64::from(states) {
        return Err(EnvFault::TooLarge(extent.place));
    }
    Ok(Size {
        width,
        height,
        headings,
    })
}

/// The cost from which a cell is an obstacle.
#[tactic(auto, unfolding(crate::specs::Format::obsthresh_format))]
fn obsthresh(reader: &mut Reader) -> Result<u8, EnvFault>
    ensures read { Gives NoMemory (λ x. pos x) result reader.new (reads told obsthresh_format reader.old) }
{
    Ok(natural(reader, b"obsthresh:", 0, 255)? as u8)
}

/// The cost from which a cell is closed to the robot's centre.
#[tactic(auto, unfolding(crate::specs::Format::inscribed_format))]
fn inscribed(reader: &mut Reader) -> Result<u8, EnvFault>
    ensures read { Gives NoMemory (λ x. pos x) result reader.new (reads told inscribed_format reader.old) }
{
    Ok(natural(reader, b"cost_inscribed_thresh:", 0, 255)? as u8)
}

/// The threshold that is kept and has no effect.
#[tactic(auto, unfolding(crate::specs::Format::circumscribed_format))]
fn circumscribed(reader: &mut Reader) -> Result<i16, EnvFault>
    ensures read { Gives NoMemory (λ x. x) result reader.new (reads told circumscribed_format reader.old) }
    ensures between { IfOk result (IsWithin (negsuc 0) (pos 255)) }
{
    let word = b"cost_possibly_circumscribed_thresh:";
    Ok(whole(reader, word, -1, 255)? as i16)
}

/// What costs mean.
#[tactic(auto, using(sbpl_fixed::specs::Parts::reading), unfolding(sbpl_fixed::specs::Formats::reads, crate::specs::Format::thresholds_format))]
fn thresholds(reader: &mut Reader) -> Result<Thresholds, EnvFault>
    ensures read { Gives NoMemory (λ x. x) result reader.new (reads told thresholds_format reader.old) }
    ensures between { IfOk result (λ x. IsWithin (negsuc 0) (pos 255) x.circumscribed) }
{
    let obsthresh = obsthresh(reader)?;
    let inscribed = inscribed(reader)?;
    let circumscribed = circumscribed(reader)?;
    Ok(Thresholds {
        obsthresh,
        inscribed,
        circumscribed,
    })
}

/// A cell's side.
#[tactic(auto, unfolding(crate::specs::Format::cell_format))]
fn cell(reader: &mut Reader) -> Result<i64, EnvFault>
    ensures read { Gives NoMemory (λ x. x) result reader.new (reads told cell_format reader.old) }
    ensures between { IfOk result (IsWithin (pos 1) (pos 1000000000000)) }
{
    nano(reader, b"cellsize(meters):", 1, MOST_RATE)
}

/// The nominal speed.
#[tactic(auto, unfolding(crate::specs::Format::speed_format))]
fn speed(reader: &mut Reader) -> Result<i64, EnvFault>
    ensures read { Gives NoMemory (λ x. x) result reader.new (reads told speed_format reader.old) }
    ensures between { IfOk result (IsWithin (pos 1) (pos 1000000000000)) }
{
    nano(reader, b"nominalvel(mpersecs):", 1, MOST_RATE)
}

/// The time to turn by 45 degrees.
#[tactic(auto, unfolding(crate::specs::Format::turn45_format))]
fn turn45(reader: &mut Reader) -> Result<i64, EnvFault>
    ensures read { Gives NoMemory (λ x. x) result reader.new (reads told turn45_format reader.old) }
    ensures between { IfOk result (IsWithin (pos 1) (pos 1000000000000)) }
{
    nano(reader, b"timetoturn45degsinplace(secs):", 1, MOST_RATE)
}

/// A cell's side, the speed and the time to turn.
#[tactic(auto, using(sbpl_fixed::specs::Parts::reading), unfolding(sbpl_fixed::specs::Formats::reads, crate::specs::Format::rates_format))]
fn rates(reader: &mut Reader) -> Result<Rates, EnvFault>
    ensures read { Gives NoMemory (λ x. x) result reader.new (reads told rates_format reader.old) }
    ensures cell { IfOk result (λ x. IsWithin (pos 1) (pos 1000000000000) x.cell) }
    ensures speed { IfOk result (λ x. IsWithin (pos 1) (pos 1000000000000) x.speed) }
    ensures turn45 { IfOk result (λ x. IsWithin (pos 1) (pos 1000000000000) x.turn45) }
{
    let cell = cell(reader)?;
    let speed = speed(reader)?;
    let turn45 = turn45(reader)?;
    Ok(Rates {
        cell,
        speed,
        turn45,
    })
}

/// A word, and a pose after it.
#[tactic(auto, unfolding(sbpl_fixed::specs::Formats::reads, crate::specs::Format::pose_format))]
fn pose(reader: &mut Reader, word: &[u8]) -> Result<Placed<Pose>, EnvFault>
    ensures read { Gives NoMemory (λ x. x) result reader.new (reads told (pose_format word.now) reader.old) }
    ensures in_range { IfOk result (λ x. IsPoseInRange x.value) }
{
    reader.word(word)?;
    let x = reader.nano(-FARTHEST, FARTHEST)?;
    let y = reader.nano(-FARTHEST, FARTHEST)?;
    let theta = reader.nano(-FARTHEST, FARTHEST)?;
    Ok(Placed {
        value: Pose {
            x: x.value,
            y: y.value,
            theta: theta.value,
        },
        place: x.place,
    })
}

/// Whether a pose is on the map.
fn is_within(header: &Header, p: &Pose) -> bool
    requires cell { pos 0 <ℤ header.now.rates.cell }
    ensures on_map { result ≡ is_on_map_of header.now p.now }
{
    is_on_map(header.rates.cell, header.size.width, header.size.height, p)
}

/// The start's word and pose.
#[tactic(auto, unfolding(crate::specs::Format::start_pose_format))]
fn start_pose(reader: &mut Reader) -> Result<Placed<Pose>, EnvFault>
    ensures read { Gives NoMemory (λ x. x) result reader.new (reads told start_pose_format reader.old) }
    ensures in_range { IfOk result (λ x. IsPoseInRange x.value) }
{
    pose(reader, b"start(meters,rads):")
}

/// The start, which must be on the map.
#[tactic(auto, using(sbpl_fixed::specs::Parts::reading), unfolding(sbpl_fixed::specs::Formats::reads, crate::specs::Format::start_format))]
fn start(reader: &mut Reader, header: &Header) -> Result<Pose, EnvFault>
    requires cell { pos 0 <ℤ header.now.rates.cell }
    ensures read { Gives NoMemory (λ x. x) result reader.new (reads told (start_format header.now) reader.old) }
    ensures in_range { IfOk result IsPoseInRange }
    ensures on_map { IfOk result (λ p. is_on_map_of header.now p ≡ true) }
{
    let pose = start_pose(reader)?;
    if !is_within(header, &pose.value) {
        return Err(EnvFault::StartOff(pose.place));
    }
    Ok(pose.value)
}

/// The end's word and pose.
#[tactic(auto, unfolding(crate::specs::Format::end_pose_format))]
fn end_pose(reader: &mut Reader) -> Result<Placed<Pose>, EnvFault>
    ensures read { Gives NoMemory (λ x. x) result reader.new (reads told end_pose_format reader.old) }
    ensures in_range { IfOk result (λ x. IsPoseInRange x.value) }
{
    pose(reader, b"end(meters,rads):")
}

/// The end, which must be on the map.
#[tactic(auto, using(sbpl_fixed::specs::Parts::reading), unfolding(sbpl_fixed::specs::Formats::reads, crate::specs::Format::end_format))]
fn end(reader: &mut Reader, header: &Header) -> Result<Pose, EnvFault>
    requires cell { pos 0 <ℤ header.now.rates.cell }
    ensures read { Gives NoMemory (λ x. x) result reader.new (reads told (end_format header.now) reader.old) }
    ensures in_range { IfOk result IsPoseInRange }
    ensures on_map { IfOk result (λ p. is_on_map_of header.now p ≡ true) }
{
    let pose = end_pose(reader)?;
    if !is_within(header, &pose.value) {
        return Err(EnvFault::EndOff(pose.place));
    }
    Ok(pose.value)
}

/// All but the poses and the costs.
#[tactic(auto, using(sbpl_fixed::specs::Parts::reading), unfolding(sbpl_fixed::specs::Formats::reads, crate::specs::Format::header_format))]
fn header(reader: &mut Reader, said: bool, states: u32) -> Result<Header, EnvFault>
    requires limit { states ≤ 268435456 }
    ensures read { Gives NoMemory (λ x. x) result reader.new (reads told (header_format states said) reader.old) }
    ensures in_range { IfOk result IsHeaderInRange }
{
    let size = size(reader, said, states)?;
    let thresholds = thresholds(reader)?;
    let rates = rates(reader)?;
    Ok(Header {
        size,
        thresholds,
        rates,
    })
}

/// The start and the end.
#[tactic(auto, using(sbpl_fixed::specs::Parts::reading), unfolding(sbpl_fixed::specs::Formats::reads, crate::specs::Format::ends_format))]
fn ends(reader: &mut Reader, header: &Header) -> Result<Ends, EnvFault>
    requires cell { pos 0 <ℤ header.now.rates.cell }
    ensures read { Gives NoMemory (λ x. x) result reader.new (reads told (ends_format header.now) reader.old) }
    ensures start { IfOk result (λ x. IsPoseInRange x.start × (is_on_map_of header.now x.start ≡ true)) }
    ensures end { IfOk result (λ x. IsPoseInRange x.end × (is_on_map_of header.now x.end ≡ true)) }
{
    let start = start(reader, header)?;
    let end = end(reader, header)?;
    Ok(Ends { start, end })
}

/// The environment of what was read.
fn env_of(header: &Header, ends: &Ends) -> Env
    requires environment { IsEnvironment (environment_of header.now ends.now) }
    ensures value { result ≡ environment_of header.now ends.now }
{
    Env {
        width: header.size.width,
        height: header.size.height,
        obsthresh: header.thresholds.obsthresh,
        inscribed: header.thresholds.inscribed,
        circumscribed: header.thresholds.circumscribed,
        cell: header.rates.cell,
        speed: header.rates.speed,
        turn45: header.rates.turn45,
        start: ends.start,
        end: ends.end,
        headings: header.size.headings,
    }
}

/// All numbers but the costs.
#[tactic(auto, using(sbpl_fixed::specs::Parts::reading), unfolding(sbpl_fixed::specs::Formats::reads, crate::specs::Format::numbers_format))]
fn numbers(reader: &mut Reader, said: bool, states: u32) -> Result<Env, EnvFault>
    requires limit { states ≤ 268435456 }
    ensures read { Gives NoMemory (λ x. x) result reader.new (reads told (numbers_format states said) reader.old) }
{
    let header = header(reader, said, states)?;
    let ends = ends(reader, &header)?;
    Ok(env_of(&header, &ends))
}

/// The costs of the cells, after their word.
#[tactic(auto, using(sbpl_fixed::specs::Parts::reading), unfolding(sbpl_fixed::specs::Formats::reads, crate::specs::Format::cost_format, crate::specs::Format::grid_format))]
fn costs(alloc: Global, reader: &mut Reader, count: u32) -> Result<Vec<u8>, EnvFault>
    ensures read { Gives NoMemory (λ x. x.items) result reader.new (reads told (grid_format count) reader.old) }
{
    reader.word(b"environment:")?;
    let mut costs = Vec::with_capacity(alloc, count as usize)?;
    for _ in 0..count {
        let cost = reader.natural(0, 255)?;
        costs.push(cost.value as u8)?;
    }
    Ok(costs)
}

/// The whole file, with the number of headings where the text says it.
#[tactic(auto, using(sbpl_fixed::specs::Parts::reading), unfolding(sbpl_fixed::specs::Formats::reads, crate::specs::Format::environment_format))]
fn environment(
    alloc: Global,
    reader: &mut Reader,
    said: bool,
    states: u32,
) -> Result<(Env, Grid), EnvFault>
    requires limit { states ≤ 268435456 }
    ensures read { Gives NoMemory (λ x. x) result reader.new (reads told (environment_format states said) reader.old) }
{
    let env = numbers(reader, said, states)?;
    let costs = costs(alloc, reader, env.width * env.height)?;
    reader.end()?;
    Ok((env, Grid::of(costs)))
}

/// Reads an environment file: its tokens, in order, are the words and numbers of `print_env`, separated by any blanks; a whole
/// number may have a sign and leading zeros, a decimal any decimals, of which the first nine are read. The word
/// `NumThetaDirs:` and the number of headings may stand directly after the height; without them there are 16 headings. There
/// may be at most `states` states. The other ranges are those of `Env`. A fault is the first one in reading order, with its
/// offset; `TooLarge` comes directly after the height, or after the number of headings where the text says it, `StartOff` and
/// `EndOff` directly after their pose. Only the costs take memory.
#[tactic(auto, using(sbpl_fixed::proofs::Meaning::answering))]
pub fn read_env(alloc: Global, text: &[u8], states: u32) -> Result<(Env, Grid), EnvFault>
    requires limit { states ≤ 268435456 }
    // What is read is what the text stands for.
    ensures found { IfOk result (λ x. IsTextOf states text.now x.0 x.1) }
    // What a text stands for is read, unless memory runs out.
    ensures only { (x : Environment × List ℕ)
        → IsTextOf states text.now x.0 x.1 → Answers NoMemory (λ y. y) result (Ok x) }
    // A fault is the text's first one.
    ensures faulty { IfErr result (λ f. f ≢ NoMemory → HasFault states text.now f) }
    // The first fault of a text is answered, unless memory runs out.
    ensures only_faulty { (f : EnvFault)
        → HasFault states text.now f → Answers NoMemory (λ y. y) result (Err f) }
{
    let said = says_headings(text);
    environment(alloc, &mut Reader::new(text), said, states)
}
