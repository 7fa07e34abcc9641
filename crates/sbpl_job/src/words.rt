//! Words: commands, settings, and the spaced form, in which a setting's value is the word after its name.

ghost use Rattle.std.specs.Prelude.{◌≡◌, ◌&&◌, IfOk, map, option_map, string_bytes};
ghost use Rattle.std.specs.List.{list_any};
ghost use Rattle.std.specs.Str.{bytes_eq};
ghost use Rattle.sbpl_job.specs.Forms.{NoPartsWithoutForms, PartsAreOfForms};
ghost use Rattle.sbpl_job.specs.Words.{are_fit, both_texts, is_known, is_plain_word, joined_word, setting_named};
ghost use Rattle.sbpl_job.specs.Words.{setting_of, spaced, stands_once, takes, texts};

use std::alloc::{AllocError, Global};

/// A command of the program.
#[derive(Clone, Copy, Debug, PartialEq, Eq)]
pub enum Command {
    /// Plan on the map of an environment file with the primitives of a primitive file.
    Plan,
    /// Check the labels that a plan wrote.
    Check,
    /// List the cells that each primitive sweeps.
    Sweep,
    /// Plan on an example that is drawn from a seed.
    Demo,
    /// Plan on the grid of an environment file.
    Nav,
    /// Check the labels that a plan on a grid wrote.
    NavCheck,
}

/// Something that the words can set, by a value after its name.
#[derive(Clone, Copy, Debug, PartialEq, Eq)]
pub enum Setting {
    /// `--changes`: the file of changes that are made after the first plan.
    Changes,
    /// `--radius`: the radius of the robot.
    Radius,
    /// `--planner`: how to search; of `check`, which planner wrote the labels.
    Planner,
    /// `--workers`: how many workers evaluate edges.
    Workers,
    /// `--first`: the inflation of the first pass.
    First,
    /// `--step`: by how much the inflation falls from pass to pass.
    Step,
    /// `--bound`: the bound that is good enough.
    Bound,
    /// `--budget`: how many states a plan may expand.
    Budget,
    /// `--states`: how many states an environment may have.
    States,
    /// `--labels`: where the labels of each plan are written.
    Labels,
    /// `--labels-as`: in which form the labels are written.
    LabelsAs,
    /// `--trace`: where the expansions of each plan are written.
    Trace,
    /// `--incumbent`: where the newest path after each plan is written.
    Incumbent,
    /// `--start`: where to start, in place of the environment file's start.
    Start,
    /// `--goal`: where to go, in place of the environment file's end.
    Goal,
}

/// Whether a word is plain: not empty, and it does not begin with `-`.
pub fn is_plain(word: &str) -> bool
    ensures plain { result ≡ is_plain_word word.now }
{
    match word.as_bytes() {
        [] => false,
        [first, ..] => *first != b'-',
    }
}

/// The setting of this name.
fn setting_named(word: &str) -> Option<Setting>
    ensures setting { result ≡ setting_named word.now }
{
    match word {
        "--changes" => Some(Setting::Changes),
        "--radius" => Some(Setting::Radius),
        "--planner" => Some(Setting::Planner),
        "--workers" => Some(Setting::Workers),
        "--first" => Some(Setting::First),
        "--step" => Some(Setting::Step),
        "--bound" => Some(Setting::Bound),
        "--budget" => Some(Setting::Budget),
        "--states" => Some(Setting::States),
        "--labels" => Some(Setting::Labels),
        "--labels-as" => Some(Setting::LabelsAs),
        "--trace" => Some(Setting::Trace),
        "--incumbent" => Some(Setting::Incumbent),
        "--start" => Some(Setting::Start),
        "--goal" => Some(Setting::Goal),
        _ => None,
    }
}

/// Whether a command takes a setting.
fn takes(command: Command, setting: Setting) -> bool
    ensures takes { result ≡ takes command setting }
{
    match command {
        Command::Plan => true,
        Command::Check => matches!(
            setting,
            Setting::Changes
                | Setting::Radius
                | Setting::Planner
                | Setting::States
                | Setting::Start
                | Setting::Goal
        ),
        Command::Sweep => matches!(setting, Setting::Radius | Setting::States),
        Command::Demo => false,
        Command::Nav => !matches!(setting, Setting::Radius),
        Command::NavCheck => matches!(
            setting,
            Setting::Changes | Setting::States | Setting::Start | Setting::Goal
        ),
    }
}

/// What a word sets, if it is the name of a setting that the command takes.
pub fn setting_of(command: Command, word: &str) -> Option<Setting>
    ensures setting { result ≡ setting_of command word.now }
{
    let setting = setting_named(word)?;
    if takes(command, setting) {
        Some(setting)
    } else {
        None
    }
}

/// The name and the value of a word that holds both, separated by the first `=`.
fn joined_parts(command: Command, word: &str) -> Option<(&str, &str)>
    ensures joined { option_map both_texts result ≡ joined_word command word.now }
{
    let (name, value) = word.split_once('=')?;
    if setting_of(command, name).is_some() && is_plain(value) {
        Some((name, value))
    } else {
        None
    }
}

/// The words in the spaced form.
pub fn spaced_words(
    alloc: Global,
    command: Command,
    words: &[String],
) -> Result<Vec<&str>, AllocError>
    ensures spaced { IfOk result (λ v. texts v.items ≡ spaced command (map string_bytes words.now)) }
{
    let mut spaced = Vec::new(alloc);
    for word in words {
        let word = word.as_str();
        match joined_parts(command, word) {
            Some((name, value)) => {
                spaced.push(name)?;
                spaced.push(value)?;
            }
            None => spaced.push(word)?,
        }
    }
    Ok(spaced)
}

/// Whether a word stands among others.
pub(crate) fn stands_in(word: &str, words: &[&str]) -> bool
    ensures stands { result ≡ list_any (bytes_eq word.now) (texts words.now) }
{
    for other in words {
        if word == *other {
            return true;
        }
    }
    false
}

/// Whether a word of the spaced form is plain, or names a setting of the command that no later word names.
fn is_fit(command: Command, word: &str, later: &[&str]) -> bool
    ensures fit { result ≡ (is_known command word.now && stands_once command word.now (texts later.now)) }
{
    match setting_of(command, word) {
        Some(_) => !stands_in(word, later),
        None => is_plain(word),
    }
}

/// Whether each word of the spaced form is plain, or the name of a setting of the command that stands nowhere else.
pub(crate) fn are_fit(command: Command, words: &[&str]) -> bool
    ensures fit { result ≡ are_fit command (texts words.now) }
{
    for i in 0..words.len() {
        if !is_fit(command, words[i], &words[i + 1..]) {
            return false;
        }
    }
    true
}

/// Words have parts exactly where they are, in turn, plain words and settings that the command takes, each with its plain
/// value in the next word or after `=`, and no setting is given twice; and these are the parts. It does nothing.
pub fn words_part_into_forms()
    ensures parts { PartsAreOfForms }
    ensures none { NoPartsWithoutForms }
{}
