//! Words that ask for help or for the version.

ghost use Rattle.std.specs.Prelude.{◌≡◌, IsSome, None, map, string_bytes};
ghost use Rattle.sbpl_job.specs.Asked.{asked_for, asked_of, asked_of_two, help_of, is_help};
ghost use Rattle.sbpl_job.specs.Jobs.{job_named};

use crate::read::command_named;
use crate::words::Command;

/// What words ask to be told instead of a job.
#[derive(Clone, Copy, Debug, PartialEq, Eq)]
pub enum Asked {
    /// `help`, `--help` or `-h`: what the program does.
    Help,
    /// `help COMMAND`, `COMMAND --help` or `COMMAND -h`: what a command does, and its words.
    HelpOf(Command),
    /// `--version` or `-V`: which version the program is.
    Version,
}

/// Whether a word asks for help, alone or after a command.
fn is_help(word: &str) -> bool
    ensures help { result ≡ is_help word.now }
{
    match word {
        "--help" | "-h" => true,
        _ => false,
    }
}

/// What one word asks for, where it stands alone.
fn asked_alone(word: &str) -> Option<Asked>
    ensures asked { result ≡ asked_of word.now }
{
    match word {
        "help" | "--help" | "-h" => Some(Asked::Help),
        "--version" | "-V" => Some(Asked::Version),
        _ => None,
    }
}

/// The help of the command of this name.
fn help_of(word: &str) -> Option<Asked>
    ensures asked { result ≡ help_of word.now }
{
    match command_named(word) {
        Some(command) => Some(Asked::HelpOf(command)),
        None => None,
    }
}

/// What two words ask for: `help` stands before a command, or a word that asks for help after one.
fn asked_of_two(word: &str, other: &str) -> Option<Asked>
    ensures asked { result ≡ asked_of_two word.now other.now }
{
    if word == "help" {
        return help_of(other);
    }
    if is_help(other) { help_of(word) } else { None }
}

/// What words ask to be told, if they do: `help`, `--help`, `-h`, `--version` or `-V` alone, `help` and a command, or a command
/// and `--help` or `-h`. Such words name no job.
pub fn read_asked(words: &[String]) -> Option<Asked>
    ensures asked { result ≡ asked_for (map string_bytes words.now) }
    ensures no_job { IsSome result → job_named words.now ≡ None }
{
    match words {
        [word] => asked_alone(word.as_str()),
        [word, other] => asked_of_two(word.as_str(), other.as_str()),
        _ => None,
    }
}
