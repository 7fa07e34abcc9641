//! What is wrong with words that name no job, told in one line.

ghost use Rattle.std.specs.Prelude.{IfOk, codes};
ghost use Rattle.sbpl_job.specs.sbpl_lists.Messages.{IsPlainMessage};

use crate::help::call_of;
use crate::tip::{nearest_option, tip_on_command};
use crate::unfit::{Unfit, first_unfit};
use crate::value::{Value, given, name_of, same_files, wanted_with, wrong_value};
use clap::ArgMatches;
use sbpl_job::{Command, Message, NoMemory, command_named, line_of, plain_message, spaced_words};
use std::alloc::{AllocError, Global};

/// What separates a part of what `clap` says from what stands before it.
fn separator(before: &str, part: &str) -> &'static str {
    if before.is_empty() {
        ""
    } else if before.ends_with(':') {
        " "
    } else if part.starts_with('<') {
        ", "
    } else {
        "; "
    }
}

/// What `clap` says of words, in one line, without its usage, and without the tip on `--`, which no command takes.
fn one_line(alloc: Global, text: &str) -> Result<String, AllocError> {
    let mut line = String::new(alloc);
    for part in text.lines() {
        let part = part.trim();
        if part.starts_with("Usage:") {
            break;
        }
        if part.is_empty() || part.starts_with("tip: to pass ") {
            continue;
        }
        line.push_str(separator(line.as_str(), part))?;
        line.push_str(part.strip_prefix("error: ").unwrap_or(part))?;
    }
    Ok(line)
}

/// What is wrong with a value that stands in these words.
fn wrong_value_text(
    alloc: Global,
    value: Value,
    words: &[&str],
    found: &str,
) -> Result<String, AllocError> {
    let name = name_of(value);
    let wanted = wanted_with(alloc, value, words)?;
    let wanted = wanted.as_str();
    format!(in alloc; "{name} must be {wanted}, found \"{found}\"")
}

/// What is wrong with words that `clap` takes.
fn wrong_in(
    alloc: Global,
    command: Command,
    words: &[&str],
    matches: &ArgMatches,
) -> Result<String, AllocError> {
    if let Some(value) = wrong_value(alloc, command, matches) {
        return wrong_value_text(alloc, value, words, given(value, matches).unwrap_or(""));
    }
    let Some((other, written)) = same_files(matches) else {
        return String::from_str(alloc, "the words name no job");
    };
    let found = given(written, matches).unwrap_or("");
    let (other, written) = (name_of(other), name_of(written));
    format!(in alloc; "{other} and {written} must be two files, found \"{found}\" for both")
}

/// What is wrong with words of the spaced form, each of which is plain or the name of a setting.
fn wrong_parts(alloc: Global, command: Command, words: &[&str]) -> Result<String, AllocError> {
    let line = line_of(alloc, command)?;
    match line.try_get_matches_from(words) {
        Ok(matches) => wrong_in(alloc, command, words, &matches),
        Err(error) => {
            let text = format!(in alloc; "{error}")?;
            one_line(alloc, text.as_str())
        }
    }
}

/// A word that may not stand where it does.
fn unexpected(alloc: Global, word: &str) -> Result<String, AllocError> {
    format!(in alloc; "unexpected argument '{word}' found")
}

/// What is wrong where a command does not know an option. `clap` gives a tip, too, where more than two edits lead to one.
fn wrong_option(
    alloc: Global,
    command: Command,
    word: &str,
    words: &[&str],
) -> Result<String, AllocError> {
    if word == "--" {
        return unexpected(alloc, word);
    }
    match nearest_option(alloc, command, word)? {
        Some(other) => format!(in alloc;
            "unexpected argument '{word}' found; tip: a similar argument exists: '{other}'"
        ),
        None => wrong_parts(alloc, command, words),
    }
}

/// What is wrong with the words after a command, in the spaced form.
fn wrong_after(alloc: Global, command: Command, words: &[&str]) -> Result<String, AllocError> {
    match first_unfit(command, words) {
        Some(Unfit::Value(value, found)) => wrong_value_text(alloc, value, words, found),
        Some(Unfit::Option(word)) => wrong_option(alloc, command, word, words),
        None => wrong_parts(alloc, command, words),
    }
}

/// What is wrong with a word that stands for a command and is none.
fn wrong_command(alloc: Global, word: &str) -> Result<String, AllocError> {
    let tip = tip_on_command(alloc, word)?;
    format!(in alloc;
        "the command must be plan, check, sweep, demo, nav or navcheck, found \"{word}\"{tip}"
    )
}

/// What is wrong with the words after `help`.
fn wrong_help(alloc: Global, word: &str, others: &[String]) -> Result<String, AllocError> {
    match others {
        [other, ..] if command_named(word).is_some() => unexpected(alloc, other.as_str()),
        _ => wrong_command(alloc, word),
    }
}

/// What is wrong with words that begin with no command.
fn wrong_start(alloc: Global, word: &str, others: &[String]) -> Result<String, AllocError> {
    match (word, others) {
        ("help", [other, more @ ..]) => wrong_help(alloc, other.as_str(), more),
        ("--help" | "-h" | "--version" | "-V", [other, ..]) => unexpected(alloc, other.as_str()),
        _ => wrong_command(alloc, word),
    }
}

/// What is wrong, and the call that tells what is right, in one line: a character that would not be seen is shown as `?`.
fn with_call(alloc: Global, what: &str, call: &str) -> Result<String, AllocError> {
    let mut line = String::new(alloc);
    for c in what.chars() {
        line.push(if c.is_control() { '?' } else { c })?;
    }
    write!(line, "; see {call} --help")?;
    Ok(line)
}

/// What is wrong with words that name no job, in one line.
fn wrong_words(alloc: Global, words: &[String]) -> Result<String, AllocError> {
    let [word, rest @ ..] = words else {
        let what = "a command must stand here: plan, check, sweep, demo, nav or navcheck";
        return with_call(alloc, what, "temjoask");
    };
    match command_named(word.as_str()) {
        Some(command) => {
            let spaced = spaced_words(alloc, command, rest)?;
            let what = wrong_after(alloc, command, spaced.as_slice())?;
            with_call(alloc, what.as_str(), call_of(command))
        }
        None => {
            let what = wrong_start(alloc, word.as_str(), rest)?;
            with_call(alloc, what.as_str(), "temjoask")
        }
    }
}

/// The message for words that name no job: which word is wrong and what must stand there, or what `clap` says of them, and the
/// call that prints the help. For words that name a job it says nothing useful.
pub fn words_message(alloc: Global, words: &[String]) -> Result<Message, NoMemory>
    ensures message { IfOk result (λ m. IsPlainMessage (codes "temjoask") m) }
{
    let what = wrong_words(alloc, words)?;
    plain_message(alloc, "temjoask", what.as_str())
}
