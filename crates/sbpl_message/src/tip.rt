//! Tips: the known word that an unknown one is near to.

use sbpl_job::{Command, setting_of};
use std::alloc::{AllocError, Global};
use strsim::osa_distance;

/// The commands, and the word for help that can stand in their place.
const COMMANDS: &[&str] = &["plan", "check", "sweep", "demo", "nav", "navcheck", "help"];

/// The options that stand without a command.
const ALONE: &[&str] = &["--help", "--version"];

/// The options that can stand after a command.
const OPTIONS: &[&str] = &[
    "--changes",
    "--radius",
    "--planner",
    "--workers",
    "--first",
    "--step",
    "--bound",
    "--budget",
    "--states",
    "--labels",
    "--labels-as",
    "--trace",
    "--incumbent",
    "--start",
    "--goal",
    "--help",
];

/// The most edits between a word and one that it is near to.
const MOST_EDITS: usize = 2;

/// How many edits lead from a word to another, if the words are near: one or two, and no more than half of the word's bytes. To
/// exchange two neighbours is one edit.
fn edits_between(alloc: Global, word: &str, other: &str) -> Result<Option<usize>, AllocError> {
    let edits = osa_distance(alloc, word, other)?;
    if edits > 0 && edits <= MOST_EDITS && edits <= word.len() / 2 {
        Ok(Some(edits))
    } else {
        Ok(None)
    }
}

/// The known word that a word is nearest to, the first of several, if it is near to one.
fn nearest<'a>(
    alloc: Global,
    word: &str,
    known: &[&'a str],
) -> Result<Option<&'a str>, AllocError> {
    let mut nearest = None;
    let mut least = MOST_EDITS + 1;
    for other in known {
        if let Some(edits) = edits_between(alloc, word, *other)? {
            if edits < least {
                least = edits;
                nearest = Some(*other);
            }
        }
    }
    Ok(nearest)
}

/// The tip on a first word that is no command, with what stands before it; nothing where no known word is near.
pub(crate) fn tip_on_command(alloc: Global, word: &str) -> Result<String, AllocError> {
    let (kind, known) = if word.starts_with('-') {
        ("argument", ALONE)
    } else {
        ("command", COMMANDS)
    };
    match nearest(alloc, word, known)? {
        Some(other) => format!(in alloc; "; tip: a similar {kind} exists: '{other}'"),
        None => Ok(String::new(alloc)),
    }
}

/// The option after a command that a word is nearest to, if it is near to one.
pub(crate) fn nearest_option(
    alloc: Global,
    command: Command,
    word: &str,
) -> Result<Option<&'static str>, AllocError> {
    let mut known = Vec::new(alloc);
    for option in OPTIONS {
        if *option == "--help" || setting_of(command, *option).is_some() {
            known.push(*option)?;
        }
    }
    nearest(alloc, word, known.as_slice())
}
