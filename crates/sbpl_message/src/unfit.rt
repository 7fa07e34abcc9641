//! Words after a command that are not plain and set nothing: a value that is empty or begins with `-`, or an unknown option.

use crate::value::{Value, plain_values, value_set};
use sbpl_job::{Command, is_plain, setting_of};

/// What a word is that is not plain and sets nothing.
#[derive(Clone, Copy)]
pub(crate) enum Unfit<'a> {
    /// A value, which can be none.
    Value(Value, &'a str),
    /// An option that the command does not know.
    Option(&'a str),
}

/// The setting whose value must follow words, if there is one.
fn awaited(command: Command, before: &[&str]) -> Option<Value> {
    let [.., last] = before else {
        return None;
    };
    match setting_of(command, *last) {
        Some(setting) => Some(value_set(command, setting)),
        None => None,
    }
}

/// The plain word that must follow words, if there is one.
fn next_plain(command: Command, before: &[&str]) -> Option<Value> {
    let mut values = plain_values(command);
    for i in 0..before.len() {
        if is_plain(before[i]) && awaited(command, &before[..i]).is_none() {
            values = match values {
                [] => values,
                [_, others @ ..] => others,
            };
        }
    }
    values.first().copied()
}

/// Whether a word can be meant as a value: it is empty, `-`, or a number with a sign.
fn is_value(word: &str) -> bool {
    match word.as_bytes() {
        [] | [b'-'] => true,
        [b'-', next, ..] => next.is_ascii_digit() || *next == b'.',
        _ => false,
    }
}

/// A word that follows others as the value of a setting, which begins with one dash at most, or as a plain word.
fn value_after<'a>(command: Command, before: &[&str], word: &'a str) -> Option<Unfit<'a>> {
    let value = match awaited(command, before) {
        Some(value) if !word.starts_with("--") => value,
        Some(_) => return None,
        None if is_value(word) => next_plain(command, before)?,
        None => return None,
    };
    Some(Unfit::Value(value, word))
}

/// A word that holds a setting's name and its value, or the name of an unknown option.
fn joined<'a>(command: Command, word: &'a str) -> Unfit<'a> {
    let (name, value) = word.split_once('=').unwrap_or((word, ""));
    match setting_of(command, name) {
        Some(setting) => Unfit::Value(value_set(command, setting), value),
        None => Unfit::Option(name),
    }
}

/// What the first word of the spaced form is that is not plain and sets nothing, if there is one.
pub(crate) fn first_unfit<'a>(command: Command, words: &[&'a str]) -> Option<Unfit<'a>> {
    for i in 0..words.len() {
        let word = words[i];
        if !is_plain(word) && setting_of(command, word).is_none() {
            return match value_after(command, &words[..i], word) {
                Some(unfit) => Some(unfit),
                None => Some(joined(command, word)),
            };
        }
    }
    None
}
