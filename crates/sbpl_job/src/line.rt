//! The command line of each command, as it is given to `clap`, and what `clap` finds in it.

ghost use Rattle.std.specs.Prelude.{◌≡◌, ◌↔◌, true, fold, map};
ghost use Rattle.clap.specs.Simple.{App, with_rule};
ghost use Rattle.clap.specs.Values.{kind_of};
ghost use Rattle.clap.specs.Walk.{rule_of};
ghost use Rattle.clap.specs.declared.error.kind.ErrorKind.TheVariants.{OutOfMemory};
ghost use Rattle.sbpl_job.specs.Found.{FindsParts};
ghost use Rattle.sbpl_job.specs.Lines.{IsLine, app, bare, option_rule, plain_rule, rule_for};
ghost use Rattle.sbpl_job.specs.Words.{are_fit, texts};

use crate::arguments::{Argument, about, arguments_of, word_of};
use crate::job::JobFault;
use crate::words::Command;
use clap::error::ErrorKind;
use clap::{Arg, ArgMatches, Error};
use std::alloc::{AllocError, Global};

/// A command line, if there was memory for it. Each call below passes on a line that lacked memory, so that a line is
/// dropped in two functions alone.
type Line<'a> = Result<clap::Command<'a>, AllocError>;

/// A line without arguments, which knows no name of a program and no help, of a command that does this.
fn bare<'a>(alloc: Global, word: &'a str, about: &'a str) -> Line<'a>
    ensures app { IsLine result (bare word.now) }
{
    let line = clap::Command::new(alloc, word)
        .no_binary_name(true)
        .disable_help_flag(true)
        .about(about);
    Ok(line)
}

/// The line with a plain word that must stand.
fn with_plain<'a>(alloc: Global, line: Line<'a>, id: &'a str, help: &'a str) -> Line<'a>
    ensures app { (a : App) → IsLine line.entry a → IsLine result (with_rule a (plain_rule id.now)) }
{
    line?.arg(Arg::new(alloc, id).required(true).help(help))
}

/// The line with a setting, whose value has a name.
fn with_option<'a>(
    alloc: Global,
    line: Line<'a>,
    id: &'a str,
    value: &'a str,
    help: &'a str,
) -> Line<'a>
    ensures app { (a : App) → IsLine line.entry a → IsLine result (with_rule a (option_rule id.now)) }
{
    line?.arg(Arg::new(alloc, id).long(id).value_name(value).help(help))
}

/// The line with an argument.
fn with_argument<'a>(alloc: Global, line: Line<'a>, argument: &Argument) -> Line<'a>
    ensures app { (a : App) → IsLine line.entry a → IsLine result (with_rule a (rule_for argument.now)) }
{
    match argument.value {
        None => with_plain(alloc, line, argument.id, argument.help),
        Some(value) => with_option(alloc, line, argument.id, value, argument.help),
    }
}

/// The line with these arguments.
fn with_arguments<'a>(alloc: Global, line: Line<'a>, arguments: &[Argument]) -> Line<'a>
    ensures app { (a : App) → IsLine line.entry a → IsLine result (fold with_rule a (map rule_for arguments.now)) }
{
    let mut line = line;
    for argument in arguments {
        line = with_argument(alloc, line, argument);
    }
    line
}

/// The line of a command.
pub fn line_of<'a>(alloc: Global, command: Command) -> Line<'a>
    ensures app { IsLine result (app command) }
{
    let word: &'a str = word_of(command);
    let about: &'a str = about(command);
    let line = bare(alloc, word, about);
    with_arguments(alloc, line, arguments_of(command))
}

/// Why `clap` refuses the words: it has no memory, or they name no job.
fn fault_of(error: &Error) -> JobFault
    ensures memory { result ≡ JobFault.NoMemory ↔ kind_of error.now ≡ OutOfMemory }
{
    match error.kind() {
        ErrorKind::OutOfMemory => JobFault::NoMemory,
        _ => JobFault::Words,
    }
}

/// What `clap` finds in words of the spaced form. `Words` only where they have no parts, or parts that name no job.
pub(crate) fn find_parts<'a>(
    alloc: Global,
    command: Command,
    words: &'a [&'a str],
) -> Result<ArgMatches<'a>, JobFault>
    requires fit { are_fit command (texts words.now) ≡ true }
    ensures finds { FindsParts command (texts words.now) result }
{
    let line = line_of(alloc, command)?;
    match line.try_get_matches_from(words) {
        Ok(matches) => Ok(matches),
        Err(error) => Err(fault_of(&error)),
    }
}
