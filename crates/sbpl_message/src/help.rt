//! Texts that words can ask for: help and the version.

use sbpl_job::{Asked, Command, line_of};
use std::alloc::{AllocError, Global};

/// The program and its version.
const VERSION: &str = "temjoask 0.1.0\n";

/// How the program is called.
const USAGE: &str = "\
usage: temjoask plan ENV MPRIM [--changes F] [--start X,Y,T] [--goal X,Y,T] [--radius M] [--planner P] [--workers N] [--first E] [--step E] [--bound B] [--budget N] [--states N] [--labels F [--labels-as V]] [--trace F] [--incumbent F]
       temjoask check ENV MPRIM LABELS [--changes F] [--start X,Y,T] [--goal X,Y,T] [--radius M] [--planner back] [--states N]
       temjoask sweep ENV MPRIM [--radius M] [--states N]
       temjoask demo SEED W H
       temjoask nav ENV [--changes F] [--start X,Y] [--goal X,Y] [--planner P] [--workers N] [--first E] [--step E] [--bound B] [--budget N] [--states N] [--labels F [--labels-as V]] [--trace F] [--incumbent F]
       temjoask navcheck ENV LABELS [--changes F] [--start X,Y] [--goal X,Y] [--states N]
       temjoask [COMMAND] --help
       temjoask --version
";

/// What the program does.
const ABOUT: &str = "\
Temjoask plans on SBPL's state lattice, and on grids with eight neighbours, with a proved bound on the cost of each path.

";

/// What the exit statuses say.
const STATUSES: &str = "
Statuses:
  0   done
  1   a section of labels has a flaw
  2   the words name no job, or a start or a goal off the map
  3   the environment has a fault
  4   the primitives have a fault
  5   the changes have a fault
  6   a file could not be read
  7   an output could not be written
  8   a file is longer than 2^30 bytes
  9   out of memory
  10  the text of labels has a fault
";

/// How a command is called, without its words.
pub(crate) fn call_of(command: Command) -> &'static str {
    match command {
        Command::Plan => "temjoask plan",
        Command::Check => "temjoask check",
        Command::Sweep => "temjoask sweep",
        Command::Demo => "temjoask demo",
        Command::Nav => "temjoask nav",
        Command::NavCheck => "temjoask navcheck",
    }
}

/// An example of a command.
fn example_of(command: Command) -> &'static str {
    match command {
        Command::Plan =>
            "\nExample: temjoask plan hall.cfg robot.mprim --radius 0.2 --first 3 --labels hall.labels\n",
        Command::Check =>
            "\nExample: temjoask check hall.cfg robot.mprim hall.labels --radius 0.2\n",
        Command::Sweep => "\nExample: temjoask sweep hall.cfg robot.mprim --radius 0.2\n",
        Command::Demo => "\nExample: temjoask demo 7 32 32\n",
        Command::Nav => "\nExample: temjoask nav yard.cfg --first 3 --labels yard.labels\n",
        Command::NavCheck => "\nExample: temjoask navcheck yard.cfg yard.labels\n",
    }
}

/// The words and the settings of a command.
fn words_of(alloc: Global, command: Command) -> Result<String, AllocError> {
    let mut line = line_of(alloc, command)?.bin_name(call_of(command))?;
    line.render_help()
}

/// The help of a command: its words and settings, the statuses, and an example.
fn help_of(alloc: Global, command: Command) -> Result<String, AllocError> {
    let mut text = words_of(alloc, command)?;
    text.push_str(STATUSES)?;
    text.push_str(example_of(command))?;
    Ok(text)
}

/// The help of the program.
fn whole_help(alloc: Global) -> Result<String, AllocError> {
    let mut text = String::from_str(alloc, ABOUT)?;
    text.push_str(USAGE)?;
    text.push_str(STATUSES)?;
    Ok(text)
}

/// The text that is asked for.
pub fn told(alloc: Global, asked: Asked) -> Result<String, AllocError> {
    match asked {
        Asked::Help => whole_help(alloc),
        Asked::HelpOf(command) => help_of(alloc, command),
        Asked::Version => String::from_str(alloc, VERSION),
    }
}
