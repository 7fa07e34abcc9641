//! The rule of the cell, and the kinds of step that keep it.

use crate::known::Known;
use crate::slip::Slip;
use atomic_table::{Join, Split};
use crossbeam_utils::atomic::seq_cell::{Pass, RuledSeqCell};
use crossbeam_utils::rule::{Outcome, Protocol};

/// The cell of a board: the last entry, or zeros.
pub(crate) type Cell = RuledSeqCell<Slip, Known, Rule, 6>;

/// A pass of it.
pub(crate) type CellPass = Pass<Slip, Known>;

/// There is one publisher, the cell holds its last entry, and what the readers got, were told and noted was published.
pub(crate) struct Rule;

impl Protocol<Slip, Known> for Rule {
    ghost use Rattle.sbpl_incumbent.specs.Kept.{IsKept};
    ghost use Rattle.sbpl_incumbent.specs.Steps.{none_published};
    ghost use Rattle.sbpl_incumbent.specs.Slips.{entry_in};

    ghost holds = { λ slip views. IsKept (entry_in slip) views };

    ghost first = { none_published };
}

/// An entry is published: the publisher has one more.
pub(crate) struct Published;

impl Outcome<Slip, Known> for Published {
    ghost use Rattle.std.specs.Prelude.{◌≡◌};
    ghost use Rattle.sbpl_incumbent.specs.Slips.{entry_in};
    ghost use Rattle.sbpl_incumbent.specs.Steps.{published_with};

    ghost then = { λ v x y w. w ≡ published_with v (entry_in y) };
}

/// A reader loads: it gets the entry in the cell.
pub(crate) struct Loaded;

impl Outcome<Slip, Known> for Loaded {
    ghost use Rattle.sbpl_incumbent.specs.Slips.{entry_in};
    ghost use Rattle.sbpl_incumbent.specs.Steps.{IsLoaded};

    ghost then = { λ v x y w. IsLoaded v (entry_in x) w };
}

/// The publisher loads: the rule tells what the joined reader got, and none is left.
pub(crate) struct Settled;

impl Outcome<Slip, Known> for Settled {
    ghost use Rattle.sbpl_incumbent.specs.Steps.{IsSettled};

    ghost then = { λ v x y w. IsSettled v w };
}

/// A reader is made: it got nothing and was told of nothing.
pub(crate) struct ReaderMade;

impl Split<Known> for ReaderMade {
    ghost use Rattle.sbpl_incumbent.specs.Steps.{none_got};

    ghost left = { λ v. v };

    ghost right = { λ v. none_got };
}

/// A note is made of what was published.
pub(crate) struct NoteMade;

impl Split<Known> for NoteMade {
    ghost use Rattle.sbpl_incumbent.specs.Steps.{note_of};

    ghost left = { λ v. v };

    ghost right = { note_of };
}

/// A reader's whole view goes to a new pass. A pass that has loaded cannot be joined, and the new one can.
pub(crate) struct Moved;

impl Split<Known> for Moved {
    ghost use Rattle.sbpl_incumbent.specs.declared.known.Known.TheVariants.{Nothing};

    ghost left = { λ v. Nothing };

    ghost right = { λ v. v };
}

/// A note is joined into a reader's pass.
pub(crate) struct Learnt;

impl Join<Known> for Learnt {
    ghost use Rattle.sbpl_incumbent.specs.declared.known.Known.TheVariants.{Nothing};
    ghost use Rattle.sbpl_incumbent.specs.Steps.{learnt};

    ghost both = { learnt };

    ghost spent = { Nothing };
}

/// A reader's pass is joined into the publisher's.
pub(crate) struct ReaderJoined;

impl Join<Known> for ReaderJoined {
    ghost use Rattle.sbpl_incumbent.specs.declared.known.Known.TheVariants.{Nothing};
    ghost use Rattle.sbpl_incumbent.specs.Steps.{joined};

    ghost both = { joined };

    ghost spent = { Nothing };
}
