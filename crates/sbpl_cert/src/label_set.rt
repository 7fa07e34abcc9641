//! A section of a label text.

use crate::label_table::LabelTable;
use crate::outcome::Outcome;
use crate::row::Row;
use crate::sparse_row::SparseRow;
use sbpl_labels::Guide;
use sbpl_lists::ListOf;
use std::marker::Model;

/// The arc numbers of a path in order.
pub type Arcs = ListOf<u32>;

/// A row for each state in order.
pub type Rows = ListOf<Row>;

/// A section of a label text: what a plan answered, and the labels that show it. Its type keeps every value in the range
/// that the text has for it, with `FAR` for infinity, and that there are arcs in a section of a path alone.
#[derive(Debug, Drop)]
pub struct LabelSet {
    /// The number of the plan.
    pub plan: u32,
    /// What every path costs at least, as the labels show: below 2^63, or infinite.
    pub low: u64,
    /// What the plan answered.
    pub outcome: Outcome,
    /// The arc numbers of a path from the start: fewer than 2^28, each below 4096.
    pub arcs: Arcs,
    /// The labels of each state in order.
    pub labels: Rows,
}

impl Model for LabelSet {
    ghost use Rattle.sbpl_cert.specs.Sections.{FullSection, IsFullSection};

    ghost Value = { FullSection };

    ghost view = { λ s. record { plan = s.plan; low = s.low; outcome = s.outcome; arcs = s.arcs; labels = s.labels } };

    ghost invariant = { λ s. IsFullSection (record {
      plan = s.plan;
      low = s.low;
      outcome = s.outcome;
      arcs = s.arcs;
      labels
          = s.labels;
    }) };
}

impl LabelTable for LabelSet {
    ghost use Rattle.sbpl_cert.specs.Sections.{full_labelling};

    ghost labelling = { full_labelling };

    fn count(&self) -> u32 {
        self.labels.as_slice().len() as u32
    }

    fn row(&self, i: u32) -> SparseRow {
        let row = self.labels.as_slice()[i as usize];
        SparseRow {
            state: i,
            g: row.g,
            v: row.v,
        }
    }

    fn g(&self, s: u32) -> u64 {
        self.labels.as_slice()[s as usize].g
    }
}

impl Guide for LabelSet {
    ghost use Rattle.std.specs.Prelude.{◌<◌, length};
    ghost use Rattle.sbpl_cert.specs.Sections.{GuidesBy, h_at};

    ghost distance = { λ s. h_at s.labels };

    ghost knows = { λ s u. u < length s.labels };

    ghost guides = { GuidesBy };

    ghost consistent = { λ s n goal by. by.consistent };

    ghost covered = { λ s n goal u by. by.known u };

    ghost bounded = { λ s n goal u by. by.small u };

    fn to_goal(&self, s: u32) -> u64 {
        self.labels.as_slice()[s as usize].h
    }
}
