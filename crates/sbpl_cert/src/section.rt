//! A section of a label text, in either version.

ghost use Rattle.std.specs.Prelude.{◌≡◌};
ghost use Rattle.sbpl_cert.specs.Versions.{outcome_of};

use crate::label_set::LabelSet;
use crate::outcome::Outcome;
use crate::sparse_set::SparseSet;

/// A section of a label text, in either version of the text.
#[derive(Debug, Drop)]
pub enum Section {
    /// Version 1: a row for each state, with the guide's value.
    Full(LabelSet),
    /// Version 2: rows for the states whose labels are needed. The guide is that of the map.
    Sparse(SparseSet),
}

impl Section {
    /// What the plan answered.
    pub fn outcome(&self) -> Outcome
        ensures value { result ≡ outcome_of self.now }
    {
        match self {
            Section::Full(set) => set.outcome,
            Section::Sparse(set) => set.outcome,
        }
    }
}
