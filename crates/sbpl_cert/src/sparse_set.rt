//! A section of a label text in its sparse form.

ghost use Rattle.std.specs.Prelude.{◌≡◌, ℕ, ◌<◌, length, IfNone, IfSome};
ghost use Rattle.sbpl_cert.specs.Sparse.{GoUpwards, sparse_row_at};

use crate::label_set::Arcs;
use crate::label_table::LabelTable;
use crate::outcome::Outcome;
use crate::sparse_row::SparseRow;
use sbpl_labels::FAR;
use sbpl_lists::ListOf;
use std::marker::Model;

/// Rows for some of the states, upwards.
pub type SparseRows = ListOf<SparseRow>;

/// A section of a label text in its sparse form: what a plan answered, and labels that show it together with the guide of the map.
/// States without a row have infinite labels. Its type keeps every value in the range that the text has for it, with `FAR` for
/// infinity, that states go upwards, and that there are arcs in a section of a path alone.
#[derive(Debug, Drop)]
pub struct SparseSet {
    /// The number of the plan.
    pub plan: u32,
    /// The number of states.
    pub states: u32,
    /// What every path costs at least, as the labels show: below 2^63, or infinite.
    pub low: u64,
    /// What the plan answered.
    pub outcome: Outcome,
    /// The arc numbers of a path from the start: fewer than 2^28, each below 4096.
    pub arcs: Arcs,
    /// The labels of some of the states, whose numbers go upwards and are below `states`.
    pub rows: SparseRows,
}

impl Model for SparseSet {
    ghost use Rattle.sbpl_cert.specs.Sparse.{SparseSection, IsSparseSection};

    ghost Value = { SparseSection };

    ghost view = { λ s. record {
      plan = s.plan;
      states = s.states;
      low = s.low;
      outcome = s.outcome;
      arcs = s.arcs;
      rows =
          s.rows;
    } };

    ghost invariant = { λ s. IsSparseSection (record {
      plan = s.plan;
      states = s.states;
      low = s.low;
      outcome = s.outcome;
      arcs = s.arcs;
      rows = s.rows;
    }) };
}

/// The number of the row of a state, if it has one.
fn find(rows: &[SparseRow], s: u32) -> Option<usize>
    requires upwards { GoUpwards rows.now }
    ensures found { IfSome result (λ i. (i < length rows.now) × ((sparse_row_at rows.now i).state ≡ s)) }
    ensures none { IfNone result ((i : ℕ) → i < length rows.now → (sparse_row_at rows.now i).state ≡ s → ⊥) }
{
    rows.binary_search_by_key(&s, |row| row.state).ok()
}

impl LabelTable for SparseSet {
    ghost use Rattle.sbpl_cert.specs.Sparse.{sparse_labelling};

    ghost labelling = { sparse_labelling };

    fn count(&self) -> u32 {
        self.rows.as_slice().len() as u32
    }

    fn row(&self, i: u32) -> SparseRow {
        self.rows.as_slice()[i as usize]
    }

    fn g(&self, s: u32) -> u64 {
        let rows = self.rows.as_slice();
        match find(rows, s) {
            Some(i) => rows[i].g,
            None => FAR,
        }
    }
}
