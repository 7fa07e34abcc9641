//! The labels of all states, by column.

ghost use Rattle.std.specs.Prelude.{◌≡◌, ℕ, ◌<◌, length, IfOk, slice_index_or};
ghost use Rattle.sbpl_labels.specs.Marks.{no_row};
ghost use Rattle.sbpl_labels.specs.Rows.{SetsRow};

use crate::row::Row;
use sbpl_pages::{NoMemory, Paged};
use std::alloc::Global;
use std::marker::Model;

/// The labels of states, each of the three kinds in a column of its own. So a state takes 28 bytes and not 32, and a search,
/// which mostly reads g of the heads of arcs, finds more of them in a cache line. A column takes memory where it was written.
#[derive(Drop)]
pub(crate) struct Rows {
    g: Paged<u64>,
    v: Paged<u64>,
    back: Paged<Option<(u32, u32)>>,
}

impl Model for Rows {
    ghost use Rattle.std.specs.Prelude.{◌≡◌, List, length};
    ghost use Rattle.sbpl_labels.specs.declared.row.Row.{Row};
    ghost use Rattle.sbpl_labels.specs.Rows.{rows_of};

    ghost Value = { List Row };

    ghost view = { λ a. rows_of a.g a.v a.back };

    ghost invariant = { λ a. (length a.v ≡ length a.g) × (length a.back ≡ length a.g) };
}

impl Rows {
    /// This many rows, each equal to this one.
    pub(crate) fn new(alloc: Global, count: u32, row: Row) -> Result<Rows, NoMemory>
        ensures count { IfOk result (λ rows. length rows ≡ count) }
        ensures rows { IfOk result (λ rows. (s : ℕ) → s < count → slice_index_or rows s no_row ≡ row) }
    {
        let g = Paged::new(alloc, count, row.g)?;
        let v = Paged::new(alloc, count, row.v)?;
        let back = Paged::new(alloc, count, row.back)?;
        Ok(Rows { g, v, back })
    }

    /// How many rows there are.
    pub(crate) fn len(&self) -> u32
        ensures value { result ≡ length self.now }
    {
        self.g.len()
    }

    /// g of a state.
    pub(crate) fn g(&self, s: u32) -> u64
        requires state { s < length self.now }
        ensures value { result ≡ (slice_index_or self.now s no_row).g }
    {
        self.g.get(s)
    }

    /// v of a state.
    pub(crate) fn v(&self, s: u32) -> u64
        requires state { s < length self.now }
        ensures value { result ≡ (slice_index_or self.now s no_row).v }
    {
        self.v.get(s)
    }

    /// The back arc of a state, where it has one.
    pub(crate) fn back(&self, s: u32) -> Option<(u32, u32)>
        requires state { s < length self.now }
        ensures value { result ≡ (slice_index_or self.now s no_row).back }
    {
        self.back.get(s)
    }

    /// Gives a state this g and this back arc.
    pub(crate) fn set_way(&mut self, s: u32, g: u64, back: Option<(u32, u32)>)
        requires state { s < length self.old }
        ensures set { SetsRow self.old self.new s (record { g = g; v = (slice_index_or self.old s no_row).v; back = back }) }
    {
        self.g.set(s, g);
        self.back.set(s, back);
    }

    /// Gives a state this v.
    pub(crate) fn set_v(&mut self, s: u32, v: u64)
        requires state { s < length self.old }
        ensures set { SetsRow self.old self.new s (record {
          g = (slice_index_or self.old s no_row).g;
          v = v;
          back =
              (slice_index_or self.old s no_row).back;
        }) }
    {
        self.v.set(s, v);
    }

    /// Makes each row this one.
    pub(crate) fn fill(&mut self, row: Row)
        ensures count { length self.new ≡ length self.old }
        ensures rows { (s : ℕ) → s < length self.old → slice_index_or self.new s no_row ≡ row }
    {
        self.g.fill(row.g);
        self.v.fill(row.v);
        self.back.fill(row.back);
    }
}
