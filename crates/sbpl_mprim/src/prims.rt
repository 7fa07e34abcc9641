//! The primitives of a file.

ghost use Rattle.std.specs.Prelude.{◌≡◌, ◌<◌, ◌≤◌, Some, length, slice_get};
ghost use Rattle.sbpl_mprim.specs.Primitives.{ArePrimitives};

use crate::prim::Prim;
use std::marker::Model;

/// The primitives of a file in file order, for one cell size and one number of headings. Its type keeps what the
/// format asks of them.
#[derive(Debug, Drop)]
pub struct Prims {
    cell: i64,
    headings: u32,
    items: Vec<Prim>,
}

impl Model for Prims {
    ghost use Rattle.sbpl_mprim.specs.Primitives.{Primitives, ArePrimitives};

    ghost Value = { Primitives };

    ghost view = { λ p. record {
      cell = p.cell;
      headings = p.headings;
      items = p.items.items;
    } };

    ghost invariant = { λ p. ArePrimitives (record {
      cell = p.cell;
      headings = p.headings;
      items = p.items.items;
    }) };
}

impl Prims {
    /// These primitives, which are what a file may give for the cell size and the headings.
    pub(crate) fn of(cell: i64, headings: u32, items: Vec<Prim>) -> Prims
        requires prims { ArePrimitives (record { cell = cell; headings = headings; items = items.items }) }
        ensures prims { result ≡ record { cell = cell; headings = headings; items = items.items } }
    {
        Prims {
            cell,
            headings,
            items,
        }
    }

    /// The cell size, 1..10^12 nanometres.
    pub fn cell(&self) -> i64
        ensures cell { result ≡ self.now.cell }
        ensures kept { ArePrimitives self.now }
    {
        self.cell
    }

    /// The number of headings, 1..64.
    pub fn headings(&self) -> u32
        ensures headings { result ≡ self.now.headings }
        ensures kept { ArePrimitives self.now }
    {
        self.headings
    }

    /// How many primitives there are, at most 4096.
    pub fn len(&self) -> u32
        ensures count { result ≡ length self.now.items }
    {
        self.items.len() as u32
    }

    /// The primitives in file order.
    pub fn as_slice(&self) -> &[Prim]
        ensures prims { result.now ≡ self.now.items }
        ensures kept { ArePrimitives self.now }
    {
        self.items.as_slice()
    }

    /// The primitive with number `i` in the file, from 0.
    pub fn get(&self, i: u32) -> &Prim
        requires place { i < length self.now.items }
        ensures prim { slice_get self.now.items i ≡ Some result.now }
    {
        &self.items[i as usize]
    }
}
