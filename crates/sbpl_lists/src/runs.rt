//! Lists that lie one after another in one table.

ghost use Rattle.std.specs.Prelude.{◌≡◌, ◌+◌, ◌<◌, ◌≤◌, [], ◌∷◌, ◌++◌, length, slice_get};
ghost use Rattle.std.specs.Prelude.{slice_index, slice_range, Some};
ghost use Rattle.std.specs.Prelude.{IfOk, OnOk, OnErr};

use sbpl_fixed::NoMemory;
use std::alloc::Global;
use std::marker::Model;

/// What lies between a start and the next.
fn part<'a, T>(items: &'a [T], starts: &[usize], i: usize) -> &'a [T]
    requires next { i + 1 < length starts.now }
    requires rising { slice_index starts.now i ≤ slice_index starts.now (i + 1) }
    requires inside { slice_index starts.now (i + 1) ≤ length items.now }
    ensures part { result.now ≡ slice_range items.now (slice_index starts.now i) (slice_index starts.now (i + 1)) }
{
    let start = starts[i];
    let end = starts[i + 1];
    &items[start..end]
}

/// Lists, seen as a list of lists. They lie one after another in one table, so that reading one costs one step.
#[derive(Debug, Drop)]
pub struct Runs<T> {
    items: Vec<T>,
    /// Where each list begins, and at the end where the next one would.
    starts: Vec<usize>,
}

impl<T> Model for Runs<T> {
    ghost use Rattle.std.specs.Prelude.{List, length};
    ghost use Rattle.sbpl_lists.specs.Lists.{lists_between, AreStarts};

    ghost Value = { List (List T) };

    ghost view = { λ r. lists_between r.items.items r.starts.items };

    ghost invariant = { λ r. AreStarts (length r.items.items) r.starts.items };
}

impl<T: Copy + Drop> Runs<T> {
    /// No lists.
    pub fn new(alloc: Global) -> Result<Runs<T>, NoMemory>
        ensures none { IfOk result (λ r. r ≡ []) }
    {
        let mut starts = Vec::new(alloc);
        starts.push(0)?;
        Ok(Runs {
            items: Vec::new(alloc),
            starts,
        })
    }

    /// How many lists there are.
    pub fn count(&self) -> usize
        ensures value { result ≡ length self.now }
    {
        self.starts.len() - 1
    }

    /// The list with this number.
    pub fn at(&self, i: usize) -> &[T]
        requires number { i < length self.now }
        ensures list { slice_get self.now i ≡ Some result.now }
    {
        part(self.items.as_slice(), self.starts.as_slice(), i)
    }

    /// Adds a list. After `NoMemory` the lists are unchanged.
    pub fn push(&mut self, list: &[T]) -> Result<(), NoMemory>
        ensures added { OnOk result (self.new ≡ self.old ++ list.now ∷ []) }
        ensures refused { OnErr result (self.new ≡ self.old) }
    {
        self.starts.reserve(1)?;
        self.items.extend_from_slice(list)?;
        self.starts.push_reserved(self.items.len());
        Ok(())
    }
}
