//! Fractions of cost to cells.

ghost use Rattle.std.specs.Prelude.{◌≡◌, ◌*◌, ◌/◌, ◌<◌, ◌≤◌, ◌↔◌, IsTrue};

/// A cost for a number of cells, or of bins of a turn.
#[derive(Clone, Copy)]
pub(crate) struct Rate {
    pub(crate) cost: u32,
    pub(crate) cells: u32,
    ghost some: { 1 ≤ cells },
    ghost small: { cost ≤ 16777215 },
}

impl Rate {
    /// It is less than another, as a fraction.
    pub(crate) fn is_less(&self, other: &Rate) -> bool
        ensures less { IsTrue result ↔ (self.now.cost * other.now.cells < other.now.cost * self.now.cells) }
    {
        u64::from(self.cost) * u64::from(other.cells)
            < u64::from(other.cost) * u64::from(self.cells)
    }

    /// What `n` cells cost, rounded down.
    pub(crate) fn floor(&self, n: u32) -> u64
        ensures floor { result ≡ n * self.now.cost / self.now.cells }
    {
        u64::from(n) * u64::from(self.cost) / u64::from(self.cells)
    }
}
