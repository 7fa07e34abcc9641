//! Parts of rows of cells.

/// The cells of row `y` from column `first` to column `last`. Bands are ordered by `y`, then by `first`.
#[derive(Clone, Copy, PartialEq, Eq, PartialOrd, Ord)]
pub(crate) struct Band {
    pub(crate) y: i64,
    pub(crate) first: i64,
    pub(crate) last: i64,
}
