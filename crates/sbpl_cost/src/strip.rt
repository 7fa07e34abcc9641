//! Cells one beside the other.

/// Cells one beside the other in a row, as offsets from the source cell of a motion: `len` of them, from `from` upwards.
#[derive(Clone, Copy)]
pub(crate) struct Strip {
    pub(crate) y: i64,
    pub(crate) from: i64,
    pub(crate) len: u32,
}
