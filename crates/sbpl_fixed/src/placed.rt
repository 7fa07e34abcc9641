//! What was read, with where it stands.

/// A value that was read, with its place: the offset of its first byte in the text.
#[derive(Clone, Copy, Debug, PartialEq, Eq)]
pub struct Placed<T> {
    /// The value; of a decimal its billionths.
    pub value: T,
    /// The offset of its first byte.
    pub place: usize,
}
