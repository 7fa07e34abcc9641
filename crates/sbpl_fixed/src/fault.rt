//! Why a text is not a number, and the faults of a text of tokens.

use thiserror::Error;

/// Why a text is not a number.
#[derive(Clone, Copy, Debug, PartialEq, Eq, Error)]
pub enum NumFault {
    /// The text does not have the form that is asked for.
    #[error("not a number of the form asked for")]
    Form,
    /// It has the form, but the value is too great: above `10^18` in absolute value, or for a number without a sign not below the
    /// limit that was given.
    #[error("a number too large")]
    Size,
}

/// The faults that every text of tokens can have, each with its place: the offset of the token's first byte, and for
/// `Ended` the length of the text.
#[derive(Clone, Copy, Debug, PartialEq, Eq, Error)]
pub enum TextFault {
    /// Another token stands where a fixed word must stand.
    #[error("another word at {0}")]
    Word(usize),
    /// A token is not a number of the form asked for.
    #[error("no number at {0}")]
    Number(usize),
    /// A number lies outside its range.
    #[error("a number out of range at {0}")]
    Range(usize),
    /// The text ended where a token must stand.
    #[error("the text ended at {0}")]
    Ended(usize),
    /// A token stands after the last one.
    #[error("more text at {0}")]
    Trailing(usize),
}
