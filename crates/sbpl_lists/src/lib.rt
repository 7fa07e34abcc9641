//! What grows, as contracts see it: lists, tables of lists, flags, texts made of pieces, and messages on the faults of texts.
#![tactic(auto)]

mod bits;
mod line;
mod list_of;
mod message;
mod number;
mod piece;
mod place;
mod runs;
mod wanted;

pub use bits::Bits;
pub use line::{Word, push_line, push_lines, push_words};
pub use list_of::ListOf;
pub use message::{Message, message_at, message_on_line, plain_message};
pub use number::{push_bytes, push_field, push_number};
pub use piece::{Piece, push_all};
pub use place::{filled_at, line_and_column};
pub use runs::Runs;
pub use wanted::{Before, Row, is_named, value_before, wanted_after, wanted_at, word_before};
