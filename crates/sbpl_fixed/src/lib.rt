//! Tokens and numbers of SBPL's text files, in this project's profile: tokens between blanks, whole numbers, and decimals
//! in billionths; formats as data, which every reader of such a text shares; numbers printed; and rounding up.
#![tactic(auto)]

mod fault;
mod formats;
mod no_memory;
mod number;
mod placed;
mod printed;
mod reader;
mod rounding;
mod token;
mod unsigned;

pub use fault::{NumFault, TextFault};
pub use formats::{items_in_plain_words, reading_is_what_is_said};
pub use no_memory::NoMemory;
pub use number::{numbers_are_read_by_parts, read_nano, read_whole};
pub use placed::Placed;
pub use printed::{
    print_milli, print_nano, printed_numbers_are_read_back, printed_words_are_tokens,
};
pub use reader::Reader;
pub use rounding::{ceil_div, ceil_root};
pub use token::{Token, next_token, tokens_are_longest_runs};
pub use unsigned::{read_digits, read_milli, unsigned_numbers_are_their_digits};
