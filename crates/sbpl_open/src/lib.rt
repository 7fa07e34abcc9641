//! The open states of a search with their keys, the least key first.
#![tactic(auto)]

mod ends;
mod entry;
mod key;
mod open;
mod sift;

pub use entry::Entry;
pub use key::Key;
pub use open::Open;
pub use sbpl_pages::Paged;
