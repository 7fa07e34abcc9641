//! Label texts, and the checker that needs to trust nobody: whether labels show what a plan answered.
#![tactic(auto)]

mod checking;
mod cutting;
mod fault;
mod first;
mod flaw;
mod label_set;
mod label_table;
mod laws;
mod making;
mod message;
mod outcome;
mod reading;
mod row;
mod section;
mod sparse_row;
mod sparse_set;
mod text;
mod writing;

pub use checking::{check, check_sparse};
pub use cutting::cut;
pub use fault::LabelFault;
pub use first::first_flaws_are_one;
pub use flaw::Flaw;
pub use label_set::{Arcs, LabelSet, Rows};
pub use laws::{cut_labels_show, cut_rows_are_one};
pub use making::{section_of, sparse_section_of};
pub use message::labels_message;
pub use outcome::Outcome;
pub use reading::read_labels;
pub use row::Row;
pub use sbpl_lists::{Piece, push_all, push_bytes};
pub use section::Section;
pub use sparse_row::SparseRow;
pub use sparse_set::{SparseRows, SparseSet};
pub use text::texts_are_sections_or_faulty;
pub use writing::{write_labels, write_sparse};
