//! A file of labels that was read.

use sbpl_worlds::Name;

/// A file of labels: its name, and its bytes.
#[derive(Clone, Copy)]
pub struct LabelFile<'a> {
    pub name: &'a Name,
    pub text: &'a [u8],
}
