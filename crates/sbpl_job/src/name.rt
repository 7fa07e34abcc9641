//! Names of files.

ghost use Rattle.std.specs.Prelude.{◌≡◌, ℕ, List, IfOk, string_bytes};

use std::alloc::{AllocError, Global};
use std::marker::Model;

/// The name of a file or an output, which contracts see as its bytes.
#[derive(Debug, Drop)]
pub struct Name {
    text: String,
}

impl Model for Name {
    ghost Value = { List ℕ };

    ghost view = { λ name. string_bytes name.text };
}

impl Name {
    /// The name that this word is.
    pub fn of(alloc: Global, word: &str) -> Result<Name, AllocError>
        ensures name { IfOk result (λ name. name ≡ word.now) }
    {
        Ok(Name {
            text: String::from_str(alloc, word)?,
        })
    }

    /// The name as text.
    pub fn as_str(&self) -> &str
        ensures name { result.now ≡ self.now }
    {
        self.text.as_str()
    }
}
