//! Texts that the tests make.

use std::alloc::AllocError;

/// Appends a text whose line `at`, counted from 0, is another one.
pub(crate) fn put_altered(
    text: &mut String,
    whole: &str,
    at: usize,
    other: &str,
) -> Result<(), AllocError> {
    for (i, line) in whole.lines().enumerate() {
        text.push_str(if i == at { other } else { line })?;
        text.push('\n')?;
    }
    Ok(())
}

/// Whether a text was made, and is this one.
pub(crate) fn reads(made: Result<String, AllocError>, want: &str) -> bool {
    match made {
        Ok(text) => text.as_str() == want,
        Err(_) => false,
    }
}
