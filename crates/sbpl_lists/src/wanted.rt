//! What must stand at a place of a file whose values stand after words, told by the words before it. No contract speaks of the
//! sentences: which one stands where is tested.

use sbpl_fixed::next_token;

/// What must stand after a word of a file.
pub struct Row {
    /// The word.
    pub word: &'static str,
    /// What must stand right after it, one token later, and so on.
    pub values: &'static [&'static str],
    /// What must stand further on.
    pub next: &'static str,
}

/// Whether a token is a word of a file: it ends with a colon.
fn is_word(token: &[u8]) -> bool {
    match token {
        [.., last] => *last == b':',
        [] => false,
    }
}

/// Whether a word is this one.
pub fn is_named(word: &[u8], name: &str) -> bool {
    word == name.as_bytes()
}

/// What stands before a place of a text.
#[derive(Clone, Copy)]
pub struct Before<'t> {
    /// The last word, empty where there is none.
    pub word: &'t [u8],
    /// The token right after it, empty where none stands before the place.
    pub value: &'t [u8],
    /// How many tokens stand between the word and the place.
    pub after: usize,
}

/// The last word of a text before a place, and what follows it.
pub fn word_before(text: &[u8], place: usize) -> Before<'_> {
    let mut word: &[u8] = &[];
    let mut value: &[u8] = &[];
    let mut after: usize = 0;
    let mut at = 0;
    while let Some(token) = next_token(text, at) {
        if token.from >= place {
            break;
        }
        let bytes = &text[token.from..token.to];
        if is_word(bytes) {
            word = bytes;
            value = &[];
            after = 0;
        } else {
            if after == 0 {
                value = bytes;
            }
            after = after.saturating_add(1);
        }
        at = token.to;
    }
    Before { word, value, after }
}

/// The token number `k`, from 0, of those between the last token of this name before a place and the place; empty where there is none.
pub fn value_before<'t>(text: &'t [u8], place: usize, name: &str, k: usize) -> &'t [u8] {
    let mut value: &[u8] = &[];
    let mut after: Option<usize> = None;
    let mut at = 0;
    while let Some(token) = next_token(text, at) {
        if token.from >= place {
            break;
        }
        let bytes = &text[token.from..token.to];
        if is_named(bytes, name) {
            value = &[];
            after = Some(0);
        } else if let Some(count) = after {
            if count == k {
                value = bytes;
            }
            after = Some(count.saturating_add(1));
        }
        at = token.to;
    }
    value
}

/// What must stand in a file with these rows after what stands before. Where none of its words does, its start is wanted.
pub fn wanted_after(rows: &[Row], start: &'static str, before: &Before) -> &'static str {
    for row in rows {
        if is_named(before.word, row.word) {
            return row.values.get(before.after).unwrap_or(&row.next);
        }
    }
    start
}

/// What must stand at a place of a text with these rows, an offset. Where none of its words stands before, its start is wanted.
pub fn wanted_at(rows: &[Row], start: &'static str, text: &[u8], place: usize) -> &'static str {
    wanted_after(rows, start, &word_before(text, place))
}
