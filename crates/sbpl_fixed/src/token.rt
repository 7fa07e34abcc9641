//! Tokens: the longest runs of bytes of a text between blanks.

ghost use Rattle.std.specs.Prelude.{ℕ, List, ◌≡◌, ◌+◌, ◌<◌, ◌≤◌, [], ◌∷◌, true, length, drop};
ghost use Rattle.std.specs.Prelude.{MatchOption, IfSome};
ghost use Rattle.std.specs.List.{prefix_len, AllByRecursion};
ghost use Rattle.sbpl_fixed.specs.Runs.{IsLongestRun, IsOneOf, AreAbove, TokensGoOn};
ghost use Rattle.sbpl_fixed.specs.Tokens.{tokens, Piece, is_blank, is_filled, is_fresh, token_at, tokens_from, tokens_past};

/// Where a token stands in a text: the offset of its first byte, and the offset after its last.
#[derive(Clone, Copy, Debug, PartialEq, Eq)]
pub struct Token {
    /// The offset of the first byte, the token's place.
    pub from: usize,
    /// The offset after the last byte.
    pub to: usize,
}

/// Space, tab, line feed, vertical tab, form feed and carriage return separate tokens.
fn is_blank(byte: u8) -> bool
    ensures blank { result ≡ is_blank byte }
{
    byte == b' ' || byte == b'\t' || byte == b'\n' || byte == 11 || byte == 12 || byte == b'\r'
}

fn blank_front(bytes: &[u8]) -> usize
    ensures bound { result ≤ length bytes.now }
    ensures count { result ≡ prefix_len is_blank bytes.now }
{
    bytes.iter().take_while(|b| is_blank(**b)).count()
}

fn filled_front(bytes: &[u8]) -> usize
    ensures bound { result ≤ length bytes.now }
    ensures count { result ≡ prefix_len is_filled bytes.now }
{
    bytes.iter().take_while(|b| !is_blank(**b)).count()
}

/// Whether no filled byte stands right before the offset.
fn is_fresh(text: &[u8], at: usize) -> bool
    requires inside { at ≤ length text.now }
    ensures fresh { result ≡ is_fresh text.now at }
{
    at == 0 || is_blank(text[at - 1])
}

/// Where the search for a token begins: after the token that `at` is inside, if there is one.
fn search_start(text: &[u8], at: usize) -> usize
    requires inside { at ≤ length text.now }
    ensures inside { result ≤ length text.now }
    ensures after { at ≤ result }
    ensures first { tokens_from text.now at ≡ tokens_past true result (drop result text.now) }
{
    if is_fresh(text, at) {
        at
    } else {
        at + filled_front(&text[at..])
    }
}

/// The first token that begins at or after the offset `at`, or `None` where there is none.
pub fn next_token(text: &[u8], at: usize) -> Option<Token>
    requires inside { at ≤ length text.now }
    ensures inside { IfSome result (λ t. (at ≤ t.from) × (t.from < t.to) × (t.to ≤ length text.now)) }
    ensures first { MatchOption result (tokens_from text.now at ≡ [])
        (λ t. tokens_from text.now at ≡ token_at text.now t.from t.to ∷ tokens_from text.now t.to) }
{
    let start = search_start(text, at);
    let from = start + blank_front(&text[start..]);
    if from == text.len() {
        return None;
    }
    let to = from + filled_front(&text[from..]);
    Some(Token { from, to })
}

/// The tokens of a text are its longest runs of bytes between blanks, each once, in the order in which they stand. The
/// tokens from a token's end on are those that come after it.
pub fn tokens_are_longest_runs()
    ensures each { (text : List ℕ) → AllByRecursion (IsLongestRun text) (tokens text) }
    ensures all { (text : List ℕ) (t : Piece) → IsLongestRun text t → IsOneOf t (tokens text) }
    ensures order { (text : List ℕ) → AreAbove 0 (tokens text) }
    ensures on { TokensGoOn }
{}
