//! The lines of a text, and their fields.

ghost use Rattle.std.specs.Prelude.{◌≡◌, ◌<◌, ◌≤◌, [], ◌∷◌, length, MatchOption};
ghost use Rattle.std.specs.List.{prefix_len};
ghost use Rattle.std.specs.Str.Lines.{lines, strip_carriage_return};
ghost use Rattle.sbpl_map.specs.Fields.{fields, is_parting, is_in_field, is_in_line};

/// How many bytes stand before the first line feed, or all.
fn line_len(text: &[u8]) -> usize
    ensures bound { result ≤ length text.now }
    ensures count { result ≡ prefix_len is_in_line text.now }
{
    text.iter().take_while(|b| **b != b'\n').count()
}

/// A line before a line feed without the carriage return at its end, if there is one.
fn without_return(line: &[u8]) -> &[u8]
    ensures line { result.now ≡ strip_carriage_return line.now }
{
    match line {
        [front @ .., last] if *last == b'\r' => front,
        _ => line,
    }
}

/// The first line of a text, without what ends it, and the text after it. One carriage return before the line feed is
/// dropped, and none where no line feed ends the line.
pub(crate) fn first_line(text: &[u8]) -> (&[u8], &[u8])
    requires some { 0 < length text.now }
    ensures lines { lines text.now ≡ result.0.now ∷ lines result.1.now }
    ensures shorter { length result.1.now < length text.now }
{
    let end = line_len(text);
    if end == text.len() {
        return (text, &[]);
    }
    (without_return(&text[..end]), &text[end + 1..])
}

/// Spaces and tabs separate fields.
fn is_parting(byte: u8) -> bool
    ensures parting { result ≡ is_parting byte }
{
    byte == b' ' || byte == b'\t'
}

fn parting_len(line: &[u8]) -> usize
    ensures bound { result ≤ length line.now }
    ensures count { result ≡ prefix_len is_parting line.now }
{
    line.iter().take_while(|b| is_parting(**b)).count()
}

fn field_len(line: &[u8]) -> usize
    ensures bound { result ≤ length line.now }
    ensures count { result ≡ prefix_len is_in_field line.now }
{
    line.iter().take_while(|b| !is_parting(**b)).count()
}

/// The first field of a line and what stands after it, or `None` where there is no field. Spaces and tabs separate fields.
pub fn first_field(line: &[u8]) -> Option<(&[u8], &[u8])>
    ensures first { MatchOption result (fields line.now ≡ []) (λ x. fields line.now ≡ x.0.now ∷ fields x.1.now) }
{
    let start = &line[parting_len(line)..];
    if start.is_empty() {
        return None;
    }
    let end = field_len(start);
    Some((&start[..end], &start[end..]))
}
