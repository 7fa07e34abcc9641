//! Whole numbers and decimals are read from tokens.

ghost use Rattle.std.specs.Prelude.{◌≡◌, ◌+◌, ◌*◌, ◌^◌, ◌<◌, ◌≤◌, true, min, length, slice_index_or};
ghost use Rattle.std.specs.List.{prefix_len};
ghost use Rattle.sbpl_fixed.specs.Numbers.{all_digits, decimals_part, is_digit, is_minus, is_no_point, most, nano_of};
ghost use Rattle.sbpl_fixed.specs.Numbers.{nine_decimals, number_of, signed, sized, whole_of, whole_part, without_sign};
ghost use Rattle.sbpl_fixed.specs.NumberForms.{WholesHaveValues, NoOthersAreWhole, DecimalsHaveValues, NoOthersAreDecimals};
ghost use Rattle.sbpl_fixed.specs.NumberForms.{MissingDecimalsAreZeros, DigitsWriteNumbers};

use crate::fault::NumFault;

/// The greatest absolute value of a number that is read.
const MOST: u64 = 1_000_000_000_000_000_000;

fn is_digit(byte: u8) -> bool
    ensures digit { result ≡ is_digit byte }
{
    byte >= b'0' && byte <= b'9'
}

pub(crate) fn all_digits(bytes: &[u8]) -> bool
    ensures digits { result ≡ all_digits bytes.now }
{
    bytes.iter().all(|b| is_digit(*b))
}

fn is_minus(text: &[u8]) -> bool
    ensures minus { result ≡ is_minus text.now }
{
    match text {
        [first, ..] => *first == b'-',
        [] => false,
    }
}

fn without_sign(text: &[u8]) -> &[u8]
    ensures unsigned { result.now ≡ without_sign text.now }
{
    match text {
        [first, rest @ ..] if *first == b'+' || *first == b'-' => rest,
        _ => text,
    }
}

/// The number that digits write, or `cap` where that is less.
fn capped_number(digits: &[u8], cap: u64) -> u64
    requires digits { all_digits digits.now ≡ true }
    requires cap { cap ≤ 10 ^ 18 + 1 }
    ensures number { result ≡ min cap (number_of digits.now) }
{
    let mut value: u64 = 0;
    for digit in digits {
        let longer = value * 10 + u64::from(*digit - b'0');
        value = if longer < cap { longer } else { cap };
    }
    value
}

/// A number with its sign, or `Size` where it is above `10^18`.
fn sized(minus: bool, number: u64) -> Result<i64, NumFault>
    ensures value { result ≡ sized minus number }
{
    if number > MOST {
        return Err(NumFault::Size);
    }
    let value = number as i64;
    Ok(if minus { -value } else { value })
}

/// Reads a whole number: a plus, a minus or no sign, and one digit or more.
/// `Form` where the text is not such a number, `Size` where it is one and its absolute value is above `10^18`.
#[tactic(auto, unfolding(crate::specs::Numbers::whole_of))]
pub fn read_whole(text: &[u8]) -> Result<i64, NumFault>
    ensures value { result ≡ whole_of text.now }
{
    let body = without_sign(text);
    if body.is_empty() || !all_digits(body) {
        return Err(NumFault::Form);
    }
    sized(is_minus(text), capped_number(body, MOST + 1))
}

fn digit_or_zero(digits: &[u8], index: usize) -> u8
    ensures digit { result ≡ slice_index_or digits.now index 48 }
{
    match digits.get(index) {
        Some(digit) => *digit,
        None => b'0',
    }
}

fn nine_decimals(ds: &[u8]) -> [u8; 9]
    ensures decimals { result ≡ nine_decimals ds.now }
{
    [
        digit_or_zero(ds, 0),
        digit_or_zero(ds, 1),
        digit_or_zero(ds, 2),
        digit_or_zero(ds, 3),
        digit_or_zero(ds, 4),
        digit_or_zero(ds, 5),
        digit_or_zero(ds, 6),
        digit_or_zero(ds, 7),
        digit_or_zero(ds, 8),
    ]
}

/// The first nine decimals as a number.
#[tactic(auto, using(crate::proofs::Digits::nine_digits, crate::proofs::Digits::nine_below))]
fn billionths(decimals: &[u8]) -> u64
    requires digits { all_digits decimals.now ≡ true }
    ensures number { result ≡ number_of (nine_decimals decimals.now) }
    ensures bound { result < 10 ^ 9 }
{
    let nine = nine_decimals(decimals);
    capped_number(&nine, 1_000_000_000)
}

/// How many bytes stand before the first point, or all.
fn whole_len(body: &[u8]) -> usize
    ensures bound { result ≤ length body.now }
    ensures count { result ≡ prefix_len is_no_point body.now }
{
    body.iter().take_while(|b| **b != b'.').count()
}

/// A text split at its first point.
pub(crate) fn parts(body: &[u8]) -> (&[u8], &[u8])
    ensures whole { result.0.now ≡ whole_part body.now }
    ensures decimals { result.1.now ≡ decimals_part body.now }
{
    let point = whole_len(body);
    if point == body.len() {
        return (body, &[]);
    }
    (&body[..point], &body[point + 1..])
}

/// Reads a decimal, in billionths: a plus, a minus or no sign, then digits with at most one point among, before or
/// after them, and at least one digit. Digits after the ninth decimal are dropped, so that it is cut toward zero (this
/// project's profile).
/// `Form` where the text is not a decimal, `Size` where it is one and its absolute value in billionths is above `10^18`.
#[tactic(auto, using(crate::proofs::Digits::sized_nano_capped), unfolding(crate::specs::Numbers::nano_of))]
pub fn read_nano(text: &[u8]) -> Result<i64, NumFault>
    ensures value { result ≡ nano_of text.now }
{
    let (whole, decimals) = parts(without_sign(text));
    if whole.len() + decimals.len() == 0 || !all_digits(whole) || !all_digits(decimals) {
        return Err(NumFault::Form);
    }
    let number = capped_number(whole, 1_000_000_001) * 1_000_000_000 + billionths(decimals);
    sized(is_minus(text), number)
}

/// What is read as a number: each text of the form asked for, as the value of its sign and its digits, and no other text.
/// A decimal's value is that of its whole part and its first nine decimals, where missing ones count as zeros.
pub fn numbers_are_read_by_parts()
    ensures wholes { WholesHaveValues }
    ensures other_wholes { NoOthersAreWhole }
    ensures decimals { DecimalsHaveValues }
    ensures other_decimals { NoOthersAreDecimals }
    ensures missing { MissingDecimalsAreZeros }
    ensures digits { DigitsWriteNumbers }
{}
