//! Numbers in fixed point are printed at the end of a text.

ghost use Rattle.std.specs.Prelude.{◌≡◌, ◌+◌, ◌-◌, ◌^◌, ◌<◌, ◌≤◌, ◌++◌, ◌∷◌, length, drop};
ghost use Rattle.std.specs.Prelude.{OnOk, OnErr, decimal, slice_set};
ghost use Rattle.sbpl_fixed.specs.Printed.{last_digits, milli_text, nano_text, point_text};
ghost use Rattle.sbpl_fixed.specs.ReadBack.{NanosAreReadBack, MillisAreReadBack, WholesAreReadBack, NanosAreWords};
ghost use Rattle.sbpl_fixed.specs.ReadBack.{WholesAreWords, WordsAreTokens, LastWordsAreTokens, BlanksPartTokens};

use crate::no_memory::NoMemory;

/// Room for the longest text: 39 digits, a point, nine digits and a sign.
const ROOM: usize = 64;

/// Writes a byte before the offset `at`.
fn byte_before(buffer: &mut [u8], at: usize, byte: u8) -> usize
    requires room { 0 < at }
    requires inside { at ≤ length buffer.old }
    ensures place { result + 1 ≡ at }
    ensures text { drop result buffer.new ≡ byte ∷ drop at buffer.old }
{
    buffer[at - 1] = byte;
    at - 1
}

/// Writes the digits of `n` before the offset `at`, and answers where they begin.
fn decimal_before(buffer: &mut [u8], at: usize, n: u128) -> usize
    requires room { 39 < at }
    requires small { n < 10 ^ 39 }
    requires inside { at ≤ length buffer.old }
    ensures low { at ≤ result + 39 }
    ensures high { result < at }
    ensures text { drop result buffer.new ≡ decimal n ++ drop at buffer.old }
{
    let mut rest = n;
    let mut begin = at;
    while rest >= 10 {
        begin = byte_before(buffer, begin, b'0' + (rest % 10) as u8);
        rest /= 10;
    }
    byte_before(buffer, begin, b'0' + rest as u8)
}

/// Writes the last `count` digits of `n` before the offset `at`, and answers where they begin.
fn last_digits_before(buffer: &mut [u8], at: usize, count: usize, n: u32) -> usize
    requires room { count ≤ at }
    requires inside { at ≤ length buffer.old }
    ensures place { result + count ≡ at }
    ensures text { drop result buffer.new ≡ last_digits count n ++ drop at buffer.old }
{
    let mut rest = n;
    let mut begin = at;
    for _ in 0..count {
        begin = byte_before(buffer, begin, b'0' + (rest % 10) as u8);
        rest /= 10;
    }
    begin
}

/// Writes a whole part, a point and the last `count` digits of `parts` at the end of the buffer, and answers where they
/// begin.
fn point_before(buffer: &mut [u8], whole: u128, count: usize, parts: u32) -> usize
    requires room { count < 10 }
    requires inside { length buffer.old ≡ 64 }
    requires small { whole < 10 ^ 39 }
    ensures sign { 0 < result }
    ensures inside { result < length buffer.new }
    ensures text { drop result buffer.new ≡ decimal whole ++ 46 ∷ last_digits count parts }
{
    let end = buffer.len();
    let begin = last_digits_before(buffer, end, count, parts);
    let begin = byte_before(buffer, begin, b'.');
    decimal_before(buffer, begin, whole)
}

/// Appends a number of thousandths: the whole part, a point and three digits.
/// After `NoMemory` the text is unchanged.
pub fn print_milli(value: u128, out: &mut Vec<u8>) -> Result<(), NoMemory>
    ensures ok { OnOk result (out.new.items ≡ out.old.items ++ milli_text value) }
    ensures err { OnErr result (out.new.items ≡ out.old.items) }
{
    let mut buffer = [0; ROOM];
    let begin = point_before(&mut buffer, value / 1000, 3, (value % 1000) as u32);
    out.extend_from_slice(&buffer[begin..])?;
    Ok(())
}

/// Appends a number of billionths: a minus where it is below zero, the whole part, a point and nine digits.
/// After `NoMemory` the text is unchanged.
pub fn print_nano(value: i64, out: &mut Vec<u8>) -> Result<(), NoMemory>
    ensures ok { OnOk result (out.new.items ≡ out.old.items ++ nano_text value) }
    ensures err { OnErr result (out.new.items ≡ out.old.items) }
{
    let mut buffer = [0; ROOM];
    let size = value.unsigned_abs();
    let parts = (size % 1_000_000_000) as u32;
    let begin = point_before(&mut buffer, u128::from(size / 1_000_000_000), 9, parts);
    let begin = if value < 0 {
        byte_before(&mut buffer, begin, b'-')
    } else {
        begin
    };
    out.extend_from_slice(&buffer[begin..])?;
    Ok(())
}

/// What is printed is read back as the same value: numbers in fixed point, and whole numbers as std writes them.
pub fn printed_numbers_are_read_back()
    ensures nanos { NanosAreReadBack }
    ensures millis { MillisAreReadBack }
    ensures wholes { WholesAreReadBack }
{}

/// What is printed is one token: a number, and each word before a blank or at the end of a text.
pub fn printed_words_are_tokens()
    ensures nanos { NanosAreWords }
    ensures wholes { WholesAreWords }
    ensures words { WordsAreTokens }
    ensures last { LastWordsAreTokens }
    ensures blanks { BlanksPartTokens }
{}
