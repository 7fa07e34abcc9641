//! Numbers without a sign are read from tokens.

ghost use Rattle.std.specs.Prelude.{◌≡◌, ◌^◌, ◌<◌, ◌≤◌, true, min, IfOk};
ghost use Rattle.sbpl_fixed.specs.Numbers.{all_digits, number_of};
ghost use Rattle.sbpl_fixed.specs.Unsigned.{NumbersAreTheirDigits, digits_of, milli_of};

use crate::fault::NumFault;
use crate::number::{all_digits, parts};

/// The number that digits write, or `cap` where that is less.
fn capped_digits(digits: &[u8], cap: u128) -> u128
    requires digits { all_digits digits.now ≡ true }
    requires cap { cap ≤ 2 ^ 100 }
    ensures number { result ≡ min cap (number_of digits.now) }
{
    let mut value: u128 = 0;
    for digit in digits {
        let longer = value * 10 + u128::from(*digit - b'0');
        value = if longer < cap { longer } else { cap };
    }
    value
}

/// Reads a number without a sign that is below `end`: one or more digits and no other byte. `Form` where the text is not such a
/// number, `Size` where it is one and is `end` or more.
#[tactic(auto, unfolding(crate::specs::Unsigned::digits_of))]
pub fn read_digits(text: &[u8], end: u64) -> Result<u64, NumFault>
    ensures value { result ≡ digits_of end text.now }
    ensures below { IfOk result (λ n. n < end) }
{
    if text.is_empty() || !all_digits(text) {
        return Err(NumFault::Form);
    }
    let number = capped_digits(text, u128::from(end));
    if number >= u128::from(end) {
        return Err(NumFault::Size);
    }
    Ok(number as u64)
}

/// Reads a number of thousandths that is below `end`: one digit or more, a point and three digits. `Form` where the text is
/// not such a number, `Size` where it is one and its thousandths are `end` or more.
#[tactic(auto, using(crate::proofs::Digits::three_below), unfolding(crate::specs::Unsigned::milli_of))]
pub fn read_milli(text: &[u8], end: u128) -> Result<u128, NumFault>
    requires small { end ≤ 2 ^ 100 }
    ensures value { result ≡ milli_of end text.now }
{
    let (whole, decimals) = parts(text);
    if whole.is_empty() || !all_digits(whole) || !all_digits(decimals) || decimals.len() != 3 {
        return Err(NumFault::Form);
    }
    let number = capped_digits(whole, end) * 1000 + capped_digits(decimals, 1000);
    if number >= end {
        return Err(NumFault::Size);
    }
    Ok(number)
}

/// What is read as a number without a sign: each text of the form asked for, as the value of its digits, and no other text.
/// What is printed as such a number is one token, and is read back as the same value.
pub fn unsigned_numbers_are_their_digits()
    ensures law { NumbersAreTheirDigits }
{}
