//! Numbers with four decimals.

ghost use Rattle.std.specs.Prelude.{◌≡◌, ◌+◌, ◌%◌, ◌++◌, OnOk};
ghost use Rattle.sbpl_fixed.specs.Printed.{last_digits, point_text};
ghost use Rattle.sbpl_demo.specs.Primitives.{parts_text};

use sbpl_cost::Piece::{Bytes, Number};
use sbpl_cost::{Word, push_all};
use sbpl_fixed::NoMemory;

/// A number of ten-thousandths.
#[derive(Clone, Copy)]
pub(crate) struct TenThousandths(pub(crate) i32);

/// The last digit of a number.
fn last_digit(n: u32) -> u8
    ensures digit { result ≡ 48 + n % 10 }
{
    b'0' + (n % 10) as u8
}

/// The last four digits of a number, with leading zeros.
#[tactic(auto, unfolding(sbpl_fixed::specs::Printed::last_digits))]
fn last_four_digits(n: u32) -> [u8; 4]
    ensures digits { result ≡ last_digits 4 n }
{
    let tens = n / 10;
    let hundreds = tens / 10;
    let thousands = hundreds / 10;
    [
        last_digit(thousands),
        last_digit(hundreds),
        last_digit(tens),
        last_digit(n),
    ]
}

/// Appends ten-thousandths: what stands before, the whole part, a point and four digits.
fn push_point(out: &mut Vec<u8>, before: &[u8], n: u32) -> Result<(), NoMemory>
    ensures appended { OnOk result (out.new.items ≡ out.old.items ++ (before.now ++ point_text 4 n)) }
{
    let digits = last_four_digits(n % 10_000);
    push_all(
        out,
        &[
            Bytes(before),
            Number(u64::from(n / 10_000)),
            Bytes(b"."),
            Bytes(&digits),
        ],
    )
}

impl Word for TenThousandths {
    ghost text = { λ parts. parts_text parts.0 };

    fn push(&self, out: &mut Vec<u8>) -> Result<(), NoMemory> {
        let sign: &[u8] = if self.0 < 0 { b"-" } else { b"" };
        push_point(out, sign, self.0.unsigned_abs())
    }
}
