//! Worked values, and each public call once.

use sbpl_cli::ListOf;
use sbpl_fixed::{
    NumFault, Placed, Reader, TextFault, Token, ceil_div, ceil_root, items_in_plain_words,
    next_token, numbers_are_read_by_parts, print_milli, print_nano, printed_numbers_are_read_back,
    printed_words_are_tokens, read_digits, read_milli, read_nano, read_whole,
    reading_is_what_is_said, tokens_are_longest_runs,
};

/// How a text is read.
enum Form {
    /// As a decimal, in billionths.
    Nano,
    /// As a whole number.
    Whole,
    /// As a number below 2^63, without a sign.
    Digits,
    /// As thousandths below 1500.
    Milli,
}

/// Texts, and the numbers that they are.
const NUMBERS: [(Form, &str, Result<i128, NumFault>); 30] = [
    (Form::Nano, "0.0375", Ok(37_500_000)),
    (Form::Nano, "-.5", Ok(-500_000_000)),
    (Form::Nano, "0.1234567899", Ok(123_456_789)),
    (Form::Nano, "-0.0000", Ok(0)),
    (Form::Nano, "+7.", Ok(7_000_000_000)),
    (
        Form::Nano,
        "1000000000.0000000009",
        Ok(1_000_000_000_000_000_000),
    ),
    (Form::Nano, "1e3", Err(NumFault::Form)),
    (Form::Nano, ".", Err(NumFault::Form)),
    (Form::Nano, "1.2.3", Err(NumFault::Form)),
    (Form::Nano, "9999999999", Err(NumFault::Size)),
    (Form::Whole, "+4", Ok(4)),
    (Form::Whole, "007", Ok(7)),
    (
        Form::Whole,
        "-1000000000000000000",
        Ok(-1_000_000_000_000_000_000),
    ),
    (Form::Whole, "1000000000000000001", Err(NumFault::Size)),
    (Form::Whole, "", Err(NumFault::Form)),
    (Form::Whole, "-", Err(NumFault::Form)),
    (Form::Whole, "1.0", Err(NumFault::Form)),
    (Form::Digits, "007", Ok(7)),
    (
        Form::Digits,
        "9223372036854775807",
        Ok(9_223_372_036_854_775_807),
    ),
    (Form::Digits, "9223372036854775808", Err(NumFault::Size)),
    (
        Form::Digits,
        "99999999999999999999999999999999999999999",
        Err(NumFault::Size),
    ),
    (Form::Digits, "", Err(NumFault::Form)),
    (Form::Digits, "+7", Err(NumFault::Form)),
    (Form::Milli, "01.000", Ok(1000)),
    (Form::Milli, "1.499", Ok(1499)),
    (Form::Milli, "1.500", Err(NumFault::Size)),
    (Form::Milli, ".500", Err(NumFault::Form)),
    (Form::Milli, "1.50", Err(NumFault::Form)),
    (Form::Milli, "1", Err(NumFault::Form)),
    (Form::Milli, "1.0.0", Err(NumFault::Form)),
];

/// The number that a text is.
fn number_of(form: &Form, text: &[u8]) -> Result<i128, NumFault> {
    Ok(match form {
        Form::Nano => i128::from(read_nano(text)?),
        Form::Whole => i128::from(read_whole(text)?),
        Form::Digits => i128::from(read_digits(text, 1 << 63)?),
        Form::Milli => i128::try_from(read_milli(text, 1500)?).unwrap_or(-1),
    })
}

#[test]
fn texts_are_numbers(rt: HostRuntime) {
    for (form, text, want) in &NUMBERS {
        assert!(rt; number_of(form, text.as_bytes()) == *want, "{text}");
    }
}

/// Numbers, and their roots, rounded up.
const ROOTS: [(u128, u64); 3] = [
    (1_250_000_000_000_000, 35_355_340),
    (0, 0),
    (
        85_070_591_730_234_615_865_843_651_857_942_052_864,
        9_223_372_036_854_775_808,
    ),
];

#[test]
fn roots_are_rounded_up(rt: HostRuntime) {
    for (square, root) in &ROOTS {
        assert!(rt; ceil_root(*square) == *root, "{square}");
    }
}

/// Three numbers, printed one after another.
const NUMBERS_PRINTED: &[u8] = b"-0.5000000001.500340282366920938463463374607431768211.455";

/// What is wrong with the rest.
const REST: [Option<TextFault>; 5] = [
    Some(TextFault::Word(17)),
    Some(TextFault::Range(22)),
    None,
    Some(TextFault::Ended(25)),
    Some(TextFault::Trailing(1)),
];

/// The numbers of the text, with their places.
const NATURAL: Result<Placed<u32>, TextFault> = Ok(Placed { value: 3, place: 7 });

const WHOLE: Result<Placed<i64>, TextFault> = Ok(Placed {
    value: -2,
    place: 9,
});

const NANO: Result<Placed<i64>, TextFault> = Ok(Placed {
    value: 500_000_000,
    place: 12,
});

/// Whether a word, a natural number, a whole one and a decimal are read, each with its place, and then what is wrong with the rest.
fn reads_items(reader: &mut Reader) -> bool {
    let items = (
        reader.word(b"size:"),
        reader.natural(1, 3),
        reader.whole(-2, 0),
        reader.nano(0, 500_000_000),
    );
    let faults = [
        reader.word(b"las").err(),
        reader.natural(0, 255).err(),
        reader.end().err(),
        reader.natural(0, 255).err(),
        Reader::new(b" x").end().err(),
    ];
    items == (Ok(1), NATURAL, WHOLE, NANO) && faults == REST
}

#[test]
fn laws_of_texts(_rt: HostRuntime) {
    tokens_are_longest_runs();
    numbers_are_read_by_parts();
    printed_numbers_are_read_back();
    printed_words_are_tokens();
    items_in_plain_words();
    reading_is_what_is_said::<TextFault, u8>();
}

#[test]
fn texts_are_read(rt: HostRuntime) {
    let mut reader = Reader::new(b"\tsize: 3 -2\x0b0.5\r\nlast 300");
    assert!(rt; reads_items(&mut reader));
    assert!(rt; next_token(b"ab c", 1) == Some(Token { from: 3, to: 4 }));
    assert!(rt; ceil_div(7, 3) == 3 && ceil_div(6, 3) == 2);
}

/// Whether the three numbers are printed.
fn prints_numbers(out: &mut Vec<u8>) -> bool {
    let printed = [
        print_nano(-500_000_000, out),
        print_milli(1500, out),
        print_milli(340_282_366_920_938_463_463_374_607_431_768_211_455, out),
    ];
    printed == [Ok(()); 3]
}

#[test]
fn numbers_are_printed(rt: HostRuntime) {
    let mut out = Vec::new(rt.alloc());
    let printed = prints_numbers(&mut out);
    let list = ListOf::of(out);
    let listed = list.as_slice() == NUMBERS_PRINTED;
    let out = list.into_vec();
    let kept = out.as_slice() == NUMBERS_PRINTED;
    drop(out);
    assert!(rt; printed && listed && kept);
}
