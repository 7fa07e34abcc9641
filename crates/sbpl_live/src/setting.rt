//! The settings that a line gives to a plan: pairs of a word and a value.

ghost use Rattle.std.specs.Prelude.{◌≡◌, option_map};
ghost use Rattle.sbpl_live.specs.Reading.{are_pairs, is_setting, lacks, number_given, plan_said, read_by, wants_by};
ghost use Rattle.sbpl_live.specs.Reading.{wants_in};
ghost use Rattle.sbpl_live.specs.Settings.{given, number_in, time_in, word_of};
ghost use Rattle.sbpl_job.specs.Jobs.{budget_in, milli_in};
ghost use Rattle.sbpl_map.specs.Fields.{fields};

use crate::spoken::{Spoken, Wants};
use sbpl_job::{budget_in, milli_in};
use sbpl_map::{LineFault, NumFault, first_field, lacks_form, read_nano, read_whole};

/// The least time of a plan, in nanoseconds.
const LEAST_TIME: i64 = 1_000_000;

/// The greatest time of a plan, in nanoseconds.
const MOST_TIME: i64 = 1_000_000_000_000_000;

/// A setting that a line can give to a plan.
#[derive(Clone, Copy)]
pub(crate) enum PlanSetting {
    First,
    Step,
    Bound,
    Budget,
    Seconds,
}

/// Its word.
fn word_of(setting: PlanSetting) -> &'static [u8]
    ensures word { result.now ≡ word_of setting }
{
    match setting {
        PlanSetting::First => b"first",
        PlanSetting::Step => b"step",
        PlanSetting::Bound => b"bound",
        PlanSetting::Budget => b"budget",
        PlanSetting::Seconds => b"seconds",
    }
}

/// Whether this is the word of a setting.
fn is_setting(word: &[u8]) -> bool
    ensures setting { result ≡ is_setting word.now }
{
    word == b"first".as_slice()
        || word == b"step".as_slice()
        || word == b"bound".as_slice()
        || word == b"budget".as_slice()
        || word == b"seconds".as_slice()
}

/// A value as it is read: a whole number for the budget, a decimal in billionths for the others.
fn number_in(setting: PlanSetting, text: &[u8]) -> Result<i64, NumFault>
    ensures number { result ≡ number_in setting text.now }
{
    match setting {
        PlanSetting::Budget => read_whole(text),
        PlanSetting::First | PlanSetting::Step | PlanSetting::Bound | PlanSetting::Seconds => {
            read_nano(text)
        }
    }
}

/// The value that pairs of a word and a value give to a word.
fn given<'a>(word: &[u8], line: &'a [u8]) -> Option<&'a [u8]>
    ensures value { given word.now (fields line.now) ≡ option_map (λ v. v.now) result }
{
    let mut rest = line;
    while let Some((name, after)) = first_field(rest) {
        let (value, after) = first_field(after)?;
        if name == word {
            return Some(value);
        }
        rest = after;
    }
    None
}

/// Whether the fields are pairs of a setting's word and a value, and no word stands twice.
fn are_pairs(line: &[u8]) -> bool
    ensures pairs { are_pairs (fields line.now) ≡ result }
{
    let mut rest = line;
    while let Some((word, after)) = first_field(rest) {
        let Some((_value, after)) = first_field(after) else {
            return false;
        };
        if !is_setting(word) || given(word, after).is_some() {
            return false;
        }
        rest = after;
    }
    true
}

/// The number that a line gives to a setting, as it is read.
fn number_given(setting: PlanSetting, line: &[u8]) -> Option<Result<i64, NumFault>>
    ensures number { result ≡ number_given setting (fields line.now) }
{
    match given(word_of(setting), line) {
        Some(text) => Some(number_in(setting, text)),
        None => None,
    }
}

/// Whether a value is given that does not have the form of a number.
fn lacks(number: Option<Result<i64, NumFault>>) -> bool
    ensures lacks { result ≡ lacks number }
{
    match number {
        Some(number) => lacks_form(number),
        None => false,
    }
}

/// A time in nanoseconds, 0.001 s to 1,000,000 s.
fn time_in(nano: Result<i64, NumFault>) -> Option<u64>
    ensures time { result ≡ time_in nano }
{
    match nano {
        Ok(nano) if nano >= LEAST_TIME && nano <= MOST_TIME => Some(nano as u64),
        _ => None,
    }
}

/// The thousandths that are given, if any are; `None` where they are outside their range.
fn milli_given(number: Option<Result<i64, NumFault>>, low: u32, high: u32) -> Option<Option<u32>>
    ensures milli { result ≡ read_by (milli_in low high) number }
{
    match number {
        Some(number) => Some(Some(milli_in(number, low, high)?)),
        None => Some(None),
    }
}

/// The budget that is given, if one is; `None` where it is outside its range.
fn budget_given(number: Option<Result<i64, NumFault>>) -> Option<Option<u64>>
    ensures budget { result ≡ read_by budget_in number }
{
    match number {
        Some(number) => Some(Some(budget_in(number)?)),
        None => Some(None),
    }
}

/// The time that is given, if one is; `None` where it is outside its range.
fn time_given(number: Option<Result<i64, NumFault>>) -> Option<Option<u64>>
    ensures time { result ≡ read_by time_in number }
{
    match number {
        Some(number) => Some(Some(time_in(number)?)),
        None => Some(None),
    }
}

/// The settings of these values, each of which lies in its range.
fn wants_in(
    first: Option<Option<u32>>,
    step: Option<Option<u32>>,
    bound: Option<Option<u32>>,
    budget: Option<Option<u64>>,
    seconds: Option<Option<u64>>,
) -> Result<Wants, LineFault>
    ensures wants { result ≡ wants_in first step bound budget seconds }
{
    match (first, step, bound, budget, seconds) {
        (Some(first), Some(step), Some(bound), Some(budget), Some(seconds)) => Ok(Wants {
            first,
            step,
            bound,
            budget,
            seconds,
        }),
        _ => Err(LineFault::Range),
    }
}

/// The settings of these numbers: each must be a number, and then in its range.
fn wants_by(
    first: Option<Result<i64, NumFault>>,
    step: Option<Result<i64, NumFault>>,
    bound: Option<Result<i64, NumFault>>,
    budget: Option<Result<i64, NumFault>>,
    seconds: Option<Result<i64, NumFault>>,
) -> Result<Wants, LineFault>
    ensures wants { result ≡ wants_by first step bound budget seconds }
{
    if lacks(first) || lacks(step) || lacks(bound) || lacks(budget) || lacks(seconds) {
        return Err(LineFault::Number);
    }
    wants_in(
        milli_given(first, 1000, 100_000),
        milli_given(step, 1, 99_000),
        milli_given(bound, 1000, 100_000),
        budget_given(budget),
        time_given(seconds),
    )
}

/// The plan of the fields after its word.
pub(crate) fn planned(line: &[u8]) -> Result<Spoken, LineFault>
    ensures said { result ≡ plan_said (fields line.now) }
{
    if !are_pairs(line) {
        return Err(LineFault::Word);
    }
    let wants = wants_by(
        number_given(PlanSetting::First, line),
        number_given(PlanSetting::Step, line),
        number_given(PlanSetting::Bound, line),
        number_given(PlanSetting::Budget, line),
        number_given(PlanSetting::Seconds, line),
    )?;
    Ok(Spoken::Plan(wants))
}
