//! Local times as whole texts.
ghost use Rattle.std.specs.{Prelude.{◌≡◌, ◌≤◌, ℤ, length, true, MatchResult}, Char.{is_ascii_digit}, List.{list_all}};
ghost use Rattle.zone_words.specs.{Numbers.{fraction_of}, Spells.{SpellsLocal}, Readings.{told_as, digits_at, fraction_at, time_cause, front_at, seconds_at, after_time, local_in}};

use crate::TextFault;
use crate::form::{WrittenDate, WrittenTime};
use crate::pieces::{
    after_mark, date_at, minute_at, number_of, offset_at, second_at, separator_at, split_digits,
};
use crate::value::moment_in;
use civil_base::PlainDateTime;

/// The nanoseconds of one to nine digits of a fraction.
#[tactic(auto, using(crate::proofs::NumberLemmas::fraction_below))]
fn fraction_of(digits: &[u8]) -> u32
    requires length { length digits.now ≤ 9 }
    requires digits { list_all is_ascii_digit digits.now ≡ true }
    ensures { result ≡ fraction_of digits.now }
{
    number_of(digits) as u32 * 10_u32.pow(9 - digits.len() as u32)
}

/// The nanoseconds of the digits at the front.
#[tactic(auto, unfolding(crate::specs::Readings::digits_at))]
fn digits_at(text: &[u8]) -> Result<(u32, &[u8]), TextFault>
    ensures { told_as result ≡ digits_at text.now }
{
    let (digits, rest) = split_digits(text);
    if digits.is_empty() {
        return Err(TextFault::FractionMissing);
    }
    if digits.len() > 9 {
        return Err(TextFault::TooFine);
    }
    Ok((fraction_of(digits), rest))
}

/// The nanoseconds of a point and digits, or 0.
#[tactic(auto, unfolding(crate::specs::Readings::fraction_at))]
pub(crate) fn fraction_at(text: &[u8]) -> Result<(u32, &[u8]), TextFault>
    ensures { told_as result ≡ fraction_at text.now }
{
    match after_mark(b'.', text) {
        Some(rest) => digits_at(rest),
        None => Ok((0, text)),
    }
}

/// What a text lacks that is to begin with an hour and a minute.
fn time_cause(text: &[u8]) -> TextFault
    ensures { result ≡ time_cause text.now }
{
    match text {
        [first, second, ..] => {
            if first.is_ascii_digit() && *second == b':' {
                TextFault::HourShort
            } else {
                TextFault::TimeMissing
            }
        }
        _ => TextFault::TimeMissing,
    }
}

/// A date, a separator, an hour and a minute.
#[tactic(auto, unfolding(crate::specs::Readings::front_at))]
pub(crate) fn front_at(text: &[u8]) -> Result<((WrittenDate, WrittenTime), &[u8]), TextFault>
    ensures { told_as result ≡ front_at text.now }
{
    let Some((date, rest)) = date_at(text) else {
        return Err(TextFault::DateMissing);
    };
    let Some(rest) = separator_at(rest) else {
        return Err(TextFault::TimeMissing);
    };
    let Some(((hour, minute), rest)) = minute_at(rest) else {
        return Err(time_cause(rest));
    };
    let time = WrittenTime {
        hour,
        minute,
        second: 0,
        nanosecond: 0,
    };
    Ok(((date, time), rest))
}

/// The second of the time, and maybe a fraction.
#[tactic(auto, unfolding(crate::specs::Readings::seconds_at))]
pub(crate) fn seconds_at(time: WrittenTime, text: &[u8]) -> Result<(WrittenTime, &[u8]), TextFault>
    ensures { told_as result ≡ seconds_at time text.now }
{
    let Some((second, rest)) = second_at(text) else {
        return Err(TextFault::SecondMissing);
    };
    let (nanosecond, rest) = fraction_at(rest)?;
    let WrittenTime { hour, minute, .. } = time;
    let time = WrittenTime {
        hour,
        minute,
        second,
        nanosecond,
    };
    Ok((time, rest))
}

/// What is wrong where this follows a local time.
fn after_time(text: &[u8]) -> TextFault
    ensures { result ≡ after_time text.now }
{
    if offset_at(text).is_some() {
        TextFault::OffsetThere
    } else {
        TextFault::Trailing
    }
}

/// The date and time that the whole text spells: `YYYY-MM-DD hh:mm`, maybe `:ss`, and then maybe a point and one to nine
/// digits. Between date and time stands a space, a `T` or a `t`.
///
/// # Errors
///
/// The first that holds of: `DateMissing`, `HourShort`, `TimeMissing`, `SecondMissing`, `FractionMissing`, `TooFine`, `OffsetThere`,
/// `Trailing`, `NoSuchDate`, `NoSuchTime`.
pub fn read_local(text: &str) -> Result<PlainDateTime, TextFault>
    ensures value { result ≡ local_in text.now }
    ensures exact { MatchResult result (SpellsLocal text.now) (λ _. (x : ℤ) → ¬ (SpellsLocal text.now x)) }
{
    local_of(text.as_bytes())
}

/// The same.
#[tactic(auto, unfolding(crate::specs::Readings::local_in))]
fn local_of(text: &[u8]) -> Result<PlainDateTime, TextFault>
    ensures { result ≡ local_in text.now }
{
    let ((date, time), rest) = front_at(text)?;
    let (time, rest) = if after_mark(b':', rest).is_some() {
        seconds_at(time, rest)?
    } else {
        (time, rest)
    };
    if !rest.is_empty() {
        return Err(after_time(rest));
    }
    moment_in(date, time)
}
