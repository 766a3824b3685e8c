//! Instants as whole texts.
ghost use Rattle.std.specs.{Prelude.{◌≡◌, ◌≤◌, ◌^◌, pos, Option, ℤ, IfOk, MatchResult}, Result.{result_map_both}};
ghost use Rattle.zone_words.specs.{TimesShown.{asked, IsAtUtc}, Spells.{SpellsAsked}, Readings.{told_as, zoned_at, size_at, count_at, counted_in, written_in, is_count, instant_cause, instant_in, asked_in}};
ghost use Rattle.civil_base.specs.DateTimes.{instant, offset_of};

use crate::TextFault;
use crate::form::{WrittenCount, WrittenInstant};
use crate::local::{fraction_at, front_at, seconds_at};
use crate::pieces::{after_mark, number_of, offset_at, split_digits};
use crate::value::{count_in, zoned_in};
use civil_base::OffsetDateTime;

/// The time that a text asks for.
#[derive(Clone, Copy, Debug)]
pub enum Asked {
    /// The instant at which it is asked.
    Now,
    /// This one, at UTC.
    At(OffsetDateTime),
}

/// The parts of a text of RFC 3339 at the front.
#[tactic(auto, unfolding(crate::specs::Readings::zoned_at))]
pub(crate) fn zoned_at(text: &[u8]) -> Result<(WrittenInstant, &[u8]), TextFault>
    ensures { told_as result ≡ zoned_at text.now }
{
    let ((date, time), rest) = front_at(text)?;
    let (time, rest) = seconds_at(time, rest)?;
    let Some((offset, rest)) = offset_at(rest) else {
        return Err(TextFault::OffsetMissing);
    };
    Ok((WrittenInstant { date, time, offset }, rest))
}

/// A number of seconds and maybe a fraction.
#[tactic(auto, unfolding(crate::specs::Readings::size_at))]
fn size_at(before: bool, text: &[u8]) -> Result<(WrittenCount, &[u8]), TextFault>
    ensures value { told_as result ≡ size_at before text.now }
    ensures bound { IfOk result (λ x. x.0.seconds ≤ 10 ^ 25) }
{
    let (digits, rest) = split_digits(text);
    if digits.is_empty() {
        return Err(TextFault::CountMissing);
    }
    let (nanosecond, rest) = fraction_at(rest)?;
    let count = WrittenCount {
        before,
        seconds: number_of(digits),
        nanosecond,
    };
    Ok((count, rest))
}

/// A number of seconds behind a `-` or not.
#[tactic(auto, unfolding(crate::specs::Readings::count_at))]
pub(crate) fn count_at(text: &[u8]) -> Result<(WrittenCount, &[u8]), TextFault>
    ensures value { told_as result ≡ count_at text.now }
    ensures bound { IfOk result (λ x. x.0.seconds ≤ 10 ^ 25) }
{
    match after_mark(b'-', text) {
        Some(rest) => size_at(true, rest),
        None => size_at(false, text),
    }
}

/// The instant of a whole count.
#[tactic(auto, unfolding(crate::specs::Readings::counted_in))]
fn counted_in(text: &[u8]) -> Result<OffsetDateTime, TextFault>
    ensures value { result_map_both instant (λ fault. fault) result ≡ counted_in text.now }
    ensures utc { IfOk result (λ value. offset_of value ≡ pos 0) }
{
    let (form, rest) = count_at(text)?;
    if !rest.is_empty() {
        return Err(TextFault::Trailing);
    }
    count_in(form)
}

/// The instant of a whole text of RFC 3339.
#[tactic(auto, unfolding(crate::specs::Readings::written_in))]
fn written_in(text: &[u8]) -> Result<OffsetDateTime, TextFault>
    ensures value { result_map_both instant (λ fault. fault) result ≡ written_in text.now }
    ensures utc { IfOk result (λ value. offset_of value ≡ pos 0) }
{
    let (form, rest) = zoned_at(text)?;
    if !rest.is_empty() {
        return Err(TextFault::Trailing);
    }
    zoned_in(form)
}

/// Whether a whole text is a count.
fn is_count(text: &[u8]) -> bool
    ensures { result ≡ is_count text.now }
{
    match count_at(text) {
        Ok((_, rest)) => rest.is_empty(),
        Err(_) => false,
    }
}

/// Why a text is no instant that has this fault as a text of RFC 3339.
fn instant_cause(text: &[u8], fault: TextFault) -> TextFault
    ensures { result ≡ instant_cause text.now fault }
{
    match fault {
        TextFault::DateMissing => {
            if is_count(text) {
                TextFault::MarkMissing
            } else {
                TextFault::DateMissing
            }
        }
        TextFault::TimeMissing => TextFault::ClockMissing,
        _ => fault,
    }
}

/// The instant that a whole text is.
#[tactic(auto, unfolding(crate::specs::Readings::instant_in))]
fn instant_in(text: &[u8]) -> Result<OffsetDateTime, TextFault>
    ensures value { result_map_both instant (λ fault. fault) result ≡ instant_in text.now }
    ensures utc { IfOk result (λ value. offset_of value ≡ pos 0) }
{
    match after_mark(b'@', text) {
        Some(rest) => counted_in(rest),
        None => match written_in(text) {
            Ok(value) => Ok(value),
            Err(fault) => Err(instant_cause(text, fault)),
        },
    }
}

/// The time that the whole text asks for: `now`; `@` and seconds since 1970 UTC, maybe below zero, and maybe a point and one
/// to nine digits; or a text of RFC 3339, such as `2024-10-27T02:30:00+02:00`, with `T`, `t` or a space before the time and
/// `Z`, `z` or an offset after it.
///
/// # Errors
///
/// Behind an `@` the first that holds of: `CountMissing`, `FractionMissing`, `TooFine`, `Trailing`, `OutOfYears`. Else the
/// first of: `MarkMissing`, `DateMissing`, `HourShort`, `ClockMissing`, `SecondMissing`, `FractionMissing`, `TooFine`, `OffsetMissing`,
/// `Trailing`, `NoSuchDate`, `NoSuchTime`, `OffsetRange`, `OutOfYears`.
pub fn read_instant(text: &str) -> Result<Asked, TextFault>
    ensures value { result_map_both asked (λ fault. fault) result ≡ asked_in text.now }
    ensures exact { MatchResult result (λ value. SpellsAsked text.now (asked value)) (λ _. (t : Option ℤ) → ¬ (SpellsAsked text.now t)) }
    ensures utc { IfOk result IsAtUtc }
{
    asked_for(text)
}

/// The same.
#[tactic(auto, unfolding(crate::specs::Readings::asked_in))]
fn asked_for(text: &str) -> Result<Asked, TextFault>
    ensures value { result_map_both asked (λ fault. fault) result ≡ asked_in text.now }
    ensures utc { IfOk result IsAtUtc }
{
    if text == "now" {
        return Ok(Asked::Now);
    }
    let value = instant_in(text.as_bytes())?;
    Ok(Asked::At(value))
}
