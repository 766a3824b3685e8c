//! Times at the front of a text, as logs have them.
ghost use Rattle.std.specs.{Prelude.{◌≡◌, ◌≤◌, ◌*◌, ◌^◌, ℕ, ℤ, None, length, option_map, IfSome, if◌then◌else◌, MatchOption}, Result.{result_ok, result_map_both}};
ghost use Rattle.civil_base.specs.DateTimes.{instant};
ghost use Rattle.zone_words.specs.{Readings.{count_at, count_in}, TimesShown.{stamp_shown}, Stamps.{joins, is_apart, near, unit_of, stamped, numbered, left_in, stamp_in, HasStamp}};

use crate::TextFault;
use crate::instant::{count_at, zoned_at};
use crate::pieces::{after_mark, number_of, split_digits};
use crate::value::{count_in, in_years, zoned_in};
use civil_base::OffsetDateTime;

/// The time at the front of a text, as logs have them, and of how many bytes its text is: `@S` or `@S.F`, a text of RFC 3339,
/// or a plain number of 9 to 11 digits as seconds, 12 to 14 as milliseconds, 15 to 17 as microseconds, 18 to 20 as nanoseconds, where
/// that lies from 1990-01-01 on and before 2060-01-01 UTC: as `20241027023000`, a date without marks, a number is seldom a time elsewhere.
/// What follows is the end of the text or a byte other than an ASCII letter, a digit, `.`, `:` and `-`. Else there is none.
pub fn read_stamp(text: &[u8]) -> Option<(OffsetDateTime, usize)>
    ensures value { option_map stamp_shown result ≡ stamp_in text.now }
    ensures exact { MatchOption result ((t : ℤ) (size : ℕ) → ¬ (HasStamp text.now t size))
        (λ x. HasStamp text.now (instant x.0) x.1) }
    ensures bound { IfSome result (λ x. x.1 ≤ length text.now) }
{
    sized(text)
}

fn sized(text: &[u8]) -> Option<(OffsetDateTime, usize)>
    ensures value { option_map stamp_shown result ≡ stamp_in text.now }
    ensures bound { IfSome result (λ x. x.1 ≤ length text.now) }
{
    let (value, left) = left_in(text)?;
    Some((value, text.len().saturating_sub(left)))
}

fn joins(byte: u8) -> bool
    ensures { result ≡ joins byte }
{
    byte.is_ascii_alphabetic()
        || byte.is_ascii_digit()
        || byte == b'.'
        || byte == b':'
        || byte == b'-'
}

/// Whether a time may end before this.
fn is_apart(text: &[u8]) -> bool
    ensures { result ≡ is_apart text.now }
{
    match text {
        [] => true,
        [first, ..] => !joins(*first),
    }
}

/// The nanoseconds that a plain number of so many digits counts.
#[tactic(auto, unfolding(crate::specs::Stamps::unit_of))]
fn unit_of(digits: usize) -> Option<u32>
    ensures { result ≡ unit_of digits }
{
    match digits {
        9..=11 => Some(1_000_000_000),
        12..=14 => Some(1_000_000),
        15..=17 => Some(1000),
        18..=20 => Some(1),
        _ => None,
    }
}

/// The value, where a time may end before what follows, and how many bytes that has.
fn apart(value: Result<OffsetDateTime, TextFault>, rest: &[u8]) -> Option<(OffsetDateTime, usize)>
    ensures { option_map stamp_shown result
        ≡ (if is_apart rest.now then option_map (λ t. (t, length rest.now)) (result_ok (result_map_both instant (λ fault. fault) value)) else None) }
{
    if !is_apart(rest) {
        return None;
    }
    match value {
        Ok(value) => Some((value, rest.len())),
        Err(_) => None,
    }
}

/// The instant of a count behind an `@`.
fn counted(text: &[u8]) -> Option<(OffsetDateTime, usize)>
    ensures { option_map stamp_shown result ≡ stamped (count_at text.now) count_in }
{
    match count_at(text) {
        Ok((form, rest)) => apart(count_in(form), rest),
        Err(_) => None,
    }
}

/// 1990-01-01 00:00:00 UTC.
const NEAR_FROM: u128 = 631_152_000_000_000_000;

/// 2060-01-01 00:00:00 UTC.
const NEAR_TO: u128 = 2_840_140_800_000_000_000;

/// The instant so many nanoseconds after 1970, if it is near.
#[tactic(auto, using(crate::proofs::StampLemmas::near_years))]
fn near(nanos: u128) -> Result<OffsetDateTime, TextFault>
    ensures { result_map_both instant (λ fault. fault) result ≡ near nanos }
{
    if nanos < NEAR_FROM || nanos >= NEAR_TO {
        return Err(TextFault::OutOfYears);
    }
    in_years(nanos as i128)
}

/// The nanoseconds of a number of units.
fn nanos_of(number: u128, unit: u32) -> u128
    requires { number ≤ 10 ^ 25 }
    ensures { result ≡ number * unit }
{
    number * u128::from(unit)
}

/// The instant of a plain number.
#[tactic(auto, unfolding(crate::specs::Stamps::numbered))]
fn numbered(text: &[u8]) -> Option<(OffsetDateTime, usize)>
    ensures { option_map stamp_shown result ≡ numbered text.now }
{
    let (digits, rest) = split_digits(text);
    let unit = unit_of(digits.len())?;
    apart(near(nanos_of(number_of(digits), unit)), rest)
}

/// The time at the front, and how many bytes follow it.
#[tactic(auto, unfolding(crate::specs::Stamps::left_in))]
fn left_in(text: &[u8]) -> Option<(OffsetDateTime, usize)>
    ensures { option_map stamp_shown result ≡ left_in text.now }
{
    if let Some(rest) = after_mark(b'@', text) {
        return counted(rest);
    }
    match zoned_at(text) {
        Ok((form, rest)) => apart(zoned_in(form), rest),
        Err(_) => numbered(text),
    }
}
