//! The values of a line's columns, numbers and times, where they take no pattern.
ghost use Rattle.std.specs.Prelude.{◌≡◌, ◌<◌, IfSome, option_map};
ghost use Rattle.zone_line.specs.{Digits.{digit_of, two_digits}, Fields.{to_field, type_field, letters_of, after_last, day_numbered, day_of_month, is_ruleset_name}, Times.{no_time, hours_alone, is_bare, signed, clock_type, clock_time, if_wall}};
ghost use Rattle.zone_line.specs.Shown.{clock_shown};
ghost use Rattle.zone_table.specs.Faults.{told};

use crate::columns::ClockColumns;
use basics::{i8_in, is_numeral};
use zone_table::{Fault, FaultKind, TimeSpec, TimeSpecAndType, TimeType, Year};

/// The value of one or two ASCII digits.
#[tactic(auto, unfolding(crate::specs::Digits::two_digits))]
pub(crate) fn two_digits(text: &str) -> Option<u8>
    ensures value { result ≡ two_digits text.now }
    ensures bound { IfSome result (λ number. number < 100) }
{
    match text.as_bytes() {
        [ones] => digit(*ones),
        [tens, ones] => Some(10 * digit(*tens)? + digit(*ones)?),
        _ => None,
    }
}

/// The value of an ASCII digit.
fn digit(byte: u8) -> Option<u8>
    ensures value { result ≡ digit_of byte }
    ensures bound { IfSome result (λ number. number < 10) }
{
    match byte {
        b'0'..=b'9' => Some(byte - b'0'),
        _ => None,
    }
}

/// The last year of a rule: `only` is none of its own.
#[tactic(auto, unfolding(crate::specs::Fields::to_field))]
pub(crate) fn to_field(text: &str) -> Result<Option<Year>, Fault<'_>>
    ensures { told (λ year. year) result ≡ to_field text.now }
{
    if text == "only" {
        return Ok(None);
    }
    Ok(Some(Year::read(text)?))
}

/// Refuses a TYPE column of a rule that is no hyphen, of ASCII or U+2010.
pub(crate) fn type_field(text: &str) -> Result<(), Fault<'_>>
    ensures { told (λ hyphen. hyphen) result ≡ type_field text.now }
{
    if text == "-" || text == "\u{2010}" {
        Ok(())
    } else {
        Err(Fault {
            kind: FaultKind::TypeColumnContainedNonHyphen,
            text,
        })
    }
}

/// The letters of a rule: a hyphen is none.
pub(crate) fn letters_of(text: &str) -> Option<&str>
    ensures { option_map (λ letters. letters.now) result ≡ letters_of text.now }
{
    if text == "-" { None } else { Some(text) }
}

/// What follows `last` in a text that begins with it.
pub(crate) fn after_last(text: &str) -> Option<&str>
    ensures { option_map (λ rest. rest.now) result ≡ after_last text.now }
{
    text.strip_prefix("last")
}

/// A day of the month: ASCII digits alone, from 1 to 31.
pub(crate) fn day_of_month(text: &str) -> Option<i8>
    ensures { result ≡ day_of_month text.now }
{
    if is_numeral(text) {
        day_numbered(text)
    } else {
        None
    }
}

/// The number that the text is, where it is from 1 to 31.
pub(crate) fn day_numbered(text: &str) -> Option<i8>
    ensures { result ≡ day_numbered text.now }
{
    let day = i8_in(text)?;
    if 1 <= day && day <= 31 {
        Some(day)
    } else {
        None
    }
}

/// Whether the text can be a ruleset's name: of ASCII letters, hyphens and underscores.
pub(crate) fn is_ruleset_name(text: &str) -> bool
    ensures { result ≡ is_ruleset_name text.now }
{
    text.bytes().all(|byte| byte == b'-' || byte == b'_' || byte.is_ascii_alphabetic())
}

/// A hyphen, which is no time at all.
pub(crate) fn no_time(text: &str) -> Option<TimeSpecAndType>
    ensures { result ≡ no_time text.now }
{
    if text == "-" {
        Some(TimeSpec::Zero.with_type(TimeType::Wall))
    } else {
        None
    }
}

/// A text of hyphens and ASCII digits alone, as a number of hours.
pub(crate) fn hours_alone(text: &str) -> Option<TimeSpecAndType>
    ensures { result ≡ hours_alone text.now }
{
    if !is_bare(text) {
        return None;
    }
    let hours = i8_in(text)?;
    Some(TimeSpec::Hours(hours).with_type(TimeType::Wall))
}

/// Whether the text is of hyphens and ASCII digits alone.
fn is_bare(text: &str) -> bool
    ensures { result ≡ is_bare text.now }
{
    text.bytes()
        .all(|byte| byte == b'-' || byte.is_ascii_digit())
}

/// The time that the parts show.
#[tactic(auto, unfolding(crate::specs::Times::clock_time))]
pub(crate) fn clock_time(parts: &ClockColumns<'_>) -> Option<TimeSpec>
    ensures { result ≡ clock_time (clock_shown parts.now) }
{
    let hour = signed(parts.sign, two_digits(parts.hour)?);
    let minute = signed(parts.sign, two_digits(parts.minute)?);
    match parts.second {
        Some(text) => {
            let second = signed(parts.sign, two_digits(text)?);
            Some(TimeSpec::HoursMinutesSeconds(hour, minute, second))
        }
        None => Some(TimeSpec::HoursMinutes(hour, minute)),
    }
}

/// The part of a time under its sign.
fn signed(sign: &str, part: u8) -> i8
    requires { part < 100 }
    ensures { result ≡ signed sign.now part }
{
    if sign == "-" {
        -(part as i8)
    } else {
        part as i8
    }
}

/// The clock that a flag names.
pub(crate) fn clock_type(flag: Option<&str>) -> TimeType
    ensures { result ≡ clock_type (option_map (λ t. t.now) flag.entry) }
{
    match flag {
        Some("s") => TimeType::Standard,
        Some("u" | "g" | "z") => TimeType::UTC,
        _ => TimeType::Wall,
    }
}

/// The time, where its clock is the wall's.
pub(crate) fn if_wall(time: TimeSpecAndType) -> Option<TimeSpec>
    ensures { result ≡ if_wall time }
{
    match time {
        TimeSpecAndType(time, TimeType::Wall) => Some(time),
        _ => None,
    }
}
