//! Numbers, times of day, offsets, savings and days.
ghost use Rattle.std.specs.Prelude.{◌≡◌, ◌≤◌, IfSome, ◌<◌, IfOk, Some};
ghost use Rattle.zone_plain_lines.specs.{Numbers.{number_between}, Days.{is_leap_day, longest, day_number, side_of, up_to, sided, day_of, needs_leap_day, is_leap_year, are_leap_years, if_there}};
ghost use Rattle.zone_plain_lines.specs.Clocks.{part, clock_spec, amount_spec, is_half, is_above_half, rounds_up, second_of, rounded, are_zeros, minutes_below, unsigned, clock_of, amount_of, saved, clock_marked, at_of, last_byte, marked};
ghost use Rattle.basics.specs.Days.{is_leap};

use crate::cause::PlainCause;
use crate::lines::is_after;
use crate::words::{last_weekday_of, weekday_of};
use basics::{after_mark, before_mark, cut, is_numeral, month_length, u8_of_digits};
use zone_table::{DaySpec, Month, TimeSpec, TimeSpecAndType, TimeType, Weekday, Year};

/// The number that ASCII digits write, where it is from the first to the last of two numbers.
#[tactic(auto, unfolding(crate::specs::Numbers::number_between))]
pub(crate) fn number_between(first: u8, last: u8, text: &str) -> Option<u8>
    ensures value { result ≡ number_between first last text.now }
    ensures most { IfSome result (λ number. number ≤ last) }
{
    if !is_numeral(text) {
        return None;
    }
    let number = u8_of_digits(text)?;
    if first <= number && number <= last {
        Some(number)
    } else {
        None
    }
}

/// Whether the number is that of February 29, which leap years alone have.
fn is_leap_day(month: Month, number: i8) -> bool
    ensures { result ≡ is_leap_day month number }
{
    month.number() == 2 && number == 29
}

/// The most days that a month has, in some year.
fn longest(month: Month) -> u8
    ensures value { result ≡ longest month }
    ensures most { result ≤ 31 }
{
    month_length(2_000, month.number() as u8)
}

/// The number of a day of the month, which is at most the month's longest length.
#[tactic(auto, unfolding(crate::specs::Days::day_number))]
fn day_number(month: Month, text: &str) -> Result<i8, PlainCause>
    ensures { result ≡ day_number month text.now }
{
    match number_between(1, longest(month), text) {
        Some(number) => Ok(number as i8),
        None => Err(PlainCause::Day),
    }
}

/// The weekday and the number on the two sides of `<=` or `>=`, from which the first mark is taken.
#[tactic(auto, unfolding(crate::specs::Days::side_of))]
fn side_of(month: Month, word: &str, rest: &str) -> Result<(Weekday, i8), PlainCause>
    ensures { result ≡ side_of month word.now rest.now }
{
    let Some(weekday) = weekday_of(word.as_bytes()) else {
        return Err(PlainCause::Day);
    };
    let Some(number) = after_mark('=', rest) else {
        return Err(PlainCause::Day);
    };
    let number = day_number(month, number)?;
    Ok((weekday, number))
}

/// The last such weekday up to a number. Up to February 29 it is the last of the month, in a common year up to the 28th.
fn up_to(month: Month, weekday: Weekday, number: i8) -> DaySpec
    ensures { result ≡ up_to month weekday number }
{
    if is_leap_day(month, number) {
        DaySpec::Last(weekday)
    } else {
        DaySpec::LastOnOrBefore(weekday, number)
    }
}

/// A weekday on one side of a number, or a number.
#[tactic(auto, unfolding(crate::specs::Days::sided))]
fn sided(month: Month, text: &str) -> Result<DaySpec, PlainCause>
    ensures { result ≡ sided month text.now }
{
    if let Some((word, rest)) = cut('<', text) {
        let (weekday, number) = side_of(month, word, rest)?;
        return Ok(up_to(month, weekday, number));
    }
    if let Some((word, rest)) = cut('>', text) {
        let (weekday, number) = side_of(month, word, rest)?;
        return Ok(DaySpec::FirstOnOrAfter(weekday, number));
    }
    let number = day_number(month, text)?;
    Ok(DaySpec::Ordinal(number))
}

/// A day of a month.
#[tactic(auto, unfolding(crate::specs::Days::day_of))]
pub(crate) fn day_of(month: Month, text: &str) -> Result<DaySpec, PlainCause>
    ensures { result ≡ day_of month text.now }
{
    match last_weekday_of(text) {
        Some(weekday) => Ok(DaySpec::Last(weekday)),
        None => sided(month, text),
    }
}

/// Whether the day is February 29, or a weekday from it on.
fn needs_leap_day(month: Month, day: DaySpec) -> bool
    ensures { result ≡ needs_leap_day month day }
{
    match day {
        DaySpec::Ordinal(number) => is_leap_day(month, number),
        DaySpec::FirstOnOrAfter(_, number) => is_leap_day(month, number),
        DaySpec::Last(_) => false,
        DaySpec::LastOnOrBefore(_, _) => false,
    }
}

/// Whether the year of that number has a February 29.
#[tactic(auto, using(std::proofs::lemmas::Bool::Decides::nat_tests), unfolding(basics::specs::Days::is_leap))]
fn is_leap(year: i64) -> bool
    ensures { result ≡ is_leap year }
{
    let years = year.unsigned_abs();
    years % 400 == 0 || (years % 4 == 0 && years % 100 != 0)
}

/// Whether the year has a February 29; the first and the last of all years are no single ones.
fn is_leap_year(year: Year) -> bool
    ensures { result ≡ is_leap_year year }
{
    match year {
        Year::Number(number) => is_leap(number),
        Year::Minimum | Year::Maximum => false,
    }
}

/// Whether each year from a first to a last one, if there is one beside it, has a February 29. So it is one year alone.
fn are_leap_years(first: Year, last: Option<Year>) -> bool
    ensures { result ≡ are_leap_years first last }
{
    match last {
        Some(last) => is_leap_year(first) && !is_after(last, first),
        None => is_leap_year(first),
    }
}

/// Refuses a day that not each year from a first to a last one, if there is one beside it, has.
#[tactic(auto, unfolding(crate::specs::Days::if_there))]
pub(crate) fn if_there(
    first: Year,
    last: Option<Year>,
    month: Month,
    day: DaySpec,
) -> Result<(), PlainCause>
    ensures { result ≡ if_there first last month day }
{
    if needs_leap_day(month, day) && !are_leap_years(first, last) {
        Err(PlainCause::Day)
    } else {
        Ok(())
    }
}

/// A number of seconds with a sign.
#[derive(Clone, Copy)]
pub(crate) struct Amount {
    pub(crate) is_negative: bool,
    pub(crate) seconds: u32,
}

/// A part of a time under its sign.
fn part(is_negative: bool, number: u32) -> i8
    requires { number < 128 }
    ensures { result ≡ part is_negative number }
{
    if is_negative {
        -(number as i8)
    } else {
        number as i8
    }
}

/// The time in hours and minutes, and in seconds where they aren't 0.
#[tactic(auto, unfolding(crate::specs::Clocks::clock_spec))]
pub(crate) fn clock_spec(amount: Amount) -> TimeSpec
    requires { amount.seconds ≤ 400_000 }
    ensures { result ≡ clock_spec amount }
{
    let hours = part(amount.is_negative, amount.seconds / 3_600);
    let minutes = part(amount.is_negative, amount.seconds / 60 % 60);
    let seconds = amount.seconds % 60;
    if seconds == 0 {
        TimeSpec::HoursMinutes(hours, minutes)
    } else {
        TimeSpec::HoursMinutesSeconds(hours, minutes, part(amount.is_negative, seconds))
    }
}

/// The amount in hours, minutes and seconds, where 0 is hours alone.
#[tactic(auto, unfolding(crate::specs::Clocks::amount_spec))]
pub(crate) fn amount_spec(amount: Amount) -> TimeSpec
    requires { amount.seconds ≤ 400_000 }
    ensures { result ≡ amount_spec amount }
{
    if amount.seconds == 0 {
        TimeSpec::Hours(0)
    } else {
        clock_spec(amount)
    }
}

/// Whether the digits of a fraction say more than a half.
fn is_above_half(digits: &[u8]) -> bool
    ensures { result ≡ is_above_half digits.now }
{
    match digits {
        [first, rest @ ..] => b'5' < *first || *first == b'5' && !are_zeros(rest),
        [] => false,
    }
}

/// Whether the digits of a fraction say a half.
fn is_half(digits: &[u8]) -> bool
    ensures { result ≡ is_half digits.now }
{
    match digits {
        [first, rest @ ..] => *first == b'5' && are_zeros(rest),
        [] => false,
    }
}

/// Whether all digits are 0.
fn are_zeros(digits: &[u8]) -> bool
    ensures { result ≡ are_zeros digits.now }
{
    digits.iter().all(|digit| *digit == b'0')
}

/// Whether a second with a fraction is rounded up: to the nearest, and of two that are as near to the even one.
fn rounds_up(second: u8, fraction: &str) -> bool
    ensures { result ≡ rounds_up second fraction.now }
{
    is_above_half(fraction.as_bytes()) || is_half(fraction.as_bytes()) && second % 2 == 1
}

/// The second that a second with a fraction is rounded to.
#[tactic(auto, unfolding(crate::specs::Clocks::rounded))]
fn rounded(second: &str, fraction: &str) -> Option<u32>
    ensures value { result ≡ rounded second.now fraction.now }
    ensures most { IfSome result (λ seconds. seconds ≤ 61) }
{
    let second = number_between(0, 60, second)?;
    if !is_numeral(fraction) {
        return None;
    }
    if rounds_up(second, fraction) {
        Some(u32::from(second) + 1)
    } else {
        Some(u32::from(second))
    }
}

/// The seconds of a time, which may have a fraction.
#[tactic(auto, unfolding(crate::specs::Clocks::second_of))]
fn second_of(text: &str) -> Option<u32>
    ensures value { result ≡ second_of text.now }
    ensures most { IfSome result (λ seconds. seconds ≤ 61) }
{
    match cut('.', text) {
        Some((second, fraction)) => rounded(second, fraction),
        None => Some(u32::from(number_between(0, 60, text)?)),
    }
}

/// The minutes of a time, and the seconds where there are some, in seconds.
#[tactic(auto, unfolding(crate::specs::Clocks::minutes_below))]
fn minutes_below(text: &str) -> Option<u32>
    ensures value { result ≡ minutes_below text.now }
    ensures most { IfSome result (λ seconds. seconds ≤ 3_601) }
{
    match cut(':', text) {
        Some((minute, second)) => {
            let minute = number_between(0, 59, minute)?;
            let second = second_of(second)?;
            Some(60 * u32::from(minute) + second)
        }
        None => {
            let minute = number_between(0, 59, text)?;
            Some(60 * u32::from(minute))
        }
    }
}

/// A time with no sign, in seconds.
#[tactic(auto, unfolding(crate::specs::Clocks::unsigned))]
fn unsigned(text: &str) -> Option<u32>
    ensures value { result ≡ unsigned text.now }
    ensures most { IfSome result (λ seconds. seconds ≤ 400_000) }
{
    match cut(':', text) {
        Some((hour, rest)) => {
            let hour = number_between(0, 99, hour)?;
            let below = minutes_below(rest)?;
            Some(3_600 * u32::from(hour) + below)
        }
        None => {
            let hour = number_between(0, 99, text)?;
            Some(3_600 * u32::from(hour))
        }
    }
}

/// A time with a sign or none; a hyphen alone is 0.
#[tactic(auto, unfolding(crate::specs::Clocks::clock_of))]
fn clock_of(text: &str) -> Option<Amount>
    ensures value { result ≡ clock_of text.now }
    ensures most { IfSome result (λ amount. amount.seconds ≤ 400_000) }
{
    if text == "-" {
        return Some(Amount {
            is_negative: false,
            seconds: 0,
        });
    }
    match after_mark('-', text) {
        Some(rest) => {
            let seconds = unsigned(rest)?;
            Some(Amount {
                is_negative: true,
                seconds,
            })
        }
        None => {
            let seconds = unsigned(text)?;
            Some(Amount {
                is_negative: false,
                seconds,
            })
        }
    }
}

/// An amount of time.
#[tactic(auto, unfolding(crate::specs::Clocks::amount_of))]
pub(crate) fn amount_of(text: &str) -> Result<Amount, PlainCause>
    ensures value { result ≡ amount_of text.now }
    ensures most { IfOk result (λ amount. amount.seconds ≤ 400_000) }
{
    match clock_of(text) {
        Some(amount) => Ok(amount),
        None => Err(PlainCause::Time),
    }
}

/// A saving. The suffix `d` says what holds of every amount but 0, and `s` what holds of 0; at others they say which time is
/// standard, and are refused.
#[tactic(auto, unfolding(crate::specs::Clocks::saved))]
pub(crate) fn saved(text: &str) -> Result<Amount, PlainCause>
    ensures value { result ≡ saved text.now }
    ensures most { IfOk result (λ amount. amount.seconds ≤ 400_000) }
{
    if let Some(daylight) = before_mark('d', text) {
        let amount = amount_of(daylight)?;
        return if amount.seconds == 0 {
            Err(PlainCause::Saving)
        } else {
            Ok(amount)
        };
    }
    if let Some(standard) = before_mark('s', text) {
        let amount = amount_of(standard)?;
        return if amount.seconds == 0 {
            Ok(amount)
        } else {
            Err(PlainCause::Saving)
        };
    }
    amount_of(text)
}

/// The clock that a mark names, in either case.
fn clock_marked(mark: u8) -> Option<TimeType>
    ensures value { result ≡ clock_marked mark }
    ensures ascii { IfSome result (λ _. mark < 128) }
{
    match mark {
        b'w' | b'W' => Some(TimeType::Wall),
        b's' | b'S' => Some(TimeType::Standard),
        b'u' | b'U' | b'g' | b'G' | b'z' | b'Z' => Some(TimeType::UTC),
        _ => None,
    }
}

/// The last byte, or 0 where there is none.
fn last_byte(text: &[u8]) -> u8
    ensures { result ≡ last_byte text.now }
{
    match text {
        [.., last] => *last,
        [] => 0,
    }
}

/// A time without its mark, and the clock that the mark names; without a mark it is the wall's.
#[tactic(auto, unfolding(crate::specs::Clocks::marked))]
fn marked(text: &str) -> (&str, TimeType)
    ensures { (result.0.now, result.1) ≡ marked text.now }
{
    let mark = last_byte(text.as_bytes());
    let Some(clock) = clock_marked(mark) else {
        return (text, TimeType::Wall);
    };
    match before_mark(char::from(mark), text) {
        Some(time) => (time, clock),
        None => (text, TimeType::Wall),
    }
}

/// A time of day with its clock.
#[tactic(auto, unfolding(crate::specs::Clocks::at_of))]
pub(crate) fn at_of(text: &str) -> Result<TimeSpecAndType, PlainCause>
    ensures { result ≡ at_of text.now }
{
    let (time, clock) = marked(text);
    let amount = amount_of(time)?;
    Ok(TimeSpecAndType(clock_spec(amount), clock))
}
