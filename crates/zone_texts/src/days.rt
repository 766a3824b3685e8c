//! The days of an alarm.
ghost use Rattle.std.specs.Prelude.{◌≡◌, ◌+◌, ◌*◌, ◌<◌, ◌≤◌, pos, ◌+ℤ◌, ◌<ℤ◌, ◌≤ℤ◌, IfSome, is_some};
ghost use Rattle.civil_base.specs.Julian.{julian_of};
ghost use Rattle.zone_texts.specs.Days.{count_between, day_after, is_dated, is_on, last_of, step_of};

use civil_base::Date;

/// The Julian day of 9999-12-31.
const LAST_JULIAN_DAY: i64 = 5_373_484;

/// So many days lie from each day to the next, and one at least.
pub(crate) fn step_of(every: u16) -> u16
    ensures value { result ≡ step_of every }
    ensures some { 0 < result }
{
    if every == 0 {
        return 1;
    }
    every
}

/// The Julian day of the last day, where it is told; else one so late that the last day up to it lies past the years.
fn last_of(until: Option<Date>, step: u16) -> i64
    ensures value { result ≡ julian_of (last_of until step) }
    ensures bound { result <ℤ pos 2147483648 }
{
    match until {
        Some(date) => i64::from(date.to_julian_day()),
        None => LAST_JULIAN_DAY + i64::from(step),
    }
}

/// How many days there are up to the last.
pub(crate) fn count_between(first: Date, until: Option<Date>, step: u16) -> u64
    requires { 0 < step }
    ensures value { result ≡ count_between first (last_of until step) step }
    ensures bound { result ≤ 4294967296 }
{
    let first = i64::from(first.to_julian_day());
    let last = last_of(until, step);
    if last < first {
        return 0;
    }
    (last - first) as u64 / u64::from(step) + 1
}

/// How many days so many steps are.
fn days_past(past: u64, step: u16) -> i64
    requires { past < 4294967296 }
    ensures value { result ≡ pos (past * step) }
    ensures bound { result <ℤ pos 281474976710656 }
{
    (past * u64::from(step)) as i64
}

/// The day after so many steps, if it lies in the years -9999 to 9999.
pub(crate) fn day_after(first: Date, step: u16, past: u64) -> Option<Date>
    requires { past < 4294967296 }
    ensures dated { is_some result ≡ is_dated (day_after first step past) }
    ensures value { IfSome result (λ date. date ≡ day_after first step past) }
{
    let number = i64::from(first.to_julian_day()) + days_past(past, step);
    match i32::try_from(number) {
        Ok(julian_day) => Date::from_julian_day(julian_day).ok(),
        Err(_) => None,
    }
}

/// Whether its weekday is one of those, which are told from Monday on.
pub(crate) fn is_on(days: &[bool; 7], date: Date) -> bool
    ensures { result ≡ is_on days.now date }
{
    days[usize::from(date.weekday().number_days_from_monday())]
}
