//! The changes in the footers that are tried.
ghost use Rattle.std.specs.{Prelude.{◌≡◌, ◌++◌, ◌+◌, ◌<◌, ◌≤◌, OnOk, string_bytes, pos, neg_ℤ, ◌+ℤ◌, ◌-ℤ◌, ◌*ℤ◌, ◌<ℤ◌, ◌≤ℤ◌, unsigned_abs}, Int.{int_div_euclid}};
ghost use Rattle.basics.specs.{Dates.{year_of}, Days.{day as date_day}};
ghost use Rattle.zone_tzif.specs.Tried.{change_by, dated_text, day_by, days_back, is_dated, is_past_noon, moment_text, named_text, numbered_text, parts_text, signed_text, week_of};

use basics::{date_of, day_number, month_length, weekday};
use std::alloc::AllocError;
use zone_tail::parts::{add, add_date, add_number, add_time};

const SECONDS_PER_DAY: i64 = 86_400;

const NOON: i64 = 43_200;

/// How many ways there are to name a change by a weekday.
const WEEKDAY_WAYS: u32 = 28;

/// 2:00, the time of a change where none is written.
const TWO_HOURS: i64 = 7_200;

/// How many days before a change the day lies by which it is named.
fn days_back(is_late: bool, number: u32) -> i64
    requires { number < 14 }
    ensures is { result ≡ days_back is_late number }
    ensures least { neg_ℤ (pos 7) ≤ℤ result }
    ensures greatest { result ≤ℤ pos 6 }
{
    let number = i64::from(number);
    if is_late {
        if number <= 7 { -number } else { number - 7 }
    } else if number <= 6 {
        number
    } else {
        6 - number
    }
}

/// Whether a local second lies past noon.
fn is_past_noon(local: i64) -> bool
    ensures { result ≡ is_past_noon local }
{
    NOON <= local.rem_euclid(SECONDS_PER_DAY)
}

/// By which number a day of a month of so many days is named.
fn week_of(length: u8, day: u8, choice: u32) -> u8
    requires { day ≤ 31 }
    ensures { result ≡ week_of length day choice }
{
    let counted = (day + 6) / 7;
    if choice == 0 {
        if length < day + 7 { 5 } else { counted }
    } else if counted <= 4 {
        counted
    } else {
        5
    }
}

/// The day by which a local second of some year near 2102 is named, of 14.
fn named_day(local: i64, number: u32) -> i32
    requires least { pos 4_000_000_000 ≤ℤ local }
    requires greatest { local ≤ℤ pos 5_000_000_000 }
    requires number { number < 14 }
    ensures is { result ≡ int_div_euclid local (pos 86_400) -ℤ days_back (is_past_noon local) number }
    ensures begun { (pos 86_400 *ℤ result) ≤ℤ (local +ℤ pos 604_800) }
    ensures not_over { local <ℤ (pos 86_400 *ℤ result +ℤ pos 604_800) }
    ensures least { pos 0 ≤ℤ result }
    ensures greatest { result ≤ℤ pos 100_000 }
{
    let day = local.div_euclid(SECONDS_PER_DAY);
    let back = days_back(is_past_noon(local), number);
    (day - back) as i32
}

/// The seconds from a day's midnight to a local second.
fn seconds_after(local: i64, day: i32) -> i64
    requires begun { (pos 86_400 *ℤ day) ≤ℤ (local +ℤ pos 604_800) }
    requires not_over { local <ℤ (pos 86_400 *ℤ day +ℤ pos 604_800) }
    ensures is { result ≡ local -ℤ pos 86_400 *ℤ day }
    ensures size { unsigned_abs result ≤ 700_000 }
{
    local - SECONDS_PER_DAY * i64::from(day)
}

/// The change of each year that comes at such a local second, named so.
pub(crate) fn add_change(text: &mut String, local: i64, number: u32) -> Result<(), AllocError>
    requires least { pos 4_000_000_000 ≤ℤ local }
    requires greatest { local ≤ℤ pos 5_000_000_000 }
    requires number { number < 42 }
    ensures { OnOk result (string_bytes text.new ≡ string_bytes text.old ++ change_by local number) }
{
    let day = named_day(local, day_by(number));
    let seconds = seconds_after(local, day);
    add_named(text, is_dated(number), day, seconds, number % 2)
}

/// Whether a change is named by a date.
fn is_dated(number: u32) -> bool
    ensures { result ≡ is_dated number }
{
    WEEKDAY_WAYS <= number
}

/// Which of 14 days it is named by.
fn day_by(number: u32) -> u32
    requires { number < 42 }
    ensures is { result ≡ day_by number }
    ensures bound { result < 14 }
{
    if is_dated(number) {
        number - WEEKDAY_WAYS
    } else {
        number / 2
    }
}

/// A day of each year, by its date or its weekday, and the seconds from its midnight.
fn add_named(
    text: &mut String,
    is_dated: bool,
    day: i32,
    seconds: i64,
    choice: u32,
) -> Result<(), AllocError>
    requires least { pos 0 ≤ℤ day }
    requires greatest { day ≤ℤ pos 100_000 }
    requires size { unsigned_abs seconds ≤ 700_000 }
    ensures { OnOk result (string_bytes text.new ≡ string_bytes text.old ++ named_text is_dated day seconds choice) }
{
    if is_dated {
        add_dated(text, day, seconds)
    } else {
        add_moment(text, day, seconds, choice)
    }
}

/// By its number in a common year.
fn add_dated(text: &mut String, day: i32, seconds: i64) -> Result<(), AllocError>
    requires least { pos 0 ≤ℤ day }
    requires greatest { day ≤ℤ pos 100_000 }
    requires size { unsigned_abs seconds ≤ 700_000 }
    ensures { OnOk result (string_bytes text.new ≡ string_bytes text.old ++ dated_text day seconds) }
{
    add_numbered(text, number_in_year(day), seconds)
}

/// The number of a day in its year.
fn number_in_year(day: i32) -> u32
    requires least { pos 0 ≤ℤ day }
    requires greatest { day ≤ℤ pos 100_000 }
    ensures { result ≡ unsigned_abs (day -ℤ date_day (year_of day) 1 1) + 1 }
{
    let first = day_number(date_of(day).year, 1, 1);
    (day - first).unsigned_abs() + 1
}

/// The number of a date, and a time.
#[tactic(auto, using(std::proofs::Common::append_assoc))]
fn add_numbered(text: &mut String, number: u32, seconds: i64) -> Result<(), AllocError>
    requires { unsigned_abs seconds ≤ 700_000 }
    ensures { OnOk result (string_bytes text.new ≡ string_bytes text.old ++ numbered_text number seconds) }
{
    add(text, "J")?;
    add_number(text, number)?;
    add_clock(text, seconds)
}

/// By its weekday.
fn add_moment(text: &mut String, day: i32, seconds: i64, choice: u32) -> Result<(), AllocError>
    requires least { pos 0 ≤ℤ day }
    requires greatest { day ≤ℤ pos 100_000 }
    requires size { unsigned_abs seconds ≤ 700_000 }
    ensures { OnOk result (string_bytes text.new ≡ string_bytes text.old ++ moment_text day seconds choice) }
{
    let date = date_of(day);
    let week = week_of(month_length(date.year, date.month), date.day, choice);
    add_parts(text, date.month, week, weekday(day), seconds)
}

/// A month, a week, a weekday and a time.
#[tactic(auto, using(std::proofs::Common::append_assoc))]
fn add_parts(
    text: &mut String,
    month: u8,
    week: u8,
    weekday: u8,
    seconds: i64,
) -> Result<(), AllocError>
    requires { unsigned_abs seconds ≤ 700_000 }
    ensures { OnOk result (string_bytes text.new ≡ string_bytes text.old ++ parts_text month week weekday seconds) }
{
    add_date(text, month, week, weekday)?;
    add_clock(text, seconds)
}

/// A time with its sign, where it isn't 2:00.
#[tactic(auto, unfolding(crate::specs::Tried::signed_text))]
fn add_clock(text: &mut String, seconds: i64) -> Result<(), AllocError>
    requires { unsigned_abs seconds ≤ 700_000 }
    ensures { OnOk result (string_bytes text.new ≡ string_bytes text.old ++ signed_text seconds) }
{
    if seconds == TWO_HOURS {
        return Ok(());
    }
    add(text, "/")?;
    let size = seconds.unsigned_abs() as u32;
    if seconds < 0 {
        add(text, "-")?;
        add_time(text, size)
    } else {
        add_time(text, size)
    }
}
