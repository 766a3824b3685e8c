//! The days of a rule.
ghost use Rattle.std.specs.{Prelude.{◌≡◌, ◌≤◌, ◌<◌, ◌+◌, ◌-◌, if◌then◌else◌, ◌&&◌, ◌==◌, nat_le, IsTrue, IfOk, None, pos, neg_ℤ, ◌+ℤ◌, ◌≤ℤ◌}, Result.{result_err}};
ghost use Rattle.basics.specs.Days.{day as day_of_date, is_leap, days_in_year, IsCountedYear};
ghost use Rattle.civil_base.specs.Ranges.{IsDay, IsYear};
ghost use Rattle.tz_posix.specs.{Days.{rule_day, day_refusal, is_last_month, julian_day as julian_in, nth_weekday as nth_in, IsNth}, Ranges.{is_rule_date}};

use crate::error::Error;
use basics::{day_number, is_leap_year, month_length, weekday};

/// A day of any year.
#[derive(Clone, Copy, Debug, PartialEq, Eq)]
pub enum Date {
    /// The nth day of a year without February 29, from 1: `J60` is March 1.
    J(u16),
    /// The nth day of a year, from 0: `59` is February 29, or March 1.
    N(u16),
    /// The nth weekday d of month m, where Sunday is 0 and n = 5 the last one.
    M { m: u8, n: u8, d: u8 },
}

impl Date {
    /// The date in a year of -9999 to 9999. J is from 1 to 365, N at most 365, m from 1 to 12, n from 1 to 5 and d at
    /// most 6.
    ///
    /// # Errors
    ///
    /// `ComponentRange` comes exactly for `N(365)` in a year of 365 days, and `DateTooLarge` exactly with n = 5 in
    /// December 9999 where the first such weekday plus 28 days is past the 31st.
    pub fn to_date(self, year: i32) -> Result<civil_base::Date, Error>
        requires year { IsYear year }
        requires date { IsTrue (is_rule_date self) }
        ensures refused { result_err result ≡ day_refusal self year }
        ensures value { IfOk result (λ date. date ≡ rule_day self year) }
    {
        self.check_in(year)?;
        Ok(date_with(self.day_number(year)))
    }

    /// Whether the date's parts are in their ranges, as `to_date` has them.
    pub fn is_in_range(self) -> bool
        ensures { result ≡ is_rule_date self }
    {
        match self {
            Date::J(n) => 1 <= n && n <= 365,
            Date::N(n) => n <= 365,
            Date::M { m, n, d } => 1 <= m && m <= 12 && 1 <= n && n <= 5 && d <= 6,
        }
    }

    /// The day number of the date in a year of -10000 to 10000, also where `to_date` refuses: `N(365)` of a year of 365 days
    /// is the first day of the next one.
    #[tactic(auto, unfolding(crate::specs::Days::rule_day, crate::specs::Days::day_refusal))]
    pub fn day_number(self, year: i32) -> i32
        requires year { IsCountedYear year }
        requires date { IsTrue (is_rule_date self) }
        ensures value { result ≡ rule_day self year }
        ensures inside { IsYear year → day_refusal self year ≡ None → IsDay result }
        ensures least { neg_ℤ (pos 5_000_000) ≤ℤ result }
        ensures greatest { result ≤ℤ pos 5_000_000 }
    {
        match self {
            Date::J(n) => julian_day(year, n),
            Date::N(n) => day_after_first(year, n),
            Date::M { m, n, d } => nth_day(year, m, n, d),
        }
    }

    /// The refusal of `to_date`.
    #[tactic(auto, unfolding(crate::specs::Days::day_refusal))]
    pub(crate) fn check_in(self, year: i32) -> Result<(), Error>
        requires year { IsYear year }
        requires date { IsTrue (is_rule_date self) }
        ensures { result_err result ≡ day_refusal self year }
    {
        match self {
            Date::J(_) => Ok(()),
            Date::N(n) => check_counted(year, n),
            Date::M { m, n, d } => check_weekday(year, m, n, d),
        }
    }
}

fn date_with(day: i32) -> civil_base::Date
    requires { IsDay day }
    ensures { result ≡ day }
{
    civil_base::Date::from_julian_day(day + 2_440_588).unwrap()
}

/// The day number of the nth day of a year, February 29 left out.
fn julian_day(year: i32, n: u16) -> i32
    requires year { IsCountedYear year }
    requires date { IsTrue (is_rule_date (Date.J n)) }
    ensures value { result ≡ julian_in year n }
    ensures inside { IsYear year → IsDay result }
    ensures least { neg_ℤ (pos 5_000_000) ≤ℤ result }
    ensures greatest { result ≤ℤ pos 5_000_000 }
{
    day_number(year, 1, 1) + i32::from(days_before_julian(year, n))
}

/// The days of the year before its nth day, where the nth leaves February 29 out.
fn days_before_julian(year: i32, n: u16) -> u16
    requires { 1 ≤ n }
    ensures { result ≡ (if nat_le 60 n && is_leap year then n else n - 1) }
{
    if n >= 60 && is_leap_year(year) {
        n
    } else {
        n - 1
    }
}

/// The day number of the day n of a year, from 0, counted on into the next year.
fn day_after_first(year: i32, n: u16) -> i32
    requires year { IsCountedYear year }
    requires date { IsTrue (is_rule_date (Date.N n)) }
    ensures value { result ≡ day_of_date year 1 1 +ℤ pos n }
    ensures inside { IsYear year → n < days_in_year year → IsDay result }
    ensures least { neg_ℤ (pos 5_000_000) ≤ℤ result }
    ensures greatest { result ≤ℤ pos 5_000_000 }
{
    day_number(year, 1, 1) + i32::from(n)
}

/// The refusal of the day n of a year, from 0.
#[tactic(auto, unfolding(crate::specs::Days::day_refusal))]
fn check_counted(year: i32, n: u16) -> Result<(), Error>
    ensures { result_err result ≡ day_refusal (Date.N n) year }
{
    if year_length(year) <= n {
        Err(Error::ComponentRange)
    } else {
        Ok(())
    }
}

fn year_length(year: i32) -> u16
    ensures { result ≡ days_in_year year }
{
    if is_leap_year(year) { 366 } else { 365 }
}

/// The refusal of the nth weekday d of month m.
#[tactic(auto, unfolding(crate::specs::Days::day_refusal))]
fn check_weekday(year: i32, m: u8, n: u8, d: u8) -> Result<(), Error>
    requires year { IsYear year }
    requires date { IsTrue (is_rule_date (Date.M m n d)) }
    ensures { result_err result ≡ day_refusal (Date.M m n d) year }
{
    if is_last_fifth(year, m, n) && 31 < first_weekday(year, m, d) + 28 {
        Err(Error::DateTooLarge)
    } else {
        Ok(())
    }
}

/// The day number of the nth weekday d of month m.
fn nth_day(year: i32, m: u8, n: u8, d: u8) -> i32
    requires year { IsCountedYear year }
    requires date { IsTrue (is_rule_date (Date.M m n d)) }
    ensures value { result ≡ day_of_date year m (nth_in year m n d) }
    ensures inside { IsYear year → IsDay result }
    ensures least { neg_ℤ (pos 5_000_000) ≤ℤ result }
    ensures greatest { result ≤ℤ pos 5_000_000 }
{
    let first = first_weekday(year, m, d);
    day_number(year, m, nth_weekday(year, m, n, first))
}

/// Whether this is the fifth weekday of the last month that dates have.
fn is_last_fifth(year: i32, month: u8, n: u8) -> bool
    ensures { result ≡ (is_last_month year month && n == 5) }
{
    year == 9999 && month == 12 && n == 5
}

/// The first day of the month with the weekday.
fn first_weekday(year: i32, month: u8, weekday_number: u8) -> u8
    requires year { IsCountedYear year }
    requires first_month { 1 ≤ month }
    requires last_month { month ≤ 12 }
    requires weekday { weekday_number ≤ 6 }
    ensures value { result ≡ nth_in year month 1 weekday_number }
    ensures first { 1 ≤ result }
    ensures last { result ≤ 7 }
{
    1 + (weekday_number + 7 - weekday(day_number(year, month, 1))) % 7
}

/// The nth day of the month with the weekday of the first such day, or the last one.
fn nth_weekday(year: i32, month: u8, n: u8, first: u8) -> u8
    requires least { 1 ≤ n }
    requires greatest { n ≤ 5 }
    requires first { 1 ≤ first }
    requires last { first ≤ 7 }
    ensures nth { IsNth year month n first result }
{
    let day = first + 7 * (n - 1);
    if day > month_length(year, month) {
        day - 7
    } else {
        day
    }
}
