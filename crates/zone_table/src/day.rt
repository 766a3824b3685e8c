//! Days of a month, as rules and ends name them.
ghost use Rattle.std.specs.Prelude.{◌≡◌, pos, neg_ℤ, ◌≤ℤ◌, nat_abs, IsTrue};
ghost use Rattle.basics.specs.{Days.{day as day_at, days_in_month}, Dates.{month_of, day_of}};
ghost use Rattle.zone_table.specs.{Days.{is_day_of_month, has_day_of_month, named_day, is_in_year, first_from, last_up_to, concrete_day}, Weekdays.{weekday_number}, Months.{month_number, month_numbered}};

use crate::month::Month;
use crate::weekday::Weekday;
use basics::{day_number, month_length};

/// A day of a month. A number counts from 1, to 31.
#[derive(Clone, Copy, Debug, PartialEq)]
pub enum DaySpec {
    /// The day of that number.
    Ordinal(i8),
    /// The last such weekday of the month.
    Last(Weekday),
    /// The last such weekday on or before the day of that number.
    LastOnOrBefore(Weekday, i8),
    /// The first such weekday on or after the day of that number.
    FirstOnOrAfter(Weekday, i8),
}

impl DaySpec {
    /// The month and the day of the month that this names in a month of a year from 1 to 9999. A
    /// number past the month's end counts on into the next month. The pair of an ordinal is as
    /// written, the other pairs are the true month and day. None where the day lies in another
    /// year. The number is from 1 to 31.
    #[tactic(auto, unfolding(crate::specs::Days::concrete_day, crate::specs::Days::written))]
    pub fn to_concrete_day(&self, year: i64, month: Month) -> Option<(Month, i8)>
        requires first_year { pos 1 ≤ℤ year }
        requires last_year { year ≤ℤ pos 9999 }
        requires number { IsTrue (has_day_of_month self.now) }
        ensures { result ≡ concrete_day self.now year month }
    {
        let day = self.day_number(year, month);
        if !is_in_year(day, year as i32) {
            return None;
        }
        match *self {
            DaySpec::Ordinal(number) => Some((month, number)),
            _ => Some(month_and_day(day)),
        }
    }

    /// Whether a day number in it is from 1 to 31. Where it has none, as the last Sunday, the
    /// answer is yes.
    pub fn has_day_of_month(&self) -> bool
        ensures { result ≡ has_day_of_month self.now }
    {
        match *self {
            DaySpec::Ordinal(number) => is_day_of_month(number),
            DaySpec::Last(_) => true,
            DaySpec::LastOnOrBefore(_, number) => is_day_of_month(number),
            DaySpec::FirstOnOrAfter(_, number) => is_day_of_month(number),
        }
    }

    /// Whether the day that this names in a month of a year from 1 to 9999 lies in that year. A
    /// number past the month's end counts on, and a weekday may stand on the other side of the
    /// year's end. The number is from 1 to 31.
    pub fn lies_in_year(&self, year: i64, month: Month) -> bool
        requires first_year { pos 1 ≤ℤ year }
        requires last_year { year ≤ℤ pos 9999 }
        requires number { IsTrue (has_day_of_month self.now) }
        ensures { result ≡ is_in_year (named_day self.now year month) year }
    {
        is_in_year(self.day_number(year, month), year as i32)
    }

    /// The number of days from 1970-01-01 to the day that this names in a month of a year from 1
    /// to 9999. A number past the month's end counts on, so that the day may lie in another month,
    /// and in another year. The number is from 1 to 31.
    #[tactic(auto, unfolding(crate::specs::Days::named_day))]
    pub fn day_number(&self, year: i64, month: Month) -> i32
        requires first_year { pos 1 ≤ℤ year }
        requires last_year { year ≤ℤ pos 9999 }
        requires number { IsTrue (has_day_of_month self.now) }
        ensures value { result ≡ named_day self.now year month }
        ensures least { neg_ℤ (pos 5_000_000) ≤ℤ result }
        ensures greatest { result ≤ℤ pos 5_000_000 }
    {
        match *self {
            DaySpec::Ordinal(number) => numbered_day(year, month, number),
            DaySpec::Last(weekday) => last_up_to(weekday, last_of_month(year, month)),
            DaySpec::LastOnOrBefore(weekday, number) => {
                last_up_to(weekday, numbered_day(year, month, number))
            }
            DaySpec::FirstOnOrAfter(weekday, number) => {
                first_from(weekday, numbered_day(year, month, number))
            }
        }
    }
}

/// Whether the number is from 1 to 31.
fn is_day_of_month(number: i8) -> bool
    ensures { result ≡ is_day_of_month number }
{
    1 <= number && number <= 31
}

/// The day of that number in a month, or past its end.
fn numbered_day(year: i64, month: Month, number: i8) -> i32
    requires first_year { pos 1 ≤ℤ year }
    requires last_year { year ≤ℤ pos 9999 }
    requires number { IsTrue (is_day_of_month number) }
    ensures value { result ≡ day_at year (month_number month) (nat_abs number) }
    ensures least { neg_ℤ (pos 4_371_953) ≤ℤ result }
    ensures greatest { result ≤ℤ pos 2_933_262 }
{
    day_number(year as i32, month.number() as u8, number as u8)
}

/// The last day of a month.
fn last_of_month(year: i64, month: Month) -> i32
    requires first_year { pos 1 ≤ℤ year }
    requires last_year { year ≤ℤ pos 9999 }
    ensures value { result ≡ day_at year (month_number month) (days_in_month year (month_number month)) }
    ensures least { neg_ℤ (pos 4_371_953) ≤ℤ result }
    ensures greatest { result ≤ℤ pos 2_933_262 }
{
    let year = year as i32;
    let of_year = month.number() as u8;
    day_number(year, of_year, month_length(year, of_year))
}

/// The one with that weekday of the seven days from the day on.
fn first_from(weekday: Weekday, day: i32) -> i32
    requires first { neg_ℤ (pos 4_371_959) ≤ℤ day }
    requires last { day ≤ℤ pos 2_933_262 }
    ensures value { result ≡ first_from (weekday_number weekday) day }
    ensures least { neg_ℤ (pos 4_371_959) ≤ℤ result }
    ensures greatest { result ≤ℤ pos 2_933_268 }
{
    let ahead = (weekday.number() + 7 - basics::weekday(day)) % 7;
    day + i32::from(ahead)
}

/// The one with that weekday of the seven days up to the day.
fn last_up_to(weekday: Weekday, day: i32) -> i32
    requires first { neg_ℤ (pos 4_371_953) ≤ℤ day }
    requires last { day ≤ℤ pos 2_933_262 }
    ensures value { result ≡ last_up_to (weekday_number weekday) day }
    ensures least { neg_ℤ (pos 4_371_959) ≤ℤ result }
    ensures greatest { result ≤ℤ pos 2_933_268 }
{
    first_from(weekday, day - 6)
}

/// Whether the day lies in the year.
#[tactic(auto, unfolding(crate::specs::Days::is_in_year))]
fn is_in_year(day: i32, year: i32) -> bool
    requires first_year { pos 1 ≤ℤ year }
    requires last_year { year ≤ℤ pos 9999 }
    ensures value { result ≡ is_in_year day year }
    ensures first { IsTrue result → neg_ℤ (pos 4_371_953) ≤ℤ day }
    ensures last { IsTrue result → day ≤ℤ pos 2_933_262 }
{
    let start = first_day(year);
    let next = first_day(year + 1);
    start <= day && day < next
}

/// The first day of a year.
fn first_day(year: i32) -> i32
    requires first_year { pos 1 ≤ℤ year }
    requires last_year { year ≤ℤ pos 10000 }
    ensures value { result ≡ day_at year 1 1 }
    ensures least { neg_ℤ (pos 4_371_953) ≤ℤ result }
    ensures greatest { result ≤ℤ pos 2_933_262 }
{
    day_number(year, 1, 1)
}

/// The true month of a day, and its day of the month.
fn month_and_day(day: i32) -> (Month, i8)
    requires first { neg_ℤ (pos 4_371_953) ≤ℤ day }
    requires last { day ≤ℤ pos 2_933_262 }
    ensures { result ≡ (month_numbered (month_of day), pos (day_of day)) }
{
    let date = basics::date_of(day);
    (Month::numbered(date.month), date.day as i8)
}
