//! Dates.
ghost use Rattle.std.specs.Prelude.{◌≡◌, ◌↔◌, pos, ◌+ℤ◌, ◌-ℤ◌, IsOk, IfOk, IsSome, IfSome};
ghost use Rattle.basics.specs.{Days.{day as day_at, days_in_year, IsDate}, Dates.{year_of, month_of, day_of}, Weekdays.{weekday_of}};
ghost use Rattle.civil_base.specs.{Julian.{julian_of, day_of_julian}, Ordinals.{IsOrdinal, ordinal_day, ordinal_of}, Ranges.{IsYear, IsDay}};
ghost use Rattle.civil_parts.specs.{Durations.{whole_days}, Months.{month_number, IsMonthNumber}, Weekdays.{weekday_number}};

use crate::{ComponentRange, Month, SignedDuration, Weekday};
use basics::{date_of, day_number, is_leap_year, weekday};
use std::marker::Model;

// The Julian day of 1970-01-01.
const JULIAN_EPOCH: i32 = 2_440_588;

/// A day of the Gregorian calendar, from -9999-01-01 to 9999-12-31. Contracts see its day number, where 0 is 1970-01-01.
#[derive(Clone, Copy, Debug, PartialEq, Eq, PartialOrd, Ord, Hash)]
pub struct Date {
    day_number: i32,
}

impl Model for Date {
    ghost use Rattle.std.specs.Prelude.{ℤ};
    ghost use Rattle.civil_base.specs.Ranges.{IsDay};

    ghost Value = { ℤ };

    ghost view = { λ date. date.day_number };

    ghost invariant = { λ date. IsDay date.day_number };

    ghost inverse = { λ number. record { day_number = number } };
}

impl Date {
    /// -9999-01-01.
    pub const MIN: Date = Date {
        day_number: -4_371_587,
    };

    /// 9999-12-31.
    pub const MAX: Date = Date {
        day_number: 2_932_896,
    };

    /// The date with these parts.
    ///
    /// # Errors
    ///
    /// `ComponentRange` exactly where the year is past 9999 in size or the month of that year has no such day.
    pub fn from_calendar_date(year: i32, month: Month, day: u8) -> Result<Date, ComponentRange>
        ensures accepts { IsOk result ↔ (IsYear year × IsDate year (month_number month) day) }
        ensures value { IfOk result (λ date. date ≡ day_at year (month_number month) day) }
    {
        if year < -9999 || year > 9999 || day < 1 || day > month.length(year) {
            return Err(ComponentRange);
        }
        Ok(Date {
            day_number: day_number(year, u8::from(month), day),
        })
    }

    /// The date of a day of the year, counted from 1.
    ///
    /// # Errors
    ///
    /// `ComponentRange` exactly where the year is past 9999 in size or has no such day.
    pub fn from_ordinal_date(year: i32, ordinal: u16) -> Result<Date, ComponentRange>
        ensures accepts { IsOk result ↔ (IsYear year × IsOrdinal year ordinal) }
        ensures value { IfOk result (λ date. date ≡ ordinal_day year ordinal) }
    {
        if year < -9999 || year > 9999 || ordinal < 1 || ordinal > year_length(year) {
            return Err(ComponentRange);
        }
        Ok(Date {
            day_number: day_number(year, 1, 1) + i32::from(ordinal - 1),
        })
    }

    /// The date of a Julian day, of which 2,440,588 is 1970-01-01.
    ///
    /// # Errors
    ///
    /// `ComponentRange` exactly where the date lies outside the years -9999 to 9999.
    pub fn from_julian_day(julian_day: i32) -> Result<Date, ComponentRange>
        ensures accepts { IsOk result ↔ IsDay (day_of_julian julian_day) }
        ensures value { IfOk result (λ date. date ≡ day_of_julian julian_day) }
    {
        Date::with_day(i64::from(julian_day) - i64::from(JULIAN_EPOCH)).ok_or(ComponentRange)
    }

    /// The date of a day number, where 0 is 1970-01-01, if it lies in the years -9999 to 9999.
    fn with_day(day_number: i64) -> Option<Date>
        ensures has { IsSome result ↔ IsDay day_number }
        ensures value { IfSome result (λ date. date ≡ day_number) }
    {
        if i64::from(Date::MIN.day_number) <= day_number
            && day_number <= i64::from(Date::MAX.day_number)
        {
            Some(Date {
                day_number: day_number as i32,
            })
        } else {
            None
        }
    }

    /// The date of a day number, where 0 is 1970-01-01.
    pub(crate) fn at_day(day_number: i32) -> Date
        requires { IsDay day_number }
        ensures { result ≡ day_number }
    {
        Date { day_number }
    }

    /// The day number, where 0 is 1970-01-01.
    pub(crate) fn day_number(self) -> i32
        ensures value { result ≡ self }
        ensures bound { IsDay result }
    {
        self.day_number
    }

    /// The year, from -9999 to 9999. The year before 1 is 0, and the year before that is -1.
    pub fn year(self) -> i32
        ensures value { result ≡ year_of self }
        ensures bound { IsYear result }
    {
        date_of(self.day_number).year
    }

    /// The month.
    pub fn month(self) -> Month
        ensures { month_number result ≡ month_of self }
    {
        self.to_calendar_date().1
    }

    /// The day of the month, from 1.
    pub fn day(self) -> u8
        ensures { result ≡ day_of self }
    {
        date_of(self.day_number).day
    }

    /// The year, the month and the day of the month.
    pub fn to_calendar_date(self) -> (i32, Month, u8)
        ensures year { result.0 ≡ year_of self }
        ensures month { month_number result.1 ≡ month_of self }
        ensures day { result.2 ≡ day_of self }
        ensures date { day_at result.0 (month_number result.1) result.2 ≡ self }
        ensures range { IsYear result.0 × IsDate result.0 (month_number result.1) result.2 }
    {
        let date = date_of(self.day_number);
        (date.year, month_with(date.month), date.day)
    }

    /// The day of the year, from 1 to 366.
    pub fn ordinal(self) -> u16
        ensures { result ≡ ordinal_of self }
    {
        self.to_ordinal_date().1
    }

    /// The year and the day of the year.
    pub fn to_ordinal_date(self) -> (i32, u16)
        ensures year { result.0 ≡ year_of self }
        ensures ordinal { result.1 ≡ ordinal_of self }
        ensures date { ordinal_day result.0 result.1 ≡ self }
        ensures range { IsYear result.0 × IsOrdinal result.0 result.1 }
    {
        let (number, year) = (self.day_number(), self.year());
        let first = day_number(year, 1, 1);
        (year, (number - first + 1) as u16)
    }

    /// The day of the week.
    pub fn weekday(self) -> Weekday
        ensures { weekday_number result ≡ weekday_of self }
    {
        Weekday::Sunday.nth_next(weekday(self.day_number))
    }

    /// The Julian day, of which 2,440,588 is 1970-01-01.
    pub fn to_julian_day(self) -> i32
        ensures { result ≡ julian_of self }
    {
        self.day_number + JULIAN_EPOCH
    }

    /// The day after this one. There is none exactly after 9999-12-31.
    pub fn next_day(self) -> Option<Date>
        ensures has { IsSome result ↔ IsDay (self +ℤ pos 1) }
        ensures value { IfSome result (λ date. date ≡ self +ℤ pos 1) }
    {
        Date::with_day(i64::from(self.day_number) + 1)
    }

    /// The day before this one. There is none exactly before -9999-01-01.
    pub fn previous_day(self) -> Option<Date>
        ensures has { IsSome result ↔ IsDay (self -ℤ pos 1) }
        ensures value { IfSome result (λ date. date ≡ self -ℤ pos 1) }
    {
        Date::with_day(i64::from(self.day_number) - 1)
    }

    /// The date as many days later as the length has whole days, cut towards zero. There is none exactly where that
    /// date lies outside the years -9999 to 9999.
    pub fn checked_add(self, duration: SignedDuration) -> Option<Date>
        ensures has { IsSome result ↔ IsDay (self +ℤ whole_days duration) }
        ensures value { IfSome result (λ date. date ≡ self +ℤ whole_days duration) }
    {
        Date::with_day(i64::from(self.day_number()) + duration.whole_days())
    }

    /// The date as many days earlier as the length has whole days, cut towards zero. There is none exactly where that
    /// date lies outside the years -9999 to 9999.
    pub fn checked_sub(self, duration: SignedDuration) -> Option<Date>
        ensures has { IsSome result ↔ IsDay (self -ℤ whole_days duration) }
        ensures value { IfSome result (λ date. date ≡ self -ℤ whole_days duration) }
    {
        Date::with_day(i64::from(self.day_number()) - duration.whole_days())
    }
}

// How many days the year has.
fn year_length(year: i32) -> u16
    ensures { result ≡ days_in_year year }
{
    if is_leap_year(year) { 366 } else { 365 }
}

fn month_with(number: u8) -> Month
    requires { IsMonthNumber number }
    ensures { month_number result ≡ number }
{
    Month::try_from(number).unwrap()
}
