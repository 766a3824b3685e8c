//! The ends of zone lines.
ghost use Rattle.std.specs.Prelude.{◌≡◌, pos, neg_ℤ, ◌≤ℤ◌, IsTrue};
ghost use Rattle.zone_table.specs.{Days.{has_day_of_month, is_in_year}, Ends.{end_year, end_month, end_day, end_seconds, time_type, year_number, is_dated_year, day_of_end, is_dated, wall}};

use crate::day::DaySpec;
use crate::month::Month;
use crate::time::{TimeSpecAndType, TimeType};
use crate::year::Year;

/// When a zone line ends: at the start of a year, of a month or of a day, or at a time.
#[derive(Clone, Copy, Debug, PartialEq)]
pub enum ChangeTime {
    /// The first moment of the year.
    UntilYear(Year),
    /// The first moment of the month.
    UntilMonth(Year, Month),
    /// The first moment of the day.
    UntilDay(Year, Month, DaySpec),
    /// That time of the day.
    UntilTime(Year, Month, DaySpec, TimeSpecAndType),
}

impl ChangeTime {
    /// The year.
    pub fn end_year(&self) -> Year
        ensures { result ≡ end_year self.now }
    {
        match *self {
            ChangeTime::UntilYear(year)
            | ChangeTime::UntilMonth(year, _)
            | ChangeTime::UntilDay(year, _, _)
            | ChangeTime::UntilTime(year, _, _, _) => year,
        }
    }

    /// Whether the year is a number from 1 to 9999.
    pub fn has_year(&self) -> bool
        ensures { result ≡ is_dated_year (end_year self.now) }
    {
        match self.end_year() {
            Year::Number(year) => 1 <= year && year <= 9_999,
            Year::Minimum | Year::Maximum => false,
        }
    }

    /// Whether a day number in the end is from 1 to 31. A missing day is the first.
    pub fn has_day_of_month(&self) -> bool
        ensures { result ≡ has_day_of_month (end_day self.now) }
    {
        self.end_day().has_day_of_month()
    }

    /// Whether the day lies in the end's year, which is a number from 1 to 9999. A day number is
    /// from 1 to 31.
    pub fn lies_in_its_year(&self) -> bool
        requires year { IsTrue (is_dated_year (end_year self.now)) }
        requires number { IsTrue (has_day_of_month (end_day self.now)) }
        ensures { result ≡ is_in_year (day_of_end self.now) (year_number (end_year self.now)) }
    {
        self.end_day()
            .lies_in_year(self.year_number(), self.end_month())
    }

    /// Whether the end has a day: its year is a number from 1 to 9999, a day number in it is from
    /// 1 to 31, and the day lies in that year.
    pub fn is_dated(&self) -> bool
        ensures { result ≡ is_dated self.now }
    {
        self.has_year() && self.has_day_of_month() && self.lies_in_its_year()
    }

    /// The clock of the time. Where the end has no time, it is the wall's.
    pub fn time_type(&self) -> TimeType
        ensures { result ≡ time_type self.now }
    {
        match *self {
            ChangeTime::UntilTime(_, _, _, TimeSpecAndType(_, clock)) => clock,
            _ => TimeType::Wall,
        }
    }

    /// The seconds from 1970-01-01 00:00 to the date and the time as they are written, whatever
    /// clock the time is by. A missing month is January, a missing day the first, and a missing
    /// time 0:00. The end [has a day](ChangeTime::is_dated).
    pub fn to_timestamp(&self) -> i64
        requires { IsTrue (is_dated self.now) }
        ensures value { result ≡ wall self.now }
        ensures least { neg_ℤ (pos 500_000_000_000) ≤ℤ result }
        ensures greatest { result ≤ℤ pos 500_000_000_000 }
    {
        86_400 * i64::from(self.day_number()) + self.end_seconds()
    }

    /// The year, from 1 to 9999, of an end that [has a day](ChangeTime::is_dated).
    pub fn year(&self) -> i64
        requires { IsTrue (is_dated self.now) }
        ensures { result ≡ year_number (end_year self.now) }
    {
        self.year_number()
    }

    /// The number of the year, which is one from 1 to 9999.
    fn year_number(&self) -> i64
        requires { IsTrue (is_dated_year (end_year self.now)) }
        ensures value { result ≡ year_number (end_year self.now) }
        ensures first { pos 1 ≤ℤ result }
        ensures last { result ≤ℤ pos 9999 }
    {
        match self.end_year() {
            Year::Number(year) => year,
            Year::Minimum | Year::Maximum => unreachable!(),
        }
    }

    /// The day, by its day number, where 0 is 1970-01-01.
    fn day_number(&self) -> i32
        requires { IsTrue (is_dated self.now) }
        ensures value { result ≡ day_of_end self.now }
        ensures least { neg_ℤ (pos 5_000_000) ≤ℤ result }
        ensures greatest { result ≤ℤ pos 5_000_000 }
    {
        self.end_day()
            .day_number(self.year_number(), self.end_month())
    }

    /// The month.
    fn end_month(&self) -> Month
        ensures { result ≡ end_month self.now }
    {
        match *self {
            ChangeTime::UntilYear(_) => Month::January,
            ChangeTime::UntilMonth(_, month)
            | ChangeTime::UntilDay(_, month, _)
            | ChangeTime::UntilTime(_, month, _, _) => month,
        }
    }

    /// The day of the month.
    fn end_day(&self) -> DaySpec
        ensures { result ≡ end_day self.now }
    {
        match *self {
            ChangeTime::UntilYear(_) | ChangeTime::UntilMonth(_, _) => DaySpec::Ordinal(1),
            ChangeTime::UntilDay(_, _, day) | ChangeTime::UntilTime(_, _, day, _) => day,
        }
    }

    /// The seconds of the time of day.
    fn end_seconds(&self) -> i64
        ensures value { result ≡ end_seconds self.now }
        ensures least { neg_ℤ (pos 500_000) ≤ℤ result }
        ensures greatest { result ≤ℤ pos 500_000 }
    {
        match *self {
            ChangeTime::UntilTime(_, _, _, TimeSpecAndType(time, _)) => time.as_seconds(),
            _ => 0,
        }
    }
}
