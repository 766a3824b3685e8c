//! The months of the year.
ghost use Rattle.std.specs.{Prelude.{◌≡◌, ◌≢◌, ◌+◌, ◌%◌, ◌≤◌, ◌↔◌, IsOk, IfOk, MatchResult, Some}, Fmt.{padded}};
ghost use Rattle.basics.specs.Days.{days_in_month};

use crate::{ComponentRange, InvalidVariant};
use basics::month_length;
use std::fmt;
use std::str::FromStr;

/// A month of the year.
#[derive(Clone, Copy, Debug, PartialEq, Eq, Hash)]
pub enum Month {
    January,
    February,
    March,
    April,
    May,
    June,
    July,
    August,
    September,
    October,
    November,
    December,
}

impl Month {
    ghost use Rattle.civil_parts.specs.Months.{month_number, month_name, IsMonthBefore};

    /// The month after this one; January after December.
    pub fn next(self) -> Month
        ensures { IsMonthBefore self result }
    {
        match self {
            Month::January => Month::February,
            Month::February => Month::March,
            Month::March => Month::April,
            Month::April => Month::May,
            Month::May => Month::June,
            Month::June => Month::July,
            Month::July => Month::August,
            Month::August => Month::September,
            Month::September => Month::October,
            Month::October => Month::November,
            Month::November => Month::December,
            Month::December => Month::January,
        }
    }

    /// The month before this one; December before January.
    pub fn previous(self) -> Month
        ensures { IsMonthBefore result self }
    {
        match self {
            Month::January => Month::December,
            Month::February => Month::January,
            Month::March => Month::February,
            Month::April => Month::March,
            Month::May => Month::April,
            Month::June => Month::May,
            Month::July => Month::June,
            Month::August => Month::July,
            Month::September => Month::August,
            Month::October => Month::September,
            Month::November => Month::October,
            Month::December => Month::November,
        }
    }

    /// How many days the month of that year has.
    pub fn length(self, year: i32) -> u8
        ensures value { result ≡ days_in_month year (month_number self) }
        ensures least { 28 ≤ result }
        ensures greatest { result ≤ 31 }
    {
        month_length(year, u8::from(self))
    }

    /// The full English name.
    fn name(self) -> &'static str
        ensures { result.now ≡ month_name self }
    {
        match self {
            Month::January => "January",
            Month::February => "February",
            Month::March => "March",
            Month::April => "April",
            Month::May => "May",
            Month::June => "June",
            Month::July => "July",
            Month::August => "August",
            Month::September => "September",
            Month::October => "October",
            Month::November => "November",
            Month::December => "December",
        }
    }
}

/// From 1 for January to 12 for December.
impl From<Month> for u8 {
    ghost use Rattle.civil_parts.specs.Months.{month_number};

    ghost from_gives = { λ month number. (number ≡ month_number month) × (1 ≤ number) × (number ≤ 12) };

    fn from(month: Month) -> u8 {
        match month {
            Month::January => 1,
            Month::February => 2,
            Month::March => 3,
            Month::April => 4,
            Month::May => 5,
            Month::June => 6,
            Month::July => 7,
            Month::August => 8,
            Month::September => 9,
            Month::October => 10,
            Month::November => 11,
            Month::December => 12,
        }
    }
}

/// The month of a number from 1 to 12. Every other number is refused.
impl TryFrom<u8> for Month {
    ghost use Rattle.civil_parts.specs.Months.{month_number, IsMonthNumber};

    type Error = ComponentRange;

    ghost try_from_gives = { λ number result.
        (IsOk result ↔ IsMonthNumber number) × IfOk result (λ month. month_number month ≡ number) };

    fn try_from(number: u8) -> Result<Month, ComponentRange> {
        match number {
            1 => Ok(Month::January),
            2 => Ok(Month::February),
            3 => Ok(Month::March),
            4 => Ok(Month::April),
            5 => Ok(Month::May),
            6 => Ok(Month::June),
            7 => Ok(Month::July),
            8 => Ok(Month::August),
            9 => Ok(Month::September),
            10 => Ok(Month::October),
            11 => Ok(Month::November),
            12 => Ok(Month::December),
            _ => Err(ComponentRange),
        }
    }
}

/// The month with that full English name. Every other text is refused.
impl FromStr for Month {
    ghost use Rattle.civil_parts.specs.{Months.{month_name}, declared.month.Month.{Month}};

    type Err = InvalidVariant;

    ghost from_str_gives = { λ text result.
        MatchResult result (λ month. month_name month ≡ text) (λ _. (month : Month) → month_name month ≢ text) };

    fn from_str(text: &str) -> Result<Month, InvalidVariant> {
        match text {
            "January" => Ok(Month::January),
            "February" => Ok(Month::February),
            "March" => Ok(Month::March),
            "April" => Ok(Month::April),
            "May" => Ok(Month::May),
            "June" => Ok(Month::June),
            "July" => Ok(Month::July),
            "August" => Ok(Month::August),
            "September" => Ok(Month::September),
            "October" => Ok(Month::October),
            "November" => Ok(Month::November),
            "December" => Ok(Month::December),
            _ => Err(InvalidVariant),
        }
    }
}

/// The full English name.
impl fmt::Display for Month {
    ghost use Rattle.civil_parts.specs.Months.{month_name};

    ghost output = { λ month. Some (month_name month) };

    ghost styled_output = { λ month spec. Some (padded spec (month_name month)) };

    fn fmt<W: fmt::Write>(&self, f: &mut fmt::Formatter<W>) -> fmt::Result {
        f.pad(self.name())
    }
}
