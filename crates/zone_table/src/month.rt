//! Months.
ghost use Rattle.std.specs.Prelude.{◌≡◌, ◌≤◌, pos, ◌≤ℤ◌};
ghost use Rattle.zone_table.specs.{Faults.{Tells, told}, Months.{month_number, month_numbered, month_field}};

use crate::fault::{Fault, FaultKind, or_error, value_or_fault};
use crate::line_error::Error;
use crate::year::month_named;
use std::alloc::Global;

/// A month of the year.
#[derive(Clone, Copy, Debug, PartialEq)]
pub enum Month {
    January,
    February,
    March,
    April,
    May,
    June,
    July,
    August,
    September,
    October,
    November,
    December,
}

impl Month {
    /// Reads an English name of a month, in full or in three letters, without regard to ASCII
    /// case.
    ///
    /// # Errors
    ///
    /// `FailedMonthParse` with every other text, in ASCII lower case, or `NoMemory` where memory for
    /// it runs out.
    pub fn parse(alloc: Global, input: &str) -> Result<Month, Error>
        ensures { Tells (λ month. month) result (month_field input.now) }
    {
        or_error(alloc, Month::read(input))
    }

    /// Reads the same texts, and takes no memory.
    ///
    /// # Errors
    ///
    /// `FailedMonthParse` for every other text, which the fault borrows as it stands.
    pub fn read(text: &str) -> Result<Month, Fault<'_>>
        ensures { told (λ month. month) result ≡ month_field text.now }
    {
        value_or_fault(month_named(text), FaultKind::FailedMonthParse, text)
    }

    /// The number of the month, from 1 to 12.
    pub fn number(self) -> i8
        ensures value { result ≡ pos (month_number self) }
        ensures first { pos 1 ≤ℤ result }
        ensures last { result ≤ℤ pos 12 }
    {
        match self {
            Month::January => 1,
            Month::February => 2,
            Month::March => 3,
            Month::April => 4,
            Month::May => 5,
            Month::June => 6,
            Month::July => 7,
            Month::August => 8,
            Month::September => 9,
            Month::October => 10,
            Month::November => 11,
            Month::December => 12,
        }
    }

    /// The month of that number, from 1 to 12.
    pub(crate) fn numbered(number: u8) -> Month
        requires first { 1 ≤ number }
        requires last { number ≤ 12 }
        ensures { result ≡ month_numbered number }
    {
        match number {
            1 => Month::January,
            2 => Month::February,
            3 => Month::March,
            4 => Month::April,
            5 => Month::May,
            6 => Month::June,
            7 => Month::July,
            8 => Month::August,
            9 => Month::September,
            10 => Month::October,
            11 => Month::November,
            12 => Month::December,
            _ => unreachable!(),
        }
    }
}
