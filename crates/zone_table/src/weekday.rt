//! Days of the week.
ghost use Rattle.std.specs.Prelude.{◌≡◌, ◌<◌};
ghost use Rattle.zone_table.specs.{Faults.{Tells, told}, Weekdays.{weekday_number, weekday_field}};

use crate::fault::{Fault, FaultKind, or_error, value_or_fault};
use crate::line_error::Error;
use crate::year::weekday_named;
use std::alloc::Global;

/// A day of the week.
#[derive(Clone, Copy, Debug, PartialEq)]
pub enum Weekday {
    Sunday,
    Monday,
    Tuesday,
    Wednesday,
    Thursday,
    Friday,
    Saturday,
}

impl Weekday {
    /// Reads an English name of a weekday, in full or in three letters, without regard to ASCII
    /// case.
    ///
    /// # Errors
    ///
    /// `FailedWeekdayParse` with every other text, in ASCII lower case, or `NoMemory` where memory for
    /// it runs out.
    pub fn parse(alloc: Global, input: &str) -> Result<Weekday, Error>
        ensures { Tells (λ weekday. weekday) result (weekday_field input.now) }
    {
        or_error(alloc, Weekday::read(input))
    }

    /// Reads the same texts, and takes no memory.
    ///
    /// # Errors
    ///
    /// `FailedWeekdayParse` for every other text, which the fault borrows as it stands.
    pub fn read(text: &str) -> Result<Weekday, Fault<'_>>
        ensures { told (λ weekday. weekday) result ≡ weekday_field text.now }
    {
        value_or_fault(weekday_named(text), FaultKind::FailedWeekdayParse, text)
    }

    /// The number of the weekday, from 0 for Sunday to 6 for Saturday.
    pub(crate) fn number(self) -> u8
        ensures value { result ≡ weekday_number self }
        ensures bound { result < 7 }
    {
        match self {
            Weekday::Sunday => 0,
            Weekday::Monday => 1,
            Weekday::Tuesday => 2,
            Weekday::Wednesday => 3,
            Weekday::Thursday => 4,
            Weekday::Friday => 5,
            Weekday::Saturday => 6,
        }
    }
}
