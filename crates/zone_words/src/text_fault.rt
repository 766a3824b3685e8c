//! Why a text is no time.

use std::{error, fmt};

/// What a text that is no time lacks, or has wrong. The form is looked at first, from the left to the right; the causes
/// from `NoSuchDate` on are those of a text whose form is right, in this order.
#[derive(Clone, Copy, Debug, PartialEq, Eq)]
pub enum TextFault {
    /// The text of an instant doesn't begin with a date, and behind an `@` it would be one.
    MarkMissing,
    /// The text doesn't begin with a date.
    DateMissing,
    /// What follows the date of an instant is no time of day.
    ClockMissing,
    /// What follows the date is no time of day, and begins with an hour of one digit.
    HourShort,
    /// What follows the date of a local time is no time of day.
    TimeMissing,
    /// What follows the minute, or the colon after it, is no second.
    SecondMissing,
    /// No digit follows the point.
    FractionMissing,
    /// More than nine digits follow the point.
    TooFine,
    /// What follows the time of day is no offset.
    OffsetMissing,
    /// No digit follows the `@`, or the `-` after it.
    CountMissing,
    /// An offset follows a local time.
    OffsetThere,
    /// Something follows the time.
    Trailing,
    /// The calendar has no such date.
    NoSuchDate,
    /// The clock has no such time: it goes from 00:00:00 to 23:59:59.
    NoSuchTime,
    /// The offset has more than 23 hours or 59 minutes.
    OffsetRange,
    /// The instant lies outside the years -9999 to 9999 by UTC.
    OutOfYears,
}

impl TextFault {
    ghost use Rattle.std.specs.Prelude.{◌≡◌};
    ghost use Rattle.zone_words.specs.FaultTexts.{fault_text};

    /// What is told of it.
    pub fn text(self) -> &'static str
        ensures { result.now ≡ fault_text self }
    {
        match self {
            TextFault::MarkMissing => {
                "a number alone is no time: seconds since 1970 have an @ before them, as in @1729989000, and an instant of a date is written as 2024-10-27T00:30:00Z"
            }
            TextFault::DateMissing => "a date is missing, as in 2024-10-27",
            TextFault::ClockMissing => {
                "a time of day and an offset are missing, as in 2024-10-27T02:30:00+02:00"
            }
            TextFault::HourShort => "an hour has two digits, as in 07:30",
            TextFault::TimeMissing => "a time of day is missing, as in 2024-10-27 02:30",
            TextFault::SecondMissing => "the seconds are missing, as in 02:30:00",
            TextFault::FractionMissing => "digits are missing after the point, as in 02:30:00.25",
            TextFault::TooFine => "a fraction has at most nine digits, as in 02:30:00.123456789",
            TextFault::OffsetMissing => {
                "an offset is missing, as in 2024-10-27T02:30:00+02:00 or 2024-10-27T00:30:00Z"
            }
            TextFault::CountMissing => "a number of seconds is missing, as in @1729989000",
            TextFault::OffsetThere => {
                "a local time has no offset; zone at takes a time with one, and zone convert has it as FROM"
            }
            TextFault::Trailing => "something follows the time",
            TextFault::NoSuchDate => "the calendar has no such date",
            TextFault::NoSuchTime => "a time of day goes from 00:00:00 to 23:59:59",
            TextFault::OffsetRange => "an offset goes from -23:59 to +23:59",
            TextFault::OutOfYears => "the time lies outside the years -9999 to 9999",
        }
    }
}

/// What is told of it.
impl fmt::Display for TextFault {
    fn fmt<W: fmt::Write>(&self, f: &mut fmt::Formatter<W>) -> fmt::Result {
        f.write_str(self.text())
    }
}

impl error::Error for TextFault {}
