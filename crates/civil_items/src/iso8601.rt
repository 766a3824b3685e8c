//! How ISO 8601 texts are laid out.
ghost use Rattle.std.specs.Prelude.{◌≡◌};

use crate::digits::Digits;

/// Which parts a text has.
#[derive(Clone, Copy, Debug, PartialEq, Eq)]
pub enum FormattedComponents {
    /// No part.
    None,
    /// The date.
    Date,
    /// The time of day.
    Time,
    /// The offset from UTC.
    Offset,
    /// The date and the time of day.
    DateTime,
    /// The date, the time of day and the offset.
    DateTimeOffset,
    /// The time of day and the offset.
    TimeOffset,
}

/// How a date is written.
#[derive(Clone, Copy, Debug, PartialEq, Eq)]
pub enum DateKind {
    /// By month and day.
    Calendar,
    /// By week and weekday.
    Week,
    /// By the day of the year.
    Ordinal,
}

/// How exactly an offset is written.
#[derive(Clone, Copy, Debug, PartialEq, Eq)]
pub enum OffsetPrecision {
    /// Its hours.
    Hour,
    /// Its hours and minutes.
    Minute,
}

/// The least unit of a time of day that is written, with the decimal digits of its fraction, if it has one.
#[derive(Clone, Copy, Debug, PartialEq, Eq)]
pub enum TimePrecision {
    /// Hours.
    Hour {
        /// The digits of the fraction.
        decimal_digits: Option<Digits>,
    },
    /// Hours and minutes.
    Minute {
        /// The digits of the fraction.
        decimal_digits: Option<Digits>,
    },
    /// Hours, minutes and seconds.
    Second {
        /// The digits of the fraction.
        decimal_digits: Option<Digits>,
    },
}

impl TimePrecision {
    ghost use Rattle.civil_items.specs.Codes.{digits_of};

    /// The decimal digits of the fraction, if it has one.
    pub(crate) fn decimal_digits(self) -> Option<Digits>
        ensures { result ≡ digits_of self }
    {
        match self {
            TimePrecision::Hour { decimal_digits } => decimal_digits,
            TimePrecision::Minute { decimal_digits } => decimal_digits,
            TimePrecision::Second { decimal_digits } => decimal_digits,
        }
    }
}
