//! The configuration of ISO 8601 texts.
ghost use Rattle.std.specs.Prelude.{◌≡◌};

use crate::digits::Digits;
use crate::iso8601::{DateKind, FormattedComponents, OffsetPrecision, TimePrecision};

/// How ISO 8601 texts are laid out.
#[derive(Clone, Copy, Debug, PartialEq, Eq)]
pub struct Config {
    /// Which parts a text has.
    pub formatted_components: FormattedComponents,
    /// Whether hyphens and colons separate the parts.
    pub use_separators: bool,
    /// Whether a year has a sign and six digits.
    pub year_is_six_digits: bool,
    /// How a date is written.
    pub date_kind: DateKind,
    /// How exactly a time of day is written.
    pub time_precision: TimePrecision,
    /// How exactly an offset is written.
    pub offset_precision: OffsetPrecision,
}

impl Config {
    /// Date, time and offset with separators, a year of four digits, the date by month and day, the time to nine digits
    /// of a second, the offset to minutes.
    pub const DEFAULT: Config = Config {
        formatted_components: FormattedComponents::DateTimeOffset,
        use_separators: true,
        year_is_six_digits: false,
        date_kind: DateKind::Calendar,
        time_precision: TimePrecision::Second {
            decimal_digits: Some(Digits::NINE),
        },
        offset_precision: OffsetPrecision::Minute,
    };

    /// The same configuration with these parts.
    pub fn set_formatted_components(self, value: FormattedComponents) -> Config
        ensures { result ≡ record self { formatted_components = value } }
    {
        Config {
            formatted_components: value,
            ..self
        }
    }

    /// The same configuration with separators, or without.
    pub fn set_use_separators(self, value: bool) -> Config
        ensures { result ≡ record self { use_separators = value } }
    {
        Config {
            use_separators: value,
            ..self
        }
    }

    /// The same configuration with a year of a sign and six digits, or without.
    pub fn set_year_is_six_digits(self, value: bool) -> Config
        ensures { result ≡ record self { year_is_six_digits = value } }
    {
        Config {
            year_is_six_digits: value,
            ..self
        }
    }

    /// The same configuration with the date written in that way.
    pub fn set_date_kind(self, value: DateKind) -> Config
        ensures { result ≡ record self { date_kind = value } }
    {
        Config {
            date_kind: value,
            ..self
        }
    }

    /// The same configuration with the time of day written to that precision.
    pub fn set_time_precision(self, value: TimePrecision) -> Config
        ensures { result ≡ record self { time_precision = value } }
    {
        Config {
            time_precision: value,
            ..self
        }
    }

    /// The same configuration with the offset written to that precision.
    pub fn set_offset_precision(self, value: OffsetPrecision) -> Config
        ensures { result ≡ record self { offset_precision = value } }
    {
        Config {
            offset_precision: value,
            ..self
        }
    }
}
