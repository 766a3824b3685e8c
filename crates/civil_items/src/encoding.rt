//! Configurations as numbers.
ghost use Rattle.std.specs.Prelude.{◌≡◌, Option, Some};
ghost use Rattle.civil_items.specs.declared.{digits.Digits.{Digits}, config.Config.{Config}, iso8601.FormattedComponents.{FormattedComponents}, iso8601.DateKind.{DateKind}, iso8601.TimePrecision.{TimePrecision}, iso8601.OffsetPrecision.{OffsetPrecision}};
ghost use Rattle.civil_items.specs.Codes.{code, code_bytes, components_place, kind_place, unit_place, digits_of, digits_byte, precision_place, flag, Decodes};

use crate::config::Config;
use crate::digits::Digits;
use crate::iso8601::{DateKind, FormattedComponents, OffsetPrecision, TimePrecision};

/// The number that stands for a configuration.
pub type EncodedConfig = u128;

/// Another name for it, which says what its user should not do.
pub type DoNotRelyOnWhatThisIs = u128;

impl Config {
    /// The number of sixteen bytes, the first of them the highest: the place of the parts in their order, from 0 to 6;
    /// 1 for separators, else 0; 1 for a year of six digits, else 0; the place of the kind of date, from 0 to 2; the
    /// place of the least unit of a time, from 0 to 2; its decimal digits, or 0 for none; the place of the precision
    /// of offsets, 0 or 1; nine bytes of 0.
    #[tactic(auto, unfolding(crate::specs::Codes::code))]
    pub fn encode(&self) -> EncodedConfig
        ensures { result ≡ code self.now }
    {
        u128::from_be_bytes(bytes_of(*self))
    }

    /// The configuration that the number stands for. There is none exactly where it stands for none.
    pub fn decode(encoded: EncodedConfig) -> Option<Config>
        ensures { Decodes encoded result }
    {
        let config = config_in(encoded.to_be_bytes())?;
        if config.encode() == encoded {
            Some(config)
        } else {
            None
        }
    }
}

fn bytes_of(config: Config) -> [u8; 16]
    ensures { result ≡ code_bytes config }
{
    [
        place_of_components(config.formatted_components),
        u8::from(config.use_separators),
        u8::from(config.year_is_six_digits),
        place_of_kind(config.date_kind),
        place_of_unit(config.time_precision),
        digits_byte(config.time_precision.decimal_digits()),
        place_of_precision(config.offset_precision),
        0,
        0,
        0,
        0,
        0,
        0,
        0,
        0,
        0,
    ]
}

// The configuration with these bytes, if there is one; where there is none, any or none.
fn config_in(bytes: [u8; 16]) -> Option<Config>
    ensures { (config : Config) → code_bytes config ≡ bytes → result ≡ Some config }
{
    Some(Config {
        formatted_components: components_at(bytes[0])?,
        use_separators: bytes[1] == 1,
        year_is_six_digits: bytes[2] == 1,
        date_kind: kind_at(bytes[3])?,
        time_precision: precision_at(bytes[4], digits_at(bytes[5]))?,
        offset_precision: offset_precision_at(bytes[6])?,
    })
}

fn place_of_components(components: FormattedComponents) -> u8
    ensures { result ≡ components_place components }
{
    match components {
        FormattedComponents::None => 0,
        FormattedComponents::Date => 1,
        FormattedComponents::Time => 2,
        FormattedComponents::Offset => 3,
        FormattedComponents::DateTime => 4,
        FormattedComponents::DateTimeOffset => 5,
        FormattedComponents::TimeOffset => 6,
    }
}

fn components_at(place: u8) -> Option<FormattedComponents>
    ensures { (components : FormattedComponents) → components_place components ≡ place → result ≡ Some components }
{
    match place {
        0 => Some(FormattedComponents::None),
        1 => Some(FormattedComponents::Date),
        2 => Some(FormattedComponents::Time),
        3 => Some(FormattedComponents::Offset),
        4 => Some(FormattedComponents::DateTime),
        5 => Some(FormattedComponents::DateTimeOffset),
        6 => Some(FormattedComponents::TimeOffset),
        _ => None,
    }
}

fn place_of_kind(kind: DateKind) -> u8
    ensures { result ≡ kind_place kind }
{
    match kind {
        DateKind::Calendar => 0,
        DateKind::Week => 1,
        DateKind::Ordinal => 2,
    }
}

fn kind_at(place: u8) -> Option<DateKind>
    ensures { (kind : DateKind) → kind_place kind ≡ place → result ≡ Some kind }
{
    match place {
        0 => Some(DateKind::Calendar),
        1 => Some(DateKind::Week),
        2 => Some(DateKind::Ordinal),
        _ => None,
    }
}

fn place_of_unit(precision: TimePrecision) -> u8
    ensures { result ≡ unit_place precision }
{
    match precision {
        TimePrecision::Hour { .. } => 0,
        TimePrecision::Minute { .. } => 1,
        TimePrecision::Second { .. } => 2,
    }
}

// The precision of the unit at that place with these decimal digits.
fn precision_at(place: u8, decimal_digits: Option<Digits>) -> Option<TimePrecision>
    ensures { (precision : TimePrecision) → unit_place precision ≡ place → digits_of precision ≡ decimal_digits
        → result ≡ Some precision }
{
    match place {
        0 => Some(TimePrecision::Hour { decimal_digits }),
        1 => Some(TimePrecision::Minute { decimal_digits }),
        2 => Some(TimePrecision::Second { decimal_digits }),
        _ => None,
    }
}

fn digits_at(byte: u8) -> Option<Digits>
    ensures { (digits : Option Digits) → digits_byte digits ≡ byte → result ≡ digits }
{
    Digits::new(byte)
}

fn digits_byte(digits: Option<Digits>) -> u8
    ensures { result ≡ digits_byte digits }
{
    digits.map_or(0, |digits| digits.get())
}

fn place_of_precision(precision: OffsetPrecision) -> u8
    ensures { result ≡ precision_place precision }
{
    match precision {
        OffsetPrecision::Hour => 0,
        OffsetPrecision::Minute => 1,
    }
}

fn offset_precision_at(place: u8) -> Option<OffsetPrecision>
    ensures { (precision : OffsetPrecision) → precision_place precision ≡ place → result ≡ Some precision }
{
    match place {
        0 => Some(OffsetPrecision::Hour),
        1 => Some(OffsetPrecision::Minute),
        _ => None,
    }
}
