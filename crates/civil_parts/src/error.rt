//! The refusals of values out of range.

use thiserror::Error;

/// A part of a date, a time or an offset is out of its range, or the date lies outside the years -9999 to 9999.
#[derive(Clone, Copy, Debug, PartialEq, Eq, Error)]
#[error("component out of range")]
pub struct ComponentRange;

/// A length of time is too long for the type that it is converted to.
#[derive(Clone, Copy, Debug, PartialEq, Eq, Error)]
#[error("conversion out of range")]
pub struct ConversionRange;

/// A text is no English name of a month or of a weekday.
#[derive(Clone, Copy, Debug, PartialEq, Eq, Error)]
#[error("value was not a valid variant")]
pub struct InvalidVariant;
