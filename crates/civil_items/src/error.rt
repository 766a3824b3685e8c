//! What is refused, and one type for all of it.
ghost use Rattle.std.specs.Prelude.{◌≡◌};

use civil_base::{ComponentRange, ConversionRange, InvalidVariant};

/// A value is of another variant than the one that was asked for.
#[derive(Clone, Copy, Debug, PartialEq, Eq, thiserror::Error)]
#[error("value was of a different variant than required")]
pub struct DifferentVariant;

/// The system does not tell its offset from UTC.
#[derive(Clone, Copy, Debug, PartialEq, Eq, thiserror::Error)]
#[error("The system's UTC offset could not be determined")]
pub struct IndeterminateOffset;

/// Any refusal of the crate. It is shown as the value inside.
#[derive(Debug, Drop, thiserror::Error)]
pub enum Error {
    /// A length of time is too long for the type that it is converted to.
    #[error(transparent)]
    ConversionRange(ConversionRange),
    /// A part of a date, a time or an offset is out of its range.
    #[error(transparent)]
    ComponentRange(ComponentRange),
    /// The system does not tell its offset from UTC.
    #[error(transparent)]
    IndeterminateOffset(IndeterminateOffset),
    /// A value is of another variant than the one that was asked for.
    #[error(transparent)]
    DifferentVariant(DifferentVariant),
    /// A text is no name of a variant.
    #[error(transparent)]
    InvalidVariant(InvalidVariant),
}

/// A result whose refusal is an `Error`.
pub type Result<T> = std::result::Result<T, Error>;

impl From<ConversionRange> for Error {
    ghost use Rattle.civil_items.specs.declared.error.Error.TheVariants.{ConversionRange};

    ghost from_gives = { λ refusal error. error ≡ ConversionRange refusal };

    fn from(refusal: ConversionRange) -> Error {
        Error::ConversionRange(refusal)
    }
}

/// The `ConversionRange` inside. An error of another variant is refused.
impl TryFrom<Error> for ConversionRange {
    ghost use Rattle.civil_items.specs.Errors.{conversion_range_in};

    type Error = DifferentVariant;

    ghost try_from_gives = { λ error result. result ≡ conversion_range_in error };

    fn try_from(error: Error) -> std::result::Result<ConversionRange, DifferentVariant> {
        match error {
            Error::ConversionRange(refusal) => Ok(refusal),
            _ => Err(DifferentVariant),
        }
    }
}

impl From<ComponentRange> for Error {
    ghost use Rattle.civil_items.specs.declared.error.Error.TheVariants.{ComponentRange};

    ghost from_gives = { λ refusal error. error ≡ ComponentRange refusal };

    fn from(refusal: ComponentRange) -> Error {
        Error::ComponentRange(refusal)
    }
}

/// The `ComponentRange` inside. An error of another variant is refused.
impl TryFrom<Error> for ComponentRange {
    ghost use Rattle.civil_items.specs.Errors.{component_range_in};

    type Error = DifferentVariant;

    ghost try_from_gives = { λ error result. result ≡ component_range_in error };

    fn try_from(error: Error) -> std::result::Result<ComponentRange, DifferentVariant> {
        match error {
            Error::ComponentRange(refusal) => Ok(refusal),
            _ => Err(DifferentVariant),
        }
    }
}

impl From<IndeterminateOffset> for Error {
    ghost use Rattle.civil_items.specs.declared.error.Error.TheVariants.{IndeterminateOffset};

    ghost from_gives = { λ refusal error. error ≡ IndeterminateOffset refusal };

    fn from(refusal: IndeterminateOffset) -> Error {
        Error::IndeterminateOffset(refusal)
    }
}

/// The `IndeterminateOffset` inside. An error of another variant is refused.
impl TryFrom<Error> for IndeterminateOffset {
    ghost use Rattle.civil_items.specs.Errors.{indeterminate_offset_in};

    type Error = DifferentVariant;

    ghost try_from_gives = { λ error result. result ≡ indeterminate_offset_in error };

    fn try_from(error: Error) -> std::result::Result<IndeterminateOffset, DifferentVariant> {
        match error {
            Error::IndeterminateOffset(refusal) => Ok(refusal),
            _ => Err(DifferentVariant),
        }
    }
}

impl From<DifferentVariant> for Error {
    ghost use Rattle.civil_items.specs.declared.error.Error.TheVariants.{DifferentVariant};

    ghost from_gives = { λ refusal error. error ≡ DifferentVariant refusal };

    fn from(refusal: DifferentVariant) -> Error {
        Error::DifferentVariant(refusal)
    }
}

/// The `DifferentVariant` inside. An error of another variant is refused.
impl TryFrom<Error> for DifferentVariant {
    ghost use Rattle.civil_items.specs.Errors.{different_variant_in};

    type Error = DifferentVariant;

    ghost try_from_gives = { λ error result. result ≡ different_variant_in error };

    fn try_from(error: Error) -> std::result::Result<DifferentVariant, DifferentVariant> {
        match error {
            Error::DifferentVariant(refusal) => Ok(refusal),
            _ => Err(DifferentVariant),
        }
    }
}

impl From<InvalidVariant> for Error {
    ghost use Rattle.civil_items.specs.declared.error.Error.TheVariants.{InvalidVariant};

    ghost from_gives = { λ refusal error. error ≡ InvalidVariant refusal };

    fn from(refusal: InvalidVariant) -> Error {
        Error::InvalidVariant(refusal)
    }
}

/// The `InvalidVariant` inside. An error of another variant is refused.
impl TryFrom<Error> for InvalidVariant {
    ghost use Rattle.civil_items.specs.Errors.{invalid_variant_in};

    type Error = DifferentVariant;

    ghost try_from_gives = { λ error result. result ≡ invalid_variant_in error };

    fn try_from(error: Error) -> std::result::Result<InvalidVariant, DifferentVariant> {
        match error {
            Error::InvalidVariant(refusal) => Ok(refusal),
            _ => Err(DifferentVariant),
        }
    }
}
