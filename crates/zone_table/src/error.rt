//! Why a line does not join the lines before it.
use std::alloc::AllocError;
use thiserror::Error;

/// A line that may not follow the lines before it.
#[derive(Debug, Drop, PartialEq, Error)]
pub enum Error {
    /// A continuation with no zone to belong to.
    #[error("continuation line follows line that isn't a zone definition line")]
    SurpriseContinuationLine,
    /// A Zone line names a ruleset, of this name, that no earlier line defines.
    #[error("zone definition refers to a ruleset that isn't defined")]
    UnknownRuleset(String),
    /// A link with the new name of an earlier link: that name.
    #[error("link line with name that already exists")]
    DuplicateLink(String),
    /// A Zone line with the name of an earlier zone.
    #[error("zone line with name that already exists")]
    DuplicateZone,
    /// Memory ran out.
    #[error("out of memory")]
    NoMemory,
}

impl From<AllocError> for Error {
    ghost use Rattle.std.specs.Prelude.{◌≡◌};
    ghost use Rattle.zone_table.specs.declared.error.Error.TheVariants.{NoMemory};

    ghost from_gives = { λ _ error. error ≡ NoMemory };

    fn from(_: AllocError) -> Error {
        Error::NoMemory
    }
}
