//! Why a source has no plain form.
ghost use Rattle.std.specs.Prelude.{◌≡◌};
ghost use Rattle.zone_plain_lines.specs.Told.{fault_at};

use crate::cause::PlainCause;
use std::alloc::AllocError;
use thiserror::Error;

/// Why a source has no plain form. Lines are numbered from 1.
#[derive(Clone, Copy, Debug, PartialEq, Eq, Error)]
pub enum PlainFault {
    /// The line is refused for this. A continuation that isn't there is told as the line after the last.
    #[error("source {0}: {1}")]
    Line(usize, PlainCause),
    /// More than 16,777,216 bytes would be written.
    #[error("the plain form of the source would be longer than 16,777,216 bytes")]
    TooLong,
    /// Memory ran out.
    #[error("out of memory")]
    NoMemory,
}

impl From<AllocError> for PlainFault {
    ghost use Rattle.zone_plain_lines.specs.declared.error.PlainFault.TheVariants.{NoMemory};

    ghost from_gives = { λ _ fault. fault ≡ NoMemory };

    fn from(_: AllocError) -> PlainFault {
        PlainFault::NoMemory
    }
}

/// Why a line is refused.
#[derive(Clone, Copy, Debug, PartialEq, Eq)]
pub enum Refused {
    /// The line is refused for this.
    Cause(PlainCause),
    /// Memory ran out.
    NoMemory,
}

impl From<AllocError> for Refused {
    ghost use Rattle.zone_plain_lines.specs.declared.error.Refused.TheVariants.{NoMemory};

    ghost from_gives = { λ _ refused. refused ≡ NoMemory };

    fn from(_: AllocError) -> Refused {
        Refused::NoMemory
    }
}

/// What is told of the line with that number, counted from 1.
pub fn fault_at(number: usize, refused: Refused) -> PlainFault
    ensures { result ≡ fault_at number refused }
{
    match refused {
        Refused::Cause(cause) => PlainFault::Line(number, cause),
        Refused::NoMemory => PlainFault::NoMemory,
    }
}
