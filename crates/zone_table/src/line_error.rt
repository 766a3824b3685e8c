//! Why a line is refused.
use crate::fault::FaultKind;
use std::alloc::AllocError;
use thiserror::Error;

/// A line or a column that can't be read, with its text. That of a month or a weekday is in ASCII
/// lower case.
#[derive(Debug, Drop, PartialEq, Error)]
pub enum Error {
    /// A year that is no number of 64 bits and none of `min`, `minimum`, `max` and `maximum`.
    #[error("failed to parse as a year value: \"{0}\"")]
    FailedYearParse(String),
    /// A text that is no English name of a month, in full or in three letters.
    #[error("failed to parse as a month value: \"{0}\"")]
    FailedMonthParse(String),
    /// A text that is no English name of a weekday, in full or in three letters.
    #[error("failed to parse as a weekday value: \"{0}\"")]
    FailedWeekdayParse(String),
    /// A line of no kind, or one whose end has no year: the whole line.
    #[error("line with invalid format: \"{0}\"")]
    InvalidLineType(String),
    /// The TYPE column of a rule is not a hyphen.
    #[error("'type' column is not a hyphen but has the value: \"{0}\"")]
    TypeColumnContainedNonHyphen(String),
    /// The RULES column is no hyphen, no name and no time.
    #[error("failed to parse RULES column: \"{0}\"")]
    CouldNotParseSaving(String),
    /// A day that is in none of the four forms, or whose number is not from 1 to 31.
    #[error("invalid day specification ('ON'): \"{0}\"")]
    InvalidDaySpec(String),
    /// A text that is no time.
    #[error("invalid time: \"{0}\"")]
    InvalidTimeSpecAndType(String),
    /// An offset or a saving that is marked as standard or universal time.
    #[error("time value not given as wall time: \"{0}\"")]
    NonWallClockInTimeSpec(String),
    /// Memory ran out.
    #[error("out of memory")]
    NoMemory,
}

impl From<AllocError> for Error {
    ghost use Rattle.std.specs.Prelude.{◌≡◌};
    ghost use Rattle.zone_table.specs.declared.line_error.Error.TheVariants.{NoMemory};

    ghost from_gives = { λ _ e. e ≡ NoMemory };

    fn from(_error: AllocError) -> Error {
        Error::NoMemory
    }
}

impl Error {
    ghost use Rattle.std.specs.Prelude.{◌≡◌, option_map};
    ghost use Rattle.zone_table.specs.Faults.{fault_of};

    /// What was refused, or none where memory ran out.
    pub fn kind(&self) -> Option<FaultKind>
        ensures { result ≡ option_map (λ fault. fault.kind) (fault_of self.now) }
    {
        Some(match self {
            Error::FailedYearParse(_) => FaultKind::FailedYearParse,
            Error::FailedMonthParse(_) => FaultKind::FailedMonthParse,
            Error::FailedWeekdayParse(_) => FaultKind::FailedWeekdayParse,
            Error::InvalidLineType(_) => FaultKind::InvalidLineType,
            Error::TypeColumnContainedNonHyphen(_) => FaultKind::TypeColumnContainedNonHyphen,
            Error::CouldNotParseSaving(_) => FaultKind::CouldNotParseSaving,
            Error::InvalidDaySpec(_) => FaultKind::InvalidDaySpec,
            Error::InvalidTimeSpecAndType(_) => FaultKind::InvalidTimeSpecAndType,
            Error::NonWallClockInTimeSpec(_) => FaultKind::NonWallClockInTimeSpec,
            Error::NoMemory => return None,
        })
    }
}
