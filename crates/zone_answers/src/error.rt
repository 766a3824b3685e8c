//! Why a source or a request is refused.

use std::alloc::AllocError;
use tz_lookup::{SpanFault, ZoneFault};
use zone_source::{BuildKind, SourceError};

/// The text that a line stands in.
#[derive(Clone, Copy, Debug, PartialEq, Eq)]
pub enum Side {
    /// The source text.
    Source,
    /// The requests.
    Requests,
}

/// The first fault of a source and its requests. Lines are numbered from 1.
#[derive(Debug, Drop, PartialEq)]
pub enum AnswerError {
    /// The line is not UTF-8.
    NotText(Side, usize),
    /// The source line is refused for this; never for want of memory.
    Line(usize, zone_line::Error),
    /// The source line reads, and does not join those before it.
    Build(usize, BuildKind),
    /// The request is in no form.
    Request(usize),
    /// The request names no zone.
    UnknownZone(usize),
    /// The named zone has no schedule, for this; never for want of memory.
    Schedule(usize, SpanFault),
    /// The named zone has an offset of 26 hours or more.
    OffsetRange(usize),
    /// The UTC date or the local date of the asked instant lies outside the years -9999 to 9999.
    Range(usize),
    /// Memory ran out.
    NoMemory,
}

impl From<AllocError> for AnswerError {
    ghost use Rattle.std.specs.Prelude.{◌≡◌};
    ghost use Rattle.zone_answers.specs.declared.error.AnswerError.TheVariants.{NoMemory};

    ghost from_gives = { λ _ error. error ≡ NoMemory };

    fn from(_: AllocError) -> AnswerError {
        AnswerError::NoMemory
    }
}

impl From<SourceError> for AnswerError {
    ghost use Rattle.zone_answers.specs.Told.{TellsSame};

    ghost from_gives = { TellsSame };

    fn from(error: SourceError) -> AnswerError {
        match error {
            SourceError::NotText(number) => AnswerError::NotText(Side::Source, number),
            SourceError::Line(number, error) => match error.kind() {
                Some(_) => AnswerError::Line(number, error),
                None => AnswerError::NoMemory,
            },
            SourceError::Build(number, kind) => AnswerError::Build(number, kind),
            SourceError::NoMemory => AnswerError::NoMemory,
        }
    }
}

impl AnswerError {
    ghost use Rattle.std.specs.Prelude.{◌≡◌, is_some};
    ghost use Rattle.tz_lookup.specs.Compiles.{IsZoneFault};
    ghost use Rattle.zone_answers.specs.Told.{fault_told, RefusesZone};

    /// Why the zone that the request of that number names can't be asked, or want of memory. Requests count from 1.
    pub fn of_zone(number: usize, fault: ZoneFault) -> AnswerError
        ensures { RefusesZone number fault result }
    {
        match fault {
            ZoneFault::UnknownZone => AnswerError::UnknownZone(number),
            ZoneFault::Schedule(fault) => AnswerError::Schedule(number, fault),
            ZoneFault::OffsetRange => AnswerError::OffsetRange(number),
            ZoneFault::NoMemory => AnswerError::NoMemory,
        }
    }

    /// Whether it is a fault of a text, and not want of memory.
    pub fn is_fault(&self) -> bool
        ensures { result ≡ is_some (fault_told self.now) }
    {
        match self {
            AnswerError::Line(_, error) => error.kind().is_some(),
            AnswerError::Schedule(_, fault) => *fault != SpanFault::NoMemory,
            AnswerError::NoMemory => false,
            _ => true,
        }
    }
}

/// The first fault where zones are read in any way.
#[derive(Debug, Drop, PartialEq)]
pub enum ReadingError {
    /// One that may come where they are read to 2099 too, or want of memory.
    Answer(AnswerError),
    /// The zone that this request names doesn't go on for ever.
    RulesEnd(usize),
}

impl From<AllocError> for ReadingError {
    ghost use Rattle.std.specs.Prelude.{◌≡◌};
    ghost use Rattle.zone_answers.specs.declared.error.{AnswerError.TheVariants.{NoMemory}, ReadingError.TheVariants.{Answer}};

    ghost from_gives = { λ _ error. error ≡ Answer NoMemory };

    fn from(_: AllocError) -> ReadingError {
        ReadingError::Answer(AnswerError::NoMemory)
    }
}

impl From<AnswerError> for ReadingError {
    ghost use Rattle.std.specs.Prelude.{◌≡◌};
    ghost use Rattle.zone_answers.specs.declared.error.ReadingError.TheVariants.{Answer};

    ghost from_gives = { λ answer error. error ≡ Answer answer };

    fn from(error: AnswerError) -> ReadingError {
        ReadingError::Answer(error)
    }
}

impl ReadingError {
    ghost use Rattle.std.specs.Prelude.{◌≡◌, is_some};
    ghost use Rattle.zone_answers.specs.Told.{reading_told};

    /// Whether it is a fault of a text, and not want of memory.
    pub fn is_fault(&self) -> bool
        ensures { result ≡ is_some (reading_told self.now) }
    {
        match self {
            ReadingError::Answer(error) => error.is_fault(),
            ReadingError::RulesEnd(_) => true,
        }
    }
}
