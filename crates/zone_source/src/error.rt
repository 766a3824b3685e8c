//! Why a source is refused.

use crate::fault_line::FaultText;
use std::alloc::AllocError;
use std::{error, fmt};

/// Why a source line does not join those before it.
#[derive(Clone, Copy, Debug, PartialEq, Eq)]
pub enum BuildKind {
    /// It is a continuation with no zone to belong to.
    SurpriseContinuationLine,
    /// It is a Zone line under a ruleset that no earlier line defines.
    UnknownRuleset,
    /// It is a link with the new name of an earlier link.
    DuplicateLink,
    /// It is a Zone line with the name of an earlier zone.
    DuplicateZone,
}

/// The first fault of a source. Lines are numbered from 1.
#[derive(Debug, Drop, PartialEq)]
pub enum SourceError {
    /// The line is not UTF-8.
    NotText(usize),
    /// The line is refused for this; never for want of memory.
    Line(usize, zone_line::Error),
    /// The line reads, and does not join those before it.
    Build(usize, BuildKind),
    /// Memory ran out.
    NoMemory,
}

impl From<AllocError> for SourceError {
    ghost use Rattle.std.specs.Prelude.{◌≡◌};
    ghost use Rattle.zone_source.specs.declared.error.SourceError.TheVariants.{NoMemory};

    ghost from_gives = { λ _ error. error ≡ NoMemory };

    fn from(_: AllocError) -> SourceError {
        SourceError::NoMemory
    }
}

/// The line and its cause, as `source 2: line FailedMonthParse`.
impl fmt::Display for SourceError {
    fn fmt<W: fmt::Write>(&self, f: &mut fmt::Formatter<W>) -> fmt::Result {
        match FaultText::of_source(self) {
            Some(text) => write_text(f, &text),
            None => f.write_str("out of memory"),
        }
    }
}

impl error::Error for SourceError {}

fn write_text<W: fmt::Write>(f: &mut fmt::Formatter<W>, text: &FaultText) -> fmt::Result {
    write!(
        f,
        "{}{}: {}{}",
        text.side, text.number, text.group, text.cause
    )
}

impl SourceError {
    ghost use Rattle.std.specs.Prelude.{◌≡◌, MatchOption, Some};
    ghost use Rattle.zone_table.specs.{Faults.{fault_of}, Built.{refusal_of}};
    ghost use Rattle.zone_source.specs.{Faults.{bad_line, bad_join, kind_of}, Told.{told_by_source}, declared.error.SourceError.TheVariants.{NoMemory}};

    /// The refusal of the nth line, or want of memory.
    pub(crate) fn of_line(number: usize, error: zone_line::Error) -> SourceError
        ensures { MatchOption (fault_of error) (result ≡ NoMemory) (λ f. told_by_source result ≡ Some (bad_line number f)) }
    {
        match error {
            zone_line::Error::NoMemory => SourceError::NoMemory,
            error => SourceError::Line(number, error),
        }
    }

    /// Why the nth line does not join those before it, or want of memory.
    pub(crate) fn of_join(number: usize, error: &zone_table::Error) -> SourceError
        ensures { MatchOption (refusal_of error.now) (result ≡ NoMemory) (λ refused. told_by_source result ≡ Some (bad_join number (kind_of refused))) }
    {
        let kind = match error {
            zone_table::Error::SurpriseContinuationLine => BuildKind::SurpriseContinuationLine,
            zone_table::Error::UnknownRuleset(_) => BuildKind::UnknownRuleset,
            zone_table::Error::DuplicateLink(_) => BuildKind::DuplicateLink,
            zone_table::Error::DuplicateZone => BuildKind::DuplicateZone,
            zone_table::Error::NoMemory => return SourceError::NoMemory,
        };
        SourceError::Build(number, kind)
    }
}
