//! Statuses, and why a source or a zone isn't opened, in numbers.
ghost use Rattle.std.specs.Prelude.{◌≡◌};
ghost use Rattle.sefunjaro_c.specs.Faults.{error_told, join_number, kind_number, opening_told, schedule_number, zone_told};

use sefunjaro::OpenFault;
use tz_lookup::{SpanFault, ZoneFault};
use zone_line::FaultKind;
use zone_source::{BuildKind, SourceError};

/// The call did what it says.
pub(crate) const DONE: u32 = 0;

/// The handle holds nothing, or nothing of the kind that is asked.
pub(crate) const NOT_OPEN: u32 = 1;

/// There was no memory.
pub(crate) const NO_MEMORY: u32 = 2;

/// The source is longer than 16,777,216 bytes.
pub(crate) const TOO_LONG: u32 = 3;

/// A line of the source, or a zone's name, is not UTF-8.
pub(crate) const NOT_TEXT: u32 = 4;

/// A line of the source can't be read.
pub(crate) const BAD_LINE: u32 = 5;

/// A line of the source reads, and may not follow those before it.
pub(crate) const BAD_JOIN: u32 = 6;

/// The name finds no zone.
pub(crate) const UNKNOWN_ZONE: u32 = 7;

/// The zone has no schedule.
pub(crate) const NO_SCHEDULE: u32 = 8;

/// Some offset of the zone is 26 hours or more in size.
pub(crate) const OFFSET_RANGE: u32 = 9;

/// A time is none, or its date lies outside the years -9999 to 9999.
pub(crate) const OUT_OF_RANGE: u32 = 10;

/// There is none of what is asked for.
pub(crate) const NONE_THERE: u32 = 11;

/// The text is none of those that are read.
pub(crate) const NOT_READ: u32 = 12;

/// A zone of a file, or of a POSIX string, doesn't keep what is asked.
pub(crate) const NOT_KEPT: u32 = 13;

/// The source, in any form, has no plain form.
pub(crate) const NO_PLAIN_FORM: u32 = 14;

/// What a call refuses: its status, and where there is one, the cause and the line of the source.
#[derive(Clone, Copy, Debug, PartialEq, Eq)]
#[repr(C)]
pub struct Fault {
    /// The status that the call answers.
    pub status: u32,
    /// The number of the cause, from 1, or 0 where the status says it all.
    pub cause: u32,
    /// The line of the source, from 1, or 0 where none is to blame.
    pub line: usize,
}

/// A status that says it all.
pub(crate) fn plain_fault(status: u32) -> Fault
    ensures { result ≡ record { status = status; cause = 0; line = 0 } }
{
    Fault {
        status,
        cause: 0,
        line: 0,
    }
}

/// Why a source isn't opened.
pub(crate) fn opening_fault(fault: &OpenFault) -> Fault
    ensures { result ≡ opening_told fault.now }
{
    match fault {
        OpenFault::TooLong => plain_fault(TOO_LONG),
        OpenFault::Source(error) => source_fault(error),
        OpenFault::NoMemory => plain_fault(NO_MEMORY),
    }
}

/// The first fault of a source.
pub(crate) fn source_fault(error: &SourceError) -> Fault
    ensures { result ≡ error_told error.now }
{
    match error {
        SourceError::NotText(line) => Fault {
            status: NOT_TEXT,
            cause: 0,
            line: *line,
        },
        SourceError::Line(line, error) => match error.kind() {
            Some(kind) => Fault {
                status: BAD_LINE,
                cause: kind_number(kind),
                line: *line,
            },
            None => plain_fault(NO_MEMORY),
        },
        SourceError::Build(line, kind) => Fault {
            status: BAD_JOIN,
            cause: join_number(*kind),
            line: *line,
        },
        SourceError::NoMemory => plain_fault(NO_MEMORY),
    }
}

/// Why a name's zone isn't opened.
pub(crate) fn zone_fault(fault: ZoneFault) -> Fault
    ensures { result ≡ zone_told fault }
{
    match fault {
        ZoneFault::UnknownZone => plain_fault(UNKNOWN_ZONE),
        ZoneFault::Schedule(cause) => Fault {
            status: NO_SCHEDULE,
            cause: schedule_number(cause),
            line: 0,
        },
        ZoneFault::OffsetRange => plain_fault(OFFSET_RANGE),
        ZoneFault::NoMemory => plain_fault(NO_MEMORY),
    }
}

fn kind_number(kind: FaultKind) -> u32
    ensures { result ≡ kind_number kind }
{
    match kind {
        FaultKind::FailedYearParse => 1,
        FaultKind::FailedMonthParse => 2,
        FaultKind::FailedWeekdayParse => 3,
        FaultKind::InvalidLineType => 4,
        FaultKind::TypeColumnContainedNonHyphen => 5,
        FaultKind::CouldNotParseSaving => 6,
        FaultKind::InvalidDaySpec => 7,
        FaultKind::InvalidTimeSpecAndType => 8,
        FaultKind::NonWallClockInTimeSpec => 9,
    }
}

fn join_number(kind: BuildKind) -> u32
    ensures { result ≡ join_number kind }
{
    match kind {
        BuildKind::SurpriseContinuationLine => 1,
        BuildKind::UnknownRuleset => 2,
        BuildKind::DuplicateLink => 3,
        BuildKind::DuplicateZone => 4,
    }
}

fn schedule_number(fault: SpanFault) -> u32
    ensures { result ≡ schedule_number fault }
{
    match fault {
        SpanFault::UnknownRuleset => 1,
        SpanFault::MissingUntil => 2,
        SpanFault::YearRange => 3,
        SpanFault::RuleYears => 4,
        SpanFault::DayRange => 5,
        SpanFault::NoStandardSpan => 6,
        SpanFault::NoMemory => 0,
    }
}
