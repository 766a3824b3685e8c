//! What errors say.

use crate::error::Error;
use std::{error, fmt};
use tz_lookup::{DatabaseFault, SpanFault, TzFault, ZoneFault};
use zone_tail::TailFault;
use zone_tzif::EverTailFault;

const FAR_OFFSET: &str = "an offset of the zone is 26 hours or more in size";

const NO_MEMORY: &str = "out of memory";

impl fmt::Display for Error {
    fn fmt<W: fmt::Write>(&self, f: &mut fmt::Formatter<W>) -> fmt::Result {
        match self {
            Error::Source(fault) => write!(f, "{fault}"),
            Error::Plain(fault) => write!(f, "in the plain form, {fault}"),
            Error::Line(line, cause) => write!(f, "source {line}: {cause}"),
            Error::Database(fault) => write_database_fault(f, fault),
            Error::Tzif(fault) => write!(f, "{fault}"),
            Error::Tree(fault) => write!(f, "{fault}"),
            Error::FileZone(fault) => write!(f, "{fault}"),
            error => f.write_str(text_of(error)),
        }
    }
}

impl error::Error for Error {}

/// The text of an error that names neither a line nor a zone.
fn text_of(error: &Error) -> &'static str {
    match error {
        Error::TooLong => "the source is longer than 16,777,216 bytes",
        Error::PlainTooLong => {
            "the plain form of the source would be longer than 16,777,216 bytes"
        }
        Error::Parser => "the patterns of a parser couldn't be built",
        Error::Zone(fault) => zone_text(*fault),
        Error::Set(fault) => set_text(*fault),
        Error::List(_) => "a change of the window has no date in the years -9999 to 9999",
        Error::Alarm(_) => "the last day of the alarm is past 9999-12-31",
        Error::Tail(fault) => tail_text(*fault),
        Error::EverTail(fault) => ever_tail_text(*fault),
        Error::File(_) => "the bytes are no compiled zone file",
        Error::Posix => "the text is no POSIX TZ string that is read",
        _ => NO_MEMORY,
    }
}

/// Why a name finds no zone that can be asked.
fn zone_text(fault: ZoneFault) -> &'static str {
    match fault {
        ZoneFault::UnknownZone => "unknown zone",
        ZoneFault::Schedule(cause) => schedule_text(cause),
        ZoneFault::OffsetRange => FAR_OFFSET,
        ZoneFault::NoMemory => NO_MEMORY,
    }
}

/// Why a zone has no schedule.
fn schedule_text(cause: SpanFault) -> &'static str {
    match cause {
        SpanFault::UnknownRuleset => "a line of the zone names a ruleset that isn't there",
        SpanFault::MissingUntil => "a line of the zone that isn't its last has no end",
        SpanFault::YearRange => "a line of the zone ends in a year that is none from 1 to 9999",
        SpanFault::RuleYears => "a rule of the zone has no first year, or ends before all years",
        SpanFault::DayRange => "a day of the zone lies in another year",
        SpanFault::NoStandardSpan => "the zone never has standard time",
        SpanFault::NoMemory => NO_MEMORY,
    }
}

/// Why a set that was made by hand can't be asked.
fn set_text(fault: TzFault) -> &'static str {
    match fault {
        TzFault::OffsetRange => FAR_OFFSET,
        TzFault::Falling => "a change of the zone comes before the one that stands before it",
        TzFault::Bound => "a change of the zone is more than 2^40 seconds from 1970",
    }
}

/// Why no string carries a zone on.
fn tail_text(fault: TailFault) -> &'static str {
    match fault {
        TailFault::Shape => "the last year of the zone is that of no POSIX TZ string",
        TailFault::OffsetRange => "an offset of the zone is past what a POSIX TZ string can say",
        TailFault::Name => "an abbreviation of the zone is none of a POSIX TZ string",
        TailFault::NoMemory => NO_MEMORY,
    }
}

/// Why no string carries a zone on for ever.
fn ever_tail_text(fault: EverTailFault) -> &'static str {
    match fault {
        EverTailFault::Saving => "the zone has daylight saving time for good, and no footer",
        EverTailFault::Shape => "the years of the zone are those of no footer",
        EverTailFault::OffsetRange => "an offset of the zone is past what a footer can say",
        EverTailFault::Name =>
            "an abbreviation of the zone isn't three or more letters, digits, + or -",
        EverTailFault::NoRule => "no footer says what the rules of the zone say for ever",
        EverTailFault::NoMemory => NO_MEMORY,
    }
}

/// The first zone that can't be asked, and why.
fn write_database_fault<W: fmt::Write>(
    f: &mut fmt::Formatter<W>,
    fault: &DatabaseFault,
) -> fmt::Result {
    match fault {
        DatabaseFault::Schedule(name, cause) => write_named(
            f,
            name.as_str(),
            schedule_text(*cause),
        ),
        DatabaseFault::OffsetRange(name) => write_named(f, name.as_str(), FAR_OFFSET),
        DatabaseFault::NoMemory => f.write_str(NO_MEMORY),
    }
}

fn write_named<W: fmt::Write>(f: &mut fmt::Formatter<W>, name: &str, cause: &str) -> fmt::Result {
    write!(f, "{name}: {cause}")
}
