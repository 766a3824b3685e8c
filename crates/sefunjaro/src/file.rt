//! Zones of compiled files, and of POSIX strings.
ghost use Rattle.std.specs.Prelude.{◌≡◌, [], MatchResult, IfErr, IfOk, false, true};
ghost use Rattle.zone_tzif_core.specs.{Shown.{kind_shown}, ZoneFiles.{zone_seen}, Zones.{is_small}};
ghost use Rattle.sefunjaro.specs.{Files.{IsFileFault}, Posix.{IsPosixFault, IsStandardOf}, declared.file.PosixFault.TheVariants.{NoMemory as NoPosixMemory}};

use crate::zone::OpenZone;
use civil_base::UtcOffset;
use std::alloc::Global;
use thiserror::Error;
use tz_tzif::{
    FileSpans, Footer, TzifFault, footer_text, one_footer, opened_shows, read_footer, spans_of,
};
use zone_tzif_core::{Kind, ReadFault, Record, ZoneFile, read_file, said_bounds, said_footer};

/// Why a file gives no zone.
#[derive(Clone, Copy, Debug, PartialEq, Eq, Error)]
pub enum FileFault {
    /// It is no compiled file that is read.
    #[error("the bytes are no compiled zone file")]
    Refused,
    /// Its footer is neither empty nor a POSIX string of those that are read.
    #[error("the footer of the compiled zone is no POSIX TZ string that is read")]
    Footer,
    /// There was no memory for the zone.
    #[error("out of memory")]
    NoMemory,
}

/// Why a text gives no zone.
#[derive(Clone, Copy, Debug, PartialEq, Eq, Error)]
pub enum PosixFault {
    /// It is no POSIX string of those that are read.
    #[error("the text is no POSIX TZ string that is read")]
    Refused,
    /// There was no memory for the zone.
    #[error("out of memory")]
    NoMemory,
}

impl OpenZone {
    ghost use Rattle.tz_tzif.specs.{Faults.{HasOffsets}, Opened.{IsOpenedAs}};
    ghost use Rattle.sefunjaro.specs.Files.{IsFileFault, IsFileOf, IsPosixOf, IsValueFault, ShowsFile};

    /// The zone of a compiled file (RFC 8536, any version), with what its footer, if it has one, says from the last change on. It
    /// takes memory in proportion to the file's changes, with those of its footer up to the year 2502, as [`spans_of`] says.
    ///
    /// # Errors
    ///
    /// In this order: `Refused` exactly where the bytes are no file of the format, or one with leap seconds or with an offset
    /// past 93,599 seconds in size; `Footer` exactly where there is a footer and it is no footer in the ranges of its parts;
    /// `NoMemory`, only where there is a zone.
    pub fn of_file(alloc: Global, bytes: &[u8]) -> Result<OpenZone, FileFault>
        ensures { MatchResult result (IsFileOf bytes.now) (IsFileFault bytes.now) }
    {
        said_bounds();
        match read_file(alloc, bytes) {
            Ok(zone) => OpenZone::of_value(alloc, zone),
            Err(ReadFault::Refused) => Err(FileFault::Refused),
            Err(ReadFault::NoMemory) => Err(wanting(bytes)),
        }
    }

    /// The zone that a POSIX string stands for, at all times: standard time alone, or with daylight saving time and its rule, as
    /// the footers of compiled files are. Before all it has standard time for its first kind.
    ///
    /// # Errors
    ///
    /// In this order: `Refused` exactly where the text is no such string in the ranges of its parts; `NoMemory`,
    /// only where it is one.
    pub fn of_posix(alloc: Global, text: &str) -> Result<OpenZone, PosixFault>
        ensures { MatchResult result (IsPosixOf text.now) (IsPosixFault text.now) }
    {
        match standard_of(alloc, text) {
            Ok(first) => OpenZone::of_string(alloc, first, text),
            Err(fault) => Err(fault),
        }
    }

    /// A zone without changes, whose footer is that text.
    fn of_string(alloc: Global, first: Kind, text: &str) -> Result<OpenZone, PosixFault>
        requires { IsStandardOf text.now (kind_shown first) }
        ensures { MatchResult result (IsPosixOf text.now) (IsPosixFault text.now) }
    {
        let kind = Record {
            utoff: first.utoff,
            is_dst: first.is_dst,
            name: first.name.as_str(),
        };
        let Ok(zone) = ZoneFile::steady(alloc, &kind, text) else {
            return Err(PosixFault::NoMemory);
        };
        match OpenZone::of_value(alloc, zone) {
            Ok(zone) => Ok(zone),
            Err(FileFault::Refused) => Err(PosixFault::Refused),
            Err(FileFault::Footer) => Err(PosixFault::Refused),
            Err(FileFault::NoMemory) => Err(PosixFault::NoMemory),
        }
    }

    /// The zone of a value whose times rise, and whose offsets are small.
    fn of_value(alloc: Global, zone: ZoneFile) -> Result<OpenZone, FileFault>
        requires { HasOffsets (zone_seen zone) }
        ensures { MatchResult result (ShowsFile (zone_seen zone)) (IsValueFault (zone_seen zone)) }
    {
        match spans_of(alloc, "", &zone) {
            Ok(spans) => OpenZone::of_file_spans(alloc, &spans, &zone),
            Err(TzifFault::Times) => unreachable!(),
            Err(TzifFault::Offset) => unreachable!(),
            Err(TzifFault::Footer) => Err(FileFault::Footer),
            Err(TzifFault::NoMemory) => Err(FileFault::NoMemory),
        }
    }

    /// The zone of the spans of a value.
    fn of_file_spans(
        alloc: Global,
        spans: &FileSpans,
        zone: &ZoneFile,
    ) -> Result<OpenZone, FileFault>
        requires { IsOpenedAs [] (zone_seen zone.now) spans.now }
        ensures { MatchResult result (ShowsFile (zone_seen zone.now)) (IsValueFault (zone_seen zone.now)) }
    {
        let _ = zone;
        opened_shows();
        match OpenZone::of_spans(alloc, &spans.set, spans.recurrence) {
            Ok(zone) => Ok(zone),
            Err(_) => Err(FileFault::NoMemory),
        }
    }
}

/// Why a file gives no zone, where there was no memory to read it: a cause that is found without memory, or else this.
fn wanting(bytes: &[u8]) -> FileFault
    ensures { IsFileFault bytes.now result }
{
    match said_footer(bytes) {
        Some(footer) => match read_footer(footer) {
            Some(_) => FileFault::NoMemory,
            None => FileFault::Footer,
        },
        None => FileFault::Refused,
    }
}

/// The standard time of a POSIX string.
fn standard_of(alloc: Global, text: &str) -> Result<Kind, PosixFault>
    ensures { MatchResult result (λ kind. IsStandardOf text.now (kind_shown kind)) (IsPosixFault text.now) }
{
    one_footer();
    match Footer::parse(text) {
        Some(footer) => match footer_text(text) {
            Some(read) => standard_kind(alloc, read.std.name, footer.offsets().0),
            None => Err(PosixFault::Refused),
        },
        None => Err(PosixFault::Refused),
    }
}

/// Standard time of that abbreviation and offset.
fn standard_kind(alloc: Global, name: &str, offset: UtcOffset) -> Result<Kind, PosixFault>
    ensures kind { IfOk result (λ kind. kind_shown kind ≡ record { utoff = offset; is_dst = false; name = name.now }) }
    ensures small { IfOk result (λ _. is_small offset ≡ true) }
    ensures err { IfErr result (λ fault. fault ≡ NoPosixMemory) }
{
    match String::from_str(alloc, name) {
        Ok(name) => Ok(Kind {
            utoff: offset.whole_seconds(),
            is_dst: false,
            name,
        }),
        Err(_) => Err(PosixFault::NoMemory),
    }
}
