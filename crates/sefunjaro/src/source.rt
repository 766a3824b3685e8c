//! A source that is kept open, and its names in order.
ghost use Rattle.std.{specs.Prelude.{◌≡◌, IfErr, IfOk, IfSome}, proofs.Props.{props}};
ghost use Rattle.sefunjaro.specs.{Zones.{GoesOnAs}, Releases.{if_some, release_text}};
ghost use Rattle.tz_ever.specs.{Opens.{IsZoneToday}, ZoneShown.{recurrence_of}, declared.recurrence.Recurrence.TheVariants.{Later}};
ghost use Rattle.tz_lookup.specs.{Compiles.{compiled_in, IsZoneFault}, Databases.{names_of}};
ghost use Rattle.zone_table.specs.BoundedTables.{IsBoundedTable};
ghost use Rattle.zone_source.specs.Releases.{release_of};

use crate::zone::OpenZone;
use basics::{Items, Text};
use std::alloc::{AllocError, Global};
use thiserror::Error;
use tz_ever::{EverFault, ZoneSet, laws};
use tz_lookup::{ZoneFault, compile_zone, names_in_order};
use zone_line::LineParser;
use zone_source::{LIMIT, SourceError, read_table, release_of};
use zone_table::Table;

/// Every name of a table that finds a zone, in byte order, each once.
pub(crate) fn names_of(alloc: Global, table: &Table) -> Result<Items<Text>, AllocError>
    ensures { IfOk result (λ names. names ≡ names_of table.now) }
{
    let in_order = names_in_order(alloc, table)?;
    let mut names = Items::new(alloc);
    for name in in_order.iter() {
        names.push(Text::new(alloc, name)?)?;
    }
    Ok(names)
}

/// The zones of a source, with their names in byte order, and its release, or nothing where it names none.
#[derive(Drop)]
pub struct OpenSource {
    table: Table,
    names: Items<Text>,
    release: Text,
    ghost bounded: { IsBoundedTable table } by { Prim.hlevel props },
    ghost all: { names ≡ names_of table },
}

/// The release that a text names, or nothing where it names none.
fn release_text(text: &[u8]) -> &str
    ensures value { result.now ≡ release_text (release_of text.now) }
    ensures back { if_some result.now ≡ release_of text.now }
{
    match release_of(text) {
        Some(release) => release,
        None => "",
    }
}

/// Why a source isn't opened.
#[derive(Debug, Drop, PartialEq, Error)]
pub enum OpenFault {
    /// It is longer than 16,777,216 bytes.
    #[error("the source is longer than 16,777,216 bytes")]
    TooLong,
    /// The first fault of its lines.
    #[error(transparent)]
    Source(SourceError),
    /// There was no memory for it.
    #[error("out of memory")]
    NoMemory,
}

impl OpenSource {
    ghost use Rattle.std.specs.{Prelude.{◌≡◌, ◌≤◌, IfOk, IfErr, OnOk, None, length}, List.{slice_get}, Option.{option_copied}};
    ghost use Rattle.tz_lookup.specs.{Databases.{names_of}, Compiles.{compiled_in, IsZoneFault}, Sets.{schedule_of, IsAccepted}};
    ghost use Rattle.zone_table.specs.{BoundedTables.{IsBoundedTable}, Tables.{IsTableOf}};
    ghost use Rattle.zone_source.specs.{Faults.{source_fault}, Zones.{values_of}, Releases.{release_of}};
    ghost use Rattle.sefunjaro.specs.{Faults.{IsOpenFault, IsReadFault}, Sources.{table_in, release_in}, Zones.{ever_in, origin_in, recurrence_in, recurrence_with, set_in, GoesOnAs, IsAsCompiled, IsOpened}, declared.source.OpenFault.TheVariants.{NoMemory}};
    ghost use Rattle.sefunjaro.specs.declared.zone.Origin.TheVariants.{Source};

    /// Opens a source from its text in plain form, and in no other.
    ///
    /// # Errors
    ///
    /// `TooLong` exactly where the text is longer than 16,777,216 bytes; then `Source` with its first fault, which is never
    /// want of memory; `NoMemory`, never where `TooLong` is due.
    pub fn open_plain(alloc: Global, text: &[u8]) -> Result<OpenSource, OpenFault>
        ensures short { OnOk result (length text.now ≤ LIMIT) }
        ensures ok { OnOk result (source_fault text.now ≡ None) }
        ensures table { IfOk result (λ source. IsTableOf (table_in source) (values_of text.now)) }
        ensures release { IfOk result (λ source. release_in source ≡ release_of text.now) }
        ensures err { IfErr result (IsOpenFault text.now) }
    {
        if text.len() > LIMIT {
            return Err(OpenFault::TooLong);
        }
        let Ok(parser) = LineParser::new(alloc) else {
            return Err(OpenFault::NoMemory);
        };
        OpenSource::read(alloc, &parser, text)
    }

    /// The same with a parser of lines that is there, of a text that isn't too long.
    pub(crate) fn read(
        alloc: Global,
        parser: &LineParser,
        text: &[u8],
    ) -> Result<OpenSource, OpenFault>
        requires { length text.now ≤ LIMIT }
        ensures ok { OnOk result (source_fault text.now ≡ None) }
        ensures table { IfOk result (λ source. IsTableOf (table_in source) (values_of text.now)) }
        ensures release { IfOk result (λ source. release_in source ≡ release_of text.now) }
        ensures err { IfErr result (IsReadFault text.now) }
    {
        match read_table(alloc, parser, text) {
            Ok(table) => OpenSource::of(alloc, table, text),
            Err(SourceError::NoMemory) => Err(OpenFault::NoMemory),
            Err(error) => Err(OpenFault::Source(error)),
        }
    }

    /// A table with its names, and the release that its text names.
    fn of(alloc: Global, table: Table, text: &[u8]) -> Result<OpenSource, OpenFault>
        requires { IsBoundedTable table }
        ensures ok { IfOk result (λ source. table_in source ≡ table) }
        ensures release { IfOk result (λ source. release_in source ≡ release_of text.now) }
        ensures err { IfErr result (λ fault. fault ≡ NoMemory) }
    {
        let Ok(release) = Text::new(alloc, release_text(text)) else {
            return Err(OpenFault::NoMemory);
        };
        match names_of(alloc, &table) {
            Ok(names) => Ok(OpenSource {
                table,
                names,
                release,
            }),
            Err(_) => Err(OpenFault::NoMemory),
        }
    }

    /// The table of its lines, or of those of its plain form where it was opened in any form.
    pub fn table(&self) -> &Table
        ensures same { result.now ≡ table_in self.now }
        ensures bounded { IsBoundedTable result.now }
    {
        &self.table
    }

    /// The release that the source names by its first line, as `2026b` in `# version 2026b`, if it names one.
    pub fn release(&self) -> Option<&str>
        ensures { option_copied result ≡ release_in self.now }
    {
        let release = self.release.as_str();
        if release.is_empty() {
            None
        } else {
            Some(release)
        }
    }

    /// How many names find a zone: those of its zones, and of the links to them.
    pub fn name_count(&self) -> usize
        ensures { result ≡ length (names_of (table_in self.now)) }
    {
        self.names.len()
    }

    /// The names that find a zone, in byte order.
    pub fn names(&self) -> &Items<Text>
        ensures { result.now ≡ names_of (table_in self.now) }
    {
        &self.names
    }

    /// The name at a place of their byte order, which counts from 0, if there are so many.
    pub fn name(&self, place: usize) -> Option<&str>
        ensures { option_copied result ≡ slice_get (names_of (table_in self.now)) place }
    {
        match self.names.get(place) {
            Some(name) => Some(name.as_str()),
            None => None,
        }
    }

    /// The zone that a name finds. It needs no more of the source. It goes on for ever exactly where the lines of the name do, by
    /// offsets of less than 26 hours.
    ///
    /// # Errors
    ///
    /// In this order: `UnknownZone` exactly where the name finds no zone; `Schedule` with the zone's first fault up to the end of 2099,
    /// which is never want of memory; `OffsetRange` exactly where some span up to then has an offset of 26 hours or more; `NoMemory`.
    pub fn zone(&self, alloc: Global, name: &str) -> Result<OpenZone, ZoneFault>
        ensures ok { IfOk result (IsOpened name.now (compiled_in (table_in self.now) name.now)) }
        ensures accepted { IfOk result (λ zone. IsAccepted (schedule_of (set_in zone))) }
        ensures goes_on { IfOk result (λ zone. GoesOnAs (table_in self.now) name.now (ever_in zone)) }
        ensures recurs { IfOk result (λ zone. recurrence_in zone ≡ recurrence_with (ever_in zone)) }
        ensures as_compiled { IfOk result IsAsCompiled }
        ensures origin { IfOk result (λ zone. origin_in zone ≡ Source) }
        ensures err { IfErr result (IsZoneFault (compiled_in (table_in self.now) name.now)) }
    {
        let set = compile_zone(alloc, &self.table, name)?;
        laws::is_today();
        laws::shows_as_today();
        match set_for_ever(alloc, &self.table, name) {
            Ok(for_ever) => Ok(OpenZone::of_set(alloc, &set, for_ever)?),
            Err(fault) => Err(fault),
        }
    }
}

/// What is in force for ever in a zone that has a schedule today, if it goes on.
fn set_for_ever(alloc: Global, table: &Table, name: &str) -> Result<Option<ZoneSet>, ZoneFault>
    requires table { IsBoundedTable table.now }
    requires today { IsZoneToday table.now name.now }
    ensures ok { IfOk result (GoesOnAs table.now name.now) }
    ensures later { IfOk result (λ found. IfSome found (λ zone. recurrence_of zone ≡ Later)) }
    ensures err { IfErr result (IsZoneFault (compiled_in table.now name.now)) }
{
    match ZoneSet::carry_on(alloc, table, name) {
        Ok(ever) => Ok(Some(ever)),
        Err(EverFault::Zone(fault)) => Err(fault),
        Err(EverFault::LaterDay) => Ok(None),
        Err(EverFault::RulesEnd) => Ok(None),
        Err(EverFault::LaterOffset) => Ok(None),
    }
}
