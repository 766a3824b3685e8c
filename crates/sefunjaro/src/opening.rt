//! From the bytes of a source to zones that can be asked.
ghost use Rattle.std.specs.Prelude.{◌≡◌, ◌≤◌, None, IfErr, IfOk, OnOk, length, map as each};
ghost use Rattle.zone_source.specs.{Faults.{source_fault}, Zones.{values_of}};
ghost use Rattle.zone_table.specs.{BoundedTables.{IsBoundedTable}, Tables.{IsTableOf}};
ghost use Rattle.tz_lookup.specs.{CompactShown.{seen}, Compiles.{compiled_in, IsCompiledAs}, Databases.{names_of, found_in, found_as}, Sets.{schedule_of, IsAccepted}};
ghost use Rattle.sefunjaro.specs.{Causes.{IsSourceCause, IsZoneCause, IsDatabaseCause}, declared.error.Error.TheVariants.{NoMemory}};

use crate::error::Error;
use std::alloc::Global;
use tz_lookup::{
    CompactFault, CompactSet, Database, DatabaseFault, FixedTimespanSet, ZoneFault, compile_zone,
};
use zone_line::LineParser;
use zone_source::{LIMIT, SourceError, read_table};
use zone_table::Table;

/// The table of all rulesets, zones and links of a source, the text of the tz database in its plain form. A parser serves for
/// any number of sources.
///
/// # Errors
///
/// `TooLong` exactly where the source is longer than 16,777,216 bytes; else `Source` with the first line that is refused and
/// its cause; `NoMemory`, never where `TooLong` is due.
pub fn open_source(alloc: Global, parser: &LineParser, source: &[u8]) -> Result<Table, Error>
    ensures short { OnOk result (length source.now ≤ LIMIT) }
    ensures ok { OnOk result (source_fault source.now ≡ None) }
    ensures table { IfOk result (λ table. IsTableOf table (values_of source.now)) }
    ensures bounded { IfOk result IsBoundedTable }
    ensures err { IfErr result (IsSourceCause source.now) }
{
    if source.len() > LIMIT {
        return Err(Error::TooLong);
    }
    match read_table(alloc, parser, source) {
        Ok(table) => Ok(table),
        Err(SourceError::NoMemory) => Err(Error::NoMemory),
        Err(error) => Err(Error::Source(error)),
    }
}

/// The zone of that name, or of the link of that name, worked out and kept compactly: [`CompactTz::new`] asks it. A table of
/// [`open_source`] is bounded.
///
/// # Errors
///
/// `Zone`, in this order: `UnknownZone` exactly where the name finds no zone; `Schedule` with the zone's first fault;
/// `OffsetRange` exactly where some offset is 26 hours or more in size. Then `NoMemory`.
pub fn open_zone(alloc: Global, table: &Table, name: &str) -> Result<CompactSet, Error>
    requires { IsBoundedTable table.now }
    ensures ok { IfOk result (λ set. IsCompiledAs (seen set) (compiled_in table.now name.now)) }
    ensures named { IfOk result (λ set. (seen set).name ≡ name.now) }
    ensures accepted { IfOk result (λ set. IsAccepted (schedule_of (seen set))) }
    ensures err { IfErr result (IsZoneCause (compiled_in table.now name.now)) }
{
    match compile_zone(alloc, table, name) {
        Ok(set) => compact_of(alloc, &set),
        Err(ZoneFault::UnknownZone) => Err(Error::Zone(ZoneFault::UnknownZone)),
        Err(ZoneFault::Schedule(cause)) => Err(Error::Zone(ZoneFault::Schedule(cause))),
        Err(ZoneFault::OffsetRange) => Err(Error::Zone(ZoneFault::OffsetRange)),
        Err(ZoneFault::NoMemory) => Err(Error::NoMemory),
    }
}

/// A set that can be looked up, kept compactly.
fn compact_of(alloc: Global, set: &FixedTimespanSet) -> Result<CompactSet, Error>
    requires { IsAccepted (schedule_of set.now) }
    ensures ok { IfOk result (λ compact. seen compact ≡ set.now) }
    ensures err { IfErr result (λ error. error ≡ NoMemory) }
{
    match CompactSet::build(alloc, set) {
        Ok(compact) => Ok(compact),
        Err(CompactFault::NoMemory) => Err(Error::NoMemory),
        Err(CompactFault::OffsetRange | CompactFault::Falling | CompactFault::Bound) => {
            unreachable!()
        }
    }
}

/// Every zone and link of a table, found by its name or by a part of it. A table of [`open_source`] is bounded.
///
/// # Errors
///
/// `Database` with the first name in byte order whose zone can't be asked, and why; `NoMemory`.
pub fn open_database(alloc: Global, table: &Table) -> Result<Database, Error>
    requires { IsBoundedTable table.now }
    ensures ok { IfOk result (λ database. each found_as database ≡ each (found_in table.now) (names_of table.now)) }
    ensures err { IfErr result (IsDatabaseCause table.now) }
{
    match Database::build(alloc, table) {
        Ok(database) => Ok(database),
        Err(DatabaseFault::Schedule(name, cause)) => {
            Err(Error::Database(DatabaseFault::Schedule(name, cause)))
        }
        Err(DatabaseFault::OffsetRange(name)) => {
            Err(Error::Database(DatabaseFault::OffsetRange(name)))
        }
        Err(DatabaseFault::NoMemory) => Err(Error::NoMemory),
    }
}
