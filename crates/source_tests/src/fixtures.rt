//! What many tests begin with.
ghost use Rattle.std.specs.Prelude.{◌≤◌, length};
ghost use Rattle.zone_table.specs.BoundedTables.{IsBoundedTable};
ghost use Rattle.tz_lookup.specs.Sets.{schedule_of, IsAccepted};

use civil_base::OffsetDateTime;
use std::alloc::Global;
use std::process::Abort;
use tz_lookup::{CompactSet, Database, FixedTimespanSet, compile_zone};
use zone_line::LineParser;
use zone_source::{LIMIT, read_table};
use zone_table::Table;
use zone_uses::zone_of_source;

/// A zone of one offset.
pub(crate) const FIXED: &[u8] = b"Zone Test/Fixed 1:30 - TST";

/// New York by two yearly rules, of which the second takes back the saving of the first.
pub(crate) const NEW_YORK: &[u8] = b"\
Rule US 2007 max - Mar Sun>=8 2:00 1:00 D
Rule US 2007 max - Nov Sun>=1 2:00 0 S
Zone America/New_York -5:00 US E%sT
";

/// A parser of lines.
pub(crate) fn parser(rt: &impl Abort, alloc: Global) -> LineParser {
    LineParser::new(alloc).expect(rt, "not built")
}

/// The table of a source.
pub(crate) fn table_of(rt: &impl Abort, alloc: Global, source: &[u8]) -> Table
    requires { length source.now ≤ LIMIT }
    ensures { IsBoundedTable result }
{
    let parser = parser(rt, alloc);
    read_table(alloc, &parser, source).expect(rt, "no table")
}

/// The database of a source.
pub(crate) fn database_of(rt: &impl Abort, alloc: Global, source: &[u8]) -> Database
    requires { length source.now ≤ LIMIT }
{
    Database::build(alloc, &table_of(rt, alloc, source)).expect(rt, "no database")
}

/// The set of a zone of a source.
pub(crate) fn set_of(rt: &impl Abort, alloc: Global, source: &[u8], name: &str) -> FixedTimespanSet
    requires { length source.now ≤ LIMIT }
    ensures { IsAccepted (schedule_of result) }
{
    compile_zone(alloc, &table_of(rt, alloc, source), name).expect(rt, "no zone")
}

/// The compact set of New York in a source.
pub(crate) fn compact_of(rt: &impl Abort, alloc: Global, source: &[u8]) -> CompactSet {
    zone_of_source(alloc, &parser(rt, alloc), source, "America/New_York").expect(rt, "no zone")
}

/// The date-time at UTC so many seconds from 1970-01-01 00:00:00.
pub(crate) fn at(rt: &impl Abort, second: i64) -> OffsetDateTime {
    OffsetDateTime::from_unix_timestamp(second)
        .ok()
        .expect(rt, "out of range")
}
