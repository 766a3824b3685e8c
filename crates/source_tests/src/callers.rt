//! What the short callers of the library answer over a source of two zones. Expected values are those of Python's `zoneinfo`.
ghost use Rattle.zone_table.specs.BoundedTables.{IsBoundedTable};

use crate::checks::{holds, is_written, prints, reads, refused};
use crate::fixtures::{at, compact_of, parser};
use crate::runs::bytes_of;
use civil_base::{
    Date, Month, OffsetDateTime, PlainDateTime, Time, UtcOffset, read_local, write_zoned,
};
use sefunjaro::{open_database, open_source};
use std::alloc::Global;
use std::process::Abort;
use tz_lookup::{CompactSet, CompactTz, Database, Fixed};
use zone_alarm::{Ring, alarms};
use zone_line::LineParser;
use zone_table::Table;
use zone_uses::{
    every_instant, how_many, local_time, meeting, offset_in, offset_in_file, offset_in_source,
    offset_or_text, posix_offset, wake_ups, zone_of_source,
};

const SOURCE: &[u8] = b"\
Rule US 2007 max - Mar Sun>=8 2:00 1:00 D
Rule US 2007 max - Nov Sun>=1 2:00 0 S
Zone America/New_York -5:00 US E%sT
Zone Asia/Tokyo 9:00 - JST
";

fn table(rt: &impl Abort, alloc: Global) -> Table
    ensures { IsBoundedTable result }
{
    open_source(alloc, &parser(rt, alloc), SOURCE).expect(rt, "no table")
}

fn database(rt: &impl Abort, alloc: Global) -> Database {
    open_database(alloc, &table(rt, alloc)).expect(rt, "no database")
}

fn local(rt: &impl Abort, text: &str) -> PlainDateTime {
    read_local(text).expect(rt, text)
}

/// The instants of a local time of New York, as texts.
const EARLIER: &str = "2024-11-03 01:30:00.000000000 -04:00:00";

const LATER: &str = "2024-11-03 01:30:00.000000000 -05:00:00";

/// Whether date-times are written as two texts.
fn are_written(found: &[OffsetDateTime], one: &str, other: &str) -> bool {
    match found {
        [first, second] => is_written(first, one) & is_written(second, other),
        _ => false,
    }
}

fn is_spring(found: OffsetDateTime) -> bool {
    is_written(&found, "2024-03-10 03:00:00.000000000 -04:00:00")
}

fn is_earlier(found: OffsetDateTime) -> bool {
    is_written(&found, EARLIER)
}

/// How many spans the zone has, a local time of it, and when a time in a fold and one in a gap are met.
fn new_york(
    set: &CompactSet,
    at: &OffsetDateTime,
    fold: &PlainDateTime,
    gap: &PlainDateTime,
) -> bool {
    // Standard and daylight time; the first span, and two changes in each year of 2007 to 2099.
    (set.kind_count() == 2)
        & (set.span_count() == 187)
        & local_time(set, at).is_some_and(is_spring)
        & meeting(set, fold).is_some_and(is_earlier)
        & meeting(set, gap).is_none()
}

/// Asserts what the zone answers, and all instants of a local time.
fn expect_new_york(rt: &impl Abort, alloc: Global, set: &CompactSet) {
    let fold = local(rt, "2024-11-03 01:30:00.000000000");
    let gap = local(rt, "2024-03-10 02:30:00.000000000");
    holds(
        rt,
        "New York",
        new_york(set, &at(rt, 1_710_054_000), &fold, &gap),
    );
    let both = every_instant(alloc, set, &fold).expect(rt, "memory");
    holds(rt, "every instant", are_written(&both, EARLIER, LATER));
}

fn half_past_two(rt: &impl Abort) -> Time {
    Time::from_hms(2, 30, 0).expect(rt, "a time")
}

fn march_9(rt: &impl Abort) -> Date {
    Date::from_calendar_date(2024, Month::March, 9).expect(rt, "a date")
}

/// Asserts the rings of three days, of which the second has none.
fn expect_wake_ups(rt: &impl Abort, alloc: Global, zone: &CompactTz<'_>) {
    let found = wake_ups(alloc, zone, half_past_two(rt), march_9(rt), 3).expect(rt, "no instants");
    let first_ring = "2024-03-09 02:30:00.000000000 -05:00:00";
    let last_ring = "2024-03-11 02:30:00.000000000 -04:00:00";
    holds(rt, "wake-ups", are_written(&found, first_ring, last_ring));
}

#[test]
fn a_zone_and_its_alarms(rt: HostRuntime) {
    let set = compact_of(&rt, rt.alloc(), SOURCE);
    expect_new_york(&rt, rt.alloc(), &set);
    expect_wake_ups(&rt, rt.alloc(), &CompactTz::new(&set));
}

/// 2024-07-01 00:00:00 UTC.
const SUMMER: i64 = 1_719_792_000;

/// A compiled file of one offset.
const FILE: &[u8] = b"\
TZif2\0\0\0\0\0\0\0\0\0\0\0\0\0\0\0\0\0\0\0\0\0\0\0\0\0\0\0\0\0\0\0\0\0\0\x01\0\0\0\x01\0\0\0\0\0\0\0\
TZif2\0\0\0\0\0\0\0\0\0\0\0\0\0\0\0\0\0\0\0\0\0\0\0\0\0\0\0\0\0\0\0\0\0\0\x01\0\0\0\x04\
\0\0\x15\x18\0\0TST\0\nTST-1:30\n";

/// What a database and a string over it give in summer.
fn summer(database: &Database, summer: &OffsetDateTime) -> bool {
    offset_in(database, "Asia/Tokyo", summer).is_some_and(is_tokyo)
        & posix_offset(database, "EST5EDT,M3.2.0,M11.1.0", summer).is_some_and(is_daylight)
}

fn is_tokyo(offset: UtcOffset) -> bool {
    offset.whole_seconds() == 32_400
}

fn is_daylight(offset: UtcOffset) -> bool {
    offset.whole_seconds() == -14_400
}

#[test]
fn a_database_and_a_string(rt: HostRuntime) {
    let database = database(&rt, rt.alloc());
    holds(&rt, "summer", summer(&database, &at(&rt, SUMMER)));
    let count = how_many(rt.alloc(), &database, "o");
    holds(&rt, "names", count == Ok(2));
}

fn is_half_past_one(offset: i32) -> bool {
    offset == 5400
}

#[test]
fn a_file(rt: HostRuntime) {
    let offset = offset_in_file(rt.alloc(), FILE, &at(&rt, SUMMER));
    holds(&rt, "file", offset.is_ok_and(is_half_past_one));
}

/// A ring's date-time as text, and nothing where there is none.
fn shown<'a>(ring: &Ring, into: &'a mut [u8; 40]) -> &'a str {
    let Some(at) = &ring.at else {
        return "";
    };
    let end = write_zoned(at, into);
    std::str::from_utf8(&into[..end]).unwrap_or("")
}

/// Asserts what rings show.
fn expect_rings(rt: &impl Abort, rings: &[Ring], wanted: &str) {
    for ring in rings {
        reads(rt, shown(ring, &mut [0; 40]), wanted);
    }
}

#[test]
fn alarms_of_a_fixed_zone(rt: HostRuntime) {
    let offset = UtcOffset::from_whole_seconds(5400).expect(&rt, "no offset");
    let zone = Fixed::new("Test/Fixed", offset);
    let rings = alarms(rt.alloc(), &zone, half_past_two(&rt), march_9(&rt), 1).expect(
        &rt, "no rings",
    );
    expect_rings(&rt, &rings, "2024-03-09 02:30:00.000000000 +01:30:00");
}

/// Sources without a zone `A`, with `;` for each line feed, and the text of the error.
const ERRORS: &str = "\
Zone B 0 - B|unknown zone
Zone A 0 - A;Rule|source 2: line InvalidLineType
Zone A 0 - A 10000; 0 - A|a line of the zone ends in a year that is none from 1 to 9999
";

/// The same of sources in any form.
const ANY_ERRORS: &str = "\
Z B 0 - B|unknown zone
Z A 0 - A;Z A 1 - A|source 2: DuplicateZone
Z A 26 - A|an offset of the zone is 26 hours or more in size
";

fn expect_errors(rt: &impl Abort, alloc: Global, parser: &LineParser) {
    for row in ERRORS.lines() {
        let (source, wanted) = row.split_once('|').expect(rt, "no text");
        let source = bytes_of(rt, alloc, Some(source));
        let found = zone_of_source(alloc, parser, &source, "A");
        refused(rt, alloc, found, wanted);
    }
}

fn expect_errors_of_any(rt: &impl Abort, alloc: Global) {
    for row in ANY_ERRORS.lines() {
        let (source, wanted) = row.split_once('|').expect(rt, "no text");
        let source = bytes_of(rt, alloc, Some(source));
        let told = offset_or_text(alloc, &source, "A", &at(rt, 0));
        prints(rt, alloc, &told.expect_err(rt, "an offset"), wanted);
    }
}

#[test]
fn errors_are_printed(rt: HostRuntime) {
    expect_errors(&rt, rt.alloc(), &parser(&rt, rt.alloc()));
    expect_errors_of_any(&rt, rt.alloc());
}

#[test]
fn a_source_in_any_form_has_an_offset(rt: HostRuntime) {
    let offset = offset_in_source(rt.alloc(), SOURCE, "Asia/Tokyo", &at(&rt, 0));
    holds(&rt, "Tokyo", offset.expect(&rt, "no offset") == 32_400);
}
