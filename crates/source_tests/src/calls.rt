//! The happy path of public calls that nothing else names. Values are those of the calendar, of the tz database for New York, and of
//! Python's `zoneinfo`.
ghost use Rattle.std.specs.Prelude.{◌≡◌, ◌<◌};
ghost use Rattle.zone_table.specs.BoundedTables.{IsBoundedTable};
ghost use Rattle.tz_lookup.specs.Sets.{schedule_of, IsAccepted};

use crate::checks::{holds, is_written, reads};
use crate::fixtures::{NEW_YORK, at, compact_of, database_of, set_of, table_of};
use crate::rows::{field, number};
use civil_base::{OffsetDateTime, PlainDateTime, UtcOffset, read_local};
use std::alloc::Global;
use std::marker::Brand;
use std::process::Abort;
use std::sync::ledger::{Blank, Ledger};
use tz_ever::{EverFault, Recurrence, ZoneSet, ZoneTz};
use tz_lookup::{
    CompactTz, Database, FixedTimespanSet, Offset, OffsetDateTimeExt, OffsetResult,
    PrimitiveDateTimeExt, Steps, TimeZone, Tz, ZoneFault,
};
use tz_posix::{Date, PosixTz, Time};
use zone_answers::open_zone;
use zone_list::list_lines;
use zone_spans::TableTransitions;
use zone_table::{DaySpec, Month, Table, Weekday, Year};
use zone_tail::laws::both_offsets;
use zone_tzif::{EverTailFault, consistent_tzif_of, from_set, tail_for_ever, tzif_for_ever};
use zone_tzif_core::{ZoneFile, read_file};
use zone_uses::{Moved, next_change};

fn fields(alloc: Global) -> bool {
    let day = DaySpec::Last(Weekday::Sunday).to_concrete_day(2024, Month::October);
    (Month::parse(alloc, "oCT").ok() == Some(Month::October))
        & (Weekday::parse(alloc, "sunday").ok() == Some(Weekday::Sunday))
        & (Year::parse(alloc, "2024").ok() == Some(Year::Number(2024)))
        & (day == Some((Month::October, 27)))
}

#[test]
fn fields_of_lines(rt: HostRuntime) {
    holds(&rt, "fields", fields(rt.alloc()));
}

/// The seconds of 01:30 at the end of New York's summer of 2024, a time that is shown twice.
fn fold(rt: &impl Abort) -> PlainDateTime {
    read_local("2024-11-03 01:30:00.000000000").expect(rt, "no local time")
}

/// Whether a search that counts its steps finds two offsets of a local time.
fn finds_two<L: Ledger>(zone: &Tz<'_>, local: PlainDateTime, blank: Blank) -> bool
    requires name { blank.name ≡ L.name }
    requires parts { blank.parts ≡ L.parts }
    requires some { 0 < L.parts }
{
    let mut steps: Steps<L> = Steps::new(blank);
    zone.get_offset_local_counted(&local.assume_utc(), &mut steps)
        .is_ambiguous()
}

/// The same of a compact set.
fn finds_two_compactly<L: Ledger>(zone: &CompactTz<'_>, local: PlainDateTime, blank: Blank) -> bool
    requires name { blank.name ≡ L.name }
    requires parts { blank.parts ≡ L.parts }
    requires some { 0 < L.parts }
{
    let mut steps: Steps<L> = Steps::new(blank);
    zone.get_offset_local_counted(&local.assume_utc(), &mut steps)
        .is_ambiguous()
}

fn found(zone: &Tz<'_>, local: PlainDateTime) -> bool {
    finds_two::<Brand>(zone, local, Blank::new(1))
}

fn found_compactly(compact: &CompactTz<'_>, local: PlainDateTime) -> bool {
    finds_two_compactly::<Brand>(compact, local, Blank::new(1))
}

/// Whether that local time is shown twice, the later time at the offset of winter, and read as UTC lies in summer.
fn has_two(zone: &Tz<'_>, fold: PlainDateTime) -> bool {
    let as_utc = fold.assume_timezone_utc(zone);
    found(zone, fold)
        & fold
            .assume_timezone(zone)
            .take_second()
            .is_some_and(is_later)
        & is_written(&as_utc, "2024-11-03 01:30:00.000000000 -04:00:00")
}

fn is_later(found: OffsetDateTime) -> bool {
    is_written(&found, "2024-11-03 01:30:00.000000000 -05:00:00")
}

#[test]
fn a_fold_has_two_offsets_in_a_compact_set(rt: HostRuntime) {
    let set = compact_of(&rt, rt.alloc(), NEW_YORK);
    let is_found = found_compactly(&CompactTz::new(&set), fold(&rt));
    holds(&rt, "two offsets", is_found);
}

fn are_told_apart() -> bool {
    let two = OffsetResult::Ambiguous(1, 2);
    (two.unwrap_first() == 1) & (two.unwrap_second() == 2)
}

#[test]
fn two_offsets_are_told_apart(rt: HostRuntime) {
    holds(&rt, "two", are_told_apart());
}

/// Whether a string's summer moves half an hour after midnight of 1 July 2024 at UTC to its clocks.
fn moves_an_instant(database: &Database, instant: &OffsetDateTime) -> bool {
    match PosixTz::parse("CET-1CEST,M3.5.0,M10.5.0/3", database) {
        Ok(zone) => zone.convert(instant).is_ok_and(is_summer),
        Err(_) => false,
    }
}

fn is_summer(found: OffsetDateTime) -> bool {
    is_written(&found, "2024-07-01 02:30:00.000000000 +02:00:00")
}

fn times() -> bool {
    let time = Time {
        hh: 2,
        mm: Some(30),
        ss: None,
    };
    civil_base::Time::from_hms(2, 30, 0) == Ok(time.to_time())
}

/// Whether a zone and its string have daylight saving time at an instant.
fn agree(zone: &Tz<'_>, database: &Database, instant: &OffsetDateTime) -> bool {
    match PosixTz::parse("EST5EDT,M3.2.0,M11.1.0", database) {
        Ok(string) => {
            let (of_zone, of_string) = both_offsets(zone, &string, instant);
            is_daylight(of_zone) & of_string.is_some_and(is_daylight)
        }
        Err(_) => false,
    }
}

fn is_daylight(offset: UtcOffset) -> bool {
    offset.whole_seconds() == -14_400
}

/// Asserts what New York and strings over its database give.
fn expect_database(rt: &impl Abort, database: &Database) {
    let zone = database
        .get_by_name("America/New_York")
        .expect(rt, "no zone");
    let instant = at(rt, 1_719_793_800);
    holds(rt, "a fold has two offsets", has_two(&zone, fold(rt)));
    holds(rt, "a string moves", moves_an_instant(database, &instant));
    holds(rt, "both agree", agree(&zone, database, &instant));
}

#[test]
fn a_database_and_its_strings(rt: HostRuntime) {
    expect_database(&rt, &database_of(&rt, rt.alloc(), NEW_YORK));
    holds(&rt, "times of rules", times());
}

/// Whether the second Sunday of March is day 70 of 2024.
fn is_day_70(day: Date) -> bool {
    if !day.is_in_range() {
        return false;
    }
    match day.to_date(2024) {
        Ok(date) => (date.year() == 2024) & (date.ordinal() == 70),
        Err(_) => false,
    }
}

#[test]
fn a_day_of_a_rule_has_a_date(rt: HostRuntime) {
    holds(&rt, "a date", is_day_70(Date::M { m: 3, n: 2, d: 0 }));
}

/// Asserts the change of New York after an instant.
fn expect_change(rt: &impl Abort, alloc: Global, table: &Table)
    requires { IsBoundedTable table.now }
{
    let set = open_zone(alloc, table, "America/New_York").expect(rt, "no zone");
    let is_found = next_change(&set, 1_700_000_000) == Some(1_710_054_000);
    holds(rt, "next change", is_found);
}

/// Whether an instant is shown an hour later.
fn is_moved(instant: &OffsetDateTime, hour: UtcOffset) -> bool {
    let moved = Moved::new("Moved", instant, UtcOffset::UTC, hour);
    instant.to_timezone(&moved).is_some_and(is_one_o_clock)
}

fn is_one_o_clock(found: OffsetDateTime) -> bool {
    is_written(&found, "1970-01-01 01:00:00.000000000 +01:00:00")
}

#[test]
fn callers_answer(rt: HostRuntime) {
    expect_change(&rt, rt.alloc(), &table_of(&rt, rt.alloc(), NEW_YORK));
    let hour = UtcOffset::from_whole_seconds(3600).expect(&rt, "no offset");
    holds(&rt, "moved", is_moved(&at(&rt, 0), hour));
}

/// Asserts what is listed of New York's spring of 2024.
fn expect_lines(rt: &impl Abort, alloc: Global, set: &FixedTimespanSet)
    requires { IsAccepted (schedule_of set.now) }
{
    let lines = list_lines(alloc, set, 1_704_067_200, 1_720_000_000).expect(rt, "no lines");
    let due = b"1710054000  EDT  2024-03-10 03:00:00.000000000 -04:00:00\n";
    holds(rt, "lines", lines.as_bytes() == due.as_slice());
}

/// Asserts the changes and the footer of New York as the zone of a file.
fn expect_file(rt: &impl Abort, alloc: Global, set: &FixedTimespanSet)
    requires { IsAccepted (schedule_of set.now) }
{
    let zone = from_set(alloc, set, "EST5").expect(rt, "memory");
    let is_kept = (zone.rest.len() == 186) & (zone.footer.as_str() == "EST5");
    holds(rt, "file", is_kept);
}

#[test]
fn a_set_is_listed_and_is_a_zone_of_a_file(rt: HostRuntime) {
    let set = set_of(&rt, rt.alloc(), NEW_YORK, "America/New_York");
    expect_lines(&rt, rt.alloc(), &set);
    expect_file(&rt, rt.alloc(), &set);
}

/// Zones that go on: New York's last line, a still one, and one whose saving alternates from year to year. Others that don't: a rule of
/// them begins in 2100 or ends in 2200, their last line has an end, or a Sunday from December 26 on lies in the year after 2101. And one that has an offset of 26 hours from 2100 on, since each
/// second rule of March hides the first in 2099.
const FOR_EVER: &[u8] = b"\
Rule US 2007 max - Mar Sun>=8 2:00 1:00 D
Rule US 2007 max - Nov Sun>=1 2:00 0 S
Zone Made/York -5:00 US E%sT
Zone Made/Still 5:30 - IST
Rule Cross 2098 max - Mar 1 2:00 1:00 -
Rule Cross 2098 max - Mar 1 1:30u 0 -
Zone Made/Cross 0:00 - GMT 2098
 0:00 Cross GMT
Rule Late 2000 only - Oct 1 2:00 0 -
Rule Late 2100 max - Mar 1 2:00 1:00 -
Zone Made/Late 0:00 Late GMT
Rule Long 2000 2200 - Mar 1 2:00 1:00 -
Rule Long 2000 2200 - Oct 1 2:00 0 -
Zone Made/Long 0:00 Long GMT
Zone Made/Ended 0:00 - GMT 2000
Rule Leap 2000 max - Mar 1 2:00 0 -
Rule Leap 2098 max - Dec Sun>=26 2:00 1:00 -
Zone Made/Leap 0:00 Leap GMT
Rule Far 2000 max - Jul 1 0:00u 1:00 -
Rule Far 2000 max - Oct 1 0:00u 0 -
Rule Far 2099 max - Mar 1 0:00u -29:00 -
Rule Far 2099 max - Mar Sun>=1 0:00u 0 -
Zone Made/Far 3:00 Far FAR
";

/// The offset of a zone in force at a second, or why it has none for ever.
fn offset_for_ever(
    alloc: Global,
    table: &Table,
    name: &str,
    at: &OffsetDateTime,
) -> Result<i64, EverFault>
    requires { IsBoundedTable table.now }
{
    match ZoneSet::open(alloc, table, name) {
        Ok(ever) => {
            let offset = ZoneTz::new(&ever).get_offset_utc(at).to_utc();
            Ok(i64::from(offset.whole_seconds()))
        }
        Err(fault) => Err(fault),
    }
}

/// At both sides of a change in the year 9999 and in 2151: a name, a second, and the offset from it on; and why other zones have none.
const OFFSETS: &str = "\
Made/York 253377010799 -18000
Made/York 253377010800 -14400
Made/Still 253377010800 19800
Made/Cross 5716920599 3600
Made/Cross 5716920600 0
Made/Late 0 RulesEnd
Made/Long 0 RulesEnd
Made/Ended 0 RulesEnd
Made/Leap 0 LaterDay
Made/Far 0 LaterOffset
Made/None 0 UnknownZone";

/// The name of a cause.
fn cause(fault: EverFault) -> &'static str {
    match fault {
        EverFault::Zone(ZoneFault::UnknownZone) => "UnknownZone",
        EverFault::Zone(_) => "Zone",
        EverFault::LaterDay => "LaterDay",
        EverFault::RulesEnd => "RulesEnd",
        EverFault::LaterOffset => "LaterOffset",
    }
}

/// Whether the zone of a row has the offset that the row says, or none for its cause.
fn is_given(rt: &impl Abort, alloc: Global, table: &Table, row: &str) -> bool
    requires { IsBoundedTable table.now }
{
    let mut fields = row.split(' ');
    let name = field(rt, &mut fields);
    let second = at(rt, number(rt, &mut fields));
    let due = field(rt, &mut fields);
    match offset_for_ever(alloc, table, name, &second) {
        Ok(offset) => due.parse::<i64>() == Ok(offset),
        Err(fault) => due == cause(fault),
    }
}

/// Asserts each row.
fn expect_given(rt: &impl Abort, alloc: Global, table: &Table)
    requires { IsBoundedTable table.now }
{
    for row in OFFSETS.lines() {
        holds(rt, row, is_given(rt, alloc, table, row));
    }
}

/// Whether the still zone has the offset of its line in its first span.
fn has_spans(alloc: Global, table: &Table) -> bool
    requires { IsBoundedTable table.now }
{
    match table.timespans(alloc, "Made/Still") {
        Ok(Some(spans)) => spans.first.utc_offset == 19_800,
        _ => false,
    }
}

/// What is opened to 2099 doesn't come again.
fn ends(alloc: Global, table: &Table) -> bool
    requires { IsBoundedTable table.now }
{
    match ZoneSet::open_to_2099(alloc, table, "Made/Still") {
        Ok(zone) => zone.recurrence() == Recurrence::Never,
        Err(_) => false,
    }
}

#[test]
fn zones_are_opened_for_ever_or_refused(rt: HostRuntime) {
    let table = table_of(&rt, rt.alloc(), FOR_EVER);
    expect_given(&rt, rt.alloc(), &table);
    holds(&rt, "spans", has_spans(rt.alloc(), &table));
    holds(&rt, "an end", ends(rt.alloc(), &table));
}

/// The rules of Ireland, whose saving lies below 0; rules on dates, one of them at the end of February; local mean time up to 1700 alone; winter
/// time of two abbreviations, by the day on which it begins, and in the year 2102 the later one; a zone whose saving is for good; and a
/// name that POSIX has no place for.
const CARRIED: &[u8] = b"\
Rule E 1981 max - Mar lastSun 1:00u 0 -
Rule E 1996 max - Oct lastSun 1:00u -1:00 -
Rule D 1990 max - Feb 28 24:00 1:00 S
Rule D 1990 max - Sep 21 1:00 0 -
Rule N 2000 max - Mar lastSun 1:00 1:00 D
Rule N 2000 max - Oct Sun<=29 2:00 0 S
Rule N 2000 max - Oct 29 2:00 0 T
Zone Ireland 1:00 E IST/GMT
Zone Dates 2:00 D EE%sT
Zone Early 0:10 - LMT 1700
 1:00 - CET
Zone Two 0:00 N X%sT
Zone Saved 1:00 - LMT 1990
 1:00 1:00 XST
Zone Short 2:00 - CD
";

fn zone_for_ever(rt: &impl Abort, alloc: Global, name: &str) -> ZoneSet {
    ZoneSet::open(alloc, &table_of(rt, alloc, CARRIED), name).expect(rt, "not opened")
}

/// Asserts the footer of a zone, which is what `zic` writes but for the dates of January and February.
fn expect_footer(rt: &impl Abort, alloc: Global, name: &str, due: &str) {
    let tail = tail_for_ever(alloc, &zone_for_ever(rt, alloc, name)).expect(rt, name);
    reads(rt, tail.text.as_str(), due);
}

/// Asserts why a zone has none.
fn expect_no_footer(rt: &impl Abort, alloc: Global, name: &str, due: EverTailFault) {
    match tail_for_ever(alloc, &zone_for_ever(rt, alloc, name)) {
        Ok(_) => holds(rt, name, false),
        Err(fault) => holds(rt, name, fault == due),
    }
}

#[test]
fn a_footer_carries_a_zone_on_for_ever(rt: HostRuntime) {
    let alloc = rt.alloc();
    expect_footer(&rt, alloc, "Ireland", "IST-1GMT0,M10.5.0,M3.5.0/1");
    expect_footer(&rt, alloc, "Dates", "EET-2EEST,J59/24,J264/1");
    expect_footer(&rt, alloc, "Early", "CET-1");
    expect_no_footer(&rt, alloc, "Two", EverTailFault::NoRule);
    expect_no_footer(&rt, alloc, "Saved", EverTailFault::Saving);
    expect_no_footer(&rt, alloc, "Short", EverTailFault::Name);
}

/// Asserts that a file has daylight saving time from its last change on, and no footer that would say otherwise.
fn expect_saved(rt: &impl Abort, alloc: Global, bytes: &[u8]) {
    let file = read_file(alloc, bytes).expect(rt, "not read");
    let is_saved = file.change_count() == 1 && file.kind_at(0).is_dst && file.footer().is_empty();
    holds(rt, "a footer, or no saving", is_saved);
}

#[test]
fn what_no_footer_says_has_none(rt: HostRuntime) {
    let table = table_of(&rt, rt.alloc(), CARRIED);
    let zone = ZoneSet::open_to_2099(rt.alloc(), &table, "Saved").expect(&rt, "not opened");
    let bytes = consistent_tzif_of(rt.alloc(), zone.compact()).expect(&rt, "no file");
    expect_saved(&rt, rt.alloc(), bytes.as_slice());
    let zone = zone_for_ever(&rt, rt.alloc(), "Saved");
    let bytes = tzif_for_ever(rt.alloc(), &zone).expect(&rt, "no file");
    expect_saved(&rt, rt.alloc(), bytes.as_slice());
}
