//! What a program in another language holds: each call that takes memory, with ample memory. The values are those of the tz database for
//! New York and for the rules of Europe, as Python's `zoneinfo` gives them, the string is that of `zic -b slim`, and the archive that of
//! Python's `tarfile`.
use crate::checks::{holds, reads, refused};
use crate::fixtures::{NEW_YORK, at};
use crate::plain::{self, refused_line};
use crate::runs::bytes_of;
use sefunjaro::{
    AnySourceFault, Change, Date, Month, OffsetDateTime, OpenFault, OpenSource, OpenZone, Ring,
    Time, ZoneFault,
};
use std::alloc::Global;
use std::process::Abort;
use zone_source::source_fault_bytes;

fn plain_source(rt: &impl Abort, alloc: Global, text: &[u8]) -> OpenSource {
    OpenSource::open_plain(alloc, text).expect(rt, "not opened")
}

fn source_of(rt: &impl Abort, alloc: Global, text: &[u8]) -> OpenSource {
    OpenSource::open(alloc, text).expect(rt, "not opened")
}

fn zone_in(rt: &impl Abort, alloc: Global, source: &OpenSource, name: &str) -> OpenZone {
    source.zone(alloc, name).expect(rt, "no zone")
}

/// Opens a source in any form, and its zone of that name.
fn zone_of(rt: &impl Abort, alloc: Global, text: &[u8], name: &str) -> OpenZone {
    zone_in(rt, alloc, &source_of(rt, alloc, text), name)
}

/// The rules of New York as `zic` reads them too: words cut short, hours alone, and a link to a link.
const SHORT: &[u8] =
    b"R US 2007 ma - Mar su>=8 2 1 D\nR US 2007 ma - N su>=1 2 0 S\nZ America/New_York -5 US E%sT\nL US/Eastern East\nL America/New_York US/Eastern\n";

/// Asserts the string of New York.
fn expect_string(rt: &impl Abort, alloc: Global, zone: &OpenZone) {
    let tail = zone.tail(alloc).expect(rt, "no string");
    holds(rt, "from", tail.from == Some(1_173_596_400));
    reads(rt, tail.text.as_str(), "EST5EDT,M3.2.0,M11.1.0");
}

/// Asserts the length of its file.
fn expect_file(rt: &impl Abort, alloc: Global, zone: &OpenZone) {
    let file = zone.tzif(alloc).expect(rt, "no file");
    holds(rt, "length", file.len() == 1813);
}

/// Asserts what New York has in force from a change on, its string, and the length of its file.
fn expect_new_york(rt: &impl Abort, alloc: Global, zone: &OpenZone) {
    let before = zone.offset_at(&at(rt, 1_710_053_999));
    let after = zone.offset_at(&at(rt, 1_710_054_000));
    holds(rt, "a change", (before == -18_000) & (after == -14_400));
    expect_string(rt, alloc, zone);
    expect_file(rt, alloc, zone);
}

/// Asserts the zone of a source.
fn expect_zone(rt: &impl Abort, alloc: Global, source: &OpenSource) {
    let zone = zone_in(rt, alloc, source, "America/New_York");
    expect_new_york(rt, alloc, &zone);
}

fn has_one_name(source: &OpenSource) -> bool {
    (source.name_count() == 1) & (source.name(0) == Some("America/New_York"))
}

#[test]
fn a_source_in_plain_form_is_opened(rt: HostRuntime) {
    let source = plain_source(&rt, rt.alloc(), NEW_YORK);
    holds(&rt, "names", has_one_name(&source));
    expect_zone(&rt, rt.alloc(), &source);
}

/// A zone whose rules end in 2150, so that its lines don't go on.
const ENDING: &[u8] =
    b"R E 1981 2150 - Mar lastSun 1u 1 S\nR E 1996 2150 - O lastSun 1u 0 -\nZ Europe/Ending 1 E CE%sT\n";

/// A second of July 2150.
const JULY_2150: i64 = 5_695_963_200;

/// Whether New York has summer time in July 2150.
fn has_summer(zone: &OpenZone, july: &OffsetDateTime) -> bool {
    let mut name = [0; 3];
    let found = zone.in_force(july, &mut name);
    (zone.last_year() == 9999) & (found.offset == -14_400) & found.is_saving & (name == *b"EDT")
}

/// Whether that is the change in the spring before.
fn is_spring(change: Change) -> bool {
    (change.second == 5_686_009_200) & (change.offset == -14_400) & (change.saving == 3600)
}

fn expect_on(rt: &impl Abort, zone: &OpenZone) {
    holds(rt, "summer", has_summer(zone, &at(rt, JULY_2150)));
    let change = zone.next_change(5_680_281_600);
    holds(rt, "spring", change.is_some_and(is_spring));
}

/// Asserts that a zone has its offset of winter in that July.
fn expect_end(rt: &impl Abort, zone: &OpenZone) {
    let offset = zone.offset_at(&at(rt, JULY_2150));
    holds(rt, "end", (zone.last_year() == 2099) & (offset == 3600));
}

#[test]
fn a_zone_goes_on_or_keeps_to_2099_as_its_lines_do(rt: HostRuntime) {
    expect_on(&rt, &zone_of(&rt, rt.alloc(), SHORT, "East"));
    expect_end(&rt, &zone_of(&rt, rt.alloc(), ENDING, "Europe/Ending"));
}

/// Sources that are refused in plain form, and in any, each with the line that tells its fault.
const REFUSED: &str = "\
Zone A 0 - X;Zone~source 2: line InvalidLineType;
Zone A 0 - A 99999999999999999999~source 1: line FailedYearParse;
Rule R 2000 only - Febtober 1 0:00 0 -~source 1: line FailedMonthParse;
Rule R 2000 only - Jan Xyz>=40 0:00 0 -~source 1: line FailedWeekdayParse;
Rule R 2000 only HEY Jan 1 0:00 0 -~source 1: line TypeColumnContainedNonHyphen;
Zone A 0 1 A~source 1: line CouldNotParseSaving;
Rule R 2000 only - Jan 32 0:00 0 -~source 1: line InvalidDaySpec;
Zone A 200 - A~source 1: line InvalidTimeSpecAndType;
Zone A 1:00u - A~source 1: line NonWallClockInTimeSpec;
 0 - X~source 1: build SurpriseContinuationLine;
Zone A 0 - X;Zone B 0 b X~source 2: build UnknownRuleset;
Link A B;Link C B~source 2: build DuplicateLink;
Zone A 0 - X;Zone A 0 - Y~source 2: build DuplicateZone;
";

/// The line of the fault for which a source in plain form is refused.
fn plain_refusal(rt: &impl Abort, alloc: Global, source: &[u8]) -> Vec<u8> {
    match OpenSource::open_plain(alloc, source) {
        Err(OpenFault::Source(error)) => source_fault_bytes(alloc, &error).expect(rt, "memory"),
        Err(_) => panic!(rt; "too long, or memory"),
        Ok(_) => panic!(rt; "opened"),
    }
}

/// Asserts the line for the source of a row.
fn expect_plain_refusal(rt: &impl Abort, alloc: Global, row: &str) {
    let (source, due) = row.split_once('~').expect(rt, "no fault");
    let source = bytes_of(rt, alloc, Some(source));
    let due = bytes_of(rt, alloc, Some(due));
    let told = plain_refusal(rt, alloc, &source);
    holds(rt, row, told.as_slice() == due.as_slice());
}

fn expect_plain_refusals(rt: &impl Abort, alloc: Global) {
    for row in REFUSED.lines() {
        expect_plain_refusal(rt, alloc, row);
    }
    let no_text = plain_refusal(rt, alloc, b"# a\n\xff\n");
    let due = b"source 2: not text\n".as_slice();
    holds(rt, "no text", no_text.as_slice() == due);
}

#[test]
fn refused_plain_sources_are_told_by_their_faults(rt: HostRuntime) {
    expect_plain_refusals(&rt, rt.alloc());
}

/// How many rules, and how many offsets under them, a source has whose plain form would be too long, since each rule is written once
/// for each offset.
const MANY: u32 = 700;

/// Adds its rule of that number.
fn add_rule(rt: &impl Abort, alloc: Global, rules: &mut String, number: u32) {
    let (minute, second) = (number / 60, number % 60);
    let rule = format!(in alloc; "R r 1990 o - O 1 0:{minute}:{second} 1 -\n").expect(rt, "memory");
    rules.push_str(rule.as_str()).expect(rt, "memory");
}

/// Adds the line of its zone that has that number.
fn add_line(rt: &impl Abort, alloc: Global, lines: &mut String, number: u32) {
    let (minute, second) = (number / 60, number % 60);
    let year = number.saturating_add(1001);
    let line = format!(in alloc; "0:{minute}:{second} r %z {year}\n").expect(rt, "memory");
    lines.push_str(line.as_str()).expect(rt, "memory");
}

/// Such a source.
fn product(rt: &impl Abort, alloc: Global) -> String {
    let mut text = String::new(alloc);
    for number in 0..MANY {
        add_rule(rt, alloc, &mut text, number);
    }
    text.push_str("Z A 1 r %z 1000\n").expect(rt, "memory");
    for number in 0..MANY {
        add_line(rt, alloc, &mut text, number);
    }
    text.push_str("0 - X\n").expect(rt, "memory");
    text
}

/// The fault for which a source in any form is refused.
fn refusal(rt: &impl Abort, alloc: Global, source: &[u8]) -> AnySourceFault {
    match OpenSource::open(alloc, source) {
        Err(fault) => fault,
        Ok(_) => panic!(rt; "opened"),
    }
}

/// The line for which a source in any form is refused, and the cause.
fn line_refusal(rt: &impl Abort, alloc: Global, source: &[u8]) -> Vec<u8> {
    match refusal(rt, alloc, source) {
        AnySourceFault::Line(number, cause) => refused_line(rt, alloc, number, cause.name()),
        _ => panic!(rt; "no line is told"),
    }
}

/// Asserts the line and the cause for the source of a row.
fn expect_line_refusal(rt: &impl Abort, alloc: Global, row: &str) {
    let (source, due) = row.split_once('~').expect(rt, "no cause");
    let source = bytes_of(rt, alloc, Some(source));
    let told = line_refusal(rt, alloc, &source);
    holds(rt, row, told.as_slice() == due.as_bytes());
}

fn expect_line_refusals(rt: &impl Abort, alloc: Global) {
    for row in plain::REFUSED.lines() {
        expect_line_refusal(rt, alloc, row);
    }
    let no_text = line_refusal(rt, alloc, b"# a\n\xff\n");
    holds(
        rt,
        "no text",
        no_text.as_slice() == b"2 not text".as_slice(),
    );
}

fn is_too_long(fault: AnySourceFault) -> bool {
    matches!(fault, AnySourceFault::PlainTooLong)
}

#[test]
fn refused_sources_are_told_by_their_faults(rt: HostRuntime) {
    expect_line_refusals(&rt, rt.alloc());
}

#[test]
fn a_source_whose_plain_form_is_too_long_is_told_so(rt: HostRuntime) {
    let long = product(&rt, rt.alloc());
    let fault = refusal(&rt, rt.alloc(), long.as_str().as_bytes());
    holds(&rt, "plain form", is_too_long(fault));
}

/// Zones that can't be asked, each with why: `A` of these sources in plain form, with `;` for each line feed.
const UNASKED: &str = "\
Zone B 0 - X;~UnknownZone
Zone A 26 - X;~OffsetRange
Zone A 0 - X 1999; 0 b X;~Schedule(UnknownRuleset)
Zone A 0 - X; 1 - Y;~Schedule(MissingUntil)
Zone A 0 - X 10000; 1 - Y;~Schedule(YearRange)
Rule R min only - Jan 1 0:00 0 -;Zone A 0 R X;~Schedule(RuleYears)
Rule R 1990 only - Jan Sun<=1 0:00 1 -;Zone A 0 R X;~Schedule(DayRange)
Rule R 9223372036854775807 max - Jan 1 0:00 0 -;Zone A 0 R A;~Schedule(NoStandardSpan)
";

/// Why the zone `A` of a source can't be asked.
fn zone_refusal(rt: &impl Abort, alloc: Global, source: &OpenSource) -> ZoneFault {
    match source.zone(alloc, "A") {
        Err(fault) => fault,
        Ok(_) => panic!(rt; "a zone"),
    }
}

/// Asserts the fault of a row.
fn expect_unasked(rt: &impl Abort, alloc: Global, row: &str) {
    let (source, due) = row.split_once('~').expect(rt, "no fault");
    let source = bytes_of(rt, alloc, Some(source));
    let fault = zone_refusal(rt, alloc, &plain_source(rt, alloc, &source));
    let told = format!(in alloc; "{fault:?}").expect(rt, "memory");
    reads(rt, told.as_str(), due);
}

fn expect_all_unasked(rt: &impl Abort, alloc: Global) {
    for row in UNASKED.lines() {
        expect_unasked(rt, alloc, row);
    }
}

#[test]
fn zones_that_cannot_be_asked_are_told_by_their_faults(rt: HostRuntime) {
    expect_all_unasked(&rt, rt.alloc());
}

/// A compiled file as `zic -b slim` writes it of the rules of Europe from 1996 on, after local mean time, and the string at its end.
const FILE: &[u8] =
    b"TZif2\0\0\0\0\0\0\0\0\0\0\0\0\0\0\0\0\0\0\0\0\0\0\0\0\0\0\0\0\0\0\0\0\0\0\x01\0\0\0\x01\0\0\0\0\0\0\0TZif2\0\0\0\0\0\0\0\0\0\0\0\0\0\0\0\0\0\0\0\0\0\0\0\0\0\0\0\0\0\0\x02\0\0\0\x03\0\0\0\x0d\xff\xff\xff\xff\x91`PO\0\0\0\01]\xd9\x10\x02\x01\0\0\x021\0\0\0\0\x1c \x01\x04\0\0\x0e\x10\0\x09LMT\0CEST\0CET\0\nCET-1CEST,M3.5.0,M10.5.0/3\n";

/// Asserts what is in force in 2400, far behind the last change of the file, on each side of the change in March.
fn expect_far_off(rt: &impl Abort, zone: &OpenZone) {
    let before = zone.offset_at(&at(rt, 13_576_813_199));
    let after = zone.offset_at(&at(rt, 13_576_813_200));
    holds(rt, "2400", (before == 3600) & (after == 7200));
}

fn is_change(found: Option<Change>, second: i64, offset: i32) -> bool {
    match found {
        Some(change) => (change.second == second) & (change.offset == offset) & change.differs,
        None => false,
    }
}

/// Asserts its changes of 2024.
fn expect_changes_of_2024(rt: &impl Abort, zone: &OpenZone) {
    let spring = zone.next_change(1_711_846_799);
    holds(rt, "spring", is_change(spring, 1_711_846_800, 7200));
    let autumn = zone.next_change(1_711_846_800);
    holds(rt, "autumn", is_change(autumn, 1_729_990_800, 3600));
}

fn file_of(rt: &impl Abort, alloc: Global) -> OpenZone {
    OpenZone::of_file(alloc, FILE).expect(rt, "not read")
}

fn string_of(rt: &impl Abort, alloc: Global) -> OpenZone {
    OpenZone::of_posix(alloc, "CET-1CEST,M3.5.0,M10.5.0/3").expect(rt, "refused")
}

#[test]
fn a_file_is_a_zone(rt: HostRuntime) {
    let zone = file_of(&rt, rt.alloc());
    let offset = zone.offset_at(&at(&rt, -1_855_958_962));
    holds(&rt, "local mean time", offset == 561);
    expect_far_off(&rt, &zone);
    expect_changes_of_2024(&rt, &zone);
    expect_rings(&rt, rt.alloc(), &zone);
}

#[test]
fn a_string_is_a_zone(rt: HostRuntime) {
    let zone = string_of(&rt, rt.alloc());
    expect_far_off(&rt, &zone);
    expect_changes_of_2024(&rt, &zone);
}

/// Paris by the rules of Europe from 1996 on.
const PARIS: &[u8] =
    b"R E 1981 ma - Mar lastSun 1u 1 S\nR E 1996 ma - O lastSun 1u 0 -\nZ Europe/Paris 1 E CE%sT\n";

/// Its changes of 2024.
const CHANGES: &[u8] =
    b"1711846800  CEST  2024-03-31 03:00:00.000000000 +02:00:00\n1729990800  CET   2024-10-27 02:00:00.000000000 +01:00:00\n";

/// Asserts its changes of 2024.
fn expect_changes(rt: &impl Abort, alloc: Global, zone: &OpenZone) {
    let listing = zone
        .lines(alloc, 1_711_846_800, 1_735_689_600)
        .expect(rt, "not listed");
    let lines = listing.into_bytes();
    holds(rt, "changes", lines.as_slice() == CHANGES);
}

/// Asserts why changes up to that of a zone at the end of all years aren't listed.
fn expect_no_date(rt: &impl Abort, alloc: Global, zone: &OpenZone) {
    let found = zone.lines(alloc, 0, 999_999_999_999);
    let wanted = "a change of the window has no date in the years -9999 to 9999";
    refused(rt, alloc, found, wanted);
}

/// The second of a ring.
fn second_of(ring: Option<&Ring>) -> Option<i64> {
    Some(ring?.at?.unix_timestamp())
}

/// Whether the alarm rings around the change of March 2024 in Europe, and not on its day.
fn are_around_change(rings: &[Ring]) -> bool {
    (second_of(rings.get(0)) == Some(1_711_762_200))
        & second_of(rings.get(1)).is_none()
        & (second_of(rings.get(2)) == Some(1_711_931_400))
}

fn half_past_two(rt: &impl Abort) -> Time {
    Time::from_hms(2, 30, 0).expect(rt, "a time")
}

/// Asserts when an alarm at half past two rings around that change.
fn expect_rings(rt: &impl Abort, alloc: Global, zone: &OpenZone) {
    let first = Date::from_calendar_date(2024, Month::March, 30).expect(rt, "a date");
    let rings = zone
        .alarms(alloc, half_past_two(rt), first, 3)
        .expect(rt, "no rings");
    holds(rt, "rings", are_around_change(&rings));
}

/// Asserts that none rings past all years.
fn expect_no_rings(rt: &impl Abort, alloc: Global, zone: &OpenZone) {
    let last = Date::from_calendar_date(9999, Month::December, 31).expect(rt, "a date");
    let found = zone.alarms(alloc, half_past_two(rt), last, 2);
    let wanted = "the last day of the alarm is past 9999-12-31";
    refused(rt, alloc, found, wanted);
}

/// Asserts the rings in a zone of a source.
fn expect_alarms(rt: &impl Abort, alloc: Global, zone: &OpenZone) {
    expect_rings(rt, alloc, zone);
    expect_no_rings(rt, alloc, zone);
}

#[test]
fn a_zone_lists_its_changes_and_has_alarms(rt: HostRuntime) {
    let zone = zone_of(&rt, rt.alloc(), PARIS, "Europe/Paris");
    expect_changes(&rt, rt.alloc(), &zone);
    expect_alarms(&rt, rt.alloc(), &zone);
}

#[test]
fn a_change_without_a_date_is_not_listed(rt: HostRuntime) {
    let zone = zone_of(&rt, rt.alloc(), b"Z A 0 - A 9999 D 31 99\n1 - B\n", "A");
    expect_no_date(&rt, rt.alloc(), &zone);
}

/// The source of the archive that is stored beside the program `zone_tree`.
const TREE: &[u8] = b"\
# version 2026b
Rule US 2007 max - Mar Sun>=8 2:00 1:00 D
Rule US 2007 max - Nov Sun>=1 2:00 0 S
Link America/New_York US/Eastern
Zone Etc/UTC 0 - UTC
Link Etc/UTC Zulu
Zone America/New_York -5:00 US E%sT
";

/// The CRC-32 of some bytes.
fn crc32(bytes: &[u8]) -> u32 {
    let mut crc = u32::MAX;
    for byte in bytes {
        crc ^= u32::from(*byte);
        for _ in 0..8 {
            crc = if crc & 1 == 1 {
                (crc >> 1) ^ 0xEDB8_8320
            } else {
                crc >> 1
            };
        }
    }
    !crc
}

/// Asserts the archive of that source.
fn expect_archive(rt: &impl Abort, alloc: Global, source: &OpenSource) {
    let archive = source.tree(alloc).expect(rt, "no archive");
    holds(rt, "length", archive.len() == 6656);
    holds(rt, "sum", crc32(archive.as_slice()) == 2_971_615_741);
}

/// Asserts that a source whose link leads to nothing has none.
fn expect_no_archive(rt: &impl Abort, alloc: Global, source: &OpenSource) {
    refused(rt, alloc, source.tree(alloc), "tree C: link");
}

#[test]
fn an_open_source_has_an_archive(rt: HostRuntime) {
    expect_archive(&rt, rt.alloc(), &plain_source(&rt, rt.alloc(), TREE));
    let lost = plain_source(&rt, rt.alloc(), b"Zone A 0 - A\nLink B C\n");
    expect_no_archive(&rt, rt.alloc(), &lost);
}
