//! What the strings after compiled zones put in force, as Python's zoneinfo has it, and past a year's edges as `zic -b fat` has it; and a
//! zone of a few changes with such a string.
use crate::checks::holds;
use crate::fixtures::at;
use crate::rows::due_of;
use civil_base::{OffsetDateTime, PlainDateTime, read_local};
use std::alloc::Global;
use std::process::Abort;
use tz_ever::{Recurrence, ZoneSet, ZoneTz};
use tz_lookup::{InstantsOf, TimeZone};
use tz_tzif::{Footer, spans_of};
use zone_tzif_core::{ZoneFile, read_file};

/// A footer and, after `|`, seconds from 1970-01-01 00:00:00 UTC, each with the offset in seconds, 1 for daylight saving time and 0 for
/// standard time, and the abbreviation. The last five fire past their year's edges, as the files of `zic -b fat` list their changes.
const ROWS: &str = "\
EET-2EEST,M4.5.5/0,M10.5.4/24|1714082399 7200 0 EET;1714082400 10800 1 EEST;1730408399 10800 1 EEST;1730408400 7200 0 EET;5690037599 7200 0 EET;5690037600 10800 1 EEST
EET-2EEST,M3.4.4/50,M10.4.4/50|1711756799 7200 0 EET;1711756800 10800 1 EEST;1729897199 10800 1 EEST;1729897200 7200 0 EET;5687711999 7200 0 EET;5687712000 10800 1 EEST
IST-2IDT,M3.4.4/26,M10.5.0|1711670399 7200 0 IST;1711670400 10800 1 IDT;1729983599 10800 1 IDT;1729983600 7200 0 IST;5687625599 7200 0 IST;5687625600 10800 1 IDT
<-02>2<-01>,M3.5.0/-1,M10.5.0/0|1711846799 -7200 0 -02;1711846800 -3600 1 -01;1729990799 -3600 1 -01;1729990800 -7200 0 -02;5687801999 -7200 0 -02;5687802000 -3600 1 -01
<-04>4<-03>,M9.1.6/24,M4.1.6/24|1712458799 -10800 1 -03;1712458800 -14400 0 -04;1725767999 -14400 0 -04;1725768000 -10800 1 -03;5688413999 -10800 1 -03;5688414000 -14400 0 -04
IST-1GMT0,M10.5.0,M3.5.0/1|1711846799 0 1 GMT;1711846800 3600 0 IST;1729990799 3600 0 IST;1729990800 0 1 GMT;5687801999 0 1 GMT;5687802000 3600 0 IST
EST5EDT,M3.2.0,M11.1.0|1710053999 -18000 0 EST;1710054000 -14400 1 EDT;1730613599 -14400 1 EDT;1730613600 -18000 0 EST;5686009199 -18000 0 EST;5686009200 -14400 1 EDT
EST5EDT,0/0,J365/25|0 -14400 1 EDT;4102444800 -14400 1 EDT
<+0330>-3:30|0 12600 0 +0330;4102444800 12600 0 +0330
EST5EDT,M12.5.0/150,M3.2.0|1704067200 -18000 0 EST;1704538799 -18000 0 EST;1704538800 -14400 1 EDT;1710050399 -14400 1 EDT;1710050400 -18000 0 EST
EST5EDT,M10.1.0,M12.5.0/150|1704067200 -14400 1 EDT;1704535199 -14400 1 EDT;1704535200 -18000 0 EST;1728197999 -18000 0 EST;1728198000 -14400 1 EDT
EST5EDT,M1.1.0/-150,M4.1.0|1704063599 -18000 0 EST;1704063600 -14400 1 EDT;1712469599 -14400 1 EDT;1712469600 -18000 0 EST;1735513200 -14400 1 EDT
EST-10EDT,M9.1.0,0/-10|1703991599 39600 1 EDT;1703991600 36000 0 EST;1725119999 36000 0 EST;1725120000 39600 1 EDT;1735614000 36000 0 EST
EST-10EDT,J365/167,J365/100|1704153600 39600 1 EDT;1704301199 39600 1 EDT;1704301200 36000 0 EST;1704545999 36000 0 EST;1704546000 39600 1 EDT
";

/// Whether a footer puts in force at a second what is said of it.
fn holds_at(rt: &impl Abort, footer: &Footer<'_>, answer: &str) -> bool {
    let due = due_of(rt, answer);
    assert!(rt; due.second.unsigned_abs() <= 800_000_000_000);
    due.is(&footer.held_at(due.second))
}

/// Asserts all answers of a row.
fn expect_held(rt: &impl Abort, row: &str) {
    let (text, answers) = row.split_once('|').expect(rt, "no footer");
    let Some(footer) = Footer::parse(text) else {
        panic!(rt; "{row}");
    };
    for answer in answers.split(';') {
        holds(rt, answer, holds_at(rt, &footer, answer));
    }
}

#[test]
fn footers_put_in_force_what_is_due(rt: HostRuntime) {
    for row in ROWS.lines() {
        expect_held(&rt, row);
    }
}

/// New York as a slim file has it: local mean time, two changes, and the rules of today in the footer.
const NEW_YORK: &[u8] = b"\
TZif2\0\0\0\0\0\0\0\0\0\0\0\0\0\0\0\0\0\0\0\0\0\0\0\0\0\0\0\0\0\0\0\0\0\0\x01\0\0\0\x01\0\0\0\0\0\0\0\
TZif2\0\0\0\0\0\0\0\0\0\0\0\0\0\0\0\0\0\0\0\0\0\0\0\0\0\0\0\0\0\0\x02\0\0\0\x03\0\0\0\x0c\
\xff\xff\xff\xff^\x03\xf0\x90\0\0\0\0E\xf3\xa8\xf0\x01\x02\
\xff\xff\xba\x9e\0\0\xff\xff\xb9\xb0\0\x04\xff\xff\xc7\xc0\x01\x08LMT\0EST\0EDT\0\nEST5EDT,M3.2.0,M11.1.0\n";

fn new_york(rt: &impl Abort, alloc: Global) -> ZoneFile {
    match read_file(alloc, NEW_YORK) {
        Ok(zone) => zone,
        Err(_) => panic!(rt; "refused"),
    }
}

/// Seconds at which it is asked, with what is in force: the last lies past its changes.
const HELD: &str =
    "-2717650801 -17762 0 LMT;-2717650800 -18000 0 EST;1173596399 -18000 0 EST;1173596400 -14400 1 EDT;5695977600 -14400 1 EDT";

/// Whether the zone has in force at a second what is said of it.
fn has_in_force<T: TimeZone>(rt: &impl Abort, tz: &T, row: &str) -> bool {
    let due = due_of(rt, row);
    due.is(&tz.get_offset_utc(&at(rt, due.second)))
}

/// Whether a local time in a fold past the changes of the zone has two instants.
fn has_fold(zone: &ZoneTz<'_>, fold: &PlainDateTime) -> bool {
    let mut instants = InstantsOf::new(zone, fold);
    instants.next().is_some_and(is_first) & instants.next().is_some_and(is_second)
}

fn is_first(instant: OffsetDateTime) -> bool {
    instant.unix_timestamp() == 1_730_611_800
}

fn is_second(instant: OffsetDateTime) -> bool {
    instant.unix_timestamp() == 1_730_615_400
}

/// Asserts what the zone has in force, and the instants of that local time.
fn expect_new_york(rt: &impl Abort, zone: &ZoneTz<'_>) {
    for row in HELD.split(';') {
        holds(rt, row, has_in_force(rt, zone, row));
    }
    let fold = read_local("2024-11-03 01:30:00.000000000").expect(rt, "no local time");
    holds(rt, "fold", has_fold(zone, &fold));
}

#[test]
fn a_slim_file_answers_past_its_last_change(rt: HostRuntime) {
    match spans_of(rt.alloc(), "America/New_York", &new_york(&rt, rt.alloc())) {
        Ok(spans) => {
            holds(&rt, "again", spans.recurrence == Recurrence::Later);
            match ZoneSet::build(rt.alloc(), &spans.set, spans.recurrence) {
                Ok(zone) => expect_new_york(&rt, &ZoneTz::new(&zone)),
                Err(_) => panic!(&rt; "no zone"),
            }
        }
        Err(_) => panic!(&rt; "refused"),
    }
}
