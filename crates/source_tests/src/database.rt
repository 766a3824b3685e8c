//! A database of zones by names and parts of names, and schedules at the edges of their rules: the offsets and names that the reference
//! compiler `zic` gives for the same text. Daylight saving time is where the saving is above 0, so Dublin, whose winter takes an hour off,
//! has none.
use crate::checks::{holds, reads};
use crate::fixtures::{FIXED, at, database_of, parser, table_of};
use crate::rows::due_of;
use basics::Text;
use std::alloc::Global;
use std::process::Abort;
use tz_lookup::{Database, TimeZone, Tz};
use zone_answers::answers;
use zone_line::LineParser;
use zone_table::{Child, Format, Structure, Table};

/// A rule that would fire where its line ends by the wall's clock; an end under the saving of its own line; a saving below 0 at the
/// beginning of a zone, and of a line.
const SOURCE: &[u8] = b"\
Rule End 2000 only - Apr 1 0:00 1:00 S
Rule End 2001 only - Jan 1 0:00 0 -
Zone Test/End 0:00 End EN%sT 2001
 2:00 - BBB
Zone Test/Wall 1:00 1:00 AAA 2000
 0:00 - BBB
Rule Eire 1971 only - Oct 31 2:00u -1:00 -
Rule Eire 1972 only - Mar Sun>=16 2:00u 0 -
Zone Test/Dublin 1:00 Eire IST/GMT
Rule Late 1990 only - Mar 1 0:00 -1:00 W
Rule Late 1991 only - Mar 1 0:00 0 S
Zone Test/Late 0:00 - AAA 1980
 1:00 Late LA%sT
";

/// A zone, seconds from 1970-01-01 00:00:00 UTC, the offset in seconds, 1 for daylight saving time and 0 for none, and the
/// abbreviation.
const ROWS: &str = "\
Test/End 954547199 7200 0 BBB
Test/End 954547200 3600 1 ENST
Test/End 978303599 3600 1 ENST
Test/End 978303600 7200 0 BBB
Test/Wall 946677599 7200 1 AAA
Test/Wall 946677600 0 0 BBB
Test/Dublin 57722399 3600 0 IST
Test/Dublin 57722400 0 0 GMT
Test/Dublin 69818399 0 0 GMT
Test/Dublin 69818400 3600 0 IST
Test/Late 315532799 0 0 AAA
Test/Late 315532800 3600 0 LAST
Test/Late 636245999 3600 0 LAST
Test/Late 636246000 0 0 LAWT
Test/Late 667785600 3600 0 LAST
";

/// Whether the zone of a row has in force what the row says.
fn has_in_force(rt: &impl Abort, database: &Database, row: &str) -> bool {
    let (name, due) = row.split_once(' ').expect(rt, "nothing is due");
    let zone = database.get_by_name(name).expect(rt, "no zone");
    let due = due_of(rt, due);
    due.is(&zone.get_offset_utc(&at(rt, due.second)))
}

fn expect_in_force(rt: &impl Abort, database: &Database) {
    for row in ROWS.lines() {
        holds(rt, row, has_in_force(rt, database, row));
    }
}

#[test]
fn edges_of_rules(rt: HostRuntime) {
    expect_in_force(&rt, &database_of(&rt, rt.alloc(), SOURCE));
}

const ZONES: &[u8] = b"\
Zone B/York 1:00 - B
Zone C 0:00 - C
Zone A/York 2:00 - A
Link C Z/Link
Link Nowhere Y
";

/// Asserts the names of some zones in order, with a space after each.
fn expect_names(rt: &impl Abort, alloc: Global, zones: &[Tz<'_>], names: &str) {
    let mut found = String::new(alloc);
    for zone in zones {
        found.push_str(zone.name()).expect(rt, "memory");
        found.push(' ').expect(rt, "memory");
    }
    reads(rt, found.as_str(), names);
}

fn expect_every_name(rt: &impl Abort, alloc: Global, database: &Database) {
    let every: Vec<Tz<'_>> = database.iter().collect(alloc).expect(rt, "memory");
    expect_names(rt, alloc, &every, "A/York B/York C Z/Link ");
}

fn expect_york(rt: &impl Abort, alloc: Global, database: &Database) {
    let found = database.find_by_name(alloc, "York").expect(rt, "memory");
    expect_names(rt, alloc, &found, "A/York B/York ");
}

#[test]
fn zones_by_names(rt: HostRuntime) {
    let database = database_of(&rt, rt.alloc(), ZONES);
    expect_every_name(&rt, rt.alloc(), &database);
    expect_york(&rt, rt.alloc(), &database);
}

/// Writes a part of a hierarchy and its children, with a slash after a submodule.
fn push_children(rt: &impl Abort, text: &mut String, children: &[Child<'_>]) {
    for child in children {
        let (name, end) = match child {
            Child::Submodule(name) => (*name, "/ "),
            Child::TimeZone(name) => (*name, " "),
        };
        text.push_str(name).expect(rt, "memory");
        text.push_str(end).expect(rt, "memory");
    }
}

fn expect_hierarchy(rt: &impl Abort, alloc: Global, table: &Table) {
    let mut text = String::new(alloc);
    for entry in table.structure(alloc).expect(rt, "memory") {
        push_children(rt, &mut text, &entry.children);
    }
    reads(rt, text.as_str(), "b/ e c d ");
}

#[test]
fn names_have_a_hierarchy(rt: HostRuntime) {
    let source = b"Zone a/b/d 0 - A\nZone a/e 0 - A\nZone a/b/c 0 - A\n";
    expect_hierarchy(&rt, rt.alloc(), &table_of(&rt, rt.alloc(), source));
}

fn expect_letters(rt: &impl Abort, alloc: Global, format: &Format) {
    let shown = format.format(alloc, 3600, Some("D")).expect(rt, "memory");
    reads(rt, shown.as_str(), "EDT");
}

fn expect_constant(rt: &impl Abort, alloc: Global, text: Text) {
    let format = Format::Constant(text);
    let shown = format.format_constant(alloc).expect(rt, "memory");
    reads(rt, shown.as_str(), "TST");
}

#[test]
fn abbreviations(rt: HostRuntime) {
    let format = Format::new(rt.alloc(), "E%sT").expect(&rt, "memory");
    expect_letters(&rt, rt.alloc(), &format);
    let text = Text::new(rt.alloc(), "TST").expect(&rt, "memory");
    expect_constant(&rt, rt.alloc(), text);
}

fn expect_answers(rt: &impl Abort, alloc: Global, parser: &LineParser) {
    let asked = b"at Test/Fixed -1\n";
    let lines = answers(alloc, parser, FIXED, asked).expect(rt, "refused");
    let line = b"1970-01-01 01:29:59.999999999 +01:30:00".as_slice();
    holds(
        rt,
        "answers",
        (lines.len() == 1) & (lines.get(0) == Some(line)),
    );
}

#[test]
fn requests_are_answered(rt: HostRuntime) {
    expect_answers(&rt, rt.alloc(), &parser(&rt, rt.alloc()));
}
