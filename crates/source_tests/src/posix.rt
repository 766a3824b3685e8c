//! POSIX TZ strings over the zones of a database. What the strings give is what Python's zoneinfo gives for them; 21 of them `zic` writes
//! after the zones of the tz database.
use crate::checks::holds;
use crate::fixtures::{NEW_YORK, at, database_of};
use crate::rows::due_of;
use std::process::Abort;
use tz_lookup::{Database, TimeZone};
use tz_posix::{ParseError, PosixTz, RangeError};

/// A string and, after `|`, seconds from 1970-01-01 00:00:00 UTC, each with the offset in seconds, 1 for daylight saving time and 0 for
/// standard time, and the abbreviation: for those of `zic` a second to each side of each change of two years, and others.
const ANSWERS: &str = "\
EST5EDT,M3.2.0,M11.1.0|1710053999 -18000 0 EST;1710054000 -14400 1 EDT;2341465199 -18000 0 EST;2341465200 -14400 1 EDT;2362024799 -14400 1 EDT;2362024800 -18000 0 EST;2840140800 -18000 0 EST;2855865600 -14400 1 EDT;3698031599 -18000 0 EST;3698031600 -14400 1 EDT;3718591199 -14400 1 EDT;3718591200 -18000 0 EST
EST5EDT4,M3.2.0,M11.1.0|1730613599 -14400 1 EDT;1730613600 -18000 0 EST
AEST-10AEDT,M10.1.0,M4.1.0/3|1704067200 39600 1 AEDT;1712419199 39600 1 AEDT;1712419200 36000 0 AEST;2343225599 39600 1 AEDT;2343225600 36000 0 AEST;2358950399 36000 0 AEST;2358950400 39600 1 AEDT;2840140800 39600 1 AEDT;2855865600 36000 0 AEST;3700396799 39600 1 AEDT;3700396800 36000 0 AEST;3716121599 36000 0 AEST;3716121600 39600 1 AEDT
AAA-10BBB,J1/0,J10/0|1704031200 39600 1 BBB;1704031199 36000 0 AAA
AAA-10BBB,J10/0,J10/1|1704808800 36000 0 AAA
<-02>2<-03>3,M3.2.0,M11.1.0|1720000000 -10800 1 -03
EST5EDT|1710053999 -18000 0 EST;1710054000 -14400 1 EDT
CST6CDT4|1710054000 -14400 1 CDT
:<New_York>|1710053999 -18000 0 EST
:York|1710054000 -14400 1 EDT
EST5|1710054000 -18000 0 EST
CET-1CEST,M3.5.0,M10.5.0/3|2342653199 3600 0 CET;2342653200 7200 1 CEST;2361401999 7200 1 CEST;2361402000 3600 0 CET;2840140800 3600 0 CET;2855865600 7200 1 CEST;3699824399 3600 0 CET;3699824400 7200 1 CEST;3717968399 7200 1 CEST;3717968400 3600 0 CET
GMT0BST,M3.5.0/1,M10.5.0|2342653199 0 0 GMT;2342653200 3600 1 BST;2361401999 3600 1 BST;2361402000 0 0 GMT;2840140800 0 0 GMT;2855865600 3600 1 BST;3699824399 0 0 GMT;3699824400 3600 1 BST;3717968399 3600 1 BST;3717968400 0 0 GMT
NZST-12NZDT,M9.5.0,M4.1.0/3|2343218399 46800 1 NZDT;2343218400 43200 0 NZST;2358338399 43200 0 NZST;2358338400 46800 1 NZDT;2840140800 46800 1 NZDT;2855865600 43200 0 NZST;3700389599 46800 1 NZDT;3700389600 43200 0 NZST;3715509599 43200 0 NZST;3715509600 46800 1 NZDT
<+1030>-10:30<+11>-11,M10.1.0,M4.1.0|2343221999 39600 1 +11;2343222000 37800 0 +1030;2358948599 37800 0 +1030;2358948600 39600 1 +11;2840140800 39600 1 +11;2855865600 37800 0 +1030;3700393199 39600 1 +11;3700393200 37800 0 +1030;3716119799 37800 0 +1030;3716119800 39600 1 +11
<+1245>-12:45<+1345>,M9.5.0/2:45,M4.1.0/3:45|2343218399 49500 1 +1345;2343218400 45900 0 +1245;2358338399 45900 0 +1245;2358338400 49500 1 +1345;2840140800 49500 1 +1345;2855865600 45900 0 +1245;3700389599 49500 1 +1345;3700389600 45900 0 +1245;3715509599 45900 0 +1245;3715509600 49500 1 +1345
<+11>-11<+12>,M10.1.0,M4.1.0/3|2343221999 43200 1 +12;2343222000 39600 0 +11;2358946799 39600 0 +11;2358946800 43200 1 +12;2840140800 43200 1 +12;2855865600 39600 0 +11;3700393199 43200 1 +12;3700393200 39600 0 +11;3716117999 39600 0 +11;3716118000 43200 1 +12
NST3:30NDT,M3.2.0,M11.1.0|2341459799 -12600 0 NST;2341459800 -9000 1 NDT;2362019399 -9000 1 NDT;2362019400 -12600 0 NST;2840140800 -12600 0 NST;2855865600 -9000 1 NDT;3698026199 -12600 0 NST;3698026200 -9000 1 NDT;3718585799 -9000 1 NDT;3718585800 -12600 0 NST
IST-1GMT0,M10.5.0,M3.5.0/1|2342653199 0 1 GMT;2342653200 3600 0 IST;2361401999 3600 0 IST;2361402000 0 1 GMT;2840140800 0 1 GMT;2855865600 3600 0 IST;3699824399 0 1 GMT;3699824400 3600 0 IST;3717968399 3600 0 IST;3717968400 0 1 GMT
<+00>0<+02>-2,M3.5.0/1,M10.5.0/3|2342653199 0 0 +00;2342653200 7200 1 +02;2361401999 7200 1 +02;2361402000 0 0 +00;2840140800 0 0 +00;2855865600 7200 1 +02;3699824399 0 0 +00;3699824400 7200 1 +02;3717968399 7200 1 +02;3717968400 0 0 +00
<-01>1<+00>,M3.5.0/0,M10.5.0/1|2342653199 -3600 0 -01;2342653200 0 1 +00;2361401999 0 1 +00;2361402000 -3600 0 -01;2840140800 -3600 0 -01;2855865600 0 1 +00;3699824399 -3600 0 -01;3699824400 0 1 +00;3717968399 0 1 +00;3717968400 -3600 0 -01
<-06>6<-05>,M9.1.6/22,M4.1.6/22|2343265199 -18000 1 -05;2343265200 -21600 0 -06;2356574399 -21600 0 -06;2356574400 -18000 1 -05;2840140800 -18000 1 -05;2855865600 -21600 0 -06;3700436399 -18000 1 -05;3700436400 -21600 0 -06;3713745599 -21600 0 -06;3713745600 -18000 1 -05
CST5CDT,M3.2.0/0,M11.1.0/1|2341457999 -18000 0 CST;2341458000 -14400 1 CDT;2362021199 -14400 1 CDT;2362021200 -18000 0 CST;2840140800 -18000 0 CST;2855865600 -14400 1 CDT;3698024399 -18000 0 CST;3698024400 -14400 1 CDT;3718587599 -14400 1 CDT;3718587600 -18000 0 CST
EET-2EEST,M3.5.0/0,M10.5.0/0|2342642399 7200 0 EET;2342642400 10800 1 EEST;2361387599 10800 1 EEST;2361387600 7200 0 EET;2840140800 7200 0 EET;2855865600 10800 1 EEST;3699813599 7200 0 EET;3699813600 10800 1 EEST;3717953999 10800 1 EEST;3717954000 7200 0 EET
ACST-9:30ACDT,M10.1.0,M4.1.0/3|2343227399 37800 1 ACDT;2343227400 34200 0 ACST;2358952199 34200 0 ACST;2358952200 37800 1 ACDT;2840140800 37800 1 ACDT;2855865600 34200 0 ACST;3700398599 37800 1 ACDT;3700398600 34200 0 ACST;3716123399 34200 0 ACST;3716123400 37800 1 ACDT
HST10HDT,M3.2.0,M11.1.0|2341483199 -36000 0 HST;2341483200 -32400 1 HDT;2362042799 -32400 1 HDT;2362042800 -36000 0 HST;2840140800 -36000 0 HST;2855865600 -32400 1 HDT;3698049599 -36000 0 HST;3698049600 -32400 1 HDT;3718609199 -32400 1 HDT;3718609200 -36000 0 HST
<+0545>-5:45|2840140800 20700 0 +0545;2855865600 20700 0 +0545
<-0930>9:30|2840140800 -34200 0 -0930;2855865600 -34200 0 -0930
IST-5:30|2840140800 19800 0 IST;2855865600 19800 0 IST
UTC0|2840140800 0 0 UTC;2855865600 0 0 UTC
";

/// Texts that are refused, and the part that has no sense, or the name that no zone has: the last five stand after zones of the tz
/// database, with a time before midnight or past 23 hours.
const REFUSED: &str = "\
AB0|grammar
:America/New_York|grammar
EST25|time
EST5EDT,M3.2.0/24,M11.1.0|time
EST5EDT,J0,J365|date
:Mars|Mars
<-02>2<-01>,M3.5.0/-1,M10.5.0/0|grammar
EET-2EEST,M4.5.5/0,M10.5.4/24|time
<-04>4<-03>,M9.1.6/24,M4.1.6/24|time
IST-2IDT,M3.4.4/26,M10.5.0|time
EET-2EEST,M3.4.4/50,M10.4.4/50|time
";

/// Whether a string gives what is said of a second.
fn gives(rt: &impl Abort, tz: &PosixTz<'_>, answer: &str) -> bool {
    let due = due_of(rt, answer);
    match tz.get_offset(&at(rt, due.second)) {
        Ok(offset) => due.is(&offset),
        Err(_) => false,
    }
}

/// Asserts all answers of a row.
fn expect_given<'x>(rt: &impl Abort, database: &'x Database, row: &'x str) {
    let (text, answers) = row.split_once('|').expect(rt, "no string");
    let Ok(tz) = PosixTz::parse(text, database) else {
        panic!(rt; "{row}");
    };
    for answer in answers.split(';') {
        holds(rt, answer, gives(rt, &tz, answer));
    }
}

/// Why a text isn't read: the part of it that has no sense, or the name that no zone has.
fn told<'x>(text: &'x str, database: &'x Database) -> &'x str {
    match PosixTz::parse(text, database) {
        Ok(_) => "none",
        Err(ParseError::Grammar) => "grammar",
        Err(ParseError::Range(RangeError::Time)) => "time",
        Err(ParseError::Range(RangeError::Date)) => "date",
        Err(ParseError::UnknownName(name)) => name,
    }
}

/// Whether a text stands for the zone of a name.
fn is_zone<'x>(text: &'x str, database: &'x Database, name: &str) -> bool {
    match PosixTz::parse(text, database) {
        Ok(tz) => match tz.as_iana() {
            Some(zone) => zone.name() == name,
            None => false,
        },
        Err(_) => false,
    }
}

/// Asserts each row of both tables.
fn expect_rows(rt: &impl Abort, database: &Database) {
    for row in ANSWERS.lines() {
        expect_given(rt, database, row);
    }
    for row in REFUSED.lines() {
        let (text, wanted) = row.split_once('|').expect(rt, "no cause");
        holds(rt, text, told(text, database) == wanted);
    }
}

/// Whether a short name stands for its zone.
fn is_new_york(database: &Database) -> bool {
    is_zone(":<America/New_York>", database, "America/New_York")
}

#[test]
fn strings_give_what_another_reader_gives(rt: HostRuntime) {
    let database = database_of(&rt, rt.alloc(), NEW_YORK);
    expect_rows(&rt, &database);
    holds(&rt, "short", is_new_york(&database));
}

#[test]
fn an_empty_database_has_no_zone(rt: HostRuntime) {
    let empty = database_of(&rt, rt.alloc(), b"");
    let is_told = told("EST5EDT", &empty) == "America/New_York";
    holds(&rt, "empty", is_told);
}
