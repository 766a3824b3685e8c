//! Whole runs of each program over objects in memory, with each fault line. What a row gives was computed with `zic` and Python's
//! `zoneinfo`, or stands in the form that the programs' page says.
//!
//! A row has the program and its words, the source in the file `zones`, the requests and the output, with `~` between them and `;` for
//! each line feed. A row without a source has that of the row above it.
use crate::checks::holds;
use crate::fixtures::parser;
use crate::objects::{Given, NONE_FAILING, Outcome, run_over};
use std::alloc::Global;
use std::process::Abort;
use zone_line::LineParser;

/// Rows of runs that end with status 0.
const RUNS: &str = "\
answers zones~~~
answers --generate 1~~~lines 2 bytes 78 sum 3783;
answers --generate 1000~~~lines 2000 bytes 78000 sum 3788596;
answers zones~Zone Test/Fixed 1:30 - TST;~at Test/Fixed 0;~1970-01-01 01:30:00.000000000 +01:30:00;
answers zones~~at Test/Fixed -1~1970-01-01 01:29:59.999999999 +01:30:00;
answers zones~~at Test/Fixed 0;at Test/Fixed -0;~1970-01-01 01:30:00.000000000 +01:30:00;1970-01-01 01:30:00.000000000 +01:30:00;
answers zones~~local Test/Fixed 1970-01-01 01:30:00.000000000;~1970-01-01 01:30:00.000000000 +01:30:00;
answers zones~~local Test/Fixed -9999-01-01 00:00:00.000000000;~-9999-01-01 00:00:00.000000000 +01:30:00;
answers zones~Zone Test/Fixed 1:30 - TST\r;~at Test/Fixed 0\r;~1970-01-01 01:30:00.000000000 +01:30:00;
answers zones~Zone U 0:00 - U;~at U -377705116800000000000;~-9999-01-01 00:00:00.000000000 +00:00:00;
answers zones~Zone O 1:00 1:00 O;~at O 0;~1970-01-01 02:00:00.000000000 +02:00:00;
answers zones~Zone E 0:00 - E 2000 Jan 1 0:00u # ends;~at E 0;~1970-01-01 00:00:00.000000000 +00:00:00;
answers zones~Rule US 2007 max - Mar Sun>=8 2:00 1:00 D;~~
answers zones~Zone A 1:00 - A;Link A B;Link B C;~at B 0;~1970-01-01 01:00:00.000000000 +01:00:00;
answers zones~Rule US 2007 max - Mar Sun>=8 2:00 1:00 D;Rule US 2007 max - Nov Sun>=1 2:00 0 S;Zone America/New_York -5:00 US E%sT;~at America/New_York 1710053999999999999;at America/New_York 1710054000000000000;~2024-03-10 01:59:59.999999999 -05:00:00;2024-03-10 03:00:00.000000000 -04:00:00;
answers zones~~at America/New_York 4118083200000000000;~2100-06-30 19:00:00.000000000 -05:00:00;
answers zones~~local America/New_York 2024-03-10 02:30:00.000000000;~none;
answers zones~~local America/New_York 2024-11-03 01:30:00.000000000;~2024-11-03 01:30:00.000000000 -04:00:00 | 2024-11-03 01:30:00.000000000 -05:00:00;
answers zones~~local America/New_York 2024-11-03 02:00:00.000000000;~2024-11-03 02:00:00.000000000 -05:00:00;
alarm zones America/New_York 2024-03-09 02:30:00 3~~~2024-03-09 02:30:00.000000000 -05:00:00;2024-03-10 none;2024-03-11 02:30:00.000000000 -04:00:00;
alarm zones America/New_York 2024-11-03 01:30:00 1~~~2024-11-03 01:30:00.000000000 -04:00:00;
alarm zones America/New_York 9999-12-31 00:00:00 1~~~9999-12-31 00:00:00.000000000 -05:00:00;
alarm zones America/New_York -9999-01-01 23:59:59 1~~~-9999-01-01 23:59:59.000000000 -05:00:00;
list zones America/New_York 1704067200 1735689600~~~1710054000  EDT  2024-03-10 03:00:00.000000000 -04:00:00;1730613600  EST  2024-11-03 01:00:00.000000000 -05:00:00;
list zones America/New_York 1710054000 1730613600~~~1710054000  EDT  2024-03-10 03:00:00.000000000 -04:00:00;
list zones America/New_York 1730613600 1710054000~~~
tail zones America/New_York~~~1173596400 EST5EDT,M3.2.0,M11.1.0;
answers zones~Rule Spain 1918 only - Apr 15 23:00 1:00 S;Rule Spain 1918 1919 - Oct 6 24:00s 0 -;Rule Spain 1919 only - Apr 6 23:00 1:00 S;Rule Spain 1924 only - Apr 16 23:00 1:00 S;Rule Spain 1924 only - Oct 4 24:00s 0 -;Rule EU 1977 1980 - Apr Sun>=1 1:00u 1:00 S;Rule EU 1977 only - Sep lastSun 1:00u 0 -;Rule EU 1978 only - Oct 1 1:00u 0 -;Rule EU 1979 1995 - Sep lastSun 1:00u 0 -;Rule EU 1981 max - Mar lastSun 1:00u 1:00 S;Rule EU 1996 max - Oct lastSun 1:00u 0 -;Zone Europe/Madrid -0:14:44 - LMT 1901 Jan 1 0:00u; 0:00 Spain WE%sT 1940 Mar 16 23:00; 1:00 Spain CE%sT 1979; 1:00 EU CE%sT;~at Europe/Madrid -2177452800000000000;at Europe/Madrid 1720000000000000000;~1901-01-01 00:00:00.000000000 +00:00:00;2024-07-03 11:46:40.000000000 +02:00:00;
list zones Europe/Madrid -2177452800 -1620000000~~~-2177452800  WET   1901-01-01 00:00:00.000000000 +00:00:00;-1631926800  WEST  1918-04-16 00:00:00.000000000 +01:00:00;
tail zones Europe/Madrid~~~828234000 CET-1CEST,M3.5.0,M10.5.0/3;
answers zones~Zone Test/Mark 1:00 1:00 A 2000 Jan 1 0:00s; 0:00 - B;~at Test/Mark 946681199000000000;at Test/Mark 946681200000000000;~2000-01-01 00:59:59.000000000 +02:00:00;1999-12-31 23:00:00.000000000 +00:00:00;
answers zones~Zone Test/Half 5:30 - L;~at Test/Half 1705400000000000000;at Test/Half 1705400000000000001;at Test/Half 1705429799999999999;at Test/Half 1705429800000000000;at Test/Half 1705400000000000002;~2024-01-16 15:43:20.000000000 +05:30:00;2024-01-16 15:43:20.000000001 +05:30:00;2024-01-16 23:59:59.999999999 +05:30:00;2024-01-17 00:00:00.000000000 +05:30:00;2024-01-16 15:43:20.000000002 +05:30:00;
answers zones~Zone Test/Knot 10:00 - A 2000; 5:00 - B 1999 Dec 31 20:00; 0:00 - C;~local Test/Knot 1999-12-31 19:30:00.000000000;~1999-12-31 19:30:00.000000000 +10:00:00 | 1999-12-31 19:30:00.000000000 +05:00:00 | 1999-12-31 19:30:00.000000000 +00:00:00;
alarm zones Test/Knot 1999-12-31 19:30:00 1~~~1999-12-31 19:30:00.000000000 +10:00:00;
answers zones~Zone A 0:00 - A; 1:00 - B;Zone B 2:00 - B;~at B 0;~1970-01-01 02:00:00.000000000 +02:00:00;
alarm zones Test/Skip 2011-12-29 12:00:00 3~Zone Test/Skip -10:00 - A 2011 Dec 30; 14:00 - B;~~2011-12-29 12:00:00.000000000 -10:00:00;2011-12-30 none;2011-12-31 12:00:00.000000000 +14:00:00;
list zones A 0 315529201~Zone A 0:00 - A 1970; 1:00 - \u{c4} 1980; 2:00 - CD;~~        0  \u{c4}   1970-01-01 01:00:00.000000000 +01:00:00;315529200  CD  1980-01-01 01:00:00.000000000 +02:00:00;
tail zones Lord_Howe~Rule LH 2008 max - Apr Sun>=1 2:00 0 -;Rule LH 2008 max - Oct Sun>=1 2:00 0:30 -;Zone Lord_Howe 10:30 LH +1030/+11;~~1223134200 <+1030>-10:30<+11>-11,M10.1.0,M4.1.0;
tail zones Fixed~Zone Fixed 1:30 - TST;~~all TST-1:30;
tail zones Edge~Zone Edge -24:59:59 - ABC;~~all ABC24:59:59;
tail zones Fourth~Rule F 2090 max - Mar Sun>=1 2:00 1:00 D;Rule F 2090 max - Oct Sun>=22 3:00 0 S;Zone Fourth -3:30 F F%sT;~~3792375000 FST3:30FDT,M3.1.0,M10.4.0/3;
tail zones Both~Rule T 2099 only - Mar 25 2:00 1:00 D;Rule T 2099 only - Oct 25 2:00 0 S;Zone Both 0:00 T A%s1;~~4078087200 <AS1>0<AD1>,M3.5.3,M10.5.0;
";

/// Rows whose output is the line of a fault, with status 2.
const FAULTS: &str = "\
answers zones~Zone A 0:00 - A;Zone A 0:00 X A;~~source 2: build UnknownRuleset;
answers zones~ 1:00 - B;~~source 1: build SurpriseContinuationLine;
answers zones~;Zone A 0:00 - A;Zone A 1:00 - B;~what~source 3: build DuplicateZone;
answers zones~Link a b;Link c b;~~source 2: build DuplicateLink;
answers zones~Zone A 1:00 - A;Link A B;Link B C;~at C 0;~request 1: unknown zone;
answers zones~Rule EU 1977 1980 HEY Apr Sun>=1 1:00u 1:00 S;~~source 1: line TypeColumnContainedNonHyphen;
answers zones~link Australia/Sydney Australia/ACT;~~source 1: line InvalidLineType;
answers zones~Zone A 0:00 - X Jan;~~source 1: line InvalidLineType;
answers zones~Rule R 2000 only - Jan 32 0:00 0 -;~~source 1: line InvalidDaySpec;
answers zones~Rule R 2000 only - Jan Xyz>=40 0:00 0 -;~~source 1: line FailedWeekdayParse;
answers zones~Rule EU 1977 1980 - Febtober Sun>=1 1:00u 1:00 S;~~source 1: line FailedMonthParse;
answers zones~Zone A 0:00 - A 99999999999999999999;~~source 1: line FailedYearParse;
answers zones~Zone A 200 - A;~~source 1: line InvalidTimeSpecAndType;
answers zones~Zone A 1:00u - A;~~source 1: line NonWallClockInTimeSpec;
answers zones~Zone A 0:00 1 A;~~source 1: line CouldNotParseSaving;
answers zones~Zone Test/Fixed 1:30 - TST;~at Test/Fixed 0;what;~request 2: request;
answers zones~~at Test/Fixed 0;;~request 2: request;
answers zones~~at  Test/Fixed 0;~request 1: request;
answers zones~~at Test/Fixed 0 ;~request 1: request;
answers zones~~at Test/Fixed +0;~request 1: request;
answers zones~~at Test/Fixed -;~request 1: request;
answers zones~~At Test/Fixed 0;~request 1: request;
answers zones~~at Test/Fixed 9999999999999999999999999999999;~request 1: request;
answers zones~~local Test/Fixed 1970-02-30 00:00:00.000000000;~request 1: request;
answers zones~~at Test/Other 0;~request 1: unknown zone;
answers zones~~at Test/Fixed 253402300799999999999;~request 1: range;
answers zones~~at Test/Fixed 999999999999999999999999999999;~request 1: range;
answers zones~Zone Far 26:00 - F;~at Far 0;~request 1: offset range;
answers zones~~at Far 999999999999999999999999999999;~request 1: offset range;
answers zones~~local Far -0000-01-01 00:00:00.000000000;~request 1: request;
answers zones~Zone W -1:30 - W;~at W 253402300800000000000;~request 1: range;
answers zones~Zone E 1:30 - E;~at E -377705116800000000001;~request 1: range;
answers zones~Zone U 0:00 - U;~at U -377705116800000000001;~request 1: range;
answers zones~Zone A 0:00 - A; 1:00 - B;Zone B 2:00 - B;~at B 0;at A 0;~request 2: schedule MissingUntil;
answers zones~Zone A 26:00 - A; 1:00 - B;~at A 0;~request 1: schedule MissingUntil;
answers zones~Zone A 0:00 - A 10000; 1:00 - B;~at A 0;~request 1: schedule YearRange;
answers zones~Zone A 0:00 - A 2000; 1:00 Nope B;~at A 0;~request 1: schedule UnknownRuleset;
answers zones~Rule R min 1990 - Jan 1 0:00 0 -;Zone A 0:00 R A;~at A 0;~request 1: schedule RuleYears;
answers zones~Rule D 2000 only - Jan Sun<=1 0:00 0 -;Zone Z 0:00 D Z;~at Z 0;~request 1: schedule DayRange;
answers zones~Rule D 2000 only - Jan 1 0:00 1:00 S;Zone Z 0:00 D Z;~at Z 0;~request 1: schedule NoStandardSpan;
answers zones~Rule R 9223372036854775807 max - Jan 1 0:00 0 -;Zone A 0:00 R A;~at A 0;~request 1: schedule NoStandardSpan;
alarm zones America/New_York 9999-12-31 00:00:00 2~Rule US 2007 max - Mar Sun>=8 2:00 1:00 D;Rule US 2007 max - Nov Sun>=1 2:00 0 S;Zone America/New_York -5:00 US E%sT;~~alarm: range;
alarm zones No/Zone 2024-03-09 02:30:00 1~~~alarm: unknown zone;
list zones Nowhere 0 1~~~list: unknown zone;
tail zones Nowhere~~~tail: unknown zone;
alarm zones No/Zone 2024-03-09 02:30:00 1~Nonsense;~~source 1: line InvalidLineType;
alarm zones B 2024-03-09 02:30:00 1~Zone B 0:00 Gone B;~~source 1: build UnknownRuleset;
alarm zones B 2024-03-09 02:30:00 1~Zone B 0:00 - B 2000; 0:00 Gone B;~~alarm: schedule UnknownRuleset;
alarm zones B 2024-03-09 02:30:00 1~Zone B 26:00 - B;~~alarm: offset range;
list zones A 0 999999999999~Zone A 0:00 - A 9999 Dec 31 99:00; 1:00 - B;~~list: range;
tail zones Late~Rule L 2099 only - Mar 1 0:00 1:00 D;Rule L 2099 only - Jun 1 0:00 2:00 E;Rule L 2099 only - Oct 1 0:00 0 S;Zone Late 0:00 L A%sT;~~tail: shape;
tail zones Below~Rule N 1971 max - Oct lastSun 2:00u -1:00 -;Rule N 1981 max - Mar lastSun 1:00u 0 -;Zone Below 1:00 N IST/GMT;~~tail: shape;
tail zones Far~Zone Far 25:00 - ABC;~~tail: range;
tail zones Nameless~Rule M 2000 max - Apr 1 0:00 1:00 D;Rule M 2000 max - Oct 1 0:00 0 -;Zone Nameless 0:00 M %s;~~tail: name;
";

/// Rows with words in no form: status 1.
const NO_FORM: &str = "\
answers~Zone U 0:00 - U;~~
answers zones zones~~~
answers --generate 0~~~
answers --generate 01~~~
answers --generate 1001~~~
answers --generate +1~~~
answers --generate x~~~
answers 1 --generate~~~
answers --generate 1 1~~~
alarm zones U 2024-03-09 02:30:00~~~
alarm zones U 2024-03-09 02:30:00 0~~~
alarm zones U 2024-03-09 02:30:00 36601~~~
alarm zones U 2024-02-30 02:30:00 1~~~
alarm zones U 2024-03-09 2:30:00 1~~~
alarm zones U 2024-03-09 02:30:00 1 1~~~
list zones U 0 -0~~~
tail zones U U~~~
";

/// Rows whose file isn't on the shelf: status 3.
const MISSING: &str = "\
answers missing~Zone U 0:00 - U;~at U 0~
answers --generate~~~
alarm missing U 2024-03-09 02:30:00 1~~~
list missing U 0 1~~~
tail missing U~~~
tzif missing U~~~
";

/// The bytes of a field of a row, with line feeds.
pub(crate) fn bytes_of(rt: &impl Abort, alloc: Global, field: Option<&str>) -> Vec<u8> {
    let mut bytes = field
        .expect(rt, "no field")
        .as_bytes()
        .to_vec(alloc)
        .expect(rt, "memory");
    for byte in &mut bytes {
        if *byte == b';' {
            *byte = b'\n';
        }
    }
    bytes
}

/// Asserts what a run wrote and how it ended.
pub(crate) fn expect_end(rt: &impl Abort, row: &str, outcome: &Outcome, code: u8, output: &[u8]) {
    holds(rt, row, outcome.is(code, output));
}

/// Asserts a run with objects that move a byte at a time, and with such that move seven.
fn expect_runs(
    rt: &impl Abort,
    alloc: Global,
    parser: &LineParser,
    given: &Given<'_>,
    row: &str,
    code: u8,
    output: &[u8],
) {
    for step in [1, 7] {
        let outcome = run_over(rt, alloc, parser, given, step, &NONE_FAILING);
        expect_end(rt, row, &outcome, code, output);
    }
}

/// Asserts the runs of a row, whose source is kept for the rows below it.
fn expect_row(
    rt: &impl Abort,
    alloc: Global,
    parser: &LineParser,
    source: &mut Vec<u8>,
    row: &str,
    code: u8,
) {
    let mut fields = row.split('~');
    let words = fields.next().expect(rt, "no words");
    let own = bytes_of(rt, alloc, fields.next());
    if !own.is_empty() {
        *source = own;
    }
    let requests = bytes_of(rt, alloc, fields.next());
    let output = bytes_of(rt, alloc, fields.next());
    let given = Given {
        words,
        source: source.as_slice(),
        requests: &requests,
    };
    expect_runs(rt, alloc, parser, &given, row, code, &output);
}

/// Asserts each row of a table.
fn expect_all(rt: &impl Abort, alloc: Global, parser: &LineParser, table: &str, code: u8) {
    let mut source = Vec::new(alloc);
    for row in table.lines() {
        expect_row(rt, alloc, parser, &mut source, row, code);
    }
}

/// Asserts all tables.
fn expect_tables(rt: &impl Abort, alloc: Global, parser: &LineParser) {
    expect_all(rt, alloc, parser, RUNS, 0);
    expect_all(rt, alloc, parser, FAULTS, 2);
    expect_all(rt, alloc, parser, NO_FORM, 1);
    expect_all(rt, alloc, parser, MISSING, 3);
}

#[test]
fn rows(rt: HostRuntime) {
    expect_tables(&rt, rt.alloc(), &parser(&rt, rt.alloc()));
}
