//! Lines and what they say, and the texts of faults: lines of every form; lines that are refused; and lines that stand at the edges of
//! the patterns, as each mark of a time and what no mark is, blanks, comments, and columns that are missing or too many. What they say is
//! by the patterns as the crate `regex` reads them, and by the zic manual where it speaks of the form.
use crate::checks::{holds, prints, reads};
use crate::fixtures::parser;
use std::alloc::Global;
use std::process::Abort;
use tz_posix::RangeError;
use zone_line::{
    ChangeTime, DaySpec, Error, LineParser, LineReader, Month, TimeSpec, TimeType, Weekday, Year,
};

/// A line and, after `~`, the text that `Debug` gives of its value, or that of its fault.
const LINES: &str = "\
Rule\tGreece\t1976\tonly\t-\tOct\t10\t2:00s\t0\t-~Rule(Rule { name: \"Greece\", from_year: Number(1976), to_year: None, month: October, day: Ordinal(10), time: TimeSpecAndType(HoursMinutes(2, 0), Standard), time_to_add: Hours(0), letters: None })
Zone  Australia/Adelaide  9:30    Aus         AC%sT   1971 Oct 31  2:00:00~Zone(Zone { name: \"Australia/Adelaide\", info: ZoneInfo { utc_offset: HoursMinutes(9, 30), saving: Multiple(\"Aus\"), format: \"AC%sT\", time: Some(UntilTime(Number(1971), October, Ordinal(31), TimeSpecAndType(HoursMinutesSeconds(2, 0, 0), Wall))) } })
Golf~line with invalid format: \"Golf\"
link A B~line with invalid format: \"link A B\"
Zone A 0:00 - X Jan~line with invalid format: \"Zone A 0:00 - X Jan\"
Rule R 0x7 only - Apr 1 1:00 1:00 S~failed to parse as a year value: \"0x7\"
Rule EU 1977 1980 - Febtober Sun>=1 1:00u 1:00 S~failed to parse as a month value: \"febtober\"
Rule R 2000 only - Jan XYZ>=40 0:00 0 -~failed to parse as a weekday value: \"xyz\"
Rule R 2000 only - Jan lastXyz 0:00 0 -~failed to parse as a weekday value: \"xyz\"
Rule EU 1977 1980 HEY Apr Sun>=1 1:00u 1:00 S~'type' column is not a hyphen but has the value: \"HEY\"
Zone A 0:00 1 A~failed to parse RULES column: \"1\"
Rule R 2000 only - Jan 32 0:00 0 -~invalid day specification ('ON'): \"32\"
Rule R 2000 only - Jan 0 0:00 0 -~invalid day specification ('ON'): \"0\"
Rule R 2000 only - Jan Sun>=40 0:00 0 -~invalid day specification ('ON'): \"Sun>=40\"
Zone A 200 - A~invalid time: \"200\"
Zone A --1 - A~invalid time: \"--1\"
Zone A \u{661}:00 - A~invalid time: \"\u{661}:00\"
Zone A 1:00u - A~time value not given as wall time: \"1:00u\"
Zone A 1:00 2:00s A~time value not given as wall time: \"2:00s\"
#~Space
  # text~Space
 # one two three~Space
 1:00 - A 1990 Apr 1 2:00s~Continuation(ZoneInfo { utc_offset: HoursMinutes(1, 0), saving: NoSaving, format: \"A\", time: Some(UntilTime(Number(1990), April, Ordinal(1), TimeSpecAndType(HoursMinutes(2, 0), Standard))) })
Zone Z 1:00 - A 1990 Apr 1 2:00s~Zone(Zone { name: \"Z\", info: ZoneInfo { utc_offset: HoursMinutes(1, 0), saving: NoSaving, format: \"A\", time: Some(UntilTime(Number(1990), April, Ordinal(1), TimeSpecAndType(HoursMinutes(2, 0), Standard))) } })
 1:00 - A 1990 Apr 1 2:00u~Continuation(ZoneInfo { utc_offset: HoursMinutes(1, 0), saving: NoSaving, format: \"A\", time: Some(UntilTime(Number(1990), April, Ordinal(1), TimeSpecAndType(HoursMinutes(2, 0), UTC))) })
Zone Z 1:00 - A 1990 Apr 1 2:00u~Zone(Zone { name: \"Z\", info: ZoneInfo { utc_offset: HoursMinutes(1, 0), saving: NoSaving, format: \"A\", time: Some(UntilTime(Number(1990), April, Ordinal(1), TimeSpecAndType(HoursMinutes(2, 0), UTC))) } })
 1:00 - A 1990 Apr 1 2:00w~Continuation(ZoneInfo { utc_offset: HoursMinutes(1, 0), saving: NoSaving, format: \"A\", time: Some(UntilTime(Number(1990), April, Ordinal(1), TimeSpecAndType(HoursMinutes(2, 0), Wall))) })
Zone Z 1:00 - A 1990 Apr 1 2:00w~Zone(Zone { name: \"Z\", info: ZoneInfo { utc_offset: HoursMinutes(1, 0), saving: NoSaving, format: \"A\", time: Some(UntilTime(Number(1990), April, Ordinal(1), TimeSpecAndType(HoursMinutes(2, 0), Wall))) } })
 1:00 - A 1990 Apr 1 2:00z~Continuation(ZoneInfo { utc_offset: HoursMinutes(1, 0), saving: NoSaving, format: \"A\", time: Some(UntilTime(Number(1990), April, Ordinal(1), TimeSpecAndType(HoursMinutes(2, 0), UTC))) })
Zone Z 1:00 - A 1990 Apr 1 2:00z~Zone(Zone { name: \"Z\", info: ZoneInfo { utc_offset: HoursMinutes(1, 0), saving: NoSaving, format: \"A\", time: Some(UntilTime(Number(1990), April, Ordinal(1), TimeSpecAndType(HoursMinutes(2, 0), UTC))) } })
 1:00 - A 1990 Apr 1 2:00g~line with invalid format: \" 1:00 - A 1990 Apr 1 2:00g\"
Zone Z 1:00 - A 1990 Apr 1 2:00g~line with invalid format: \"Zone Z 1:00 - A 1990 Apr 1 2:00g\"
 1:00 - A 1990 Apr 1 2#text~Continuation(ZoneInfo { utc_offset: HoursMinutes(1, 0), saving: NoSaving, format: \"A\", time: Some(UntilTime(Number(1990), April, Ordinal(1), TimeSpecAndType(Hours(2), Wall))) })
Zone Z 1:00 - A 1990 Apr Sun>=1 2:00 # text~Zone(Zone { name: \"Z\", info: ZoneInfo { utc_offset: HoursMinutes(1, 0), saving: NoSaving, format: \"A\", time: Some(UntilTime(Number(1990), April, FirstOnOrAfter(Sunday, 1), TimeSpecAndType(HoursMinutes(2, 0), Wall))) } })
Zone Z 1:00 - A 1990Apr1~Zone(Zone { name: \"Z\", info: ZoneInfo { utc_offset: HoursMinutes(1, 0), saving: NoSaving, format: \"A\", time: Some(UntilDay(Number(1990), April, Ordinal(1))) } })
 1:00 - A 1990Apr1~Continuation(ZoneInfo { utc_offset: HoursMinutes(1, 0), saving: NoSaving, format: \"A\", time: Some(UntilDay(Number(1990), April, Ordinal(1))) })
 1:00 - A 1990 Apr 1 2s~invalid time: \"2s\"
 1:00 - A 1990 Apr 1 -2:00~line with invalid format: \" 1:00 - A 1990 Apr 1 -2:00\"
 1:00 - A 1990 Apr 1 2:00 more~line with invalid format: \" 1:00 - A 1990 Apr 1 2:00 more\"
Zone Z 1:00 - A 1990 Apr 1 2:00 more~line with invalid format: \"Zone Z 1:00 - A 1990 Apr 1 2:00 more\"
Zone Z 1:00 - A max~line with invalid format: \"Zone Z 1:00 - A max\"
Zone A.B 1:00 - A~line with invalid format: \"Zone A.B 1:00 - A\"
 Zone A B~invalid time: \"Zone\"
Rule R 1990 only - Apr 1 1:00 0 -~Rule(Rule { name: \"R\", from_year: Number(1990), to_year: None, month: April, day: Ordinal(1), time: TimeSpecAndType(HoursMinutes(1, 0), Wall), time_to_add: Hours(0), letters: None })
Rule R 1990 only - Apr 1 01:00:00 0 -~Rule(Rule { name: \"R\", from_year: Number(1990), to_year: None, month: April, day: Ordinal(1), time: TimeSpecAndType(HoursMinutesSeconds(1, 0, 0), Wall), time_to_add: Hours(0), letters: None })
Rule R 1990 only - Apr 1 1:00w 0 -~Rule(Rule { name: \"R\", from_year: Number(1990), to_year: None, month: April, day: Ordinal(1), time: TimeSpecAndType(HoursMinutes(1, 0), Wall), time_to_add: Hours(0), letters: None })
Rule R 1990 only - Apr 1 01:00:00w 0 -~Rule(Rule { name: \"R\", from_year: Number(1990), to_year: None, month: April, day: Ordinal(1), time: TimeSpecAndType(HoursMinutesSeconds(1, 0, 0), Wall), time_to_add: Hours(0), letters: None })
Rule R 1990 only - Apr 1 1:00s 0 -~Rule(Rule { name: \"R\", from_year: Number(1990), to_year: None, month: April, day: Ordinal(1), time: TimeSpecAndType(HoursMinutes(1, 0), Standard), time_to_add: Hours(0), letters: None })
Rule R 1990 only - Apr 1 01:00:00s 0 -~Rule(Rule { name: \"R\", from_year: Number(1990), to_year: None, month: April, day: Ordinal(1), time: TimeSpecAndType(HoursMinutesSeconds(1, 0, 0), Standard), time_to_add: Hours(0), letters: None })
Rule R 1990 only - Apr 1 1:00u 0 -~Rule(Rule { name: \"R\", from_year: Number(1990), to_year: None, month: April, day: Ordinal(1), time: TimeSpecAndType(HoursMinutes(1, 0), UTC), time_to_add: Hours(0), letters: None })
Rule R 1990 only - Apr 1 01:00:00u 0 -~Rule(Rule { name: \"R\", from_year: Number(1990), to_year: None, month: April, day: Ordinal(1), time: TimeSpecAndType(HoursMinutesSeconds(1, 0, 0), UTC), time_to_add: Hours(0), letters: None })
Rule R 1990 only - Apr 1 1:00g 0 -~Rule(Rule { name: \"R\", from_year: Number(1990), to_year: None, month: April, day: Ordinal(1), time: TimeSpecAndType(HoursMinutes(1, 0), UTC), time_to_add: Hours(0), letters: None })
Rule R 1990 only - Apr 1 01:00:00g 0 -~Rule(Rule { name: \"R\", from_year: Number(1990), to_year: None, month: April, day: Ordinal(1), time: TimeSpecAndType(HoursMinutesSeconds(1, 0, 0), UTC), time_to_add: Hours(0), letters: None })
Rule R 1990 only - Apr 1 1:00z 0 -~Rule(Rule { name: \"R\", from_year: Number(1990), to_year: None, month: April, day: Ordinal(1), time: TimeSpecAndType(HoursMinutes(1, 0), UTC), time_to_add: Hours(0), letters: None })
Rule R 1990 only - Apr 1 01:00:00z 0 -~Rule(Rule { name: \"R\", from_year: Number(1990), to_year: None, month: April, day: Ordinal(1), time: TimeSpecAndType(HoursMinutesSeconds(1, 0, 0), UTC), time_to_add: Hours(0), letters: None })
Rule R 1990 only - Apr 1 1:00x 0 -~invalid time: \"1:00x\"
Rule R 1990 only - Apr 1 1:00:00x 0 -~invalid time: \"1:00:00x\"
Rule R 1990 only - Apr 1 -1:02:03s 0 -~Rule(Rule { name: \"R\", from_year: Number(1990), to_year: None, month: April, day: Ordinal(1), time: TimeSpecAndType(HoursMinutesSeconds(-1, -2, -3), Standard), time_to_add: Hours(0), letters: None })
Rule R 1990 only - Apr 1 100:00 0 -~invalid time: \"100:00\"
Rule R 1990 only - Apr 1 1:0 0 -~invalid time: \"1:0\"
Rule R 1990 only - Apr 1 1:00:0 0 -~invalid time: \"1:00:0\"
Rule R 1990 only - Apr Sun<=8 1:00 0 -~Rule(Rule { name: \"R\", from_year: Number(1990), to_year: None, month: April, day: LastOnOrBefore(Sunday, 8), time: TimeSpecAndType(HoursMinutes(1, 0), Wall), time_to_add: Hours(0), letters: None })
Rule R 1990 only - Apr Sun>8 1:00 0 -~invalid day specification ('ON'): \"Sun>8\"
Rule R 1990 only - Apr Sun>= 1:00 0 -~invalid day specification ('ON'): \"Sun>=\"
Rule R 1990 only - Apr >=8 1:00 0 -~invalid day specification ('ON'): \">=8\"
Rule R 1990 only - Apr Xyz>=\u{661} 1:00 0 -~failed to parse as a weekday value: \"xyz\"
Rule R 1990 only - Apr S\u{fc}n>=8 1:00 0 -~failed to parse as a weekday value: \"s\u{fc}n\"
Rule R 1990 only - Apr 1 1:00 0~line with invalid format: \"Rule R 1990 only - Apr 1 1:00 0\"
Rule R 1990 only - Apr 1 1:00 0 - more~line with invalid format: \"Rule R 1990 only - Apr 1 1:00 0 - more\"
Rule R 1990 only - Apr 1 2:00 1:00 D# text~Rule(Rule { name: \"R\", from_year: Number(1990), to_year: None, month: April, day: Ordinal(1), time: TimeSpecAndType(HoursMinutes(2, 0), Wall), time_to_add: HoursMinutes(1, 0), letters: Some(\"D\") })
Rule R 1990 only - Apr 1 2:00 1:00 D # text~Rule(Rule { name: \"R\", from_year: Number(1990), to_year: None, month: April, day: Ordinal(1), time: TimeSpecAndType(HoursMinutes(2, 0), Wall), time_to_add: HoursMinutes(1, 0), letters: Some(\"D\") })
Link A B#text~Link(Link { existing: \"A\", new: \"B#text\" })
Link A B # text~Link(Link { existing: \"A\", new: \"B\" })
Link\u{3000}A\u{a0}B~Link(Link { existing: \"A\", new: \"B\" })
Link A~line with invalid format: \"Link A\"
Link A B C~line with invalid format: \"Link A B C\"
xLink A B~line with invalid format: \"xLink A B\"
 1:00 0:20w A~Continuation(ZoneInfo { utc_offset: HoursMinutes(1, 0), saving: OneOff(HoursMinutes(0, 20)), format: \"A\", time: None })
 1:00 0:20g A~time value not given as wall time: \"0:20g\"
 1:00 0:20:00 A~failed to parse RULES column: \"0:20:00\"
 1:00 \u{661}:00 A~invalid time: \"\u{661}:00\"
 1:00 R_s-T A%s/B~Continuation(ZoneInfo { utc_offset: HoursMinutes(1, 0), saving: Multiple(\"R_s-T\"), format: \"A%s/B\", time: None })
\u{3000}#~Space
\u{3000}\u{3000}1:00\u{3000}\u{3000}-\u{3000}\u{3000}\u{c4}\u{3000}\u{3000}1990\u{3000}\u{3000}Apr\u{3000}\u{3000}Sun<=9\u{3000}\u{3000}2:00\u{3000}\u{3000}#~Continuation(ZoneInfo { utc_offset: HoursMinutes(1, 0), saving: NoSaving, format: \"\u{c4}\", time: Some(UntilTime(Number(1990), April, LastOnOrBefore(Sunday, 9), TimeSpecAndType(HoursMinutes(2, 0), Wall))) })
Zone\u{3000}\u{3000}Z\u{3000}\u{3000}1:00\u{3000}\u{3000}-\u{3000}\u{3000}\u{c4}\u{3000}\u{3000}1990\u{3000}\u{3000}Apr\u{3000}\u{3000}Sun>=9\u{3000}\u{3000}2:00\u{3000}\u{3000}#~Zone(Zone { name: \"Z\", info: ZoneInfo { utc_offset: HoursMinutes(1, 0), saving: NoSaving, format: \"\u{c4}\", time: Some(UntilTime(Number(1990), April, FirstOnOrAfter(Sunday, 9), TimeSpecAndType(HoursMinutes(2, 0), Wall))) } })
Rule\u{3000}\u{3000}\u{c4}\u{3000}\u{3000}1990\u{3000}\u{3000}only\u{3000}\u{3000}-\u{3000}\u{3000}Apr\u{3000}\u{3000}1\u{3000}\u{3000}1:00\u{3000}\u{3000}0\u{3000}\u{3000}\u{e9}\u{3000}\u{3000}#~Rule(Rule { name: \"\u{c4}\", from_year: Number(1990), to_year: None, month: April, day: Ordinal(1), time: TimeSpecAndType(HoursMinutes(1, 0), Wall), time_to_add: Hours(0), letters: Some(\"\u{e9}\") })
Link\u{3000}\u{3000}\u{c4}\u{3000}\u{3000}\u{e9}\u{3000}\u{3000}#~Link(Link { existing: \"\u{c4}\", new: \"\u{e9}\" })
ZoneZ 1:00 - A~line with invalid format: \"ZoneZ 1:00 - A\"
Zone Z 1:00 AA~line with invalid format: \"Zone Z 1:00 AA\"
 1:00 AA~line with invalid format: \" 1:00 AA\"
RuleR 1990 only - Apr 1 1:00 0 -~line with invalid format: \"RuleR 1990 only - Apr 1 1:00 0 -\"
Rule RR 1990 only -- Apr 11 1:00 00~line with invalid format: \"Rule RR 1990 only -- Apr 11 1:00 00\"
LinkA B~line with invalid format: \"LinkA B\"
Link AA~line with invalid format: \"Link AA\"
xRule R 1990 only - Apr 1 1:00 0 -~line with invalid format: \"xRule R 1990 only - Apr 1 1:00 0 -\"
xZone Z 1:00 - A~line with invalid format: \"xZone Z 1:00 - A\"
 1:00 - A 1990 Apr Sun>=9~Continuation(ZoneInfo { utc_offset: HoursMinutes(1, 0), saving: NoSaving, format: \"A\", time: Some(UntilDay(Number(1990), April, FirstOnOrAfter(Sunday, 9))) })
 1:00 \u{e9} A~failed to parse RULES column: \"\u{e9}\"
 1:00 1:\u{661}\u{661} A~invalid time: \"1:\u{661}\u{661}\"
 1:00 1:000 A~failed to parse RULES column: \"1:000\"
Rule R 1990 only - Apr Sun>=8x 1:00 0 -~invalid day specification ('ON'): \"Sun>=8x\"
Rule R 1990 only - Apr +Sun>=8 1:00 0 -~invalid day specification ('ON'): \"+Sun>=8\"
Rule R 1990 only - Apr 1 x1:00 0 -~invalid time: \"x1:00\"
Rule R 1990 only - Apr 1 x1:00:00 0 -~invalid time: \"x1:00:00\"
Rule R 1990 only - Apr 1 1:0:00 0 -~invalid time: \"1:0:00\"
";

/// What is told of a line: its value, or the text of its fault.
fn told(rt: &impl Abort, alloc: Global, reader: &mut LineReader<'_>, line: &str) -> String {
    let shown = match reader.parse_str(alloc, line) {
        Ok(value) => format!(in alloc; "{value:?}"),
        Err(fault) => format!(in alloc; "{fault}"),
    };
    shown.expect(rt, "memory")
}

/// Asserts what is told of the line of a row.
fn expect_told(rt: &impl Abort, alloc: Global, reader: &mut LineReader<'_>, row: &str) {
    let (line, wanted) = row.split_once('~').expect(rt, "no value");
    reads(rt, told(rt, alloc, reader, line).as_str(), wanted);
}

/// Asserts each row.
fn expect_rows(rt: &impl Abort, alloc: Global, parser: &LineParser) {
    let mut reader = parser.reader(alloc).expect(rt, "memory");
    for row in LINES.lines() {
        expect_told(rt, alloc, &mut reader, row);
    }
}

#[test]
fn lines_say_what_is_due(rt: HostRuntime) {
    expect_rows(&rt, rt.alloc(), &parser(&rt, rt.alloc()));
}

/// A name in an error.
fn name(rt: &impl Abort, alloc: Global) -> String {
    String::from_str(alloc, "x").expect(rt, "memory")
}

fn expect_faults(rt: &impl Abort, alloc: Global) {
    prints(rt, alloc, &Error::NoMemory, "out of memory");
    prints(rt, alloc, &RangeError::Time, "time field out of range");
    prints(rt, alloc, &RangeError::Date, "date field out of range");
}

/// Asserts the text of a fault of a table.
fn expect_fault(rt: &impl Abort, alloc: Global, fault: zone_table::Error, text: &str) {
    prints(rt, alloc, &fault, text);
}

fn expect_faults_of_tables(rt: &impl Abort, alloc: Global) {
    expect_fault(rt, alloc, zone_table::Error::NoMemory, "out of memory");
    let fault = zone_table::Error::SurpriseContinuationLine;
    let text = "continuation line follows line that isn't a zone definition line";
    expect_fault(rt, alloc, fault, text);
    let fault = zone_table::Error::UnknownRuleset(name(rt, alloc));
    let text = "zone definition refers to a ruleset that isn't defined";
    expect_fault(rt, alloc, fault, text);
    let fault = zone_table::Error::DuplicateLink(name(rt, alloc));
    expect_fault(rt, alloc, fault, "link line with name that already exists");
    let fault = zone_table::Error::DuplicateZone;
    expect_fault(rt, alloc, fault, "zone line with name that already exists");
}

#[test]
fn faults_are_printed(rt: HostRuntime) {
    expect_faults(&rt, rt.alloc());
    expect_faults_of_tables(&rt, rt.alloc());
}

fn is_second(end: &ChangeTime) -> bool {
    end.is_dated() && end.to_timestamp() == 951_642_000
}

#[test]
fn an_end_is_a_second(rt: HostRuntime) {
    let time = TimeSpec::Hours(9).with_type(TimeType::Wall);
    let sunday = DaySpec::Last(Weekday::Sunday);
    let end = ChangeTime::UntilTime(Year::Number(2000), Month::February, sunday, time);
    holds(&rt, "a second", is_second(&end));
}
