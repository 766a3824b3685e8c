//! Whole runs of the command `zone` over objects in memory. What a row gives was computed with Python's `zoneinfo`, or stands in the form
//! that the programs' page says.
//!
//! A row has the words, the input, the output, and what goes to standard error, with `~` between them, a bar for each space between
//! words, and `;` for each line feed.
use crate::checks::holds;
use crate::runs::bytes_of;
use std::alloc::Global;
use std::process::Abort;
use zone_command::{AnySource, OverSource, Status, run_zone};
use zone_outside::{MemClock, MemEnvironment, MemExchange, MemShelf, MemSink};

/// The source: Berlin's rules from 1996 on in compact lines, a link, and a zone that doesn't go on.
const SOURCE: &str = "\
R E 1996 ma - Mar lastSu 1u 1 S;R E 1996 ma - O lastSu 1u 0 -;Z Test/Berlin 1 E CE%sT;L Test/Berlin Test/Link;R X 2000 2200 - Jul 1 0 1 S;R X 2000 2200 - Au 1 0 0 -;Z Test/Ends 0 X X%sT;";

/// A source in plain form, in which a link leads to a link: `zic` takes the zone behind it, and `zone_answers` finds none.
const PLAIN: &str = "Zone Test/One 1:00 - ONE;Link Test/One Test/Two;Link Test/Two Other/Three;";

/// Other files, each a name and a text: an odd rule; lines of Berlin, with a link; a zone whose offset no string has; a link to nothing; a
/// zone that is named as the release's file; no line of a source; one that was cut short; the front of a compiled file; a name that POSIX has
/// no place for, and daylight saving time for good.
const FILES: &str = "\
odd~R odd 1990 o - o 1 23s 1 S;
europe~# version 2026b;R E 1981 ma - Mar lastSu 1u 1 S;R E 1996 ma - O lastSu 1u 0 -;Z Europe/Berlin 1 E CE%sT;L Europe/Berlin Arctic/Longyearbyen;
far~Zone Far 25:00 - ABC;
links~Zone A 0:00 - A;Link B C;
name~Zone +VERSION 0 - A;
nonsense~Nonsense;
cut~Zone A 0:00 - A;Zone B 1:00 - B
compiled~TZif2
made~Zone Made/Name 2:00 - CD;Zone Made/Saved 1:00 1:00 XST;
";

/// Rows that end with status 0.
const RUNS: &str = "\
at|Test/Berlin|now|@0.5~~2024-10-27 02:30:00 +02:00 CEST;1970-01-01 01:00:00.5 +01:00 CET;~
local|Test/Link|2150-07-01|12:00|--json~~{\"zone\":\"Test/Link\",\"instant\":5695956000,\"local\":\"2150-07-01 12:00:00\",\"offset\":\"+02:00\",\"abbreviation\":\"CEST\",\"saving\":3600,\"kind\":\"one\"};~
local|Test/Berlin|2024-03-31|02:30|--json~~{\"zone\":\"Test/Berlin\",\"skipped_at\":1711846800,\"local\":\"2024-03-31 02:30:00\",\"before\":\"+01:00\",\"after\":\"+02:00\",\"abbreviation\":\"CEST\",\"saving\":3600,\"kind\":\"gap\"};~
local|Test/Berlin|2024-03-31|02:30~~none: skipped at 2024-03-31 03:00:00 +02:00 CEST, from +01:00 to +02:00;~
convert|Test/Berlin|-04:30|2024-10-27 02:30|--rfc3339~~2024-10-26T20:00:00-04:30;2024-10-26T21:00:00-04:30;~
list|Test/Berlin|@1704067200|now~~@1711846800: 2024-03-31 02:00:00 +01:00 CET to 2024-03-31 03:00:00 +02:00 CEST, saving 3600;~
list|Test/Berlin|2150-01-01T00:00:00Z|2151-01-01T00:00:00Z~~@5687802000: 2150-03-29 02:00:00 +01:00 CET to 2150-03-29 03:00:00 +02:00 CEST, saving 3600;@5705946000: 2150-10-25 03:00:00 +02:00 CEST to 2150-10-25 02:00:00 +01:00 CET, saving 0;~
list|Test/Berlin|9999-01-01T00:00:00Z|9999-12-31T00:00:00Z~~@253378198800: 9999-03-28 02:00:00 +01:00 CET to 9999-03-28 03:00:00 +02:00 CEST, saving 3600;@253396947600: 9999-10-31 03:00:00 +02:00 CEST to 9999-10-31 02:00:00 +01:00 CET, saving 0;~
alarm|Test/Berlin|02:30|--from|2150-03-28|--count|2~~2150-03-28 02:30:00 +01:00 CET;2150-03-30 02:30:00 +02:00 CEST;~
alarm|Test/Berlin|02:30|--from|2024-03-30|--count|2~~2024-03-30 02:30:00 +01:00 CET;2024-04-01 02:30:00 +02:00 CEST;~
names|TEST/L~~Test/Link -> Test/Berlin;~
string|Test/Link~~CET-1CEST,M3.5.0,M10.5.0/3;~
stream~at UTC @0;local Test/Berlin 2024-10-27 02:30~1970-01-01 00:00:00 +00:00 UTC;2024-10-27 02:30:00 +02:00 CEST | 2024-10-27 02:30:00 +01:00 CET;~
stream|--plain~at Test/Berlin 1729989000000000000;local Test/Link 2150-07-01 12:00:00.000000000;at Test/Ends 4102444799999999999~2024-10-27 02:30:00.000000000 +02:00:00;2150-07-01 12:00:00.000000000 +02:00:00;2099-12-31 23:59:59.999999999 +00:00:00;~
stream|--plain~at Test/Berlin 1729989000000000000;at Test/Berlin 1729990799999999999;at Test/Berlin 1729990800000000000;at Test/Berlin 1729990800000000001~2024-10-27 02:30:00.000000000 +02:00:00;2024-10-27 02:59:59.999999999 +02:00:00;2024-10-27 02:00:00.000000000 +01:00:00;2024-10-27 02:00:00.000000001 +01:00:00;~
stream|--source|plain~at Other/Three @0~1970-01-01 01:00:00 +01:00 ONE;~
plain|odd~~Rule odd 1990 only - Oct 1 23:00s 1:00 S;~
at|Arctic/Longyearbyen|2024-10-27T00:30:00Z|@1729992600.5|@5695963200|--source|europe~~2024-10-27 02:30:00 +02:00 CEST;2024-10-27 02:30:00.5 +01:00 CET;2150-07-01 14:00:00 +02:00 CEST;~
log|Test/Berlin|--field|2~a 1729989000 b;no;~a 2024-10-27 02:30:00 +02:00 CEST b;no;~
log|Test/Berlin~20241027023000 a;631151999 b;631152000 c;~20241027023000 a;631151999 b;1990-01-01 01:00:00 +01:00 CET c;~
--version~~zone 2.0.0 of Sefunjaro;~
";

/// Rows that end with status 2.
const FAULTS: &str = "\
at|Test/Paris|@0~~~zone: \"Test/Paris\": no zone has this name;
at|a\tb|@0~~~zone: \"a\\tb\": no zone has this name;
local|UTC|2024-10-27~~~zone: \"2024-10-27\": a time of day is missing, as in 2024-10-27 02:30;
at|UTC|2024-10-27|02:30~~~zone: \"2024-10-27\": a time of day and an offset are missing, as in 2024-10-27T02:30:00+02:00;
at|UTC|1729992600~~~zone: \"1729992600\": a number alone is no time: seconds since 1970 have an @ before them, as in @1729989000, and an instant of a date is written as 2024-10-27T00:30:00Z;
alarm|UTC|7:30|--from|2024-10-27|--count|1~~~zone: \"7:30\": an hour has two digits, as in 07:30;
alarm|UTC|07:30|--from|2024-10-27|--until|2024-10-26~~~zone: \"2024-10-26\": the last day comes before the first;
list|UTC|@1729989000|now~~~zone: \"now\": this isn't after FROM;
list|Nowhere|now|2024-10-27T02:29:59+02:00~~~zone: \"2024-10-27T02:29:59+02:00\": this isn't after FROM;
at|Test/Ends|@4102444800~~~zone: \"Test/Ends\": the zone's rules end before that year;
string|Test/Ends~~~zone: \"Test/Ends\": the rules of this zone end, or aren't found to come again, so it isn't told for ever;
string|Made/Name|--source|made~~~zone: \"Made/Name\": no string says this zone for ever: an abbreviation isn't three or more letters, digits, + or -;
file|Made/Name|--source|made~~~zone: \"Made/Name\": no string says this zone for ever: an abbreviation isn't three or more letters, digits, + or -;
string|Made/Saved|--source|made~~~zone: \"Made/Saved\": no string says this zone for ever: it has daylight saving time for good;
convert|UTC|Test/Ends|2150-01-01|00:00~~~zone: \"Test/Ends\": the zone's rules end before that year;
convert|Test/Ends|UTC|2150-01-01|00:00~~~zone: \"Test/Ends\": the zone's rules end before that year;
local|Test/Berlin|2024-03-31|02:30|--epoch~~~zone: \"Test/Berlin\": clocks skip this local time;
convert|Test/Berlin|UTC|2024-03-31|02:30|--rfc3339~~~zone: \"Test/Berlin\": clocks skip this local time;
stream|--epoch~local Test/Berlin 2024-03-31 02:30;at UTC @0;~? \"Test/Berlin\": clocks skip this local time;@0;~
stream~at UTC;at UTC @0;~? \"at\": words are missing behind this command;1970-01-01 00:00:00 +00:00 UTC;~
stream|--plain~at Test/Ends 4102444800000000000;at UTC 0;at Test/Berlin @0;at Test/Berlin 0~? \"Test/Ends\": the zone's rules end before that year;? \"UTC\": no zone has this name;? a request is at NAME N, or local NAME YYYY-MM-DD hh:mm:ss.fffffffff;1970-01-01 01:00:00.000000000 +01:00:00;~
stream|--plain|--source|plain~at Other/Three 0;at Test/Two 0~? \"Other/Three\": no zone has this name;1970-01-01 01:00:00.000000000 +01:00:00;~
log|Nowhere~@0;~~zone: \"Nowhere\": no zone has this name;
tree~~~zone: \"Test/Ends\": the rules of this zone end, or aren't found to come again, so it isn't told for ever;
tree|--source|far~~~zone: \"Far\": no string says this zone for ever: it has an offset past 24:59:59;
tree|--to-2099|--source|links~~~zone: \"links\": line 2 of this source can't be read: this link leads to no zone;
tree|--to-2099|--source|name~~~zone: \"+VERSION\": an archive has no place for this name;
plain|nonsense~~~zone: \"nonsense\": line 1 of this source can't be read: its first word is none of Rule, Zone and Link;
at|A|@0|--source|cut~~~zone: \"cut\": line 2 of this source can't be read: the source ends in the middle of it;
stream|--plain|--source|cut~at A 0;~~zone: \"cut\": line 2 of this source can't be read: the source ends in the middle of it;
plain|cut~~~zone: \"cut\": line 2 of this source can't be read: the source ends in the middle of it;
plain|compiled~~~zone: \"compiled\": this is a compiled file, and a source is wanted;
";

/// Rows that end with status 1, and with status 3.
const NO_FORM: &str = "\
at~~~zone: \"at\": words are missing behind this command;
--epoch|--epoch|at|UTC|@0~~~zone: \"--epoch\": this option is there twice, or beside another of its kind;
file|UTC|--json~~~zone: \"--json\": this option goes with another command;
plain~~~zone: \"plain\": words are missing behind this command;
plain|odd|--source|zones~~~zone: \"--source\": this option goes with another command;
tree|zones|--to-2099~~~zone: \"zones\": this word is one too many;
";

const UNREAD: &str = "\
at|UTC|@0|--source|x.zi~~~zone: \"x.zi\": this file can't be read;
plain|x.zi~~~zone: \"x.zi\": this file can't be read;
";

/// The words between the bars of a field.
pub(crate) fn words_of(rt: &impl Abort, alloc: Global, field: &str) -> Vec<String> {
    let mut words = Vec::new(alloc);
    for word in field.split('|') {
        let word = String::from_str(alloc, word).expect(rt, "memory");
        words.push(word).expect(rt, "memory");
    }
    words
}

/// Adds a file of that name and text.
pub(crate) fn add_file(
    rt: &impl Abort,
    alloc: Global,
    files: &mut Vec<(String, Vec<u8>)>,
    name: &str,
    text: &str,
) {
    let name = String::from_str(alloc, name).expect(rt, "memory");
    files
        .push((name, bytes_of(rt, alloc, Some(text))))
        .expect(rt, "memory");
}

/// A shelf of the files `zones` and `plain`, and of the others.
fn shelf_of(rt: &impl Abort, alloc: Global) -> MemShelf {
    let mut files = Vec::new(alloc);
    add_file(rt, alloc, &mut files, "zones", SOURCE);
    add_file(rt, alloc, &mut files, "plain", PLAIN);
    for row in FILES.lines() {
        let (name, text) = row.split_once('~').expect(rt, "no text");
        add_file(rt, alloc, &mut files, name, text);
    }
    MemShelf::new(files, 7, Vec::new(alloc))
}

/// An environment that names `zones`.
fn environment_of(rt: &impl Abort, alloc: Global) -> MemEnvironment {
    let name = String::from_str(alloc, "SEFUNJARO_TZDATA").expect(rt, "memory");
    let value = String::from_str(alloc, "zones").expect(rt, "memory");
    let mut values = Vec::new(alloc);
    values.push((name, value)).expect(rt, "memory");
    MemEnvironment::new(values, Vec::new(alloc))
}

/// Standard input and output, which move three bytes and two at a time.
fn exchange_of(rt: &impl Abort, alloc: Global, input: Vec<u8>) -> MemExchange {
    MemExchange::new(alloc, input, 3, 2, 4000, Vec::new(alloc), Vec::new(alloc)).expect(
        rt, "memory",
    )
}

/// Runs `zone` at half past two of a night, with an environment that names the file `zones`.
pub(crate) fn run_of(
    rt: &impl Abort,
    alloc: Global,
    words: &[String],
    shelf: &mut MemShelf,
    exchange: &mut MemExchange,
    errors: &mut MemSink,
) -> Status {
    run_zone::<OverSource<AnySource>, _, _, _, _, _>(
        alloc,
        words,
        shelf,
        &mut MemClock::new(1_729_989_000_000_000_000, Vec::new(alloc)),
        &mut environment_of(rt, alloc),
        exchange,
        errors,
    )
}

/// Asserts the status of a run, what it wrote, and what went to standard error.
fn expect_run(rt: &impl Abort, alloc: Global, row: &str, code: u8) {
    let mut fields = row.split('~');
    let words = words_of(rt, alloc, fields.next().expect(rt, "no words"));
    let mut exchange = exchange_of(rt, alloc, bytes_of(rt, alloc, fields.next()));
    let mut errors = MemSink::new(alloc, 1000, 7, Vec::new(alloc)).expect(rt, "memory");
    let mut shelf = shelf_of(rt, alloc);
    let status = run_of(rt, alloc, &words, &mut shelf, &mut exchange, &mut errors);
    let output = bytes_of(rt, alloc, fields.next());
    let told = bytes_of(rt, alloc, fields.next());
    let is_written = has_written(&exchange, &errors, &output, &told);
    holds(rt, row, is_written & (status.code() == code));
}

/// Whether that went to standard output, and that to standard error.
fn has_written(exchange: &MemExchange, errors: &MemSink, output: &[u8], told: &[u8]) -> bool {
    (exchange.written() == output) & (errors.taken() == told)
}

#[test]
fn runs_of_zone(rt: HostRuntime) {
    let alloc = rt.alloc();
    for (table, code) in [(RUNS, 0), (FAULTS, 2), (NO_FORM, 1), (UNREAD, 3)] {
        for row in table.lines() {
            expect_run(&rt, alloc, row, code);
        }
    }
}
