//! Compiled zones as TZif files: whole runs over objects in memory, and their files read by both readers.
use crate::checks::holds;
use crate::fixtures::{NEW_YORK, parser};
use crate::objects::{Given, NONE_FAILING, ONE_REQUEST, Outcome, run_over};
use crate::runs::expect_end;
use std::alloc::Global;
use std::process::Abort;
use zone_line::LineParser;
use zone_tzif::{TzifZone, read_any, read_tzif};

/// The file of a zone of one offset, by the layout of RFC 8536.
const FIXED_FILE: &[u8] = b"\
TZif2\0\0\0\0\0\0\0\0\0\0\0\0\0\0\0\0\0\0\0\0\0\0\0\0\0\0\0\0\0\0\0\0\0\0\x01\0\0\0\x01\0\0\0\0\0\0\0\
TZif2\0\0\0\0\0\0\0\0\0\0\0\0\0\0\0\0\0\0\0\0\0\0\0\0\0\0\0\0\0\0\0\0\0\0\x01\0\0\0\x04\
\0\0\x15\x18\0\0TST\0\nTST-1:30\n";

/// The counts of New York's second header: 186 times, 2 kinds, 8 bytes of names.
const COUNTS: &[u8] = b"\0\0\0\0\0\0\0\0\0\0\0\0\0\0\0\xba\0\0\0\x02\0\0\0\x08";

/// What follows its times and their kinds: -5:00 of EST and -4:00 of EDT, their names, and the string.
pub(crate) const END: &[u8] =
    b"\xff\xff\xb9\xb0\0\0\xff\xff\xc7\xc0\x01\x04EST\0EDT\0\nEST5EDT,M3.2.0,M11.1.0\n";

/// What the program writes for a zone of a source.
fn written(
    rt: &impl Abort,
    alloc: Global,
    parser: &LineParser,
    words: &str,
    source: &[u8],
) -> Outcome {
    let given = Given {
        words,
        source,
        requests: b"",
    };
    run_over(rt, alloc, parser, &given, 1000, &NONE_FAILING)
}

/// Whether a file has the length, the counts and the end of New York's.
fn is_new_york(file: &[u8]) -> bool {
    (file.len() == 1813) & (file.get(71..95) == Some(COUNTS)) & file.ends_with(END)
}

/// Whether the zone of that file has its first and its last change, the count of changes, and its string.
fn is_zone(zone: &TzifZone) -> bool {
    matches!(zone.rest.first(), Some((1_173_596_400, _)))
        & matches!(zone.rest.last(), Some((4_097_196_000, _)))
        & (zone.rest.len() == 186)
        & (zone.footer.as_str() == "EST5EDT,M3.2.0,M11.1.0")
}

/// Asserts the file of New York, and what is read of it.
fn expect_new_york(rt: &impl Abort, alloc: Global, file: &[u8]) {
    holds(rt, "written", is_new_york(file));
    match read_any(alloc, file) {
        Ok(zone) => holds(rt, "read", is_zone(&zone)),
        Err(_) => panic!(rt; "not read"),
    }
}

/// Asserts what is written of New York.
fn expect_written(rt: &impl Abort, alloc: Global, parser: &LineParser) {
    let outcome = written(rt, alloc, parser, "tzif zones America/New_York", NEW_YORK);
    expect_new_york(rt, alloc, outcome.sink.taken());
}

/// Asserts the bytes of a file of one offset.
fn expect_fixed(rt: &impl Abort, alloc: Global, parser: &LineParser) {
    let outcome = written(
        rt,
        alloc,
        parser,
        "tzif zones Test/Fixed",
        ONE_REQUEST.source,
    );
    expect_end(rt, "Test/Fixed", &outcome, 0, FIXED_FILE);
}

#[test]
fn files_are_written(rt: HostRuntime) {
    let parser = parser(&rt, rt.alloc());
    expect_written(&rt, rt.alloc(), &parser);
    expect_fixed(&rt, rt.alloc(), &parser);
}

/// Whether `read_any` takes the bytes, and whether `read_tzif` does.
fn takers(alloc: Global, file: &[u8]) -> (bool, bool) {
    (
        read_any(alloc, file).is_ok(),
        read_tzif(alloc, file).is_ok(),
    )
}

/// The same file of version 3.
fn third(rt: &impl Abort, alloc: Global) -> Vec<u8> {
    let mut file = FIXED_FILE.to_vec(alloc).expect(rt, "memory");
    for place in [4, 55] {
        if let Some(version) = file.get_mut(place) {
            *version = 0x33;
        }
    }
    file
}

#[test]
fn a_file_is_its_bytes(rt: HostRuntime) {
    let alloc = rt.alloc();
    holds(&rt, "whole", takers(alloc, FIXED_FILE) == (true, true));
    let cut = takers(alloc, &FIXED_FILE[..114]);
    holds(&rt, "cut", cut == (false, false));
    let third = third(&rt, alloc);
    holds(&rt, "version 3", takers(alloc, &third) == (true, false));
}
