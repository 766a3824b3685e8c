//! Times that are read and written again, as people and logs write them, and what faults print.

use crate::tests::checks::{holds, prints};
use civil_base::UtcOffset;
use std::process::Abort;
use zone_words::{
    AskedInstant as Asked, TextFault, add_epoch, add_local, add_people, add_rfc3339, read_instant,
    read_local, read_stamp,
};

/// Whether a local time is written so in each form: alone, for people, and by RFC 3339, with `|` between them.
fn is_shown(rt: &impl Abort, into: &mut Vec<u8>, text: &str, wanted: &str) -> bool {
    let offset = UtcOffset::from_hms(-2, -30, 0).expect(rt, "an offset");
    let local = read_local(text).expect(rt, "a local time");
    into.clear();
    add_local(into, &local).expect(rt, "memory");
    into.push(b'|').expect(rt, "memory");
    add_people(into, &local, offset, "NDT").expect(rt, "memory");
    into.push(b'|').expect(rt, "memory");
    add_rfc3339(into, &local, offset).expect(rt, "memory");
    into.as_slice() == wanted.as_bytes()
}

/// Whether an instant is written as those seconds.
fn is_counted(rt: &impl Abort, into: &mut Vec<u8>, text: &str, wanted: &str) -> bool {
    into.clear();
    match read_instant(text).expect(rt, "a time") {
        Asked::Now => into.extend_from_slice(b"now").expect(rt, "memory"),
        Asked::At(value) => add_epoch(into, &value).expect(rt, "memory"),
    }
    into.as_slice() == wanted.as_bytes()
}

fn local_times(rt: &impl Abort, into: &mut Vec<u8>) -> bool {
    let one = "2024-10-27 02:30:00|2024-10-27 02:30:00 -02:30 NDT|2024-10-27T02:30:00-02:30";
    let other =
        "0000-02-29 23:59:59.25|0000-02-29 23:59:59.25 -02:30 NDT|0000-02-29T23:59:59.25-02:30";
    is_shown(rt, into, "2024-10-27T02:30", one)
        & is_shown(rt, into, "0000-02-29 23:59:59.250", other)
}

fn instants(rt: &impl Abort, into: &mut Vec<u8>) -> bool {
    is_counted(rt, into, "now", "now")
        & is_counted(rt, into, "1985-04-12T23:20:50.52Z", "@482196050.52")
        & is_counted(rt, into, "1937-01-01T12:00:27.87+00:20", "@-1041337172.13")
        & is_counted(rt, into, "@-0.0", "@0")
}

/// Whether the time at the front of a line is half past midnight of 2024-10-27 at UTC, before ` GET /`.
fn is_stamped(line: &str) -> bool {
    match read_stamp(line.as_bytes()) {
        Some((value, size)) => {
            (value.unix_timestamp() == 1_729_989_000) & (line.get(size..) == Some(" GET /"))
        }
        None => false,
    }
}

fn stamps_and_faults() -> bool {
    is_stamped("1729989000123 GET /")
        & is_stamped("2024-10-27 00:30:00.5Z GET /")
        & (read_local("2024-10-27") == Err(TextFault::TimeMissing))
}

#[test]
fn texts(rt: HostRuntime) {
    let mut into = Vec::new(rt.alloc());
    holds(&rt, "local times", local_times(&rt, &mut into));
    holds(&rt, "instants", instants(&rt, &mut into));
    holds(&rt, "stamps and faults", stamps_and_faults());
}

#[test]
fn faults_are_told_in_words(rt: HostRuntime) {
    let text = "a time of day is missing, as in 2024-10-27 02:30";
    prints(&rt, rt.alloc(), &TextFault::TimeMissing, text);
}
