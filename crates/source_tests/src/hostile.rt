//! Hostile use: a file cut at each byte, bytes that are no text, each call of the outside failing in turn, and builders after a refusal.
use crate::checks::holds;
use crate::fixtures::{FIXED, NEW_YORK, parser};
use crate::objects::{Failing, Given, NONE_FAILING, ONE_REQUEST, run_over};
use crate::runs::expect_end;
use std::alloc::Global;
use std::process::Abort;
use zone_line::LineParser;
use zone_table::TableBuilder;

/// What is due of the file of a fixed zone that is cut to so many bytes.
fn due_of_cut(length: usize) -> (u8, &'static [u8]) {
    if length == 0 {
        (2, b"request 1: unknown zone\n")
    } else if length < 24 {
        (2, b"source 1: line InvalidLineType\n")
    } else {
        (0, b"1970-01-01 01:30:00.000000000 +01:30:00\n")
    }
}

fn expect_cuts(rt: &impl Abort, alloc: Global, parser: &LineParser) {
    for length in 0..27 {
        let given = Given {
            source: &FIXED[..length],
            ..ONE_REQUEST
        };
        let (code, output) = due_of_cut(length);
        let outcome = run_over(rt, alloc, parser, &given, 7, &NONE_FAILING);
        expect_end(rt, "cut", &outcome, code, output);
    }
}

/// Asserts the line of a fault that a run ends with.
fn expect_fault(
    rt: &impl Abort,
    alloc: Global,
    parser: &LineParser,
    given: &Given<'_>,
    line: &[u8],
) {
    let outcome = run_over(rt, alloc, parser, given, 7, &NONE_FAILING);
    expect_end(rt, "no text", &outcome, 2, line);
}

fn expect_no_text(rt: &impl Abort, alloc: Global, parser: &LineParser) {
    let source = Given {
        source: b"\xff",
        ..ONE_REQUEST
    };
    expect_fault(rt, alloc, parser, &source, b"source 1: not text\n");
    let requests = Given {
        requests: b"\xff",
        ..ONE_REQUEST
    };
    expect_fault(rt, alloc, parser, &requests, b"request 1: not text\n");
}

#[test]
fn files_that_are_cut_and_bytes_that_are_no_text(rt: HostRuntime) {
    let parser = parser(&rt, rt.alloc());
    expect_cuts(&rt, rt.alloc(), &parser);
    expect_no_text(&rt, rt.alloc(), &parser);
}

/// A run over the last second before a change, and the change.
const TWO_INSTANTS: Given<'static> = Given {
    words: "answers zones",
    source: NEW_YORK,
    requests: b"\
at America/New_York 1710053999999999999
at America/New_York 1710054000000000000
",
};

const TWO_ANSWERS: &[u8] = b"\
2024-03-10 01:59:59.999999999 -05:00:00
2024-03-10 03:00:00.000000000 -04:00:00
";

/// Asserts how that run ends, and how many bytes it writes, where a call of each object fails.
fn expect_failed(
    rt: &impl Abort,
    alloc: Global,
    parser: &LineParser,
    failing: Failing,
    code: u8,
    taken: usize,
) {
    let outcome = run_over(rt, alloc, parser, &TWO_INSTANTS, 7, &failing);
    let front = &TWO_ANSWERS[..taken.min(TWO_ANSWERS.len())];
    expect_end(rt, "failing", &outcome, code, front);
}

/// Asserts the runs in which a call of the shelf, or of the input, fails.
fn expect_failed_reads(rt: &impl Abort, alloc: Global, parser: &LineParser) {
    for shelf in 1..20 {
        let failing = Failing {
            shelf,
            ..NONE_FAILING
        };
        expect_failed(rt, alloc, parser, failing, 3, 0);
    }
    for input in 1..14 {
        let failing = Failing {
            input,
            ..NONE_FAILING
        };
        expect_failed(rt, alloc, parser, failing, 3, 0);
    }
}

/// Asserts the runs in which a call of the output fails, each after seven bytes more.
fn expect_failed_writes(rt: &impl Abort, alloc: Global, parser: &LineParser) {
    let mut taken: usize = 0;
    for output in 1..13 {
        let failing = Failing {
            output,
            ..NONE_FAILING
        };
        expect_failed(rt, alloc, parser, failing, 4, taken);
        taken = taken.saturating_add(7);
    }
}

/// Asserts the run in which only calls past its last would fail, and one that writes a byte at a time.
fn expect_ends(rt: &impl Abort, alloc: Global, parser: &LineParser) {
    let past = Failing {
        shelf: 20,
        input: 14,
        output: 13,
    };
    expect_failed(rt, alloc, parser, past, 0, 80);
    let eleventh = Failing {
        output: 11,
        ..NONE_FAILING
    };
    let outcome = run_over(rt, alloc, parser, &ONE_REQUEST, 1, &eleventh);
    expect_end(rt, "a byte at a time", &outcome, 4, b"1970-01-01");
}

/// A clean run asks for the file, reads its 117 bytes in 17 calls, and asks for more; reads the 80 bytes of the requests in 12, and
/// asks for more; and writes 80 bytes in 12.
#[test]
fn each_call_fails(rt: HostRuntime) {
    let parser = parser(&rt, rt.alloc());
    expect_failed_reads(&rt, rt.alloc(), &parser);
    expect_failed_writes(&rt, rt.alloc(), &parser);
    expect_ends(&rt, rt.alloc(), &parser);
}

/// Lines with `;` between them, of which the last but one alone is refused.
const REFUSED: &str = "\
Zone A 0:00 - A;Zone A 0:00 X A;Zone Test/Fixed 1:30 - TST
 1:00 - B;Zone Test/Fixed 1:30 - TST
Zone A 0:00 - A;Zone A 1:00 - B;Zone Test/Fixed 1:30 - TST
Link a b;Link c b;Zone Test/Fixed 1:30 - TST";

/// Whether a builder takes a line of text.
fn takes(
    rt: &impl Abort,
    alloc: Global,
    parser: &LineParser,
    builder: &mut TableBuilder,
    text: &str,
) -> bool {
    let Ok(line) = parser.parse_str(alloc, text) else {
        panic!(rt; "not read");
    };
    builder.add_line(line).is_ok()
}

/// How many of some lines a builder refuses.
fn refusals(
    rt: &impl Abort,
    alloc: Global,
    parser: &LineParser,
    builder: &mut TableBuilder,
    lines: &str,
) -> u8 {
    let mut count = 0u8;
    for line in lines.split(';') {
        if !takes(rt, alloc, parser, builder, line) {
            count = count.saturating_add(1);
        }
    }
    count
}

/// Whether a builder refuses one of some lines, and takes the one after it.
fn is_one_refused(rt: &impl Abort, alloc: Global, parser: &LineParser, lines: &str) -> bool {
    let mut builder = TableBuilder::new(alloc);
    let count = refusals(rt, alloc, parser, &mut builder, lines);
    builder.build().get_zoneset("Test/Fixed").is_some() & (count == 1)
}

fn expect_refused(rt: &impl Abort, alloc: Global, parser: &LineParser) {
    for lines in REFUSED.lines() {
        holds(rt, lines, is_one_refused(rt, alloc, parser, lines));
    }
}

/// A builder that refused a line takes the next one as if the refused line had not been there.
#[test]
fn refused_builders_take_one_more(rt: HostRuntime) {
    expect_refused(&rt, rt.alloc(), &parser(&rt, rt.alloc()));
}
