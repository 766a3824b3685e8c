//! Sources in any form that `zic` reads, and what is written of them.
use crate::checks::holds;
use crate::fixtures::parser;
use crate::runs::bytes_of;
use std::alloc::Global;
use std::process::Abort;
use zone_line::LineParser;
use zone_plain::{PlainFault, plain};
use zone_source::LIMIT;

/// Sources, and what is written of each, with `~` between them and `;` for each line feed: an old rule; `%z` with an amount and under a
/// ruleset; a chain of links; a line of a zone that begins with a rule's word; quotes and a comment; a link that stands twice; a ruleset whose name
/// RULES can't say, alone, beside one of the name that it had there, beside one that begins with `__`, and beside two of which more lines name
/// the second; `%z` under a ruleset that begins with `_`; words and days; a weekday up to February 29; a release, and one that is no first line.
const SOURCES: &str = "\
R d 1916 o - Jun 14 23s 1 S~Rule d 1916 only - Jun 14 23:00s 1:00 S;
R b 1990 o - O 1 0 1 -;R b 1991 o - F 1 0 0 -;Z A -3 b %z 1999 O 3;-4 - %z~Rule b 1990 only - Oct 1 0:00 1:00 -;Rule b 1991 only - Feb 1 0:00 0 -;Rule _a 1990 only - Oct 1 0:00 1:00 -02;Rule _a 1991 only - Feb 1 0:00 0 -03;Zone A -3:00 _a %s 1999 Oct 3; -4:00 - -04;
L B C;L A B;Z A 0 - X~Zone A 0 - X;Link A C;Link A B;
Z A 1 - X 1999;0 - Rule~Zone A 1:00 - X 1999; 0 - Rule;
Z \"A\" 1 - \"X\" # \"~Zone A 1:00 - X;
Z A 0 - X;L A B;L A B~Zone A 0 - X;Link A B;
R b2 1990 o - O 1 0 1 -;Z A 0 b2 X~Rule _-b-dc 1990 only - Oct 1 0:00 1:00 -;Zone A 0 _-b-dc X;
R b2 1990 o - O 1 0 1 -;R _-b-dc 1991 o - O 1 0 1 -;Z A 0 b2 X 1999;0 _-b-dc X~Rule __-b-dc 1990 only - Oct 1 0:00 1:00 -;Rule _-b-dc 1991 only - Oct 1 0:00 1:00 -;Zone A 0 __-b-dc X 1999; 0 _-b-dc X;
R b2 1990 o - O 1 0 1 -;R __x 1991 o - O 1 0 1 -;Z A 0 b2 X 1999;0 __x X~Rule _a-b-dc 1990 only - Oct 1 0:00 1:00 -;Rule __x 1991 only - Oct 1 0:00 1:00 -;Zone A 0 _a-b-dc X 1999; 0 __x X;
R b2 1990 o - O 1 0 1 -;R _a 1991 o - O 1 0 1 -;R __ 1992 o - O 1 0 1 -;Z A 0 b2 X 1999;0 __ X~Rule _a_-b-dc 1990 only - Oct 1 0:00 1:00 -;Rule _a 1991 only - Oct 1 0:00 1:00 -;Rule __ 1992 only - Oct 1 0:00 1:00 -;Zone A 0 _a_-b-dc X 1999; 0 __ X;
R _b 1990 o - O 1 0 1 -;Z A -3 _b %z~Rule _b 1990 only - Oct 1 0:00 1:00 -;Rule __a 1990 only - Oct 1 0:00 1:00 -02;Zone A -3:00 __a %s;
R a mi ma - O Su<=25 2u 0 A;R a 1990 1991 - ap lastf 24 -0:30 -~Rule a min max - Oct Sun<=25 2:00u 0 A;Rule a 1990 1991 - Apr lastFri 24:00 -0:30 -;
R a 1990 ma - F su<=29 0 0 -~Rule a 1990 max - Feb lastSun 0:00 0 -;
# version 2026b;# a;L A B;Z A 0 - X~# version 2026b;Zone A 0 - X;Link A B;
# a;# version 2026b;Z A 0 - X~Zone A 0 - X;
";

/// Sources that are refused, and the line with its cause: a word that fits two months; a saving of which the suffix says that it is
/// standard time; a line of a zone that isn't there; links in a circle and to nothing; a ruleset without rules, also where it has the name
/// that another would get in the plain form; names that stand twice; quotes that are left open; a sharp within quotes, with which the plain form begins a comment;
/// February 29 of two years; and a row of each other cause of a line that is text.
pub(crate) const REFUSED: &str = "\
Z A 0 - X;R d 1916 o - Ju 14 0 0 S~2 Month
R d 1916 o - Jun 14 0 1s S~1 Saving
Z A 0 - X 1999~2 Continuation
Z A 0 - X;L B C;L C B~2 Target
L A B~1 Target
Z A 0 b X~1 UnknownRuleset
R b2 1990 o - O 1 0 1 -;Z A 0 _-b-dc X~2 UnknownRuleset
Z A 0 - X;Z A 1 - Y~2 DuplicateZone
Z A 0 - X;L A A~2 LinkIsZone
Z A 0 - X;Z B 0 - Y;L A C;L B C~4 DuplicateLink
Z A 0 - X;Z B 0 - \"~2 Quotes
Z \"A#\" 1 - X~1 Unsayable
Z A 0 - X 2020 F 29;0 - X;R a 2019 2020 - F 29 0 0 -~3 Day
Y A 0 - X~1 LineType
Z A 0 -~1 FieldCount
R 2a 1990 o - O 1 0 1 -~1 RulesetName
R a x o - O 1 0 1 -~1 Year
R a 1991 1990 - O 1 0 1 -~1 YearOrder
R a 1990 o x O 1 0 1 -~1 Type
R a 1990 o - O 1 0:60 1 -~1 Time
Z A 0 - %d~1 Format
Z A/../B 0 - X~1 Name
";

/// How many links a chain has that is led in moments where each name on a way is noted, and in minutes where each way is walked anew.
const LINKS: u32 = 100_000;

/// A zone, and links in a chain behind it, each to the new name of the link before.
fn chain(rt: &impl Abort, alloc: Global) -> Vec<u8> {
    let mut text = bytes_of(rt, alloc, Some("Z n0 0 - X;"));
    for number in 0..LINKS {
        let next = number + 1;
        let line = format!(in alloc; "L n{number} n{next}\n").expect(rt, "memory");
        text.extend_from_slice(line.as_bytes()).expect(rt, "memory");
    }
    text
}

/// What is written of a source, or the number of the line that is refused, and the cause.
fn told(rt: &impl Abort, alloc: Global, parser: &LineParser, source: &[u8]) -> Vec<u8> {
    assert!(rt; source.len() <= LIMIT);
    match plain(alloc, parser, source) {
        Ok(bytes) => bytes,
        Err(PlainFault::Line(number, cause)) => refused_line(rt, alloc, number, cause.name()),
        Err(_) => panic!(rt; "too long, or memory"),
    }
}

/// The number of a line that is refused, and the cause.
pub(crate) fn refused_line(rt: &impl Abort, alloc: Global, number: usize, cause: &str) -> Vec<u8> {
    format!(in alloc; "{number} {cause}")
        .expect(rt, "memory")
        .into_bytes()
}

/// Asserts what is told of the source of a row.
fn expect_row(rt: &impl Abort, alloc: Global, parser: &LineParser, row: &str) {
    let (source, due) = row.split_once('~').expect(rt, "nothing is due");
    let source = bytes_of(rt, alloc, Some(source));
    let due = bytes_of(rt, alloc, Some(due));
    let told = told(rt, alloc, parser, &source);
    holds(rt, row, told.as_slice() == due.as_slice());
}

/// Asserts each row.
fn expect_rows(rt: &impl Abort, alloc: Global, parser: &LineParser) {
    for row in SOURCES.lines() {
        expect_row(rt, alloc, parser, row);
    }
    for row in REFUSED.lines() {
        expect_row(rt, alloc, parser, row);
    }
}

/// Asserts that the chain is led to its beginning.
fn expect_chain(rt: &impl Abort, alloc: Global, parser: &LineParser) {
    let written = told(rt, alloc, parser, &chain(rt, alloc));
    let is_led = written.ends_with(b"\nLink n0 n100000\n");
    holds(rt, "a long chain", is_led);
}

#[test]
fn sources_are_written_or_refused(rt: HostRuntime) {
    expect_rows(&rt, rt.alloc(), &parser(&rt, rt.alloc()));
}

#[test]
fn a_long_chain_is_led(rt: HostRuntime) {
    expect_chain(&rt, rt.alloc(), &parser(&rt, rt.alloc()));
}
