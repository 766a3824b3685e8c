//! The texts that are made from a number, for measuring: a source of so many zones, and two requests for each zone.
ghost use Rattle.std.specs.Prelude.{◌≡◌, ◌+◌, ◌*◌, ◌%◌, ◌≤◌, [], ◌∷◌, ◌++◌, length, IfOk, OnOk};
ghost use Rattle.zone_source.specs.LineLists.{ended};
ghost use Rattle.zone_answers.specs.Made.{at_line, local_line, made_requests, made_source, zone_line};

use arrayvec::ArrayString;
use itoa::Buffer;
use std::alloc::{AllocError, Global};

/// The rules of every made zone: an hour of saving from spring to autumn.
const RULES: &str = "\
Rule Gen 2000 max - Mar lastSun 2:00 1:00 D
Rule Gen 2000 max - Oct lastSun 3:00 0 S
";

/// 37 days in nanoseconds.
const TIME_STEP: u64 = 37 * 86_400 * 1_000_000_000;

/// The source: two rules, and for each k from 1 to the number a zone `Gen/Zk` whose offset is k mod 12 hours.
pub(crate) fn made_source(alloc: Global, count: u64) -> Result<Vec<u8>, AllocError>
    requires { count ≤ 1000 }
    ensures text { IfOk result (λ text. text.items ≡ made_source count) }
    ensures short { IfOk result (λ text. length text.items ≤ 128 * (count + 1)) }
{
    let mut text = Vec::from_slice(alloc, RULES.as_bytes())?;
    for before in 0..count {
        add_line(&mut text, &zone_line(before + 1))?;
    }
    Ok(text)
}

/// The requests: for each k from 1 to the number the local time of the zone `Gen/Zk` at the instant k times 37 days after
/// 1970, and the instants that it reads as noon of 2024-07-01.
pub(crate) fn made_requests(alloc: Global, count: u64) -> Result<Vec<u8>, AllocError>
    requires { count ≤ 1000 }
    ensures text { IfOk result (λ text. text.items ≡ made_requests count) }
    ensures short { IfOk result (λ text. length text.items ≤ 256 * count) }
{
    let mut text = Vec::new(alloc);
    for before in 0..count {
        add_line(&mut text, &at_line(before + 1))?;
        add_line(&mut text, &local_line(before + 1))?;
    }
    Ok(text)
}

fn add_line(text: &mut Vec<u8>, line: &ArrayString<128>) -> Result<(), AllocError>
    ensures { OnOk result (text.new.items ≡ text.old.items ++ line.now.bytes) }
{
    text.extend_from_slice(line.as_bytes())
}

/// The line of the kth zone, with its LF.
fn zone_line(k: u64) -> ArrayString<128>
    ensures text { result.bytes ≡ zone_line k ++ 10 ∷ [] }
    ensures short { length result.bytes ≤ 128 }
{
    let mut digits = Buffer::new();
    let mut line = ArrayString::<128>::new();
    line.push_str("Zone Gen/Z");
    line.push_str(digits.format(k));
    line.push_str(" ");
    line.push_str(digits.format(k % 12));
    line.push_str(":00 Gen G%sT");
    line.push_str("\n");
    line
}

/// The first request of the kth zone, with its LF.
fn at_line(k: u64) -> ArrayString<128>
    requires { k ≤ 1000 }
    ensures text { result.bytes ≡ at_line k ++ 10 ∷ [] }
    ensures short { length result.bytes ≤ 128 }
{
    let mut digits = Buffer::new();
    let mut line = ArrayString::<128>::new();
    line.push_str("at Gen/Z");
    line.push_str(digits.format(k));
    line.push_str(" ");
    line.push_str(digits.format(k * TIME_STEP));
    line.push_str("\n");
    line
}

/// The second request of the kth zone, with its LF.
fn local_line(k: u64) -> ArrayString<128>
    ensures text { result.bytes ≡ local_line k ++ 10 ∷ [] }
    ensures short { length result.bytes ≤ 128 }
{
    let mut digits = Buffer::new();
    let mut line = ArrayString::<128>::new();
    line.push_str("local Gen/Z");
    line.push_str(digits.format(k));
    line.push_str(" 2024-07-01 12:00:00.000000000");
    line.push_str("\n");
    line
}
