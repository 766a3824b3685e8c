//! The line that tells a fault.
ghost use Rattle.std.specs.Prelude.{◌≡◌, ◌≤◌, [], ◌∷◌, ◌++◌, length, take, IsSome, IfSome};
ghost use Rattle.zone_table.specs.Faults.{fault_of, fault_name};
ghost use Rattle.zone_source.specs.FaultLines.{build_name, line_shown, IsShort};

use crate::error::{BuildKind, SourceError};
use arrayvec::ArrayString;
use itoa::Buffer;

/// What the line of a fault says: `source 3: line InvalidDaySpec` of the side `source `, the number 3, the group `line `
/// and the cause `InvalidDaySpec`.
#[derive(Clone, Copy, Debug)]
pub struct FaultText {
    /// The text that has the line, and a space.
    pub side: &'static str,
    /// The number of the line, from 1.
    pub number: usize,
    /// What refused it, and a space, or nothing.
    pub group: &'static str,
    /// Why.
    pub cause: &'static str,
}

impl FaultText {
    ghost use Rattle.std.specs.Prelude.{◌≡◌, ◌≤◌, [], length, codes, IsSome, IfSome, IsSomeAnd, None, MatchOption};
    ghost use Rattle.zone_table.specs.Faults.{fault_of};
    ghost use Rattle.zone_source.specs.{FaultLines.{bad_line_text, bad_join_text, IsShort, line_shown, line_with, source_line}, Told.{told_by_source}};

    /// Of the fault that a source is refused for; none for want of memory.
    pub fn of_source(error: &SourceError) -> Option<FaultText>
        ensures line { MatchOption (told_by_source error.now) (result ≡ None) (λ f. IsSomeAnd result (λ text. line_shown text ≡ source_line f)) }
        ensures short { IfSome result IsShort }
    {
        match error {
            SourceError::NotText(number) => Some(FaultText::no_text("source ", *number)),
            SourceError::Line(number, error) => match error.kind() {
                Some(_) => Some(FaultText::of_line(*number, error)),
                None => None,
            },
            SourceError::Build(number, kind) => Some(FaultText::of_join(*number, *kind)),
            SourceError::NoMemory => None,
        }
    }

    /// Of a line of a side, `source ` or `request `, that is no text, by its number.
    pub fn no_text(side: &'static str, number: usize) -> FaultText
        requires { length side.now ≤ 8 }
        ensures line { line_shown result ≡ line_with side.now number [] (codes "not text") }
        ensures short { IsShort result }
    {
        FaultText {
            side,
            number,
            group: "",
            cause: "not text",
        }
    }

    /// Of a source line that is refused by itself, by its number; not for want of memory.
    pub fn of_line(number: usize, error: &zone_line::Error) -> FaultText
        requires { IsSome (fault_of error.now) }
        ensures line { IfSome (fault_of error.now) (λ f. line_shown result ≡ bad_line_text number f) }
        ensures short { IsShort result }
    {
        FaultText {
            side: "source ",
            number,
            group: "line ",
            cause: line_name(error),
        }
    }

    /// Of a source line that does not join those before it, by its number.
    pub fn of_join(number: usize, kind: BuildKind) -> FaultText
        ensures line { line_shown result ≡ bad_join_text number kind }
        ensures short { IsShort result }
    {
        FaultText {
            side: "source ",
            number,
            group: "build ",
            cause: build_name(kind),
        }
    }
}

/// Writes the line that says this, with its LF, at the front of the array, and answers its length. Side, group and cause
/// have at most 40 bytes together.
pub fn write_fault_line(text: &FaultText, into: &mut [u8; 64]) -> usize
    requires { IsShort text.now }
    ensures text { take result into.new ≡ line_shown text.now ++ 10 ∷ [] }
    ensures bound { result ≤ 63 }
{
    let line = whole_line(text);
    let end = line.len();
    into[..end].copy_from_slice(line.as_bytes());
    end
}

/// The line that says this, with its LF.
fn whole_line(text: &FaultText) -> ArrayString<64>
    requires { IsShort text.now }
    ensures text { result.bytes ≡ line_shown text.now ++ 10 ∷ [] }
    ensures bound { length result.bytes ≤ 63 }
{
    let mut digits = Buffer::new();
    let mut line = ArrayString::<64>::new();
    line.push_str(text.side);
    line.push_str(digits.format(text.number));
    line.push_str(": ");
    line.push_str(text.group);
    line.push_str(text.cause);
    line.push_str("\n");
    line
}

/// The name of a refusal to join.
fn build_name(kind: BuildKind) -> &'static str
    ensures name { build_name kind ≡ result.now }
    ensures short { length result.now ≤ 24 }
{
    match kind {
        BuildKind::SurpriseContinuationLine => "SurpriseContinuationLine",
        BuildKind::UnknownRuleset => "UnknownRuleset",
        BuildKind::DuplicateLink => "DuplicateLink",
        BuildKind::DuplicateZone => "DuplicateZone",
    }
}

/// The name of a line's fault.
fn line_name(error: &zone_line::Error) -> &'static str
    requires { IsSome (fault_of error.now) }
    ensures name { IfSome (fault_of error.now) (λ f. fault_name f.kind ≡ result.now) }
    ensures short { length result.now ≤ 28 }
{
    match error.kind() {
        Some(kind) => kind.name(),
        None => unreachable!(),
    }
}
