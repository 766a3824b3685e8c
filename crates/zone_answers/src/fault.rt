//! The line that tells a fault.
ghost use Rattle.std.specs.Prelude.{◌≡◌, ◌+◌, ◌≤◌, [], ◌∷◌, ◌++◌, length, take, IsSome, IfSome};
ghost use Rattle.zone_source.specs.FaultLines.{line_shown, IsShort};
ghost use Rattle.zone_answers.specs.{FaultLines.{fault_line, request_line}, Told.{fault_told, reading_told}};

use crate::error::{AnswerError, ReadingError, Side};
use zone_source::{FaultText, write_fault_line};

/// Writes the line that tells the fault, with its LF, at the front of the array, and answers its length. Want of memory has
/// no line.
pub fn write_fault(fault: &AnswerError, into: &mut [u8; 64]) -> usize
    requires { IsSome (fault_told fault.now) }
    ensures text { IfSome (fault_told fault.now) (λ f. take result into.new ≡ fault_line f ++ 10 ∷ []) }
    ensures bound { result ≤ 63 }
{
    write_fault_line(&fault_text(fault), into)
}

/// The same where zones are read in any way.
pub(crate) fn write_reading_fault(fault: &ReadingError, into: &mut [u8; 64]) -> usize
    requires { IsSome (reading_told fault.now) }
    ensures text { IfSome (reading_told fault.now) (λ f. take result into.new ≡ fault_line f ++ 10 ∷ []) }
    ensures bound { result ≤ 63 }
{
    match fault {
        ReadingError::Answer(fault) => write_fault(fault, into),
        ReadingError::RulesEnd(number) => {
            write_fault_line(&request_text(*number, "", "rules end"), into)
        }
    }
}

/// What the line of the fault says.
fn fault_text(fault: &AnswerError) -> FaultText
    requires { IsSome (fault_told fault.now) }
    ensures line { IfSome (fault_told fault.now) (λ f. fault_line f ≡ line_shown result) }
    ensures short { IsShort result }
{
    match fault {
        AnswerError::NotText(Side::Source, number) => FaultText::no_text("source ", *number),
        AnswerError::NotText(Side::Requests, number) => FaultText::no_text("request ", *number),
        AnswerError::Line(number, error) => FaultText::of_line(*number, error),
        AnswerError::Build(number, kind) => FaultText::of_join(*number, *kind),
        AnswerError::Request(number) => request_text(*number, "", "request"),
        AnswerError::UnknownZone(number) => request_text(*number, "", "unknown zone"),
        AnswerError::Schedule(number, fault) => { request_text(*number, "schedule ", fault.name()) }
        AnswerError::OffsetRange(number) => request_text(*number, "", "offset range"),
        AnswerError::Range(number) => request_text(*number, "", "range"),
        AnswerError::NoMemory => unreachable!(),
    }
}

/// What the line of a request's fault says.
fn request_text(number: usize, group: &'static str, cause: &'static str) -> FaultText
    requires { length group.now + length cause.now ≤ 32 }
    ensures line { line_shown result ≡ request_line number group.now cause.now }
    ensures short { IsShort result }
{
    FaultText {
        side: "request ",
        number,
        group,
        cause,
    }
}
