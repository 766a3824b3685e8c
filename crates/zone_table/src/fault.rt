//! What is wrong with a line: a kind, and the text of the line that is refused.
ghost use Rattle.std.specs.Prelude.{◌≡◌, ◌≤◌, length, Some, ok_or, IfOk, IfSome, string_bytes};
ghost use Rattle.zone_table.specs.Faults.{fault_shown, fault_of, fault_name, refused, told, told_text, Tells};

use crate::line_error::Error;
use std::alloc::{AllocError, Global};

/// What a text was to be and is not; `Error` says more of each.
#[derive(Clone, Copy, Debug, PartialEq, Eq)]
pub enum FaultKind {
    /// A year.
    FailedYearParse,
    /// A month.
    FailedMonthParse,
    /// A weekday.
    FailedWeekdayParse,
    /// A line.
    InvalidLineType,
    /// The TYPE column of a rule.
    TypeColumnContainedNonHyphen,
    /// A RULES column.
    CouldNotParseSaving,
    /// A day of a month.
    InvalidDaySpec,
    /// A time with its clock.
    InvalidTimeSpecAndType,
    /// A time by the wall's clock.
    NonWallClockInTimeSpec,
}

/// A refused text, borrowed, with what it was to be.
#[derive(Clone, Copy, Debug, PartialEq)]
pub struct Fault<'a> {
    /// What the text was to be.
    pub kind: FaultKind,
    /// The text as it stands in the line.
    pub text: &'a str,
}

impl FaultKind {
    /// The name of the kind, which is that of its variant of `Error`.
    pub fn name(self) -> &'static str
        ensures name { result.now ≡ fault_name self }
        ensures short { length result.now ≤ 28 }
    {
        match self {
            FaultKind::FailedYearParse => "FailedYearParse",
            FaultKind::FailedMonthParse => "FailedMonthParse",
            FaultKind::FailedWeekdayParse => "FailedWeekdayParse",
            FaultKind::InvalidLineType => "InvalidLineType",
            FaultKind::TypeColumnContainedNonHyphen => "TypeColumnContainedNonHyphen",
            FaultKind::CouldNotParseSaving => "CouldNotParseSaving",
            FaultKind::InvalidDaySpec => "InvalidDaySpec",
            FaultKind::InvalidTimeSpecAndType => "InvalidTimeSpecAndType",
            FaultKind::NonWallClockInTimeSpec => "NonWallClockInTimeSpec",
        }
    }

    /// The error of this kind that holds the text.
    fn error(self, text: String) -> Error
        ensures { fault_of result ≡ Some (refused self (string_bytes text)) }
    {
        match self {
            FaultKind::FailedYearParse => Error::FailedYearParse(text),
            FaultKind::FailedMonthParse => Error::FailedMonthParse(text),
            FaultKind::FailedWeekdayParse => Error::FailedWeekdayParse(text),
            FaultKind::InvalidLineType => Error::InvalidLineType(text),
            FaultKind::TypeColumnContainedNonHyphen => Error::TypeColumnContainedNonHyphen(text),
            FaultKind::CouldNotParseSaving => Error::CouldNotParseSaving(text),
            FaultKind::InvalidDaySpec => Error::InvalidDaySpec(text),
            FaultKind::InvalidTimeSpecAndType => Error::InvalidTimeSpecAndType(text),
            FaultKind::NonWallClockInTimeSpec => Error::NonWallClockInTimeSpec(text),
        }
    }
}

impl Fault<'_> {
    /// The error that tells this fault, with the text copied; where memory runs out, `NoMemory`.
    pub fn error(self, alloc: Global) -> Error
        ensures { IfSome (fault_of result) (λ fault. fault ≡ fault_shown self.entry) }
    {
        match self.told_text(alloc) {
            Ok(text) => self.kind.error(text),
            Err(_) => Error::NoMemory,
        }
    }

    /// A copy of the text, that of a month or a weekday in ASCII lower case.
    fn told_text(&self, alloc: Global) -> Result<String, AllocError>
        ensures { IfOk result (λ copy. string_bytes copy ≡ told_text self.now.kind self.now.text.now) }
    {
        let mut copy = String::from_str(alloc, self.text)?;
        if self.kind == FaultKind::FailedMonthParse || self.kind == FaultKind::FailedWeekdayParse {
            copy.make_ascii_lowercase();
        }
        Ok(copy)
    }
}

/// The value that a text has, or where it has none the fault that the text is none of that kind.
///
/// # Errors
///
/// The fault of that kind, which borrows the text.
pub fn value_or_fault<T>(value: Option<T>, kind: FaultKind, text: &str) -> Result<T, Fault<'_>>
    ensures { told (λ value. value) result ≡ ok_or value (refused kind (told_text kind text.now)) }
{
    match value {
        Some(value) => Ok(value),
        None => Err(Fault { kind, text }),
    }
}

/// What was read, or the error that tells its fault.
pub(crate) fn or_error<T>(alloc: Global, read: Result<T, Fault<'_>>) -> Result<T, Error>
    ensures { Tells (λ value. value) result (told (λ value. value) read.entry) }
{
    match read {
        Ok(value) => Ok(value),
        Err(fault) => Err(fault.error(alloc)),
    }
}
