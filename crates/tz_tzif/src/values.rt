//! What a footer is read as.

use tz_posix::{Offset, Rule, Std};

/// When daylight saving time begins and ends in each year: a day, and a time where one is written, which counts from the
/// day's midnight back after `-`.
pub type FooterRule = Rule<Offset>;

/// Daylight saving time.
#[derive(Clone, Debug, Drop, PartialEq, Eq)]
pub struct Saving<'a> {
    /// The abbreviation, without brackets.
    pub name: &'a str,
    /// The offset, where one is written; else it is an hour ahead of standard time.
    pub offset: Option<Offset>,
    /// When it holds.
    pub rule: FooterRule,
}

/// The value of a whole footer.
#[derive(Clone, Debug, Drop, PartialEq, Eq)]
pub struct FooterText<'a> {
    /// Standard time.
    pub std: Std<'a>,
    /// Daylight saving time, where there is any.
    pub dst: Option<Saving<'a>>,
}
