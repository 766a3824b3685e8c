//! What a text is read as.

use crate::date::Date;
use crate::time::{Offset, Time};

/// When daylight saving time begins and ends in each year: a day, and a time where one is written, which is of type `T`.
#[derive(Clone, Debug, Drop, PartialEq, Eq)]
pub struct Rule<T = Time> {
    /// The beginning, read at the standard offset.
    pub start: (Date, Option<T>),
    /// The end, read at the offset of daylight saving time.
    pub end: (Date, Option<T>),
}

/// Standard time.
#[derive(Clone, Debug, Drop, PartialEq, Eq)]
pub struct Std<'a> {
    /// The abbreviation, without brackets.
    pub name: &'a str,
    /// The offset.
    pub offset: Offset,
}

/// Daylight saving time, with a rule of type `R`.
#[derive(Clone, Debug, Drop, PartialEq, Eq)]
pub struct Dst<'a, R = Rule> {
    /// The abbreviation, without brackets.
    pub name: &'a str,
    /// The offset, where one is written; else it is an hour ahead of standard time.
    pub offset: Option<Offset>,
    /// The rule, where one is written; else that of the zone `America/New_York`.
    pub rule: Option<R>,
}

/// The value of a whole text.
#[derive(Clone, Debug, Drop, PartialEq, Eq)]
pub enum Tz<'a, R = Rule> {
    /// `:` and a text that a zone's name contains, without brackets.
    Short(&'a str),
    /// Standard time, and maybe daylight saving time.
    Expanded {
        std: Std<'a>,
        dst: Option<Dst<'a, R>>,
    },
}
