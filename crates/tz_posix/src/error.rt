//! Why a text, or a date of a rule, is refused.

use thiserror::Error as ThisError;

/// What is out of its range in a text.
#[derive(Debug, Drop, ThisError)]
pub enum RangeError {
    /// An offset of more than 24 hours, a time of a rule of more than 23, or a minute or a second past 59.
    #[error("time field out of range")]
    Time,
    /// A day `Jn` outside 1 to 365, a day `n` past 365, or `Mm.n.d` with m outside 1 to 12, n outside 1 to 5 or d past 6.
    #[error("date field out of range")]
    Date,
}

/// Why a text is no time zone. The causes are tried in this order: `Grammar`, `Range`, `UnknownName`.
#[derive(Debug, Drop)]
pub enum ParseError<'a> {
    /// The whole text is not in the grammar.
    Grammar,
    /// The database has no zone whose name contains this text, or, for a text that borrows the rule of that zone, no
    /// `America/New_York`.
    UnknownName(&'a str),
    /// The first part that is out of its range.
    Range(RangeError),
}

/// Why a date has no offset, or a rule's day no date.
#[derive(Debug, Drop)]
pub enum Error {
    /// The year has no such day, or a date lies outside the years -9999 to 9999.
    ComponentRange,
    /// The fifth weekday of December 9999 would lie past its end.
    DateTooLarge,
}
