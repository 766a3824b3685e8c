//! Descriptions of formats, borrowed and owned.

/// A part of a date-time that a format shows.
#[derive(Clone, Copy, Debug, PartialEq, Eq)]
pub enum Component {
    /// The year.
    Year,
    /// The month of the year.
    Month,
    /// The day of the month.
    Day,
    /// The hour of the day.
    Hour,
    /// The minute of the hour.
    Minute,
    /// The second of the minute.
    Second,
    /// The fraction of the second.
    Subsecond,
    /// The hours of the offset from UTC, with its sign.
    OffsetHour,
    /// The minutes of the offset past its hours.
    OffsetMinute,
    /// The seconds of the offset past its minutes.
    OffsetSecond,
}

/// An item of a format, borrowed. It is there to be matched on.
#[derive(Clone, Copy)]
pub enum BorrowedFormatItem<'a> {
    /// These bytes.
    Literal(&'a [u8]),
    /// This text.
    StringLiteral(&'a str),
    /// A part of the date-time.
    Component(Component),
    /// Items one after another.
    Compound(&'a [BorrowedFormatItem<'a>]),
    /// An item that a text may leave out.
    Optional(&'a BorrowedFormatItem<'a>),
    /// The first of these items that a text has.
    First(&'a [BorrowedFormatItem<'a>]),
}
