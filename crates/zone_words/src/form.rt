//! Times as they are written, whether there are such or not.

/// The numbers of `YYYY-MM-DD`.
#[derive(Clone, Copy)]
pub struct WrittenDate {
    /// Up to 9999.
    pub year: u16,
    /// Up to 99.
    pub month: u8,
    /// Up to 99.
    pub day: u8,
}

/// The numbers of `hh:mm:ss` and of a fraction. What isn't written is 0.
#[derive(Clone, Copy)]
pub struct WrittenTime {
    /// Up to 99.
    pub hour: u8,
    /// Up to 99.
    pub minute: u8,
    /// Up to 99.
    pub second: u8,
    /// The fraction.
    pub nanosecond: u32,
}

/// The numbers of `+hh:mm` or `-hh:mm`; `Z` is 0.
#[derive(Clone, Copy)]
pub struct WrittenOffset {
    /// Whether a `-` stands before them.
    pub west: bool,
    /// Up to 99.
    pub hours: u8,
    /// Up to 99.
    pub minutes: u8,
}

/// The parts of a text of RFC 3339.
#[derive(Clone, Copy)]
pub struct WrittenInstant {
    /// The date.
    pub date: WrittenDate,
    /// The time of day.
    pub time: WrittenTime,
    /// The offset.
    pub offset: WrittenOffset,
}

/// A number of seconds and a fraction.
#[derive(Clone, Copy)]
pub struct WrittenCount {
    /// Whether a `-` stands before them.
    pub before: bool,
    /// The whole seconds; 10^25 where there are more.
    pub seconds: u128,
    /// The fraction.
    pub nanosecond: u32,
}
