//! Units of time.

/// The nanoseconds of a second.
pub const NANOS_PER_SECOND: i128 = 1_000_000_000;
