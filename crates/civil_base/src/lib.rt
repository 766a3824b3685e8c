//! Dates, times of day, offsets from UTC and date-times, with their texts, in the manner of the crate `time`.
//!
//! No call takes memory, and every type is `Copy`. Dates lie in the years -9999 to 9999.
#![tactic(auto)]

pub mod date;
pub mod offset_date_time;
pub mod plain_date_time;
mod read;
pub mod time;
pub mod timestamp;
pub mod utc_date_time;
pub mod utc_offset;

pub use civil_parts::{
    ComponentRange, ConversionRange, Duration, InvalidVariant, Month, SignedDuration, StdDuration,
    Weekday,
};
pub use date::Date;
pub use offset_date_time::OffsetDateTime;
pub use plain_date_time::{PlainDateTime, PrimitiveDateTime};
pub use read::{read_local, read_zoned, spaced_offset, spaced_time, write_local, write_zoned};
pub use time::Time;
pub use timestamp::Timestamp;
pub use utc_date_time::UtcDateTime;
pub use utc_offset::{GREATEST_OFFSET, UtcOffset};
