//! What dates and times are made of: months, weekdays and lengths of time, with the refusals of values out of range.
//!
//! No call takes memory, and every type is `Copy`.
#![tactic(auto)]

pub mod error;
pub mod month;
pub mod signed_duration;
pub mod std_duration;
pub mod units;
pub mod weekday;

pub use error::{ComponentRange, ConversionRange, InvalidVariant};
pub use month::Month;
pub use signed_duration::{Duration, SignedDuration};
pub use std_duration::StdDuration;
pub use weekday::Weekday;
