//! What stands above dates and times in the crate `time`: errors, lengths of time from numbers, system times, format
//! items and the configuration of ISO 8601 texts.
//!
//! Only `from_borrowed`, `from_slice` and `from_borrowed_vec` of `OwnedFormatItem` take memory.
#![tactic(auto)]

pub mod config;
pub mod digits;
mod encoding;
pub mod error;
pub mod format_item;
pub mod iso8601;
mod item_equality;
pub mod numerical_duration;
pub mod numerical_std_duration;
pub mod owned_format_item;
pub mod sys_compare;
pub mod sys_time;
pub mod system_time_ext;
pub mod well_known;

pub use civil_base::{ComponentRange, ConversionRange, InvalidVariant};
pub use config::Config;
pub use digits::Digits;
pub use encoding::{DoNotRelyOnWhatThisIs, EncodedConfig};
pub use error::{DifferentVariant, Error, IndeterminateOffset, Result};
pub use format_item::{BorrowedFormatItem, Component};
pub use iso8601::{DateKind, FormattedComponents, OffsetPrecision, TimePrecision};
pub use numerical_duration::NumericalDuration;
pub use numerical_std_duration::NumericalStdDuration;
pub use owned_format_item::OwnedFormatItem;
pub use sys_compare::{AsSysTime, SysCompare};
pub use sys_time::SysTime;
pub use system_time_ext::SystemTimeExt;
pub use well_known::{Rfc2822, Rfc3339};
