//! POSIX TZ strings, such as `EST5EDT,M3.2.0,M11.1.0`: read by a written grammar, the offset that they give an instant, and the
//! laws by which a zone of the tz database and a string that says the same agree.
//!
//! The names are those of the crate `time-tz`. Which times a rule may have is an argument of the grammar (`RuleTime`): those of
//! a day here, and in the footers of compiled files those with a sign. No call takes memory.
#![tactic(auto)]

mod date;
mod error;
pub mod laws;
mod moments;
mod offset;
mod parse;
pub mod parts;
mod posix;
mod range;
mod read;
mod rule;
mod rule_time;
mod time;
mod values;

pub use date::Date;
pub use error::{Error, ParseError, RangeError};
pub use offset::PosixTzOffset;
pub use posix::PosixTz;
pub use read::{entry, value};
pub use rule_time::RuleTime;
pub use time::{Offset, Time};
pub use values::{Dst, Rule, Std, Tz};
