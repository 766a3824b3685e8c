//! The schedule of a zone: what its lines and rulesets put in force, and when.
//!
//! The rules are those of the crate `parse-zoneinfo`, but that the clock of a line's end is honoured.
#![tactic(auto)]

mod entries;
mod fault;
mod firing;
mod front;
mod goes_on;
mod kept;
mod several;
mod span;
mod transitions;
mod turns;
mod year;

pub use fault::SpanFault;
pub use span::{FixedTimespan, FixedTimespanSet, GREATEST_SECOND, collapse};
pub use transitions::TableTransitions;
pub use year::{EARLIEST_YEAR, MOST_YEARS, YEARS_LIMIT};
