//! The lines of tz source text as values, and these joined to a table of rulesets, zones and links.
//!
//! The names are those of the crate `parse-zoneinfo`: years, months, days, times and ends of lines, with what they amount to in
//! days and seconds, and the faults of a line; rules by the name of their ruleset, the lines of each zone in order, and links from
//! a new name to the one that stands. Nothing here knows how a line is read.
#![tactic(auto)]

mod bounds;
mod change;
mod day;
mod error;
mod fault;
mod line;
mod line_error;
mod month;
mod rule;
mod structure;
mod table;
mod time;
mod weekday;
mod year;
mod zone;

pub use change::ChangeTime;
pub use day::DaySpec;
pub use error::Error;
pub use fault::{Fault, FaultKind, value_or_fault};
pub use line::{Line, Link, Rule, Saving as LineSaving, Zone, ZoneInfo as LineInfo};
pub use line_error::Error as LineError;
pub use month::Month;
pub use rule::{RuleInfo, instant_of};
pub use structure::{Child, Iter, Structure, TableStructure, TableStructureEntry};
pub use table::{Table, TableBuilder};
pub use time::{TimeSpec, TimeSpecAndType, TimeType};
pub use weekday::Weekday;
pub use year::Year;
pub use zone::{Format, Saving, ZoneInfo};
