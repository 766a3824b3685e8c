//! Lines of tz source text, read one at a time into values that borrow from them.
//!
//! The forms of the lines are those of the `zic` manual, as the crate `parse-zoneinfo` reads
//! them: blank lines and comments, Zone lines, their continuations, Rule lines and Link lines.
#![tactic(auto)]

mod columns;
mod fields;
mod parser;
mod reader;

pub use parser::{LineParser, NotBuilt};
pub use reader::LineReader;
pub use zone_table::{
    ChangeTime, DaySpec, Fault, FaultKind, Line, LineError as Error, LineInfo as ZoneInfo,
    LineSaving as Saving, Link, Month, Rule, TimeSpec, TimeSpecAndType, TimeType, Weekday, Year,
    Zone,
};
