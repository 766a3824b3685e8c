//! The lines of a tz source in any form that `zic` reads, and the plain form of each: the one that the crate `zone_line` reads.
//!
//! The forms are those of the manual of `zic`: fields between white space, quotes and comments, shortened words, times of any
//! length. What a line means is a value of `zone_table`; the plain text that is written for it is read back and compared. Rulesets
//! whose names the plain form can't say get names that stand for these.
#![tactic(auto)]

mod cause;
mod clock;
mod error;
mod fields;
mod laws;
mod lines;
mod meant;
mod quotes;
mod renamed;
mod said;
mod text;
mod words;

pub use cause::PlainCause;
pub use error::{PlainFault, Refused, fault_at};
pub use fields::{fields_of, lay_out};
pub use laws::said_names;
pub use lines::meaning;
pub use meant::line_meant;
pub use quotes::Place;
pub use renamed::{
    behind_underscore, has_said_name, mark_behind, mark_of, said_name, said_name_of, under,
};
pub use said::{is_read, line_at, lines_read, write_said};
pub use text::put_plain;
pub use words::{LineWord, line_word};
