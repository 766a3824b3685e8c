//! The POSIX TZ string that carries a zone's schedule on, and the entry from which on it says the same; and the program that
//! writes it.
#![tactic(auto)]

mod call;
mod candidate;
mod candidates;
mod changes;
mod choice;
mod constant;
mod faults;
mod last_year;
pub mod laws;
mod line;
mod outcome;
pub mod parts;
mod program;
mod rule;
mod spans;
mod text;
mod walk;

pub use call::tail;
pub use last_year::{is_ending_early, is_outlasting, is_saving_on};
pub use outcome::{Tail, TailFault};
pub use program::{run_tail, start_tail};
pub use zone_run::{
    Failed, FileShelf, MemShelf, MemSink, Shelf, Sink, Source, Started, Status, StdSink, SureShelf,
    SureSink,
};
