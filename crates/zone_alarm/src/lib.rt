//! A daily local time: the instant at which it rings on each day, at most once a day; and the program that lists them.
#![tactic(auto)]

mod daily;
mod line;
mod program;
mod ring;
mod words;

pub use daily::alarms;
pub use program::{Daily, run_alarm, start_alarm};
pub use ring::{AlarmFault, Ring};
pub use zone_run::{
    Failed, FileShelf, MemShelf, MemSink, Shelf, Sink, Source, Started, Status, StdSink, SureShelf,
    SureSink,
};
