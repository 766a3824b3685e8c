//! One run for every program that reads a source file, takes one zone of it, and writes what it has to say of the zone.
//!
//! A program says what is its own by a `ZoneProgram`: how it reads the zone, its label, its words after FILE and NAME, and its answer
//! for the zone. `run_program` is its whole run, with `EndsWith` as its contract.
#![tactic(auto)]

mod found;
mod line;
mod number;
mod program;
mod respond;
mod running;
mod starting;
mod task;

pub use found::{FindFault, FoundZone};
pub use number::number_in;
pub use program::{Refusal, ZoneProgram};
pub use running::run_program;
pub use starting::start_program;
pub use zone_source::{
    Failed, FileShelf, MemShelf, MemSink, Shelf, Sink, Source, Started, Status, StdSink, SureShelf,
    SureSink,
};
