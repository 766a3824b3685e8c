//! The outside of a program as traits: sources of bytes, shelves of named texts, and sinks. It has objects in memory, of
//! which chosen calls fail, objects that never fail, and the real file and streams.
#![tactic(auto)]

mod exchange;
mod exchange_memory;
mod memory;
mod outside;
mod sure;
mod surroundings;

pub use exchange::{Exchange, StdExchange, send_all};
pub use exchange_memory::MemExchange;
pub use memory::{MemShelf, MemSink, MemSource};
pub use outside::{
    Failed, FileShelf, LIMIT, ReadEnd, Shelf, Sink, Source, StdSink, StdSource, fetch_all,
    read_all, write_all,
};
pub use sure::{SureShelf, SureSink, SureSource};
pub use surroundings::{
    Environment, MemClock, MemEnvironment, ProgramEnvironment, SystemClock, WallClock,
};
