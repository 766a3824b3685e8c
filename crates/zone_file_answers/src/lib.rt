//! Answers requests over a compiled zone file: the top call, over the outside as traits.
#![tactic(auto)]

mod answering;
mod fault;
mod request;
mod respond;
mod running;
mod starting;

pub use answering::answers;
pub use fault::FileFault;
pub use running::run;
pub use starting::start;
pub use zone_source::{
    FileShelf, LineList, MemShelf, MemSink, MemSource, Shelf, Sink, Source, Started, Status,
    StdSink, StdSource,
};
