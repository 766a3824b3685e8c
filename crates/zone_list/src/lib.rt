//! The changes of a zone in a window of time, a line each, in columns.
#![tactic(auto)]

mod listing;
mod program;
mod row;
mod row_text;
mod widths;
mod window;

pub use listing::{ListFault, Listing, lines_of, list_lines};
pub use program::{run_list, start_list};
pub use window::Window;
pub use zone_run::{
    Failed, FileShelf, MemShelf, MemSink, Shelf, Sink, Source, Started, Status, StdSink, SureShelf,
    SureSink,
};
