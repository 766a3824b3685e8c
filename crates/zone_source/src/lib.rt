//! The source text of zones, read as a whole: its lines, the table that they join to, and the first fault of it; and the release that it
//! names by its first line, as `# version 2026b`.
//!
//! Programs over a source file stand on this crate: it also has the statuses that they end with, how a run over a
//! file ends, and the lines that tell a fault, and it gives the outside on.
#![tactic(auto)]

mod error;
mod fault_line;
mod files_program;
mod laws;
pub mod lines;
mod no_input;
mod release;
mod response;
mod running;
mod starting;
mod table;

pub use error::{BuildKind, SourceError};
pub use fault_line::{FaultText, write_fault_line};
pub use files_program::{FilesProgram, start_files_run};
pub use laws::names_itself;
pub use lines::{LineList, Lines, text_of};
pub use no_input::NoInput;
pub use release::{put_release_line, release_of};
pub use response::{Response, source_fault_bytes};
pub use running::{Answered, FileTask, Status, TextAnswers, run_over, run_task, run_task_surely};
pub use starting::{
    BareProgram, SourceProgram, Started, after_name, all_words, start_run, start_source_run,
};
pub use table::read_table;
pub use zone_outside::{
    Failed, FileShelf, LIMIT, MemShelf, MemSink, MemSource, ReadEnd, Shelf, Sink, Source, StdSink,
    StdSource, SureShelf, SureSink, SureSource, fetch_all, read_all, write_all,
};
