//! Compiled sets of spans as zones of a TZif file, and their files, which have the set's offset also by their footers; the footer
//! that carries a zone on for ever; and the program that writes a zone's file.
#![tactic(auto)]

mod agreeing;
mod call;
mod carried;
mod causes;
mod convert;
mod ever;
mod faults;
mod file;
mod form;
mod laws;
mod outcome;
mod program;
mod saved;
mod text;
mod tried;
mod until;
mod version;
mod walk;

pub use agreeing::{Agreement, first_agreement};
pub use call::tail_for_ever;
pub use carried::{carried_on, consistent_totals};
pub use convert::from_set;
pub use ever::{EverFileFault, ever_kinds, ever_totals, tzif_for_ever};
pub use file::{FileFault, consistent_tzif_of, tzif_of};
pub use laws::{few_causes, reads_back, totals_kept};
pub use outcome::{EverTail, EverTailFault};
pub use program::{run_tzif, start_tzif};
pub use tz_tzif::repeats;
pub use zone_run::{
    Failed, FileShelf, MemShelf, MemSink, Shelf, Sink, Source, Started, Status, StdSink, SureShelf,
    SureSink,
};
pub use zone_tzif_core::{
    Kind, ReadFault, TzifZone, WriteFault, one_reading, one_value, read_any, read_tzif, write_tzif,
    written_denotes,
};
