//! Answers requests over the source text of the tz database: the top call, over the outside as traits.
#![tactic(auto)]

mod answering;
mod error;
mod fault;
mod made;
mod opened;
mod request;
mod running;
mod same_day;
mod showing;
mod summary;
mod to_2099;

pub use answering::{SourceAnswers, answers, answers_with, read_table};
pub use error::{AnswerError, ReadingError, Side};
pub use fault::write_fault;
pub use opened::{OpenedZone, Zones};
pub use request::{Request, Spelled, cut_at_space, nanoseconds};
pub use running::{run, run_surely, start};
pub use same_day::{SameDay, are_alike};
pub use showing::{add_instant, add_instants, show, show_spelled};
pub use to_2099::open_zone;
pub use tz_lookup::ZoneFault;
/// One line per request, in order. Contracts see the list of the lines' bytes.
pub use zone_source::{
    BuildKind, Failed, FileShelf, LineList as Answers, Lines, MemShelf, MemSink, MemSource, Shelf,
    Sink, Source, Started, Status, StdSink, StdSource, SureShelf, SureSink, SureSource,
};
