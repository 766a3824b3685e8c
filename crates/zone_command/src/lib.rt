//! The run of the command `zone`: its words, its source, its answer, its faults; what answers is an `Answerer`. What is answered
//! over the text of a source, whatever reads it, at once or as requests and logs come; and the machine's own source, in any form
//! that `zic` reads, whose zones go on for ever.
#![tactic(auto)]

mod answerer;
mod answering;
mod answers;
mod any_source;
mod charts;
mod deliver;
mod ever_zone;
mod failure;
mod find;
mod forms;
mod help;
mod kept;
mod kept_answers;
mod line;
mod log_texts;
mod named;
mod offset;
mod over;
mod plain;
mod readings;
mod replies;
mod running;
mod serving;
mod source;
mod source_words;
mod starting;
mod stream;
mod times;
mod words;

pub use answerer::{AnswerFault, Answerer};
pub use answering::answer_over;
pub use answers::{refusal_of, told};
pub use any_source::AnySource;
pub use failure::Failure;
pub use line::{name_words, told_line};
pub use log_texts::ZoneTexts;
pub use named::{NamedZone, find_named};
pub use offset::offset_in;
pub use over::{OverSource, PlainSource};
pub use running::run_zone;
pub use serving::{serve_log, serve_stream};
pub use source::{Refusal, ZoneSource};
pub use starting::{ZoneStarted, start};
pub use stream::SourceStream;
pub use zone_source::{Failed, Shelf, Sink, Source, Status};
