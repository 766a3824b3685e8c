//! What people and logs write, read exactly: the words of the command `zone`, the times in them, and the lines of inputs without
//! end, answered piece by piece. It knows no zone.
#![tactic(auto)]

mod alarm;
mod answer_form;
mod arguments;
mod command;
mod fault;
mod fault_lines;
mod filter;
mod form;
mod fronts;
mod given;
mod held;
mod instant;
mod local;
mod logs;
pub mod piece_laws;
mod pieces;
mod read;
mod requests;
mod running;
mod sorted;
mod stamp;
mod task;
mod text_fault;
pub mod time_laws;
mod told_word;
mod value;
mod values;
mod write;

pub use answer_form::AnswerForm;
pub use command::Command;
pub(crate) use fault::Reading;
pub use fault::{WordCause, WordFault};
pub use fault_lines::fault_line;
pub use filter::Filter;
pub use fronts::{LineRewrites, Rewriter};
pub use given::is_option;
pub use instant::{Asked as AskedInstant, read_instant};
pub use local::read_local;
pub use logs::{InstantTexts, LogTimes};
pub use read::read_words;
pub use requests::{LONGEST, LineAnswers, Responder};
pub use running::{StreamEnd, run_filter, run_log, run_stream};
pub use stamp::read_stamp;
pub use task::{Alarm, Asked, FoldRule, GapRule, Task};
pub use text_fault::TextFault;
pub use told_word::{add_told_word, hex_digit};
pub use write::{add_epoch, add_local, add_offset, add_people, add_rfc3339, add_seconds};
