//! How a run ended; the run of a program over a text and requests, and over one file.
ghost use Rattle.std.specs.{Prelude.{◌≡◌, ◌≤◌, length, option_map, IsNone, Some}, Option.{ForSome}};
ghost use Rattle.zone_source.specs.{Responses.{IsResponse, Responds}, Runs.{EndsOf, EndsSurely, Work, seen, EndsOver, EndsWell, Writes, run_seen}};
ghost use Rattle.zone_outside.specs.Seen.{output_seen};

use crate::no_input::NoInput;
use crate::response::Response;
use std::alloc::{AllocError, Global};
use zone_line::LineParser;
use zone_outside::{
    LIMIT, ReadEnd, Shelf, Sink, Source, SureShelf, SureSink, fetch_all, read_all, write_all,
};

/// How a run ended.
#[derive(Clone, Copy, Debug, PartialEq, Eq)]
pub enum Status {
    /// Every line was written.
    Done,
    /// The words are in no form that the program takes.
    Words,
    /// The line of a fault was written.
    Fault,
    /// A call of the shelf or of the input failed.
    Read,
    /// A call of the output failed.
    Write,
    /// Memory ran out.
    NoMemory,
    /// A text is longer than 16,777,216 bytes.
    TooLong,
}

impl Status {
    ghost use Rattle.std.specs.Prelude.{◌≡◌};
    ghost use Rattle.zone_source.specs.Statuses.{code_of};

    /// The exit status of the program: 0 to 6, in the order of the variants.
    pub fn code(self) -> u8
        ensures { result ≡ code_of self }
    {
        match self {
            Status::Done => 0,
            Status::Words => 1,
            Status::Fault => 2,
            Status::Read => 3,
            Status::Write => 4,
            Status::NoMemory => 5,
            Status::TooLong => 6,
        }
    }
}

impl From<ReadEnd> for Status {
    ghost use Rattle.std.specs.Prelude.{◌≡◌};
    ghost use Rattle.zone_source.specs.Statuses.{status_of};

    ghost from_gives = { λ end status. status ≡ status_of end };

    /// How a run ends where a text was not read to its end.
    fn from(end: ReadEnd) -> Status {
        match end {
            ReadEnd::Failed => Status::Read,
            ReadEnd::TooLong => Status::TooLong,
            ReadEnd::NoMemory => Status::NoMemory,
        }
    }
}

/// What was written.
#[derive(Clone, Copy, Debug, PartialEq, Eq)]
pub enum Answered {
    /// The lines.
    Done,
    /// The line of a fault.
    Fault,
    /// Some of it: the output failed.
    Failed,
    /// Nothing: memory ran out.
    NoMemory,
}

/// What answers the requests over a text.
pub trait TextAnswers {
    /// What it writes.
    ghost writes: { Self → Writes };

    /// Answers the requests over the text, and writes the answers or the line of the first fault. Each has at most 16,777,216 bytes.
    fn respond<O: Sink>(
        &self,
        alloc: Global,
        text: &[u8],
        requests: &[u8],
        output: &mut O,
    ) -> Answered
        requires text { length text.now ≤ LIMIT }
        requires requests { length requests.now ≤ LIMIT }
        ensures { Responds (writes self.now) text.now requests.now (output_seen O.Sink output.old) (output_seen O.Sink output.new) result };

    /// A run that wrote this ends as one of which no call fails.
    ghost ends_well: { (answers : Self) → EndsWell (writes answers) };
}

/// Answers the requests of the input over the named text of the shelf.
///
/// It works in this order: the shelf's text to its end; the input's to its end; the answers; the writing. What each status says is
/// told field by field by `EndsOver`.
pub fn run_over<A: TextAnswers, H: Shelf, I: Source, O: Sink>(
    alloc: Global,
    answers: &A,
    name: &str,
    shelf: &mut H,
    input: &mut I,
    output: &mut O,
) -> Status
    requires { H.open_to shelf.old name.now }
    ensures { EndsOver (A.writes answers.now) (IsNone (Some name.now)) (Some name.now)
        (run_seen H.Source I.Source O.Sink shelf.old input.old output.old)
        (run_seen H.Source I.Source O.Sink shelf.new input.new output.new) result }
{
    let text = match fetch_all(alloc, shelf, name) {
        Ok(text) => text,
        Err(end) => return Status::from(end),
    };
    let requests = match read_all(alloc, input) {
        Ok(requests) => requests,
        Err(end) => return Status::from(end),
    };
    match answers.respond(alloc, &text, &requests, output) {
        Answered::Done => Status::Done,
        Answered::Fault => Status::Fault,
        Answered::Failed => Status::Write,
        Answered::NoMemory => Status::NoMemory,
    }
}

/// What the words of a run ask of one file.
pub trait FileTask: Drop {
    /// What is asked, as clauses see it.
    ghost Asked: { Type 0 };

    /// Why there may be no answer.
    ghost Cause: { Type 0 };

    /// What becomes of what is asked: the file that is read, why there is no answer over its text, the bytes that are due.
    ghost work: { Work Asked Cause };

    /// What this asks.
    ghost asked: { Self → Asked };

    /// The name of the file.
    fn file(&self) -> &str
        ensures { result.now ≡ work.file (asked self.now) };

    /// What is due over the text of the file, which has at most 16,777,216 bytes.
    ///
    /// # Errors
    ///
    /// `AllocError` where memory runs out.
    fn respond(
        &self,
        alloc: Global,
        parser: &LineParser,
        source: &[u8],
    ) -> Result<Response, AllocError>
        requires { length source.now ≤ LIMIT }
        ensures { IsResponse (work.cause (asked self.now) source.now) (work.due (asked self.now) source.now) result };
}

/// What answers a task over the text of its file. It has no requests.
#[derive(Drop)]
struct TaskAnswers<'p, T> {
    parser: &'p LineParser,
    task: &'p T,
}

impl<'p, T: FileTask> TextAnswers for TaskAnswers<'p, T> {
    ghost use Rattle.std.specs.Prelude.{Some};
    ghost use Rattle.zone_source.specs.{EndLaws.{asked_ends_well}, Runs.{writes_asked}};

    ghost writes = { λ answers. writes_asked T.work (Some (T.asked answers.task.now)) };

    fn respond<O: Sink>(
        &self,
        alloc: Global,
        text: &[u8],
        _requests: &[u8],
        output: &mut O,
    ) -> Answered {
        match self.task.respond(alloc, self.parser, text) {
            Ok(Response::Answer(bytes)) => match write_all(output, &bytes) {
                Ok(()) => Answered::Done,
                Err(_) => Answered::Failed,
            },
            Ok(Response::Fault(line)) => match write_all(output, &line) {
                Ok(()) => Answered::Fault,
                Err(_) => Answered::Failed,
            },
            Err(_) => Answered::NoMemory,
        }
    }

    ghost ends_well = { λ answers. asked_ends_well T.work (T.asked answers.task.now) };
}

/// Writes what is due for a task, or the line of the first cause; `None` stands for words that are in no form.
///
/// It is a run over the shelf's text and an input that holds nothing, in this order: the words; the shelf's text to its end; the
/// answer; the writing. What each status says is told field by field by `EndsOf`.
pub fn run_task<T: FileTask, H: Shelf, O: Sink>(
    alloc: Global,
    parser: &LineParser,
    task: Option<T>,
    shelf: &mut H,
    output: &mut O,
) -> Status
    requires { ForSome (option_map T.asked task) (λ asked. H.open_to shelf.old (T.work.file asked)) }
    ensures { EndsOf T.work (option_map T.asked task)
        (seen H.Source O.Sink shelf.old output.old) (seen H.Source O.Sink shelf.new output.new) result }
{
    let Some(task) = task else {
        return Status::Words;
    };
    let answers = TaskAnswers {
        parser,
        task: &task,
    };
    run_over(alloc, &answers, task.file(), shelf, &mut NoInput, output)
}

/// A run over objects that never fail. It ends neither for a failed read nor for a failed write: by the words, the cause
/// and the length alone, or for want of memory.
pub fn run_task_surely<T: FileTask>(
    alloc: Global,
    parser: &LineParser,
    task: Option<T>,
    shelf: &mut SureShelf,
    output: &mut SureSink,
) -> Status
    ensures { EndsSurely T.work (option_map T.asked task) shelf.old.bytes result }
{
    run_task::<T, SureShelf, SureSink>(alloc, parser, task, shelf, output)
}
