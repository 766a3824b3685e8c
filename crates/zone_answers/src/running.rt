//! What the words of a run ask, the top call, and the whole program.
ghost use Rattle.std.specs.Prelude.{◌≡◌, ◌≢◌, ◌⊎◌, ◌↔◌, ◌<◌, ◌≤◌, ℕ, List, length, IfSome, IsNone, IsSome, Some, IsTrue, option_map};
ghost use Rattle.zone_answers.specs.{Ends.{Ends}, Faults.{fault}, Generated.{Generated, WritesMade, made_fault}, Words.{count_of, file_of, task_of, task_of_two}, Counts.{count_in, is_count}, Starts.{StartsAnswers}};
ghost use Rattle.zone_source.specs.{Runs.{run_seen}, Statuses.{EndsBy, IsPastLimit}};
ghost use Rattle.zone_outside.specs.Seen.{output_seen};

use crate::answering::{Form, SourceAnswers, respond};
use crate::made::{made_requests, made_source};
use itoa::Buffer;
use std::alloc::Global;
use tz_lookup::CompactSet;
use zone_line::LineParser;
use zone_source::{
    Answered, LIMIT, Shelf, Sink, Source, SourceProgram, Started, Status, SureShelf, SureSink,
    SureSource, run_over, start_source_run,
};

/// The word that asks for made texts.
const GENERATE: &str = "--generate";

/// The most zones that may be asked for.
const MOST_ZONES: u64 = 1000;

/// What the words of a run ask.
#[derive(Clone, Copy, Debug, PartialEq)]
pub(crate) enum Task<'a> {
    /// To answer the requests of the input over the file of that name.
    AnswerOver(&'a str),
    /// To answer over the texts made from a number, and to write a summary of the answers.
    Generate(u64),
}

impl<'a> Task<'a> {
    ghost use Rattle.zone_answers.specs.Tasks.{shown_task};

    /// Reads `FILE`, or `--generate N`, N being a number from 1 to 1000 in decimal, without a sign or a leading zero. One
    /// word is the name of a file, whatever it holds.
    pub(crate) fn read(words: &'a [String]) -> Option<Task<'a>>
        ensures { option_map shown_task result ≡ task_of words.now }
    {
        match words {
            [name] => Some(Task::AnswerOver(name.as_str())),
            [option, count] => Task::read_two(option.as_str(), count.as_str()),
            _ => None,
        }
    }

    fn read_two(option: &str, count: &str) -> Option<Task<'a>>
        ensures { option_map shown_task result ≡ task_of_two option.now count.now }
    {
        if option != GENERATE {
            return None;
        }
        Some(Task::Generate(count_of(count)?))
    }
}

/// The number from 1 to 1000 whose decimal text this is.
fn count_of(text: &str) -> Option<u64>
    ensures { result ≡ count_in text.now }
{
    let count = text.parse().ok()?;
    is_count(count, text).then_some(count)
}

/// Whether the number is from 1 to 1000 and the text is its decimal text.
fn is_count(count: u64, text: &str) -> bool
    ensures { result ≡ is_count count text.now }
{
    1 <= count && count <= MOST_ZONES && Buffer::new().format(count) == text
}

/// Answers the requests of the input over the named text of the shelf, and writes the answers, or the first fault, to
/// the output. With the words `--generate` and a number from 1 to 1000 it answers over texts made from the number, touches
/// neither the shelf nor the input, and writes a summary of the answers in place of them.
///
/// It works in this order: the words; the shelf's text to its end; the input's to its end; the answers; the writing.
/// What each status says is told field by field by `Ends`: 0 only on valid input, with exactly one line written for each
/// request, in order; every other status only by its stated cause. `Generated` says the same of a run over made texts.
pub fn run<H: Shelf, I: Source, O: Sink>(
    alloc: Global,
    parser: &LineParser,
    words: &[String],
    shelf: &mut H,
    input: &mut I,
    output: &mut O,
) -> Status
    requires { (name : List ℕ) → file_of (task_of words.now) ≡ Some name → H.open_to shelf.old name }
    ensures ends { Ends (task_of words.now)
        (run_seen H.Source I.Source O.Sink shelf.old input.old output.old)
        (run_seen H.Source I.Source O.Sink shelf.new input.new output.new) result }
    ensures generated { IfSome (count_of (task_of words.now)) (λ count. Generated count
        (run_seen H.Source I.Source O.Sink shelf.old input.old output.old)
        (run_seen H.Source I.Source O.Sink shelf.new input.new output.new) result) }
{
    match Task::read(words) {
        Some(Task::AnswerOver(name)) => {
            let answers = SourceAnswers::<CompactSet>::new(parser);
            run_over(alloc, &answers, name, shelf, input, output)
        }
        Some(Task::Generate(count)) => run_made(alloc, parser, count, output),
        None => Status::Words,
    }
}

/// Answers over the texts made from the number, and writes the summary of the answers, or the first fault.
fn run_made<O: Sink>(alloc: Global, parser: &LineParser, count: u64, output: &mut O) -> Status
    requires { count ≤ 1000 }
    ensures { WritesMade count (output_seen O.Sink output.old) (output_seen O.Sink output.new) result }
{
    let Ok(source) = made_source(alloc, count) else {
        return Status::NoMemory;
    };
    let Ok(requests) = made_requests(alloc, count) else {
        return Status::NoMemory;
    };
    match respond::<CompactSet, O>(alloc, parser, &source, &requests, Form::Summary, output) {
        Answered::Done => Status::Done,
        Answered::Fault => Status::Fault,
        Answered::Failed => Status::Write,
        Answered::NoMemory => Status::NoMemory,
    }
}

/// A run over objects that never fail. It ends neither for a failed read nor for a failed write: by the words, the
/// fault and the lengths alone, or for want of memory.
pub fn run_surely(
    alloc: Global,
    parser: &LineParser,
    words: &[String],
    shelf: &mut SureShelf,
    input: &mut SureSource,
    output: &mut SureSink,
) -> Status
    ensures read { result ≢ Status.Read }
    ensures write { result ≢ Status.Write }
    ensures words { (result ≡ Status.Words) ↔ IsNone (task_of words.now) }
    ensures complete { IsSome (file_of (task_of words.now)) → length shelf.old.bytes ≤ LIMIT → length input.old.left ≤ LIMIT →
        EndsBy (fault shelf.old.bytes input.old.left) result }
    ensures past_limit { IsSome (file_of (task_of words.now)) → (LIMIT < length shelf.old.bytes) ⊎ (LIMIT < length input.old.left) → IsPastLimit result }
    ensures generated { IfSome (count_of (task_of words.now)) (λ count. EndsBy (made_fault count) result) }
{
    run(alloc, parser, words, shelf, input, output)
}

/// The program, as one over source text.
struct AnswersProgram;

impl SourceProgram for AnswersProgram {
    ghost use Rattle.zone_answers.specs.Starts.{answers_run};

    ghost ends = { answers_run };

    fn run<H: Shelf, I: Source, O: Sink>(
        alloc: Global,
        parser: &LineParser,
        words: &[String],
        shelf: &mut H,
        input: &mut I,
        output: &mut O,
    ) -> Status {
        run(alloc, parser, words, shelf, input, output)
    }
}

/// The whole program `zone_answers`: `run` over its words, the files, standard input and standard output. The exit status is that of
/// the run; before it come 7, where the words can't be taken, and 8, where the parser can't be built.
pub fn start(rt: HostRuntime) -> Started
    ensures { StartsAnswers result }
{
    start_source_run::<AnswersProgram>(rt)
}
