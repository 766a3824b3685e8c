//! How a program begins: the words after its own name, a parser, the real files and streams.
ghost use Rattle.std.specs.Prelude.{◌≡◌, ℕ, List, MatchOption};
ghost use Rattle.zone_source.specs.{Starts.{HasNoParser, HasNoWords, HasRun, Run, Starts, StartsBare, Words, exit_of, words_after}, Runs.{run_seen}};

use crate::running::Status;
use std::alloc::Global;
use std::env;
use std::process::{ExitCode, Termination};
use zone_line::LineParser;
use zone_outside::{FileShelf, Shelf, Sink, Source, StdSink, StdSource};

/// The words after the program's own name couldn't be taken.
const NO_WORDS: u8 = 7;

/// The parser couldn't be built.
const NOT_BUILT: u8 = 8;

/// How a program ended that was started. Only a start makes one, so a `main` that gives it ended as its clauses say.
#[derive(Drop)]
pub struct Started {
    code: ExitCode,
}

impl Termination for Started {
    ghost use Rattle.std.specs.{Prelude.{◌≡◌}, Process.{exit_status}};
    ghost use Rattle.zone_source.specs.Starts.{exit_of};

    fn report<R: Eprint>(self, _rt: &R) -> ExitCode
        ensures { exit_status result ≡ exit_of self }
    {
        self.code
    }
}

/// A program that reads source text: what it makes of its words, over whatever shelf, input and output.
pub trait SourceProgram {
    /// How its run ends.
    ghost ends: { Run };

    /// Its run with these words, which are those after the program's own name.
    fn run<H: Shelf, I: Source, O: Sink>(
        alloc: Global,
        parser: &LineParser,
        words: &[String],
        shelf: &mut H,
        input: &mut I,
        output: &mut O,
    ) -> Status
        requires { (name : List ℕ) → H.open_to shelf.old name }
        ensures { ends words.now
            (run_seen H.Source I.Source O.Sink shelf.old input.old output.old)
            (run_seen H.Source I.Source O.Sink shelf.new input.new output.new) result };
}

/// A program without a parser: what it makes of its words, over whatever shelf, input and output.
pub trait BareProgram {
    /// How its run ends.
    ghost ends: { Run };

    /// Its run with these words, which are those after the program's own name.
    fn run<H: Shelf, I: Source, O: Sink>(
        alloc: Global,
        words: &[String],
        shelf: &mut H,
        input: &mut I,
        output: &mut O,
    ) -> Status
        requires { (name : List ℕ) → H.open_to shelf.old name }
        ensures { ends words.now
            (run_seen H.Source I.Source O.Sink shelf.old input.old output.old)
            (run_seen H.Source I.Source O.Sink shelf.new input.new output.new) result };
}

/// The whole of a program that reads source text. The exit status is that of the run; before it come 7, where the words can't be
/// taken, and 8, where the parser can't be built.
pub fn start_source_run<P: SourceProgram>(rt: HostRuntime) -> Started
    ensures { Starts P.ends result }
{
    let taken = all_words(&rt);
    let parser = program_parser(&rt);
    run_source::<P>(rt, &taken, &parser)
}

/// The whole of a program without a parser. The exit status is that of the run; before it comes 7, where the words can't be taken.
pub fn start_run<P: BareProgram>(rt: HostRuntime) -> Started
    ensures { StartsBare P.ends result }
{
    let taken = all_words(&rt);
    run_bare::<P>(rt, &taken)
}

/// What becomes of all words and of the parser.
fn run_source<P: SourceProgram>(
    rt: HostRuntime,
    taken: &Option<Vec<String>>,
    parser: &Option<LineParser>,
) -> Started
    ensures { MatchOption taken.now (HasNoWords result) (λ all. MatchOption parser.now (HasNoParser result) (λ _. HasRun P.ends (words_after all.items) result)) }
{
    let Some(all) = taken else {
        return ended_by(NO_WORDS);
    };
    let Some(parser) = parser else {
        return ended_by(NOT_BUILT);
    };
    let mut shelf = FileShelf::new(rt);
    let mut input = StdSource::new(rt.reader());
    let mut output = StdSink::new(rt);
    let status = P::run(
        rt.alloc(),
        parser,
        after_name(all),
        &mut shelf,
        &mut input,
        &mut output,
    );
    ended_by(status.code())
}

/// What becomes of all words.
fn run_bare<P: BareProgram>(rt: HostRuntime, taken: &Option<Vec<String>>) -> Started
    ensures { MatchOption taken.now (HasNoWords result) (λ all. HasRun P.ends (words_after all.items) result) }
{
    let Some(all) = taken else {
        return ended_by(NO_WORDS);
    };
    let mut shelf = FileShelf::new(rt);
    let mut input = StdSource::new(rt.reader());
    let mut output = StdSink::new(rt);
    let status = P::run(
        rt.alloc(),
        after_name(all),
        &mut shelf,
        &mut input,
        &mut output,
    );
    ended_by(status.code())
}

/// A program that ends with this exit status.
fn ended_by(status: u8) -> Started
    ensures { exit_of result ≡ status }
{
    Started {
        code: ExitCode::from(status),
    }
}

/// The words after the first one, which is the program's own name.
pub fn after_name(all: &[String]) -> &[String]
    ensures { result.now ≡ words_after all.now }
{
    match all {
        [_, words @ ..] => words,
        [] => &[],
    }
}

/// All words of the process, or none, where they can't be taken from the system or memory runs out.
pub fn all_words(rt: &HostRuntime) -> Option<Vec<String>> {
    let Ok(words) = env::args(rt) else {
        return None;
    };
    match words.collect(rt.alloc()) {
        Ok(words) => Some(words),
        Err(_) => None,
    }
}

/// The parser of a program's lines, or none, where it can't be built.
fn program_parser(rt: &HostRuntime) -> Option<LineParser> {
    match LineParser::new(rt.alloc()) {
        Ok(parser) => Some(parser),
        Err(_) => None,
    }
}
