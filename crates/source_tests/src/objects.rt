//! Runs of each program over a shelf, an input and an output in memory.
ghost use Rattle.std.specs.Prelude.{◌<◌};

use crate::fixtures::FIXED;
use std::alloc::Global;
use std::process::Abort;
use zone_alarm::run_alarm;
use zone_answers::{MemShelf, MemSink, MemSource, Status, run};
use zone_line::LineParser;
use zone_list::run_list;
use zone_tail::run_tail;
use zone_tzif::run_tzif;

/// How many bytes each output takes.
const ROOM: usize = 4096;

/// The call of each object that fails; none has the number 0.
#[derive(Clone, Copy)]
pub(crate) struct Failing {
    pub(crate) shelf: u64,
    pub(crate) input: u64,
    pub(crate) output: u64,
}

pub(crate) const NONE_FAILING: Failing = Failing {
    shelf: 0,
    input: 0,
    output: 0,
};

/// What a run is over: a program with its words, the source in the file `zones`, and the requests.
#[derive(Clone, Copy)]
pub(crate) struct Given<'a> {
    pub(crate) words: &'a str,
    pub(crate) source: &'a [u8],
    pub(crate) requests: &'a [u8],
}

/// A run over one zone and one request.
pub(crate) const ONE_REQUEST: Given<'static> = Given {
    words: "answers zones",
    source: FIXED,
    requests: b"at Test/Fixed 0",
};

/// How a run ended, and what it wrote.
#[derive(Drop)]
pub(crate) struct Outcome {
    pub(crate) status: Status,
    pub(crate) sink: MemSink,
}

impl Outcome {
    /// Whether a run ended with that status and wrote those bytes.
    pub(crate) fn is(&self, code: u8, output: &[u8]) -> bool {
        (self.status.code() == code) & (self.sink.taken() == output)
    }
}

/// The words between spaces.
pub(crate) fn words_of(rt: &impl Abort, alloc: Global, text: &str) -> Vec<String> {
    let mut words = Vec::new(alloc);
    for word in text.split_whitespace() {
        let word = String::from_str(alloc, word).expect(rt, "memory");
        words.push(word).expect(rt, "memory");
    }
    words
}

fn call(rt: &impl Abort, alloc: Global, number: u64) -> Vec<u64> {
    [number].to_vec(alloc).expect(rt, "memory")
}

/// A shelf of the one file `zones`.
fn shelf_of(rt: &impl Abort, alloc: Global, source: &[u8], step: usize, failing: u64) -> MemShelf
    requires { 0 < step }
{
    let name = String::from_str(alloc, "zones").expect(rt, "memory");
    let text = source.to_vec(alloc).expect(rt, "memory");
    let mut files = Vec::new(alloc);
    files.push((name, text)).expect(rt, "memory");
    MemShelf::new(files, step, call(rt, alloc, failing))
}

/// How the program of that name ends.
fn ended(
    alloc: Global,
    parser: &LineParser,
    program: &str,
    words: &[String],
    shelf: &mut MemShelf,
    input: &mut MemSource,
    sink: &mut MemSink,
) -> Status {
    match program {
        "alarm" => run_alarm(alloc, parser, words, shelf, sink),
        "list" => run_list(alloc, parser, words, shelf, sink),
        "tail" => run_tail(alloc, parser, words, shelf, sink),
        "tzif" => run_tzif(alloc, parser, words, shelf, sink),
        _ => run(alloc, parser, words, shelf, input, sink),
    }
}

/// An input of these requests.
fn input_of(rt: &impl Abort, alloc: Global, requests: &[u8], step: usize, failing: u64) -> MemSource
    requires { 0 < step }
{
    let requests = requests.to_vec(alloc).expect(rt, "memory");
    MemSource::new(requests, step, call(rt, alloc, failing))
}

fn sink_of(rt: &impl Abort, alloc: Global, step: usize, failing: u64) -> MemSink
    requires { 0 < step }
{
    MemSink::new(alloc, ROOM, step, call(rt, alloc, failing)).expect(rt, "memory")
}

/// Runs a program with all objects moving at most a step at a time.
pub(crate) fn run_over(
    rt: &impl Abort,
    alloc: Global,
    parser: &LineParser,
    given: &Given<'_>,
    step: usize,
    failing: &Failing,
) -> Outcome
    requires { 0 < step }
{
    let (program, words) = given.words.split_once(' ').unwrap_or((given.words, ""));
    let words = words_of(rt, alloc, words);
    let mut shelf = shelf_of(rt, alloc, given.source, step, failing.shelf);
    let mut input = input_of(rt, alloc, given.requests, step, failing.input);
    let mut sink = sink_of(rt, alloc, step, failing.output);
    let status = ended(
        alloc, parser, program, &words, &mut shelf, &mut input, &mut sink,
    );
    Outcome { status, sink }
}
