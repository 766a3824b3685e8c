//! Runs over objects that never fail: texts past the limit, made texts, and a task of one's own.

use crate::checks::holds;
use crate::fixtures::parser;
use crate::objects::words_of;
use std::alloc::{AllocError, Global};
use std::process::Abort;
use zone_answers::{SureShelf, SureSink, SureSource, run_surely};
use zone_line::LineParser;
use zone_source::{FileTask, Response, run_task_surely};

fn spaces(rt: &impl Abort, alloc: Global, count: usize) -> Vec<u8> {
    vec![in alloc; b' '; count].expect(rt, "memory")
}

/// How a run over so many spaces as source and as requests ends.
fn code_of(
    rt: &impl Abort,
    alloc: Global,
    parser: &LineParser,
    words: &str,
    source: usize,
    requests: usize,
) -> u8 {
    let words = words_of(rt, alloc, words);
    let mut shelf = SureShelf::new(spaces(rt, alloc, source));
    let mut input = SureSource::new(spaces(rt, alloc, requests));
    let mut output = SureSink::new();
    run_surely(alloc, parser, &words, &mut shelf, &mut input, &mut output).code()
}

fn expect_codes(rt: &impl Abort, alloc: Global, parser: &LineParser) {
    let at_limit = code_of(rt, alloc, parser, "any", 16_777_216, 0);
    holds(rt, "source", at_limit == 0);
    let past = code_of(rt, alloc, parser, "any", 16_777_217, 0);
    holds(rt, "long source", past == 6);
    let past = code_of(rt, alloc, parser, "any", 0, 16_777_217);
    holds(rt, "long requests", past == 6);
    let made = code_of(rt, alloc, parser, "--generate 12", 0, 0);
    holds(rt, "made texts", made == 0);
}

/// Writes what the file holds.
#[derive(Drop)]
struct Copied<'w> {
    file: &'w str,
}

impl FileTask for Copied<'_> {
    ghost use Rattle.std.specs.Prelude.{ℕ, List, None};

    ghost Asked = { List ℕ };

    ghost Cause = { ℕ };

    ghost work = { record { file = λ name. name; cause = λ _ _. None; due = λ _ text. text } };

    ghost asked = { λ task. task.file.now };

    fn file(&self) -> &str {
        self.file
    }

    fn respond(
        &self,
        alloc: Global,
        _parser: &LineParser,
        source: &[u8],
    ) -> Result<Response, AllocError> {
        let mut bytes = Vec::new(alloc);
        bytes.extend_from_slice(source)?;
        Ok(Response::Answer(bytes))
    }
}

/// How a run of that task ends.
fn code_of_task(rt: &impl Abort, alloc: Global, parser: &LineParser) -> u8 {
    let mut shelf = SureShelf::new(spaces(rt, alloc, 3));
    let task = Some(Copied { file: "any" });
    run_task_surely(alloc, parser, task, &mut shelf, &mut SureSink::new()).code()
}

#[test]
fn texts_past_the_limit_made_texts_and_a_task(rt: HostRuntime) {
    let parser = parser(&rt, rt.alloc());
    expect_codes(&rt, rt.alloc(), &parser);
    let code = code_of_task(&rt, rt.alloc(), &parser);
    holds(&rt, "a task of one's own", code == 0);
}
