//! The answers to two texts, written to an output.
ghost use Rattle.std.specs.Prelude.{◌≤◌, length};
ghost use Rattle.zone_outside.specs.Seen.{output_seen};
ghost use Rattle.zone_source.specs.Responses.{Responds};
ghost use Rattle.zone_file_answers.specs.Responses.{RespondsFault, writes};

use crate::answering::answers;
use crate::fault::{FileFault, line_of};
use std::alloc::Global;
use zone_source::{Answered, LIMIT, Sink, TextAnswers, write_all};

/// The answers to requests over a compiled file.
#[derive(Drop)]
pub(crate) struct FileAnswers;

impl TextAnswers for FileAnswers {
    ghost use Rattle.zone_file_answers.specs.Responses.{writes};
    ghost use Rattle.zone_file_answers.specs.EndLaws as laws;

    ghost writes = { λ _. writes };

    fn respond<O: Sink>(
        &self,
        alloc: Global,
        file: &[u8],
        requests: &[u8],
        output: &mut O,
    ) -> Answered {
        respond(alloc, file, requests, output)
    }

    ghost ends_well = { λ _. laws.ends_well };
}

/// Answers the requests over the file, and writes the lines or the first fault.
fn respond<O: Sink>(alloc: Global, file: &[u8], requests: &[u8], output: &mut O) -> Answered
    requires { length requests.now ≤ LIMIT }
    ensures { Responds writes file.now requests.now (output_seen O.Sink output.old) (output_seen O.Sink output.new) result }
{
    match answers(alloc, file, requests) {
        Ok(lines) => match write_all(output, lines.as_bytes()) {
            Ok(()) => Answered::Done,
            Err(_) => Answered::Failed,
        },
        Err(fault) => write_fault(alloc, fault, output),
    }
}

/// Writes the line of the fault, if it tells one.
fn write_fault<O: Sink>(alloc: Global, fault: FileFault, output: &mut O) -> Answered
    ensures { RespondsFault fault (output_seen O.Sink output.old) (output_seen O.Sink output.new) result }
{
    let Ok(line) = line_of(alloc, fault) else {
        return Answered::NoMemory;
    };
    match write_all(output, &line) {
        Ok(()) => Answered::Fault,
        Err(_) => Answered::Failed,
    }
}
