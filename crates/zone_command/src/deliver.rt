//! What is written.
ghost use Rattle.std.specs.Prelude.{◌⊎◌};
ghost use Rattle.zone_command.specs.{Ends.{IsEnded, IsFailed, IsTold, IsWritten}, FailureShown.{failure_shown}, Failures.{no_memory}};
ghost use Rattle.zone_outside.specs.Seen.{output_seen};

use crate::failure::{Failure, line_at, line_of, status_at, status_of};
use std::alloc::Global;
use zone_outside::{Exchange, send_all};
use zone_source::{Sink, Status, write_all};
use zone_words::StreamEnd;

/// Writes an answer.
pub(crate) fn write_out<X: Exchange>(exchange: &mut X, bytes: &[u8]) -> Status
    ensures { IsWritten (X.seen exchange.old) (X.seen exchange.new) bytes.now result }
{
    match send_all(exchange, bytes) {
        Ok(()) => Status::Done,
        Err(_) => Status::Write,
    }
}

/// Tells a line. Where that fails nothing better can be told.
fn tell<E: Sink>(errors: &mut E, line: &[u8])
    ensures { IsTold (output_seen E.Sink errors.old) (output_seen E.Sink errors.new) line.now }
{
    match write_all(errors, line) {
        Ok(()) => {}
        Err(_) => {}
    }
}

/// Tells how answering what came in ended.
pub(crate) fn tell_end<E: Sink>(end: StreamEnd, errors: &mut E) -> Status
    ensures { IsEnded (output_seen E.Sink errors.old) (output_seen E.Sink errors.new) end result }
{
    tell(errors, line_at(end).as_bytes());
    status_at(end)
}

/// Tells that memory ran out.
#[tactic(auto, unfolding(crate::specs::Failures::errors_of))]
fn tell_shortage<E: Sink>(errors: &mut E) -> Status
    ensures { IsFailed (output_seen E.Sink errors.old) (output_seen E.Sink errors.new) no_memory result }
{
    tell(errors, b"zone: out of memory\n");
    Status::NoMemory
}

/// Tells a failure, or that memory ran out.
pub(crate) fn tell_failure<E: Sink>(alloc: Global, failure: &Failure<'_>, errors: &mut E) -> Status
    ensures { IsFailed (output_seen E.Sink errors.old) (output_seen E.Sink errors.new) (failure_shown failure.now) result
        ⊎ IsFailed (output_seen E.Sink errors.old) (output_seen E.Sink errors.new) no_memory result }
{
    match line_of(alloc, failure) {
        Ok(line) => {
            tell(errors, &line);
            status_of(failure)
        }
        Err(_) => tell_shortage(errors),
    }
}
