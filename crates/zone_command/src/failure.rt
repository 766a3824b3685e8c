//! Why a run has no answer.
ghost use Rattle.std.specs.Prelude.{◌≡◌, IfOk};
ghost use Rattle.zone_command.specs.{Failures.{errors_at, errors_of, status_at, status_of}, FailureShown.{failure_shown}};

use crate::line::named_line;
use std::alloc::{AllocError, Global};
use zone_source::Status;
use zone_words::{StreamEnd, WordFault, fault_line};

/// Why a run has no answer.
#[derive(Drop)]
pub enum Failure<'w> {
    /// The line that tells why there is none over the source.
    Refuses(Vec<u8>),
    /// The words ask nothing.
    BadWords(WordFault<'w>),
    /// The clock failed.
    Clock,
    /// The environment failed.
    Environment,
    /// The file of that name can't be read.
    File(String),
    /// The file of that name is too long.
    Long(String),
    /// Memory ran out.
    NoMemory,
}

impl From<AllocError> for Failure<'_> {
    ghost use Rattle.std.specs.Prelude.{◌≡◌};
    ghost use Rattle.zone_command.specs.declared.failure.Failure.TheVariants.{NoMemory};

    ghost from_gives = { λ _ failure. failure ≡ NoMemory };

    fn from(_: AllocError) -> Self {
        Failure::NoMemory
    }
}

/// The line that tells it.
#[tactic(auto, unfolding(crate::specs::Failures::errors_of))]
pub(crate) fn line_of(alloc: Global, failure: &Failure<'_>) -> Result<Vec<u8>, AllocError>
    ensures { IfOk result (λ line. line.items ≡ errors_of (failure_shown failure.now)) }
{
    match failure {
        Failure::Refuses(line) => line.as_slice().to_vec(alloc),
        Failure::BadWords(fault) => fault_line(alloc, fault),
        Failure::Clock => b"zone: the clock can't be read\n".to_vec(alloc),
        Failure::Environment => {
            b"zone: the value of SEFUNJARO_TZDATA can't be read\n".to_vec(alloc)
        }
        Failure::File(file) => named_line(alloc, file.as_str(), b"this file can't be read"),
        Failure::Long(file) => named_line(
            alloc,
            file.as_str(),
            b"this file has more than 16,777,216 bytes",
        ),
        Failure::NoMemory => Err(AllocError),
    }
}

/// The status of it.
pub(crate) fn status_of(failure: &Failure<'_>) -> Status
    ensures { result ≡ status_of (failure_shown failure.now) }
{
    match failure {
        Failure::Refuses(_) => Status::Fault,
        Failure::BadWords(fault) => {
            if fault.cause.is_of_time() {
                Status::Fault
            } else {
                Status::Words
            }
        }
        Failure::Clock => Status::Read,
        Failure::Environment => Status::Read,
        Failure::File(_) => Status::Read,
        Failure::Long(_) => Status::TooLong,
        Failure::NoMemory => Status::NoMemory,
    }
}

/// What is told of how answering what came in ended.
#[tactic(auto, unfolding(crate::specs::Failures::errors_at))]
pub(crate) fn line_at(end: StreamEnd) -> &'static str
    ensures { result.now ≡ errors_at end }
{
    match end {
        StreamEnd::Read => "zone: standard input can't be read\n",
        StreamEnd::NoMemory => "zone: out of memory\n",
        StreamEnd::TooLong => "zone: standard input is too long\n",
        StreamEnd::Done => "",
        StreamEnd::Fault => "",
        StreamEnd::Write => "",
    }
}

/// The status of that.
pub(crate) fn status_at(end: StreamEnd) -> Status
    ensures { result ≡ status_at end }
{
    match end {
        StreamEnd::Done => Status::Done,
        StreamEnd::Fault => Status::Fault,
        StreamEnd::Read => Status::Read,
        StreamEnd::Write => Status::Write,
        StreamEnd::NoMemory => Status::NoMemory,
        StreamEnd::TooLong => Status::TooLong,
    }
}
