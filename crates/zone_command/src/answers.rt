//! Replies and refusals, told of a name.
ghost use Rattle.std.specs.Prelude.{◌≡◌, IfOk};
ghost use Rattle.zone_command.specs.{Answers.{told, IsAnswer, IsReply}, Replies.{at_fault}, Refusals.{fault_words, name_words, IsTold}};
ghost use Rattle.zone_texts.specs.Faults.{Due};

use crate::line::{fault_words, name_words};
use crate::source::Refusal;
use civil_base::PlainDateTime;
use std::alloc::{AllocError, Global};
use zone_texts::{ReplyFault, ReplyZone, is_untold};

/// Why a name is refused, with the name in front; or want of memory.
pub fn refusal_of(alloc: Global, name: &str, why: &[u8]) -> Refusal
    ensures { IsTold (λ words. words ≡ name_words name.now why.now) result }
{
    match name_words(alloc, name, why) {
        Ok(words) => Refusal::Why(words),
        Err(_) => Refusal::NoMemory,
    }
}

/// What a fault of a reply tells of a name.
fn fault_of(alloc: Global, name: &str, fault: ReplyFault) -> Refusal
    ensures { (due : Due) → IsReply due (Err fault) → IsAnswer (told name.now due) (Err result) }
{
    match fault {
        ReplyFault::OutOfYears => {
            refusal_of(alloc, name, fault_words(ReplyFault::OutOfYears).as_bytes())
        }
        ReplyFault::Untold => refusal_of(alloc, name, fault_words(ReplyFault::Untold).as_bytes()),
        ReplyFault::Skipped => {
            refusal_of(alloc, name, fault_words(ReplyFault::Skipped).as_bytes())
        }
        ReplyFault::NoMemory => Refusal::NoMemory,
    }
}

/// A reply, or its fault, told of a name: an answer.
///
/// # Errors
///
/// The words of the fault, or want of memory.
pub fn told(
    alloc: Global,
    name: &str,
    reply: Result<Vec<u8>, ReplyFault>,
) -> Result<Vec<u8>, Refusal>
    ensures { (due : Due) → IsReply due reply → IsAnswer (told name.now due) result }
{
    match reply {
        Ok(text) => Ok(text),
        Err(fault) => Err(fault_of(alloc, name, fault)),
    }
}

/// The name of the zone whose fault it is that a local time of one isn't told by another.
#[tactic(auto, using(crate::proofs::AnswerLemmas::as_many))]
fn at_fault<'n, F: ReplyZone>(
    alloc: Global,
    from: &F,
    from_name: &'n str,
    to_name: &'n str,
    local: &PlainDateTime,
) -> Result<&'n str, AllocError>
    ensures { IfOk result (λ name. name.now ≡ at_fault (F.view from.now) from_name.now to_name.now local.now) }
{
    let readings = from.instants(alloc, local)?;
    if is_untold(from, local) || readings.is_empty() {
        Ok(from_name)
    } else {
        Ok(to_name)
    }
}

/// A reply about a local time of a zone as another shows it, or its fault, told of the zone whose fault it is.
pub(crate) fn told_between<F: ReplyZone>(
    alloc: Global,
    from: &F,
    from_name: &str,
    to_name: &str,
    local: &PlainDateTime,
    reply: Result<Vec<u8>, ReplyFault>,
) -> Result<Vec<u8>, Refusal>
    ensures { (due : Due) → IsReply due reply → IsAnswer (told (at_fault (F.view from.now) from_name.now to_name.now local.now) due) result }
{
    match reply {
        Ok(text) => Ok(text),
        Err(fault) => {
            let name = at_fault(alloc, from, from_name, to_name, local)?;
            Err(fault_of(alloc, name, fault))
        }
    }
}
