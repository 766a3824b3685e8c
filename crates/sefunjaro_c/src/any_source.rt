//! Sources in any form that `zic` reads.
ghost use Rattle.std.specs.Prelude.{◌≡◌, IfErr, IfOk, IfSome, MatchOption, is_some, nat_eq};
ghost use Rattle.sefunjaro_c.specs.{AnySources.{any_due, any_told, plain_number, IsAnySourceOf}, Faults.{plain, IsRefused}, Held.{IsSource}, Statuses.{done}};

use crate::fault::{DONE, Fault, NO_MEMORY, NO_PLAIN_FORM, TOO_LONG, plain_fault, source_fault};
use crate::handle::Handle;
use crate::opened::Opened;
use sefunjaro::{AnySourceFault, OpenSource};
use std::alloc::Global;
use zone_plain_lines::PlainCause;

/// The number of the cause that a plain form would be too long. It stands behind those of lines.
const TOO_LONG_FORM: u32 = 21;

/// Opens a source from its text in any form that `zic` reads. What the handle held before is closed.
#[unsafe(no_mangle)]
pub extern "C" fn sefunjaro_source_open(
    alloc: Global,
    text: &[u8],
    source: &mut Handle,
    fault: &mut Fault,
) -> u32
    ensures status { result ≡ fault.new.status }
    ensures opened { is_some source.new.held.opened ≡ nat_eq result 0 }
    ensures done { IfSome source.new.held.opened (λ _. fault.new ≡ plain done) }
    ensures answer { MatchOption source.new.held.opened (IsRefused (any_due text.now) fault.new) (IsSource (IsAnySourceOf text.now)) }
{
    drop(source.take(alloc));
    match open_any(alloc, text) {
        Ok(opened) => {
            source.put(alloc, opened);
            *fault = plain_fault(DONE);
            DONE
        }
        Err(told) => {
            *fault = told;
            told.status
        }
    }
}

/// A source, on the heap.
fn open_any(alloc: Global, text: &[u8]) -> Result<Box<Opened>, Fault>
    ensures ok { IfOk result (λ opened. IsSource (IsAnySourceOf text.now) opened.value) }
    ensures err { IfErr result (IsRefused (any_due text.now)) }
{
    match OpenSource::open(alloc, text) {
        Ok(source) => match Opened::source(alloc, source) {
            Ok(opened) => Ok(opened),
            Err(_) => Err(plain_fault(NO_MEMORY)),
        },
        Err(fault) => Err(any_fault(&fault)),
    }
}

/// Why a source in any form isn't opened.
fn any_fault(fault: &AnySourceFault) -> Fault
    ensures { result ≡ any_told fault.now }
{
    match fault {
        AnySourceFault::TooLong => plain_fault(TOO_LONG),
        AnySourceFault::Line(line, cause) => Fault {
            status: NO_PLAIN_FORM,
            cause: plain_number(*cause),
            line: *line,
        },
        AnySourceFault::PlainTooLong => Fault {
            status: NO_PLAIN_FORM,
            cause: TOO_LONG_FORM,
            line: 0,
        },
        AnySourceFault::Plain(error) => source_fault(error),
        AnySourceFault::NoMemory => plain_fault(NO_MEMORY),
    }
}

fn plain_number(cause: PlainCause) -> u32
    ensures { result ≡ plain_number cause }
{
    match cause {
        PlainCause::NotText => 1,
        PlainCause::Quotes => 2,
        PlainCause::LineType => 3,
        PlainCause::FieldCount => 4,
        PlainCause::RulesetName => 5,
        PlainCause::Year => 6,
        PlainCause::YearOrder => 7,
        PlainCause::Type => 8,
        PlainCause::Month => 9,
        PlainCause::Day => 10,
        PlainCause::Time => 11,
        PlainCause::Saving => 12,
        PlainCause::Format => 13,
        PlainCause::Unsayable => 14,
        PlainCause::Continuation => 15,
        PlainCause::UnknownRuleset => 16,
        PlainCause::DuplicateZone => 17,
        PlainCause::LinkIsZone => 18,
        PlainCause::DuplicateLink => 19,
        PlainCause::Target => 20,
        PlainCause::Name => 22,
    }
}
