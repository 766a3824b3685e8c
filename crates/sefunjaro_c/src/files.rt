//! Zones that are opened from the bytes of a compiled file, or from a POSIX string.
ghost use Rattle.std.specs.Prelude.{◌≡◌, IfErr, IfOk, IfSome, MatchOption, is_some, nat_eq};
ghost use Rattle.sefunjaro_c.specs.{Faults.{plain}, Files.{file_told, posix_told, IsFileRefused, IsPosixRefused, IsTextOf}, Held.{IsZone}, Statuses.{done}};
ghost use Rattle.sefunjaro.specs.Files.{IsFileOf};

use crate::fault::{DONE, Fault, NO_MEMORY, NOT_READ, NOT_TEXT, plain_fault};
use crate::handle::Handle;
use crate::opened::Opened;
use sefunjaro::{FileFault, OpenZone, PosixFault};
use std::alloc::Global;
use zone_source::text_of;

/// Opens the zone of a compiled file from its bytes. What the handle held before is closed.
#[unsafe(no_mangle)]
pub extern "C" fn sefunjaro_file_open(
    alloc: Global,
    bytes: &[u8],
    zone: &mut Handle,
    fault: &mut Fault,
) -> u32
    ensures status { result ≡ fault.new.status }
    ensures opened { is_some zone.new.held.opened ≡ nat_eq result 0 }
    ensures done { IfSome zone.new.held.opened (λ _. fault.new ≡ plain done) }
    ensures answer { MatchOption zone.new.held.opened (IsFileRefused bytes.now fault.new) (IsZone (IsFileOf bytes.now)) }
{
    drop(zone.take(alloc));
    match open_file(alloc, bytes) {
        Ok(opened) => {
            zone.put(alloc, opened);
            *fault = plain_fault(DONE);
            DONE
        }
        Err(told) => {
            *fault = told;
            told.status
        }
    }
}

/// The zone of a compiled file, on the heap.
fn open_file(alloc: Global, bytes: &[u8]) -> Result<Box<Opened>, Fault>
    ensures ok { IfOk result (λ opened. IsZone (IsFileOf bytes.now) opened.value) }
    ensures err { IfErr result (IsFileRefused bytes.now) }
{
    match OpenZone::of_file(alloc, bytes) {
        Ok(zone) => match Opened::zone(alloc, zone) {
            Ok(opened) => Ok(opened),
            Err(_) => Err(file_fault(FileFault::NoMemory)),
        },
        Err(fault) => Err(file_fault(fault)),
    }
}

/// Why a file gives no zone.
fn file_fault(fault: FileFault) -> Fault
    ensures { result ≡ file_told fault }
{
    match fault {
        FileFault::Refused => unread(1),
        FileFault::Footer => unread(2),
        FileFault::NoMemory => plain_fault(NO_MEMORY),
    }
}

/// The file isn't read, for a cause.
fn unread(cause: u32) -> Fault
    ensures { result ≡ record { status = 12; cause = cause; line = 0 } }
{
    Fault {
        status: NOT_READ,
        cause,
        line: 0,
    }
}

/// Opens a POSIX string as a zone. What the handle held before is closed.
#[unsafe(no_mangle)]
pub extern "C" fn sefunjaro_posix_open(
    alloc: Global,
    text: &[u8],
    zone: &mut Handle,
    fault: &mut Fault,
) -> u32
    ensures status { result ≡ fault.new.status }
    ensures opened { is_some zone.new.held.opened ≡ nat_eq result 0 }
    ensures done { IfSome zone.new.held.opened (λ _. fault.new ≡ plain done) }
    ensures answer { MatchOption zone.new.held.opened (IsPosixRefused text.now fault.new) (IsZone (IsTextOf text.now)) }
{
    drop(zone.take(alloc));
    match open_posix(alloc, text) {
        Ok(opened) => {
            zone.put(alloc, opened);
            *fault = plain_fault(DONE);
            DONE
        }
        Err(told) => {
            *fault = told;
            told.status
        }
    }
}

/// The zone of a POSIX string, on the heap.
fn open_posix(alloc: Global, text: &[u8]) -> Result<Box<Opened>, Fault>
    ensures ok { IfOk result (λ opened. IsZone (IsTextOf text.now) opened.value) }
    ensures err { IfErr result (IsPosixRefused text.now) }
{
    let Some(text) = text_of(text) else {
        return Err(plain_fault(NOT_TEXT));
    };
    match OpenZone::of_posix(alloc, text) {
        Ok(zone) => match Opened::zone(alloc, zone) {
            Ok(opened) => Ok(opened),
            Err(_) => Err(posix_fault(PosixFault::NoMemory)),
        },
        Err(fault) => Err(posix_fault(fault)),
    }
}

/// Why a POSIX string gives no zone.
fn posix_fault(fault: PosixFault) -> Fault
    ensures { result ≡ posix_told fault }
{
    match fault {
        PosixFault::Refused => plain_fault(NOT_READ),
        PosixFault::NoMemory => plain_fault(NO_MEMORY),
    }
}
