//! A zone as a whole: the string that carries it on, and its file.
ghost use Rattle.std.specs.Prelude.{◌≡◌};
ghost use Rattle.sefunjaro_c.specs.{Faults.{plain}, Whole.{tzif_told, none_for, tail_told, IsFileTold, IsTailTold}, Opened.{StaysLent}, Held.{OfKept, OfZone, OnZone}, Statuses.{not_kept, not_open, IfRefused}};

use crate::fault::{DONE, Fault, NO_MEMORY, NONE_THERE, NOT_KEPT, NOT_OPEN, plain_fault};
use crate::opened::Opened;
use crate::view::View;
use sefunjaro::{OpenZone, Origin, fill, has_posix_names};
use std::alloc::Global;
use zone_tail::TailFault;
use zone_tzif::FileFault;

/// The POSIX TZ string that carries a zone on. It goes into the room, as far as it fits, and its whole length is told, with whether
/// POSIX has a place for the names in it.
#[unsafe(no_mangle)]
pub extern "C" fn sefunjaro_tail_by(
    alloc: Global,
    zone: &mut View,
    text: &mut [u8],
    whole: &mut usize,
    is_posix: &mut bool,
    fault: &mut Fault,
) -> u32
    ensures lent { StaysLent zone.old zone.new }
    ensures status { result ≡ fault.new.status }
    ensures answer { OnZone zone.old.part.opened result ((text.new ≡ text.old) × (fault.new ≡ plain not_open))
        (λ held. OfKept held result ((text.new ≡ text.old) × (fault.new ≡ plain not_kept)) (λ zone. IsTailTold zone text.old text.new whole.new is_posix.new fault.new)) }
    ensures kept { IfRefused result ((text.new ≡ text.old) × ((whole.new ≡ whole.old) × (is_posix.new ≡ is_posix.old))) }
{
    let Some(reading) = zone.take() else {
        *fault = plain_fault(NOT_OPEN);
        return NOT_OPEN;
    };
    let told = tail_in(alloc, reading.get(), text, whole, is_posix);
    zone.put(reading);
    *fault = told;
    told.status
}

fn tail_in(
    alloc: Global,
    opened: &Opened,
    text: &mut [u8],
    whole: &mut usize,
    is_posix: &mut bool,
) -> Fault
    ensures answer { OfZone opened.now result.status ((text.new ≡ text.old) × (result ≡ plain not_open))
        (λ held. OfKept held result.status ((text.new ≡ text.old) × (result ≡ plain not_kept)) (λ zone. IsTailTold zone text.old text.new whole.new is_posix.new result)) }
    ensures kept { IfRefused result.status ((text.new ≡ text.old) × ((whole.new ≡ whole.old) × (is_posix.new ≡ is_posix.old))) }
{
    let Opened::Zone(zone) = opened else {
        return plain_fault(NOT_OPEN);
    };
    match zone.origin() {
        Origin::Source => tail_of(alloc, zone, text, whole, is_posix),
        Origin::File => plain_fault(NOT_KEPT),
    }
}

fn tail_of(
    alloc: Global,
    zone: &OpenZone,
    text: &mut [u8],
    whole: &mut usize,
    is_posix: &mut bool,
) -> Fault
    ensures answer { IsTailTold zone.now text.old text.new whole.new is_posix.new result }
    ensures kept { IfRefused result.status ((text.new ≡ text.old) × ((whole.new ≡ whole.old) × (is_posix.new ≡ is_posix.old))) }
{
    match zone.tail(alloc) {
        Ok(tail) => {
            *whole = fill(tail.text.as_bytes(), text);
            *is_posix = has_posix_names(tail.text.as_str());
            plain_fault(DONE)
        }
        Err(fault) => tail_fault(fault),
    }
}

/// Why a zone has no string.
fn tail_fault(fault: TailFault) -> Fault
    ensures { result ≡ tail_told fault }
{
    match fault {
        TailFault::Shape => none_for(1),
        TailFault::OffsetRange => none_for(2),
        TailFault::Name => none_for(3),
        TailFault::NoMemory => plain_fault(NO_MEMORY),
    }
}

/// A zone's TZif file. It goes into the room, as far as it fits, and its whole length is told.
#[unsafe(no_mangle)]
pub extern "C" fn sefunjaro_tzif_by(
    alloc: Global,
    zone: &mut View,
    file: &mut [u8],
    whole: &mut usize,
    fault: &mut Fault,
) -> u32
    ensures lent { StaysLent zone.old zone.new }
    ensures status { result ≡ fault.new.status }
    ensures answer { OnZone zone.old.part.opened result ((file.new ≡ file.old) × (fault.new ≡ plain not_open))
        (λ held. OfKept held result ((file.new ≡ file.old) × (fault.new ≡ plain not_kept)) (λ zone. IsFileTold zone file.old file.new whole.new fault.new)) }
    ensures kept { IfRefused result ((file.new ≡ file.old) × (whole.new ≡ whole.old)) }
{
    let Some(reading) = zone.take() else {
        *fault = plain_fault(NOT_OPEN);
        return NOT_OPEN;
    };
    let told = file_in(alloc, reading.get(), file, whole);
    zone.put(reading);
    *fault = told;
    told.status
}

fn file_in(alloc: Global, opened: &Opened, file: &mut [u8], whole: &mut usize) -> Fault
    ensures answer { OfZone opened.now result.status ((file.new ≡ file.old) × (result ≡ plain not_open))
        (λ held. OfKept held result.status ((file.new ≡ file.old) × (result ≡ plain not_kept)) (λ zone. IsFileTold zone file.old file.new whole.new result)) }
    ensures kept { IfRefused result.status ((file.new ≡ file.old) × (whole.new ≡ whole.old)) }
{
    let Opened::Zone(zone) = opened else {
        return plain_fault(NOT_OPEN);
    };
    match zone.origin() {
        Origin::Source => file_of(alloc, zone, file, whole),
        Origin::File => plain_fault(NOT_KEPT),
    }
}

fn file_of(alloc: Global, zone: &OpenZone, file: &mut [u8], whole: &mut usize) -> Fault
    ensures answer { IsFileTold zone.now file.old file.new whole.new result }
    ensures kept { IfRefused result.status ((file.new ≡ file.old) × (whole.new ≡ whole.old)) }
{
    match zone.tzif(alloc) {
        Ok(written) => {
            *whole = fill(written.as_slice(), file);
            plain_fault(DONE)
        }
        Err(fault) => file_fault(fault),
    }
}

/// Why a zone has no file.
fn file_fault(fault: FileFault) -> Fault
    ensures { result ≡ tzif_told fault }
{
    match fault {
        FileFault::Times => none_for(1),
        FileFault::Types => none_for(2),
        FileFault::Names => none_for(3),
        FileFault::NoMemory => plain_fault(NO_MEMORY),
    }
}

/// There is none, for that cause.
pub(crate) fn none_for(cause: u32) -> Fault
    ensures { result ≡ none_for cause }
{
    Fault {
        status: NONE_THERE,
        cause,
        line: 0,
    }
}
