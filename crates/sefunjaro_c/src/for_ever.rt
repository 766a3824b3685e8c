//! A zone for ever as a whole: the string that carries it on, and its file.
ghost use Rattle.std.specs.Prelude.{◌≡◌, Some};
ghost use Rattle.sefunjaro.specs.Zones.{ever_in};
ghost use Rattle.sefunjaro_c.specs.{Faults.{plain}, ForEver.{ever_file_told, ever_tail_told, ever_told, IsEverFileTold, IsEverTailTold}, Opened.{StaysLent}, Held.{OfKept, OfZone, OnZone}, Statuses.{not_kept, not_open, IfRefused}};

use crate::fault::{DONE, Fault, NO_MEMORY, NOT_KEPT, NOT_OPEN, plain_fault};
use crate::opened::Opened;
use crate::view::View;
use crate::whole::none_for;
use sefunjaro::{
    EverFileFault, EverTailFault, OpenZone, Origin, ZoneSet, fill, is_posix_string, tail_for_ever,
    tzif_for_ever,
};
use std::alloc::Global;
use zone_tzif::FileFault;

/// The string that carries a zone on for ever. It goes into the room, as far as it fits, and its whole length is told, with whether it
/// is one of POSIX.
#[unsafe(no_mangle)]
pub extern "C" fn sefunjaro_tail_for_ever_by(
    alloc: Global,
    zone: &mut View,
    text: &mut [u8],
    whole: &mut usize,
    is_posix: &mut bool,
    fault: &mut Fault,
) -> u32
    ensures lent { StaysLent zone.old zone.new }
    ensures status { result ≡ fault.new.status }
    ensures answer { OnZone zone.old.part.opened result ((text.new ≡ text.old) × (fault.new ≡ plain not_open))
        (λ held. OfKept held result ((text.new ≡ text.old) × (fault.new ≡ plain not_kept)) (λ zone. IsEverTailTold (ever_in zone) text.old text.new whole.new is_posix.new fault.new)) }
    ensures kept { IfRefused result ((text.new ≡ text.old) × ((whole.new ≡ whole.old) × (is_posix.new ≡ is_posix.old))) }
{
    let Some(reading) = zone.take() else {
        *fault = plain_fault(NOT_OPEN);
        return NOT_OPEN;
    };
    let told = ever_tail_in(alloc, reading.get(), text, whole, is_posix);
    zone.put(reading);
    *fault = told;
    told.status
}

fn ever_tail_in(
    alloc: Global,
    opened: &Opened,
    text: &mut [u8],
    whole: &mut usize,
    is_posix: &mut bool,
) -> Fault
    ensures answer { OfZone opened.now result.status ((text.new ≡ text.old) × (result ≡ plain not_open))
        (λ held. OfKept held result.status ((text.new ≡ text.old) × (result ≡ plain not_kept)) (λ zone. IsEverTailTold (ever_in zone) text.old text.new whole.new is_posix.new result)) }
    ensures kept { IfRefused result.status ((text.new ≡ text.old) × ((whole.new ≡ whole.old) × (is_posix.new ≡ is_posix.old))) }
{
    let Opened::Zone(zone) = opened else {
        return plain_fault(NOT_OPEN);
    };
    match zone.origin() {
        Origin::Source => ever_tail_of_zone(alloc, zone, text, whole, is_posix),
        Origin::File => plain_fault(NOT_KEPT),
    }
}

fn ever_tail_of_zone(
    alloc: Global,
    zone: &OpenZone,
    text: &mut [u8],
    whole: &mut usize,
    is_posix: &mut bool,
) -> Fault
    ensures answer { IsEverTailTold (ever_in zone.now) text.old text.new whole.new is_posix.new result }
    ensures kept { IfRefused result.status ((text.new ≡ text.old) × ((whole.new ≡ whole.old) × (is_posix.new ≡ is_posix.old))) }
{
    match zone.for_ever() {
        Some(ever) => ever_tail_of(alloc, ever, text, whole, is_posix),
        None => none_for(8),
    }
}

fn ever_tail_of(
    alloc: Global,
    ever: &ZoneSet,
    text: &mut [u8],
    whole: &mut usize,
    is_posix: &mut bool,
) -> Fault
    ensures answer { IsEverTailTold (Some ever.now) text.old text.new whole.new is_posix.new result }
    ensures kept { IfRefused result.status ((text.new ≡ text.old) × ((whole.new ≡ whole.old) × (is_posix.new ≡ is_posix.old))) }
{
    match tail_for_ever(alloc, ever) {
        Ok(tail) => {
            *whole = fill(tail.text.as_bytes(), text);
            *is_posix = is_posix_string(tail.text.as_str());
            plain_fault(DONE)
        }
        Err(fault) => ever_tail_fault(fault),
    }
}

/// Why no string carries a zone on for ever.
fn ever_tail_fault(fault: EverTailFault) -> Fault
    ensures { result ≡ ever_tail_told fault }
{
    match fault {
        EverTailFault::Shape => none_for(1),
        EverTailFault::OffsetRange => none_for(2),
        EverTailFault::Name => none_for(3),
        EverTailFault::NoRule => none_for(4),
        EverTailFault::Saving => none_for(9),
        EverTailFault::NoMemory => plain_fault(NO_MEMORY),
    }
}

/// A zone's TZif file for ever. It goes into the room, as far as it fits, and its whole length is told.
#[unsafe(no_mangle)]
pub extern "C" fn sefunjaro_tzif_for_ever_by(
    alloc: Global,
    zone: &mut View,
    file: &mut [u8],
    whole: &mut usize,
    fault: &mut Fault,
) -> u32
    ensures lent { StaysLent zone.old zone.new }
    ensures status { result ≡ fault.new.status }
    ensures answer { OnZone zone.old.part.opened result ((file.new ≡ file.old) × (fault.new ≡ plain not_open))
        (λ held. OfKept held result ((file.new ≡ file.old) × (fault.new ≡ plain not_kept)) (λ zone. IsEverFileTold (ever_in zone) file.old file.new whole.new fault.new)) }
    ensures kept { IfRefused result ((file.new ≡ file.old) × (whole.new ≡ whole.old)) }
{
    let Some(reading) = zone.take() else {
        *fault = plain_fault(NOT_OPEN);
        return NOT_OPEN;
    };
    let told = ever_file_in(alloc, reading.get(), file, whole);
    zone.put(reading);
    *fault = told;
    told.status
}

fn ever_file_in(alloc: Global, opened: &Opened, file: &mut [u8], whole: &mut usize) -> Fault
    ensures answer { OfZone opened.now result.status ((file.new ≡ file.old) × (result ≡ plain not_open))
        (λ held. OfKept held result.status ((file.new ≡ file.old) × (result ≡ plain not_kept)) (λ zone. IsEverFileTold (ever_in zone) file.old file.new whole.new result)) }
    ensures kept { IfRefused result.status ((file.new ≡ file.old) × (whole.new ≡ whole.old)) }
{
    let Opened::Zone(zone) = opened else {
        return plain_fault(NOT_OPEN);
    };
    match zone.origin() {
        Origin::Source => ever_file_of_zone(alloc, zone, file, whole),
        Origin::File => plain_fault(NOT_KEPT),
    }
}

fn ever_file_of_zone(alloc: Global, zone: &OpenZone, file: &mut [u8], whole: &mut usize) -> Fault
    ensures answer { IsEverFileTold (ever_in zone.now) file.old file.new whole.new result }
    ensures kept { IfRefused result.status ((file.new ≡ file.old) × (whole.new ≡ whole.old)) }
{
    match zone.for_ever() {
        Some(ever) => ever_file_of(alloc, ever, file, whole),
        None => none_for(8),
    }
}

fn ever_file_of(alloc: Global, ever: &ZoneSet, file: &mut [u8], whole: &mut usize) -> Fault
    ensures answer { IsEverFileTold (Some ever.now) file.old file.new whole.new result }
    ensures kept { IfRefused result.status ((file.new ≡ file.old) × (whole.new ≡ whole.old)) }
{
    match tzif_for_ever(alloc, ever) {
        Ok(written) => {
            *whole = fill(written.as_slice(), file);
            plain_fault(DONE)
        }
        Err(fault) => ever_fault(fault),
    }
}

/// Why a zone has no file for ever.
fn ever_fault(fault: EverFileFault) -> Fault
    ensures { result ≡ ever_told fault }
{
    match fault {
        EverFileFault::Footer(cause) => ever_tail_fault(cause),
        EverFileFault::File(cause) => ever_file_fault(cause),
    }
}

/// Why its changes are those of no file.
fn ever_file_fault(fault: FileFault) -> Fault
    ensures { result ≡ ever_file_told fault }
{
    match fault {
        FileFault::Times => none_for(5),
        FileFault::Types => none_for(6),
        FileFault::Names => none_for(7),
        FileFault::NoMemory => plain_fault(NO_MEMORY),
    }
}
