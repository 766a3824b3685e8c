//! Sources, and the zones that are opened from them.
ghost use Rattle.std.specs.{Prelude.{◌≡◌, ◌<◌, IfErr, IfOk, IfSome, MatchOption, None, is_some, length, nat_eq}, List.{slice_get}};
ghost use Rattle.sefunjaro_c.specs.{Faults.{plain, source_due, zone_due, IsRefused}, Names.{IsNameAt}, Opened.{IsSourceOf, IsZoneOf, StaysLent}, Held.{OfSource, OnSource, IsSource, IsZone}, Statuses.{done, not_open, IfRefused}};
ghost use Rattle.tz_lookup.specs.Databases.{names_of};
ghost use Rattle.sefunjaro.specs.{Sources.{release_in, table_in}};

use crate::fault::{
    DONE, Fault, NO_MEMORY, NONE_THERE, NOT_OPEN, NOT_TEXT, opening_fault, plain_fault, zone_fault,
};
use crate::handle::Handle;
use crate::opened::Opened;
use crate::view::View;
use sefunjaro::{OpenSource, fill};
use std::alloc::Global;
use zone_source::text_of;

/// Opens a source from its text in plain form, and in no other. What the handle held before is closed.
#[unsafe(no_mangle)]
pub extern "C" fn sefunjaro_source_open_plain(
    alloc: Global,
    text: &[u8],
    source: &mut Handle,
    fault: &mut Fault,
) -> u32
    ensures status { result ≡ fault.new.status }
    ensures opened { is_some source.new.held.opened ≡ nat_eq result 0 }
    ensures done { IfSome source.new.held.opened (λ _. fault.new ≡ plain done) }
    ensures answer { MatchOption source.new.held.opened (IsRefused (source_due text.now) fault.new) (IsSource (IsSourceOf text.now)) }
{
    drop(source.take(alloc));
    match open_source(alloc, text) {
        Ok(opened) => {
            source.put(alloc, opened);
            *fault = plain_fault(DONE);
            DONE
        }
        Err(told) => {
            *fault = told;
            told.status
        }
    }
}

/// A source, on the heap.
fn open_source(alloc: Global, text: &[u8]) -> Result<Box<Opened>, Fault>
    ensures ok { IfOk result (λ opened. IsSource (IsSourceOf text.now) opened.value) }
    ensures err { IfErr result (IsRefused (source_due text.now)) }
{
    match OpenSource::open_plain(alloc, text) {
        Ok(source) => match Opened::source(alloc, source) {
            Ok(opened) => Ok(opened),
            Err(_) => Err(plain_fault(NO_MEMORY)),
        },
        Err(fault) => Err(opening_fault(&fault)),
    }
}

/// Closes a handle, whatever it holds. A handle that holds nothing stays as it is.
#[unsafe(no_mangle)]
pub extern "C" fn sefunjaro_close(alloc: Global, handle: &mut Handle)
    ensures { handle.new.held.opened ≡ None }
{
    drop(handle.take(alloc));
}

/// Opens the zone of a name in a source. What the zone's handle held before is closed. The zone needs its source no more.
#[unsafe(no_mangle)]
pub extern "C" fn sefunjaro_zone_open_by(
    alloc: Global,
    source: &mut View,
    name: &[u8],
    zone: &mut Handle,
    fault: &mut Fault,
) -> u32
    ensures lent { StaysLent source.old source.new }
    ensures status { result ≡ fault.new.status }
    ensures opened { is_some zone.new.held.opened ≡ nat_eq result 0 }
    ensures done { IfSome zone.new.held.opened (λ _. fault.new ≡ plain done) }
    ensures answer { OnSource source.old.part.opened result ((zone.new.held.opened ≡ None) × (fault.new ≡ plain not_open))
        (λ from. MatchOption zone.new.held.opened (IsRefused (zone_due (table_in from) name.now) fault.new) (IsZone (IsZoneOf (table_in from) name.now))) }
{
    drop(zone.take(alloc));
    let Some(reading) = source.take() else {
        *fault = plain_fault(NOT_OPEN);
        return NOT_OPEN;
    };
    let made = open_zone(alloc, reading.get(), name);
    source.put(reading);
    match made {
        Ok(opened) => {
            zone.put(alloc, opened);
            *fault = plain_fault(DONE);
            DONE
        }
        Err(told) => {
            *fault = told;
            told.status
        }
    }
}

/// The zone of a name, on the heap.
fn open_zone(alloc: Global, from: &Opened, name: &[u8]) -> Result<Box<Opened>, Fault>
    ensures ok { IfOk result (λ opened. IsSource (λ source. IsZone (IsZoneOf (table_in source) name.now) opened.value) from.now) }
    ensures err { IfErr result (λ fault. OfSource from.now fault.status (fault ≡ plain not_open) (λ source. IsRefused (zone_due (table_in source) name.now) fault)) }
    ensures refused { IfErr result (λ fault. 0 < fault.status) }
{
    match from {
        Opened::Source(source) => zone_of(alloc, source, name),
        Opened::Zone(_) => Err(plain_fault(NOT_OPEN)),
    }
}

/// The zone of a name in a source, on the heap.
fn zone_of(alloc: Global, source: &OpenSource, name: &[u8]) -> Result<Box<Opened>, Fault>
    ensures ok { IfOk result (λ opened. IsZone (IsZoneOf (table_in source.now) name.now) opened.value) }
    ensures err { IfErr result (IsRefused (zone_due (table_in source.now) name.now)) }
{
    let Some(name) = text_of(name) else {
        return Err(plain_fault(NOT_TEXT));
    };
    match source.zone(alloc, name) {
        Ok(zone) => match Opened::zone(alloc, zone) {
            Ok(opened) => Ok(opened),
            Err(_) => Err(plain_fault(NO_MEMORY)),
        },
        Err(fault) => Err(zone_fault(fault)),
    }
}

/// How many names of a source find a zone: those of its zones, and of the links to them.
#[unsafe(no_mangle)]
pub extern "C" fn sefunjaro_name_count_by(source: &mut View, count: &mut usize) -> u32
    ensures lent { StaysLent source.old source.new }
    ensures answer { OnSource source.old.part.opened result (count.new ≡ count.old)
        (λ from. (result ≡ 0) × (count.new ≡ length (names_of (table_in from)))) }
    ensures kept { IfRefused result (count.new ≡ count.old) }
{
    let Some(reading) = source.take() else {
        return NOT_OPEN;
    };
    let status = name_count(reading.get(), count);
    source.put(reading);
    status
}

fn name_count(from: &Opened, count: &mut usize) -> u32
    ensures answer { OfSource from.now result (count.new ≡ count.old) (λ source. (result ≡ 0) × (count.new ≡ length (names_of (table_in source)))) }
    ensures kept { IfRefused result (count.new ≡ count.old) }
{
    let Opened::Source(source) = from else {
        return NOT_OPEN;
    };
    *count = source.name_count();
    DONE
}

/// The name at a place of the byte order, which counts from 0. It goes into the room, as far as it fits, and its whole length
/// is told.
#[unsafe(no_mangle)]
pub extern "C" fn sefunjaro_name_by(
    source: &mut View,
    place: usize,
    name: &mut [u8],
    whole: &mut usize,
) -> u32
    ensures lent { StaysLent source.old source.new }
    ensures answer { OnSource source.old.part.opened result (name.new ≡ name.old)
        (λ from. IsNameAt (slice_get (names_of (table_in from)) place) result name.old name.new whole.new) }
    ensures kept { IfRefused result ((name.new ≡ name.old) × (whole.new ≡ whole.old)) }
{
    let Some(reading) = source.take() else {
        return NOT_OPEN;
    };
    let status = name_at(reading.get(), place, name, whole);
    source.put(reading);
    status
}

fn name_at(from: &Opened, place: usize, name: &mut [u8], whole: &mut usize) -> u32
    ensures answer { OfSource from.now result (name.new ≡ name.old)
        (λ source. IsNameAt (slice_get (names_of (table_in source)) place) result name.old name.new whole.new) }
    ensures kept { IfRefused result ((name.new ≡ name.old) × (whole.new ≡ whole.old)) }
{
    let Opened::Source(source) = from else {
        return NOT_OPEN;
    };
    match source.name(place) {
        Some(text) => {
            *whole = fill(text.as_bytes(), name);
            DONE
        }
        None => NONE_THERE,
    }
}

/// The release that the source names by its first line, as `2026b` in `# version 2026b`. It goes into the room, as far as it
/// fits, and its whole length is told.
#[unsafe(no_mangle)]
pub extern "C" fn sefunjaro_source_version_by(
    source: &mut View,
    version: &mut [u8],
    whole: &mut usize,
) -> u32
    ensures lent { StaysLent source.old source.new }
    ensures answer { OnSource source.old.part.opened result (version.new ≡ version.old)
        (λ from. IsNameAt (release_in from) result version.old version.new whole.new) }
    ensures kept { IfRefused result ((version.new ≡ version.old) × (whole.new ≡ whole.old)) }
{
    let Some(reading) = source.take() else {
        return NOT_OPEN;
    };
    let status = version_in(reading.get(), version, whole);
    source.put(reading);
    status
}

fn version_in(from: &Opened, version: &mut [u8], whole: &mut usize) -> u32
    ensures answer { OfSource from.now result (version.new ≡ version.old)
        (λ source. IsNameAt (release_in source) result version.old version.new whole.new) }
    ensures kept { IfRefused result ((version.new ≡ version.old) × (whole.new ≡ whole.old)) }
{
    let Opened::Source(source) = from else {
        return NOT_OPEN;
    };
    match source.release() {
        Some(release) => {
            *whole = fill(release.as_bytes(), version);
            DONE
        }
        None => NONE_THERE,
    }
}
