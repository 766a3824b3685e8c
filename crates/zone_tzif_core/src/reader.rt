//! Files as other compilers write them.
ghost use Rattle.std.specs.Prelude.{◌≡◌, ◌<◌, pos, length, slice_index_or, IfOk};
ghost use Rattle.zone_tzif_core.specs.{Denotes.{Denotes}, Shown.{kind_shown, record_shown, shift_shown, shifts_shown, zone_shown, Reads}, ZoneFiles.{change_with, kinds_kept, zone_seen}};

use crate::file_reader::zone_of;
use crate::kinds::Record;
use crate::parts::cut_parts;
use crate::values::{Kind, ReadFault, TzifZone};
use crate::zone_file::ZoneFile;
use std::alloc::{AllocError, Global};

/// The kind that owns its name.
fn owned(alloc: Global, kind: Record<'_>) -> Result<Kind, AllocError>
    ensures { IfOk result (λ owned. kind_shown owned ≡ record_shown kind.entry) }
{
    Ok(Kind {
        utoff: kind.utoff,
        is_dst: kind.is_dst,
        name: String::from_str(alloc, kind.name)?,
    })
}

/// The change at a place, with a kind that owns its name.
fn owned_change(alloc: Global, file: &ZoneFile, place: usize) -> Result<(i64, Kind), AllocError>
    requires { place < length file.now.changes.items }
    ensures { IfOk result (λ change.
        shift_shown change ≡ change_with (kinds_kept file.now) (slice_index_or file.now.changes.items place (pos 0, 0))) }
{
    let (time, number) = file.changes[place];
    Ok((time, owned(alloc, file.kind(number))?))
}

/// The changes with kinds that own their names.
fn owned_changes(alloc: Global, file: &ZoneFile) -> Result<Vec<(i64, Kind)>, AllocError>
    ensures { IfOk result (λ changes. shifts_shown changes.items ≡ (zone_seen file.now).rest) }
{
    let mut changes = Vec::new(alloc);
    for place in 0..file.change_count() {
        changes.push(owned_change(alloc, file, place)?)?;
    }
    Ok(changes)
}

/// The zone that owns a name for each change.
fn owned_zone(alloc: Global, file: &ZoneFile) -> Result<TzifZone, AllocError>
    ensures { IfOk result (λ zone. zone_shown zone ≡ zone_seen file.now) }
{
    Ok(TzifZone {
        first: owned(alloc, file.first())?,
        rest: owned_changes(alloc, file)?,
        footer: String::from_str(alloc, file.footer())?,
    })
}

/// The zone that a file of RFC 8536 denotes, as any compiler writes it, of version 2 to 4 without leap seconds. Nothing
/// may follow the footer, times strictly rise, each record has a flag of 0 or 1, an offset of 93,599 seconds at most to
/// either side and a name that is UTF-8 and ends in a zero byte, and the footer is UTF-8 of one line.
///
/// Each change owns the name of its kind, so what is read takes as much memory as the names of all changes together; a
/// `ZoneFile` takes as much as the file.
///
/// # Errors
///
/// `Refused` exactly where the file denotes none, or `NoMemory`, which comes only where it denotes one.
pub fn read_any(alloc: Global, bytes: &[u8]) -> Result<TzifZone, ReadFault>
    ensures exact { Reads (Denotes bytes.now) result }
{
    match zone_of(alloc, cut_parts(bytes, b'4')) {
        Ok(file) => Ok(owned_zone(alloc, &file)?),
        Err(fault) => Err(fault),
    }
}
