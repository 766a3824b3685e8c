//! A value as its one file.
ghost use Rattle.std.specs.{Prelude.{◌≡◌, ◌==◌, nat_le, ◌≤◌, ◌<◌, ◌^◌, not, ℕ, ℤ, None, true, [], ◌∷◌, ◌++◌, length, slice_index_or, OnOk, IfOk}, List.{list_all, list_any}};
ghost use Rattle.zone_tzif_core.specs.Tzif.{is_same, kinds_of, names_of, name_bytes, name_place, block_bytes, tzif_by, are_times, are_names, first_fault, write_fault, Writes, WritesBy, IsTzif, IsTzifBy, TimesFit};
ghost use Rattle.zone_tzif_core.specs.{Shown.{kinds_seen, names_seen, shifts_shown, zone_shown}, Zones.{is_small}};

use crate::distinct::{distinct_kinds, distinct_names};
use crate::kinds::is_small;
use crate::parts::is_one_line;
use crate::shifts::do_rise;
use crate::values::{Kind, TzifZone, Version, WriteFault};
use crate::write::{put_header, put_names, put_numbers, put_records, put_times};
use std::alloc::{AllocError, Global};

/// Whether a name has no zero byte.
fn has_no_zero(name: &str) -> bool
    ensures { result ≡ list_all (λ c. not (c == 0)) name.now }
{
    name.as_bytes().iter().all(|byte| *byte != 0)
}

/// Whether no name has a zero byte.
fn have_no_zero(names: &[&str]) -> bool
    ensures { result ≡ list_all (λ name. list_all (λ c. not (c == 0)) name.now) names.now }
{
    names.iter().all(|name| has_no_zero(name))
}

/// Whether each offset is at most 93,599 in size.
fn are_small(kinds: &[&Kind]) -> bool
    ensures { result ≡ list_all (λ kind. is_small kind.now.utoff) kinds.now }
{
    kinds.iter().all(|kind| is_small(kind.utoff))
}

/// Whether the times strictly rise, and have a number of four bytes.
#[tactic(auto, unfolding(crate::specs::Tzif::are_times))]
fn are_times(shifts: &[(i64, Kind)]) -> bool
    ensures { result ≡ are_times (shifts_shown shifts.now) }
{
    let rises = do_rise(shifts);
    let few = shifts.len() <= 4_294_967_295;
    rises & few
}

/// Whether no name has a zero byte, and the names take 256 bytes at most.
#[tactic(auto, using(crate::proofs::CheckLemmas::all_seen), unfolding(crate::specs::Tzif::are_names))]
fn are_names(names: &[&str], chars: &[u8]) -> bool
    requires { chars.now ≡ name_bytes (names_seen names.now) }
    ensures { result ≡ are_names (names_seen names.now) }
{
    let clean = have_no_zero(names);
    let few = chars.len() <= 256;
    clean & few
}

/// The first of the later tests that does not hold, where the times and the number of kinds pass.
fn later_fault(names: bool, offsets: bool, footer: bool) -> Option<WriteFault>
    ensures { result ≡ first_fault true true names offsets footer }
{
    if !names {
        Some(WriteFault::Names)
    } else if !offsets {
        Some(WriteFault::Offset)
    } else if !footer {
        Some(WriteFault::Footer)
    } else {
        None
    }
}

/// Why the zone is not written, if there is a cause, where its times and the number of its kinds pass.
fn fault(zone: &TzifZone, kinds: &[&Kind], names: &[&str], chars: &[u8]) -> Option<WriteFault>
    requires times { are_times (zone_shown zone.now).rest ≡ true }
    requires few { length (kinds_seen kinds.now) ≤ 256 }
    requires distinct { kinds_seen kinds.now ≡ kinds_of (zone_shown zone.now) }
    requires named { names_seen names.now ≡ names_of (kinds_of (zone_shown zone.now)) }
    requires bytes { chars.now ≡ name_bytes (names_of (kinds_of (zone_shown zone.now))) }
    ensures { result ≡ write_fault (zone_shown zone.now) }
{
    let named = are_names(names, chars);
    let offsets = are_small(kinds);
    let footer = is_one_line(zone.footer.as_bytes());
    later_fault(named, offsets, footer)
}

/// Puts the second block at the end.
#[tactic(auto, using(std::proofs::Common::append_assoc), unfolding(crate::specs::Tzif::block_bytes))]
fn put_block(
    into: &mut Vec<u8>,
    zone: &TzifZone,
    kinds: &[&Kind],
    names: &[&str],
) -> Result<(), AllocError>
    requires distinct { kinds_seen kinds.now ≡ kinds_of (zone_shown zone.now) }
    requires named { names_seen names.now ≡ names_of (kinds_of (zone_shown zone.now)) }
    requires fits { write_fault (zone_shown zone.now) ≡ None }
    ensures bytes { OnOk result (into.new.items ≡ into.old.items ++ block_bytes (kinds_of (zone_shown zone.now)) (zone_shown zone.now).rest) }
    ensures range { OnOk result (TimesFit (zone_shown zone.now).rest) }
{
    put_times(into, zone.rest.as_slice())?;
    put_numbers(into, kinds, zone.rest.as_slice())?;
    put_records(into, names, kinds)?;
    put_names(into, names)?;
    Ok(())
}

/// Puts an LF, the footer and an LF at the end.
#[tactic(auto, using(std::proofs::Common::append_assoc))]
fn put_footer(into: &mut Vec<u8>, footer: &str) -> Result<(), AllocError>
    ensures { OnOk result (into.new.items ≡ (into.old.items ++ 10 ∷ footer.now) ++ 10 ∷ []) }
{
    into.push(b'\n')?;
    into.extend_from_slice(footer.as_bytes())?;
    into.push(b'\n')?;
    Ok(())
}

/// The file of a zone that may be written.
#[tactic(auto, unfolding(crate::specs::Tzif::tzif_by))]
fn written(
    alloc: Global,
    version: Version,
    zone: &TzifZone,
    kinds: &[&Kind],
    names: &[&str],
    chars: &[u8],
) -> Result<Vec<u8>, AllocError>
    requires distinct { kinds_seen kinds.now ≡ kinds_of (zone_shown zone.now) }
    requires named { names_seen names.now ≡ names_of (kinds_of (zone_shown zone.now)) }
    requires bytes { chars.now ≡ name_bytes (names_of (kinds_of (zone_shown zone.now))) }
    requires fits { write_fault (zone_shown zone.now) ≡ None }
    ensures bytes { IfOk result (λ file. file.items ≡ tzif_by version (zone_shown zone.now)) }
    ensures range { OnOk result (TimesFit (zone_shown zone.now).rest) }
{
    let mut file = Vec::new(alloc);
    put_header(&mut file, version, 0, 1, 1)?;
    file.extend_from_slice(&[0; 7])?;
    let times = zone.rest.as_slice().len() as u32;
    let chars = chars.len() as u32;
    put_header(&mut file, version, times, kinds.len() as u32, chars)?;
    put_block(&mut file, zone, kinds, names)?;
    put_footer(&mut file, zone.footer.as_str())?;
    Ok(file)
}

/// The file of a zone with these distinct kinds, or the first cause that refuses it, where its times and their number pass.
fn write_kinds(
    alloc: Global,
    version: Version,
    zone: &TzifZone,
    kinds: &[&Kind],
) -> Result<Vec<u8>, WriteFault>
    requires times { are_times (zone_shown zone.now).rest ≡ true }
    requires few { length (kinds_seen kinds.now) ≤ 256 }
    requires distinct { kinds_seen kinds.now ≡ kinds_of (zone_shown zone.now) }
    ensures exact { WritesBy version (λ file. file.items) (zone_shown zone.now) result }
    ensures range { OnOk result (TimesFit (zone_shown zone.now).rest) }
{
    let names = distinct_names(alloc, kinds)?;
    let mut chars = Vec::new(alloc);
    put_names(&mut chars, names.as_slice())?;
    match fault(zone, kinds, names.as_slice(), chars.as_slice()) {
        Some(cause) => Err(cause),
        None => Ok(written(
            alloc,
            version,
            zone,
            kinds,
            names.as_slice(),
            chars.as_slice(),
        )?),
    }
}

/// The one file of a zone of that version of RFC 8536. Whether its footer is one that the version has is not asked. Its first block has one kind of zeros and no time. Its second one
/// has each kind once, in order of first use, that of `first` being number 0, and each name once, in the order of the
/// kinds. Flags and leap seconds it has none.
///
/// What is written is read by [`read_any`](crate::read_any) and [`read_file`](crate::read_file) as the zone again.
///
/// # Errors
///
/// The first cause that holds, in the order of `WriteFault`: `Times` where the times don't strictly rise or are more
/// than 4,294,967,295, `Types` where there are more than 256 distinct kinds, `Names` where a name has a zero byte or
/// the names take more than 256 bytes, `Offset` where an offset is past 93,599 seconds in size, and `Footer` where the
/// footer has an LF or a zero byte. Or `NoMemory`.
pub fn write_version(
    alloc: Global,
    version: Version,
    zone: &TzifZone,
) -> Result<Vec<u8>, WriteFault>
    ensures exact { WritesBy version (λ file. file.items) (zone_shown zone.now) result }
    ensures file { IfOk result (λ file. IsTzifBy version file.items (zone_shown zone.now)) }
{
    let times = are_times(zone.rest.as_slice());
    if !times {
        return Err(WriteFault::Times);
    }
    let kinds = distinct_kinds(alloc, zone)?;
    write_kinds(alloc, version, zone, kinds.as_slice())
}

/// The one file of a zone, of version 2 of RFC 8536, as [`write_version`] writes it.
///
/// What is written is read by each reader as the zone again: this is the file of a value, as the laws speak of it.
///
/// # Errors
///
/// Those of [`write_version`].
pub fn write_tzif(alloc: Global, zone: &TzifZone) -> Result<Vec<u8>, WriteFault>
    ensures exact { Writes (λ file. file.items) (zone_shown zone.now) result }
    ensures file { IfOk result (λ file. IsTzif file.items (zone_shown zone.now)) }
{
    write_version(alloc, Version::Two, zone)
}
