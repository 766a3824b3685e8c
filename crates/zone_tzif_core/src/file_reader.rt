//! Files as they are looked up.
ghost use Rattle.std.specs.Prelude.{◌≡◌, ◌*◌, ◌<◌, ◌≤◌, ℕ, List, length, map, option_and_then, option_map, IfOk, IfSome};
ghost use Rattle.zone_tzif_core.specs.{Denotes.{Says}, Names.{AreNames}, Reading.{joined_in, kind_in, kinds_in, parts_shown, shifts_in, time_size, AreCounted}, Shown.{TellsExactly, TellsFound}, Stored.{stored_kind, AreNumbered, AreStored, IsStored}};
ghost use Rattle.zone_tzif_core.specs.{ZoneFiles.{changes_with, file_with, zone_seen, ReadsFile}, Zones.{KindValue}};

use crate::check::wanting;
use crate::kinds::kind;
use crate::names::name_table;
use crate::parts::{Parts, said_parts, time_at};
use crate::shifts::do_rise;
use crate::stored::Stored;
use crate::values::ReadFault;
use crate::zone_file::ZoneFile;
use std::alloc::{AllocError, Global};

/// The kind that a record of six bytes is, with the place of its name.
fn stored<'a>(names: &'a [u8], table: &[Option<&'a str>], bytes: &[u8]) -> Result<Stored, ReadFault>
    requires six { 6 ≤ length bytes.now }
    requires names { AreNames names.now table.now }
    ensures told { TellsFound (stored_kind names.now) result (kind_in names.now bytes.now) }
    ensures kept { IfOk result (IsStored names.now) }
{
    let record = kind(names, table, bytes)?;
    Ok(Stored {
        utoff: record.utoff,
        is_dst: record.is_dst,
        from: bytes[5],
        length: record.name.len(),
    })
}

/// The kinds that the records are.
fn read_stored<'a>(
    alloc: Global,
    names: &'a [u8],
    table: &[Option<&'a str>],
    count: u32,
    records: &[u8],
) -> Result<Vec<Stored>, ReadFault>
    requires records { length records.now ≡ 6 * count }
    requires names { AreNames names.now table.now }
    ensures told { TellsFound (λ kinds. map (stored_kind names.now) kinds.items) result (kinds_in names.now count records.now) }
    ensures kept { IfOk result (λ kinds. AreStored names.now kinds.items) }
{
    let mut kinds = Vec::new(alloc);
    for i in 0..count as usize {
        kinds.push(stored(names, table, &records[6 * i..6 * i + 6])?)?;
    }
    Ok(kinds)
}

/// The times with the numbers of their kinds, of which there are so many.
fn read_changes(
    alloc: Global,
    count: usize,
    wide: bool,
    times: &[u8],
    numbers: &[u8],
) -> Result<Vec<(i64, u8)>, ReadFault>
    requires { length times.now ≡ time_size wide * length numbers.now }
    ensures told { (kinds : List KindValue) → length kinds ≡ count
        → TellsFound (λ changes. changes_with kinds changes.items) result (shifts_in wide kinds times.now numbers.now) }
    ensures numbered { IfOk result (λ changes. AreNumbered count changes.items) }
{
    let mut changes = Vec::new(alloc);
    for (i, number) in numbers.iter().enumerate() {
        if count <= *number as usize {
            return Err(ReadFault::Refused);
        }
        changes.push((time_at(wide, times, i), *number))?;
    }
    Ok(changes)
}

/// The zone of kinds, changes and a footer.
pub(crate) fn zone_file(
    alloc: Global,
    names: &[u8],
    kinds: Vec<Stored>,
    changes: Vec<(i64, u8)>,
    footer: &str,
) -> Result<ZoneFile, AllocError>
    requires kept { AreStored names.now kinds.items }
    requires some { 0 < length kinds.items }
    requires numbered { AreNumbered (length kinds.items) changes.items }
    ensures { IfOk result (λ file. zone_seen file ≡ file_with (map (stored_kind names.now) kinds.items) changes.items footer.now) }
{
    Ok(ZoneFile {
        names: Vec::from_slice(alloc, names)?,
        kinds,
        changes,
        footer: String::from_str(alloc, footer)?,
    })
}

/// The zone of the parts.
#[tactic(auto, unfolding(crate::specs::Reading::joined_in))]
fn joined(alloc: Global, parts: &Parts) -> Result<ZoneFile, ReadFault>
    requires { AreCounted (parts_shown parts.now) }
    ensures { TellsFound zone_seen result (joined_in (parts_shown parts.now)) }
{
    let table = name_table(parts.names);
    let kinds = read_stored(
        alloc,
        parts.names,
        table.as_slice(),
        parts.kinds,
        parts.records,
    )?;
    if kinds.as_slice().is_empty() {
        return Err(ReadFault::Refused);
    }
    let count = kinds.as_slice().len();
    let changes = read_changes(alloc, count, parts.wide, parts.times, parts.numbers)?;
    let rises = do_rise(changes.as_slice());
    if !rises {
        return Err(ReadFault::Refused);
    }
    Ok(zone_file(alloc, parts.names, kinds, changes, parts.footer)?)
}

/// The zone of the parts of a file, if it has any.
pub(crate) fn zone_of(alloc: Global, parts: Option<Parts<'_>>) -> Result<ZoneFile, ReadFault>
    requires { IfSome parts (λ parts. AreCounted (parts_shown parts)) }
    ensures { TellsExactly zone_seen result (option_and_then joined_in (option_map parts_shown parts.entry)) }
{
    match parts {
        Some(parts) => match joined(alloc, &parts) {
            Ok(zone) => Ok(zone),
            Err(ReadFault::Refused) => Err(ReadFault::Refused),
            Err(ReadFault::NoMemory) => Err(wanting(&parts)),
        },
        None => Err(ReadFault::Refused),
    }
}

/// The zone that a file of RFC 8536 says, as any compiler writes it, of any version without leap seconds; a later version than 4
/// is read as that, and a file of version 1 has no footer. Nothing may follow its last part, times strictly rise, each record has
/// a flag of 0 or 1, an offset of 93,599 seconds at most to either side and a name that is UTF-8 and ends in a zero byte, and the
/// footer is UTF-8 of one line.
///
/// Where `read_any` reads the file, both say the same zone (`denoted_is_said`). What is read takes memory in proportion to the
/// file.
///
/// # Errors
///
/// `Refused` exactly where the file says none, or `NoMemory`, which comes only where it says one.
pub fn read_file(alloc: Global, bytes: &[u8]) -> Result<ZoneFile, ReadFault>
    ensures exact { ReadsFile (Says bytes.now) result }
{
    zone_of(alloc, said_parts(bytes))
}
