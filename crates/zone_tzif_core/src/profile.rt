//! Files in the one spelling that is written.
ghost use Rattle.std.specs.Prelude.{◌≡◌};
ghost use Rattle.zone_tzif_core.specs.{Profile.{Compares, ReadsWritten}, Shown.{zone_shown}, Tzif.{IsTzif}};

use crate::reader::read_any;
use crate::values::{ReadFault, TzifZone, WriteFault};
use crate::writer::write_tzif;
use std::alloc::Global;

/// Whether the bytes are the file that is written for the zone.
fn is_written(alloc: Global, zone: &TzifZone, bytes: &[u8]) -> Result<bool, ReadFault>
    ensures { Compares bytes.now (zone_shown zone.now) result }
{
    match write_tzif(alloc, zone) {
        Ok(file) => Ok(file.as_slice() == bytes),
        Err(WriteFault::NoMemory) => Err(ReadFault::NoMemory),
        Err(_) => Ok(false),
    }
}

/// The zone whose one file, as `write_tzif` writes it, this is.
///
/// # Errors
///
/// `Refused` exactly where it is the file of none, or `NoMemory`, which comes only where `read_any` reads a zone of it.
pub fn read_tzif(alloc: Global, bytes: &[u8]) -> Result<TzifZone, ReadFault>
    ensures exact { ReadsWritten bytes.now result }
{
    let zone = read_any(alloc, bytes)?;
    let same = is_written(alloc, &zone, bytes)?;
    if same {
        Ok(zone)
    } else {
        Err(ReadFault::Refused)
    }
}
