//! A compiled zone file, as those of the machine.
ghost use Rattle.std.specs.Prelude.{IfErr, IfOk};
ghost use Rattle.civil_base.specs.DateTimes.{instant};
ghost use Rattle.zone_uses.specs.{Answers.{IsGivenByFile}, Causes.{IsFileCause}};

use sefunjaro::{Error, OffsetDateTime, OpenZone};
use std::alloc::Global;

/// The seconds east of UTC that a compiled zone file gives an instant: past its last change by its footer, so in any year.
///
/// # Errors
///
/// `File` where the bytes are no such file; `FileZone` where its footer is none; `NoMemory`, and only of a file with a zone.
pub fn offset_in_file(alloc: Global, bytes: &[u8], at: &OffsetDateTime) -> Result<i32, Error>
    ensures given { IfOk result (IsGivenByFile bytes.now (instant at.now)) }
    ensures err { IfErr result (IsFileCause bytes.now) }
{
    // Read for what it says of every date-time: that its local date is in the years.
    let _nanos = at.unix_timestamp_nanos();
    match OpenZone::of_file(alloc, bytes) {
        Ok(zone) => Ok(zone.offset_at(at)),
        Err(fault) => Err(fault.into()),
    }
}
