//! A POSIX TZ string.
ghost use Rattle.std.specs.Prelude.{IfSome, IsNone};
ghost use Rattle.civil_base.specs.DateTimes.{instant};
ghost use Rattle.zone_uses.specs.{Answers.{IsGivenBy}, Causes.{IsNotGiven}};

use sefunjaro::{Database, Offset, OffsetDateTime, PosixTz, UtcOffset};

/// The offset that a string such as `EST5EDT,M3.2.0,M11.1.0` gives an instant; none where it is no such string, or the year is
/// out of range. A string that names a zone of the database has the offset of that zone.
pub fn posix_offset(database: &Database, text: &str, at: &OffsetDateTime) -> Option<UtcOffset>
    ensures given { IfSome result (IsGivenBy text.now database.now (instant at.now)) }
    ensures none { IsNone result → IsNotGiven text.now database.now (instant at.now) }
{
    match PosixTz::parse(text, database) {
        Ok(zone) => match zone.get_offset(at) {
            Ok(offset) => Some(offset.to_utc()),
            Err(_) => None,
        },
        Err(_) => None,
    }
}
