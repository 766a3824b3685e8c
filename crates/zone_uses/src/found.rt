//! A database of every zone, asked by a name or by a part of one.
ghost use Rattle.std.specs.{Prelude.{◌≡◌, filter, length, option_map, IfOk}, List.{find}, Str.{bytes_eq}};
ghost use Rattle.civil_base.specs.DateTimes.{instant};
ghost use Rattle.zone_spans.specs.Schedules.{total_at};
ghost use Rattle.tz_lookup.specs.{Databases.{has_part}, Sets.{schedule_of}};

use sefunjaro::{Database, Offset, OffsetDateTime, TimeZone, UtcOffset};
use std::alloc::{AllocError, Global};

/// The offset in force in the zone of that name; none where there is no such zone.
pub fn offset_in(database: &Database, name: &str, at: &OffsetDateTime) -> Option<UtcOffset>
    ensures { result ≡ option_map (λ set. total_at (schedule_of set) (instant at.now)) (find (λ set. bytes_eq name.now set.name) database.now) }
{
    let zone = database.get_by_name(name)?;
    Some(zone.get_offset_utc(at).to_utc())
}

/// How many zones have a part in their names, as `America/` or `York`.
///
/// # Errors
///
/// Want of memory alone.
pub fn how_many(alloc: Global, database: &Database, part: &str) -> Result<usize, AllocError>
    ensures { IfOk result (λ count. count ≡ length (filter (λ set. has_part part.now set.name) database.now)) }
{
    Ok(database.find_by_name(alloc, part)?.len())
}
