//! Laws: a set and its string give one offset, a set has one string, and a string is one line.
ghost use Rattle.std.specs.{Prelude.{◌≡◌, ◌==◌, not, ◌&&◌, true, ℕ, ℤ, List, Ok, Option, Some, None}, List.{list_all}};
ghost use Rattle.civil_base.specs.DateTimes.{instant};
ghost use Rattle.zone_spans.specs.Schedules.{total_at};
ghost use Rattle.tz_lookup.specs.{Sets.{IsAccepted, schedule_of}, Zones.{set_of}, declared.set.FixedTimespanSet.{FixedTimespanSet}};
ghost use Rattle.tz_posix.specs.Parses.{IsParsed};
ghost use Rattle.zone_tail.specs.{Carried.{CarriesOn, IsCovered}, Found.{found_from, found_text}, Tails.{IsTail, tail_fault}};

use civil_base::{OffsetDateTime, UtcOffset};
use tz_lookup::{Offset, TimeZone, Tz};
use tz_posix::PosixTz;
use tz_posix::laws::one_reading;

/// The offset that a zone gives a date-time, and that of a POSIX TZ string, or none where it refuses the date-time.
///
/// Where the string is the one that [`tail`](crate::tail) gives for the zone's set, read over any database, the two are the same
/// from the entry on whose time `tail` gives, or from the beginning of time where it gives none, up to the end of the last year.
pub fn both_offsets(
    zone: &Tz<'_>,
    posix: &PosixTz<'_>,
    date_time: &OffsetDateTime,
) -> (UtcOffset, Option<UtcOffset>)
    ensures of_zone { result.0 ≡ total_at (schedule_of (set_of zone.now)) (instant date_time.now) }
    ensures same { (from : Option ℤ) (text : List ℕ) (zones : List FixedTimespanSet) → CarriesOn (set_of zone.now) from text
        → IsParsed text zones (Ok posix.now) → IsCovered (set_of zone.now) from (instant date_time.now) → result.1 ≡ Some result.0 }
{
    one_reading();
    let of_zone = zone.get_offset_utc(date_time).to_utc();
    match posix.get_offset(date_time) {
        Ok(offset) => (of_zone, Some(offset.to_utc())),
        Err(_) => (of_zone, None),
    }
}

/// A set has one string at most, and one beginning: what is found by trying each candidate from each span on, at every second.
pub fn one_tail()
    ensures { (set : FixedTimespanSet) (from : Option ℤ) (text : List ℕ) → IsAccepted (schedule_of set) → IsTail set from text
        → (from ≡ found_from set) × (text ≡ found_text set) }
{}

/// A set's string has no line feed and no zero byte.
pub fn one_line()
    ensures { (set : FixedTimespanSet) → tail_fault set ≡ None → list_all (λ c. not (c == 10) && not (c == 0)) (found_text set) ≡ true }
{}
