//! The offsets of many seconds, by a cursor that remembers what was in force at the last one.
ghost use Rattle.std.specs.Prelude.{◌≡◌, ◌<◌, length, pos, slice_index_or};
ghost use Rattle.civil_base.specs.{Instants.{nanos_of}, Ranges.{IsInYears}};
ghost use Rattle.tz_lookup.specs.Stretches.{IsKnown, IsStretch};
ghost use Rattle.sefunjaro.specs.{Offsets.{offsets_of, AreInYears}, Rooms.{filled}, Zones.{kept_total}};

use crate::room::put;
use tz_ever::{ZoneSet, zone_stretch};
use tz_lookup::Stretch;

/// A stretch of no seconds.
pub(crate) const UNKNOWN: Stretch = Stretch {
    from: 0,
    until: 0,
    offset: 0,
};

/// The seconds east of UTC that are in force at each of some seconds, in their order, as far as they fit.
pub(crate) fn offsets_at(zone: &ZoneSet, seconds: &[i64], room: &mut [i32])
    requires { AreInYears seconds.now }
    ensures { room.new ≡ filled (offsets_of (kept_total zone.now) seconds.now) room.old }
{
    let mut known = UNKNOWN;
    for i in 0..seconds.len() {
        known = next(zone, known, second_at(seconds, i));
        put(known.offset, i, room);
    }
}

/// The second at a place.
pub(crate) fn second_at(seconds: &[i64], place: usize) -> i64
    requires { place < length seconds.now }
    ensures { result ≡ slice_index_or seconds.now place (pos 0) }
{
    seconds[place]
}

/// The stretch of a second: the last one, or that which the zone tells.
pub(crate) fn next(zone: &ZoneSet, known: Stretch, second: i64) -> Stretch
    requires near { IsInYears (nanos_of second) }
    requires known { IsKnown (kept_total zone.now) known }
    ensures here { kept_total zone.now (nanos_of second) ≡ result.offset }
    ensures known { IsKnown (kept_total zone.now) result }
{
    if known.from <= second && second < known.until {
        known
    } else {
        stretch_at(zone, second)
    }
}

/// The total at a second, and seconds around it at which it is the same.
pub(crate) fn stretch_at(zone: &ZoneSet, second: i64) -> Stretch
    requires { IsInYears (nanos_of second) }
    ensures { IsStretch (kept_total zone.now) second result }
{
    zone_stretch(zone, second)
}
