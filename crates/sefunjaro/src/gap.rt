//! The change by which clocks skip a local time.
ghost use Rattle.std.specs.Prelude.{◌≡◌, ◌-◌, ◌<◌, ◌+ℤ◌, ◌≤ℤ◌, ◌<ℤ◌, IfSome, IsTrue, int_lt};
ghost use Rattle.civil_base.specs.{DateTimes.{instant}, Instants.{instant_at, nanos_of}, Ranges.{IsInYears}};
ghost use Rattle.sefunjaro.specs.{Gaps.{IsSkippedBy}, GapPlaces.{nth_offset, HoldsSeconds, IsNeverRead}, Zones.{kept_total}};

use crate::offsets::stretch_at;
use crate::shown::is_in_years;
use civil_base::{OffsetDateTime, PlainDateTime, UtcOffset};
use tz_ever::ZoneSet;
use tz_lookup::{Offset, TimeZone};

/// A change by which clocks are set ahead over a local time.
#[derive(Clone, Copy, Debug, PartialEq, Eq)]
#[repr(C)]
pub struct Gap {
    /// The second of the change, from 1970-01-01 00:00:00 UTC.
    pub second: i64,
    /// The seconds east of UTC that are in force up to the change.
    pub before: i32,
    /// The seconds east of UTC that are in force from the change on.
    pub after: i32,
}

/// The seconds of an offset past the greatest.
const SPREAD: u32 = 93_600;

/// The most changes that are looked at for the one that skips a local time.
const MOST_CHANGES: usize = 8;

/// The change by which the clocks of a zone skip a local time, where it is one of the few within 26 hours before the time by UTC and after
/// it.
pub(crate) fn near_gap(zone: &ZoneSet, local: &PlainDateTime) -> Option<Gap>
    requires { HoldsSeconds (kept_total zone.now) }
    ensures { IfSome result (IsSkippedBy (kept_total zone.now) local.now) }
{
    let shown = local.assume_utc().unix_timestamp();
    let mut second = shown - i64::from(SPREAD);
    for place in 0..MOST_CHANGES {
        if !is_in_years(second) {
            return None;
        }
        let before = stretch_at(zone, second);
        if before.until <= second || !is_in_years(before.until) {
            return None;
        }
        let after = stretch_at(zone, before.until).offset;
        if is_skipped(shown, before.until, before.offset, after) {
            return Some(Gap {
                second: before.until,
                before: before.offset,
                after,
            });
        }
        second = before.until;
    }
    None
}

/// Whether clocks that are set from one offset to another at a second skip a local second.
fn is_skipped(shown: i64, change: i64, before: i32, after: i32) -> bool
    requires { IsInYears (nanos_of change) }
    ensures { IsTrue result → ((change +ℤ before) ≤ℤ shown) × (shown <ℤ (change +ℤ after)) }
{
    local_second(change, before) <= shown && shown < local_second(change, after)
}

/// The local second that clocks at an offset show at a second.
fn local_second(second: i64, offset: i32) -> i64
    requires { IsInYears (nanos_of second) }
    ensures { result ≡ second +ℤ offset }
{
    second + i64::from(offset)
}

/// The change by which the clocks of a zone skip a local time that they never show.
pub(crate) fn find_gap<T: TimeZone>(zone: &T, local: &PlainDateTime) -> Gap
    requires never { IsNeverRead (T.total_at zone.now) local.now }
    requires seconds { HoldsSeconds (T.total_at zone.now) }
    ensures { IsSkippedBy (T.total_at zone.now) local.now result }
{
    let place = skipped(zone, local);
    let date = date_at(local, place - 1);
    Gap {
        second: date.unix_timestamp(),
        before: total_at(zone, &date_at(local, place)),
        after: total_at(zone, &date),
    }
}

/// Of the offsets from one past the least up to one past the greatest, by their places, the first of which this is so: read
/// at it, the local time is an instant at which less is in force, and read at the one before, one at which more is.
fn skipped<T: TimeZone>(zone: &T, local: &PlainDateTime) -> u32
    requires { IsNeverRead (T.total_at zone.now) local.now }
    ensures first { 1 < result }
    ensures last { result < 187200 }
    ensures less { T.total_at zone.now (instant_at local.now (nth_offset result)) <ℤ nth_offset result }
    ensures more { nth_offset (result - 1) <ℤ T.total_at zone.now (instant_at local.now (nth_offset (result - 1))) }
{
    let mut low = 0;
    let mut high = 2 * SPREAD;
    while high - low > 1 {
        let middle = low + (high - low) / 2;
        if is_ahead(zone, local, middle) {
            low = middle;
        } else {
            high = middle;
        }
    }
    high
}

/// Whether more than the offset of that place is in force at the instant as which the local time is read at it.
fn is_ahead<T: TimeZone>(zone: &T, local: &PlainDateTime, place: u32) -> bool
    requires first { 0 < place }
    requires last { place < 187200 }
    ensures { result ≡ int_lt (nth_offset place) (T.total_at zone.now (instant_at local.now (nth_offset place))) }
{
    offset_of(place) < total_at(zone, &date_at(local, place))
}

/// The seconds east of UTC that a zone has in force at an instant.
fn total_at<T: TimeZone>(zone: &T, at: &OffsetDateTime) -> i32
    ensures { result ≡ T.total_at zone.now (instant at.now) }
{
    zone.get_offset_utc(at).to_utc().whole_seconds()
}

/// The local time at the offset of that place.
fn date_at(local: &PlainDateTime, place: u32) -> OffsetDateTime
    requires first { 0 < place }
    requires last { place < 187200 }
    ensures { instant result ≡ instant_at local.now (nth_offset place) }
{
    match UtcOffset::from_whole_seconds(offset_of(place)) {
        Ok(offset) => local.assume_offset(offset),
        Err(_) => unreachable!(),
    }
}

/// The offset of that place.
fn offset_of(place: u32) -> i32
    requires { place < 187200 }
    ensures { result ≡ nth_offset place }
{
    place as i32 - SPREAD as i32
}
