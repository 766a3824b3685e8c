//! A zone that is asked.
ghost use Rattle.std.specs.Prelude.{◌≡◌, ℤ, ◌≤◌, ◌%◌, ◌*ℤ◌, ◌≤ℤ◌, length, ◌&&◌, int_le, int_lt, pos, unsigned_abs};
ghost use Rattle.civil_base.specs.{Clock.{nanos_per_day}, DateTimes.{local_of, offset_of}, Julian.{day_of_julian}, Ranges.{IsDay, IsOffset}};
ghost use Rattle.zone_spans.specs.{Entries.{total}, Schedules.{instants}};
ghost use Rattle.tz_lookup.specs.{Sets.{schedule_of, IsOrderlyZone}, CompactZones.{compact_of}};
ghost use Rattle.tz_ever.specs.{Ever.{ever_left}, Recurrences.{RepeatsAs, ZoneGives, is_kept, turned, zone_total}, Seam.{next_seam_day, seam_day}, declared.recurrence.Recurrence.TheVariants.{Always}};

use crate::recurrence::Recurrence;
use crate::zone_set::ZoneSet;
use civil_base::{Date, OffsetDateTime, PlainDateTime};
use tz_lookup::{AllInstants, CompactOffset, CompactTz, OffsetResult, SpanCursor, TimeZone};

/// The Julian day of 2102-01-01.
const SEAM_DAY: i32 = 2_488_800;

/// The Julian day of 2502-01-01.
const NEXT_SEAM_DAY: i32 = 2_634_897;

/// The days of 400 years.
const CYCLE_DAYS: i32 = 146_097;

/// The days of 31 cycles: every date lies less than that before 2102.
const EARLIER_DAYS: i32 = 4_529_007;

/// The zone of a [`ZoneSet`], which it borrows. An instant, or a local time, of another cycle than that which is kept is turned to it by
/// whole cycles of 400 years, at the cost of a division.
#[derive(Clone, Copy, Debug, Drop)]
pub struct ZoneTz<'a> {
    zone: CompactTz<'a>,
    recurrence: Recurrence,
    ghost repeats: { RepeatsAs recurrence (compact_of zone) },
    ghost range: { (t : ℤ) → IsOffset (zone_total recurrence (compact_of zone) t) },
    ghost two: { IsOrderlyZone (schedule_of (compact_of zone)) → (time : ℤ) → length (instants (zone_total recurrence (compact_of zone)) time) ≤ 2 },
}

/// What is still to give of the instants of a local time.
#[derive(Clone, Copy, Debug, Drop)]
pub struct ZoneCursor {
    local: PlainDateTime,
    found: SpanCursor,
}

impl<'a> ZoneTz<'a> {
    ghost use Rattle.std.specs.Prelude.{◌≡◌, ◌↔◌, IsTrue};
    ghost use Rattle.tz_lookup.specs.Sets.{schedule_of, IsOrderlyZone};
    ghost use Rattle.tz_ever.specs.{ZoneShown.{recurrence_of, zone_set_of}, Asked.{asked_recurrence, asked_set}};

    /// The zone of a set.
    pub fn new(set: &'a ZoneSet) -> ZoneTz<'a>
        ensures set { asked_set result ≡ zone_set_of set.now }
        ensures recurrence { asked_recurrence result ≡ recurrence_of set.now }
    {
        let zone = CompactTz::new(set.compact());
        let recurrence = set.recurrence();
        ZoneTz { zone, recurrence }
    }

    /// Whether local starts don't fall, local ends don't fall, and no local time lies in a span and in the next but one, of all spans
    /// that are kept. Then no local time has more than two instants, for ever.
    pub fn is_orderly(&self) -> bool
        ensures { IsTrue result ↔ IsOrderlyZone (schedule_of (asked_set self.now)) }
    {
        self.zone.is_orderly()
    }
}

impl<'a> TimeZone for ZoneTz<'a> {
    type Offset = CompactOffset<'a>;

    ghost total_at = { λ zone. zone_total zone.recurrence (compact_of zone.zone) };

    ghost orderly = { λ zone. IsOrderlyZone (schedule_of (compact_of zone.zone)) };

    ghost gives = { λ zone. ZoneGives zone.recurrence (compact_of zone.zone) };

    ghost called = { λ zone. (compact_of zone.zone).name };

    ghost primary = { λ zone. total (compact_of zone.zone).first };

    ghost begins = { λ zone name saving. (name ≡ (compact_of zone.zone).first.name) × (saving ≡ int_lt (pos 0) (compact_of zone.zone).first.dst_offset) };

    fn get_offset_utc(&self, date_time: &OffsetDateTime) -> CompactOffset<'a> {
        self.zone
            .get_offset_utc(&turned(self.recurrence, date_time))
    }

    fn get_offset_local(&self, date_time: &OffsetDateTime) -> OffsetResult<CompactOffset<'a>> {
        self.zone
            .get_offset_local(&turned(self.recurrence, date_time))
    }

    fn get_offset_primary(&self) -> CompactOffset<'a> {
        self.zone.get_offset_primary()
    }

    fn name(&self) -> &str {
        self.zone.name()
    }

    ghost in_range = { λ zone t. zone.range t };

    ghost two_at_most = { λ zone time orderly. zone.two orderly time };
}

impl<'a> AllInstants for ZoneTz<'a> {
    type Cursor = ZoneCursor;

    ghost left = { λ zone cursor. ever_left (compact_of zone.zone) cursor.local cursor.found };

    fn begin(&self, local: &PlainDateTime) -> ZoneCursor {
        ZoneCursor {
            local: *local,
            found: self.zone.begin(&local_turned(self.recurrence, local)),
        }
    }

    fn next(&self, cursor: &mut ZoneCursor) -> Option<OffsetDateTime> {
        match self.zone.next(&mut cursor.found) {
            None => None,
            Some(earlier) => Some(cursor.local.assume_offset(earlier.offset())),
        }
    }
}

/// Whether a date lies in the years that are kept.
fn is_kept(recurrence: Recurrence, date: Date) -> bool
    ensures { result ≡ is_kept recurrence date }
{
    match recurrence {
        Recurrence::Never => true,
        Recurrence::Later => is_early(date),
        Recurrence::Always => is_in_cycle(date),
    }
}

/// Whether a date lies in 2501 or before.
fn is_early(date: Date) -> bool
    ensures { result ≡ int_lt date next_seam_day }
{
    date.to_julian_day() < NEXT_SEAM_DAY
}

/// Whether a date lies in 2102 or later.
fn is_begun(date: Date) -> bool
    ensures { result ≡ int_le seam_day date }
{
    date.to_julian_day() >= SEAM_DAY
}

/// Whether a date lies in the years 2102 to 2501.
fn is_in_cycle(date: Date) -> bool
    ensures { result ≡ int_le seam_day date && int_lt date next_seam_day }
{
    is_begun(date) && is_early(date)
}

/// A date-time turned to the years that are kept, at the same offset.
fn turned(recurrence: Recurrence, date_time: &OffsetDateTime) -> OffsetDateTime
    ensures local { local_of result ≡ turned recurrence (local_of date_time.now) }
    ensures offset { offset_of result ≡ offset_of date_time.now }
    ensures range { IsOffset (offset_of date_time.now) }
{
    // Read for what it says of every offset: that it is in range.
    let _in_range = date_time.offset().whole_seconds();
    if is_kept(recurrence, date_time.date()) {
        *date_time
    } else {
        in_cycle(local_of(date_time)).assume_offset(date_time.offset())
    }
}

/// A local time turned to the years that are kept.
fn local_turned(recurrence: Recurrence, local: &PlainDateTime) -> PlainDateTime
    ensures { result ≡ turned recurrence local.now }
{
    if is_kept(recurrence, local.date()) {
        *local
    } else {
        in_cycle(*local)
    }
}

/// The date and the time of a date-time.
fn local_of(date_time: &OffsetDateTime) -> PlainDateTime
    ensures { result ≡ local_of date_time.now }
{
    PlainDateTime::new(date_time.date(), date_time.time())
}

/// A local time turned to the years 2102 to 2501.
fn in_cycle(local: PlainDateTime) -> PlainDateTime
    ensures { result ≡ turned Always local }
{
    PlainDateTime::new(date_in_cycle(local.date()), local.time())
}

fn date_in_cycle(date: Date) -> Date
    requires { IsDay date }
    ensures { result *ℤ pos nanos_per_day ≡ turned Always (date *ℤ pos nanos_per_day) }
{
    match Date::from_julian_day(julian_in_cycle(date.to_julian_day())) {
        Ok(there) => there,
        Err(_) => unreachable!(),
    }
}

fn julian_in_cycle(day: i32) -> i32
    requires { IsDay (day_of_julian day) }
    ensures value { day_of_julian result *ℤ pos nanos_per_day ≡ turned Always (day_of_julian day *ℤ pos nanos_per_day) }
    ensures years { IsDay (day_of_julian result) }
{
    SEAM_DAY + day_of_cycle(day - SEAM_DAY + EARLIER_DAYS)
}

/// Days, without the whole cycles in them.
fn day_of_cycle(days: i32) -> i32
    requires { pos 0 ≤ℤ days }
    ensures { result ≡ pos (unsigned_abs days % 146097) }
{
    days % CYCLE_DAYS
}
