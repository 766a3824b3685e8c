//! Time zones and offsets of every kind, what they answer, all instants of a local time, and what dates gain by them.
ghost use Rattle.std.specs.{Prelude.{◌≡◌, ℕ, ℤ, pos, Bool, List, ◌≤◌, map, take, length, ◌+◌, is_some, IfSome}, Iterator.{YieldsFirst}};
ghost use Rattle.civil_base.specs.{DateTimes.{instant, local_of, offset_of}, Instants.{instant_at, seconds_of, local_at}, Ranges.{IsOffset, is_in_years}, declared.offset_date_time.OffsetDateTime.{OffsetDateTime as DateTime}};
ghost use Rattle.zone_spans.specs.Schedules.{instants, total_at};
ghost use Rattle.tz_lookup.specs.{Answers.{listed, EachOf}, InForce.{totals_at, AreInstants, all_in_force, shown_of, in_force}, Dates.{dates_from}, Sets.{schedule_of, IsAccepted}, declared.set.FixedTimespanSet.{FixedTimespanSet as Spans}};

use crate::lookups::{SpanTable, next_span, offset_of};
use civil_base::{OffsetDateTime, PlainDateTime, UtcOffset};
use std::mem;

/// An offset from UTC, with the name and the kind that a zone gives it.
pub trait Offset: Drop {
    /// The seconds east of UTC.
    ghost total: { Self → ℤ };

    /// The abbreviation.
    ghost called: { Self → List ℕ };

    /// Whether this is daylight saving time.
    ghost is_saving: { Self → Bool };

    /// The offset from UTC.
    fn to_utc(&self) -> UtcOffset
        ensures { result ≡ total self.now };

    /// The abbreviation.
    fn name(&self) -> &str
        ensures { result.now ≡ called self.now };

    /// Whether this is daylight saving time, as the zone says: of a set of spans, where the saving is above 0; of a compiled file,
    /// where its flag is set, whatever the offset.
    fn is_dst(&self) -> bool
        ensures { result ≡ is_saving self.now };
}

/// What gives an offset to each instant, and to each local time the offsets at which it is read.
///
/// Three laws hold of each zone: the total at an instant is an offset, less than 26 hours in size; an instant's offset is
/// the total at it; and the offsets of a local time are the totals at the instants that are read as it, by time: all of
/// them, or the first two. Where the zone is orderly there are at most two, so the offsets give exactly the instants. An
/// offset's abbreviation and its kind are those in force at its instant.
pub trait TimeZone {
    /// The kind of its offsets.
    type Offset: Offset;

    /// The seconds east of UTC that are in force at an instant, in nanoseconds since 1970-01-01 00:00:00 UTC.
    ghost total_at: { Self → ℤ → ℤ };

    /// No local time has more than two instants.
    ghost orderly: { Self → Type 0 };

    /// This abbreviation is in force at an instant, and whether it is daylight saving time.
    ghost gives: { Self → ℤ → List ℕ → Bool → Type 0 };

    /// The zone's name.
    ghost called: { Self → List ℕ };

    /// The seconds east of UTC of the zone's first offset.
    ghost primary: { Self → ℤ };

    /// The first offset has this abbreviation, and is daylight saving time or not.
    ghost begins: { Self → List ℕ → Bool → Type 0 };

    /// The offset in force at an instant.
    fn get_offset_utc(&self, date_time: &OffsetDateTime) -> Self::Offset
        ensures total { Self.Offset.total result ≡ total_at self.now (instant date_time.now) }
        ensures name { gives self.now (instant date_time.now) (Self.Offset.called result) (Self.Offset.is_saving result) };

    /// The offsets at which a local time is read. The date and the time of a date-time at UTC are taken for the local ones.
    fn get_offset_local(&self, date_time: &OffsetDateTime) -> OffsetResult<Self::Offset>
        requires { offset_of date_time.now ≡ pos 0 }
        ensures totals { map Self.Offset.total (listed result) ≡ take 2 (totals_at (total_at self.now) (local_of date_time.now)) }
        ensures names { EachOf (λ offset. gives self.now (instant_at (local_of date_time.now) (Self.Offset.total offset)) (Self.Offset.called offset) (Self.Offset.is_saving offset)) result }
        ensures exact { orderly self.now → AreInstants (total_at self.now) (local_of date_time.now)
            (map (instant_at (local_of date_time.now)) (map Self.Offset.total (listed result))) };

    /// The zone's first offset.
    fn get_offset_primary(&self) -> Self::Offset
        ensures total { Self.Offset.total result ≡ primary self.now }
        ensures name { begins self.now (Self.Offset.called result) (Self.Offset.is_saving result) };

    /// The zone's name.
    fn name(&self) -> &str
        ensures { result.now ≡ called self.now };

    ghost in_range: { (zone : Self) (t : ℤ) → IsOffset (total_at zone t) };

    ghost two_at_most: { (zone : Self) (time : ℤ) → orderly zone → length (instants (total_at zone) time) ≤ 2 };
}

/// The offsets of a local time: one, two where a clock was set back over it, or none where it was set ahead over it.
#[derive(Clone, Copy, Debug, Drop)]
pub enum OffsetResult<T> {
    /// One.
    Some(T),
    /// Two, the earlier instant's first.
    Ambiguous(T, T),
    /// None.
    None,
}

impl<T: Drop> OffsetResult<T> {
    ghost use Rattle.tz_lookup.specs.{Answers.{AreMapped, EachOf, listed}, Results.{has_one, first_in, second_in, only_in, is_none_in, is_ambiguous_in}};
    ghost use Rattle.std.specs.{Iterator.{YieldsFirst}, Prelude.{◌≡◌, IsTrue, false, Some}};

    /// What a function makes of each value, in the same order.
    pub fn map<U: Drop, F: Fn(T) -> U + Drop>(self, f: F) -> OffsetResult<U>
        requires { EachOf (F.pre f) self }
        ensures { AreMapped (F.post f) self result }
    {
        match self {
            OffsetResult::Some(only) => OffsetResult::Some(f(only)),
            OffsetResult::Ambiguous(first, second) => {
                let mapped = f(first);
                OffsetResult::Ambiguous(mapped, f(second))
            }
            OffsetResult::None => OffsetResult::None,
        }
    }

    /// The only value, which has to be there.
    pub fn unwrap(self) -> T
        requires { IsTrue (has_one self) }
        ensures { only_in self ≡ Some result }
    {
        match self {
            OffsetResult::Some(value) => value,
            OffsetResult::Ambiguous(..) | OffsetResult::None => unreachable!(),
        }
    }

    /// The first value. There has to be one.
    pub fn unwrap_first(self) -> T
        requires { is_none_in self ≡ false }
        ensures { first_in self ≡ Some result }
    {
        match self {
            OffsetResult::Some(value) => value,
            OffsetResult::Ambiguous(first, _) => first,
            OffsetResult::None => unreachable!(),
        }
    }

    /// The second value, which is the only one where there is one. There has to be one.
    pub fn unwrap_second(self) -> T
        requires { is_none_in self ≡ false }
        ensures { second_in self ≡ Some result }
    {
        match self {
            OffsetResult::Some(value) => value,
            OffsetResult::Ambiguous(_, second) => second,
            OffsetResult::None => unreachable!(),
        }
    }

    /// The only value: none where there are two or there is none.
    pub fn take(self) -> Option<T>
        ensures { result ≡ only_in self }
    {
        match self {
            OffsetResult::Some(value) => Some(value),
            OffsetResult::Ambiguous(..) | OffsetResult::None => None,
        }
    }

    /// The first value, if there is one.
    pub fn take_first(self) -> Option<T>
        ensures { result ≡ first_in self }
    {
        match self {
            OffsetResult::Some(value) => Some(value),
            OffsetResult::Ambiguous(first, _) => Some(first),
            OffsetResult::None => None,
        }
    }

    /// The second value, which is the only one where there is one.
    pub fn take_second(self) -> Option<T>
        ensures { result ≡ second_in self }
    {
        match self {
            OffsetResult::Some(value) => Some(value),
            OffsetResult::Ambiguous(_, second) => Some(second),
            OffsetResult::None => None,
        }
    }

    /// Takes the first value out, and leaves what comes after it.
    pub fn take_next(&mut self) -> Option<T>
        ensures { YieldsFirst listed self.old result self.new }
    {
        match mem::replace(self, OffsetResult::None) {
            OffsetResult::None => None,
            OffsetResult::Some(only) => Some(only),
            OffsetResult::Ambiguous(first, second) => {
                *self = OffsetResult::Some(second);
                Some(first)
            }
        }
    }

    /// Whether there is none.
    pub fn is_none(&self) -> bool
        ensures { result ≡ is_none_in self.now }
    {
        matches!(self, OffsetResult::None)
    }

    /// Whether there are two.
    pub fn is_ambiguous(&self) -> bool
        ensures { result ≡ is_ambiguous_in self.now }
    {
        matches!(self, OffsetResult::Ambiguous(..))
    }
}

/// A zone that gives every instant at which its clocks show a local time, by time, however many there are. It takes no memory.
///
/// [`InstantsOf`] goes over them. Where the zone can tell that there are at most two, it may find them at once; else it looks for
/// one after another.
pub trait AllInstants: TimeZone {
    /// What is still to give of the instants of a local time.
    type Cursor: Drop;

    /// The date-times that are still to give, by time.
    ghost left: { Self → Self.Cursor → List DateTime };

    /// All of them: the local time at each instant at which clocks show it, with the offset in force there.
    fn begin(&self, local: &PlainDateTime) -> Self::Cursor
        ensures { map shown_of (left self.now result) ≡ all_in_force (Self.total_at self.now) local.now };

    /// Takes the next one out; none where none is left.
    fn next(&self, cursor: &mut Self::Cursor) -> Option<OffsetDateTime>
        ensures { YieldsFirst (left self.now) cursor.old result cursor.new };
}

/// The date-times that a zone reads as one local time, the earliest first, each once. It takes no memory.
#[derive(Drop)]
pub struct InstantsOf<'z, Z: AllInstants> {
    zone: &'z Z,
    cursor: Z::Cursor,
    ghost few: { length (Z.left zone.now cursor) ≤ 187199 },
}

impl<'z, Z: AllInstants> InstantsOf<'z, Z> {
    ghost use Rattle.std.specs.Prelude.{◌≡◌, ◌≤◌, map, length};
    ghost use Rattle.civil_base.specs.DateTimes.{instant};
    ghost use Rattle.tz_lookup.specs.{AllLeft.{all_left}, InForce.{all_in_force, shown_of, AreInstants}};

    /// The instants that the zone reads as that local time: at most one for each whole second between -26 and 26 hours.
    pub fn new(zone: &'z Z, local: &PlainDateTime) -> InstantsOf<'z, Z>
        ensures all { map shown_of (all_left result) ≡ all_in_force (Z.total_at zone.now) local.now }
        ensures few { length (all_left result) ≤ 187199 }
        ensures exact { AreInstants (Z.total_at zone.now) local.now (map instant (all_left result)) }
    {
        InstantsOf {
            zone,
            cursor: zone.begin(local),
        }
    }
}

impl<'z, Z: AllInstants> Iterator for InstantsOf<'z, Z> {
    type Item = OffsetDateTime;

    ghost use Rattle.std.specs.Iterator.{YieldsFirst, item_count};
    ghost use Rattle.tz_lookup.specs.AllLeft.{all_left};

    ghost next_gives = { YieldsFirst all_left };

    ghost remaining = { item_count all_left };

    fn next(&mut self) -> Option<OffsetDateTime> {
        self.zone.next(&mut self.cursor)
    }
}

/// The second of a local time, rounded down. In every set that can be looked up the spans that contain it are those at whose
/// totals the local time is read, in the order of the instants.
pub fn local_second(local: &PlainDateTime) -> i64
    ensures value { result ≡ seconds_of local.now }
    ensures all { (set : Spans) → IsAccepted (schedule_of set) →
        map shown_of (dates_from set local.now result 0) ≡ all_in_force (total_at (schedule_of set)) local.now }
    ensures few { (set : Spans) → length (dates_from set local.now result 0) ≤ length set.others + 1 }
{
    local.assume_utc().unix_timestamp()
}

/// The spans that are still to look at for a local time, from one on.
#[derive(Clone, Copy, Debug, Drop)]
pub struct SpanScan {
    local: PlainDateTime,
    second: i64,
    next: usize,
}

impl SpanScan {
    ghost use Rattle.std.specs.{Iterator.{YieldsFirst}, Prelude.{◌≡◌, ◌≤◌, ◌+◌, length, map}};
    ghost use Rattle.zone_spans.specs.Schedules.{total_at};
    ghost use Rattle.tz_lookup.specs.{Cursors.{dates_to_scan}, InForce.{all_in_force, shown_of}, Sets.{schedule_of, IsAccepted}, declared.set.FixedTimespanSet.{FixedTimespanSet as Spans}};

    /// Each span is still to look at for a local time.
    pub fn new(local: &PlainDateTime) -> SpanScan
        ensures all { (set : Spans) → IsAccepted (schedule_of set) →
            map shown_of (dates_to_scan set result) ≡ all_in_force (total_at (schedule_of set)) local.now }
        ensures few { (set : Spans) → length (dates_to_scan set result) ≤ length set.others + 1 }
    {
        SpanScan {
            local: *local,
            second: local_second(local),
            next: 0,
        }
    }

    /// The local time at the total of the next span of a set that contains it; none where no further one does. The set can be looked up.
    pub fn next<T: SpanTable>(&mut self, set: &T) -> Option<OffsetDateTime>
        requires { IsAccepted (schedule_of (T.seen set.now)) }
        ensures { YieldsFirst (dates_to_scan (T.seen set.now)) self.old result self.new }
    {
        match next_span(set, self.second, self.next) {
            None => None,
            Some(span) => {
                self.next = span + 1;
                Some(self.local.assume_offset(offset_of(set, span)))
            }
        }
    }
}

/// What is still to give of the date-times that a set of spans reads as one local time.
#[derive(Clone, Copy, Debug, Drop)]
pub enum SpanCursor {
    /// These, which a search found in an orderly set.
    Found(OffsetResult<OffsetDateTime>),
    /// Those of the spans that are still to look at, on any other set.
    Sought(SpanScan),
}

impl SpanCursor {
    ghost use Rattle.std.specs.Iterator.{YieldsFirst};
    ghost use Rattle.tz_lookup.specs.{Cursors.{cursor_left}, Sets.{schedule_of, IsAccepted}};

    /// The next of them; none where none is left. The set can be looked up.
    pub fn next<T: SpanTable>(&mut self, set: &T) -> Option<OffsetDateTime>
        requires { IsAccepted (schedule_of (T.seen set.now)) }
        ensures { YieldsFirst (cursor_left (T.seen set.now)) self.old result self.new }
    {
        match self {
            SpanCursor::Found(dates) => dates.take_next(),
            SpanCursor::Sought(scan) => scan.next(set),
        }
    }
}

/// What a date-time with an offset becomes in a zone.
pub trait OffsetDateTimeExt {
    /// The instant.
    ghost at: { Self → ℤ };

    /// The same instant at the zone's offset. There is none exactly where the local date lies outside the years -9999 to
    /// 9999.
    fn to_timezone<T: TimeZone>(&self, tz: &T) -> Option<OffsetDateTime>
        ensures shown { IfSome result (λ value. shown_of value ≡ in_force (T.total_at tz.now) (at self.now)) }
        ensures years { is_some result ≡ is_in_years (local_at (at self.now) (T.total_at tz.now (at self.now))) };
}

/// What a date-time without an offset becomes in a zone.
pub trait PrimitiveDateTimeExt {
    /// The nanoseconds from 1970-01-01 00:00:00.
    ghost number: { Self → ℤ };

    /// The date-time at each offset at which the zone reads it: all of them, or the first two, by time.
    fn assume_timezone<T: TimeZone>(&self, tz: &T) -> OffsetResult<OffsetDateTime>
        ensures shown { map shown_of (listed result) ≡ take 2 (all_in_force (T.total_at tz.now) (number self.now)) }
        ensures exact { T.orderly tz.now → AreInstants (T.total_at tz.now) (number self.now) (map instant (listed result)) };

    /// The date-time at the offset that is in force at it, read as UTC.
    fn assume_timezone_utc<T: TimeZone>(&self, tz: &T) -> OffsetDateTime
        ensures local { local_of result ≡ number self.now }
        ensures offset { offset_of result ≡ T.total_at tz.now (number self.now) };
}

impl OffsetDateTimeExt for OffsetDateTime {
    ghost at = { instant };

    fn to_timezone<T: TimeZone>(&self, tz: &T) -> Option<OffsetDateTime> {
        let offset = tz.get_offset_utc(self);
        self.to_offset(offset.to_utc())
    }
}

impl PrimitiveDateTimeExt for PlainDateTime {
    ghost number = { λ time. time };

    fn assume_timezone<T: TimeZone>(&self, tz: &T) -> OffsetResult<OffsetDateTime> {
        tz.get_offset_local(&self.assume_utc())
            .map(|offset| self.assume_offset(offset.to_utc()))
    }

    fn assume_timezone_utc<T: TimeZone>(&self, tz: &T) -> OffsetDateTime {
        let offset = tz.get_offset_utc(&self.assume_utc());
        self.assume_offset(offset.to_utc())
    }
}
