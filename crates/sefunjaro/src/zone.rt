//! A zone of any kind that is kept open, and what it is asked.
ghost use Rattle.std.specs.{Prelude.{◌≡◌, ◌<◌, length, map, option_map, IfOk}, List.{slice_get}};
ghost use Rattle.civil_base.specs.DateTimes.{instant};
ghost use Rattle.tz_lookup.specs.{CompactShown.{seen}, InForce.{all_in_force, shown_of}, Sets.{schedule_of, IsAccepted}};
ghost use Rattle.sefunjaro.specs.{Gaps.{IsSkippedBy}, Asked.{reading_of, IsNamed}, Rooms.{filled}};
ghost use Rattle.tz_ever.specs.{Recurrences.{zone_total, RepeatsAs}, ZoneShown.{recurrence_of, zone_set_of}, declared.recurrence.Recurrence.TheVariants.{Later, Never}};

use crate::answer::{Answer, answer_at};
use crate::changes::{Change, changes, next_change, saving_at};
use crate::clock::Clock;
use crate::found::{FoldRule, Found, GapRule, instants_of};
use crate::gap::{Gap, find_gap, near_gap};
use crate::offsets::offsets_at;
use crate::room::{fill, put};
use crate::shown::{clocks_at, texts_at};
use civil_base::{OffsetDateTime, PlainDateTime};
use std::alloc::{AllocError, Global};
use tz_ever::{Recurrence, ZoneSet, ZoneTable, ZoneTz, laws};
use tz_lookup::{
    AllInstants, CompactFault, CompactSet, FixedTimespanSet, InstantsOf, Offset, OffsetDateTimeExt,
    PrimitiveDateTimeExt, TimeZone,
};
use zone_spans::{EARLIEST_YEAR, MOST_YEARS};

/// The change by which the clocks of a zone skip a local time that they never show.
fn zone_gap(zone: &ZoneSet, local: &PlainDateTime) -> Gap
    requires { length (all_in_force (zone_total (recurrence_of zone.now) (zone_set_of zone.now)) local.now) ≡ 0 }
    ensures { IsSkippedBy (zone_total (recurrence_of zone.now) (zone_set_of zone.now)) local.now result }
{
    laws::zone_holds_in_seconds();
    match near_gap(zone, local) {
        Some(gap) => gap,
        None => find_gap(&ZoneTz::new(zone), local),
    }
}

/// -10298-01-01 00:00:00 UTC: from then on the changes of a zone are listed that come again always.
const FIRST_TOLD: i64 = -387_140_688_000;

/// What is in force in a zone.
#[derive(Clone, Copy, Debug, PartialEq, Eq)]
#[repr(C)]
pub struct InForce {
    /// The seconds east of UTC.
    pub offset: i32,
    /// Whether it is daylight saving time.
    pub is_saving: bool,
    /// How many bytes the abbreviation has.
    pub name_length: usize,
}

/// An instant at which clocks show a local time.
#[derive(Clone, Copy, Debug, PartialEq, Eq)]
#[repr(C)]
pub struct Reading {
    /// The seconds from 1970-01-01 00:00:00 UTC, rounded down.
    pub second: i64,
    /// The seconds east of UTC that are in force then.
    pub offset: i32,
}

/// The seconds east of UTC that a zone has in force at an instant.
pub(crate) fn offset_at<T: TimeZone>(zone: &T, at: &OffsetDateTime) -> i32
    ensures { result ≡ T.total_at zone.now (instant at.now) }
{
    zone.get_offset_utc(at).to_utc().whole_seconds()
}

/// What a zone has in force at an instant. The abbreviation goes into the room, as far as it fits.
pub(crate) fn in_force<T: TimeZone>(zone: &T, at: &OffsetDateTime, room: &mut [u8]) -> InForce
    ensures offset { result.offset ≡ T.total_at zone.now (instant at.now) }
    ensures name { IsNamed (T.gives zone.now (instant at.now)) result room.old room.new }
{
    let offset = zone.get_offset_utc(at);
    let name_length = fill(offset.name().as_bytes(), room);
    InForce {
        offset: offset.to_utc().whole_seconds(),
        is_saving: offset.is_dst(),
        name_length,
    }
}

/// All instants at which the clocks of a zone show a local time, by time, as far as they fit, and how many there are.
pub(crate) fn readings<T: AllInstants>(
    zone: &T,
    local: &PlainDateTime,
    room: &mut [Reading],
) -> usize
    ensures room { room.new ≡ filled (map reading_of (all_in_force (T.total_at zone.now) local.now)) room.old }
    ensures count { result ≡ length (all_in_force (T.total_at zone.now) local.now) }
{
    let mut count = 0;
    for date in InstantsOf::new(zone, local) {
        put(reading_of(&date), count, room);
        count += 1;
    }
    count
}

/// A date-time as a reading.
pub(crate) fn reading_of(date: &OffsetDateTime) -> Reading
    ensures { result ≡ reading_of (shown_of date.now) }
{
    Reading {
        second: date.unix_timestamp(),
        offset: date.offset().whole_seconds(),
    }
}

/// The first of the instants at which the clocks of a zone show a local time, or none where they skip it.
pub(crate) fn first_reading<T: TimeZone>(zone: &T, local: &PlainDateTime) -> Option<OffsetDateTime>
    ensures { option_map shown_of result ≡ slice_get (all_in_force (T.total_at zone.now) local.now) 0 }
{
    local.assume_timezone(zone).take_first()
}

/// Where a zone comes from.
#[derive(Clone, Copy, Debug, PartialEq, Eq)]
pub enum Origin {
    /// A name of a source.
    Source,
    /// A compiled file or a POSIX string, which says only whether it is daylight saving time, and not by how much clocks are set ahead.
    File,
}

/// A zone that owns all that it is asked for, wherever it comes from: of a name in a source, of a compiled file, or of a POSIX string.
///
/// Where its changes come again, and where it is of a file or a string, it says what is in force in each year from -9999 to 9999; else with
/// its rules up to the end of 2099: [`last_year`](OpenZone::last_year) tells.
#[derive(Debug, Drop)]
pub struct OpenZone {
    pub(crate) zone: ZoneSet,
    to_2099: Option<CompactSet>,
    origin: Origin,
}

impl OpenZone {
    ghost use Rattle.std.specs.{Prelude.{◌≡◌, ◌<◌, ◌≤ℤ◌, neg_ℤ, pos, IfOk, IfSome, is_some, length, map, option_map}, List.{slice_get}};
    ghost use Rattle.civil_base.specs.{DateTimes.{instant}, Instants.{local_at}, Ranges.{is_in_years}, Instants.{seconds_of}};
    ghost use Rattle.tz_ever.specs.{ZoneShown.{recurrence_of}, declared.recurrence.Recurrence.TheVariants.{Later}};
    ghost use Rattle.tz_lookup.specs.{InForce.{all_in_force, in_force as force_at, shown_of}, Sets.{schedule_of, IsAccepted}, CompactShown.{seen}, CompactZones.{compact_of}};
    ghost use Rattle.sefunjaro.specs.{Answered.{AreReadings}, Answers.{first_told, IsAnswered, TellsSaving, TellsUntil}, Asked.{reading_of, IsNamed}, Changes.{next_after, saving_at as saving_of, window}, Found.{AreToldOf}, Gaps.{IsSkippedBy}, Offsets.{offsets_of, AreInYears}, Rooms.{filled}};
    ghost use Rattle.sefunjaro.specs.{Shown.{AreClocks, AreTexts}, Zones.{all_in, ever_in, given_in, last_year, origin_in, recurrence_in, recurrence_with, set_in, spans_in, total_in}};
    ghost use Rattle.sefunjaro.specs.declared.zone.Origin.TheVariants.{File, Source};

    /// A set that can be looked up, kept compactly, or what goes on for ever with that set beside it.
    pub(crate) fn of_set(
        alloc: Global,
        set: &FixedTimespanSet,
        for_ever: Option<ZoneSet>,
    ) -> Result<OpenZone, AllocError>
        requires accepted { IsAccepted (schedule_of set.now) }
        requires later { IfSome for_ever (λ zone. recurrence_of zone ≡ Later) }
        ensures set { IfOk result (λ zone. set_in zone ≡ set.now) }
        ensures ever { IfOk result (λ zone. ever_in zone ≡ for_ever) }
        ensures origin { IfOk result (λ zone. origin_in zone ≡ Source) }
        ensures recurs { IfOk result (λ zone. recurrence_in zone ≡ recurrence_with (ever_in zone)) }
    {
        match for_ever {
            Some(zone) => Ok(OpenZone {
                zone,
                to_2099: Some(compact_of(alloc, set)?),
                origin: Origin::Source,
            }),
            None => Ok(OpenZone {
                zone: zone_of(alloc, set, Recurrence::Never)?,
                to_2099: None,
                origin: Origin::Source,
            }),
        }
    }

    /// The zone of a file's spans, whose changes come again as that says.
    pub(crate) fn of_spans(
        alloc: Global,
        set: &FixedTimespanSet,
        recurrence: Recurrence,
    ) -> Result<OpenZone, AllocError>
        requires accepted { IsAccepted (schedule_of set.now) }
        requires repeats { RepeatsAs recurrence set.now }
        ensures set { IfOk result (λ zone. all_in zone ≡ set.now) }
        ensures origin { IfOk result (λ zone. origin_in zone ≡ File) }
        ensures recurs { IfOk result (λ zone. recurrence_in zone ≡ recurrence) }
    {
        Ok(OpenZone {
            zone: zone_of(alloc, set, recurrence)?,
            to_2099: None,
            origin: Origin::File,
        })
    }

    /// Where it comes from.
    pub fn origin(&self) -> Origin
        ensures { result ≡ origin_in self.now }
    {
        self.origin
    }

    /// The set that says what is in force up to the end of 2099.
    pub(crate) fn compact(&self) -> &CompactSet
        ensures { seen result.now ≡ set_in self.now }
    {
        match &self.to_2099 {
            Some(set) => set,
            None => self.zone.compact(),
        }
    }

    /// The last year up to whose end it says what is in force: 9999 where its changes come again or it is of a file or a string, and else
    /// 2099.
    pub fn last_year(&self) -> i32
        ensures { result ≡ last_year (origin_in self.now) (recurrence_in self.now) }
    {
        match (self.origin, self.zone.recurrence()) {
            (Origin::Source, Recurrence::Never) => i32::from(EARLIEST_YEAR + MOST_YEARS - 1),
            _ => 9999,
        }
    }

    /// What goes on for ever, where it does: [`tail_for_ever`](zone_tzif::tail_for_ever) gives its string.
    pub fn for_ever(&self) -> Option<&ZoneSet>
        ensures { option_map (λ zone. zone.now) result ≡ ever_in self.now }
    {
        match &self.to_2099 {
            Some(_) => Some(&self.zone),
            None => None,
        }
    }

    /// The seconds east of UTC that are in force at an instant.
    pub fn offset_at(&self, at: &OffsetDateTime) -> i32
        ensures { result ≡ total_in self.now (instant at.now) }
    {
        offset_at(&ZoneTz::new(&self.zone), at)
    }

    /// The seconds east of UTC that are in force at each of some seconds from 1970-01-01 00:00:00 UTC, in their order, as far as they fit
    /// in the room. By UTC each lies in the years -9999 to 9999. One that lies in the span of the one before it is looked up nowhere.
    pub fn offsets_at(&self, seconds: &[i64], room: &mut [i32])
        requires { AreInYears seconds.now }
        ensures { room.new ≡ filled (offsets_of (total_in self.now) seconds.now) room.old }
    {
        offsets_at(&self.zone, seconds, room)
    }

    /// What clocks show at each of some seconds from 1970-01-01 00:00:00 UTC, in their order, as far as it fits in the room. One that lies
    /// in the span of the one before it is looked up nowhere.
    ///
    /// # Errors
    ///
    /// The place, from 0, of the first second that lies outside the years -9999 to 9999 in UTC, or whose local date does. The room is then
    /// as it was.
    pub fn clocks_at(&self, seconds: &[i64], room: &mut [Clock]) -> Result<(), usize>
        ensures { AreClocks (total_in self.now) seconds.now room.old room.new result }
    {
        clocks_at(&self.zone, seconds, room)
    }

    /// The zoned texts of some seconds from 1970-01-01 00:00:00 UTC, one after another, each with a line feed behind it, as far as they
    /// fit in the room, and their whole length.
    ///
    /// # Errors
    ///
    /// The place, from 0, of the first second that lies outside the years -9999 to 9999 in UTC, or whose local date does; of more than
    /// 2^58 seconds that of the first too many. The room is then as it was.
    pub fn texts_at(&self, seconds: &[i64], room: &mut [u8]) -> Result<usize, usize>
        ensures { AreTexts (total_in self.now) seconds.now room.old room.new result }
    {
        texts_at(&self.zone, seconds, room)
    }

    /// All that the zone says of an instant, with the seconds around it in which no entry of the zone lies, from the year -10298 on where
    /// its changes come again always, up to the end of 10501. The abbreviation goes into the room, as far as it fits. There is no answer
    /// exactly where the local date lies outside the years -9999 to 9999.
    pub fn answer_at(&self, at: &OffsetDateTime, room: &mut [u8]) -> Option<Answer>
        ensures answer { IsAnswered (total_in self.now) (given_in self.now) (instant at.now) room.old room.new result }
        ensures saving { IfSome result (TellsSaving self.now) }
        ensures until { IfSome result (TellsUntil self.now (instant at.now)) }
    {
        laws::told_shows();
        laws::of_each_set(&self.zone);
        answer_at(
            &ZoneTable::new(&self.zone),
            at,
            self.first_told(),
            self.origin,
            room,
        )
    }

    /// The second from which on its entries are told.
    fn first_told(&self) -> i64
        ensures is { result ≡ first_told (recurrence_in self.now) }
        ensures early { result ≤ℤ neg_ℤ (pos 387140688000) }
    {
        match self.zone.recurrence() {
            Recurrence::Never => i64::MIN,
            Recurrence::Later => i64::MIN,
            Recurrence::Always => FIRST_TOLD,
        }
    }

    /// What is in force at an instant. The abbreviation goes into the room, as far as it fits.
    pub fn in_force(&self, at: &OffsetDateTime, room: &mut [u8]) -> InForce
        ensures offset { result.offset ≡ total_in self.now (instant at.now) }
        ensures name { IsNamed (given_in self.now (instant at.now)) result room.old room.new }
    {
        in_force(&ZoneTz::new(&self.zone), at, room)
    }

    /// The saving that is in force at a second from 1970-01-01 00:00:00 UTC, in seconds: what the clocks are set ahead of
    /// standard time by. It is below 0 where winter time is the one with a saving. From the end of 10501 on it is that of the last
    /// change up to then. A file says only whether it is daylight saving time: there it is an hour, or 0.
    pub fn saving_at(&self, second: i64) -> i64
        ensures { result ≡ saving_of (spans_in self.now) second }
    {
        saving_at(&ZoneTable::new(&self.zone), second)
    }

    /// The first change after a second from 1970-01-01 00:00:00 UTC, if there is one. Those of a zone that goes on for ever are told
    /// up to the end of 10501, and none after it.
    pub fn next_change(&self, second: i64) -> Option<Change>
        ensures { result ≡ next_after (spans_in self.now) second }
    {
        next_change(&ZoneTable::new(&self.zone), second)
    }

    /// The changes from a second on and before another, by time, as far as they fit in the room, and how many there are. Those of a
    /// zone that goes on for ever are told up to the end of 10501.
    pub fn changes(&self, from: i64, to: i64, room: &mut [Change]) -> usize
        ensures room { room.new ≡ filled (window (spans_in self.now) from to) room.old }
        ensures count { result ≡ length (window (spans_in self.now) from to) }
    {
        changes(&ZoneTable::new(&self.zone), from, to, room)
    }

    /// The instant at the offset in force. There is none exactly where the local date lies outside the years -9999 to 9999.
    pub fn shown_at(&self, at: &OffsetDateTime) -> Option<OffsetDateTime>
        ensures shown { IfSome result (λ value. shown_of value ≡ force_at (total_in self.now) (instant at.now)) }
        ensures years { is_some result ≡ is_in_years (local_at (instant at.now) (total_in self.now (instant at.now))) }
    {
        at.to_timezone(&ZoneTz::new(&self.zone))
    }

    /// All instants at which clocks show a local time, by time, as far as they fit in the room, and how many there are.
    pub fn readings(&self, local: &PlainDateTime, room: &mut [Reading]) -> usize
        ensures room { room.new ≡ filled (map reading_of (all_in_force (total_in self.now) local.now)) room.old }
        ensures count { result ≡ length (all_in_force (total_in self.now) local.now) }
    {
        readings(&ZoneTz::new(&self.zone), local, room)
    }

    /// The same, and where there is none the change that skips the local time.
    pub fn readings_or_gap(
        &self,
        local: &PlainDateTime,
        room: &mut [Reading],
        gap: &mut Gap,
    ) -> usize
        ensures answer { AreReadings (total_in self.now) local.now room.old room.new result gap.new }
        ensures gap { 0 < result → gap.new ≡ gap.old }
    {
        let count = self.readings(local, room);
        if count == 0 {
            *gap = self.gap(local);
        }
        count
    }

    /// One instant of each of some local times, in their order, as far as they fit in the room: of one with more than one instant that
    /// of the rule for folds, of one that clocks skip that of the rule for gaps.
    ///
    /// # Errors
    ///
    /// The place, from 0, of the first parts that are no local time. The room is then as it was.
    pub fn instants_of(
        &self,
        clocks: &[Clock],
        fold: FoldRule,
        gap: GapRule,
        room: &mut [Found],
    ) -> Result<(), usize>
        ensures { AreToldOf (total_in self.now) fold gap clocks.now room.old room.new result }
    {
        instants_of(self, clocks, fold, gap, room)
    }

    /// The change by which clocks skip a local time that they never show.
    pub fn gap(&self, local: &PlainDateTime) -> Gap
        requires { length (all_in_force (total_in self.now) local.now) ≡ 0 }
        ensures { IsSkippedBy (total_in self.now) local.now result }
    {
        zone_gap(&self.zone, local)
    }

    /// The first of the instants at which clocks show a local time, at the offset in force, or none where they skip it.
    pub fn first_reading(&self, local: &PlainDateTime) -> Option<OffsetDateTime>
        ensures { option_map shown_of result ≡ slice_get (all_in_force (total_in self.now) local.now) 0 }
    {
        first_reading(&ZoneTz::new(&self.zone), local)
    }

    /// The ring of a daily alarm on the day and at the time of day of a local time: the first of the instants at which clocks
    /// show it, or none where they skip it.
    pub fn ring(&self, local: &PlainDateTime) -> Option<Reading>
        ensures { result ≡ option_map reading_of (slice_get (all_in_force (total_in self.now) local.now) 0) }
    {
        match self.first_reading(local) {
            Some(first) => Some(reading_of(&first)),
            None => None,
        }
    }
}

/// A set that can be looked up, kept compactly.
fn compact_of(alloc: Global, set: &FixedTimespanSet) -> Result<CompactSet, AllocError>
    requires { IsAccepted (schedule_of set.now) }
    ensures { IfOk result (λ compact. seen compact ≡ set.now) }
{
    match CompactSet::build(alloc, set) {
        Ok(compact) => Ok(compact),
        Err(CompactFault::NoMemory) => Err(AllocError),
        Err(CompactFault::OffsetRange | CompactFault::Falling | CompactFault::Bound) =>
            unreachable!(),
    }
}

/// The zone of such a set, whose changes come again as that says.
fn zone_of(
    alloc: Global,
    set: &FixedTimespanSet,
    recurrence: Recurrence,
) -> Result<ZoneSet, AllocError>
    requires accepted { IsAccepted (schedule_of set.now) }
    requires repeats { RepeatsAs recurrence set.now }
    ensures set { IfOk result (λ zone. zone_set_of zone ≡ set.now) }
    ensures recurs { IfOk result (λ zone. recurrence_of zone ≡ recurrence) }
{
    match ZoneSet::build(alloc, set, recurrence) {
        Ok(zone) => Ok(zone),
        Err(CompactFault::NoMemory) => Err(AllocError),
        Err(CompactFault::OffsetRange | CompactFault::Falling | CompactFault::Bound) =>
            unreachable!(),
    }
}
