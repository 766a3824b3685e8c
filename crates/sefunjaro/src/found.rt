//! One instant of each of many local times, by rules for those that clocks show more than once or never.
ghost use Rattle.std.specs.Prelude.{◌≡◌, ◌<◌, IfSome, MatchOption, length, slice_index_or};
ghost use Rattle.tz_lookup.specs.Stretches.{IsKnown};
ghost use Rattle.sefunjaro.specs.{Clocks.{clock_shown}, Found.{by_gap, by_offset, AreFound, AreLocalTimes, AreToldOf, IsFirstFaulty, IsFound}, FoundSteps.{by_count, IsOnly}, Steadiness.{IsSteady}, Zones.{total_in}};

use crate::clock::Clock;
use crate::gap::Gap;
use crate::offsets::{UNKNOWN, stretch_at};
use crate::shown::is_in_years;
use crate::zone::{OpenZone, Reading};
use civil_base::PlainDateTime;
use tz_ever::laws;
use tz_lookup::Stretch;

/// Which instant of a local time is meant that clocks show more than once.
#[derive(Clone, Copy, Debug, PartialEq, Eq)]
pub enum FoldRule {
    /// The first.
    First,
    /// The second.
    Second,
}

/// What is meant by a local time that clocks skip.
#[derive(Clone, Copy, Debug, PartialEq, Eq)]
pub enum GapRule {
    /// The instant by the offset that is in force up to the change that skips it.
    Before,
    /// The instant by the offset that is in force from that change on.
    After,
    /// No instant: that change is told.
    None,
}

/// One instant of a local time.
#[derive(Clone, Copy, Debug, PartialEq, Eq)]
#[repr(C)]
pub struct Found {
    /// The seconds from 1970-01-01 00:00:00 UTC, rounded down; by [`GapRule::None`] the second of the change.
    pub second: i64,
    /// The seconds east of UTC by which that is the local time; by [`GapRule::None`] those up to the change.
    pub offset: i32,
    /// How many instants the local time has: 0 where clocks skip it, and 3 for three or more.
    pub kind: u32,
}

/// What is lent to be filled with readings.
const NO_READING: Reading = Reading {
    second: 0,
    offset: 0,
};

const NO_GAP: Gap = Gap {
    second: 0,
    before: 0,
    after: 0,
};

/// A law: one total is in force throughout each second, and each is an offset.
fn is_steady(zone: &OpenZone)
    ensures { IsSteady (total_in zone.now) }
{
    laws::zone_holds_in_seconds();
}

/// One instant of each of some local times, by the rules, in their order, as far as they fit.
///
/// # Errors
///
/// The place, from 0, of the first parts that are no local time. The room is then as it was.
pub(crate) fn instants_of(
    zone: &OpenZone,
    clocks: &[Clock],
    fold: FoldRule,
    gap: GapRule,
    room: &mut [Found],
) -> Result<(), usize>
    ensures { AreToldOf (total_in zone.now) fold gap clocks.now room.old room.new result }
{
    match faulty_place(clocks) {
        Some(place) => Err(place),
        None => {
            fill_found(zone, clocks, fold, gap, room);
            Ok(())
        }
    }
}

/// The place of the first parts that are no local time.
fn faulty_place(clocks: &[Clock]) -> Option<usize>
    ensures { MatchOption result (AreLocalTimes clocks.now) (IsFirstFaulty clocks.now) }
{
    for i in 0..clocks.len() {
        if !clocks[i].is_local() {
            return Some(i);
        }
    }
    None
}

/// One instant of each of parts that are all local times.
fn fill_found(zone: &OpenZone, clocks: &[Clock], fold: FoldRule, gap: GapRule, room: &mut [Found])
    requires { AreLocalTimes clocks.now }
    ensures { AreFound (total_in zone.now) fold gap clocks.now room.old room.new }
{
    let mut known = UNKNOWN;
    for i in 0..clocks.len().min(room.len()) {
        let local = local_in(clocks, i);
        known = stretch_near(zone, known, &local);
        room[i] = find_by(zone, &known, &local, fold, gap);
    }
}

/// One instant of a local time, by a stretch of the zone where it lies well within that.
fn find_by(
    zone: &OpenZone,
    known: &Stretch,
    local: &PlainDateTime,
    fold: FoldRule,
    gap: GapRule,
) -> Found
    requires { IsKnown (total_in zone.now) known.now }
    ensures { IsFound (total_in zone.now) fold gap local.now result }
{
    is_steady(zone);
    match only_instant(known, local) {
        Some(found) => found,
        None => find(zone, local, fold, gap),
    }
}

/// Seconds around the one that a local time is in UTC, more than three offsets past the greatest.
const AROUND: i64 = 300_000;

/// A stretch in which a local time may lie well within: the last one where it does, or the one that the zone tells of a second some
/// days earlier; one of no seconds where that second lies outside the years.
fn stretch_near(zone: &OpenZone, known: Stretch, local: &PlainDateTime) -> Stretch
    requires { IsKnown (total_in zone.now) known }
    ensures { IsKnown (total_in zone.now) result }
{
    let second = local.assume_utc().unix_timestamp();
    if known.from <= second - AROUND && second + AROUND < known.until {
        known
    } else {
        stretch_from(zone, second - AROUND)
    }
}

/// The stretch that a zone tells of a second, or one of no seconds where it lies outside the years.
fn stretch_from(zone: &OpenZone, second: i64) -> Stretch
    ensures { IsKnown (total_in zone.now) result }
{
    if is_in_years(second) {
        stretch_at(&zone.zone, second)
    } else {
        UNKNOWN
    }
}

/// Twice the seconds of an offset past the greatest.
const TWICE: i64 = 187_200;

/// The instant of a local time that lies so far within a stretch that no other offset is near: its only one.
fn only_instant(known: &Stretch, local: &PlainDateTime) -> Option<Found>
    ensures { IfSome result (IsOnly known.now local.now) }
{
    let second = local.assume_utc().unix_timestamp() - i64::from(known.offset);
    if known.from <= second - TWICE && second + TWICE < known.until {
        Some(Found {
            second,
            offset: known.offset,
            kind: 1,
        })
    } else {
        None
    }
}

/// The local time at a place.
fn local_in(clocks: &[Clock], place: usize) -> PlainDateTime
    requires all { AreLocalTimes clocks.now }
    requires place { place < length clocks.now }
    ensures { (c : Clock) → result ≡ clock_shown (slice_index_or clocks.now place c) }
{
    match clocks[place].local() {
        Some(local) => local,
        None => unreachable!(),
    }
}

/// One instant of a local time.
fn find(zone: &OpenZone, local: &PlainDateTime, fold: FoldRule, gap: GapRule) -> Found
    ensures { IsFound (total_in zone.now) fold gap local.now result }
{
    let mut readings = [NO_READING; 2];
    let mut skip = NO_GAP;
    let count = zone.readings_or_gap(local, &mut readings, &mut skip);
    if count == 0 {
        in_gap(local, &skip, gap)
    } else {
        among(readings[0], readings[1], count, fold)
    }
}

/// One of so many readings, of which the first two are given.
fn among(first: Reading, second: Reading, count: usize, fold: FoldRule) -> Found
    ensures { result ≡ by_count fold count first second }
{
    let taken = match fold {
        FoldRule::First => first,
        FoldRule::Second => { if count < 2 { first } else { second } }
    };
    Found {
        second: taken.second,
        offset: taken.offset,
        kind: count.min(3) as u32,
    }
}

/// The instant of a local time that a change skips.
fn in_gap(local: &PlainDateTime, skip: &Gap, rule: GapRule) -> Found
    ensures { result ≡ by_gap rule local.now skip.now }
{
    match rule {
        GapRule::Before => by_offset(local, skip.before),
        GapRule::After => by_offset(local, skip.after),
        GapRule::None => Found {
            second: skip.second,
            offset: skip.before,
            kind: 0,
        },
    }
}

/// The instant at which clocks so many seconds east of UTC show a local time that is skipped.
fn by_offset(local: &PlainDateTime, offset: i32) -> Found
    ensures { result ≡ by_offset local.now offset }
{
    Found {
        second: local.assume_utc().unix_timestamp() - i64::from(offset),
        offset,
        kind: 0,
    }
}
