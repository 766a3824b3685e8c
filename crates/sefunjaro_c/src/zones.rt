//! What a zone is asked: instants, local times and readings.
ghost use Rattle.std.specs.Prelude.{◌≡◌, ◌<◌, IfNone, IfSome, MatchOption, is_some, true, false, unsigned_abs, IfErr, IfOk, length, nat_eq};
ghost use Rattle.civil_base.specs.{DateTimes.{instant, local_of, offset_of}, Instants.{instant_at, local_at}, Ranges.{is_in_years, IsOffset}, Layout.{day_part, time_part, zoned_text}};
ghost use Rattle.sefunjaro_c.specs.{Read.{local_in, IsInstantOf, IsLocalRead, IsNoZonedText, IsZonedRead}, Times.{is_instant, is_near, nanos_at}, Answers.{is_shown, IsClockIn, IsTextIn, OfClock, Within, Where}, Opened.{StaysLent}, Statuses.{IfRefused, out_of_memory}, Held.{OfZone, OnZone, IsZone, Seen}};
ghost use Rattle.sefunjaro.specs.{Answered.{AreReadings, IsInForce}, Clocks.{clock_at}, Rooms.{filled}};

use crate::fault::{DONE, NO_MEMORY, NOT_OPEN, NOT_READ, OUT_OF_RANGE};
use crate::handle::Handle;
use crate::opened::Opened;
use crate::view::View;
use civil_base::{OffsetDateTime, PlainDateTime, UtcOffset, read_local, read_zoned, write_zoned};
use sefunjaro::{Clock, Gap, InForce, OpenZone, Reading, fill};
use std::alloc::Global;
use zone_source::text_of;

/// The greatest offset, in seconds.
const GREATEST: i32 = 93_599;

/// An instant, and an offset from UTC.
#[derive(Clone, Copy, Debug, PartialEq, Eq)]
#[repr(C)]
pub struct Instant {
    /// The seconds from 1970-01-01 00:00:00 UTC, rounded down.
    pub second: i64,
    /// The nanoseconds from that second on, from 0 to 999,999,999.
    pub nanosecond: u32,
    /// The seconds east of UTC.
    pub offset: i32,
}

/// The instant so many seconds and nanoseconds from 1970-01-01 00:00:00 UTC, if it lies at most 93,599 seconds outside the years
/// -9999 to 9999.
pub(crate) fn instant_of(second: i64, nanosecond: u32) -> Option<OffsetDateTime>
    ensures some { IfSome result (λ at. (is_instant second nanosecond ≡ true) × (instant at ≡ nanos_at second nanosecond)) }
    ensures none { IfNone result (is_instant second nanosecond ≡ false) }
{
    if nanosecond >= 1_000_000_000 {
        return None;
    }
    near_instant(i128::from(second) * 1_000_000_000 + i128::from(nanosecond))
}

/// The same of so many nanoseconds.
fn near_instant(nanos: i128) -> Option<OffsetDateTime>
    requires { unsigned_abs nanos < 10000000000000000000000000000 }
    ensures has { is_some result ≡ is_near nanos }
    ensures instant { IfSome result (λ at. instant at ≡ nanos) }
{
    match OffsetDateTime::from_unix_timestamp_nanos(nanos) {
        Ok(at) => Some(at),
        Err(_) => far_instant(nanos),
    }
}

/// The same by the clocks that show the latest date where the instant lies before 1970, and else by those that show the earliest.
fn far_instant(nanos: i128) -> Option<OffsetDateTime>
    requires { unsigned_abs nanos < 10000000000000000000000000000 }
    ensures has { is_some result ≡ is_near nanos }
    ensures instant { IfSome result (λ at. instant at ≡ nanos) }
{
    if nanos < 0 {
        shown_at(nanos, GREATEST)
    } else {
        shown_at(nanos, -GREATEST)
    }
}

/// An instant at an offset, if its date lies in the years -9999 to 9999 there.
fn shown_at(nanos: i128, seconds: i32) -> Option<OffsetDateTime>
    requires near { unsigned_abs nanos < 10000000000000000000000000000 }
    requires offset { IsOffset seconds }
    ensures has { is_some result ≡ is_in_years (local_at nanos seconds) }
    ensures instant { IfSome result (λ at. instant at ≡ nanos) }
{
    let Ok(offset) = UtcOffset::from_whole_seconds(seconds) else {
        unreachable!();
    };
    match OffsetDateTime::from_unix_timestamp_nanos(nanos + 1_000_000_000 * i128::from(seconds)) {
        Ok(shown) => Some(moved_to(&shown, offset)),
        Err(_) => None,
    }
}

/// The instant at which clocks at an offset show what others show.
fn moved_to(shown: &OffsetDateTime, offset: UtcOffset) -> OffsetDateTime
    ensures { instant result ≡ instant_at (local_of shown.now) offset }
{
    PlainDateTime::new(shown.date(), shown.time()).assume_offset(offset)
}

/// The local time that a text `YYYY-MM-DD hh:mm:ss.nnnnnnnnn` names, by its parts. A year below 0 has a `-` before it.
#[unsafe(no_mangle)]
pub extern "C" fn sefunjaro_read_local(text: &[u8], clock: &mut Clock) -> u32
    ensures answer { IsLocalRead (local_in text.now) result clock.old clock.new }
    ensures kept { IfRefused result (clock.new ≡ clock.old) }
{
    match local_in(text) {
        Some(local) => {
            *clock = Clock::at(local.date(), local.time());
            DONE
        }
        None => NOT_READ,
    }
}

/// The local time that bytes name, if they are its text.
fn local_in(text: &[u8]) -> Option<PlainDateTime>
    ensures { result ≡ local_in text.now }
{
    match text_of(text) {
        Some(text) => read_local(text),
        None => None,
    }
}

/// The instant and the offset that a text `YYYY-MM-DD hh:mm:ss.nnnnnnnnn +hh:mm:ss` names. A year below 0 has a `-` before it.
#[unsafe(no_mangle)]
pub extern "C" fn sefunjaro_read_zoned(text: &[u8], instant: &mut Instant) -> u32
    ensures answer { IsZonedRead text.now result instant.old instant.new }
    ensures kept { IfRefused result (instant.new ≡ instant.old) }
{
    match zoned_in(text) {
        Some(read) => {
            *instant = read;
            DONE
        }
        None => NOT_READ,
    }
}

/// The instant and the offset that bytes name, if they are the text of some.
fn zoned_in(text: &[u8]) -> Option<Instant>
    ensures { MatchOption result (IsNoZonedText text.now) (IsInstantOf text.now) }
{
    match text_of(text) {
        Some(text) => zoned_of(text),
        None => None,
    }
}

/// The instant and the offset that a text names, if it names some.
fn zoned_of(text: &str) -> Option<Instant>
    ensures { MatchOption result (IsNoZonedText text.now) (IsInstantOf text.now) }
{
    match read_zoned(text) {
        Some(read) => Some(parts_of(&read)),
        None => None,
    }
}

/// The instant of a date-time in parts, with its offset.
fn parts_of(read: &OffsetDateTime) -> Instant
    ensures instant { nanos_at result.second result.nanosecond ≡ instant read.now }
    ensures part { result.nanosecond < 1000000000 }
    ensures offset { result.offset ≡ offset_of read.now }
{
    let nanos = read.unix_timestamp_nanos();
    Instant {
        second: read.unix_timestamp(),
        nanosecond: nanos.rem_euclid(1_000_000_000) as u32,
        offset: read.offset().whole_seconds(),
    }
}

/// Opens another handle on the same zone, as another thread may need it. What the other held before is closed.
#[unsafe(no_mangle)]
pub extern "C" fn sefunjaro_share_by(alloc: Global, zone: &mut View, other: &mut Handle) -> u32
    ensures lent { StaysLent zone.old zone.new }
    ensures opened { is_some other.new.held.opened ≡ nat_eq result 0 }
    ensures answer { OnZone zone.old.part.opened result (Unit {0})
        (λ held. MatchOption other.new.held.opened (result ≡ out_of_memory) (IsZone (λ shared. shared ≡ held))) }
{
    drop(other.take(alloc));
    let Some(reading) = zone.take() else {
        return NOT_OPEN;
    };
    let made = shared(alloc, reading.get());
    zone.put(reading);
    match made {
        Ok(opened) => {
            other.put(alloc, opened);
            DONE
        }
        Err(status) => status,
    }
}

/// One owner more of a zone.
fn shared(alloc: Global, opened: &Opened) -> Result<Box<Opened>, u32>
    ensures ok { IfOk result (λ other. OfZone opened.now 0 (Unit {0}) (λ held. IsZone (λ shared. shared ≡ held) other.value)) }
    ensures err { IfErr result (λ status. OfZone opened.now status (Unit {0}) (λ _. status ≡ out_of_memory)) }
{
    match opened {
        Opened::Zone(zone) => match Opened::shared(alloc, zone) {
            Ok(other) => Ok(other),
            Err(_) => Err(NO_MEMORY),
        },
        Opened::Source(_) => Err(NOT_OPEN),
    }
}

/// The seconds east of UTC that are in force at an instant.
#[unsafe(no_mangle)]
pub extern "C" fn sefunjaro_offset_at_by(
    zone: &mut View,
    second: i64,
    nanosecond: u32,
    offset: &mut i32,
) -> u32
    ensures lent { StaysLent zone.old zone.new }
    ensures answer { OnZone zone.old.part.opened result (offset.new ≡ offset.old)
        (λ held. Where (is_instant second nanosecond) result (offset.new ≡ offset.old) (Seen held (λ total _. offset.new ≡ total (nanos_at second nanosecond)))) }
    ensures kept { IfRefused result (offset.new ≡ offset.old) }
{
    let Some(reading) = zone.take() else {
        return NOT_OPEN;
    };
    let status = offset_at(reading.get(), second, nanosecond, offset);
    zone.put(reading);
    status
}

fn offset_at(opened: &Opened, second: i64, nanosecond: u32, offset: &mut i32) -> u32
    ensures answer { OfZone opened.now result (offset.new ≡ offset.old)
        (λ held. Where (is_instant second nanosecond) result (offset.new ≡ offset.old) (Seen held (λ total _. offset.new ≡ total (nanos_at second nanosecond)))) }
    ensures kept { IfRefused result (offset.new ≡ offset.old) }
{
    let Opened::Zone(zone) = opened else {
        return NOT_OPEN;
    };
    match instant_of(second, nanosecond) {
        Some(at) => {
            *offset = zone.offset_at(&at);
            DONE
        }
        None => OUT_OF_RANGE,
    }
}

/// What is in force at an instant. The abbreviation goes into the room, as far as it fits, and its whole length is told.
#[unsafe(no_mangle)]
pub extern "C" fn sefunjaro_in_force_by(
    zone: &mut View,
    second: i64,
    nanosecond: u32,
    found: &mut InForce,
    name: &mut [u8],
) -> u32
    ensures lent { StaysLent zone.old zone.new }
    ensures answer { OnZone zone.old.part.opened result (name.new ≡ name.old)
        (λ held. Where (is_instant second nanosecond) result (name.new ≡ name.old)
        (Seen held (λ total gives. IsInForce total gives (nanos_at second nanosecond) found.new name.old name.new))) }
    ensures kept { IfRefused result ((found.new ≡ found.old) × (name.new ≡ name.old)) }
{
    let Some(reading) = zone.take() else {
        return NOT_OPEN;
    };
    let status = in_force(reading.get(), second, nanosecond, found, name);
    zone.put(reading);
    status
}

fn in_force(
    opened: &Opened,
    second: i64,
    nanosecond: u32,
    found: &mut InForce,
    name: &mut [u8],
) -> u32
    ensures answer { OfZone opened.now result (name.new ≡ name.old)
        (λ held. Where (is_instant second nanosecond) result (name.new ≡ name.old)
        (Seen held (λ total gives. IsInForce total gives (nanos_at second nanosecond) found.new name.old name.new))) }
    ensures kept { IfRefused result ((found.new ≡ found.old) × (name.new ≡ name.old)) }
{
    let Opened::Zone(zone) = opened else {
        return NOT_OPEN;
    };
    match instant_of(second, nanosecond) {
        Some(at) => {
            *found = zone.in_force(&at, name);
            DONE
        }
        None => OUT_OF_RANGE,
    }
}

/// The local date and time of an instant, and the seconds east of UTC that are in force.
#[unsafe(no_mangle)]
pub extern "C" fn sefunjaro_clock_at_by(
    zone: &mut View,
    second: i64,
    nanosecond: u32,
    clock: &mut Clock,
    offset: &mut i32,
) -> u32
    ensures lent { StaysLent zone.old zone.new }
    ensures answer { OnZone zone.old.part.opened result (clock.new ≡ clock.old)
        (λ held. Within (is_instant second nanosecond) result (clock.new ≡ clock.old) (Seen held (λ total _.
        Where (is_shown total (nanos_at second nanosecond)) result (clock.new ≡ clock.old) (IsClockIn total (nanos_at second nanosecond) clock.new offset.new)))) }
    ensures kept { IfRefused result ((clock.new ≡ clock.old) × (offset.new ≡ offset.old)) }
{
    let Some(reading) = zone.take() else {
        return NOT_OPEN;
    };
    let status = clock_at(reading.get(), second, nanosecond, clock, offset);
    zone.put(reading);
    status
}

fn clock_at(
    opened: &Opened,
    second: i64,
    nanosecond: u32,
    clock: &mut Clock,
    offset: &mut i32,
) -> u32
    ensures answer { OfZone opened.now result (clock.new ≡ clock.old)
        (λ held. Within (is_instant second nanosecond) result (clock.new ≡ clock.old) (Seen held (λ total _.
        Where (is_shown total (nanos_at second nanosecond)) result (clock.new ≡ clock.old) (IsClockIn total (nanos_at second nanosecond) clock.new offset.new)))) }
    ensures kept { IfRefused result ((clock.new ≡ clock.old) × (offset.new ≡ offset.old)) }
{
    let Opened::Zone(zone) = opened else {
        return NOT_OPEN;
    };
    match instant_of(second, nanosecond) {
        Some(at) => clock_in(zone, &at, clock, offset),
        None => OUT_OF_RANGE,
    }
}

fn clock_in(zone: &OpenZone, at: &OffsetDateTime, clock: &mut Clock, offset: &mut i32) -> u32
    ensures answer { Seen zone.now (λ total _. Where (is_shown total (instant at.now)) result (clock.new ≡ clock.old) (IsClockIn total (instant at.now) clock.new offset.new)) }
    ensures kept { IfRefused result ((clock.new ≡ clock.old) × (offset.new ≡ offset.old)) }
{
    match zone.shown_at(at) {
        Some(shown) => {
            *clock = clock_of(&shown);
            *offset = offset_of(&shown);
            DONE
        }
        None => OUT_OF_RANGE,
    }
}

/// The zoned text of an instant, as far as it fits, and its whole length.
#[unsafe(no_mangle)]
pub extern "C" fn sefunjaro_text_at_by(
    zone: &mut View,
    second: i64,
    nanosecond: u32,
    text: &mut [u8],
    whole: &mut usize,
) -> u32
    ensures lent { StaysLent zone.old zone.new }
    ensures answer { OnZone zone.old.part.opened result (text.new ≡ text.old)
        (λ held. Within (is_instant second nanosecond) result (text.new ≡ text.old) (Seen held (λ total _.
        Where (is_shown total (nanos_at second nanosecond)) result (text.new ≡ text.old) (IsTextIn total (nanos_at second nanosecond) text.old text.new whole.new)))) }
    ensures kept { IfRefused result ((text.new ≡ text.old) × (whole.new ≡ whole.old)) }
{
    let Some(reading) = zone.take() else {
        return NOT_OPEN;
    };
    let status = text_at(reading.get(), second, nanosecond, text, whole);
    zone.put(reading);
    status
}

fn text_at(opened: &Opened, second: i64, nanosecond: u32, text: &mut [u8], whole: &mut usize) -> u32
    ensures answer { OfZone opened.now result (text.new ≡ text.old)
        (λ held. Within (is_instant second nanosecond) result (text.new ≡ text.old) (Seen held (λ total _.
        Where (is_shown total (nanos_at second nanosecond)) result (text.new ≡ text.old) (IsTextIn total (nanos_at second nanosecond) text.old text.new whole.new)))) }
    ensures kept { IfRefused result ((text.new ≡ text.old) × (whole.new ≡ whole.old)) }
{
    let Opened::Zone(zone) = opened else {
        return NOT_OPEN;
    };
    match instant_of(second, nanosecond) {
        Some(at) => text_in(zone, &at, text, whole),
        None => OUT_OF_RANGE,
    }
}

fn text_in(zone: &OpenZone, at: &OffsetDateTime, text: &mut [u8], whole: &mut usize) -> u32
    ensures answer { Seen zone.now (λ total _. Where (is_shown total (instant at.now)) result (text.new ≡ text.old) (IsTextIn total (instant at.now) text.old text.new whole.new)) }
    ensures kept { IfRefused result ((text.new ≡ text.old) × (whole.new ≡ whole.old)) }
{
    match zone.shown_at(at) {
        Some(shown) => {
            *whole = fill_text(&shown, text);
            DONE
        }
        None => OUT_OF_RANGE,
    }
}

/// What clocks at the offset of a date-time show.
fn clock_of(shown: &OffsetDateTime) -> Clock
    ensures { result ≡ clock_at (day_part (local_of shown.now)) (time_part (local_of shown.now)) }
{
    Clock::at(shown.date(), shown.time())
}

fn offset_of(shown: &OffsetDateTime) -> i32
    ensures { result ≡ offset_of shown.now }
{
    shown.offset().whole_seconds()
}

/// The zoned text of a date-time, as far as it fits, and its whole length.
pub(crate) fn fill_text(shown: &OffsetDateTime, room: &mut [u8]) -> usize
    ensures room { room.new ≡ filled (zoned_text (instant shown.now) (offset_of shown.now)) room.old }
    ensures length { result ≡ length (zoned_text (instant shown.now) (offset_of shown.now)) }
{
    let mut text = [0; 40];
    let end = write_zoned(shown, &mut text);
    fill(&text[..end], room)
}

/// All instants at which clocks show a local time, by time, as far as they fit, and how many there are. Where there is none
/// the change that skips the local time is told.
#[unsafe(no_mangle)]
pub extern "C" fn sefunjaro_readings_by(
    zone: &mut View,
    local: &Clock,
    readings: &mut [Reading],
    count: &mut usize,
    gap: &mut Gap,
) -> u32
    ensures lent { StaysLent zone.old zone.new }
    ensures answer { OnZone zone.old.part.opened result (readings.new ≡ readings.old)
        (λ held. OfClock local.now result (readings.new ≡ readings.old) (λ x. Seen held (λ total _. AreReadings total x readings.old readings.new count.new gap.new))) }
    ensures kept { IfRefused result ((readings.new ≡ readings.old) × ((count.new ≡ count.old) × (gap.new ≡ gap.old))) }
    ensures gap { 0 < count.new → gap.new ≡ gap.old }
{
    let Some(reading) = zone.take() else {
        return NOT_OPEN;
    };
    let status = all_readings(reading.get(), local, readings, count, gap);
    zone.put(reading);
    status
}

fn all_readings(
    opened: &Opened,
    clock: &Clock,
    readings: &mut [Reading],
    count: &mut usize,
    gap: &mut Gap,
) -> u32
    ensures answer { OfZone opened.now result (readings.new ≡ readings.old)
        (λ held. OfClock clock.now result (readings.new ≡ readings.old) (λ x. Seen held (λ total _. AreReadings total x readings.old readings.new count.new gap.new))) }
    ensures kept { IfRefused result ((readings.new ≡ readings.old) × ((count.new ≡ count.old) × (gap.new ≡ gap.old))) }
    ensures gap { 0 < count.new → gap.new ≡ gap.old }
{
    let Opened::Zone(zone) = opened else {
        return NOT_OPEN;
    };
    match clock.local() {
        Some(local) => {
            *count = zone.readings_or_gap(&local, readings, gap);
            DONE
        }
        None => OUT_OF_RANGE,
    }
}
