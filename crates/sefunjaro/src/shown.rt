//! What clocks show at many seconds, and the texts of it.
ghost use Rattle.std.specs.Prelude.{◌≡◌, ℤ, IsTrue, ◌≤◌, ◌*◌, ◌++◌, ◌∷◌, [], length};
ghost use Rattle.civil_base.specs.{DateTimes.{local_of}, Instants.{instant_at, local_at, nanos_of}, Layout.{day_part, time_part, offset_text, zoned_text}, Ranges.{is_in_years, IsInYears, IsOffset}};
ghost use Rattle.sefunjaro.specs.{Clocks.{clock_at}, Rooms.{filled, filled_from}, Shown.{clocks_of, is_shown, most_texts, textless_place, texts_of, unshown_place, AreClocks, AreShown, AreTexts}, Zones.{kept_total}};

use crate::clock::Clock;
use crate::offsets::{UNKNOWN, next, second_at, stretch_at};
use crate::room::{fill_from, put};
use civil_base::{OffsetDateTime, PlainDateTime, UtcOffset, spaced_offset, write_local};
use tz_ever::ZoneSet;

/// -9999-01-01 00:00:00 UTC.
const FIRST: i64 = -377_705_116_800;

/// The second after the year 9999 in UTC.
const END: i64 = 253_402_300_800;

/// The seconds of an offset past the greatest.
const SPREAD: i64 = 93_600;

/// The most seconds whose texts are told at once.
const MOST_TEXTS: usize = 288_230_376_151_711_744;

/// What clocks show at each of some seconds, in their order, as far as it fits.
///
/// # Errors
///
/// The place, from 0, of the first second that lies outside the years -9999 to 9999 in UTC, or whose local date does. The room is then as
/// it was.
pub(crate) fn clocks_at(zone: &ZoneSet, seconds: &[i64], room: &mut [Clock]) -> Result<(), usize>
    ensures { AreClocks (kept_total zone.now) seconds.now room.old room.new result }
{
    match unshown_place(zone, seconds) {
        Some(place) => Err(place),
        None => {
            fill_clocks(zone, seconds, room);
            Ok(())
        }
    }
}

/// The zoned texts of some seconds, each with a line feed behind it, one after another, as far as they fit, and their whole length.
///
/// # Errors
///
/// The place, from 0, of the first second that lies outside the years -9999 to 9999 in UTC, or whose local date does; of more than 2^58
/// seconds that of the first too many. The room is then as it was.
pub(crate) fn texts_at(zone: &ZoneSet, seconds: &[i64], room: &mut [u8]) -> Result<usize, usize>
    ensures { AreTexts (kept_total zone.now) seconds.now room.old room.new result }
{
    match textless_place(zone, seconds) {
        Some(place) => Err(place),
        None => Ok(fill_texts(zone, seconds, room)),
    }
}

/// The place of the first second without a text, or of the first too many.
#[tactic(auto, unfolding(crate::specs::Shown::textless_place))]
fn textless_place(zone: &ZoneSet, seconds: &[i64]) -> Option<usize>
    ensures { result ≡ textless_place (kept_total zone.now) seconds.now }
{
    if seconds.len() <= MOST_TEXTS {
        unshown_place(zone, seconds)
    } else {
        Some(MOST_TEXTS)
    }
}

/// The place of the first second that clocks don't show.
#[tactic(auto, unfolding(crate::specs::Shown::unshown_place))]
fn unshown_place(zone: &ZoneSet, seconds: &[i64]) -> Option<usize>
    ensures { result ≡ unshown_place (kept_total zone.now) seconds.now }
{
    seconds.iter().position(|second| !is_shown(zone, *second))
}

/// Whether a second lies in the years -9999 to 9999 in UTC, and its date by the clocks of a zone. One that lies further inside than
/// any offset is looked up nowhere.
fn is_shown(zone: &ZoneSet, second: i64) -> bool
    ensures { result ≡ is_shown (kept_total zone.now) second }
{
    if is_inside(second) {
        true
    } else if is_in_years(second) {
        has_local_date(second, stretch_at(zone, second).offset)
    } else {
        false
    }
}

/// Whether the date of a second by clocks so many seconds east of UTC lies in the years -9999 to 9999.
fn has_local_date(second: i64, offset: i32) -> bool
    requires { IsInYears (nanos_of second) }
    ensures { result ≡ is_in_years (local_at (nanos_of second) offset) }
{
    is_in_years(second + i64::from(offset))
}

/// Whether a second lies further inside the years -9999 to 9999 than any offset.
fn is_inside(second: i64) -> bool
    ensures { IsTrue result → IsInYears (nanos_of second) × ((offset : ℤ) → IsOffset offset → IsInYears (local_at (nanos_of second) offset)) }
{
    FIRST + SPREAD <= second && second < END - SPREAD
}

/// Whether a second from 1970-01-01 00:00:00 UTC lies in the years -9999 to 9999 in UTC.
pub fn is_in_years(second: i64) -> bool
    ensures { result ≡ is_in_years (nanos_of second) }
{
    FIRST <= second && second < END
}

/// What clocks show at seconds at all of which they show something.
fn fill_clocks(zone: &ZoneSet, seconds: &[i64], room: &mut [Clock])
    requires { AreShown (kept_total zone.now) seconds.now }
    ensures { room.new ≡ filled (clocks_of (kept_total zone.now) seconds.now) room.old }
{
    let mut known = UNKNOWN;
    for i in 0..seconds.len() {
        let second = second_at(seconds, i);
        known = next(zone, known, second);
        put(clock_of(local_at(second, known.offset)), i, room);
    }
}

/// The texts of seconds that all have one, and their whole length.
fn fill_texts(zone: &ZoneSet, seconds: &[i64], room: &mut [u8]) -> usize
    requires shown { AreShown (kept_total zone.now) seconds.now }
    requires few { length seconds.now ≤ most_texts }
    ensures room { room.new ≡ filled (texts_of (kept_total zone.now) seconds.now) room.old }
    ensures whole { result ≡ length (texts_of (kept_total zone.now) seconds.now) }
{
    let mut known = UNKNOWN;
    let mut east = east_of(0);
    let mut whole = 0;
    for i in 0..seconds.len() {
        let second = second_at(seconds, i);
        known = next(zone, known, second);
        east = east_for(east, known.offset);
        whole += put_line(&local_at(second, known.offset), &east, whole, room);
    }
    whole
}

/// What clocks so many seconds east of UTC show at a second.
fn local_at(second: i64, offset: i32) -> PlainDateTime
    requires second { IsInYears (nanos_of second) }
    requires local { IsInYears (local_at (nanos_of second) offset) }
    ensures { result ≡ local_at (nanos_of second) offset }
{
    match OffsetDateTime::from_unix_timestamp(second + i64::from(offset)) {
        Ok(shown) => local_of(&shown),
        Err(_) => unreachable!(),
    }
}

/// What clocks at the offset of a date-time show.
pub(crate) fn local_of(shown: &OffsetDateTime) -> PlainDateTime
    ensures { result ≡ local_of shown.now }
{
    PlainDateTime::new(shown.date(), shown.time())
}

/// A local time by its parts.
pub(crate) fn clock_of(local: PlainDateTime) -> Clock
    ensures { result ≡ clock_at (day_part local) (time_part local) }
{
    Clock::at(local.date(), local.time())
}

/// An offset, and what stands behind the local time in its zoned texts.
#[derive(Clone, Copy)]
pub struct East {
    /// The seconds east of UTC.
    pub offset: i32,
    /// A space, and the offset as `+hh:mm:ss`.
    pub text: [u8; 10],
}

fn east_of(offset: i32) -> East
    requires { IsOffset offset }
    ensures offset { result.offset ≡ offset }
    ensures text { result.text ≡ 32 ∷ offset_text offset }
{
    match UtcOffset::from_whole_seconds(offset) {
        Ok(east) => East {
            offset,
            text: spaced_offset(east),
        },
        Err(_) => unreachable!(),
    }
}

/// That of an offset, which may be the known one.
fn east_for(known: East, offset: i32) -> East
    requires known { known.text ≡ 32 ∷ offset_text known.offset }
    requires offset { IsOffset offset }
    ensures offset { result.offset ≡ offset }
    ensures text { result.text ≡ 32 ∷ offset_text offset }
{
    if known.offset == offset {
        known
    } else {
        east_of(offset)
    }
}

/// Puts the zoned text of a local time at an offset, with a line feed behind it, into the room from a place on, as far as it fits, and
/// answers its length.
fn put_line(local: &PlainDateTime, east: &East, place: usize, room: &mut [u8]) -> usize
    requires east { east.now.text ≡ 32 ∷ offset_text east.now.offset }
    requires place { place ≤ 41 * most_texts }
    ensures room { room.new ≡ filled_from place (zoned_text (instant_at local.now east.now.offset) east.now.offset ++ 10 ∷ []) room.old }
    ensures length { result ≡ length (zoned_text (instant_at local.now east.now.offset) east.now.offset ++ 10 ∷ []) }
    ensures bound { result ≤ 41 }
{
    let mut text = [0; 30];
    let length = write_local(local, &mut text);
    fill_from(&text[..length], place, room);
    fill_from(&east.text, place + length, room);
    put(b'\n', place + length + 10, room);
    length + 11
}
