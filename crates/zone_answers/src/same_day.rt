//! Requests for instants of one local day whose lines differ in the last digits alone, as those of a log do: the answer to one is that to
//! another with its own time of day.
ghost use Rattle.std.specs.{Prelude.{◌≡◌, ◌+◌, ◌-◌, ◌*◌, ◌/◌, ◌≤◌, ◌<◌, ◌++◌, ◌==◌, ◌&&◌, ℕ, ℤ, pos, ◌≤ℤ◌, ◌<ℤ◌, ◌↔◌, int_le, int_lt, List, IfOk, IfSome, IsTrue, Ok, OnErr, true, false, is_some, length}, Str.Parse.{digits_value}};
ghost use Rattle.civil_base.specs.{Clock.{nanos_per_day}, Instants.{local_at, nanos_of}, Layout.{time_part}, Ranges.{IsOffset}};
ghost use Rattle.zone_answers.specs.{Asked.{asked}, AskedLaws.{Asks}, Due.{answer_text, shown_at}, Found.{Found}, Requests.{at, name_of, request_of}, SameDays.{IsAdded, IsAround, IsOfDay, IsSameDay, are_alike, asked_number, at_time, ends_in_digits, front_of, has_day, is_near, is_of, last_instant, last_of}};

use crate::opened::OpenedZone;
use crate::request::{Request, all_digits, last_number};
use civil_base::spaced_time;
use std::alloc::AllocError;
use tz_lookup::Stretch;

/// How many digits may differ.
const LAST: usize = 14;

/// How many numbers they write.
const LAST_NUMBERS: u64 = 100_000_000_000_000;

/// 2191-10-27, in nanoseconds from 1970-01-01 00:00:00 UTC: later instants are answered one by one.
pub(crate) const LATEST: u64 = 7_000_000_000_000_000_000;

const NANOS_PER_SECOND: u64 = 1_000_000_000;

const NANOS_PER_DAY: u64 = 86_400_000_000_000;

/// Requests for instants of one local day at one offset, whose lines begin as one of them does that is kept apart: they differ in the last
/// fourteen bytes alone, which are digits.
#[derive(Clone, Copy, Debug)]
pub struct SameDay {
    /// The least number of their last digits.
    from: u64,
    /// The number past the greatest.
    until: u64,
    /// The time of day at the least, in nanoseconds from midnight.
    begins: u64,
    /// The line that answers one of them.
    line: [u8; 39],
}

impl SameDay {
    /// Those of the day of a request at the zone whose line is this text and which is answered by this line. They ask for instants before
    /// the latest, in nanoseconds from 1970-01-01 00:00:00 UTC, which is at most 7,000,000,000,000,000,000: for all of the request's local
    /// day that lie in the zone's seconds around it and that the last fourteen digits can write. The request is one of them. None exactly
    /// where it asks for no instant, for one before 1970-01-02 03:46:40 UTC or for one that isn't before the latest, where the line that
    /// answers it isn't as long as those of the years 0 to 9999, 39 bytes, or where its text doesn't end in fourteen digits behind another
    /// byte, as each does that asks for such an instant.
    pub fn of<Z: OpenedZone>(
        zone: &Z,
        text: &str,
        request: &Request<'_>,
        shown: &[u8],
        latest: u64,
    ) -> Option<SameDay>
        requires { latest ≤ last_instant }
        ensures day { IfSome result (λ day. (names : List ℕ → Found) → Asks request_of text.now (asked request.now)
            → names (name_of (asked request.now)) ≡ Ok (Z.total_at zone.now)
            → shown.now ≡ answer_text (shown_at (Z.total_at zone.now) (asked request.now)) → ((t : ℤ) → IsOffset (Z.total_at zone.now t))
            → IsSameDay names latest (front_of text.now) day) }
        ensures here { IfSome result (λ day. is_of day text.now text.now ≡ true) }
        ensures whole { IfSome result (λ day. (line : List ℕ) → IsTrue (is_of day text.now line)
            ↔ IsOfDay (Z.begins_at zone.now) (Z.ends_at zone.now) (Z.total_at zone.now) latest (asked_number (asked request.now)) text.now line) }
        ensures told { is_some result ≡ (has_day latest (asked request.now) shown.now && ends_in_digits text.now) }
        ensures asked { Asks request_of text.now (asked request.now) → is_some result ≡ has_day latest (asked request.now) shown.now }
    {
        let now = asked_instant(request, latest)?;
        let line = whole_line(shown)?;
        let number = last_digits(text.as_bytes())?;
        let base = now - number;
        let around = Around::of(&zone.stretch_at((now / NANOS_PER_SECOND) as i64), now);
        let from = around.from.max(base);
        let until = around.until.min(base + LAST_NUMBERS).min(latest);
        Some(SameDay {
            from: from - base,
            until: until - base,
            begins: around.begins + (from - around.from),
            line,
        })
    }

    /// Adds the line that answers a request to a text, without its LF, if it is one of these; `before` is the line of one of them. It is
    /// one of them exactly where the two are alike and its last fourteen bytes are digits that write one of their numbers.
    ///
    /// # Errors
    ///
    /// Want of memory alone. The text is as before then.
    pub fn add(&self, before: &[u8], request: &[u8], text: &mut Vec<u8>) -> Result<bool, AllocError>
        requires { self.now.begins + self.now.until ≤ self.now.from + nanos_per_day }
        ensures told { IfOk result (λ has. has ≡ is_of self.now before.now request.now) }
        ensures line { IfOk result (λ has. IsTrue has → (names : List ℕ → Found) (latest : ℕ) → IsSameDay names latest (front_of before.now) self.now
            → IsAdded names latest request.now text.old.items text.new.items) }
        ensures none { IfOk result (λ has. has ≡ false → text.new.items ≡ text.old.items) }
        ensures err { OnErr result (text.new.items ≡ text.old.items) }
    {
        if !are_alike(before, request) {
            return Ok(false);
        }
        let last = &request[request.len() - LAST..];
        if !all_digits(last) {
            return Ok(false);
        }
        let number = last_number(last);
        if number < self.from || self.until <= number {
            return Ok(false);
        }
        text.extend_from_slice(&at_time(&self.line, self.begins + (number - self.from)))?;
        Ok(true)
    }
}

/// Whether the lines of two requests are as long, longer than fourteen bytes, and may differ in the last fourteen alone.
pub fn are_alike(one: &[u8], other: &[u8]) -> bool
    ensures is { result ≡ are_alike one.now other.now }
    ensures front { IsTrue result → front_of one.now ≡ front_of other.now }
    ensures long { IsTrue result → 14 ≤ length other.now }
{
    if one.len() != other.len() || one.len() <= LAST {
        return false;
    }
    let end = one.len() - LAST;
    // Those that differ before the last digits mostly differ here.
    one[end - 1] == other[end - 1] && one[..end] == other[..end]
}

/// A line with another time of day.
fn at_time(line: &[u8; 39], nanos: u64) -> [u8; 39]
    requires { nanos < nanos_per_day }
    ensures { result ≡ at_time line.now nanos }
{
    let mut shown = *line;
    shown[10..29].copy_from_slice(&spaced_time(nanos));
    shown
}

/// A line of 39 bytes: one of a year from 0 on.
fn whole_line(line: &[u8]) -> Option<[u8; 39]>
    ensures same { IfSome result (λ whole. whole ≡ line.now) }
    ensures long { IfSome result (λ _. length line.now ≡ 39) }
    ensures told { is_some result ≡ (length line.now == 39) }
{
    if line.len() != 39 {
        return None;
    }
    let mut whole = [0; 39];
    whole.copy_from_slice(line);
    Some(whole)
}

/// The number that the last fourteen bytes of a longer line write, if they are digits.
#[tactic(auto, unfolding(crate::specs::SameDays::ends_in_digits))]
fn last_digits(line: &[u8]) -> Option<u64>
    ensures value { IfSome result (λ number. number ≡ digits_value 10 (last_of line.now)) }
    ensures bound { IfSome result (λ number. number < 100000000000000) }
    ensures told { is_some result ≡ ends_in_digits line.now }
{
    if line.len() <= LAST {
        return None;
    }
    let last = &line[line.len() - LAST..];
    if all_digits(last) {
        Some(last_number(last))
    } else {
        None
    }
}

/// The instant that a request asks for, if it lies between the second of January 1970 and the latest.
#[tactic(auto, unfolding(crate::specs::SameDays::is_near))]
fn asked_instant(request: &Request<'_>, latest: u64) -> Option<u64>
    requires { latest ≤ last_instant }
    ensures some { IfSome result (λ now. (asked request.now ≡ at (name_of (asked request.now)) (pos now)) × (100000000000000 ≤ now) × (now < latest)) }
    ensures told { is_some result ≡ is_near latest (asked request.now) }
{
    match request {
        Request::At(_, nanoseconds) => near_instant(*nanoseconds, latest),
        Request::Local(_, _) => None,
    }
}

/// An instant, if it lies between the second of January 1970 and the latest.
fn near_instant(nanoseconds: i128, latest: u64) -> Option<u64>
    requires { latest ≤ last_instant }
    ensures some { IfSome result (λ now. (nanoseconds ≡ pos now) × (100000000000000 ≤ now) × (now < latest)) }
    ensures told { is_some result ≡ (int_le (pos 100000000000000) nanoseconds && int_lt nanoseconds (pos latest)) }
{
    if nanoseconds < i128::from(LAST_NUMBERS) || nanoseconds >= i128::from(latest) {
        None
    } else {
        Some(nanoseconds as u64)
    }
}

/// Instants of one local day at one offset, in nanoseconds from 1970-01-01 00:00:00 UTC.
#[derive(Clone, Copy)]
struct Around {
    from: u64,
    /// The one after the last.
    until: u64,
    /// The time of day at the first.
    begins: u64,
}

impl Around {
    /// Those around an instant in a stretch that holds its second.
    fn of(stretch: &Stretch, now: u64) -> Around
        requires late { 100000000000000 ≤ now }
        requires early { now ≤ last_instant }
        requires begun { stretch.now.from ≤ℤ pos (now / 1000000000) }
        requires lasts { pos (now / 1000000000) <ℤ stretch.now.until }
        ensures { IsAround stretch.now now result.from result.until result.begins }
    {
        let second = now / NANOS_PER_SECOND;
        let midnight = now - time_of_day(now, stretch.offset);
        let from = first_nanos(stretch.from, second).max(midnight);
        let until = past_nanos(stretch.until, second).min(midnight + NANOS_PER_DAY);
        Around {
            from,
            until,
            begins: from - midnight,
        }
    }
}

/// The time of day of an instant, in nanoseconds from midnight, so many seconds east of UTC.
#[tactic(auto, unfolding(civil_base::specs::Layout::time_part))]
fn time_of_day(now: u64, offset: i32) -> u64
    requires { now ≤ last_instant }
    ensures time { result ≡ time_part (local_at (pos now) offset) }
    ensures bound { result < nanos_per_day }
{
    (now as i64 + i64::from(offset) * 1_000_000_000).rem_euclid(86_400_000_000_000) as u64
}

/// The first nanosecond of a second up to another, or that of 1970.
fn first_nanos(second: i64, other: u64) -> u64
    requires begun { second ≤ℤ pos other }
    requires early { other ≤ 7000000000 }
    ensures later { nanos_of second ≤ℤ pos result }
    ensures least { (t : ℤ) → pos 0 ≤ℤ t → nanos_of second ≤ℤ t → pos result ≤ℤ t }
    ensures first { result ≤ other * 1000000000 }
{
    if second < 0 {
        0
    } else {
        second as u64 * NANOS_PER_SECOND
    }
}

/// The first nanosecond of a second after another, or of that two days after it.
fn past_nanos(second: i64, other: u64) -> u64
    requires lasts { pos other <ℤ second }
    requires early { other ≤ 7000000000 }
    ensures sooner { pos result ≤ℤ nanos_of second }
    ensures greatest { (t : ℤ) → t <ℤ nanos_of second → t <ℤ pos ((other + 172800) * 1000000000) → t <ℤ pos result }
    ensures past { (other + 1) * 1000000000 ≤ result }
    ensures bound { result ≤ 8000000000000000000 }
{
    second.min(other as i64 + 172_800) as u64 * NANOS_PER_SECOND
}
