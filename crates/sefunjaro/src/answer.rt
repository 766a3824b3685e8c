//! All that a zone says of an instant, and how long it holds.
ghost use Rattle.std.specs.{Prelude.{◌≡◌, ◌≤◌, ◌≤ℤ◌, ◌<ℤ◌, ℤ, length, neg_ℤ, pos}, Int.{int_max}};
ghost use Rattle.civil_base.specs.{DateTimes.{instant}, Instants.{seconds_of}};
ghost use Rattle.tz_lookup.specs.Sets.{schedule_of, span_in, IsAccepted};
ghost use Rattle.sefunjaro.specs.{Answers.{end_second, keeps_saving, saving_told, up_to_end}, AnswerSteps.{IsAround, IsMadeOf, IsToldBySpan}};

use crate::changes::span_in_force_at;
use crate::clock::Clock;
use crate::room::fill;
use crate::shown::{clock_of, local_of};
use crate::zone::Origin;
use civil_base::OffsetDateTime;
use tz_lookup::{SpanTable, offset_of, span_begin, span_end};

/// 10502-01-01 00:00:00 UTC: up to then the changes of a zone that goes on for ever are listed.
const END: i64 = 269_243_913_600;

/// All that a zone says of an instant, and seconds around it throughout which all of it but the local time holds.
#[derive(Clone, Copy, Debug, PartialEq, Eq)]
#[repr(C)]
pub struct Answer {
    /// The seconds east of UTC.
    pub offset: i32,
    /// Whether it is daylight saving time.
    pub is_saving: bool,
    /// Whether the zone keeps its saving, as those of sources do: a file or a string says only whether it is daylight saving time.
    pub is_kept: bool,
    /// How many seconds of the offset are the saving, where it is kept, and else 0.
    pub saving: i64,
    /// What clocks show.
    pub clock: Clock,
    /// How many bytes the abbreviation has.
    pub name_length: usize,
    /// The first of those seconds.
    pub from: i64,
    /// The one after the last of them.
    pub until: i64,
}

/// A span of a set by its number, and seconds throughout which it is in force.
#[derive(Clone, Copy)]
pub struct Around {
    /// The number of the span.
    pub span: usize,
    /// The first of them.
    pub from: i64,
    /// The one after the last of them.
    pub until: i64,
}

/// What the span in force at an instant says, of entries that are told from a second on. There is nothing where the local date lies
/// outside the years -9999 to 9999.
pub(crate) fn answer_at<S: SpanTable>(
    set: &S,
    at: &OffsetDateTime,
    first: i64,
    origin: Origin,
    room: &mut [u8],
) -> Option<Answer>
    requires accepted { IsAccepted (schedule_of (S.seen set.now)) }
    requires first { first ≤ℤ neg_ℤ (pos 387140688000) }
    ensures { IsToldBySpan origin first (S.seen set.now) (instant at.now) room.old room.new result }
{
    let around = seconds_around(set, second_of(at), first);
    match at.to_offset(offset_of(set, around.span)) {
        Some(shown) => Some(answer_by(set, &around, &shown, origin, room)),
        None => None,
    }
}

/// The answer of a span that is in force throughout those seconds, at an instant with its offset.
fn answer_by<S: SpanTable>(
    set: &S,
    around: &Around,
    shown: &OffsetDateTime,
    origin: Origin,
    room: &mut [u8],
) -> Answer
    requires { around.now.span ≤ length (S.seen set.now).others }
    ensures { IsMadeOf origin (span_in (S.seen set.now) around.now.span) around.now shown.now result room.old room.new }
{
    let span = set.span(around.span);
    let name_length = fill(span.name.as_str().as_bytes(), room);
    Answer {
        offset: shown.offset().whole_seconds(),
        is_saving: span.dst_offset > 0,
        is_kept: keeps_saving(origin),
        saving: saving_told(origin, span.dst_offset),
        clock: clock_of(local_of(shown)),
        name_length,
        from: around.from,
        until: around.until,
    }
}

/// Whether a zone keeps its saving.
fn keeps_saving(origin: Origin) -> bool
    ensures { result ≡ keeps_saving origin }
{
    match origin {
        Origin::Source => true,
        Origin::File => false,
    }
}

/// The saving of a zone that keeps it, and else 0.
fn saving_told(origin: Origin, saving: i64) -> i64
    ensures { result ≡ saving_told origin saving }
{
    match origin {
        Origin::Source => saving,
        Origin::File => 0,
    }
}

/// The span in force at a second, and the seconds around it in which no entry lies, from the first one on.
fn seconds_around<S: SpanTable>(set: &S, second: i64, first: i64) -> Around
    requires accepted { IsAccepted (schedule_of (S.seen set.now)) }
    requires early { second <ℤ end_second }
    requires first { first ≤ℤ second }
    ensures { IsAround first (S.seen set.now) second result }
{
    let span = span_in_force_at(set, second);
    let from = from_first(span_begin(set, span, second), first);
    let until = to_end(span_end(set, span, second));
    Around { span, from, until }
}

/// A second, or the first one where that comes after it.
fn from_first(second: i64, first: i64) -> i64
    ensures is { result ≡ int_max first second }
    ensures first { first ≤ℤ result }
    ensures second { second ≤ℤ result }
    ensures least { (x : ℤ) → first ≤ℤ x → second ≤ℤ x → result ≤ℤ x }
{
    if second < first { first } else { second }
}

/// A second, or the end where that comes before it.
fn to_end(second: i64) -> i64
    ensures end { result ≤ℤ end_second }
    ensures second { result ≤ℤ second }
    ensures greatest { (u : ℤ) → u <ℤ second → u <ℤ end_second → u <ℤ result }
    ensures is { result ≡ up_to_end second }
{
    if second < END { second } else { END }
}

/// The second of an instant: each lies before the end, and after all that are the first.
fn second_of(at: &OffsetDateTime) -> i64
    ensures second { result ≡ seconds_of (instant at.now) }
    ensures late { neg_ℤ (pos 387140688000) ≤ℤ result }
    ensures early { result <ℤ end_second }
{
    // Read for what it says of every date-time: that its local date is in the years.
    let _nanos = at.unix_timestamp_nanos();
    at.unix_timestamp()
}
