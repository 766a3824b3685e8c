//! The last year of a set, 2099 by its own clocks of standard time.
ghost use Rattle.std.specs.Prelude.{◌≡◌, ◌↔◌, ◌<◌, IsTrue, length, int_lt, pos, ◌+ℤ◌, ◌-ℤ◌, ◌<ℤ◌, ◌≤ℤ◌};
ghost use Rattle.zone_spans.specs.Entries.{total};
ghost use Rattle.tz_lookup.specs.Sets.{IsAccepted, IsSpanTime, schedule_of, shifts_of};
ghost use Rattle.zone_tail.specs.{LastYear.{are_start_and_end, is_end, is_start, standard_of, year_begin, year_end}, Shapes.{entry_in, IsForm, IsShape}, Tails.{is_ending_early, is_outlasting, is_saving_on}, Totals.{IsCount}, declared.last_year.Shape.TheVariants.{Pair}};

use crate::spans::{entry_span, total_of};
use tz_lookup::{FixedTimespan, LAST_YEAR_BEGIN, RULES_END, SpanTable};

/// Further than any entry, 2^41 seconds.
const FAR: i64 = 1 << 41;

/// When the second week of the last year begins, as a local second.
const SECOND_WEEK: i64 = LAST_YEAR_BEGIN + 7 * 86_400;

/// What the last year of a set has.
#[derive(Clone, Copy, Debug, PartialEq, Eq)]
pub(crate) enum Form {
    /// No entry; the span that is in force.
    Steady(usize),
    /// The entry with which daylight saving time starts, and the one with which it ends.
    Yearly { start: usize, end: usize },
    Other,
}

/// What the entries of a time are.
#[derive(Clone, Copy, Debug, PartialEq, Eq)]
enum Shape {
    /// None; the span that is in force.
    Steady(usize),
    /// Two of different times.
    Pair(usize, usize),
    Other,
}

/// Whether a second lies before a local one, by clocks so many seconds ahead of UTC.
fn is_before(second: i64, local: i64, offset: i64) -> bool
    requires second { IsSpanTime second }
    requires least { pos 0 ≤ℤ local }
    requires greatest { local ≤ℤ pos 5_000_000_000 }
    ensures { IsTrue result ↔ (second <ℤ (local -ℤ offset)) }
{
    if offset > FAR {
        false
    } else if offset < -FAR {
        true
    } else {
        second + offset < local
    }
}

/// How many entries lie before a local second, by clocks so many seconds ahead of UTC.
fn entries_before<S: SpanTable>(set: &S, local: i64, offset: i64) -> usize
    requires accepted { IsAccepted (schedule_of (S.seen set.now)) }
    requires least { pos 0 ≤ℤ local }
    requires greatest { local ≤ℤ pos 5_000_000_000 }
    ensures { IsCount (shifts_of (S.seen set.now)) (local -ℤ offset) result }
{
    for i in 0..set.entry_count() {
        if !is_before(set.time(i), local, offset) {
            return i;
        }
    }
    set.entry_count()
}

/// The standard offset in force at the beginning of 2100 in UTC.
pub(crate) fn standard_of<S: SpanTable>(set: &S) -> i64
    requires accepted { IsAccepted (schedule_of (S.seen set.now)) }
    ensures { result ≡ standard_of (S.seen set.now) }
{
    set.span(entries_before(set, RULES_END + 1, 0)).utc_offset
}

/// Whether a set that can be looked up has an entry at or past the end of the last year, of which its string says nothing.
pub fn is_outlasting<S: SpanTable>(set: &S) -> bool
    requires { IsAccepted (schedule_of (S.seen set.now)) }
    ensures { result ≡ is_outlasting (S.seen set.now) }
{
    entries_before(set, RULES_END, standard_of(set)) < set.entry_count()
}

/// Whether daylight saving time ends in the first week of the last year, by its own clocks. Then the rule of a string may end that
/// of the year after before the last year is over.
pub fn is_ending_early<S: SpanTable>(set: &S) -> bool
    requires { IsAccepted (schedule_of (S.seen set.now)) }
    ensures { result ≡ is_ending_early (S.seen set.now) }
{
    match form_of(set, standard_of(set)) {
        Form::Yearly { start, end } => ends_before(set, start, end, SECOND_WEEK),
        Form::Steady(_) => false,
        Form::Other => false,
    }
}

/// Whether daylight saving time holds all the last year: a string of one offset says that it is standard time.
pub fn is_saving_on<S: SpanTable>(set: &S) -> bool
    requires { IsAccepted (schedule_of (S.seen set.now)) }
    ensures { result ≡ is_saving_on (S.seen set.now) }
{
    match form_of(set, standard_of(set)) {
        Form::Steady(span) => is_saved(set.span(span)),
        Form::Yearly { .. } => false,
        Form::Other => false,
    }
}

fn is_saved(span: &FixedTimespan) -> bool
    ensures { result ≡ int_lt (pos 0) span.now.dst_offset }
{
    0 < span.dst_offset
}

/// What the entries of the last year are, by its standard offset.
fn shape_of<S: SpanTable>(set: &S, offset: i64) -> Shape
    requires accepted { IsAccepted (schedule_of (S.seen set.now)) }
    ensures { IsShape (S.seen set.now) (year_begin -ℤ offset) (year_end -ℤ offset) result }
{
    let begin = entries_before(set, LAST_YEAR_BEGIN, offset);
    let end = entries_before(set, RULES_END, offset);
    if begin >= end {
        Shape::Steady(begin)
    } else if end - begin == 2 && set.time(begin) < set.time(begin + 1) {
        Shape::Pair(begin, begin + 1)
    } else {
        Shape::Other
    }
}

fn is_start(offset: i64, span: &FixedTimespan) -> bool
    ensures { result ≡ is_start offset span.now }
{
    span.utc_offset == offset && 0 < span.dst_offset
}

fn is_end(offset: i64, span: &FixedTimespan) -> bool
    ensures { result ≡ is_end offset span.now }
{
    span.utc_offset == offset && span.dst_offset == 0
}

/// Whether daylight saving time ends with an entry before a local second, by its clocks.
fn ends_before<S: SpanTable>(set: &S, start: usize, end: usize, local: i64) -> bool
    requires accepted { IsAccepted (schedule_of (S.seen set.now)) }
    requires start { start < length (S.seen set.now).others }
    requires end { end < length (S.seen set.now).others }
    requires bound { start < 18446744073709551615 }
    ensures { result ≡ int_lt ((entry_in (S.seen set.now) end).0 +ℤ total (entry_in (S.seen set.now) start).1) local }
{
    set.time(end) + total_of(set, start + 1) < local
}

/// Whether daylight saving time starts with one entry and ends with another.
fn are_start_and_end<S: SpanTable>(set: &S, offset: i64, start: usize, end: usize) -> bool
    requires accepted { IsAccepted (schedule_of (S.seen set.now)) }
    requires start { start < length (S.seen set.now).others }
    requires end { end < length (S.seen set.now).others }
    requires start_bound { start < 18446744073709551615 }
    requires end_bound { end < 18446744073709551615 }
    ensures { result ≡ are_start_and_end offset (entry_in (S.seen set.now) start) (entry_in (S.seen set.now) end) }
{
    is_start(offset, entry_span(set, start))
        && is_end(offset, entry_span(set, end))
        && ends_before(set, start, end, RULES_END)
}

/// What two entries of the last year are.
fn form_of_pair<S: SpanTable>(set: &S, offset: i64, first: usize, second: usize) -> Form
    requires accepted { IsAccepted (schedule_of (S.seen set.now)) }
    requires offset { offset ≡ standard_of (S.seen set.now) }
    requires shape { IsShape (S.seen set.now) (year_begin -ℤ offset) (year_end -ℤ offset) (Pair first second) }
    ensures { IsForm (S.seen set.now) result }
{
    if are_start_and_end(set, offset, first, second) {
        Form::Yearly {
            start: first,
            end: second,
        }
    } else if are_start_and_end(set, offset, second, first) {
        Form::Yearly {
            start: second,
            end: first,
        }
    } else {
        Form::Other
    }
}

/// What the last year of a set has, by its standard offset.
pub(crate) fn form_of<S: SpanTable>(set: &S, offset: i64) -> Form
    requires accepted { IsAccepted (schedule_of (S.seen set.now)) }
    requires offset { offset ≡ standard_of (S.seen set.now) }
    ensures { IsForm (S.seen set.now) result }
{
    match shape_of(set, offset) {
        Shape::Steady(span) => Form::Steady(span),
        Shape::Pair(first, second) => form_of_pair(set, offset, first, second),
        Shape::Other => Form::Other,
    }
}
