//! The look-ups of an instant and of a local time in anything that gives spans by number, with a step for each comparison or with none.
ghost use Rattle.std.specs.{Prelude.{◌≡◌, ◌+◌, ◌+ℤ◌, ◌<◌, ◌≤◌, ◌↔◌, length, IsTrue, ℕ, ◌-◌, ◌∷◌, [], take, MatchOption, IfSome, ℤ, ◌*◌, ◌^◌, map, pos}, declared.cmp.Ordering.TheVariants.{Equal}};
ghost use Rattle.zone_spans.specs.{Entries.{total as total_in}, Schedules.{total_at}};
ghost use Rattle.civil_base.specs.{Ranges.{is_offset}, Instants.{seconds_of}, DateTimes.{instant, local_of, offset_of}};
ghost use Rattle.tz_lookup.specs.{Sets.{schedule_of, shifts_of, IsAccepted, has_ended, is_ahead, order_of, total_of_span, span_in, IsBetween, IsNear, order_at, IsOrderlyZone}, Spans.{local_start, local_end, shift_at, IsCut}, declared.set.FixedTimespanSet.{FixedTimespanSet}, Answers.{listed, EachOf, IsUpTo, AreAdjacent}, Scans.{spans_from}, InForce.{totals_at, IsInForce, AreRead}};

use crate::search::{Probe, Steps, binary_search};
use crate::time_zone::OffsetResult;
use civil_base::{OffsetDateTime, UtcOffset};
use std::cmp::Ordering;
use std::marker::Brand;
use std::sync::ledger::{Blank, Ledger};
use zone_spans::FixedTimespan;

/// How many spans there are: one more than the entries.
pub(crate) fn span_count<T: SpanTable>(set: &T) -> usize
    ensures { result ≡ length (T.seen set.now).others + 1 }
{
    set.entry_count() + 1
}

/// The total offset of a span of an accepted set.
pub(crate) fn total<T: SpanTable>(set: &T, index: usize) -> i32
    requires accepted { IsAccepted (schedule_of (T.seen set.now)) }
    requires within { index ≤ length (T.seen set.now).others }
    ensures { result ≡ total_of_span (T.seen set.now) index }
{
    total_of(set.span(index))
}

/// The second of an entry on a clock at the total of a span.
fn local_second<T: SpanTable>(set: &T, entry: usize, index: usize) -> i64
    requires accepted { IsAccepted (schedule_of (T.seen set.now)) }
    requires entry { entry < length (T.seen set.now).others }
    requires within { index ≤ length (T.seen set.now).others }
    ensures { result ≡ (shift_at (shifts_of (T.seen set.now)) entry).0 +ℤ total_of_span (T.seen set.now) index }
{
    let total = total(set, index);
    set.time(entry) + i64::from(total)
}

/// The local start of a span, for every span but the first.
pub(crate) fn start_of<T: SpanTable>(set: &T, index: usize) -> i64
    requires accepted { IsAccepted (schedule_of (T.seen set.now)) }
    requires some { 0 < index }
    requires within { index ≤ length (T.seen set.now).others }
    ensures { result ≡ local_start (shifts_of (T.seen set.now)) index }
{
    local_second(set, index - 1, index)
}

/// The local end of a span, for every span but the last.
pub(crate) fn end_of<T: SpanTable>(set: &T, index: usize) -> i64
    requires accepted { IsAccepted (schedule_of (T.seen set.now)) }
    requires within { index < length (T.seen set.now).others }
    ensures { result ≡ local_end (total_in (T.seen set.now).first) (shifts_of (T.seen set.now)) index }
{
    local_second(set, index, index)
}

/// Whether a span lies before, at or after a local second.
pub(crate) fn order<T: SpanTable>(set: &T, index: usize, second: i64) -> Ordering
    requires accepted { IsAccepted (schedule_of (T.seen set.now)) }
    requires within { index ≤ length (T.seen set.now).others }
    ensures { result ≡ order_of (schedule_of (T.seen set.now)) index second }
{
    if has_ended(set, index, second) {
        Ordering::Less
    } else if is_ahead(set, index, second) {
        Ordering::Greater
    } else {
        Ordering::Equal
    }
}

/// Whether a span ends at or before a local second. The last span has no end.
fn has_ended<T: SpanTable>(set: &T, index: usize, second: i64) -> bool
    requires accepted { IsAccepted (schedule_of (T.seen set.now)) }
    requires within { index ≤ length (T.seen set.now).others }
    ensures { result ≡ has_ended (schedule_of (T.seen set.now)) index second }
{
    index < set.entry_count() && end_of(set, index) <= second
}

/// Whether a span starts after a local second. The first span has no start.
fn is_ahead<T: SpanTable>(set: &T, index: usize, second: i64) -> bool
    requires accepted { IsAccepted (schedule_of (T.seen set.now)) }
    requires within { index ≤ length (T.seen set.now).others }
    ensures { result ≡ is_ahead (schedule_of (T.seen set.now)) index second }
{
    index > 0 && second < start_of(set, index)
}

/// Whether a span contains a local second.
pub(crate) fn contains<T: SpanTable>(set: &T, index: usize, second: i64) -> bool
    requires accepted { IsAccepted (schedule_of (T.seen set.now)) }
    requires within { index ≤ length (T.seen set.now).others }
    ensures { IsTrue result ↔ (order_of (schedule_of (T.seen set.now)) index second ≡ Equal) }
{
    matches!(order(set, index, second), Ordering::Equal)
}

/// The offset and the saving of a span, whose sum is an offset.
fn total_of(span: &FixedTimespan) -> i32
    requires { IsTrue (is_offset (total_in span.now)) }
    ensures { result ≡ total_in span.now }
{
    (span.utc_offset + span.dst_offset) as i32
}

/// What a representation of a zone's spans gives: its entries' seconds, and each span. The spans are looked up through it.
/// Span 0 is in force before the first entry, and entry i begins span i + 1.
pub trait SpanTable {
    /// The set whose spans they are.
    ghost seen: { Self → FixedTimespanSet };

    /// How many entries there are.
    fn entry_count(&self) -> usize
        ensures count { result ≡ length (seen self.now).others }
        ensures bound { result < 18446744073709551615 };

    /// The second of an entry, from 1970-01-01 00:00:00 UTC. Entries count from 0.
    fn time(&self, index: usize) -> i64
        requires { index < length (seen self.now).others }
        ensures { result ≡ (shift_at (shifts_of (seen self.now)) index).0 };

    /// The span of that number, from 0 up to the count of entries.
    fn span(&self, index: usize) -> &FixedTimespan
        requires { index ≤ length (seen self.now).others }
        ensures { result.now ≡ span_in (seen self.now) index };
}

/// The total offset of a span of an accepted set, by the span's number from 0 on.
pub fn offset_of<T: SpanTable>(set: &T, index: usize) -> UtcOffset
    requires accepted { IsAccepted (schedule_of (T.seen set.now)) }
    requires within { index ≤ length (T.seen set.now).others }
    ensures { result ≡ total_of_span (T.seen set.now) index }
{
    match UtcOffset::from_whole_seconds(total(set, index)) {
        Ok(offset) => offset,
        Err(_) => unreachable!(),
    }
}

/// The first two spans that contain a local second, or the only one.
pub(crate) fn first_local_spans_at<T: SpanTable>(set: &T, second: i64) -> OffsetResult<usize>
    requires accepted { IsAccepted (schedule_of (T.seen set.now)) }
    ensures within { IsUpTo (length (T.seen set.now).others) result }
    ensures lies { EachOf (λ k. order_of (schedule_of (T.seen set.now)) k second ≡ Equal) result }
    ensures exact { listed result ≡ take 2 (spans_from (schedule_of (T.seen set.now)) second 0 (length (T.seen set.now).others + 1)) }
{
    let mut first = None;
    for i in 0..span_count(set) {
        if contains(set, i, second) {
            match first {
                None => first = Some(i),
                Some(before) => return OffsetResult::Ambiguous(before, i),
            }
        }
    }
    match first {
        None => OffsetResult::None,
        Some(only) => OffsetResult::Some(only),
    }
}

/// The first span from an index on that contains a local second, of a set that can be looked up. Past the last span there is none.
pub fn next_span<T: SpanTable>(set: &T, second: i64, from: usize) -> Option<usize>
    requires accepted { IsAccepted (schedule_of (T.seen set.now)) }
    ensures within { IfSome result (λ k. k ≤ length (T.seen set.now).others) }
    ensures bound { IfSome result (λ k. k < 18446744073709551615) }
    ensures next { MatchOption result
        (spans_from (schedule_of (T.seen set.now)) second from (length (T.seen set.now).others + 1 - from) ≡ [])
        (λ k. spans_from (schedule_of (T.seen set.now)) second from (length (T.seen set.now).others + 1 - from)
        ≡ k ∷ spans_from (schedule_of (T.seen set.now)) second (k + 1) (length (T.seen set.now).others + 1 - (k + 1))) }
{
    for i in from..span_count(set) {
        if contains(set, i, second) {
            return Some(i);
        }
    }
    None
}

/// A second, as the entries of a set see it.
#[derive(Drop)]
struct UtcProbe<'a, T: SpanTable> {
    set: &'a T,
    second: i64,
}

impl<'a, T: SpanTable> Probe for UtcProbe<'a, T> {
    ghost has = { λ probe k. k < length (T.seen probe.set.now).others };

    ghost order = { λ probe k. order_at (shifts_of (T.seen probe.set.now)) k probe.second };

    fn probe<L: Ledger>(&self, index: usize, steps: &mut Steps<L>) -> Ordering {
        steps.tick();
        order_at(self.set, index, self.second)
    }
}

/// Whether the last entry at or before a second lies after an entry, is it, or lies before it.
fn order_at<T: SpanTable>(set: &T, index: usize, second: i64) -> Ordering
    requires { index < length (T.seen set.now).others }
    ensures { result ≡ order_at (shifts_of (T.seen set.now)) index second }
{
    let count = set.entry_count();
    if second < set.time(index) {
        Ordering::Greater
    } else if index + 1 < count && set.time(index + 1) <= second {
        Ordering::Less
    } else {
        Ordering::Equal
    }
}

/// The span in force at a second, where the entries before `low` are at or before it and those from `high` on after it. The set can be
/// looked up.
pub fn span_between<T: SpanTable, L: Ledger>(
    set: &T,
    second: i64,
    low: usize,
    high: usize,
    steps: &mut Steps<L>,
) -> usize
    requires accepted { IsAccepted (schedule_of (T.seen set.now)) }
    requires between { IsBetween (shifts_of (T.seen set.now)) low high second }
    ensures cut { IsCut (shifts_of (T.seen set.now)) result second }
    ensures total { (t : ℤ) → seconds_of t ≡ second →
        total_of_span (T.seen set.now) result ≡ total_at (schedule_of (T.seen set.now)) t }
    ensures cost { 2 ^ (steps.new - steps.old) ≤ 2 * (high - low) + 1 }
    ensures later { steps.old ≤ steps.new }
{
    let probe = UtcProbe { set, second };
    match binary_search(low, high, &probe, steps) {
        None => low,
        Some(found) => found + 1,
    }
}

/// A local second, as the spans of a set see it.
#[derive(Drop)]
struct LocalProbe<'a, T: SpanTable> {
    set: &'a T,
    second: i64,
    ghost accepted: { IsAccepted (schedule_of (T.seen set.now)) },
}

impl<'a, T: SpanTable> Probe for LocalProbe<'a, T> {
    ghost has = { λ probe k. k ≤ length (T.seen probe.set.now).others };

    ghost order = { λ probe k. order_of (schedule_of (T.seen probe.set.now)) k probe.second };

    fn probe<L: Ledger>(&self, index: usize, steps: &mut Steps<L>) -> Ordering {
        steps.tick();
        order(self.set, index, self.second)
    }
}

/// The spans that contain a local second: those at the instants that are read as any local time of that second. None lies before
/// `low` or after `high`.
pub(crate) fn local_spans_at<T: SpanTable, L: Ledger>(
    set: &T,
    second: i64,
    low: usize,
    high: usize,
    steps: &mut Steps<L>,
) -> OffsetResult<usize>
    requires accepted { IsAccepted (schedule_of (T.seen set.now)) }
    requires orderly { IsOrderlyZone (schedule_of (T.seen set.now)) }
    requires near { IsNear (shifts_of (T.seen set.now)) low high second }
    requires bound { high < 18446744073709551615 }
    ensures within { IsUpTo (length (T.seen set.now).others) result }
    ensures lies { EachOf (λ k. order_of (schedule_of (T.seen set.now)) k second ≡ Equal) result }
    ensures adjacent { AreAdjacent result }
    ensures exact { (x : ℤ) → seconds_of x ≡ second →
        map (total_of_span (T.seen set.now)) (listed result) ≡ totals_at (total_at (schedule_of (T.seen set.now))) x }
    ensures cost { 2 ^ (steps.new - steps.old) ≤ 2 * (high + 1 - low) + 1 }
    ensures later { steps.old ≤ steps.new }
{
    let probe = LocalProbe { set, second };
    match binary_search(low, high + 1, &probe, steps) {
        None => OffsetResult::None,
        Some(found) => beside(set, second, found),
    }
}

/// The spans that contain a local second, beside one that does.
fn beside<T: SpanTable>(set: &T, second: i64, found: usize) -> OffsetResult<usize>
    requires accepted { IsAccepted (schedule_of (T.seen set.now)) }
    requires orderly { IsOrderlyZone (schedule_of (T.seen set.now)) }
    requires within { found ≤ length (T.seen set.now).others }
    requires contains { order_of (schedule_of (T.seen set.now)) found second ≡ Equal }
    ensures within { IsUpTo (length (T.seen set.now).others) result }
    ensures lies { EachOf (λ k. order_of (schedule_of (T.seen set.now)) k second ≡ Equal) result }
    ensures adjacent { AreAdjacent result }
    ensures exact { (x : ℤ) → seconds_of x ≡ second →
        map (total_of_span (T.seen set.now)) (listed result) ≡ totals_at (total_at (schedule_of (T.seen set.now))) x }
{
    if found > 0 && contains(set, found - 1, second) {
        OffsetResult::Ambiguous(found - 1, found)
    } else if found < set.entry_count() && contains(set, found + 1, second) {
        OffsetResult::Ambiguous(found, found + 1)
    } else {
        OffsetResult::Some(found)
    }
}

fn spans_under<T: SpanTable, L: Ledger>(
    set: &T,
    orderly: bool,
    date_time: &OffsetDateTime,
    low: usize,
    high: usize,
    blank: Blank,
) -> OffsetResult<usize>
    requires accepted { IsAccepted (schedule_of (T.seen set.now)) }
    requires orderly { IsTrue orderly ↔ IsOrderlyZone (schedule_of (T.seen set.now)) }
    requires utc { offset_of date_time.now ≡ pos 0 }
    requires near { IsNear (shifts_of (T.seen set.now)) low high (seconds_of (local_of date_time.now)) }
    requires bound { high < 18446744073709551615 }
    requires name { blank.name ≡ L.name }
    requires parts { blank.parts ≡ L.parts }
    requires some { 0 < L.parts }
    ensures within { IsUpTo (length (T.seen set.now).others) result }
    ensures read { AreRead (T.seen set.now) (local_of date_time.now) result }
    ensures adjacent { IsOrderlyZone (schedule_of (T.seen set.now)) → AreAdjacent result }
    ensures totals { map (total_of_span (T.seen set.now)) (listed result)
        ≡ take 2 (totals_at (total_at (schedule_of (T.seen set.now))) (local_of date_time.now)) }
{
    let mut steps: Steps<L> = Steps::new(blank);
    local_spans_counted(set, orderly, date_time, low, high, &mut steps)
}

/// The spans at whose totals a local time is read, by time: all of them, or the first two. On an orderly set two of them are
/// neighbours. The local time is that of a date-time at UTC. The entries before `low` and those from `high` on lie further from it than
/// the greatest offset, and aren't looked at in an orderly set. The set can be looked up, and `orderly` tells whether it is orderly.
pub fn local_spans<T: SpanTable>(
    set: &T,
    orderly: bool,
    date_time: &OffsetDateTime,
    low: usize,
    high: usize,
) -> OffsetResult<usize>
    requires accepted { IsAccepted (schedule_of (T.seen set.now)) }
    requires orderly { IsTrue orderly ↔ IsOrderlyZone (schedule_of (T.seen set.now)) }
    requires utc { offset_of date_time.now ≡ pos 0 }
    requires near { IsNear (shifts_of (T.seen set.now)) low high (seconds_of (local_of date_time.now)) }
    requires bound { high < 18446744073709551615 }
    ensures within { IsUpTo (length (T.seen set.now).others) result }
    ensures read { AreRead (T.seen set.now) (local_of date_time.now) result }
    ensures adjacent { IsOrderlyZone (schedule_of (T.seen set.now)) → AreAdjacent result }
    ensures totals { map (total_of_span (T.seen set.now)) (listed result)
        ≡ take 2 (totals_at (total_at (schedule_of (T.seen set.now))) (local_of date_time.now)) }
{
    spans_under::<T, Brand>(set, orderly, date_time, low, high, Blank::new(1))
}

/// As [`local_spans`], with a step for each comparison of the search on an orderly set.
pub fn local_spans_counted<T: SpanTable, L: Ledger>(
    set: &T,
    orderly: bool,
    date_time: &OffsetDateTime,
    low: usize,
    high: usize,
    steps: &mut Steps<L>,
) -> OffsetResult<usize>
    requires accepted { IsAccepted (schedule_of (T.seen set.now)) }
    requires orderly { IsTrue orderly ↔ IsOrderlyZone (schedule_of (T.seen set.now)) }
    requires utc { offset_of date_time.now ≡ pos 0 }
    requires near { IsNear (shifts_of (T.seen set.now)) low high (seconds_of (local_of date_time.now)) }
    requires bound { high < 18446744073709551615 }
    ensures within { IsUpTo (length (T.seen set.now).others) result }
    ensures read { AreRead (T.seen set.now) (local_of date_time.now) result }
    ensures adjacent { IsOrderlyZone (schedule_of (T.seen set.now)) → AreAdjacent result }
    ensures totals { map (total_of_span (T.seen set.now)) (listed result)
        ≡ take 2 (totals_at (total_at (schedule_of (T.seen set.now))) (local_of date_time.now)) }
    ensures cost { 2 ^ (steps.new - steps.old) ≤ 2 * (high + 1 - low) + 1 }
    ensures later { steps.old ≤ steps.new }
{
    spans_of_second(set, orderly, date_time.unix_timestamp(), low, high, steps)
}

/// The spans that contain a local second: all of them, or the first two.
fn spans_of_second<T: SpanTable, L: Ledger>(
    set: &T,
    orderly: bool,
    second: i64,
    low: usize,
    high: usize,
    steps: &mut Steps<L>,
) -> OffsetResult<usize>
    requires accepted { IsAccepted (schedule_of (T.seen set.now)) }
    requires orderly { IsTrue orderly ↔ IsOrderlyZone (schedule_of (T.seen set.now)) }
    requires near { IsNear (shifts_of (T.seen set.now)) low high second }
    requires bound { high < 18446744073709551615 }
    ensures within { IsUpTo (length (T.seen set.now).others) result }
    ensures lies { EachOf (λ k. order_of (schedule_of (T.seen set.now)) k second ≡ Equal) result }
    ensures adjacent { IsOrderlyZone (schedule_of (T.seen set.now)) → AreAdjacent result }
    ensures exact { (x : ℤ) → seconds_of x ≡ second →
        map (total_of_span (T.seen set.now)) (listed result) ≡ take 2 (totals_at (total_at (schedule_of (T.seen set.now))) x) }
    ensures cost { 2 ^ (steps.new - steps.old) ≤ 2 * (high + 1 - low) + 1 }
    ensures later { steps.old ≤ steps.new }
{
    if orderly {
        local_spans_at(set, second, low, high, steps)
    } else {
        first_local_spans_at(set, second)
    }
}

fn span_under<T: SpanTable, L: Ledger>(set: &T, second: i64, blank: Blank) -> usize
    requires accepted { IsAccepted (schedule_of (T.seen set.now)) }
    requires name { blank.name ≡ L.name }
    requires parts { blank.parts ≡ L.parts }
    requires some { 0 < L.parts }
    ensures cut { IsCut (shifts_of (T.seen set.now)) result second }
    ensures total { (t : ℤ) → seconds_of t ≡ second →
        total_of_span (T.seen set.now) result ≡ total_at (schedule_of (T.seen set.now)) t }
{
    let mut steps: Steps<L> = Steps::new(blank);
    span_between(set, second, 0, set.entry_count(), &mut steps)
}

/// The span in force at a second.
pub(crate) fn span_in_force_at<T: SpanTable>(set: &T, second: i64) -> usize
    requires accepted { IsAccepted (schedule_of (T.seen set.now)) }
    ensures cut { IsCut (shifts_of (T.seen set.now)) result second }
    ensures total { (t : ℤ) → seconds_of t ≡ second →
        total_of_span (T.seen set.now) result ≡ total_at (schedule_of (T.seen set.now)) t }
{
    span_under::<T, Brand>(set, second, Blank::new(1))
}

/// The span in force at an instant.
pub(crate) fn span_in_force<T: SpanTable>(set: &T, date_time: &OffsetDateTime) -> usize
    requires accepted { IsAccepted (schedule_of (T.seen set.now)) }
    ensures in_force { IsInForce (T.seen set.now) result (instant date_time.now) }
    ensures total { total_of_span (T.seen set.now) result ≡ total_at (schedule_of (T.seen set.now)) (instant date_time.now) }
{
    span_in_force_at(set, date_time.unix_timestamp())
}
