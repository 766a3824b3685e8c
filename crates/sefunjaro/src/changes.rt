//! The changes of a zone, and the saving in force.
ghost use Rattle.std.specs.{Prelude.{◌≡◌, ◌+◌, ◌<◌, int_lt, length, map, Some}, List.{slice_get}};
ghost use Rattle.tz_lookup.specs.{Sets.{schedule_of, shifts_of, IsAccepted}, Spans.{shift_at, IsCut}};
ghost use Rattle.zone_spans.specs.Collapse.{is_same_span};
ghost use Rattle.sefunjaro.specs.{Changes.{change_of, next_after, saving_at, span_before, window}, ChangeSteps.{AreParted, HasPut, IsChangeAt}, Rooms.{filled}};

use crate::room::put;
use std::marker::Brand;
use std::sync::ledger::{Blank, Ledger};
use tz_lookup::{FixedTimespan, SpanTable, Steps, offset_of, span_between};

/// A change: what is in force from a second on.
#[derive(Clone, Copy, Debug, PartialEq, Eq)]
#[repr(C)]
pub struct Change {
    /// The second, from 1970-01-01 00:00:00 UTC.
    pub second: i64,
    /// The seconds east of UTC that are in force from it on.
    pub offset: i32,
    /// How many of them are the saving. They are below 0 where winter time is the one with a saving.
    pub saving: i64,
    /// How many bytes the abbreviation has that is in force from it on.
    pub name_length: usize,
    /// Whether the offset, the saving or the abbreviation is another than just before the second.
    pub differs: bool,
}

/// The saving that is in force at a second, in seconds.
pub(crate) fn saving_at<S: SpanTable>(set: &S, second: i64) -> i64
    requires { IsAccepted (schedule_of (S.seen set.now)) }
    ensures { result ≡ saving_at (S.seen set.now) second }
{
    set.span(span_in_force_at(set, second)).dst_offset
}

/// The first change after a second, if there is one.
pub(crate) fn next_change<S: SpanTable>(set: &S, second: i64) -> Option<Change>
    requires { IsAccepted (schedule_of (S.seen set.now)) }
    ensures { result ≡ next_after (S.seen set.now) second }
{
    for place in span_in_force_at(set, second)..set.entry_count() {
        match change_at(set, place) {
            Some(change) => return Some(change),
            None => {}
        }
    }
    None
}

/// The changes from a second on and before another, in their order, as far as they fit in the room, and how many there are.
pub(crate) fn changes<S: SpanTable>(set: &S, from: i64, to: i64, room: &mut [Change]) -> usize
    requires { IsAccepted (schedule_of (S.seen set.now)) }
    ensures room { room.new ≡ filled (window (S.seen set.now) from to) room.old }
    ensures count { result ≡ length (window (S.seen set.now) from to) }
{
    let first = entries_before(set, from);
    let end = entries_before(set, to).max(first);
    let mut count = 0;
    for place in first..end {
        count = put_change(set, place, count, room);
    }
    count
}

/// Puts the change of an entry at the next place of the room, if there are both, and answers how many changes there are then.
fn put_change<S: SpanTable>(set: &S, place: usize, count: usize, room: &mut [Change]) -> usize
    requires accepted { IsAccepted (schedule_of (S.seen set.now)) }
    requires within { place < length (S.seen set.now).others }
    requires bound { count < 18446744073709551615 }
    ensures { HasPut (map (change_of (S.seen set.now)) (S.seen set.now).others) place count result room.old room.new }
{
    match change_at(set, place) {
        Some(change) => {
            put(change, count, room);
            count + 1
        }
        None => count,
    }
}

/// The change of an entry, unless another entry stands behind it at the same second.
fn change_at<S: SpanTable>(set: &S, place: usize) -> Option<Change>
    requires accepted { IsAccepted (schedule_of (S.seen set.now)) }
    requires within { place < length (S.seen set.now).others }
    ensures { IsChangeAt (map (change_of (S.seen set.now)) (S.seen set.now).others) place result }
{
    let count = set.entry_count();
    if place + 1 < count {
        if is_before_next(set, place) {
            Some(entry_at(set, place))
        } else {
            None
        }
    } else {
        Some(entry_at(set, place))
    }
}

/// Whether an entry lies before the next, and not at the same second.
fn is_before_next<S: SpanTable>(set: &S, place: usize) -> bool
    requires within { place + 1 < length (S.seen set.now).others }
    requires bound { place < 18446744073709551615 }
    ensures { result ≡ int_lt (shift_at (shifts_of (S.seen set.now)) place).0 (shift_at (shifts_of (S.seen set.now)) (place + 1)).0 }
{
    set.time(place) < set.time(place + 1)
}

/// The entry at a place of the order of time, which counts from 0, as a change.
fn entry_at<S: SpanTable>(set: &S, place: usize) -> Change
    requires accepted { IsAccepted (schedule_of (S.seen set.now)) }
    requires within { place < length (S.seen set.now).others }
    requires bound { place < 18446744073709551615 }
    ensures { slice_get (map (change_of (S.seen set.now)) (S.seen set.now).others) place ≡ Some result }
{
    let second = set.time(place);
    let span = set.span(place + 1);
    Change {
        second,
        offset: offset_of(set, place + 1).whole_seconds(),
        saving: span.dst_offset,
        name_length: span.name.as_str().len(),
        differs: !is_same_span(span, span_before(set, second)),
    }
}

/// What is in force just before a second.
fn span_before<S: SpanTable>(set: &S, second: i64) -> &FixedTimespan
    requires { IsAccepted (schedule_of (S.seen set.now)) }
    ensures { result.now ≡ span_before (S.seen set.now) second }
{
    set.span(entries_before(set, second))
}

/// Whether two spans have one offset, one saving and one abbreviation.
fn is_same_span(a: &FixedTimespan, b: &FixedTimespan) -> bool
    ensures { result ≡ is_same_span a.now b.now }
{
    a.utc_offset == b.utc_offset && a.dst_offset == b.dst_offset && a.name == b.name
}

/// How many entries lie before a second.
pub(crate) fn entries_before<S: SpanTable>(set: &S, second: i64) -> usize
    requires { IsAccepted (schedule_of (S.seen set.now)) }
    ensures { AreParted (shifts_of (S.seen set.now)) result second }
{
    let mut low = 0;
    let mut high = set.entry_count();
    while low < high {
        let middle = low + (high - low) / 2;
        if is_before(set, middle, second) {
            low = middle + 1;
        } else {
            high = middle;
        }
    }
    low
}

/// Whether an entry lies before a second.
fn is_before<S: SpanTable>(set: &S, place: usize, second: i64) -> bool
    requires { place < length (S.seen set.now).others }
    ensures { result ≡ int_lt (shift_at (shifts_of (S.seen set.now)) place).0 second }
{
    set.time(place) < second
}

/// The number of the span in force at a second, which is how many entries lie at or before it.
pub(crate) fn span_in_force_at<S: SpanTable>(set: &S, second: i64) -> usize
    requires { IsAccepted (schedule_of (S.seen set.now)) }
    ensures { IsCut (shifts_of (S.seen set.now)) result second }
{
    span_under::<S, Brand>(set, second, Blank::new(1))
}

/// The same, with steps of the search that are counted and thrown away.
fn span_under<S: SpanTable, L: Ledger>(set: &S, second: i64, blank: Blank) -> usize
    requires name { blank.name ≡ L.name }
    requires parts { blank.parts ≡ L.parts }
    requires some { 0 < L.parts }
    requires accepted { IsAccepted (schedule_of (S.seen set.now)) }
    ensures { IsCut (shifts_of (S.seen set.now)) result second }
{
    let mut steps: Steps<L> = Steps::new(blank);
    span_between(set, second, 0, set.entry_count(), &mut steps)
}
