//! The total offset at a second, and how long it is in force: what a cursor over many seconds remembers.
ghost use Rattle.std.specs.Prelude.{◌≡◌, ◌<◌, ◌≤◌, ◌≤ℤ◌, ◌<ℤ◌, length, ℕ, ℤ};
ghost use Rattle.zone_spans.specs.Schedules.{total_at};
ghost use Rattle.tz_lookup.specs.{Sets.{schedule_of, shifts_of, IsAccepted}, Spans.{shift_at, IsCut}, CompactShown.{seen}, Stretches.{stretch_begin, begin_second, stretch_end, least_second, IsStretch}};

use crate::compact_set::CompactSet;
use crate::lookups::{SpanTable, offset_of};
use crate::search::Steps;
use std::marker::Brand;
use std::sync::ledger::{Blank, Ledger};

/// Seconds from 1970-01-01 00:00:00 UTC throughout which one total offset is in force.
#[derive(Clone, Copy, Debug, PartialEq, Eq)]
pub struct Stretch {
    /// The first of them.
    pub from: i64,
    /// The one after the last of them. Where it isn't after the first there are none.
    pub until: i64,
    /// The seconds east of UTC.
    pub offset: i32,
}

/// The total offset of a set at a second, in seconds from 1970-01-01 00:00:00 UTC, and the seconds around it from the last entry up to it,
/// or from `i64::MIN` on, up to the next one, or to `i64::MAX`. It is one of them where there is a later one.
pub fn stretch_of(set: &CompactSet, second: i64) -> Stretch
    ensures is { IsStretch (total_at (schedule_of (seen set.now))) second result }
    ensures from { result.from ≡ stretch_begin (schedule_of (seen set.now)) second }
    ensures until { result.until ≡ stretch_end (schedule_of (seen set.now)) second }
    ensures lasts { second <ℤ i64.MAX → second <ℤ result.until }
{
    stretch_under::<Brand>(set, second, Blank::new(1))
}

fn stretch_under<L: Ledger>(set: &CompactSet, second: i64, blank: Blank) -> Stretch
    requires name { blank.name ≡ L.name }
    requires parts { blank.parts ≡ L.parts }
    requires some { 0 < L.parts }
    ensures is { IsStretch (total_at (schedule_of (seen set.now))) second result }
    ensures from { result.from ≡ stretch_begin (schedule_of (seen set.now)) second }
    ensures until { result.until ≡ stretch_end (schedule_of (seen set.now)) second }
    ensures lasts { second <ℤ i64.MAX → second <ℤ result.until }
{
    let mut steps: Steps<L> = Steps::new(blank);
    let span = span_of(set, second, &mut steps);
    let from = span_begin(set, span, second);
    let until = span_end(set, span, second);
    let offset = offset_of(set, span).whole_seconds();
    Stretch {
        from,
        until,
        offset,
    }
}

/// The number of the span in force at a second.
fn span_of<L: Ledger>(set: &CompactSet, second: i64, steps: &mut Steps<L>) -> usize
    ensures { IsCut (shifts_of (seen set.now)) result second }
{
    set.span_in_year(second, steps)
}

/// The second from which the span is in force that is in force at a second, by its number: `i64::MIN` of the first.
pub fn span_begin<S: SpanTable>(set: &S, span: usize, second: i64) -> i64
    requires accepted { IsAccepted (schedule_of (S.seen set.now)) }
    requires cut { IsCut (shifts_of (S.seen set.now)) span second }
    ensures begun { result ≤ℤ second }
    ensures before { (u : ℤ) → result ≤ℤ u → (j : ℕ) → j < span → (shift_at (shifts_of (S.seen set.now)) j).0 ≤ℤ u }
    ensures is { result ≡ begin_second least_second (shifts_of (S.seen set.now)) span }
{
    if span == 0 {
        i64::MIN
    } else {
        set.time(span - 1)
    }
}

/// The second up to which it is: `i64::MAX` of the last.
pub fn span_end<S: SpanTable>(set: &S, span: usize, second: i64) -> i64
    requires accepted { IsAccepted (schedule_of (S.seen set.now)) }
    requires cut { IsCut (shifts_of (S.seen set.now)) span second }
    ensures lasts { second <ℤ i64.MAX → second <ℤ result }
    ensures after { (u : ℤ) → u <ℤ result → (j : ℕ) → span ≤ j → j < length (shifts_of (S.seen set.now)) → u <ℤ (shift_at (shifts_of (S.seen set.now)) j).0 }
    ensures next { span < length (shifts_of (S.seen set.now)) → result ≡ (shift_at (shifts_of (S.seen set.now)) span).0 }
    ensures last { length (shifts_of (S.seen set.now)) ≤ span → result ≡ i64.MAX }
{
    if span < set.entry_count() {
        set.time(span)
    } else {
        i64::MAX
    }
}
