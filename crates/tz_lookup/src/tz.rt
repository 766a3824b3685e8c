//! A set of spans as a time zone.
ghost use Rattle.std.specs.Prelude.{◌≡◌, ℕ, ℤ, ◌≤◌, ◌↔◌, length, IsTrue, int_lt, pos, List};
ghost use Rattle.civil_base.specs.Ranges.{IsOffset, is_offset};
ghost use Rattle.zone_spans.specs.{Entries.{total}, Schedules.{instants, total_at}};
ghost use Rattle.tz_lookup.specs.{Cursors.{cursor_left}, InForce.{GivesAt}, Sets.{schedule_of, IsAccepted, IsOrderlyZone}};

use crate::instants::{InstantsIn, InstantsLocal};
use crate::lookups::{SpanTable, local_spans, local_spans_counted, offset_of, span_in_force};
use crate::search::Steps;
use crate::set::{FixedTimespanSet, TzFault, accept, is_orderly};
use crate::time_zone::{
    AllInstants, Offset, OffsetResult, PrimitiveDateTimeExt, SpanCursor, SpanScan, TimeZone,
};
use civil_base::{OffsetDateTime, PlainDateTime, UtcOffset};
use std::sync::ledger::Ledger;
use zone_spans::FixedTimespan;

/// A set of spans that can be looked up. It borrows the set, and remembers whether that is orderly.
#[derive(Clone, Copy, Debug, Drop, PartialEq, Eq)]
pub struct Tz<'a> {
    set: &'a FixedTimespanSet,
    orderly: bool,
    ghost accepted: { IsAccepted (schedule_of set.now) },
    ghost marked: { IsTrue orderly ↔ IsOrderlyZone (schedule_of set.now) },
    ghost range: { (t : ℤ) → IsOffset (total_at (schedule_of set.now) t) },
    ghost two: { IsOrderlyZone (schedule_of set.now) → (time : ℤ) → length (instants (total_at (schedule_of set.now)) time) ≤ 2 },
}

/// The offset of a span.
#[derive(Clone, Copy, Debug, Drop, PartialEq, Eq)]
pub struct TzOffset<'a> {
    span: &'a FixedTimespan,
    offset: UtcOffset,
    ghost total_is: { offset ≡ total span.now },
}

impl<'a> TzOffset<'a> {
    ghost use Rattle.std.specs.Prelude.{◌≡◌, ◌≤◌, ℤ, length, map};
    ghost use Rattle.civil_base.specs.Instants.{instant_at};
    ghost use Rattle.tz_lookup.specs.{Answers.{listed, EachOf, IsUpTo}, InForce.{AreRead, IsInForce}, Sets.{schedule_of, IsAccepted, span_in, total_of_span}, Zones.{span_shown, total_shown, IsGivenFor}};

    /// The offset of a span of a set that can be looked up, by the span's number from 0 on.
    pub fn of_span<T: SpanTable>(set: &'a T, index: usize) -> TzOffset<'a>
        requires accepted { IsAccepted (schedule_of (T.seen set.now)) }
        requires within { index ≤ length (T.seen set.now).others }
        ensures total { total_shown result ≡ total_of_span (T.seen set.now) index }
        ensures span { span_shown result ≡ span_in (T.seen set.now) index }
        ensures given { (x : ℤ) → IsInForce (T.seen set.now) index (instant_at x (total_of_span (T.seen set.now) index)) → IsGivenFor (T.seen set.now) x result }
    {
        TzOffset {
            span: set.span(index),
            offset: offset_of(set, index),
        }
    }

    /// The offsets of some spans of a set that can be looked up, by their numbers from 0 on.
    pub fn of_spans<T: SpanTable>(
        set: &'a T,
        spans: OffsetResult<usize>,
    ) -> OffsetResult<TzOffset<'a>>
        requires accepted { IsAccepted (schedule_of (T.seen set.now)) }
        requires within { IsUpTo (length (T.seen set.now).others) spans }
        ensures totals { map total_shown (listed result) ≡ map (total_of_span (T.seen set.now)) (listed spans) }
        ensures names { (x : ℤ) → AreRead (T.seen set.now) x spans → EachOf (IsGivenFor (T.seen set.now) x) result }
    {
        spans.map(|span| TzOffset::of_span(set, span))
    }
}

impl<'a> Tz<'a> {
    ghost use Rattle.std.specs.Prelude.{◌≡◌, ◌↔◌, ◌+◌, ◌-◌, ◌*◌, ◌^◌, ◌≤◌, IsTrue, MatchResult, length, map, take, pos};
    ghost use Rattle.civil_base.specs.{Instants.{instant_at}, DateTimes.{instant, local_of, offset_of}};
    ghost use Rattle.zone_spans.specs.Schedules.{total_at};
    ghost use Rattle.tz_lookup.specs.{Answers.{listed, EachOf}, Faults.{IsFault}, InForce.{all_in_force, shown_of, totals_at, AreInstants}, InstantsLeft.{dates_left}, Sets.{schedule_of, IsAccepted, IsOrderlyZone}, Zones.{set_of, total_shown, IsGivenFor}};

    /// The zone of a set. Whether the set is orderly is tested once, here.
    ///
    /// # Errors
    ///
    /// `OffsetRange`, `Falling` and `Bound`, in this order, each exactly where it says.
    pub fn new(set: &'a FixedTimespanSet) -> Result<Tz<'a>, TzFault>
        ensures { MatchResult result
            (λ zone. IsAccepted (schedule_of set.now) × (set_of zone ≡ set.now))
            (IsFault (schedule_of set.now)) }
    {
        match accept(set) {
            Ok(()) => Ok(Tz::marked(set, is_orderly(set))),
            Err(fault) => Err(fault),
        }
    }

    /// The zone of a set that can be looked up, where it is known whether the set is orderly. It tests nothing.
    pub fn marked(set: &'a FixedTimespanSet, orderly: bool) -> Tz<'a>
        requires accepted { IsAccepted (schedule_of set.now) }
        requires orderly { IsTrue orderly ↔ IsOrderlyZone (schedule_of set.now) }
        ensures { set_of result ≡ set.now }
    {
        Tz { set, orderly }
    }

    /// Whether local starts don't fall, local ends don't fall, and no local time lies in a span and in the next but one.
    /// Then no local time has more than two instants.
    pub fn is_orderly(&self) -> bool
        ensures { IsTrue result ↔ IsOrderlyZone (schedule_of (set_of self.now)) }
    {
        self.orderly
    }

    /// As `get_offset_local`, with a step for each comparison of the search: s steps with 2^s <= 2n + 1 for n spans of an
    /// orderly set, and none on any other, where each span is looked at.
    pub fn get_offset_local_counted<L: Ledger>(
        &self,
        date_time: &OffsetDateTime,
        steps: &mut Steps<L>,
    ) -> OffsetResult<TzOffset<'a>>
        requires { offset_of date_time.now ≡ pos 0 }
        ensures totals { map total_shown (listed result) ≡ take 2 (totals_at (total_at (schedule_of (set_of self.now))) (local_of date_time.now)) }
        ensures names { EachOf (IsGivenFor (set_of self.now) (local_of date_time.now)) result }
        ensures exact { IsOrderlyZone (schedule_of (set_of self.now)) → AreInstants (total_at (schedule_of (set_of self.now))) (local_of date_time.now)
            (map (instant_at (local_of date_time.now)) (map total_shown (listed result))) }
        ensures cost { 2 ^ (steps.new - steps.old) ≤ 2 * (length (set_of self.now).others + 1) + 1 }
        ensures later { steps.old ≤ steps.new }
    {
        TzOffset::of_spans(
            self.set,
            local_spans_counted(
                self.set,
                self.orderly,
                date_time,
                0,
                self.set.entry_count(),
                steps,
            ),
        )
    }

    /// The date-times that the zone reads as that local time: each once, by time, at most one for each span. It takes no
    /// memory.
    pub fn instants_local(&self, date_time: &PlainDateTime) -> InstantsLocal<'a>
        ensures all { map shown_of (dates_left result) ≡ all_in_force (total_at (schedule_of (set_of self.now))) date_time.now }
        ensures few { length (dates_left result) ≤ length (set_of self.now).others + 1 }
        ensures exact { AreInstants (total_at (schedule_of (set_of self.now))) date_time.now (map instant (dates_left result)) }
    {
        InstantsIn::new(self.set, date_time)
    }
}

impl<'a> Offset for TzOffset<'a> {
    ghost total = { λ offset. offset.offset };

    ghost called = { λ offset. offset.span.now.name };

    ghost is_saving = { λ offset. int_lt (pos 0) offset.span.now.dst_offset };

    fn to_utc(&self) -> UtcOffset {
        self.offset
    }

    fn name(&self) -> &str {
        self.span.name.as_str()
    }

    fn is_dst(&self) -> bool {
        self.span.dst_offset > 0
    }
}

impl<'a> TimeZone for Tz<'a> {
    type Offset = TzOffset<'a>;

    ghost total_at = { λ zone. total_at (schedule_of zone.set.now) };

    ghost orderly = { λ zone. IsOrderlyZone (schedule_of zone.set.now) };

    ghost gives = { λ zone. GivesAt zone.set.now };

    ghost called = { λ zone. zone.set.now.name };

    ghost primary = { λ zone. total zone.set.now.first };

    ghost begins = { λ zone name saving. (name ≡ zone.set.now.first.name) × (saving ≡ int_lt (pos 0) zone.set.now.first.dst_offset) };

    fn get_offset_utc(&self, date_time: &OffsetDateTime) -> TzOffset<'a> {
        TzOffset::of_span(self.set, span_in_force(self.set, date_time))
    }

    fn get_offset_local(&self, date_time: &OffsetDateTime) -> OffsetResult<TzOffset<'a>> {
        TzOffset::of_spans(
            self.set,
            local_spans(self.set, self.orderly, date_time, 0, self.set.entry_count()),
        )
    }

    fn get_offset_primary(&self) -> TzOffset<'a> {
        TzOffset::of_span(self.set, 0)
    }

    fn name(&self) -> &str {
        self.set.name.as_str()
    }

    ghost in_range = { λ zone t. zone.range t };

    ghost two_at_most = { λ zone time orderly. zone.two orderly time };
}

impl<'a> AllInstants for Tz<'a> {
    type Cursor = SpanCursor;

    ghost left = { λ zone. cursor_left zone.set.now };

    fn begin(&self, local: &PlainDateTime) -> SpanCursor {
        if self.orderly {
            SpanCursor::Found(local.assume_timezone(self))
        } else {
            SpanCursor::Sought(SpanScan::new(local))
        }
    }

    fn next(&self, cursor: &mut SpanCursor) -> Option<OffsetDateTime> {
        cursor.next(self.set)
    }
}
