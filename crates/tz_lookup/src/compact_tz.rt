//! A compact set as a time zone.
ghost use Rattle.std.specs.Prelude.{◌≡◌, ◌≤◌, length, int_lt, pos};
ghost use Rattle.zone_spans.specs.{Entries.{total}, Schedules.{total_at}};
ghost use Rattle.tz_lookup.specs.{Cursors.{cursor_left}, InForce.{GivesAt}, Sets.{schedule_of, IsOrderlyZone}, CompactShown.{seen}};

use crate::compact_set::CompactSet;
use crate::instants::InstantsIn;
use crate::lookups::{local_spans, local_spans_counted};
use crate::search::Steps;
use crate::time_zone::{
    AllInstants, OffsetResult, PrimitiveDateTimeExt, SpanCursor, SpanScan, TimeZone,
};
use crate::tz::TzOffset;
use civil_base::{OffsetDateTime, PlainDateTime};
use std::marker::Brand;
use std::sync::ledger::{Blank, Ledger};

/// The zone of a compact set, which it borrows.
#[derive(Clone, Copy, Debug, Drop)]
pub struct CompactTz<'a> {
    set: &'a CompactSet,
}

/// The offset of a span of a compact set.
pub type CompactOffset<'a> = TzOffset<'a>;

/// The date-times that a compact set reads as one local time.
pub type CompactInstants<'a> = InstantsIn<'a, CompactSet>;

impl<'a> CompactTz<'a> {
    ghost use Rattle.std.specs.Prelude.{◌≡◌, ◌↔◌, ◌+◌, ◌-◌, ◌*◌, ◌^◌, ◌<◌, ◌≤◌, ℤ, IsTrue, length, map, take, pos};
    ghost use Rattle.civil_base.specs.{DateTimes.{instant, local_of, offset_of}, Instants.{instant_at, seconds_of}};
    ghost use Rattle.zone_spans.specs.Schedules.{total_at};
    ghost use Rattle.tz_lookup.specs.{Answers.{listed, EachOf}, InForce.{all_in_force, shown_of, totals_at, AreInstants, GivesAt}, Sets.{schedule_of, shifts_of, IsNear, IsOrderlyZone}, Zones.{span_shown, total_shown, IsGivenFor}, CompactLeft.{compact_left}, CompactShown.{seen}, CompactZones.{compact_of}, Years.{changes_in_year}};

    /// The zone of a compact set.
    pub fn new(set: &'a CompactSet) -> CompactTz<'a>
        ensures { compact_of result ≡ seen set.now }
    {
        CompactTz { set }
    }

    /// Whether local starts don't fall, local ends don't fall, and no local time lies in a span and in the next but one.
    /// Then no local time has more than two instants.
    pub fn is_orderly(&self) -> bool
        ensures { IsTrue result ↔ IsOrderlyZone (schedule_of (compact_of self.now)) }
    {
        self.set.is_orderly()
    }

    /// As `get_offset_utc`, with a step for each comparison of the search: s steps with 2^s <= 2k + 1 for k entries in the
    /// UTC year of the instant, so none in a year without one. All years before 1800 count as one year, and so do all from
    /// 2800 on.
    pub fn get_offset_utc_counted<L: Ledger>(
        &self,
        date_time: &OffsetDateTime,
        steps: &mut Steps<L>,
    ) -> CompactOffset<'a>
        ensures total { total_shown result ≡ total_at (schedule_of (compact_of self.now)) (instant date_time.now) }
        ensures name { GivesAt (compact_of self.now) (instant date_time.now) (span_shown result).name (int_lt (pos 0) (span_shown result).dst_offset) }
        ensures cost { 2 ^ (steps.new - steps.old) ≤ 2 * changes_in_year (compact_of self.now) (seconds_of (instant date_time.now)) + 1 }
        ensures later { steps.old ≤ steps.new }
    {
        TzOffset::of_span(
            self.set,
            self.set.span_in_year(date_time.unix_timestamp(), steps),
        )
    }

    /// As `get_offset_local`, with a step for each comparison of the search: s steps with 2^s <= 2n + 1 for n spans of an
    /// orderly set, and none on any other, where each span is looked at.
    pub fn get_offset_local_counted<L: Ledger>(
        &self,
        date_time: &OffsetDateTime,
        steps: &mut Steps<L>,
    ) -> OffsetResult<CompactOffset<'a>>
        requires { offset_of date_time.now ≡ pos 0 }
        ensures totals { map total_shown (listed result) ≡ take 2 (totals_at (total_at (schedule_of (compact_of self.now))) (local_of date_time.now)) }
        ensures names { EachOf (IsGivenFor (compact_of self.now) (local_of date_time.now)) result }
        ensures exact { IsOrderlyZone (schedule_of (compact_of self.now)) → AreInstants (total_at (schedule_of (compact_of self.now))) (local_of date_time.now)
            (map (instant_at (local_of date_time.now)) (map total_shown (listed result))) }
        ensures cost { 2 ^ (steps.new - steps.old) ≤ 2 * (length (compact_of self.now).others + 1) + 1 }
        ensures later { steps.old ≤ steps.new }
    {
        let (low, high) = self.near(date_time);
        TzOffset::of_spans(
            self.set,
            local_spans_counted(self.set, self.set.is_orderly(), date_time, low, high, steps),
        )
    }

    /// The date-times that the zone reads as that local time: each once, by time, at most one for each span. It takes no
    /// memory.
    pub fn instants_local(&self, date_time: &PlainDateTime) -> CompactInstants<'a>
        ensures all { map shown_of (compact_left result) ≡ all_in_force (total_at (schedule_of (compact_of self.now))) date_time.now }
        ensures few { length (compact_left result) ≤ length (compact_of self.now).others + 1 }
        ensures exact { AreInstants (total_at (schedule_of (compact_of self.now))) date_time.now (map instant (compact_left result)) }
    {
        InstantsIn::new(self.set, date_time)
    }

    /// The places of the entries about a local time, which is that of a date-time at UTC.
    fn near(&self, date_time: &OffsetDateTime) -> (usize, usize)
        requires { offset_of date_time.now ≡ pos 0 }
        ensures near { IsNear (shifts_of (compact_of self.now)) result.0 result.1 (seconds_of (local_of date_time.now)) }
        ensures bound { result.1 < 18446744073709551615 }
    {
        self.set.near(date_time.unix_timestamp())
    }

    fn offset_under<L: Ledger>(&self, date_time: &OffsetDateTime, blank: Blank) -> CompactOffset<'a>
        requires name { blank.name ≡ L.name }
        requires parts { blank.parts ≡ L.parts }
        requires some { 0 < L.parts }
        ensures total { total_shown result ≡ total_at (schedule_of (compact_of self.now)) (instant date_time.now) }
        ensures name { GivesAt (compact_of self.now) (instant date_time.now) (span_shown result).name (int_lt (pos 0) (span_shown result).dst_offset) }
    {
        let mut steps: Steps<L> = Steps::new(blank);
        self.get_offset_utc_counted(date_time, &mut steps)
    }
}

impl<'a> TimeZone for CompactTz<'a> {
    type Offset = CompactOffset<'a>;

    ghost total_at = { λ zone. total_at (schedule_of (seen zone.set.now)) };

    ghost orderly = { λ zone. IsOrderlyZone (schedule_of (seen zone.set.now)) };

    ghost gives = { λ zone. GivesAt (seen zone.set.now) };

    ghost called = { λ zone. (seen zone.set.now).name };

    ghost primary = { λ zone. total (seen zone.set.now).first };

    ghost begins = { λ zone name saving. (name ≡ (seen zone.set.now).first.name) × (saving ≡ int_lt (pos 0) (seen zone.set.now).first.dst_offset) };

    fn get_offset_utc(&self, date_time: &OffsetDateTime) -> CompactOffset<'a> {
        self.offset_under::<Brand>(date_time, Blank::new(1))
    }

    fn get_offset_local(&self, date_time: &OffsetDateTime) -> OffsetResult<CompactOffset<'a>> {
        let (low, high) = self.near(date_time);
        TzOffset::of_spans(
            self.set,
            local_spans(self.set, self.set.is_orderly(), date_time, low, high),
        )
    }

    fn get_offset_primary(&self) -> CompactOffset<'a> {
        TzOffset::of_span(self.set, 0)
    }

    fn name(&self) -> &str {
        self.set.name()
    }

    ghost in_range = { λ zone t. zone.set.now.range t };

    ghost two_at_most = { λ zone time orderly. zone.set.now.two orderly time };
}

impl<'a> AllInstants for CompactTz<'a> {
    type Cursor = SpanCursor;

    ghost left = { λ zone. cursor_left (seen zone.set.now) };

    fn begin(&self, local: &PlainDateTime) -> SpanCursor {
        if self.set.is_orderly() {
            SpanCursor::Found(local.assume_timezone(self))
        } else {
            SpanCursor::Sought(SpanScan::new(local))
        }
    }

    fn next(&self, cursor: &mut SpanCursor) -> Option<OffsetDateTime> {
        cursor.next(self.set)
    }
}
