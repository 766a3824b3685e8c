//! A zone's spans under its name: whether a list of them is accepted as one, and whether it is orderly.
ghost use Rattle.std.specs.{Prelude.{◌≡◌, ◌+◌, ◌≤◌, length, string_bytes, ◌↔◌, IsTrue, All, MatchResult, ◌≤ℤ◌}, List.{list_all}};
ghost use Rattle.tz_lookup.specs.{Sets.{span_in, schedule_of, shifts_of, IsAccepted, IsSpanTime, IsOrderlyZone}, Faults.{IsFault}, Spans.{TimesDontFall}};
ghost use Rattle.zone_spans.specs.{Entries.{total}, Schedules.{is_in_offset_range}};
ghost use Rattle.civil_base.specs.Ranges.{is_offset};

use crate::lookups::{SpanTable, end_of, start_of};
use basics::{Items, Text};
use civil_base::GREATEST_OFFSET;
use zone_spans::{FixedTimespan, GREATEST_SECOND};

/// The spans of a zone: what is in force before the first entry, and what from each entry on. Span 0 is the first one.
#[derive(Debug, Drop, PartialEq, Eq)]
pub struct FixedTimespanSet {
    /// The name of the zone.
    pub name: Text,
    /// What is in force before the first entry.
    pub first: FixedTimespan,
    /// A time in seconds from 1970-01-01 00:00:00 UTC, and what is in force from then on.
    pub others: Items<(i64, FixedTimespan)>,
}

impl FixedTimespanSet {
    /// The compiled spans under a name. It takes no memory.
    pub fn from_compiled(name: String, compiled: zone_spans::FixedTimespanSet) -> FixedTimespanSet
        ensures name { result.name ≡ string_bytes name }
        ensures first { result.first ≡ compiled.first }
        ensures others { result.others ≡ compiled.rest }
    {
        FixedTimespanSet {
            name: Text::from_string(name),
            first: compiled.first,
            others: compiled.rest,
        }
    }

    /// How many spans there are: one more than the entries.
    pub fn span_count(&self) -> usize
        ensures { result ≡ length self.now.others + 1 }
    {
        self.entries().len() + 1
    }

    /// The span of that number, which is below the count.
    pub fn span_at(&self, index: usize) -> &FixedTimespan
        requires { index ≤ length self.now.others }
        ensures { result.now ≡ span_in self.now index }
    {
        if index == 0 {
            &self.first
        } else {
            &self.entries()[index - 1].1
        }
    }

    /// The entries.
    pub(crate) fn entries(&self) -> &[(i64, FixedTimespan)]
        ensures { result.now ≡ self.now.others }
    {
        self.others.as_slice()
    }
}

impl SpanTable for FixedTimespanSet {
    ghost seen = { λ set. set };

    fn entry_count(&self) -> usize {
        self.entries().len()
    }

    fn time(&self, index: usize) -> i64 {
        self.entries()[index].0
    }

    fn span(&self, index: usize) -> &FixedTimespan {
        self.span_at(index)
    }
}

/// The least and the greatest offset in seconds: a second less than 26 hours, west and east.
const LEAST_OFFSET: i64 = -MOST_EAST;

const MOST_EAST: i64 = GREATEST_OFFSET as i64;

/// Why a set can't be looked up.
#[derive(Clone, Copy, Debug, PartialEq, Eq)]
pub enum TzFault {
    /// The offset and the saving of some span add up to 26 hours or more.
    OffsetRange,
    /// The time of some entry lies before that of the entry before it.
    Falling,
    /// A time is more than 2^40 seconds in size.
    Bound,
}

/// Whether a set can be looked up; else the first fault.
pub(crate) fn accept(set: &FixedTimespanSet) -> Result<(), TzFault>
    ensures { MatchResult result (λ _. IsAccepted (schedule_of set.now)) (IsFault (schedule_of set.now)) }
{
    if !has_offsets(set) {
        Err(TzFault::OffsetRange)
    } else if !times_do_not_fall(set) {
        Err(TzFault::Falling)
    } else if !has_span_times(set.entries()) {
        Err(TzFault::Bound)
    } else {
        Ok(())
    }
}

/// Whether each span has an offset.
pub(crate) fn has_offsets(set: &FixedTimespanSet) -> bool
    ensures { result ≡ is_in_offset_range (schedule_of set.now) }
{
    has_offset(&set.first) && have_offsets(set.entries())
}

fn have_offsets(entries: &[(i64, FixedTimespan)]) -> bool
    ensures { result ≡ list_all (λ entry. is_offset (total entry.1)) entries.now }
{
    entries.iter().all(|entry| has_offset(&entry.1))
}

/// Whether the exact sum of the span's offset and saving is less than 26 hours in size.
fn has_offset(span: &FixedTimespan) -> bool
    ensures { result ≡ is_offset (total span.now) }
{
    match span.utc_offset.checked_add(span.dst_offset) {
        Some(total) => is_offset(total),
        None => false,
    }
}

fn is_offset(total: i64) -> bool
    ensures { result ≡ is_offset total }
{
    LEAST_OFFSET <= total && total <= MOST_EAST
}

fn times_do_not_fall(set: &FixedTimespanSet) -> bool
    ensures { IsTrue result ↔ TimesDontFall (shifts_of set.now) }
{
    for i in 1..set.entry_count() {
        if set.time(i) < set.time(i - 1) {
            return false;
        }
    }
    true
}

fn has_span_times(entries: &[(i64, FixedTimespan)]) -> bool
    ensures { IsTrue result ↔ All (λ entry. IsSpanTime entry.0) entries.now }
{
    entries.iter().all(|entry| is_span_time(entry.0))
}

fn is_span_time(second: i64) -> bool
    ensures { IsTrue result ↔ IsSpanTime second }
{
    -GREATEST_SECOND <= second && second <= GREATEST_SECOND
}

/// Whether local starts don't fall, local ends don't fall, and no local time lies in a span and in the next but one, of a
/// set that can be looked up. It looks at each span once; a zone of the set remembers it.
pub fn is_orderly(set: &FixedTimespanSet) -> bool
    requires { IsAccepted (schedule_of set.now) }
    ensures { IsTrue result ↔ IsOrderlyZone (schedule_of set.now) }
{
    for i in 1..set.entry_count() {
        let start = start_of(set, i);
        let next_start = start_of(set, i + 1);
        let last_end = end_of(set, i - 1);
        let end = end_of(set, i);
        if !are_in_order(start, next_start, last_end, end) {
            return false;
        }
    }
    true
}

fn are_in_order(start: i64, next_start: i64, last_end: i64, end: i64) -> bool
    ensures { IsTrue result ↔ ((start ≤ℤ next_start) × (last_end ≤ℤ end) × (last_end ≤ℤ next_start)) }
{
    start <= next_start && last_end <= end && last_end <= next_start
}
