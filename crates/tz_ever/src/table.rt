//! The changes of a zone, as a table of spans.
ghost use Rattle.std.specs.Prelude.{◌≡◌, ◌<◌, ◌≤◌, ◌*◌, length, pos, neg_ℤ, ℤ, ◌+ℤ◌, ◌≤ℤ◌, true};
ghost use Rattle.tz_lookup.specs.{Sets.{IsAccepted, IsSpanTime, schedule_of}, declared.set.FixedTimespanSet.{FixedTimespanSet}};
ghost use Rattle.tz_ever.specs.{Places.{IsPlace}, Recurrences.{comes_again}, Unrolled.{entries_before, next_seam_second, repeated_entries, seam_second, told, unrolled_entries}, ZoneShown.{recurrence_of, zone_set_of}};

use crate::laws;
use crate::recurrence::Recurrence;
use crate::zone_set::ZoneSet;
use std::marker::Brand;
use std::sync::ledger::{Blank, Ledger};
use tz_lookup::{FixedTimespan, SpanTable, Steps, span_between};

/// 2102-01-01 00:00:00 UTC, in seconds from 1970-01-01 00:00:00 UTC.
pub(crate) const SEAM: i64 = 4_165_516_800;

/// 2502-01-01 00:00:00 UTC.
pub(crate) const NEXT_SEAM: i64 = 16_788_297_600;

/// The seconds of 400 years.
pub(crate) const CYCLE: i64 = 12_622_780_800;

/// The seconds of 31 cycles.
pub(crate) const EARLIER: i64 = 391_306_204_800;

/// All entries that are told of a [`ZoneSet`]: where its changes come again later, those before 2502-01-01 00:00:00 UTC, and then those of
/// the years 2102 to 2501 again for each of 20 later cycles of 400 years; where they come again always, those of the cycle alone, for each
/// of 31 earlier cycles, for its own and for 20 later ones. It borrows the set, and keeps two numbers besides. Contracts see all these
/// entries as one set (`told`).
#[derive(Clone, Copy, Debug, Drop)]
pub struct ZoneTable<'a> {
    set: &'a ZoneSet,
    start: usize,
    end: usize,
    ghost starts: { comes_again (recurrence_of set.now) ≡ true → start ≡ length (entries_before seam_second (zone_set_of set.now).others) },
    ghost ends: { comes_again (recurrence_of set.now) ≡ true → end ≡ length (entries_before next_seam_second (zone_set_of set.now).others) },
}

/// Where an entry of the table lies in the set: its number there, and how many seconds earlier.
#[derive(Clone, Copy, Debug, Drop)]
struct Place {
    entry: usize,
    seconds: i64,
}

impl<'a> ZoneTable<'a> {
    ghost use Rattle.std.specs.Prelude.{◌≡◌, ◌<◌, ◌≤◌, ◌≤ℤ◌, length, neg_ℤ, pos};
    ghost use Rattle.tz_lookup.specs.Sets.{IsAccepted, schedule_of, span_in};
    ghost use Rattle.tz_ever.specs.{Places.{IsPlace}, TablesShown.{table_of}, Unrolled.{repeated_entries, told, unrolled_entries}, ZoneShown.{recurrence_of, zone_set_of}};
    ghost use Rattle.tz_ever.specs.declared.recurrence.Recurrence.TheVariants.{Always, Later};

    /// The table of a set. It takes no memory, and two searches among its entries where they come again.
    pub fn new(set: &'a ZoneSet) -> ZoneTable<'a>
        ensures seen { table_of result ≡ told (recurrence_of set.now) (zone_set_of set.now) }
        ensures accepted { IsAccepted (schedule_of (told (recurrence_of set.now) (zone_set_of set.now))) }
    {
        laws::told_is_accepted();
        let start = count_in(set, SEAM);
        let end = count_in(set, NEXT_SEAM);
        ZoneTable { set, start, end }
    }

    /// The number of the span in the set that is in force before the first entry.
    fn first_span(&self) -> usize
        ensures within { result ≤ length (zone_set_of self.now.set.now).others }
        ensures span { span_in (zone_set_of self.now.set.now) result ≡ (table_of self.now).first }
    {
        match self.set.recurrence() {
            Recurrence::Never => 0,
            Recurrence::Later => 0,
            Recurrence::Always => self.start,
        }
    }

    /// Where the entry of that number lies.
    fn place(&self, index: usize) -> Place
        requires { index < length (table_of self.now).others }
        ensures place { IsPlace (table_of self.now).others (zone_set_of self.now.set.now).others index result.entry result.seconds }
        ensures least { neg_ℤ (pos 391306204800) ≤ℤ result.seconds }
        ensures greatest { result.seconds ≤ℤ pos 252455616000 }
    {
        match self.set.recurrence() {
            Recurrence::Never => Place {
                entry: index,
                seconds: 0,
            },
            Recurrence::Later => self.later_place(index),
            Recurrence::Always => self.repeated_place(index),
        }
    }

    /// The same where the changes come again later.
    fn later_place(&self, index: usize) -> Place
        requires later { recurrence_of self.now.set.now ≡ Later }
        requires within { index < length (unrolled_entries (zone_set_of self.now.set.now).others) }
        ensures place { IsPlace (unrolled_entries (zone_set_of self.now.set.now).others) (zone_set_of self.now.set.now).others index result.entry result.seconds }
        ensures least { pos 0 ≤ℤ result.seconds }
        ensures greatest { result.seconds ≤ℤ pos 252455616000 }
    {
        if index < self.end {
            Place {
                entry: index,
                seconds: 0,
            }
        } else {
            let past = index - self.end;
            let count = self.end - self.start;
            Place {
                entry: self.start + past % count,
                seconds: cycles(past / count + 1),
            }
        }
    }

    /// The same where they come again always.
    fn repeated_place(&self, index: usize) -> Place
        requires always { recurrence_of self.now.set.now ≡ Always }
        requires within { index < length (repeated_entries (zone_set_of self.now.set.now).others) }
        ensures place { IsPlace (repeated_entries (zone_set_of self.now.set.now).others) (zone_set_of self.now.set.now).others index result.entry result.seconds }
        ensures least { neg_ℤ (pos 391306204800) ≤ℤ result.seconds }
        ensures greatest { result.seconds ≤ℤ pos 252455616000 }
    {
        let count = self.end - self.start;
        Place {
            entry: self.start + index % count,
            seconds: cycles(index / count) - EARLIER,
        }
    }
}

impl<'a> SpanTable for ZoneTable<'a> {
    ghost use Rattle.tz_ever.specs.TablesShown.{table_of};

    ghost seen = { table_of };

    fn entry_count(&self) -> usize {
        match self.set.recurrence() {
            Recurrence::Never => self.set.compact().entry_count(),
            Recurrence::Later => self.end + 20 * (self.end - self.start),
            Recurrence::Always => 52 * (self.end - self.start),
        }
    }

    fn time(&self, index: usize) -> i64 {
        let set = self.set.compact();
        let place = self.place(index);
        moved(set.time(place.entry), place.seconds)
    }

    fn span(&self, index: usize) -> &FixedTimespan {
        let set = self.set.compact();
        if index == 0 {
            set.span(self.first_span())
        } else {
            let place = self.place(index - 1);
            set.span(place.entry + 1)
        }
    }
}

/// How many entries of a set whose changes come again lie before a second.
fn count_in(set: &ZoneSet, second: i64) -> usize
    requires { IsSpanTime second }
    ensures { comes_again (recurrence_of set.now) ≡ true → result ≡ length (entries_before second (zone_set_of set.now).others) }
{
    match set.recurrence() {
        Recurrence::Never => 0,
        Recurrence::Later => count_before(set.compact(), second),
        Recurrence::Always => count_before(set.compact(), second),
    }
}

/// How many entries of a set that can be looked up lie before a second, by a search.
fn count_before<S: SpanTable>(set: &S, second: i64) -> usize
    requires accepted { IsAccepted (schedule_of (S.seen set.now)) }
    requires second { IsSpanTime second }
    ensures { result ≡ length (entries_before second (S.seen set.now).others) }
{
    count_under::<S, Brand>(set, second, Blank::new(1))
}

/// The same, with steps of the search that are counted and thrown away.
fn count_under<S: SpanTable, L: Ledger>(set: &S, second: i64, blank: Blank) -> usize
    requires name { blank.name ≡ L.name }
    requires parts { blank.parts ≡ L.parts }
    requires some { 0 < L.parts }
    requires accepted { IsAccepted (schedule_of (S.seen set.now)) }
    requires second { IsSpanTime second }
    ensures { result ≡ length (entries_before second (S.seen set.now).others) }
{
    let mut steps: Steps<L> = Steps::new(blank);
    span_between(set, second - 1, 0, set.entry_count(), &mut steps)
}

/// The seconds of so many cycles.
fn cycles(count: usize) -> i64
    requires { count ≤ 51 }
    ensures { result ≡ pos (count * 12622780800) }
{
    count as i64 * CYCLE
}

/// A second so many seconds later.
fn moved(second: i64, seconds: i64) -> i64
    requires second { IsSpanTime second }
    requires least { neg_ℤ (pos 391306204800) ≤ℤ seconds }
    requires greatest { seconds ≤ℤ pos 252455616000 }
    ensures { result ≡ second +ℤ seconds }
{
    second + seconds
}
