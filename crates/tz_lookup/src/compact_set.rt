//! A zone's spans, kept compactly, with an index by year.
ghost use Rattle.std.specs.Prelude.{◌≡◌, ◌≤◌, ◌<◌, length, IfOk, unsigned_abs, pos, negsuc, ◌+◌, ◌+ℤ◌, ◌*ℤ◌, ◌-ℤ◌, ◌≤ℤ◌, ◌<ℤ◌, ◌++◌, ◌∷◌, [], OnOk, slice_index_or, map, ◌-◌, ◌*◌, ◌^◌, ℕ, ℤ, ◌↔◌, IsTrue, MatchResult, List};
ghost use Rattle.zone_spans.specs.{Years.{earliest_year, years_limit}, Entries.{Entry}, Schedules.{instants, total_at}, declared.span.FixedTimespan.{FixedTimespan}};
ghost use Rattle.tz_lookup.specs.{Years.{counted_years, year_second, HaveBegun, IsWithinYear}, YearSeconds.{counted_end, rules_begin}, YearCounts.{AreBefore, AreYearCounts}, Kinds.{kind_in, with_kind, kinds_of}, Compact.{set_seen, HaveKinds, StandFor}, Sets.{schedule_of, shifts_of, IsAccepted, total_of_span, IsOrderlyZone}, Spans.{IsCut}};
ghost use Rattle.civil_base.specs.{Instants.{seconds_of}, Ranges.{IsOffset}};

use crate::lookups::{SpanTable, span_between};
use crate::search::Steps;
use crate::set::{FixedTimespanSet, TzFault};
use crate::tz::Tz;
use basics::{Items, Text, date_of, day_number};
use indexmap::IndexSet;
use std::alloc::{AllocError, Global};
use std::marker::Model;
use std::sync::ledger::Ledger;
use zone_spans::{EARLIEST_YEAR, FixedTimespan, YEARS_LIMIT};

/// How many years are counted: those from 1800 to 2800, all that a line may be expanded for and the one after them.
const YEARS: usize = YEARS_LIMIT as usize + 1;

/// 1800-01-01 00:00:00 UTC, in seconds from 1970-01-01 00:00:00 UTC: before it no rule fires.
pub const RULES_BEGIN: i64 = -5_364_662_400;

/// 2099-01-01 00:00:00 UTC, in seconds from 1970-01-01 00:00:00 UTC: the last year in which rules fire begins.
pub const LAST_YEAR_BEGIN: i64 = 4_070_908_800;

/// 2100-01-01 00:00:00 UTC, in seconds from 1970-01-01 00:00:00 UTC: from it on no rule fires.
pub const RULES_END: i64 = 4_102_444_800;

/// 2800-01-01 00:00:00 UTC: the last year that is counted begins.
const COUNTED_END: i64 = 26_192_246_400;

/// How many of the years from 1800 to 2800 have begun at a second: none before 1800, and all from 2800 on.
pub(crate) fn years_begun(second: i64) -> usize
    ensures { HaveBegun result second }
{
    if second < RULES_BEGIN {
        0
    } else if second >= COUNTED_END {
        YEARS
    } else {
        year_number(utc_year(second))
    }
}

/// The UTC year of a second of the years 1800 to 2799.
fn utc_year(second: i64) -> i32
    requires first { rules_begin ≤ℤ second }
    requires last { second <ℤ counted_end }
    ensures { IsWithinYear result second }
{
    date_of(day_of(second)).year
}

/// The day of a second of the years 1800 to 2799.
fn day_of(second: i64) -> i32
    requires first { rules_begin ≤ℤ second }
    requires last { second <ℤ counted_end }
    ensures begun { (pos 86400 *ℤ result) ≤ℤ second }
    ensures lasts { second <ℤ (pos 86400 *ℤ result +ℤ pos 86400) }
    ensures least { negsuc 62090 ≤ℤ result }
    ensures greatest { result ≤ℤ pos 303150 }
{
    second.div_euclid(86_400) as i32
}

/// The number of a year, where 1800 is number 1.
fn year_number(year: i32) -> usize
    requires first { pos earliest_year ≤ℤ year }
    requires last { year <ℤ pos (earliest_year + years_limit) }
    ensures value { pos result ≡ year -ℤ pos earliest_year +ℤ pos 1 }
    ensures bound { result ≤ years_limit }
{
    (year - i32::from(EARLIEST_YEAR) + 1) as usize
}

/// The second at which the year 1800 + `place` begins.
fn year_second(place: usize) -> i64
    requires { place ≤ years_limit }
    ensures value { result ≡ year_second place }
    ensures bound { unsigned_abs result < 200000000000000 }
{
    second_of(day_number(year_at(place), 1, 1))
}

/// The year 1800 + `place`.
fn year_at(place: usize) -> i32
    requires { place ≤ years_limit }
    ensures { result ≡ pos (earliest_year + place) }
{
    i32::from(EARLIEST_YEAR) + place as i32
}

/// The second at which a day begins.
fn second_of(day: i32) -> i64
    ensures value { result ≡ pos 86400 *ℤ day }
    ensures bound { unsigned_abs result < 200000000000000 }
{
    i64::from(day) * 86_400
}

/// How many entries lie before the beginning of the year 1800 + `place`, where the first `from` do.
fn entries_before(set: &FixedTimespanSet, place: usize, from: usize) -> usize
    requires accepted { IsAccepted (schedule_of set.now) }
    requires year { place ≤ years_limit }
    requires within { from ≤ length set.now.others }
    requires before { AreBefore (shifts_of set.now) from (year_second place) }
    ensures { IsCut (shifts_of set.now) result (year_second place -ℤ pos 1) }
{
    let start = year_second(place);
    for index in from..set.entry_count() {
        if set.time(index) >= start {
            return index;
        }
    }
    set.entry_count()
}

/// How many years have begun when the last entry comes: all entries lie before each later year.
fn years_reached(set: &FixedTimespanSet) -> usize
    requires { IsAccepted (schedule_of set.now) }
    ensures within { result ≤ counted_years }
    ensures later { (i : ℕ) → result ≤ i → i < counted_years
        → IsCut (shifts_of set.now) (length (shifts_of set.now)) (year_second i -ℤ pos 1) }
{
    let count = set.entry_count();
    if count == 0 {
        0
    } else {
        years_begun(set.time(count - 1))
    }
}

/// How many entries lie before the beginning of each year, up to the last in which one lies.
pub(crate) fn year_counts(alloc: Global, set: &FixedTimespanSet) -> Result<Numbers, AllocError>
    requires { IsAccepted (schedule_of set.now) }
    ensures { IfOk result (AreYearCounts (shifts_of set.now)) }
{
    let years = years_reached(set);
    let mut counts = Numbers::with_room(alloc, years)?;
    let mut before = 0;
    for place in 0..years {
        before = entries_before(set, place, before);
        counts.push(before)?;
    }
    Ok(counts)
}

/// A list of numbers of which most are small. The numbers up to the first one past 65,535 take two bytes each, and those
/// from it on eight. Contracts see the numbers in order.
#[derive(Debug, Drop)]
pub(crate) struct Numbers {
    small: Items<u16>,
    rest: Items<usize>,
}

impl Model for Numbers {
    ghost use Rattle.std.specs.Prelude.{ℕ, List, ◌++◌};

    ghost Value = { List ℕ };

    ghost view = { λ numbers. numbers.small ++ numbers.rest };
}

impl Numbers {
    /// A list of nothing, with room for so many small numbers.
    pub(crate) fn with_room(alloc: Global, count: usize) -> Result<Numbers, AllocError>
        ensures { IfOk result (λ numbers. numbers ≡ []) }
    {
        Ok(Numbers {
            small: Items::from_vec(Vec::with_capacity(alloc, count)?),
            rest: Items::new(alloc),
        })
    }

    /// Puts a number at the end.
    pub(crate) fn push(&mut self, number: usize) -> Result<(), AllocError>
        ensures { OnOk result (self.new ≡ self.old ++ number ∷ []) }
    {
        if number <= 65_535 && self.rest.is_empty() {
            self.small.push(number as u16)
        } else {
            self.rest.push(number)
        }
    }

    /// The number at a place, or another where there is none.
    fn get_or(&self, place: usize, other: usize) -> usize
        ensures { result ≡ slice_index_or self.now place other }
    {
        let count = self.small.len();
        if place < count {
            usize::from(self.small[place])
        } else if place - count < self.rest.len() {
            self.rest[place - count]
        } else {
            other
        }
    }

    /// The number at a place, which counts from 0.
    pub(crate) fn get(&self, place: usize) -> usize
        requires { place < length self.now }
        ensures { result ≡ slice_index_or self.now place 0 }
    {
        let count = self.small.len();
        if place < count {
            usize::from(self.small[place])
        } else {
            self.rest[place - count]
        }
    }
}

/// A pair of offsets with a name: what is in force in a span.
#[derive(Clone, Copy, PartialEq, Eq, Hash, Drop)]
pub(crate) struct Kind<'a> {
    utc_offset: i64,
    dst_offset: i64,
    name: &'a str,
}

impl<'a> Kind<'a> {
    ghost use Rattle.tz_lookup.specs.KindShown.{kind_shown};

    fn of(span: &'a FixedTimespan) -> Kind<'a>
        ensures { kind_shown result ≡ span.now }
    {
        Kind {
            utc_offset: span.utc_offset,
            dst_offset: span.dst_offset,
            name: span.name.as_str(),
        }
    }

    fn owned(&self, alloc: Global) -> Result<FixedTimespan, AllocError>
        ensures { IfOk result (λ span. span ≡ kind_shown self.now) }
    {
        Ok(FixedTimespan {
            utc_offset: self.utc_offset,
            dst_offset: self.dst_offset,
            name: Text::new(alloc, self.name)?,
        })
    }
}

/// The kinds that were met so far, in the order in which they came. Contracts see them in that order.
#[derive(Drop)]
pub(crate) struct Kinds<'a> {
    met: IndexSet<Kind<'a>>,
}

impl<'a> Model for Kinds<'a> {
    ghost use Rattle.std.specs.Prelude.{List, map};
    ghost use Rattle.zone_spans.specs.declared.span.FixedTimespan.{FixedTimespan};
    ghost use Rattle.tz_lookup.specs.KindShown.{kind_shown};

    ghost Value = { List FixedTimespan };

    ghost view = { λ kinds. map kind_shown kinds.met.keys };
}

impl<'a> Kinds<'a> {
    /// No kind was met yet.
    pub(crate) fn new(alloc: Global) -> Kinds<'a>
        ensures { result ≡ [] }
    {
        Kinds {
            met: IndexSet::new(alloc),
        }
    }

    /// The number of a span's kind, which joins the others where it wasn't met before. Numbers count from 0.
    pub(crate) fn number(&mut self, span: &'a FixedTimespan) -> Result<usize, AllocError>
        ensures kinds { OnOk result (self.new ≡ with_kind self.old span.now) }
        ensures within { IfOk result (λ number. number < length self.new) }
        ensures kind { IfOk result (λ number. kind_in self.new number ≡ span.now) }
    {
        let (number, _) = self.met.insert_full(Kind::of(span))?;
        Ok(number)
    }

    /// The kinds, copied.
    pub(crate) fn owned(&self, alloc: Global) -> Result<Items<FixedTimespan>, AllocError>
        ensures { IfOk result (λ kinds. kinds ≡ self.now) }
    {
        let mut kinds = Items::new(alloc);
        for kind in self.met.as_slice() {
            kinds.push(kind.owned(alloc)?)?;
        }
        Ok(kinds)
    }
}

/// Why a set has no compact form.
#[derive(Clone, Copy, Debug, PartialEq, Eq)]
pub enum CompactFault {
    /// The offset and the saving of some span add up to 26 hours or more.
    OffsetRange,
    /// The time of some entry lies before that of the entry before it.
    Falling,
    /// A time is more than 2^40 seconds in size.
    Bound,
    /// Memory ran out.
    NoMemory,
}

impl CompactFault {
    ghost use Rattle.std.specs.Prelude.{◌≡◌};
    ghost use Rattle.tz_lookup.specs.CompactFaults.{compact_fault};

    fn of(fault: TzFault) -> CompactFault
        ensures { result ≡ compact_fault fault }
    {
        match fault {
            TzFault::OffsetRange => CompactFault::OffsetRange,
            TzFault::Falling => CompactFault::Falling,
            TzFault::Bound => CompactFault::Bound,
        }
    }
}

/// The spans of a zone, kept compactly: the entries' times beside the numbers of their kinds, and each kind once. With the
/// number of entries before each year from 1800 on, up to the last with an entry, an instant is looked up among its year's entries.
/// Contracts see the set that it was built from.
#[derive(Debug, Drop)]
pub struct CompactSet {
    name: Text,
    kinds: Items<FixedTimespan>,
    first: usize,
    times: Items<i64>,
    numbers: Numbers,
    years: Numbers,
    orderly: bool,
    ghost have_kinds: { HaveKinds kinds first times numbers },
    ghost distinct: { kinds ≡ kinds_of (set_seen name kinds first times numbers) },
    ghost counted: { AreYearCounts (shifts_of (set_seen name kinds first times numbers)) years },
    ghost accepted: { IsAccepted (schedule_of (set_seen name kinds first times numbers)) },
    ghost marked: { IsTrue orderly ↔ IsOrderlyZone (schedule_of (set_seen name kinds first times numbers)) },
    ghost range: { (t : ℤ) → IsOffset (total_at (schedule_of (set_seen name kinds first times numbers)) t) },
    ghost two: { IsOrderlyZone (schedule_of (set_seen name kinds first times numbers)) → (time : ℤ)
        → length (instants (total_at (schedule_of (set_seen name kinds first times numbers))) time) ≤ 2 },
}

impl CompactSet {
    ghost use Rattle.std.specs.Prelude.{◌≡◌, ◌+◌, ◌-◌, ◌*◌, ◌^◌, ℤ, ◌≤◌, ◌↔◌, IsTrue, MatchResult, IfOk, length};
    ghost use Rattle.civil_base.specs.Instants.{seconds_of};
    ghost use Rattle.tz_lookup.specs.{Spans.{IsCut}, Sets.{schedule_of, shifts_of, total_of_span, IsAccepted, IsNear, IsOrderlyZone}, Zones.{set_of}, CompactShown.{seen}, CompactFaults.{IsCompactFault}, Kinds.{kinds_of}, YearCounts.{before_year}, Years.{changes_in_year}};

    /// A set, kept compactly.
    ///
    /// # Errors
    ///
    /// `OffsetRange`, `Falling` and `Bound` in this order, each exactly where it says; `NoMemory`.
    pub fn build(alloc: Global, set: &FixedTimespanSet) -> Result<CompactSet, CompactFault>
        ensures { MatchResult result
            (λ compact. IsAccepted (schedule_of set.now) × (seen compact ≡ set.now))
            (IsCompactFault (schedule_of set.now)) }
    {
        let zone = match Tz::new(set) {
            Ok(zone) => zone,
            Err(fault) => return Err(CompactFault::of(fault)),
        };
        match CompactSet::of(alloc, set, &zone) {
            Ok(compact) => Ok(compact),
            Err(_) => Err(CompactFault::NoMemory),
        }
    }

    /// The compact form of a set, whose zone tells that it can be looked up and whether it is orderly.
    fn of(alloc: Global, set: &FixedTimespanSet, zone: &Tz<'_>) -> Result<CompactSet, AllocError>
        requires { set_of zone.now ≡ set.now }
        ensures { IfOk result (λ compact. seen compact ≡ set.now) }
    {
        let name = Text::new(alloc, set.name.as_str())?;
        let years = year_counts(alloc, set)?;
        let Parts {
            kinds,
            first,
            times,
            numbers,
        } = Parts::of(alloc, set)?;
        let orderly = zone.is_orderly();
        Ok(CompactSet {
            name,
            kinds,
            first,
            times,
            numbers,
            years,
            orderly,
        })
    }

    /// How many spans there are: one more than the entries.
    pub fn span_count(&self) -> usize
        ensures { result ≡ length (seen self.now).others + 1 }
    {
        self.entry_count() + 1
    }

    /// How many distinct kinds the spans have. A kind is a pair of offsets with a name.
    pub fn kind_count(&self) -> usize
        ensures { result ≡ length (kinds_of (seen self.now)) }
    {
        self.kinds.len()
    }

    /// Whether the set is orderly.
    pub(crate) fn is_orderly(&self) -> bool
        ensures { IsTrue result ↔ IsOrderlyZone (schedule_of (seen self.now)) }
    {
        self.orderly
    }

    /// The name of the zone.
    pub(crate) fn name(&self) -> &str
        ensures { result.now ≡ (seen self.now).name }
    {
        self.name.as_str()
    }

    /// The span in force at a second, by a search among the entries of its year, with a step for each comparison.
    pub fn span_in_year<L: Ledger>(&self, second: i64, steps: &mut Steps<L>) -> usize
        ensures cut { IsCut (shifts_of (seen self.now)) result second }
        ensures total { (t : ℤ) → seconds_of t ≡ second →
            total_of_span (seen self.now) result ≡ total_at (schedule_of (seen self.now)) t }
        ensures cost { 2 ^ (steps.new - steps.old) ≤ 2 * changes_in_year (seen self.now) second + 1 }
        ensures later { steps.old ≤ steps.new }
    {
        let year = years_begun(second);
        let low = self.before_year(year);
        let high = self.before_year(year + 1);
        span_between(self, second, low, high, steps)
    }

    /// The places of the entries of a local second's year, of the one before and of the one after: all others lie further from it than
    /// any offset.
    pub(crate) fn near(&self, second: i64) -> (usize, usize)
        ensures near { IsNear (shifts_of (seen self.now)) result.0 result.1 second }
        ensures bound { result.1 < 18446744073709551615 }
    {
        let year = years_begun(second);
        let low = self.before_year(year.saturating_sub(1));
        let high = self.before_year(year + 2);
        (low, high)
    }

    /// How many entries lie before a year, where 1800 is number 1 and all years before it are number 0.
    fn before_year(&self, year: usize) -> usize
        ensures value { result ≡ before_year self.now.years (length (seen self.now).others) year }
        ensures bound { result < 18446744073709551615 }
    {
        let count = self.entry_count();
        if year == 0 {
            0
        } else {
            self.years.get_or(year - 1, count)
        }
    }
}

impl SpanTable for CompactSet {
    ghost use Rattle.tz_lookup.specs.CompactShown.{seen as set_shown};

    ghost seen = { set_shown };

    fn entry_count(&self) -> usize {
        self.times.as_slice().len()
    }

    fn time(&self, index: usize) -> i64 {
        time_at(self.times.as_slice(), index)
    }

    fn span(&self, index: usize) -> &FixedTimespan {
        if index == 0 {
            &self.kinds[self.first]
        } else {
            &self.kinds[self.numbers.get(index - 1)]
        }
    }
}

/// The spans of a set in parts: their kinds, each once, the number of the first span's kind, and for each entry its time and
/// the number of its span's kind.
#[derive(Drop)]
struct Parts {
    kinds: Items<FixedTimespan>,
    first: usize,
    times: Items<i64>,
    numbers: Numbers,
}

impl Parts {
    /// The parts of a set.
    fn of(alloc: Global, set: &FixedTimespanSet) -> Result<Parts, AllocError>
        ensures { IfOk result (λ parts. StandFor set.now.first set.now.others parts.kinds parts.first parts.times parts.numbers) }
    {
        let mut times = room(alloc, set.entry_count())?;
        let mut numbers = Numbers::with_room(alloc, set.entry_count())?;
        let (kinds, first) = kinds_of_spans(alloc, set, &mut times, &mut numbers)?;
        Ok(Parts {
            kinds,
            first,
            times,
            numbers,
        })
    }
}

/// The kinds of a set's spans, each once, and the number of the first span's kind. The entries' times and the numbers of their
/// kinds go into two empty lists.
fn kinds_of_spans(
    alloc: Global,
    set: &FixedTimespanSet,
    times: &mut Items<i64>,
    numbers: &mut Numbers,
) -> Result<(Items<FixedTimespan>, usize), AllocError>
    requires times { times.old ≡ [] }
    requires numbers { numbers.old ≡ [] }
    ensures { IfOk result (λ found. StandFor set.now.first set.now.others found.0 found.1 times.new numbers.new) }
{
    let mut kinds = Kinds::new(alloc);
    number_spans(alloc, set, &mut kinds, times, numbers)
}

/// The same, where the kinds that are met are the caller's; none was met yet.
fn number_spans<'a>(
    alloc: Global,
    set: &'a FixedTimespanSet,
    kinds: &mut Kinds<'a>,
    times: &mut Items<i64>,
    numbers: &mut Numbers,
) -> Result<(Items<FixedTimespan>, usize), AllocError>
    requires kinds { kinds.old ≡ [] }
    requires times { times.old ≡ [] }
    requires numbers { numbers.old ≡ [] }
    ensures { IfOk result (λ found. StandFor set.now.first set.now.others found.0 found.1 times.new numbers.new) }
{
    let first = kinds.number(&set.first)?;
    for entry in set.others.as_slice() {
        add_entry(entry, kinds, times, numbers)?;
    }
    let owned = kinds.owned(alloc)?;
    Ok((owned, first))
}

/// Adds an entry's time and the number of its kind: what the lists stand for has one entry more.
fn add_entry<'a>(
    entry: &'a (i64, FixedTimespan),
    kinds: &mut Kinds<'a>,
    times: &mut Items<i64>,
    numbers: &mut Numbers,
) -> Result<(), AllocError>
    ensures { (start : FixedTimespan) (entries : List Entry) (first : ℕ) → StandFor start entries kinds.old first times.old numbers.old
        → OnOk result (StandFor start (entries ++ entry.now ∷ []) kinds.new first times.new numbers.new) }
{
    numbers.push(kinds.number(span_of(entry))?)?;
    times.push(time_of(entry))?;
    Ok(())
}

/// An empty list, with room for so many times.
fn room(alloc: Global, count: usize) -> Result<Items<i64>, AllocError>
    ensures { IfOk result (λ times. times ≡ []) }
{
    Ok(Items::from_vec(Vec::with_capacity(alloc, count)?))
}

fn time_of(entry: &(i64, FixedTimespan)) -> i64
    ensures { result ≡ entry.now.0 }
{
    entry.0
}

fn span_of(entry: &(i64, FixedTimespan)) -> &FixedTimespan
    ensures { result.now ≡ entry.now.1 }
{
    &entry.1
}

fn time_at(times: &[i64], index: usize) -> i64
    requires { index < length times.now }
    ensures { result ≡ slice_index_or times.now index (pos 0) }
{
    times[index]
}
