//! Dates with a time of day and an offset from UTC, and conversions between them and instants.
ghost use Rattle.std.{specs.Prelude.{◌≡◌, ◌*◌, ◌≤◌, pos, unsigned_abs, is_ok, IfOk, is_some, IfSome}, proofs.Common.{rules}, specs.Cmp.{partial_order_from_own_ties}, specs.Cmp.Rules.{comparing, hashing}, specs.Ordering.{on, int_eq, int_cmp, as_partial_cmp}};
ghost use Rattle.std.specs.Hash as fed;
ghost use Rattle.basics.specs.Dates.{year_of};
ghost use Rattle.civil_base.specs.{Instants.{local_at, nanos_of, seconds_of}, Layout.{day_part, time_part}, Ranges.{IsYear, is_in_years, IsInYears, IsOffset, far_seconds}, DateTimes.{local_of, offset_of, instant, at_offset}};

use crate::{ComponentRange, Date, PlainDateTime, Time, UtcOffset};
use civil_parts::units::NANOS_PER_SECOND;
use std::cmp::Ordering;
use std::hash::{Hash, Hasher};

/// A date and a time of day with the offset at which a clock shows them. Equality, order and hash are those of the
/// instant.
#[derive(Clone, Copy, Debug)]
pub struct OffsetDateTime {
    local: PlainDateTime,
    offset: UtcOffset,
}

impl OffsetDateTime {
    /// 1970-01-01 00:00:00 UTC.
    pub const UNIX_EPOCH: OffsetDateTime = OffsetDateTime {
        local: PlainDateTime::UNIX_EPOCH,
        offset: UtcOffset::UTC,
    };

    /// That date and time at that offset.
    pub(crate) fn in_offset(local: PlainDateTime, offset: UtcOffset) -> OffsetDateTime
        ensures value { result ≡ at_offset local offset }
        ensures local { local_of result ≡ local }
        ensures offset { offset_of result ≡ offset }
    {
        OffsetDateTime { local, offset }
    }

    /// The date and time at that offset of the instant that many nanoseconds after 1970-01-01 00:00:00 UTC, if its date
    /// lies in the years -9999 to 9999.
    pub(crate) fn at_instant(nanos: i128, offset: UtcOffset) -> Option<OffsetDateTime>
        requires { unsigned_abs nanos ≤ far_seconds * 1000000000 }
        ensures has { is_some result ≡ is_in_years (local_at nanos offset) }
        ensures instant { IfSome result (λ value. instant value ≡ nanos) }
        ensures offset { IfSome result (λ value. offset_of value ≡ offset) }
    {
        let local = PlainDateTime::at_instant(nanos, offset)?;
        Some(local.assume_offset(offset))
    }

    /// The instant that many seconds after 1970-01-01 00:00:00 UTC, at UTC.
    ///
    /// # Errors
    ///
    /// `ComponentRange` exactly where its UTC date lies outside the years -9999 to 9999.
    pub fn from_unix_timestamp(timestamp: i64) -> Result<OffsetDateTime, ComponentRange>
        ensures accepts { is_ok result ≡ is_in_years (nanos_of timestamp) }
        ensures instant { IfOk result (λ value. instant value ≡ nanos_of timestamp) }
        ensures offset { IfOk result (λ value. offset_of value ≡ pos 0) }
    {
        OffsetDateTime::from_unix_timestamp_nanos(nanos_of(timestamp))
    }

    /// The instant that many nanoseconds after 1970-01-01 00:00:00 UTC, at UTC.
    ///
    /// # Errors
    ///
    /// `ComponentRange` exactly where its UTC date lies outside the years -9999 to 9999.
    pub fn from_unix_timestamp_nanos(timestamp: i128) -> Result<OffsetDateTime, ComponentRange>
        ensures accepts { is_ok result ≡ is_in_years timestamp }
        ensures instant { IfOk result (λ value. instant value ≡ timestamp) }
        ensures offset { IfOk result (λ value. offset_of value ≡ pos 0) }
    {
        let local = PlainDateTime::at_nanos(timestamp).ok_or(ComponentRange)?;
        Ok(local.assume_utc())
    }

    /// The nanoseconds from 1970-01-01 00:00:00 UTC.
    pub fn unix_timestamp_nanos(self) -> i128
        ensures value { result ≡ instant self }
        ensures bound { unsigned_abs result ≤ far_seconds * 1000000000 }
        ensures years { IsInYears (local_at result (offset_of self)) }
        ensures offset { IsOffset (offset_of self) }
    {
        self.local.instant_with(self.offset)
    }

    /// The whole seconds from 1970-01-01 00:00:00 UTC, rounded down.
    pub fn unix_timestamp(self) -> i64
        ensures value { result ≡ seconds_of (instant self) }
        ensures bound { unsigned_abs result ≤ far_seconds }
    {
        seconds_of(self.unix_timestamp_nanos())
    }

    /// The date and time at the value's own offset.
    pub(crate) fn local(self) -> PlainDateTime
        ensures { result ≡ local_of self }
    {
        self.local
    }

    /// The date at the value's own offset.
    pub fn date(self) -> Date
        ensures { result ≡ day_part (local_of self) }
    {
        self.local.date()
    }

    /// The time of day at the value's own offset.
    pub fn time(self) -> Time
        ensures { result ≡ time_part (local_of self) }
    {
        self.local.time()
    }

    /// The year at the value's own offset, from -9999 to 9999.
    pub fn year(self) -> i32
        ensures value { result ≡ year_of (day_part (local_of self)) }
        ensures bound { IsYear result }
    {
        self.local.year()
    }

    /// The offset.
    pub fn offset(self) -> UtcOffset
        ensures { result ≡ offset_of self }
    {
        self.offset
    }

    /// The same instant at another offset. There is none exactly where the date at that offset lies outside the years
    /// -9999 to 9999.
    pub fn to_offset(self, offset: UtcOffset) -> Option<OffsetDateTime>
        ensures has { is_some result ≡ is_in_years (local_at (instant self) offset) }
        ensures instant { IfSome result (λ value. instant value ≡ instant self) }
        ensures offset { IfSome result (λ value. offset_of value ≡ offset) }
    {
        OffsetDateTime::at_instant(self.unix_timestamp_nanos(), offset)
    }
}

impl PartialEq for OffsetDateTime {
    ghost eq = { on instant int_eq };

    ghost laws = { Prim.search (rules, comparing) };

    fn eq(&self, other: &OffsetDateTime) -> bool {
        self.unix_timestamp_nanos() == other.unix_timestamp_nanos()
    }
}

impl Eq for OffsetDateTime {
    ghost laws = { Prim.search (rules, comparing) };
}

impl Ord for OffsetDateTime {
    ghost cmp = { on instant int_cmp };

    ghost total = { Prim.search (rules, comparing) };

    ghost matches_partial_cmp = { Prim.search (rules, comparing) };

    ghost matches_eq = { Prim.search (rules, comparing) };

    fn cmp(&self, other: &OffsetDateTime) -> Ordering {
        self.unix_timestamp_nanos()
            .cmp(&other.unix_timestamp_nanos())
    }
}

impl PartialOrd for OffsetDateTime {
    ghost partial_cmp = { as_partial_cmp (on instant int_cmp) };

    ghost laws = { partial_order_from_own_ties (Prim.search (rules, comparing))
        (Prim.search (rules, comparing)) };

    fn partial_cmp(&self, other: &OffsetDateTime) -> Option<Ordering> {
        Some(self.cmp(other))
    }
}

impl Hash for OffsetDateTime {
    ghost hash_input = { λ value. fed.i128 (instant value) };

    ghost respects_eq = { Prim.search (rules, hashing) };

    fn hash<H: Hasher>(&self, state: &mut H) {
        self.unix_timestamp_nanos().hash(state);
    }
}

/// A tick is 512 nanoseconds: dividing by it is a shift, and its count of an instant's fits 64 bits, whose division is
/// three times as fast as that of 128.
const NANOS_PER_TICK: i128 = 512;

const TICKS_PER_SECOND: i64 = 1_953_125;

/// The nanoseconds of whole seconds.
pub(crate) fn nanos_of(seconds: i64) -> i128
    ensures { result ≡ nanos_of seconds }
{
    i128::from(seconds) * NANOS_PER_SECOND
}

/// The whole seconds of the nanoseconds of an instant, rounded down.
pub(crate) fn seconds_of(nanos: i128) -> i64
    requires { unsigned_abs nanos ≤ far_seconds * 1000000000 }
    ensures value { result ≡ seconds_of nanos }
    ensures bound { unsigned_abs result ≤ far_seconds }
{
    let ticks = nanos.div_euclid(NANOS_PER_TICK) as i64;
    ticks.div_euclid(TICKS_PER_SECOND)
}
