//! Dates with a time of day, with no offset.
#![tactic(auto, using(crate::specs::RangeLaws::ranges))]

ghost use Rattle.std.specs.Prelude.{◌≡◌, ◌↔◌, ◌+◌, ◌*◌, ◌<◌, pos, neg_ℤ, ◌+ℤ◌, ◌*ℤ◌, ◌≤◌, is_some, IfSome, unsigned_abs};
ghost use Rattle.basics.specs.Dates.{year_of};
ghost use Rattle.civil_base.specs.{Clock.{nanos_per_day}, Instants.{local_at, instant_at}, Layout.{day_part, time_part}, Ranges.{IsYear, is_in_years, IsInYears, IsOffset, far_seconds}};

use crate::{Date, OffsetDateTime, Time, UtcOffset};
use std::marker::Model;

const NANOS_PER_DAY: i128 = 86_400_000_000_000;

const NANOS_PER_BLOCK: u64 = 65_536;

const BLOCKS_PER_DAY: u64 = 1_318_359_375;

// The days from -9999-01-01 to 1970-01-01.
const DAYS_BEFORE_EPOCH: i32 = 4_371_587;

// -9999-01-01 00:00:00, and the last nanosecond of 9999-12-31.
const FIRST: i128 = -4_371_587 * NANOS_PER_DAY;

const LAST: i128 = 2_932_897 * NANOS_PER_DAY - 1;

/// A date and a time of day. Contracts see the nanoseconds from 1970-01-01 00:00:00.
#[derive(Clone, Copy, Debug, PartialEq, Eq, PartialOrd, Ord, Hash)]
pub struct PlainDateTime {
    nanos: i128,
}

impl Model for PlainDateTime {
    ghost use Rattle.std.specs.Prelude.{ℤ};
    ghost use Rattle.civil_base.specs.Ranges.{IsInYears};

    ghost Value = { ℤ };

    ghost view = { λ local. local.nanos };

    ghost invariant = { λ local. IsInYears local.nanos };

    ghost inverse = { λ nanos. record { nanos = nanos } };
}

impl PlainDateTime {
    ghost use Rattle.civil_base.specs.DateTimes.{local_of, offset_of, at_offset};

    /// 1970-01-01 00:00:00.
    pub(crate) const UNIX_EPOCH: PlainDateTime = PlainDateTime { nanos: 0 };

    /// That date and time.
    pub fn new(date: Date, time: Time) -> PlainDateTime
        ensures { result ≡ date *ℤ pos nanos_per_day +ℤ pos time }
    {
        PlainDateTime {
            nanos: i128::from(date.day_number()) * NANOS_PER_DAY + i128::from(time.nanos_of_day()),
        }
    }

    /// The date and time that many nanoseconds after 1970-01-01 00:00:00, if it lies in the years -9999 to 9999.
    pub(crate) fn at_nanos(nanos: i128) -> Option<PlainDateTime>
        ensures has { is_some result ≡ is_in_years nanos }
        ensures value { IfSome result (λ local. local ≡ nanos) }
    {
        if is_in_years(nanos) {
            Some(PlainDateTime { nanos })
        } else {
            None
        }
    }

    /// The date and time at an instant, in nanoseconds from 1970-01-01 00:00:00 UTC, at that offset, if it lies in the
    /// years -9999 to 9999.
    pub(crate) fn at_instant(nanos: i128, offset: UtcOffset) -> Option<PlainDateTime>
        requires { unsigned_abs nanos ≤ far_seconds * 1000000000 }
        ensures has { is_some result ≡ is_in_years (local_at nanos offset) }
        ensures value { IfSome result (λ local. local ≡ local_at nanos offset) }
    {
        PlainDateTime::at_nanos(nanos + offset.nanos())
    }

    /// The instant of the date and time at that offset, in nanoseconds from 1970-01-01 00:00:00 UTC.
    pub(crate) fn instant_with(self, offset: UtcOffset) -> i128
        ensures value { result ≡ instant_at self offset }
        ensures bound { unsigned_abs result ≤ far_seconds * 1000000000 }
        ensures years { IsInYears self }
        ensures offset { IsOffset offset }
    {
        self.nanos() - offset.nanos()
    }

    /// The nanoseconds from 1970-01-01 00:00:00.
    pub(crate) fn nanos(self) -> i128
        ensures value { result ≡ self }
        ensures bound { IsInYears result }
    {
        self.nanos
    }

    // The nanoseconds from the first date, in blocks and the rest. A day has a whole number of blocks, and their number
    // fits 64 bits, which divide faster than 128.
    fn blocks(self) -> (u64, u64)
        ensures sum { pos (result.0 * 65536 + result.1) ≡ self +ℤ pos 377_705_116_800_000_000_000 }
        ensures rest { result.1 < 65536 }
        ensures years { IsInYears self }
    {
        let nanos = (self.nanos - FIRST) as u128;
        ((nanos / 65_536) as u64, (nanos % 65_536) as u64)
    }

    /// The date.
    pub fn date(self) -> Date
        ensures value { result ≡ day_part self }
        ensures years { IsInYears self }
    {
        let (blocks, _) = self.blocks();
        Date::at_day((blocks / BLOCKS_PER_DAY) as i32 - DAYS_BEFORE_EPOCH)
    }

    /// The time of day.
    pub fn time(self) -> Time
        ensures { result ≡ time_part self }
    {
        let (blocks, rest) = self.blocks();
        Time::at_nanos(blocks % BLOCKS_PER_DAY * NANOS_PER_BLOCK + rest)
    }

    /// The year of the date, from -9999 to 9999.
    pub fn year(self) -> i32
        ensures value { result ≡ year_of (day_part self) }
        ensures bound { IsYear result }
    {
        self.date().year()
    }

    /// The same date and time at that offset.
    pub fn assume_offset(self, offset: UtcOffset) -> OffsetDateTime
        ensures value { result ≡ at_offset self offset }
        ensures local { local_of result ≡ self }
        ensures offset { offset_of result ≡ offset }
    {
        OffsetDateTime::in_offset(self, offset)
    }

    /// The same date and time at UTC.
    pub fn assume_utc(self) -> OffsetDateTime
        ensures local { local_of result ≡ self }
        ensures offset { offset_of result ≡ pos 0 }
    {
        OffsetDateTime::in_offset(self, UtcOffset::UTC)
    }
}

fn is_in_years(nanos: i128) -> bool
    ensures { result ≡ is_in_years nanos }
{
    FIRST <= nanos && nanos <= LAST
}

/// The name that `time` had for it.
pub type PrimitiveDateTime = PlainDateTime;
