//! System times.
ghost use Rattle.std.specs.Prelude.{◌≡◌, ◌≤◌, ◌*◌, is_some, IfSome, is_ok, IfOk, pos, ◌-ℤ◌, unsigned_abs};
ghost use Rattle.civil_base.specs.{DateTimes.{instant, offset_of}, Ranges.{is_in_years, far_seconds}};
ghost use Rattle.civil_items.specs.SysTimes.{is_sys_time, IsSysTime};

use civil_base::{ComponentRange, OffsetDateTime, Timestamp, UtcDateTime};
use civil_parts::units::NANOS_PER_SECOND;
use std::marker::Model;

// The first nanosecond whose second is an `i64`, and the last one.
const FIRST: i128 = -9_223_372_036_854_775_808 * NANOS_PER_SECOND;

const LAST: i128 = 9_223_372_036_854_775_807 * NANOS_PER_SECOND + 999_999_999;

/// A time of the system's clock: the `SystemTime` of Rust's standard library, whose seconds from 1970-01-01 00:00:00
/// UTC, rounded down, are an `i64`. Contracts see the nanoseconds from then.
#[derive(Clone, Copy, Debug, PartialEq, Eq, PartialOrd, Ord, Hash)]
pub struct SysTime {
    nanos: i128,
}

impl Model for SysTime {
    ghost use Rattle.std.specs.Prelude.{ℤ};
    ghost use Rattle.civil_items.specs.SysTimes.{IsSysTime};

    ghost Value = { ℤ };

    ghost view = { λ time. time.nanos };

    ghost invariant = { λ time. IsSysTime time.nanos };

    ghost inverse = { λ nanos. record { nanos = nanos } };
}

impl SysTime {
    /// 1970-01-01 00:00:00 UTC.
    pub const UNIX_EPOCH: SysTime = SysTime { nanos: 0 };

    /// The time that many nanoseconds after 1970-01-01 00:00:00 UTC. There is none exactly where the seconds, rounded
    /// down, are no `i64`.
    pub fn from_nanoseconds(nanoseconds: i128) -> Option<SysTime>
        ensures has { is_some result ≡ is_sys_time nanoseconds }
        ensures value { IfSome result (λ time. time ≡ nanoseconds) }
    {
        if FIRST <= nanoseconds && nanoseconds <= LAST {
            Some(SysTime { nanos: nanoseconds })
        } else {
            None
        }
    }

    /// The nanoseconds from 1970-01-01 00:00:00 UTC.
    pub fn as_nanoseconds(self) -> i128
        ensures value { result ≡ self }
        ensures bound { IsSysTime result }
    {
        self.nanos
    }

    /// How many nanoseconds this time is later than the other.
    pub(crate) fn nanos_since(self, earlier: SysTime) -> i128
        ensures { result ≡ self -ℤ earlier }
    {
        self.nanos - earlier.nanos
    }
}

/// The same instant. It is refused exactly where its UTC date lies outside the years -9999 to 9999.
impl TryFrom<SysTime> for Timestamp {
    type Error = ComponentRange;

    ghost try_from_gives = { λ time result.
        (is_ok result ≡ is_in_years time) × IfOk result (λ value. value ≡ time) };

    fn try_from(time: SysTime) -> Result<Timestamp, ComponentRange> {
        Timestamp::from_nanoseconds(time.nanos)
    }
}

/// The same instant. It is refused exactly where its date lies outside the years -9999 to 9999.
impl TryFrom<SysTime> for UtcDateTime {
    type Error = ComponentRange;

    ghost try_from_gives = { λ time result.
        (is_ok result ≡ is_in_years time) × IfOk result (λ value. value ≡ time) };

    fn try_from(time: SysTime) -> Result<UtcDateTime, ComponentRange> {
        UtcDateTime::from_unix_timestamp_nanos(time.nanos)
    }
}

/// The same instant, at UTC. It is refused exactly where its UTC date lies outside the years -9999 to 9999.
impl TryFrom<SysTime> for OffsetDateTime {
    type Error = ComponentRange;

    ghost try_from_gives = { λ time result.
        (is_ok result ≡ is_in_years time)
        × IfOk result (λ value. (instant value ≡ time) × (offset_of value ≡ pos 0)) };

    fn try_from(time: SysTime) -> Result<OffsetDateTime, ComponentRange> {
        OffsetDateTime::from_unix_timestamp_nanos(time.nanos)
    }
}

/// The same instant.
impl From<Timestamp> for SysTime {
    ghost from_gives = { λ value time. time ≡ value };

    fn from(value: Timestamp) -> SysTime {
        of_date_time(value.as_nanoseconds())
    }
}

/// The same instant.
impl From<UtcDateTime> for SysTime {
    ghost from_gives = { λ value time. time ≡ value };

    fn from(value: UtcDateTime) -> SysTime {
        of_date_time(value.unix_timestamp_nanos())
    }
}

/// The same instant.
impl From<OffsetDateTime> for SysTime {
    ghost from_gives = { λ value time. time ≡ instant value };

    fn from(value: OffsetDateTime) -> SysTime {
        of_date_time(value.unix_timestamp_nanos())
    }
}

// An instant of a date-time, which is far within what the clock of a system tells.
fn of_date_time(nanos: i128) -> SysTime
    requires { unsigned_abs nanos ≤ far_seconds * 1000000000 }
    ensures { result ≡ nanos }
{
    SysTime { nanos }
}
