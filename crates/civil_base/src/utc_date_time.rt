//! Dates with a time of day at UTC.
ghost use Rattle.std.specs.Prelude.{◌≡◌, ◌*◌, ◌≤◌, pos, ◌+ℤ◌, ◌*ℤ◌, unsigned_abs, is_ok, IfOk, is_some, IfSome};
ghost use Rattle.civil_base.specs.{Clock.{nanos_per_day}, DateTimes.{instant, offset_of}, Instants.{local_at, nanos_of, seconds_of}, Ranges.{is_in_years, IsInYears, far_seconds}};

use crate::offset_date_time::{nanos_of, seconds_of};
use crate::{ComponentRange, Date, OffsetDateTime, PlainDateTime, Time, UtcOffset};
use std::marker::Model;

/// A date and a time of day at UTC. Contracts see the nanoseconds from 1970-01-01 00:00:00 UTC.
#[derive(Clone, Copy, Debug, PartialEq, Eq, PartialOrd, Ord, Hash)]
pub struct UtcDateTime {
    utc: PlainDateTime,
}

impl Model for UtcDateTime {
    ghost use Rattle.std.specs.Prelude.{ℤ};
    ghost use Rattle.civil_base.specs.Ranges.{IsInYears};

    ghost Value = { ℤ };

    ghost view = { λ value. value.utc };

    ghost invariant = { λ value. IsInYears value.utc };

    ghost inverse = { λ nanos. record { utc = nanos } };
}

impl UtcDateTime {
    /// 1970-01-01 00:00:00.
    pub const UNIX_EPOCH: UtcDateTime = UtcDateTime {
        utc: PlainDateTime::UNIX_EPOCH,
    };

    /// That date and time.
    pub fn new(date: Date, time: Time) -> UtcDateTime
        ensures { result ≡ date *ℤ pos nanos_per_day +ℤ pos time }
    {
        let utc = PlainDateTime::new(date, time);
        UtcDateTime { utc }
    }

    /// The instant that many seconds after 1970-01-01 00:00:00.
    ///
    /// # Errors
    ///
    /// `ComponentRange` exactly where its date lies outside the years -9999 to 9999.
    pub fn from_unix_timestamp(timestamp: i64) -> Result<UtcDateTime, ComponentRange>
        ensures accepts { is_ok result ≡ is_in_years (nanos_of timestamp) }
        ensures value { IfOk result (λ value. value ≡ nanos_of timestamp) }
    {
        UtcDateTime::from_unix_timestamp_nanos(nanos_of(timestamp))
    }

    /// The instant that many nanoseconds after 1970-01-01 00:00:00.
    ///
    /// # Errors
    ///
    /// `ComponentRange` exactly where its date lies outside the years -9999 to 9999.
    pub fn from_unix_timestamp_nanos(timestamp: i128) -> Result<UtcDateTime, ComponentRange>
        ensures accepts { is_ok result ≡ is_in_years timestamp }
        ensures value { IfOk result (λ value. value ≡ timestamp) }
    {
        let utc = PlainDateTime::at_nanos(timestamp).ok_or(ComponentRange)?;
        Ok(UtcDateTime { utc })
    }

    /// The nanoseconds from 1970-01-01 00:00:00.
    pub fn unix_timestamp_nanos(self) -> i128
        ensures value { result ≡ self }
        ensures bound { unsigned_abs result ≤ far_seconds * 1000000000 }
        ensures years { IsInYears result }
    {
        self.utc.nanos()
    }

    /// The whole seconds from 1970-01-01 00:00:00, rounded down.
    pub fn unix_timestamp(self) -> i64
        ensures value { result ≡ seconds_of self }
        ensures bound { unsigned_abs result ≤ far_seconds }
    {
        seconds_of(self.unix_timestamp_nanos())
    }

    /// The same instant at that offset. There is none exactly where the date at that offset lies outside the years
    /// -9999 to 9999.
    pub fn to_offset(self, offset: UtcOffset) -> Option<OffsetDateTime>
        ensures has { is_some result ≡ is_in_years (local_at self offset) }
        ensures instant { IfSome result (λ value. instant value ≡ self) }
        ensures offset { IfSome result (λ value. offset_of value ≡ offset) }
    {
        OffsetDateTime::at_instant(self.unix_timestamp_nanos(), offset)
    }
}
