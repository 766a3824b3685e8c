//! Instants.
ghost use Rattle.std.specs.Prelude.{◌≡◌, ◌*◌, ◌≤◌, ◌&&◌, pos, ◌+ℤ◌, ◌*ℤ◌, unsigned_abs, nat_lt, is_ok, IfOk};
ghost use Rattle.civil_base.specs.{Instants.{nanos_of}, Ranges.{is_in_years, IsInYears, far_seconds}};

use crate::offset_date_time::nanos_of;
use crate::{ComponentRange, PlainDateTime};
use std::marker::Model;

/// An instant whose UTC date lies in the years -9999 to 9999. Contracts see the nanoseconds from 1970-01-01 00:00:00 UTC.
#[derive(Clone, Copy, Debug, PartialEq, Eq, PartialOrd, Ord, Hash)]
pub struct Timestamp {
    utc: PlainDateTime,
}

impl Model for Timestamp {
    ghost use Rattle.std.specs.Prelude.{ℤ};
    ghost use Rattle.civil_base.specs.Ranges.{IsInYears};

    ghost Value = { ℤ };

    ghost view = { λ value. value.utc };

    ghost invariant = { λ value. IsInYears value.utc };

    ghost inverse = { λ nanos. record { utc = nanos } };
}

impl Timestamp {
    /// 1970-01-01 00:00:00 UTC.
    pub const UNIX_EPOCH: Timestamp = Timestamp {
        utc: PlainDateTime::UNIX_EPOCH,
    };

    /// The instant that many seconds and nanoseconds after 1970-01-01 00:00:00 UTC.
    ///
    /// # Errors
    ///
    /// `ComponentRange` exactly where the nanoseconds are past 999,999,999 or the UTC date lies outside the years -9999
    /// to 9999.
    pub fn new(seconds: i64, nanoseconds: u32) -> Result<Timestamp, ComponentRange>
        ensures accepts { is_ok result
            ≡ (nat_lt nanoseconds 1000000000 && is_in_years (nanos_of seconds +ℤ pos nanoseconds)) }
        ensures value { IfOk result (λ value. value ≡ nanos_of seconds +ℤ pos nanoseconds) }
    {
        if nanoseconds < 1_000_000_000 {
            Timestamp::from_nanoseconds(nanos_of(seconds) + i128::from(nanoseconds))
        } else {
            Err(ComponentRange)
        }
    }

    /// The instant that many seconds after 1970-01-01 00:00:00 UTC.
    ///
    /// # Errors
    ///
    /// `ComponentRange` exactly where its UTC date lies outside the years -9999 to 9999.
    pub fn from_seconds(seconds: i64) -> Result<Timestamp, ComponentRange>
        ensures accepts { is_ok result ≡ is_in_years (nanos_of seconds) }
        ensures value { IfOk result (λ value. value ≡ nanos_of seconds) }
    {
        Timestamp::from_nanoseconds(nanos_of(seconds))
    }

    /// The instant that many milliseconds after 1970-01-01 00:00:00 UTC.
    ///
    /// # Errors
    ///
    /// `ComponentRange` exactly where its UTC date lies outside the years -9999 to 9999.
    pub fn from_milliseconds(milliseconds: i64) -> Result<Timestamp, ComponentRange>
        ensures accepts { is_ok result ≡ is_in_years (milliseconds *ℤ pos 1000000) }
        ensures value { IfOk result (λ value. value ≡ milliseconds *ℤ pos 1000000) }
    {
        Timestamp::from_nanoseconds(i128::from(milliseconds) * 1_000_000)
    }

    /// The instant that many nanoseconds after 1970-01-01 00:00:00 UTC.
    ///
    /// # Errors
    ///
    /// `ComponentRange` exactly where its UTC date lies outside the years -9999 to 9999.
    pub fn from_nanoseconds(nanoseconds: i128) -> Result<Timestamp, ComponentRange>
        ensures accepts { is_ok result ≡ is_in_years nanoseconds }
        ensures value { IfOk result (λ value. value ≡ nanoseconds) }
    {
        let utc = PlainDateTime::at_nanos(nanoseconds).ok_or(ComponentRange)?;
        Ok(Timestamp { utc })
    }

    /// The nanoseconds from 1970-01-01 00:00:00 UTC.
    pub fn as_nanoseconds(self) -> i128
        ensures value { result ≡ self }
        ensures bound { unsigned_abs result ≤ far_seconds * 1000000000 }
        ensures years { IsInYears result }
    {
        self.utc.nanos()
    }
}
