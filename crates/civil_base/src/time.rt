//! Times of day.
ghost use Rattle.std.specs.Prelude.{◌≡◌, ◌<◌, ◌↔◌, IsOk, IfOk};
ghost use Rattle.civil_base.specs.Clock.{hour_of, minute_of, second_of, nanosecond_of, time_at, nanos_per_day, IsClockTime};

use crate::ComponentRange;
use civil_parts::units;
use std::marker::Model;

const NANOS_PER_SECOND: u64 = units::NANOS_PER_SECOND as u64;

/// A time of day, from 00:00:00 to 23:59:59.999999999. Contracts see the nanoseconds from midnight.
#[derive(Clone, Copy, Debug, PartialEq, Eq, PartialOrd, Ord, Hash)]
pub struct Time {
    nanos: u64,
}

impl Model for Time {
    ghost use Rattle.std.specs.Prelude.{ℕ};
    ghost use Rattle.civil_base.specs.Clock.{IsTimeOfDay};

    ghost Value = { ℕ };

    ghost view = { λ time. time.nanos };

    ghost invariant = { λ time. IsTimeOfDay time.nanos };

    ghost inverse = { λ nanos. record { nanos = nanos } };
}

impl Time {
    /// 00:00:00, the start of a day.
    pub const MIDNIGHT: Time = Time { nanos: 0 };

    /// The time with these parts and no nanoseconds.
    ///
    /// # Errors
    ///
    /// `ComponentRange` exactly where the hour is past 23, or the minute or the second past 59.
    pub fn from_hms(hour: u8, minute: u8, second: u8) -> Result<Time, ComponentRange>
        ensures accepts { IsOk result ↔ IsClockTime hour minute second 0 }
        ensures value { IfOk result (λ time. time ≡ time_at hour minute second 0) }
    {
        Time::from_hms_nano(hour, minute, second, 0)
    }

    /// The time with these parts.
    ///
    /// # Errors
    ///
    /// `ComponentRange` exactly where the hour is past 23, the minute or the second past 59, or the nanosecond past
    /// 999,999,999.
    #[tactic(auto, unfolding(crate::specs::Clock::time_at))]
    pub fn from_hms_nano(
        hour: u8,
        minute: u8,
        second: u8,
        nanosecond: u32,
    ) -> Result<Time, ComponentRange>
        ensures accepts { IsOk result ↔ IsClockTime hour minute second nanosecond }
        ensures value { IfOk result (λ time. time ≡ time_at hour minute second nanosecond) }
    {
        if hour > 23 || minute > 59 || second > 59 || nanosecond > 999_999_999 {
            return Err(ComponentRange);
        }
        let seconds = (u64::from(hour) * 60 + u64::from(minute)) * 60 + u64::from(second);
        Ok(Time {
            nanos: seconds * NANOS_PER_SECOND + u64::from(nanosecond),
        })
    }

    /// The time that many nanoseconds after midnight.
    pub(crate) fn at_nanos(nanos: u64) -> Time
        requires { nanos < nanos_per_day }
        ensures { result ≡ nanos }
    {
        Time { nanos }
    }

    /// The nanoseconds from midnight.
    pub(crate) fn nanos_of_day(self) -> u64
        ensures value { result ≡ self }
        ensures bound { result < nanos_per_day }
    {
        self.nanos
    }

    /// The hour, from 0 to 23.
    #[tactic(auto, unfolding(crate::specs::Clock::hour_of))]
    pub fn hour(self) -> u8
        ensures value { result ≡ hour_of self }
        ensures bound { result < 24 }
    {
        (self.nanos / (3600 * NANOS_PER_SECOND)) as u8
    }

    /// The minute of the hour, from 0 to 59.
    #[tactic(auto, unfolding(crate::specs::Clock::minute_of))]
    pub fn minute(self) -> u8
        ensures value { result ≡ minute_of self }
        ensures bound { result < 60 }
    {
        (self.nanos / (60 * NANOS_PER_SECOND) % 60) as u8
    }

    /// The second of the minute, from 0 to 59.
    #[tactic(auto, unfolding(crate::specs::Clock::second_of))]
    pub fn second(self) -> u8
        ensures value { result ≡ second_of self }
        ensures bound { result < 60 }
    {
        (self.nanos / NANOS_PER_SECOND % 60) as u8
    }

    /// The nanosecond of the second, from 0 to 999,999,999.
    #[tactic(auto, unfolding(crate::specs::Clock::nanosecond_of))]
    pub fn nanosecond(self) -> u32
        ensures value { result ≡ nanosecond_of self }
        ensures bound { result < 1_000_000_000 }
    {
        (self.nanos % NANOS_PER_SECOND) as u32
    }

    /// The hour, the minute and the second.
    pub fn as_hms(self) -> (u8, u8, u8)
        ensures { result ≡ (hour_of self, minute_of self, second_of self) }
    {
        (self.hour(), self.minute(), self.second())
    }

    /// The hour, the minute, the second and the nanosecond.
    pub fn as_hms_nano(self) -> (u8, u8, u8, u32)
        ensures { result ≡ (hour_of self, minute_of self, second_of self, nanosecond_of self) }
    {
        (self.hour(), self.minute(), self.second(), self.nanosecond())
    }
}
