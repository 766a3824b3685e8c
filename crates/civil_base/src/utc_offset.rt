//! Offsets from UTC.
#![tactic(auto, using(crate::specs::RangeLaws::ranges))]

ghost use Rattle.std.specs.Prelude.{◌≡◌, ◌↔◌, pos, ◌*ℤ◌, ◌<ℤ◌, ◌<◌, ◌^◌, IsTrue, IsOk, IfOk, is_ok};
ghost use Rattle.civil_base.specs.{Ranges.{is_offset, IsOffset}, Offsets.{offset_at, signed_by, hours_in, minutes_in, seconds_in, IsOffsetParts}, Offsets.{is_first_negative as leads_negative}};

use crate::ComponentRange;
use civil_parts::units::NANOS_PER_SECOND;
use std::marker::Model;

/// The seconds of the largest offset in size, 25:59:59.
pub const GREATEST_OFFSET: u32 = 93_599;

/// How far a local time is ahead of UTC, from -25:59:59 to +25:59:59. Contracts see the seconds.
#[derive(Clone, Copy, Debug, PartialEq, Eq, PartialOrd, Ord, Hash)]
pub struct UtcOffset {
    seconds: i32,
}

impl Model for UtcOffset {
    ghost use Rattle.std.specs.Prelude.{ℤ};
    ghost use Rattle.civil_base.specs.Ranges.{IsOffset};

    ghost Value = { ℤ };

    ghost view = { λ offset. offset.seconds };

    ghost invariant = { λ offset. IsOffset offset.seconds };

    ghost inverse = { λ seconds. record { seconds = seconds } };
}

impl UtcOffset {
    /// No offset.
    pub const UTC: UtcOffset = UtcOffset { seconds: 0 };

    /// The offset of these hours, minutes and seconds. The first part that isn't 0 gives its sign to the parts after
    /// it.
    ///
    /// # Errors
    ///
    /// `ComponentRange` exactly where the hours are past 25, the minutes past 59 or the seconds past 59 in size.
    pub fn from_hms(hours: i8, minutes: i8, seconds: i8) -> Result<UtcOffset, ComponentRange>
        ensures accepts { IsOk result ↔ IsOffsetParts hours minutes seconds }
        ensures value { IfOk result (λ offset. offset ≡ offset_at hours minutes seconds) }
    {
        let (h, m, s) = (
            hours.unsigned_abs(),
            minutes.unsigned_abs(),
            seconds.unsigned_abs(),
        );
        if h > 25 || m > 59 || s > 59 {
            return Err(ComponentRange);
        }
        let size = (u32::from(h) * 60 + u32::from(m)) * 60 + u32::from(s);
        Ok(UtcOffset {
            seconds: signed(is_first_negative(hours, minutes, seconds), size),
        })
    }

    /// The offset of that many seconds.
    ///
    /// # Errors
    ///
    /// `ComponentRange` exactly where they are past 93,599 in size.
    pub fn from_whole_seconds(seconds: i32) -> Result<UtcOffset, ComponentRange>
        ensures accepts { is_ok result ≡ is_offset seconds }
        ensures value { IfOk result (λ offset. offset ≡ seconds) }
    {
        if is_offset(seconds) {
            Ok(UtcOffset { seconds })
        } else {
            Err(ComponentRange)
        }
    }

    /// The seconds, from -93,599 to 93,599.
    pub fn whole_seconds(self) -> i32
        ensures value { result ≡ self }
        ensures bound { IsOffset result }
    {
        self.seconds
    }

    /// The nanoseconds.
    pub(crate) fn nanos(self) -> i128
        ensures value { result ≡ pos 1000000000 *ℤ self }
        ensures bound { IsOffset self }
    {
        i128::from(self.seconds) * NANOS_PER_SECOND
    }

    /// The hours, the minutes of the hour and the seconds of the minute. Each has the offset's sign or is 0.
    pub fn as_hms(self) -> (i8, i8, i8)
        ensures hours { result.0 ≡ hours_in self }
        ensures minutes { result.1 ≡ minutes_in self }
        ensures seconds { result.2 ≡ seconds_in self }
    {
        (
            self.whole_hours(),
            self.minutes_past_hour(),
            self.seconds_past_minute(),
        )
    }

    /// The whole hours, cut towards zero.
    pub fn whole_hours(self) -> i8
        ensures { result ≡ hours_in self }
    {
        (self.seconds / 3600) as i8
    }

    /// The minutes past the whole hours, with the offset's sign.
    pub fn minutes_past_hour(self) -> i8
        ensures { result ≡ minutes_in self }
    {
        (self.seconds / 60 % 60) as i8
    }

    /// The seconds past the whole minutes, with the offset's sign.
    pub fn seconds_past_minute(self) -> i8
        ensures { result ≡ seconds_in self }
    {
        (self.seconds % 60) as i8
    }

    /// Whether there is no offset.
    pub fn is_utc(self) -> bool
        ensures { IsTrue result ↔ (self ≡ pos 0) }
    {
        self.seconds == 0
    }

    /// Whether the local time is ahead of UTC.
    pub fn is_positive(self) -> bool
        ensures { IsTrue result ↔ (pos 0 <ℤ self) }
    {
        self.seconds > 0
    }

    /// Whether the local time is behind UTC.
    pub fn is_negative(self) -> bool
        ensures { IsTrue result ↔ (self <ℤ pos 0) }
    {
        self.seconds < 0
    }
}

// Whether an offset has so many seconds.
fn is_offset(seconds: i32) -> bool
    ensures { result ≡ is_offset seconds }
{
    seconds.unsigned_abs() <= GREATEST_OFFSET
}

// Whether the first part that isn't 0 is negative.
fn is_first_negative(hours: i8, minutes: i8, seconds: i8) -> bool
    ensures { result ≡ leads_negative hours minutes seconds }
{
    if hours != 0 {
        hours < 0
    } else if minutes != 0 {
        minutes < 0
    } else {
        seconds < 0
    }
}

/// The size with that sign.
pub(crate) fn signed(negative: bool, size: u32) -> i32
    requires { size < 2 ^ 31 }
    ensures { result ≡ signed_by negative size }
{
    let size = size as i32;
    if negative { -size } else { size }
}
