//! Lengths of time with a sign.
ghost use Rattle.std.specs.Prelude.{◌≡◌, ◌≤◌, ◌↔◌, pos, ◌+ℤ◌, ◌-ℤ◌, ◌*ℤ◌, ◌<ℤ◌, int_rem, unsigned_abs, IsTrue, is_ok, IfOk, IsSome, is_some, IfSome, nat_lt, ◌*◌, ◌^◌};
ghost use Rattle.civil_parts.specs.Durations.{IsDuration, are_parts, whole_seconds, whole_days};

use crate::units::NANOS_PER_SECOND;
use crate::{ConversionRange, StdDuration};
use std::marker::Model;

const NANOS_PER_DAY: i128 = 86_400 * NANOS_PER_SECOND;

/// A length of time of whole nanoseconds, less than 2^63 seconds and a second in size. Contracts see the nanoseconds.
#[derive(Clone, Copy, Debug, PartialEq, Eq, PartialOrd, Ord, Hash)]
pub struct SignedDuration {
    nanos: i128,
}

impl Model for SignedDuration {
    ghost use Rattle.std.specs.Prelude.{ℤ};
    ghost use Rattle.civil_parts.specs.Durations.{IsDuration};

    ghost Value = { ℤ };

    ghost view = { λ duration. duration.nanos };

    ghost invariant = { λ duration. IsDuration duration.nanos };

    ghost inverse = { λ nanos. record { nanos = nanos } };
}

impl SignedDuration {
    /// No time.
    pub const ZERO: SignedDuration = SignedDuration { nanos: 0 };

    /// The most negative length, of -9,223,372,036,854,775,808 seconds and -999,999,999 nanoseconds.
    pub const MIN: SignedDuration = SignedDuration {
        nanos: -9_223_372_036_854_775_808 * NANOS_PER_SECOND - 999_999_999,
    };

    /// The greatest length, of 9,223,372,036,854,775,807 seconds and 999,999,999 nanoseconds.
    pub const MAX: SignedDuration = SignedDuration {
        nanos: 9_223_372_036_854_775_807 * NANOS_PER_SECOND + 999_999_999,
    };

    /// The length of that many seconds and nanoseconds. There is none where the nanoseconds are a second or more in
    /// size, or where one part is positive and the other negative.
    pub fn from_parts(seconds: i64, nanoseconds: i32) -> Option<SignedDuration>
        ensures has { is_some result ≡ are_parts seconds nanoseconds }
        ensures value { IfSome result (λ duration. duration ≡ seconds *ℤ pos 1000000000 +ℤ nanoseconds) }
    {
        if are_parts(seconds, nanoseconds) {
            SignedDuration::from_whole_nanoseconds(
                i128::from(seconds) * NANOS_PER_SECOND + i128::from(nanoseconds),
            )
        } else {
            None
        }
    }

    /// The length of that many nanoseconds, if it is one.
    pub fn from_whole_nanoseconds(nanoseconds: i128) -> Option<SignedDuration>
        ensures has { IsSome result ↔ IsDuration nanoseconds }
        ensures value { IfSome result (λ duration. duration ≡ nanoseconds) }
    {
        if SignedDuration::MIN.nanos <= nanoseconds && nanoseconds <= SignedDuration::MAX.nanos {
            Some(SignedDuration { nanos: nanoseconds })
        } else {
            None
        }
    }

    /// The whole seconds, cut towards zero.
    pub fn whole_seconds(self) -> i64
        ensures { result ≡ whole_seconds self }
    {
        (self.nanos / NANOS_PER_SECOND) as i64
    }

    /// The whole days of 86,400 seconds, cut towards zero.
    pub fn whole_days(self) -> i64
        ensures value { result ≡ whole_days self }
        ensures bound { unsigned_abs result ≤ 106_751_991_167_300 }
    {
        (self.nanos / NANOS_PER_DAY) as i64
    }

    /// The nanoseconds past the whole seconds, with the sign of the length.
    pub fn subsec_nanoseconds(self) -> i32
        ensures { result ≡ int_rem self (pos 1000000000) }
    {
        (self.nanos % NANOS_PER_SECOND) as i32
    }

    /// The nanoseconds.
    pub fn whole_nanoseconds(self) -> i128
        ensures value { result ≡ self }
        ensures bound { IsDuration result }
    {
        self.nanos
    }

    /// Whether it is no time.
    pub fn is_zero(self) -> bool
        ensures { IsTrue result ↔ (self ≡ pos 0) }
    {
        self.nanos == 0
    }

    /// Whether it is below zero.
    pub fn is_negative(self) -> bool
        ensures { IsTrue result ↔ (self <ℤ pos 0) }
    {
        self.nanos < 0
    }

    /// Whether it is above zero.
    pub fn is_positive(self) -> bool
        ensures { IsTrue result ↔ (pos 0 <ℤ self) }
    {
        self.nanos > 0
    }

    /// The sum, if it is a length that there is.
    pub fn checked_add(self, rhs: SignedDuration) -> Option<SignedDuration>
        ensures has { IsSome result ↔ IsDuration (self +ℤ rhs) }
        ensures value { IfSome result (λ duration. duration ≡ self +ℤ rhs) }
    {
        SignedDuration::from_whole_nanoseconds(self.nanos + rhs.nanos)
    }

    /// The difference, if it is a length that there is.
    pub fn checked_sub(self, rhs: SignedDuration) -> Option<SignedDuration>
        ensures has { IsSome result ↔ IsDuration (self -ℤ rhs) }
        ensures value { IfSome result (λ duration. duration ≡ self -ℤ rhs) }
    {
        SignedDuration::from_whole_nanoseconds(self.nanos - rhs.nanos)
    }
}

#[tactic(auto, unfolding(crate::specs::Durations::are_parts))]
fn are_parts(seconds: i64, nanoseconds: i32) -> bool
    ensures { result ≡ are_parts seconds nanoseconds }
{
    nanoseconds.unsigned_abs() <= 999_999_999
        && (seconds >= 0 || nanoseconds <= 0)
        && (seconds <= 0 || nanoseconds >= 0)
}

/// The same length. It is refused exactly where it has more than 9,223,372,036,854,775,807 whole seconds.
impl TryFrom<StdDuration> for SignedDuration {
    type Error = ConversionRange;

    ghost try_from_gives = { λ length result.
        (is_ok result ≡ nat_lt length (2 ^ 63 * 1000000000)) × IfOk result (λ duration. duration ≡ pos length) };

    fn try_from(length: StdDuration) -> Result<SignedDuration, ConversionRange> {
        SignedDuration::from_whole_nanoseconds(length.nanos() as i128).ok_or(ConversionRange)
    }
}

/// The name that `time` had for it.
pub type Duration = SignedDuration;
