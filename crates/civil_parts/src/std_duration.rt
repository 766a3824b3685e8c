//! Lengths of time without a sign.
ghost use Rattle.std.specs.Prelude.{◌≡◌, ◌+◌, ◌*◌, ◌/◌, ◌%◌, ◌<◌, is_some, IfSome, nat_lt};

use crate::units;
use std::marker::Model;

const NANOS_PER_SECOND: u128 = units::NANOS_PER_SECOND as u128;

/// A length of time of whole nanoseconds, less than 2^64 seconds: the `Duration` of Rust's standard library. Contracts
/// see the nanoseconds.
#[derive(Clone, Copy, Debug, PartialEq, Eq, PartialOrd, Ord, Hash)]
pub struct StdDuration {
    nanos: u128,
}

impl Model for StdDuration {
    ghost use Rattle.std.specs.Prelude.{ℕ};
    ghost use Rattle.civil_parts.specs.Durations.{IsStdDuration};

    ghost Value = { ℕ };

    ghost view = { λ duration. duration.nanos };

    ghost invariant = { λ duration. IsStdDuration duration.nanos };

    ghost inverse = { λ nanos. record { nanos = nanos } };
}

impl StdDuration {
    ghost use Rattle.civil_parts.specs.Durations.{IsStdDuration};

    /// The length of that many seconds and nanoseconds. There is none exactly where the nanoseconds are past
    /// 999,999,999.
    pub fn new(seconds: u64, nanoseconds: u32) -> Option<StdDuration>
        ensures has { is_some result ≡ nat_lt nanoseconds 1000000000 }
        ensures value { IfSome result (λ duration. duration ≡ seconds * 1000000000 + nanoseconds) }
    {
        if nanoseconds < 1_000_000_000 {
            Some(StdDuration {
                nanos: u128::from(seconds) * NANOS_PER_SECOND + u128::from(nanoseconds),
            })
        } else {
            None
        }
    }

    /// The whole seconds.
    pub fn as_secs(self) -> u64
        ensures { result ≡ self / 1000000000 }
    {
        (self.nanos / NANOS_PER_SECOND) as u64
    }

    /// The nanoseconds past the whole seconds.
    pub fn subsec_nanos(self) -> u32
        ensures value { result ≡ self % 1000000000 }
        ensures bound { result < 1000000000 }
    {
        (self.nanos % NANOS_PER_SECOND) as u32
    }

    /// The nanoseconds.
    pub(crate) fn nanos(self) -> u128
        ensures value { result ≡ self }
        ensures bound { IsStdDuration result }
    {
        self.nanos
    }
}
