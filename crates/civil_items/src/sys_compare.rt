//! Dates with times beside system times.
ghost use Rattle.std.specs.{Prelude.{◌≡◌, ℤ, ◌-ℤ◌, ◌↔◌, IsSome, IfSome}, Ordering.{int_eq, int_cmp}};
ghost use Rattle.civil_base.specs.DateTimes.{instant};
ghost use Rattle.civil_parts.specs.Durations.{IsDuration};

use crate::SysTime;
use civil_base::{OffsetDateTime, SignedDuration, Timestamp, UtcDateTime};
use std::cmp::Ordering;

/// Differences and comparisons with a system time, by exact nanoseconds.
pub trait SysCompare {
    /// The nanoseconds from 1970-01-01 00:00:00 UTC.
    ghost at: { Self → ℤ };

    /// How much later this instant is than the system time. There is no such length exactly where the distance is none.
    fn since_sys(&self, rhs: SysTime) -> Option<SignedDuration>
        ensures has { IsSome result ↔ IsDuration (at self.now -ℤ rhs) }
        ensures value { IfSome result (λ duration. duration ≡ at self.now -ℤ rhs) };

    /// How much later the system time is than this instant. There is no such length exactly where the distance is none.
    fn sys_since(&self, lhs: SysTime) -> Option<SignedDuration>
        ensures has { IsSome result ↔ IsDuration (lhs -ℤ at self.now) }
        ensures value { IfSome result (λ duration. duration ≡ lhs -ℤ at self.now) };

    /// Whether they are the same instant.
    fn eq_sys(&self, rhs: SysTime) -> bool
        ensures { result ≡ int_eq (at self.now) rhs };

    /// Which of them comes first.
    fn cmp_sys(&self, rhs: SysTime) -> Ordering
        ensures { result ≡ int_cmp (at self.now) rhs };
}

/// A value of an instant that is a system time too.
pub trait AsSysTime {
    /// The nanoseconds from 1970-01-01 00:00:00 UTC.
    ghost at: { Self → ℤ };

    /// The same instant.
    fn as_sys_time(&self) -> SysTime
        ensures { result ≡ at self.now };
}

impl AsSysTime for Timestamp {
    ghost at = { λ value. value };

    fn as_sys_time(&self) -> SysTime {
        SysTime::from(*self)
    }
}

impl AsSysTime for UtcDateTime {
    ghost at = { λ value. value };

    fn as_sys_time(&self) -> SysTime {
        SysTime::from(*self)
    }
}

impl AsSysTime for OffsetDateTime {
    ghost at = { instant };

    fn as_sys_time(&self) -> SysTime {
        SysTime::from(*self)
    }
}

impl<T: AsSysTime> SysCompare for T {
    ghost at = { T.at };

    fn since_sys(&self, rhs: SysTime) -> Option<SignedDuration> {
        SignedDuration::from_whole_nanoseconds(self.as_sys_time().nanos_since(rhs))
    }

    fn sys_since(&self, lhs: SysTime) -> Option<SignedDuration> {
        SignedDuration::from_whole_nanoseconds(lhs.nanos_since(self.as_sys_time()))
    }

    fn eq_sys(&self, rhs: SysTime) -> bool {
        self.as_sys_time() == rhs
    }

    fn cmp_sys(&self, rhs: SysTime) -> Ordering {
        self.as_sys_time().cmp(&rhs)
    }
}
