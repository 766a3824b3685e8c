//! Sums and differences of system times.
ghost use Rattle.std.specs.Prelude.{◌≡◌, ℤ, ◌+ℤ◌, ◌-ℤ◌, is_some, IfSome};
ghost use Rattle.civil_items.specs.SysTimes.{is_sys_time, length_of};

use crate::SysTime;
use civil_base::SignedDuration;

/// What a system time becomes with lengths of time that have a sign.
pub trait SystemTimeExt {
    /// The nanoseconds from 1970-01-01 00:00:00 UTC.
    ghost at: { Self → ℤ };

    /// The time that much later. There is none exactly where the sum is no system time.
    fn checked_add_signed(&self, duration: SignedDuration) -> Option<SysTime>
        ensures has { is_some result ≡ is_sys_time (at self.now +ℤ duration) }
        ensures value { IfSome result (λ time. time ≡ at self.now +ℤ duration) };

    /// The time that much earlier. There is none exactly where the difference is no system time.
    fn checked_sub_signed(&self, duration: SignedDuration) -> Option<SysTime>
        ensures has { is_some result ≡ is_sys_time (at self.now -ℤ duration) }
        ensures value { IfSome result (λ time. time ≡ at self.now -ℤ duration) };

    /// How much later this time is than the other; negative where it is earlier. A distance of more than
    /// 9,223,372,036,854,775,807 whole seconds is `SignedDuration::MAX`, or `MIN` where it is negative.
    fn signed_duration_since(&self, earlier: SysTime) -> SignedDuration
        ensures { result ≡ length_of (at self.now -ℤ earlier) };
}

impl SystemTimeExt for SysTime {
    ghost at = { λ time. time };

    fn checked_add_signed(&self, duration: SignedDuration) -> Option<SysTime> {
        SysTime::from_nanoseconds(self.as_nanoseconds() + duration.whole_nanoseconds())
    }

    fn checked_sub_signed(&self, duration: SignedDuration) -> Option<SysTime> {
        SysTime::from_nanoseconds(self.as_nanoseconds() - duration.whole_nanoseconds())
    }

    fn signed_duration_since(&self, earlier: SysTime) -> SignedDuration {
        length_of(self.nanos_since(earlier))
    }
}

// A distance of nanoseconds as a length of time.
#[tactic(auto, unfolding(crate::specs::SysTimes::length_of))]
fn length_of(distance: i128) -> SignedDuration
    ensures { result ≡ length_of distance }
{
    if distance.unsigned_abs() / 1_000_000_000 <= 9_223_372_036_854_775_807 {
        SignedDuration::from_whole_nanoseconds(distance).unwrap()
    } else if distance < 0 {
        SignedDuration::MIN
    } else {
        SignedDuration::MAX
    }
}
