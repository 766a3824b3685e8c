//! What the start and the end of daylight saving time in one year say of a second.
ghost use Rattle.std.specs.Prelude.{◌≡◌, int_lt, ◌<ℤ◌, ◌≤ℤ◌};
ghost use Rattle.tz_tzif.specs.FooterForce.{has_begun as begun_by, is_saved as saved_by};
ghost use Rattle.tz_posix.specs.Yearly.{moments_shown};

use tz_posix::parts::Moments;

/// Whether the start or the end is at or before a second.
pub(crate) fn has_begun(moments: &Moments, second: i64) -> bool
    ensures { result ≡ begun_by (moments_shown moments.now) second }
{
    moments.start <= second || moments.end <= second
}

/// Whether the start is at or before a second, and the end after it, or before the start.
pub(crate) fn is_saved(moments: &Moments, second: i64) -> bool
    ensures { result ≡ saved_by (moments_shown moments.now) second }
{
    moments.start <= second && (second < moments.end || moments.end < moments.start)
}

/// Whether the year ends daylight saving time before it starts it.
pub(crate) fn is_reversed(moments: &Moments) -> bool
    ensures { result ≡ int_lt (moments_shown moments.now).1 (moments_shown moments.now).0 }
{
    moments.end < moments.start
}

/// What comes next after a second: the start or the end, or what comes next without them.
pub(crate) fn next_of(moments: &Moments, second: i64, next: i64) -> i64
    requires later { second <ℤ next }
    ensures later { second <ℤ result }
    ensures next { result ≤ℤ next }
    ensures start { second <ℤ (moments_shown moments.now).0 → result ≤ℤ (moments_shown moments.now).0 }
    ensures end { second <ℤ (moments_shown moments.now).1 → result ≤ℤ (moments_shown moments.now).1 }
{
    sooner(second, moments.start, sooner(second, moments.end, next))
}

/// A moment, where it comes after a second and before what comes next.
fn sooner(second: i64, moment: i64, next: i64) -> i64
    requires later { second <ℤ next }
    ensures later { second <ℤ result }
    ensures next { result ≤ℤ next }
    ensures moment { second <ℤ moment → result ≤ℤ moment }
{
    if second < moment && moment < next {
        moment
    } else {
        next
    }
}
