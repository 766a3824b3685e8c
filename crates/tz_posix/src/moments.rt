//! When daylight saving time starts and ends in a year.
ghost use Rattle.std.specs.Prelude.{◌≡◌};
ghost use Rattle.tz_posix.specs.{InForce.{is_within as is_between}, Yearly.{moments_shown}};

/// The start and the end of daylight saving time in one year, in seconds from 1970-01-01 00:00:00 UTC.
#[derive(Clone, Copy, Debug, PartialEq, Eq)]
pub struct Moments {
    /// The start.
    pub start: i64,
    /// The end.
    pub end: i64,
}

impl Moments {
    /// Whether a second lies from the start up to, without, the end; or, where the end lies before the start, before the end or
    /// from the start on.
    pub fn is_within(&self, second: i64) -> bool
        ensures { result ≡ is_between (moments_shown self.now).0 (moments_shown self.now).1 second }
    {
        if self.end < self.start {
            second < self.end || self.start <= second
        } else {
            self.start <= second && second < self.end
        }
    }
}
