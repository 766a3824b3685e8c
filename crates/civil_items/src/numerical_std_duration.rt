//! Lengths of time without a sign from numbers.
ghost use Rattle.std.specs.Prelude.{◌≡◌, ℕ, ◌+◌, ◌*◌, ◌<◌, IsTrue};
ghost use Rattle.civil_items.specs.Lengths.{fits_std_seconds, minute, hour, day, week};

use civil_base::StdDuration;

const SECONDS_PER_MINUTE: u64 = 60;

const SECONDS_PER_HOUR: u64 = 3_600;

const SECONDS_PER_DAY: u64 = 86_400;

const SECONDS_PER_WEEK: u64 = 604_800;

/// Lengths of time of that many units, exactly. Where the seconds of a length need not be a `u64`, that they are is a
/// condition, which the `fits_std_` call of the same unit tests.
pub trait NumericalStdDuration {
    /// How many units.
    ghost count: { Self → ℕ };

    /// That many nanoseconds.
    fn std_nanoseconds(self) -> StdDuration
        ensures { result ≡ count self * 1 };

    /// That many microseconds.
    fn std_microseconds(self) -> StdDuration
        ensures { result ≡ count self * 1_000 };

    /// That many milliseconds.
    fn std_milliseconds(self) -> StdDuration
        ensures { result ≡ count self * 1_000_000 };

    /// That many seconds.
    fn std_seconds(self) -> StdDuration
        ensures { result ≡ count self * 1_000_000_000 };

    /// That many minutes, where their seconds are a `u64`: `fits_std_minutes`.
    fn std_minutes(self) -> StdDuration
        requires { IsTrue (fits_std_seconds (count self) minute) }
        ensures { result ≡ count self * (minute * 1000000000) };

    /// That many hours, where their seconds are a `u64`: `fits_std_hours`.
    fn std_hours(self) -> StdDuration
        requires { IsTrue (fits_std_seconds (count self) hour) }
        ensures { result ≡ count self * (hour * 1000000000) };

    /// That many days, where their seconds are a `u64`: `fits_std_days`.
    fn std_days(self) -> StdDuration
        requires { IsTrue (fits_std_seconds (count self) day) }
        ensures { result ≡ count self * (day * 1000000000) };

    /// That many weeks, where their seconds are a `u64`: `fits_std_weeks`.
    fn std_weeks(self) -> StdDuration
        requires { IsTrue (fits_std_seconds (count self) week) }
        ensures { result ≡ count self * (week * 1000000000) };

    /// Whether the seconds of that many minutes are a `u64`.
    fn fits_std_minutes(self) -> bool
        ensures { result ≡ fits_std_seconds (count self) minute };

    /// Whether the seconds of that many hours are a `u64`.
    fn fits_std_hours(self) -> bool
        ensures { result ≡ fits_std_seconds (count self) hour };

    /// Whether the seconds of that many days are a `u64`.
    fn fits_std_days(self) -> bool
        ensures { result ≡ fits_std_seconds (count self) day };

    /// Whether the seconds of that many weeks are a `u64`.
    fn fits_std_weeks(self) -> bool
        ensures { result ≡ fits_std_seconds (count self) week };
}

impl NumericalStdDuration for u64 {
    ghost count = { λ number. number };

    fn std_nanoseconds(self) -> StdDuration {
        of_parts(self / 1_000_000_000, self % 1_000_000_000)
    }

    fn std_microseconds(self) -> StdDuration {
        of_parts(self / 1_000_000, self % 1_000_000 * 1_000)
    }

    fn std_milliseconds(self) -> StdDuration {
        of_parts(self / 1_000, self % 1_000 * 1_000_000)
    }

    fn std_seconds(self) -> StdDuration {
        of_parts(self, 0)
    }

    fn std_minutes(self) -> StdDuration {
        of_parts(self * SECONDS_PER_MINUTE, 0)
    }

    fn std_hours(self) -> StdDuration {
        of_parts(self * SECONDS_PER_HOUR, 0)
    }

    fn std_days(self) -> StdDuration {
        of_parts(self * SECONDS_PER_DAY, 0)
    }

    fn std_weeks(self) -> StdDuration {
        of_parts(self * SECONDS_PER_WEEK, 0)
    }

    fn fits_std_minutes(self) -> bool {
        self.checked_mul(SECONDS_PER_MINUTE).is_some()
    }

    fn fits_std_hours(self) -> bool {
        self.checked_mul(SECONDS_PER_HOUR).is_some()
    }

    fn fits_std_days(self) -> bool {
        self.checked_mul(SECONDS_PER_DAY).is_some()
    }

    fn fits_std_weeks(self) -> bool {
        self.checked_mul(SECONDS_PER_WEEK).is_some()
    }
}

// The length of that many seconds and less than a second of nanoseconds.
fn of_parts(seconds: u64, nanoseconds: u64) -> StdDuration
    requires { nanoseconds < 1000000000 }
    ensures { result ≡ seconds * 1000000000 + nanoseconds }
{
    StdDuration::new(seconds, nanoseconds as u32).unwrap()
}
