//! Lengths of time from numbers.
ghost use Rattle.std.specs.Prelude.{◌≡◌, ℤ, pos, ◌*ℤ◌, ◌*◌, IsTrue};
ghost use Rattle.civil_parts.specs.Durations.{IsDuration};
ghost use Rattle.civil_items.specs.Lengths.{fits_seconds, minute, hour, day, week};

use civil_base::SignedDuration;
use civil_parts::units::NANOS_PER_SECOND;

const SECONDS_PER_MINUTE: i64 = 60;

const SECONDS_PER_HOUR: i64 = 3_600;

const SECONDS_PER_DAY: i64 = 86_400;

const SECONDS_PER_WEEK: i64 = 604_800;

/// Lengths of time of that many units, exactly. Where the seconds of a length need not be an `i64`, that they are is a
/// condition, which the `fits_` call of the same unit tests.
pub trait NumericalDuration {
    /// How many units.
    ghost count: { Self → ℤ };

    /// That many nanoseconds.
    fn nanoseconds(self) -> SignedDuration
        ensures { result ≡ count self *ℤ pos 1 };

    /// That many microseconds.
    fn microseconds(self) -> SignedDuration
        ensures { result ≡ count self *ℤ pos 1_000 };

    /// That many milliseconds.
    fn milliseconds(self) -> SignedDuration
        ensures { result ≡ count self *ℤ pos 1_000_000 };

    /// That many seconds.
    fn seconds(self) -> SignedDuration
        ensures { result ≡ count self *ℤ pos 1_000_000_000 };

    /// That many minutes, where their seconds are an `i64`: `fits_minutes`.
    fn minutes(self) -> SignedDuration
        requires { IsTrue (fits_seconds (count self) minute) }
        ensures { result ≡ count self *ℤ pos (minute * 1000000000) };

    /// That many hours, where their seconds are an `i64`: `fits_hours`.
    fn hours(self) -> SignedDuration
        requires { IsTrue (fits_seconds (count self) hour) }
        ensures { result ≡ count self *ℤ pos (hour * 1000000000) };

    /// That many days, where their seconds are an `i64`: `fits_days`.
    fn days(self) -> SignedDuration
        requires { IsTrue (fits_seconds (count self) day) }
        ensures { result ≡ count self *ℤ pos (day * 1000000000) };

    /// That many weeks, where their seconds are an `i64`: `fits_weeks`.
    fn weeks(self) -> SignedDuration
        requires { IsTrue (fits_seconds (count self) week) }
        ensures { result ≡ count self *ℤ pos (week * 1000000000) };

    /// Whether the seconds of that many minutes are an `i64`.
    fn fits_minutes(self) -> bool
        ensures { result ≡ fits_seconds (count self) minute };

    /// Whether the seconds of that many hours are an `i64`.
    fn fits_hours(self) -> bool
        ensures { result ≡ fits_seconds (count self) hour };

    /// Whether the seconds of that many days are an `i64`.
    fn fits_days(self) -> bool
        ensures { result ≡ fits_seconds (count self) day };

    /// Whether the seconds of that many weeks are an `i64`.
    fn fits_weeks(self) -> bool
        ensures { result ≡ fits_seconds (count self) week };
}

impl NumericalDuration for i64 {
    ghost count = { λ number. number };

    fn nanoseconds(self) -> SignedDuration {
        of_nanos(i128::from(self))
    }

    fn microseconds(self) -> SignedDuration {
        of_nanos(i128::from(self) * 1_000)
    }

    fn milliseconds(self) -> SignedDuration {
        of_nanos(i128::from(self) * 1_000_000)
    }

    fn seconds(self) -> SignedDuration {
        of_nanos(i128::from(self) * NANOS_PER_SECOND)
    }

    fn minutes(self) -> SignedDuration {
        of_seconds(self * SECONDS_PER_MINUTE)
    }

    fn hours(self) -> SignedDuration {
        of_seconds(self * SECONDS_PER_HOUR)
    }

    fn days(self) -> SignedDuration {
        of_seconds(self * SECONDS_PER_DAY)
    }

    fn weeks(self) -> SignedDuration {
        of_seconds(self * SECONDS_PER_WEEK)
    }

    fn fits_minutes(self) -> bool {
        self.checked_mul(SECONDS_PER_MINUTE).is_some()
    }

    fn fits_hours(self) -> bool {
        self.checked_mul(SECONDS_PER_HOUR).is_some()
    }

    fn fits_days(self) -> bool {
        self.checked_mul(SECONDS_PER_DAY).is_some()
    }

    fn fits_weeks(self) -> bool {
        self.checked_mul(SECONDS_PER_WEEK).is_some()
    }
}

fn of_seconds(seconds: i64) -> SignedDuration
    ensures { result ≡ seconds *ℤ pos 1_000_000_000 }
{
    of_nanos(i128::from(seconds) * NANOS_PER_SECOND)
}

fn of_nanos(nanos: i128) -> SignedDuration
    requires { IsDuration nanos }
    ensures { result ≡ nanos }
{
    SignedDuration::from_whole_nanoseconds(nanos).unwrap()
}
