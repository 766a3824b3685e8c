//! The times that a rule may have.
ghost use Rattle.std.specs.Prelude.{◌≡◌, ℕ, List, Option};
ghost use Rattle.tz_posix.specs.{Ranges.{is_time}, Reading.{AreRead, read_as}, Spells.{TimeRange}};

use crate::read::times::{offset, time};
use crate::time::{Offset, Time};

/// A time of a rule, as one kind of texts has it: a time of day in POSIX TZ strings, and in footers one with a sign or without.
pub trait RuleTime: Drop {
    /// How such times are written, and their range.
    ghost range: { TimeRange Self };

    /// The time at the front of a text, and the rest.
    ghost time_at: { List ℕ → Option (Self × List ℕ) };

    /// The time at the front of a text, and the rest; none where there is none. Its range isn't tested.
    fn at_front(text: &str) -> Option<(Self, &str)>
        ensures { read_as (λ time. time) result ≡ time_at text.now };

    /// Whether the time lies in its range.
    fn is_in_range(&self) -> bool
        ensures { result ≡ is_time range.hours (range.size self.now) };

    /// The seconds from midnight, below 0 after `-`.
    fn from_midnight(&self) -> i32
        ensures { result ≡ range.seconds self.now };

    /// What is written is read, and what is read is written.
    ghost reads: { AreRead range time_at };
}

/// From 0 to 23:59:59.
impl RuleTime for Time {
    ghost use Rattle.tz_posix.specs.{Reading.{clock_time_at}, Spells.{day_times}, TimeLaws.{day_times_read}};

    ghost range = { day_times };

    ghost time_at = { clock_time_at };

    ghost reads = { day_times_read };

    fn at_front(text: &str) -> Option<(Time, &str)> {
        time(text)
    }

    fn is_in_range(&self) -> bool {
        self.is_within(23)
    }

    fn from_midnight(&self) -> i32 {
        self.seconds() as i32
    }
}

/// From -167:59:59 to 167:59:59.
impl RuleTime for Offset {
    ghost use Rattle.tz_posix.specs.{Reading.{offset_at}, Spells.{signed_times}, TimeLaws.{signed_times_read}};

    ghost range = { signed_times };

    ghost time_at = { offset_at };

    ghost reads = { signed_times_read };

    fn at_front(text: &str) -> Option<(Offset, &str)> {
        offset(text)
    }

    fn is_in_range(&self) -> bool {
        self.time.is_within(167)
    }

    fn from_midnight(&self) -> i32 {
        self.to_seconds()
    }
}
