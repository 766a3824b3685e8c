//! Times of day and amounts of time, as the columns of a line write them.
ghost use Rattle.std.specs.Prelude.{◌≡◌, pos, neg_ℤ, ◌≤ℤ◌};
ghost use Rattle.zone_table.specs.Seconds.{seconds_of, with_type};

/// A time of day or an amount of time, as it was written. A negative one has each of its parts
/// negative, or zero.
#[derive(Clone, Copy, Debug, PartialEq)]
pub enum TimeSpec {
    /// Hours alone.
    Hours(i8),
    /// Hours and minutes.
    HoursMinutes(i8, i8),
    /// Hours, minutes and seconds.
    HoursMinutesSeconds(i8, i8, i8),
    /// A hyphen, which is no time at all.
    Zero,
}

/// The clock by which a time of day is meant.
#[derive(Clone, Copy, Debug, PartialEq)]
pub enum TimeType {
    /// Local time, with the saving in force.
    Wall,
    /// Local standard time.
    Standard,
    /// Universal time.
    UTC,
}

/// A time of day with its clock.
#[derive(Clone, Copy, Debug, PartialEq)]
pub struct TimeSpecAndType(pub TimeSpec, pub TimeType);

impl TimeSpec {
    /// The time in seconds: 3,600 for each hour and 60 for each minute. `Zero` is 0.
    pub fn as_seconds(self) -> i64
        ensures value { result ≡ seconds_of self }
        ensures least { neg_ℤ (pos 500_000) ≤ℤ result }
        ensures greatest { result ≤ℤ pos 500_000 }
    {
        match self {
            TimeSpec::Hours(hours) => hours as i64 * 3_600,
            TimeSpec::HoursMinutes(hours, minutes) => hours as i64 * 3_600 + minutes as i64 * 60,
            TimeSpec::HoursMinutesSeconds(hours, minutes, seconds) => {
                hours as i64 * 3_600 + minutes as i64 * 60 + seconds as i64
            }
            TimeSpec::Zero => 0,
        }
    }

    /// This time by that clock.
    pub fn with_type(self, timetype: TimeType) -> TimeSpecAndType
        ensures { result ≡ with_type self timetype }
    {
        TimeSpecAndType(self, timetype)
    }
}
