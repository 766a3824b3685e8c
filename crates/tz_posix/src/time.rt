//! Times of day and offsets, as a text writes them.
ghost use Rattle.std.specs.{Prelude.{◌≡◌, ◌<◌, None, option_and_then, pos, ◌+ℤ◌}, Option.{option_map_or}};
ghost use Rattle.civil_base.specs.{Clock.{time_at, IsClockTime}, Ranges.{IsOffset}};
ghost use Rattle.tz_posix.specs.{Ranges.{offset_miss}, Seconds.{east_of, part, IsWritten}};

use civil_base::UtcOffset;

/// A time of day, or the size of an offset: hours, and minutes and seconds where they are written.
#[derive(Clone, Debug, Drop, PartialEq, Eq)]
pub struct Time {
    /// The hours.
    pub hh: u8,
    /// The minutes of the hour.
    pub mm: Option<u8>,
    /// The seconds of the minute.
    pub ss: Option<u8>,
}

/// How far local time lies from UTC. A positive offset lies west of it.
#[derive(Clone, Debug, Drop, PartialEq, Eq)]
pub struct Offset {
    /// False exactly after `-`.
    pub positive: bool,
    /// How far.
    pub time: Time,
}

impl Time {
    ghost use Rattle.tz_posix.specs.{Ranges.{is_time}, Seconds.{time_seconds}};

    /// The time of day. Minutes and seconds that are not written are 0. The hour is at most 23, a minute and a second at
    /// most 59.
    pub fn to_time(&self) -> civil_base::Time
        requires { IsClockTime self.now.hh (part self.now.mm) (part self.now.ss) 0 }
        ensures { result ≡ time_at self.now.hh (part self.now.mm) (part self.now.ss) 0 }
    {
        civil_base::Time::from_hms(self.hh, self.minute(), self.second()).unwrap()
    }

    /// The seconds from midnight, or of the size of an offset.
    #[tactic(auto, unfolding(crate::specs::Seconds::time_seconds))]
    pub(crate) fn seconds(&self) -> u32
        ensures value { result ≡ time_seconds self.now }
        ensures bound { result < 1_000_000 }
    {
        (u32::from(self.hh) * 60 + u32::from(self.minute())) * 60 + u32::from(self.second())
    }

    /// Whether there are at most so many hours, and minutes and seconds of a clock.
    pub fn is_within(&self, hours: u8) -> bool
        ensures { result ≡ is_time hours self.now }
    {
        self.hh <= hours && self.minute() <= 59 && self.second() <= 59
    }

    fn minute(&self) -> u8
        ensures { result ≡ part self.now.mm }
    {
        self.mm.unwrap_or(0)
    }

    fn second(&self) -> u8
        ensures { result ≡ part self.now.ss }
    {
        self.ss.unwrap_or(0)
    }
}

impl Offset {
    ghost use Rattle.tz_posix.specs.Seconds.{offset_seconds};

    /// The seconds west of UTC: negative where the offset is not positive.
    #[tactic(auto, unfolding(crate::specs::Seconds::offset_seconds))]
    pub fn to_seconds(&self) -> i32
        ensures { result ≡ offset_seconds self.now }
    {
        let seconds = self.time.seconds() as i32;
        if self.positive { seconds } else { -seconds }
    }

    /// The offset from UTC, which lies east of it where this one is negative. Its numbers are in their ranges.
    pub fn to_utc_offset(&self) -> UtcOffset
        requires { offset_miss self.now ≡ None }
        ensures value { result ≡ east_of self.now }
        ensures bound { IsWritten result }
    {
        offset_of(-self.to_seconds())
    }
}

/// The offset of so many seconds.
pub(crate) fn offset_of(seconds: i32) -> UtcOffset
    requires { IsOffset seconds }
    ensures { result ≡ seconds }
{
    UtcOffset::from_whole_seconds(seconds).unwrap()
}

/// The offset of daylight saving time: an hour ahead of standard time where it has none of its own. Both offsets are less than 25 hours in
/// size.
pub fn saving_offset(own: &Option<Offset>, standard: UtcOffset) -> UtcOffset
    requires own { option_and_then offset_miss own.now ≡ None }
    requires standard { IsWritten standard }
    ensures { result ≡ option_map_or east_of own.now (standard +ℤ pos 3600) }
{
    match own {
        Some(offset) => offset.to_utc_offset(),
        None => offset_of(standard.whole_seconds() + 3600),
    }
}
