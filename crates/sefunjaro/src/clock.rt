//! Local times by their parts.
ghost use Rattle.std.specs.Prelude.{IsTrue};
ghost use Rattle.civil_base.specs.Ranges.{IsYear};

use civil_base::{Date, Month, PlainDateTime, Time};

/// A local date and a time of day, as a calendar and a clock show them.
#[derive(Clone, Copy, Debug, PartialEq, Eq)]
#[repr(C)]
pub struct Clock {
    /// The year, from -9999 to 9999. The year before 1 is 0.
    pub year: i32,
    /// The month, from 1 to 12.
    pub month: u8,
    /// The day of the month, from 1.
    pub day: u8,
    /// The hour, from 0 to 23.
    pub hour: u8,
    /// The minute, from 0 to 59.
    pub minute: u8,
    /// The second, from 0 to 59.
    pub second: u8,
    /// The nanosecond, from 0 to 999,999,999.
    pub nanosecond: u32,
}

impl Clock {
    ghost use Rattle.std.specs.Prelude.{◌≡◌, IfNone, IfSome, IsFalse, IsTrue};
    ghost use Rattle.sefunjaro.specs.Clocks.{clock_at, clock_shown, IsClock};

    /// What is shown on a date at a time of day.
    pub fn at(date: Date, time: Time) -> Clock
        ensures { result ≡ clock_at date time }
    {
        let (year, month, day) = date.to_calendar_date();
        let (hour, minute, second, nanosecond) = time.as_hms_nano();
        Clock {
            year,
            month: u8::from(month),
            day,
            hour,
            minute,
            second,
            nanosecond,
        }
    }

    /// The local time that is shown so, or none where no calendar and no clock shows these parts.
    pub fn local(self) -> Option<PlainDateTime>
        ensures some { IfSome result (λ local. IsClock self × (local ≡ clock_shown self)) }
        ensures none { IfNone result (IsClock self → ⊥) }
    {
        let date = self.date()?;
        let time = self.time()?;
        Some(PlainDateTime::new(date, time))
    }

    /// Whether a calendar and a clock show these parts.
    pub(crate) fn is_local(self) -> bool
        ensures yes { IsTrue result → IsClock self }
        ensures no { IsFalse result → IsClock self → ⊥ }
    {
        if self.is_in_each_month() {
            self.time().is_some()
        } else {
            self.local().is_some()
        }
    }
}

impl Clock {
    ghost use Rattle.std.specs.Prelude.{◌≡◌, IfNone, IfSome, IsTrue};
    ghost use Rattle.basics.specs.Days.{day as day_at, IsDate};
    ghost use Rattle.civil_base.specs.{Clock.{time_at, IsClockTime}, Ranges.{IsYear}};

    /// The date, if there is one.
    fn date(self) -> Option<Date>
        ensures some { IfSome result (λ date. (IsYear self.year × IsDate self.year self.month self.day) × (date ≡ day_at self.year self.month self.day)) }
        ensures none { IfNone result ((IsYear self.year × IsDate self.year self.month self.day) → ⊥) }
    {
        match Month::try_from(self.month) {
            Ok(month) => Date::from_calendar_date(self.year, month, self.day).ok(),
            Err(_) => None,
        }
    }

    /// The time of day, if there is one.
    fn time(self) -> Option<Time>
        ensures some { IfSome result (λ time. IsClockTime self.hour self.minute self.second self.nanosecond × (time ≡ time_at self.hour self.minute self.second self.nanosecond)) }
        ensures none { IfNone result (IsClockTime self.hour self.minute self.second self.nanosecond → ⊥) }
    {
        Time::from_hms_nano(self.hour, self.minute, self.second, self.nanosecond).ok()
    }

    /// Whether its date is one that each month has, which is told in less time.
    fn is_in_each_month(self) -> bool
        ensures { IsTrue result → IsYear self.year × IsDate self.year self.month self.day }
    {
        match (self.month, self.day) {
            (1..=12, 1..=28) => is_year(self.year),
            _ => false,
        }
    }
}

/// Whether a year is from -9999 to 9999.
fn is_year(year: i32) -> bool
    ensures { IsTrue result → IsYear year }
{
    -9999 <= year && year <= 9999
}
