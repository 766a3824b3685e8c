//! Rules of each year: the totals that they give, and when these may change.
ghost use Rattle.std.specs.Prelude.{◌≡◌, ℤ, pos, ◌-ℤ◌, ◌*ℤ◌, ◌≤ℤ◌, ◌<ℤ◌};
ghost use Rattle.basics.specs.Days.{day as day_at, IsCountedYear};
ghost use Rattle.civil_base.specs.Ranges.{IsOffset};
ghost use Rattle.tz_posix.specs.{InForce.{moments_in, year_at}, Yearly.{moments_shown, time_shown}};
ghost use Rattle.zone_tail.specs.Rules.{IsChange, IsNearYear, IsReach, IsSound, rule_total, time_of};

use civil_base::UtcOffset;
use tz_posix::Date;
use tz_posix::parts::{Moments, YearlyTime, counted_year_at};

/// When a change comes in each year.
#[derive(Clone, Copy, Debug, PartialEq, Eq)]
pub(crate) struct Change {
    /// From 1 to 12.
    pub(crate) month: u8,
    /// Which of the month's days with the weekday, from 1 on; the fifth is the last.
    pub(crate) week: u8,
    /// Sunday is 0.
    pub(crate) weekday: u8,
    /// The seconds from midnight.
    pub(crate) second: u32,
}

/// Daylight saving time in each year.
#[derive(Clone, Copy, Debug, PartialEq, Eq)]
pub(crate) struct YearlyRule {
    /// The seconds east of UTC in standard time.
    pub(crate) standard: i64,
    /// And those in daylight saving time.
    pub(crate) saving: i64,
    /// The start, by clocks of standard time.
    pub(crate) start: Change,
    /// The end, by clocks of daylight saving time.
    pub(crate) end: Change,
}

impl Change {
    /// When it comes in each year.
    fn time(&self) -> YearlyTime
        requires { IsChange self.now }
        ensures { time_shown result ≡ time_of self.now }
    {
        let date = Date::M {
            m: self.month,
            n: self.week,
            d: self.weekday,
        };
        YearlyTime::at(date, self.second as i32)
    }
}

impl YearlyRule {
    /// The year of the date at a second, by clocks of standard time.
    fn year_at(&self, second: i64) -> i32
        requires sound { IsSound self.now }
        requires reach { IsReach second }
        ensures year { result ≡ year_at self.now.standard second }
        ensures near { IsNearYear result }
    {
        counted_year_at(offset_of(self.standard), second)
    }

    /// The second at which a year begins, by clocks of standard time.
    #[tactic(auto, unfolding(tz_posix::specs::InForce::instant_in, tz_posix::specs::Days::rule_day))]
    fn first_second(&self, year: i32) -> i64
        requires standard { IsOffset self.now.standard }
        requires year { IsCountedYear year }
        ensures { result ≡ pos 86_400 *ℤ day_at year 1 1 -ℤ self.now.standard }
    {
        let begin = YearlyTime::at(Date::N(0), 0);
        begin.in_year(year, offset_of(self.standard))
    }

    /// The start and the end in a year.
    fn moments_in(&self, year: i32) -> Moments
        requires sound { IsSound self.now }
        requires year { IsCountedYear year }
        ensures { moments_shown result ≡ moments_in self.now.standard self.now.saving (time_of self.now.start) (time_of self.now.end) year }
    {
        let start = self.start.time().in_year(year, offset_of(self.standard));
        let end = self.end.time().in_year(year, offset_of(self.saving));
        Moments { start, end }
    }

    /// The total at a second.
    #[tactic(auto, unfolding(crate::specs::Rules::rule_total, tz_posix::specs::InForce::posix_total, tz_posix::specs::InForce::is_saving))]
    pub(crate) fn total(&self, second: i64) -> i64
        requires sound { IsSound self.now }
        requires reach { IsReach second }
        ensures { result ≡ rule_total self.now second }
    {
        let moments = self.moments_in(self.year_at(second));
        if moments.is_within(second) {
            self.saving
        } else {
            self.standard
        }
    }

    /// A later second up to which the total stays as it is.
    pub(crate) fn next_change(&self, second: i64) -> i64
        requires sound { IsSound self.now }
        requires reach { IsReach second }
        ensures later { second <ℤ result }
        ensures same { (t : ℤ) → second ≤ℤ t → t <ℤ result → rule_total self.now t ≡ rule_total self.now second }
    {
        let year = self.year_at(second);
        let next_year = self.first_second(year + 1);
        let moments = self.moments_in(year);
        sooner(
            second,
            moments.start,
            sooner(second, moments.end, next_year),
        )
    }
}

/// The offset of so many seconds.
#[tactic(auto, using(civil_base::specs::RangeLaws::ranges))]
fn offset_of(seconds: i64) -> UtcOffset
    requires { IsOffset seconds }
    ensures { result ≡ seconds }
{
    UtcOffset::from_whole_seconds(seconds as i32).unwrap()
}

/// The change where it comes after a second and before what comes next.
fn sooner(second: i64, change: i64, next: i64) -> i64
    requires later { second <ℤ next }
    ensures later { second <ℤ result }
    ensures next { result ≤ℤ next }
    ensures change { second <ℤ change → result ≤ℤ change }
{
    if second < change && change < next {
        change
    } else {
        next
    }
}
