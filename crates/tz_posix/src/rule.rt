//! Daylight saving time by a rule: whether it is in force at an instant.
ghost use Rattle.std.specs.{Prelude.{◌≡◌, ◌≤◌, ◌<◌, [], ◌∷◌, IsTrue, true, false, IfOk, None, MatchOption, unsigned_abs, pos, ◌+ℤ◌, ◌-ℤ◌, ◌*ℤ◌}, Int.{int_div_euclid}, Result.{result_err}};
ghost use Rattle.basics.specs.{Dates.{year_of}, Days.{IsCountedYear}};
ghost use Rattle.civil_base.specs.Ranges.{far_seconds, IsYear};
ghost use Rattle.tz_posix.specs.{Days.{day_refusal}, InForce.{instant_in, is_saving as is_saving_at, is_within as is_between, is_year, moment_of, moments_in, rule_refusal, year_at as year_in}, Ranges.{first_some, is_rule_date, rule_range}};

use crate::date::Date;
use crate::error::Error;
use crate::moments::Moments;
use crate::rule_time::RuleTime;
use crate::values::Rule;
use basics::date_of;
use civil_base::UtcOffset;

const SECONDS_PER_DAY: i64 = 86_400;

/// The seconds from midnight to 02:00:00, at which a change comes where the rule has no time.
const TWO_HOURS: i32 = 7_200;

/// -9999-01-01 00:00:00, and the end of 9999-12-31, in seconds from 1970-01-01 00:00:00.
const FIRST_SECOND: i64 = -4_371_587 * SECONDS_PER_DAY;

const END: i64 = 2_932_897 * SECONDS_PER_DAY;

/// A day of each year, and the seconds from its midnight, which may be below 0.
#[derive(Clone, Copy, Debug, PartialEq, Eq)]
pub struct YearlyTime {
    date: Date,
    seconds: i32,
    ghost named: { IsTrue (is_rule_date date) },
}

/// The start and the end of daylight saving time in each year.
#[derive(Clone, Copy, Debug, PartialEq, Eq)]
pub struct YearlyRule {
    pub(crate) start: YearlyTime,
    pub(crate) end: YearlyTime,
}

impl YearlyTime {
    ghost use Rattle.tz_posix.specs.Yearly.{time_shown};

    /// So many seconds from the midnight of a day that a rule may have, whose numbers are in their ranges.
    pub fn at(date: Date, seconds: i32) -> YearlyTime
        requires { IsTrue (is_rule_date date) }
        ensures { time_shown result ≡ (date, seconds) }
    {
        YearlyTime { date, seconds }
    }

    /// The day and the time of a rule's start or end.
    fn new<T: RuleTime>(moment: &(Date, Option<T>)) -> YearlyTime
        requires { IsTrue (is_rule_date moment.now.0) }
        ensures { time_shown result ≡ moment_of T.range moment.now }
    {
        let seconds = match &moment.1 {
            Some(time) => time.from_midnight(),
            None => TWO_HOURS,
        };
        YearlyTime::at(moment.0, seconds)
    }

    /// The second, from 1970-01-01 00:00:00 UTC, at which clocks at that offset show the time in a year of -10000 to 10000.
    #[tactic(auto, unfolding(crate::specs::InForce::instant_in))]
    pub fn in_year(&self, year: i32, offset: UtcOffset) -> i64
        requires { IsCountedYear year }
        ensures { result ≡ instant_in year offset (time_shown self.now) }
    {
        second_at(self.date.day_number(year), self.seconds, offset)
    }
}

impl YearlyRule {
    ghost use Rattle.tz_posix.specs.Yearly.{moments_shown, time_shown};

    /// The start and the end of a rule, whose numbers are in their ranges.
    pub fn new<T: RuleTime>(rule: &Rule<T>) -> YearlyRule
        requires { rule_range T.range rule.now ≡ None }
        ensures start { time_shown result.start ≡ moment_of T.range rule.now.start }
        ensures end { time_shown result.end ≡ moment_of T.range rule.now.end }
    {
        YearlyRule {
            start: YearlyTime::new(&rule.start),
            end: YearlyTime::new(&rule.end),
        }
    }

    /// The start and the end in a year of -10000 to 10000, where standard and daylight saving time have these offsets.
    pub fn moments_in(&self, year: i32, standard: UtcOffset, saving: UtcOffset) -> Moments
        requires { IsCountedYear year }
        ensures { moments_shown result ≡ moments_in standard saving (time_shown self.now.start) (time_shown self.now.end) year }
    {
        Moments {
            start: self.start.in_year(year, standard),
            end: self.end.in_year(year, saving),
        }
    }

    /// Whether daylight saving time is in force at a second, where it and standard time have these offsets. Refused are, in
    /// this order, a year of the date at the standard offset that dates don't have, the start's date in it and the end's.
    #[tactic(auto, unfolding(crate::specs::InForce::is_saving, crate::specs::InForce::rule_refusal))]
    pub(crate) fn is_saving(
        &self,
        standard: UtcOffset,
        saving: UtcOffset,
        second: i64,
    ) -> Result<bool, Error>
        requires { unsigned_abs second ≤ far_seconds }
        ensures refused { result_err result ≡ rule_refusal standard self.now.start.date self.now.end.date second }
        ensures value { IfOk result (λ holds.
            holds ≡ is_saving_at standard saving (time_shown self.now.start) (time_shown self.now.end) second) }
    {
        match year_at(standard, second) {
            Some(year) => self.is_saving_in(year, standard, saving, second),
            None => Err(Error::ComponentRange),
        }
    }

    /// The same by the start and the end in a year.
    fn is_saving_in(
        &self,
        year: i32,
        standard: UtcOffset,
        saving: UtcOffset,
        second: i64,
    ) -> Result<bool, Error>
        requires { IsYear year }
        ensures refused { result_err result ≡
            first_some (day_refusal self.now.start.date year ∷ day_refusal self.now.end.date year ∷ []) }
        ensures value { IfOk result (λ holds. holds ≡
            is_between (instant_in year standard (time_shown self.now.start)) (instant_in year saving (time_shown self.now.end)) second) }
    {
        self.start.date.check_in(year)?;
        self.end.date.check_in(year)?;
        let moments = self.moments_in(year, standard, saving);
        Ok(moments.is_within(second))
    }
}

/// The second at which clocks at that offset show so many seconds from the midnight of a day.
fn second_at(day: i32, seconds: i32, offset: UtcOffset) -> i64
    ensures { result ≡ pos 86_400 *ℤ day +ℤ seconds -ℤ offset }
{
    i64::from(day) * SECONDS_PER_DAY + i64::from(seconds) - i64::from(offset.whole_seconds())
}

/// The year of the date at a second, where clocks are that far ahead of UTC, if dates have it.
#[tactic(auto, unfolding(crate::specs::InForce::year_at))]
fn year_at(offset: UtcOffset, second: i64) -> Option<i32>
    requires { unsigned_abs second ≤ far_seconds }
    ensures { MatchOption result (is_year (year_in offset second) ≡ false)
        (λ year. (year ≡ year_in offset second) × (is_year year ≡ true)) }
{
    year_of_second(second + i64::from(offset.whole_seconds()))
}

/// The year of the date at a second from 1970-01-01 00:00:00 UTC, at most 800,000,000,000 in size, where clocks are that far ahead of
/// UTC; past the years of dates it is -10000 or 10000.
#[tactic(auto, unfolding(crate::specs::InForce::year_at))]
pub fn counted_year_at(offset: UtcOffset, second: i64) -> i32
    requires { unsigned_abs second ≤ 800_000_000_000 }
    ensures year { result ≡ year_in offset second }
    ensures counted { IsCountedYear result }
{
    counted_year(second + i64::from(offset.whole_seconds()))
}

/// The year of the date at a local second, or -10000 or 10000.
fn counted_year(second: i64) -> i32
    ensures year { result ≡ year_of (int_div_euclid second (pos 86_400)) }
    ensures counted { IsCountedYear result }
{
    if second < FIRST_SECOND {
        return -10_000;
    }
    if END <= second {
        return 10_000;
    }
    date_of(second.div_euclid(SECONDS_PER_DAY) as i32).year
}

/// The year of the date at a local second, if dates have it.
fn year_of_second(second: i64) -> Option<i32>
    ensures { MatchOption result (is_year (year_of (int_div_euclid second (pos 86_400))) ≡ false)
        (λ year. (year ≡ year_of (int_div_euclid second (pos 86_400))) × (is_year year ≡ true)) }
{
    if second < FIRST_SECOND || END <= second {
        return None;
    }
    Some(date_of(second.div_euclid(SECONDS_PER_DAY) as i32).year)
}
