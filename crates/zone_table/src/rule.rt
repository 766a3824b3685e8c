//! Rules, and the moments at which they fire.
ghost use Rattle.std.specs.Prelude.{◌≡◌, pos, neg_ℤ, ◌≤ℤ◌, ◌+ℤ◌, ◌*ℤ◌, IfOk, IsTrue, option_map, ◌-ℤ◌};
ghost use Rattle.zone_table.specs.{LineBounds.{are_small_seconds}, Days.{has_day_of_month, is_in_year, named_day}, Values.{rule_value}, Moments.{is_number, has_last_year, has_years, is_at_most, is_at_least, applies_to_year, moment, instant_of}, Owned.{owned_rule}};

use crate::day::DaySpec;
use crate::month::Month;
use crate::time::TimeType;
use crate::year::Year;
use basics::Text;
use std::alloc::{AllocError, Global};

/// A rule of a ruleset.
#[derive(Debug, Drop, PartialEq)]
pub struct RuleInfo {
    /// The first year of the rule.
    pub from_year: Year,
    /// The last year of the rule, or none where the first is the only one.
    pub to_year: Option<Year>,
    /// The month in which the rule fires.
    pub month: Month,
    /// The day on which it fires.
    pub day: DaySpec,
    /// The time of day at which it fires, in seconds.
    pub time: i64,
    /// The clock that this time is read on.
    pub time_type: TimeType,
    /// The saving from then on, in seconds.
    pub time_to_add: i64,
    /// The letters of the abbreviation.
    pub letters: Option<Text>,
}

impl RuleInfo {
    /// The owned form of a rule: its times are seconds, and its name is not kept.
    ///
    /// # Errors
    ///
    /// Want of memory alone.
    pub fn from_line(alloc: Global, info: crate::line::Rule<'_>) -> Result<RuleInfo, AllocError>
        ensures { IfOk result (λ owned. owned ≡ owned_rule (rule_value info.entry)) }
    {
        Ok(RuleInfo {
            from_year: info.from_year,
            to_year: info.to_year,
            month: info.month,
            day: info.day,
            time: info.time.0.as_seconds(),
            time_type: info.time.1,
            time_to_add: info.time_to_add.as_seconds(),
            letters: owned_letters(alloc, info.letters)?,
        })
    }

    /// The letters of the abbreviation, or none where the rule has a `-` for them.
    pub fn letters(&self) -> Option<&str>
        ensures { option_map (λ text. text.now) result ≡ self.now.letters }
    {
        self.letters.as_ref().map(Text::as_str)
    }

    /// Whether the years of the rule can be compared with a year: the first is a number, and the
    /// last isn't `Minimum`.
    pub fn has_years(&self) -> bool
        ensures { result ≡ has_years self.now }
    {
        is_number(self.from_year) && has_last_year(self.to_year)
    }

    /// Whether the rule fires in a year: its first year is at most that one, and its last at least.
    /// A rule with no last year of its own fires in its first year alone. The rule's years
    /// [can be compared](RuleInfo::has_years) with one.
    #[tactic(auto, unfolding(crate::specs::Moments::applies_to_year, crate::specs::Moments::last_year))]
    pub fn applies_to_year(&self, year: i64) -> bool
        requires { IsTrue (has_years self.now) }
        ensures { result ≡ applies_to_year self.now year }
    {
        let last = self.to_year.unwrap_or(self.from_year);
        is_at_most(self.from_year, year) && is_at_least(last, year)
    }

    /// When the rule fires in a year, in seconds from 1970-01-01 00:00 UTC, under a standard offset
    /// and a saving in force before it, both in seconds. A wall time is read with both, a standard
    /// time with the offset alone, and a time of UTC with neither. The year is from 1 to 9999 and
    /// has the rule's day, a day number is from 1 to 31, and the time of day, the offset and the
    /// saving are at most 1,000,000 in size.
    #[tactic(auto, unfolding(crate::specs::Moments::moment))]
    pub fn absolute_datetime(&self, year: i64, utc_offset: i64, dst_offset: i64) -> i64
        requires first_year { pos 1 ≤ℤ year }
        requires last_year { year ≤ℤ pos 9999 }
        requires number { IsTrue (has_day_of_month self.now.day) }
        requires in_year { IsTrue (is_in_year (named_day self.now.day year self.now.month) year) }
        requires time { IsTrue (are_small_seconds self.now.time) }
        requires offset { IsTrue (are_small_seconds utc_offset) }
        requires saving { IsTrue (are_small_seconds dst_offset) }
        ensures value { result ≡ moment self.now year utc_offset dst_offset }
        ensures least { neg_ℤ (pos 500_000_000_000) ≤ℤ result }
        ensures greatest { result ≤ℤ pos 500_000_000_000 }
    {
        let local = after_days(self.day.day_number(year, self.month), self.time);
        instant_of(self.time_type, local, utc_offset, dst_offset)
    }
}

/// Whether the year is a number.
fn is_number(year: Year) -> bool
    ensures { result ≡ is_number year }
{
    match year {
        Year::Number(_) => true,
        Year::Minimum | Year::Maximum => false,
    }
}

/// Whether the last year of a rule isn't the first of all years.
fn has_last_year(year: Option<Year>) -> bool
    ensures { result ≡ has_last_year year }
{
    match year {
        Some(Year::Minimum) => false,
        Some(Year::Number(_) | Year::Maximum) | None => true,
    }
}

/// Whether the first year is at most the second.
fn is_at_most(first: Year, year: i64) -> bool
    ensures { result ≡ is_at_most first year }
{
    match first {
        Year::Minimum => true,
        Year::Number(first) => first <= year,
        Year::Maximum => false,
    }
}

/// Whether the first year is at least the second.
fn is_at_least(last: Year, year: i64) -> bool
    ensures { result ≡ is_at_least last year }
{
    match last {
        Year::Minimum => false,
        Year::Number(last) => year <= last,
        Year::Maximum => true,
    }
}

/// The letters, owned.
fn owned_letters(alloc: Global, letters: Option<&str>) -> Result<Option<Text>, AllocError>
    ensures { IfOk result (λ owned. owned ≡ option_map (λ text. text.now) letters.entry) }
{
    match letters {
        Some(letters) => Ok(Some(Text::new(alloc, letters)?)),
        None => Ok(None),
    }
}

/// The instant at which a clock shows a local time, in seconds from 1970-01-01 00:00 UTC.
///
/// The local time is in seconds from 1970-01-01 00:00 of that clock, at most 500,000,000,000 in size. The standard offset
/// and the saving in force are in seconds, at most 1,000,000 in size each. The clock of the wall is ahead of UTC by both,
/// that of standard time by the offset alone, and that of UTC by neither, as the zic manual says of the suffixes of times.
#[tactic(auto, unfolding(crate::specs::Moments::instant_of))]
pub fn instant_of(mark: TimeType, local: i64, utc_offset: i64, dst_offset: i64) -> i64
    requires first { neg_ℤ (pos 500_000_000_000) ≤ℤ local }
    requires last { local ≤ℤ pos 500_000_000_000 }
    requires offset { IsTrue (are_small_seconds utc_offset) }
    requires saving { IsTrue (are_small_seconds dst_offset) }
    ensures value { result ≡ instant_of mark local utc_offset dst_offset }
    ensures least { neg_ℤ (pos 500_002_000_000) ≤ℤ result }
    ensures greatest { result ≤ℤ pos 500_002_000_000 }
    ensures earliest { (local -ℤ pos 2_000_000) ≤ℤ result }
    ensures latest { result ≤ℤ (local +ℤ pos 2_000_000) }
{
    match mark {
        TimeType::UTC => local,
        TimeType::Standard => local - utc_offset,
        TimeType::Wall => local - (utc_offset + dst_offset),
    }
}

/// The seconds to a time of a day from 0:00 of the day 0.
pub(crate) fn after_days(day: i32, time: i64) -> i64
    requires first_day { neg_ℤ (pos 5_000_000) ≤ℤ day }
    requires last_day { day ≤ℤ pos 5_000_000 }
    requires time { IsTrue (are_small_seconds time) }
    ensures value { result ≡ pos 86400 *ℤ day +ℤ time }
    ensures least { neg_ℤ (pos 432_001_000_000) ≤ℤ result }
    ensures greatest { result ≤ℤ pos 432_001_000_000 }
{
    86_400 * i64::from(day) + time
}
