//! Daylight saving time by a footer's rule: whether it is in force at a second.
ghost use Rattle.std.specs.Prelude.{◌≡◌, ◌≤◌, unsigned_abs, ℤ, pos, neg_ℤ, ◌*ℤ◌, ◌+ℤ◌, ◌-ℤ◌, ◌≤ℤ◌, ◌<ℤ◌};
ghost use Rattle.basics.specs.Days.{IsCountedYear, day as day_at};
ghost use Rattle.civil_base.specs.Ranges.{IsOffset};
ghost use Rattle.tz_tzif.specs.{FooterForce.{is_footer_saving, is_saved_since as since_by, saved_in}, Places.{IsAskedYear, StandsForYear}, Years.{HasDate}};
ghost use Rattle.tz_posix.specs.{InForce.{moments_in}, Yearly.{time_shown}};

use crate::moments::{has_begun, is_reversed, is_saved, next_of};
use civil_base::UtcOffset;
use tz_ever::cycle::days::{days_repeat, months_repeat, weekdays_repeat};
use tz_posix::Date;
use tz_posix::parts::{YearlyRule, YearlyTime, counted_year_at};

/// The first and the last year that are counted with the year after and the two years before.
const FIRST_YEAR: i32 = -9_998;

const LAST_YEAR: i32 = 9_999;

/// The years and the seconds after which the calendar comes again.
const CYCLE_YEARS: i32 = 400;

const CYCLE: i64 = 12_622_780_800;

/// A year that is asked in place of another, and the seconds from that to this one.
#[derive(Clone, Copy, Debug)]
struct Asked {
    year: i32,
    later: i64,
}

/// Whether daylight saving time is in force at a second, where it and standard time have these offsets. A start or an end may lie
/// past its year's edges, so the year after and the two before are looked at too.
#[tactic(auto, unfolding(crate::specs::FooterForce::is_footer_saving))]
pub(crate) fn is_saving(
    rule: &YearlyRule,
    standard: UtcOffset,
    saving: UtcOffset,
    second: i64,
) -> bool
    requires { unsigned_abs second ≤ 800_000_000_000 }
    ensures { result ≡ is_footer_saving standard saving (time_shown rule.now.start) (time_shown rule.now.end) second }
{
    let asked = asked_for(counted_year_at(standard, second));
    is_saving_in(rule, asked.year, standard, saving, second + asked.later)
}

/// The year itself; or, where not all the years beside it are counted, the same of the cycle before or after.
fn asked_for(year: i32) -> Asked
    requires { IsCountedYear year }
    ensures asked { IsAskedYear result.year }
    ensures later { unsigned_abs result.later ≤ 12_622_780_800 }
    ensures stands { StandsForYear year result.year result.later }
{
    days_repeat();
    weekdays_repeat();
    months_repeat();
    if year < FIRST_YEAR {
        return Asked {
            year: year + CYCLE_YEARS,
            later: CYCLE,
        };
    }
    if LAST_YEAR < year {
        return Asked {
            year: year - CYCLE_YEARS,
            later: -CYCLE,
        };
    }
    Asked { year, later: 0 }
}

/// Whether it is in force at a second by the rule in a year, in the year after and in the two before.
fn is_saving_in(
    rule: &YearlyRule,
    year: i32,
    standard: UtcOffset,
    saving: UtcOffset,
    second: i64,
) -> bool
    requires { IsAskedYear year }
    ensures { result ≡ saved_in (moments_in standard saving (time_shown rule.now.start) (time_shown rule.now.end)) year second }
{
    let after = rule.moments_in(year + 1, standard, saving);
    if has_begun(&after, second) {
        return is_saved(&after, second);
    }
    let here = rule.moments_in(year, standard, saving);
    if has_begun(&here, second) {
        return is_saved(&here, second);
    }
    is_saved_since(rule, year - 1, standard, saving, second)
}

/// Whether it is in force at a second before the year after a year has begun.
fn is_saved_since(
    rule: &YearlyRule,
    year: i32,
    standard: UtcOffset,
    saving: UtcOffset,
    second: i64,
) -> bool
    requires first { neg_ℤ (pos 10_000) <ℤ year }
    requires last { year ≤ℤ pos 10_000 }
    ensures { result ≡ since_by (moments_in standard saving (time_shown rule.now.start) (time_shown rule.now.end) year)
        (moments_in standard saving (time_shown rule.now.start) (time_shown rule.now.end) (year -ℤ pos 1)) second }
{
    let before = rule.moments_in(year, standard, saving);
    if has_begun(&before, second) {
        is_saved(&before, second)
    } else {
        is_reversed(&rule.moments_in(year - 1, standard, saving))
    }
}

/// A later second up to which daylight saving time is in force, or isn't, as at a second that has a date.
pub(crate) fn next_change(
    rule: &YearlyRule,
    standard: UtcOffset,
    saving: UtcOffset,
    second: i64,
) -> i64
    requires { HasDate second }
    ensures later { second <ℤ result }
    ensures same { (t : ℤ) → second ≤ℤ t → t <ℤ result
        → is_footer_saving standard saving (time_shown rule.now.start) (time_shown rule.now.end) t
        ≡ is_footer_saving standard saving (time_shown rule.now.start) (time_shown rule.now.end) second }
{
    let asked = asked_for(counted_year_at(standard, second));
    next_in(rule, asked.year, standard, saving, second + asked.later) - asked.later
}

/// A later second up to which the same follows from the rule in a year, in the year after and in the two before; it doesn't lie past the
/// year after's first.
fn next_in(rule: &YearlyRule, year: i32, standard: UtcOffset, saving: UtcOffset, second: i64) -> i64
    requires year { IsAskedYear year }
    requires early { IsOffset standard → second <ℤ (pos 86_400 *ℤ day_at (year +ℤ pos 1) 1 1 -ℤ standard) }
    ensures range { IsOffset standard }
    ensures later { second <ℤ result }
    ensures end { result ≤ℤ (pos 86_400 *ℤ day_at (year +ℤ pos 1) 1 1 -ℤ standard) }
    ensures same { (t : ℤ) → second ≤ℤ t → t <ℤ result
        → saved_in (moments_in standard saving (time_shown rule.now.start) (time_shown rule.now.end)) year t
        ≡ saved_in (moments_in standard saving (time_shown rule.now.start) (time_shown rule.now.end)) year second }
{
    let before = rule.moments_in(year - 1, standard, saving);
    let here = rule.moments_in(year, standard, saving);
    let after = rule.moments_in(year + 1, standard, saving);
    let next_year = first_second(year + 1, standard);
    let following = next_of(&after, second, next_year);
    let sooner = next_of(&here, second, following);
    next_of(&before, second, sooner)
}

/// The second at which a year begins, where clocks have that offset, which is in range.
#[tactic(auto, unfolding(tz_posix::specs::InForce::instant_in, tz_posix::specs::Days::rule_day))]
fn first_second(year: i32, offset: UtcOffset) -> i64
    requires { IsCountedYear year }
    ensures is { result ≡ pos 86_400 *ℤ day_at year 1 1 -ℤ offset }
    ensures range { IsOffset offset }
{
    let _in_range = offset.whole_seconds();
    let begin = YearlyTime::at(Date::N(0), 0);
    begin.in_year(year, offset)
}
