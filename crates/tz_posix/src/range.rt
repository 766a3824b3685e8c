//! The ranges of a value's parts.
ghost use Rattle.std.specs.{Prelude.{◌≡◌, [], ◌∷◌, option_and_then}, Result.{result_err}};
ghost use Rattle.tz_posix.specs.{Ranges.{first_some, offset_miss, rule_time_miss, date_miss, rule_range, posix_range}, Spells.{day_times}, Shown.{tz_shown}};

use crate::date::Date;
use crate::error::RangeError;
use crate::rule_time::RuleTime;
use crate::time::Offset;
use crate::values::{Rule, Tz};

/// The first miss of a value's ranges: of the standard offset, that of daylight saving time, both dates, the start's time
/// and the end's.
#[tactic(auto, unfolding(crate::specs::Ranges::first_miss))]
pub(crate) fn check(tz: &Tz<'_>) -> Result<(), RangeError>
    ensures { result_err result ≡ posix_range (tz_shown tz.now) }
{
    match tz {
        Tz::Short(_) => Ok(()),
        Tz::Expanded { std, dst } => {
            check_offset(&std.offset)?;
            match dst {
                Some(dst) => check_dst(&dst.offset, &dst.rule),
                None => Ok(()),
            }
        }
    }
}

fn check_dst(offset: &Option<Offset>, rule: &Option<Rule>) -> Result<(), RangeError>
    ensures { result_err result ≡ first_some (option_and_then offset_miss offset.now ∷ option_and_then (rule_range day_times) rule.now ∷ []) }
{
    check_own_offset(offset)?;
    check_own_rule(rule)
}

/// Tests the range of an offset, where one is written.
///
/// # Errors
///
/// As of [`check_offset`].
pub fn check_own_offset(offset: &Option<Offset>) -> Result<(), RangeError>
    ensures { result_err result ≡ option_and_then offset_miss offset.now }
{
    match offset {
        Some(offset) => check_offset(offset),
        None => Ok(()),
    }
}

fn check_own_rule(rule: &Option<Rule>) -> Result<(), RangeError>
    ensures { result_err result ≡ option_and_then (rule_range day_times) rule.now }
{
    match rule {
        Some(rule) => check_rule(rule),
        None => Ok(()),
    }
}

/// Tests the ranges of a rule, in this order: the start's date and the end's, the start's time and the end's.
///
/// # Errors
///
/// The first that is missed: `Date` where a day is not from J1 to J365, from 0 to 365, or of months 1 to 12, weeks 1 to 5 and weekdays 0
/// to 6; `Time` where a time is out of the range of its kind, as past 23:59:59 in a POSIX string.
pub fn check_rule<T: RuleTime>(rule: &Rule<T>) -> Result<(), RangeError>
    ensures { result_err result ≡ rule_range T.range rule.now }
{
    check_date(rule.start.0)?;
    check_date(rule.end.0)?;
    check_rule_time(&rule.start.1)?;
    check_rule_time(&rule.end.1)
}

/// Tests the range of an offset.
///
/// # Errors
///
/// `Time` exactly where its hours are past 24, or its minutes or seconds past 59.
pub fn check_offset(offset: &Offset) -> Result<(), RangeError>
    ensures { result_err result ≡ offset_miss offset.now }
{
    if offset.time.is_within(24) {
        Ok(())
    } else {
        Err(RangeError::Time)
    }
}

fn check_rule_time<T: RuleTime>(time: &Option<T>) -> Result<(), RangeError>
    ensures { result_err result ≡ rule_time_miss T.range time.now }
{
    match time {
        Some(time) if time.is_in_range() => Ok(()),
        Some(_) => Err(RangeError::Time),
        None => Ok(()),
    }
}

fn check_date(date: Date) -> Result<(), RangeError>
    ensures { result_err result ≡ date_miss date }
{
    if date.is_in_range() {
        Ok(())
    } else {
        Err(RangeError::Date)
    }
}
