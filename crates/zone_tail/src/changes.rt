//! The changes of each year that come at a local second of the last year.
ghost use Rattle.std.specs.Prelude.{◌≡◌, ◌≤◌, pos, ◌<ℤ◌, ◌≤ℤ◌};
ghost use Rattle.basics.specs.Weekdays.{weekday_of};
ghost use Rattle.zone_tail.specs.{Changes.{changes_at, changes_shown, weeks, with_other}, LastYear.{year_begin, year_end}};

use crate::rule::Change;
use basics::{date_of, month_length, weekday};

const SECONDS_PER_DAY: i64 = 86_400;

/// One or two changes, that with the fifth week first.
#[derive(Clone, Copy, Debug, PartialEq, Eq)]
pub(crate) struct Changes {
    pub(crate) first: Change,
    pub(crate) other: Option<Change>,
}

/// The weeks by which a rule may name a day of a month of so many days.
fn weeks_of(length: u8, day: u8) -> (u8, Option<u8>)
    requires first { 1 ≤ day }
    requires last { day ≤ length }
    requires length { length ≤ 31 }
    ensures { with_other result.0 result.1 ≡ weeks length day }
{
    let counted = (day + 6) / 7;
    if day + 7 <= length {
        (counted, None)
    } else if counted <= 4 {
        (5, Some(counted))
    } else {
        (5, None)
    }
}

/// The changes that come at a local second of the last year.
#[tactic(auto, unfolding(crate::specs::Changes::changes_at))]
pub(crate) fn changes_at(local: i64) -> Changes
    requires begun { year_begin ≤ℤ local }
    requires not_over { local <ℤ year_end }
    ensures { changes_shown result ≡ changes_at local }
{
    let day = local.div_euclid(SECONDS_PER_DAY) as i32;
    let second = local.rem_euclid(SECONDS_PER_DAY) as u32;
    let date = date_of(day);
    let (week, other) = weeks_of(month_length(date.year, date.month), date.day);
    let first = change_of(day, date.month, second, week);
    let other = match other {
        Some(week) => Some(change_of(day, date.month, second, week)),
        None => None,
    };
    Changes { first, other }
}

fn change_of(day: i32, month: u8, second: u32, week: u8) -> Change
    ensures { result ≡ record { month = month; week = week; weekday = weekday_of day; second = second } }
{
    Change {
        month,
        week,
        weekday: weekday(day),
        second,
    }
}
