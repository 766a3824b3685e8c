//! The firings of a line, year by year.
ghost use Rattle.std.specs.{Prelude.{◌≡◌, ◌<◌, ◌≤◌, ◌-◌, ◌≤ℤ◌, pos, neg_ℤ, min, nat_abs, ℤ, IfOk, IsTrue, Option, Some}, List.{list_all}};
ghost use Rattle.zone_table.specs.LineBounds.{are_small_seconds};
ghost use Rattle.zone_spans.specs.{Bounds.{IsSound, can_fire, is_end}, Fires.{AreSmall, Fires, after}, Firings.{firings_of_years, is_over, year_firings, years_over}, Stands.{StandsFor}, Windows.{line_end}, Years.{earliest_year, years_limit}};

use crate::firing::Firings;
use crate::front::YearRules;
use crate::transitions::Line;
use std::alloc::{AllocError, Global};
use zone_table::{ChangeTime, instant_of};

/// The first year that a line expands.
pub const EARLIEST_YEAR: u16 = 1_800;

/// How many years a line expands at most: one without an end expands so many, and 2099 is the last of them.
pub const MOST_YEARS: u16 = 300;

/// How many years may be asked for in place of these: 2799 is the last of them.
pub const YEARS_LIMIT: u16 = 1_000;

/// When a line ends, under an offset and a saving.
#[tactic(auto, unfolding(crate::specs::Windows::line_end))]
pub(crate) fn line_end(end: &ChangeTime, offset: i64, saving: i64) -> i64
    requires end { IsTrue (is_end (Some end.now)) }
    requires offset { IsTrue (are_small_seconds offset) }
    requires saving { IsTrue (are_small_seconds saving) }
    ensures value { result ≡ line_end end.now offset saving }
    ensures least { neg_ℤ (pos 500_002_000_000) ≤ℤ result }
    ensures greatest { result ≤ℤ pos 500_002_000_000 }
{
    instant_of(end.time_type(), end.to_timestamp(), offset, saving)
}

/// Whether the time is at or after the line's end under the saving in force.
pub(crate) fn is_over(end: Option<ChangeTime>, offset: i64, saving: i64, time: i64) -> bool
    requires end { IsTrue (is_end end) }
    requires offset { IsTrue (are_small_seconds offset) }
    requires saving { IsTrue (are_small_seconds saving) }
    ensures { result ≡ is_over end offset saving time }
{
    match end {
        Some(end) => line_end(&end, offset, saving) <= time,
        None => false,
    }
}

/// How many of so many years from the earliest on a line expands: all of them, or those up to the year of its end.
#[tactic(auto, unfolding(crate::specs::Firings::years_over))]
pub(crate) fn years_over(most: u16, end: Option<ChangeTime>) -> u16
    requires most { most ≤ years_limit }
    requires end { IsTrue (is_end end) }
    ensures value { result ≡ years_over most end }
    ensures most { result ≤ years_limit }
{
    match end {
        Some(end) => years_to(most, end.year()),
        None => most,
    }
}

/// How many years there are from the earliest to that one, so many at most.
fn years_to(most: u16, year: i64) -> u16
    requires first { pos 1 ≤ℤ year }
    requires last { year ≤ℤ pos 9999 }
    ensures value { result ≡ min most (nat_abs year - (earliest_year - 1)) }
{
    let earliest = i64::from(EARLIEST_YEAR);
    if year < earliest {
        0
    } else if year < earliest + i64::from(most) {
        (year - earliest + 1) as u16
    } else {
        most
    }
}

impl<'a> Firings<'a> {
    /// Fires a year of a line under an end.
    #[tactic(auto, unfolding(crate::specs::Firings::year_firings))]
    pub(crate) fn fire_year(
        &mut self,
        alloc: Global,
        line: &Line<'a>,
        end: Option<ChangeTime>,
        year: i64,
    ) -> Result<(), AllocError>
        requires first_year { pos 1 ≤ℤ year }
        requires last_year { year ≤ℤ pos 9999 }
        requires rules { IsTrue (list_all (can_fire year) line.now.rules) }
        requires end { IsTrue (is_end end) }
        requires offset { IsTrue (are_small_seconds line.now.info.offset) }
        requires small { AreSmall self.old }
        ensures fired { IfOk result (λ _. Fires self.new
            (after self.old (year_firings year line.now.info.offset end self.old.saving line.now.rules))) }
        ensures small { IfOk result (λ _. AreSmall self.new) }
    {
        let rules = YearRules::new(alloc, line.rules, year)?;
        let mut fronts = rules.fronts();
        for i in 0..line.rules.len() {
            let Some(firing) = fronts.next(end, line.info.offset, self.saving) else {
                break;
            };
            self.saving = firing.rule.time_to_add;
            self.fired.push(firing)?;
        }
        Ok(())
    }

    /// Fires the years of a line up to so many, after the first ones. What stood for the firings of these stands for all.
    pub(crate) fn fire_years(
        &mut self,
        alloc: Global,
        line: &Line<'a>,
        first: u16,
        years: u16,
    ) -> Result<(), AllocError>
        requires line { IsSound years line.now }
        requires first { first ≤ years }
        requires years { years ≤ years_limit }
        requires saving { self.old.saving ≡ (firings_of_years line.now.info.offset line.now.end line.now.rules first).1 }
        requires small { AreSmall self.old }
        ensures stands { IfOk result (λ _. (start : Option ℤ)
            → StandsFor start self.old.fired.items (firings_of_years line.now.info.offset line.now.end line.now.rules first).0
            → StandsFor start self.new.fired.items (firings_of_years line.now.info.offset line.now.end line.now.rules years).0) }
        ensures saving { IfOk result (λ _. self.new.saving
            ≡ (firings_of_years line.now.info.offset line.now.end line.now.rules years).1) }
        ensures small { IfOk result (λ _. AreSmall self.new) }
    {
        for i in first..years {
            let year = i64::from(EARLIEST_YEAR + i);
            self.fire_year(alloc, line, line.end, year)?;
        }
        Ok(())
    }
}
