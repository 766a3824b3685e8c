//! What the first years of a ruleset fire under an offset, cut by no end: it is the same for each line of them. Of the firings
//! before a line's start only the last one matters, so a summary of each year takes their place.
ghost use Rattle.std.specs.{Prelude.{◌≡◌, ◌+◌, ◌<◌, ◌≤◌, ◌≤ℤ◌, None, Some, ℤ, true, IfOk, IsTrue, length, int_le, pos}, List.{last_or, list_all}};
ghost use Rattle.zone_table.specs.LineBounds.{are_small_seconds};
ghost use Rattle.zone_spans.specs.{Bounds.{IsSound, IsSoundOver, is_end}, Fires.{StandFor}, Firings.{firings_of_years, line_firings_over}, Kept.{AreBelow, AreSummaries, IsLastSummary, IsLimit}, KeptFor.{IsFor, IsKept}, Lines.{is_ruled}, Quiet.{AppliesToNone}};
ghost use Rattle.zone_spans.specs.{Several.{AreAll}, Years.{years_limit}};

use crate::fault::years_before_all;
use crate::firing::{Firing, Firings};
use crate::several::{Serve, Several};
use crate::transitions::Line;
use crate::year::{EARLIEST_YEAR, line_end, years_over};
use std::alloc::{AllocError, Global};
use zone_table::{ChangeTime, RuleInfo};

/// What the years up to one fire, cut by no end: the saving after them, a second that none of their firings is after, and the
/// last of their firings.
#[derive(Drop)]
pub(crate) struct Summary<'a> {
    saving: i64,
    latest: i64,
    last: Option<Firing<'a>>,
}

impl<'a> Summary<'a> {
    /// A copy.
    fn copy(&self) -> Summary<'a>
        ensures { result ≡ self.now }
    {
        let last = match &self.last {
            Some(firing) => Some(firing.copy()),
            None => None,
        };
        Summary {
            saving: self.saving,
            latest: self.latest,
            last,
        }
    }
}

/// A second before which nothing is at or after the end, whatever the saving.
fn limit_of(end: Option<ChangeTime>, offset: i64) -> i64
    requires end { IsTrue (is_end end) }
    requires offset { IsTrue (are_small_seconds offset) }
    ensures { IsLimit end offset result }
{
    match end {
        Some(end) => line_end(&end, offset, 1_000_000),
        None => i64::MAX,
    }
}

/// A second that none of the firings is after, nor that second.
fn latest_of(second: i64, fired: &[Firing<'_>]) -> i64
    ensures firings { IsTrue (list_all (λ f. int_le f.time result) fired.now) }
    ensures second { second ≤ℤ result }
{
    let mut latest = second;
    for firing in fired {
        latest = latest.max(firing.time);
    }
    latest
}

/// The last of the firings, or else that one.
fn last_of<'a>(before: Option<Firing<'a>>, fired: &[Firing<'a>]) -> Option<Firing<'a>>
    ensures { result ≡ last_or before.entry fired.now }
{
    let mut last = before;
    for firing in fired {
        last = Some(firing.copy());
    }
    last
}

/// The last of the summaries, or the summary of no firings where there is none.
fn last_summary<'a>(summaries: &[Summary<'a>]) -> Summary<'a>
    ensures { IsLastSummary summaries.now result }
{
    if summaries.is_empty() {
        Summary {
            saving: 0,
            latest: i64::MIN,
            last: None,
        }
    } else {
        summaries[summaries.len() - 1].copy()
    }
}

/// How many of the first summaries have their firings before the second, so many at most.
fn count_below(summaries: &[Summary<'_>], second: i64, most: usize) -> usize
    ensures len { result ≤ length summaries.now }
    ensures most { result ≤ most }
    ensures below { AreBelow second result summaries.now }
{
    let count = most.min(summaries.len());
    for i in 0..count {
        let summary = &summaries[i];
        if summary.latest >= second {
            return i;
        }
    }
    count
}

/// A summary for each year after the first ones, in which no rule applies.
#[derive(Drop)]
pub(crate) struct Summaries<'a> {
    quiet: u16,
    years: Vec<Summary<'a>>,
}

impl<'a> Summaries<'a> {
    /// Adds that of one year more.
    fn add_year(
        &mut self,
        alloc: Global,
        firings: &mut Firings<'a>,
        line: &Line<'a>,
        count: u16,
    ) -> Result<(), AllocError>
        requires line { IsSound (count + 1) line.now }
        requires most { count < years_limit }
        requires count { count ≡ self.old.quiet + length self.old.years.items }
        requires are { AreSummaries line.now.info.offset line.now.rules self.old.quiet self.old.years.items }
        ensures are { IfOk result (λ _. AreSummaries line.now.info.offset line.now.rules self.new.quiet self.new.years.items) }
        ensures more { IfOk result (λ _. length self.new.years.items ≡ length self.old.years.items + 1) }
        ensures quiet { self.new.quiet ≡ self.old.quiet }
    {
        let summary = last_summary(self.years.as_slice());
        firings.restart(summary.saving);
        let year = i64::from(EARLIEST_YEAR + count);
        firings.fire_year(alloc, line, None, year)?;
        let latest = latest_of(summary.latest, firings.fired.as_slice());
        let last = last_of(summary.last, firings.fired.as_slice());
        self.years.push(Summary {
            saving: firings.saving,
            latest,
            last,
        })?;
        Ok(())
    }

    /// Adds those of further years, up to so many years, or to one that has a firing at or after the second.
    fn add_years(
        &mut self,
        alloc: Global,
        firings: &mut Firings<'a>,
        line: &Line<'a>,
        years: u16,
        second: i64,
    ) -> Result<(), AllocError>
        requires line { IsSound years line.now }
        requires years { years ≤ years_limit }
        requires are { AreSummaries line.now.info.offset line.now.rules self.old.quiet self.old.years.items }
        ensures are { IfOk result (λ _. AreSummaries line.now.info.offset line.now.rules self.new.quiet self.new.years.items) }
        ensures quiet { self.new.quiet ≡ self.old.quiet }
    {
        let first = self.quiet + self.years.as_slice().len() as u16;
        for count in first..years {
            if last_summary(self.years.as_slice()).latest >= second {
                break;
            }
            self.add_year(alloc, firings, line, count)?;
        }
        Ok(())
    }

    /// Puts into `firings` what stands for those of a line with that start: the last of the first years, as far as these are
    /// summed up and all before the start, and those of the years after them.
    fn fire_from(
        &mut self,
        alloc: Global,
        firings: &mut Firings<'a>,
        line: &Line<'a>,
        start: i64,
        years: u16,
    ) -> Result<(), AllocError>
        requires line { IsSound years line.now }
        requires years { years ≤ years_limit }
        requires quiet { self.old.quiet ≤ years }
        requires are { AreSummaries line.now.info.offset line.now.rules self.old.quiet self.old.years.items }
        ensures are { IfOk result (λ _. AreSummaries line.now.info.offset line.now.rules self.new.quiet self.new.years.items) }
        ensures stand { IfOk result (λ _. StandFor (Some start) firings.new
            (firings_of_years line.now.info.offset line.now.end line.now.rules years)) }
    {
        let second = start.min(limit_of(line.end, line.info.offset));
        self.add_years(alloc, firings, line, years, second)?;
        let summaries = self.years.as_slice();
        let count = count_below(summaries, second, usize::from(years - self.quiet));
        let summary = last_summary(&summaries[..count]);
        firings.begin(summary.last, summary.saving)?;
        firings.fire_years(alloc, line, self.quiet + count as u16, years)
    }
}

/// Puts into `firings` those of a line in so many years, from the first year on in which a rule applies.
fn fire_all<'a>(
    alloc: Global,
    firings: &mut Firings<'a>,
    line: &Line<'a>,
    quiet: u16,
    years: u16,
) -> Result<(), AllocError>
    requires line { IsSound years line.now }
    requires most { quiet ≤ years }
    requires years { years ≤ years_limit }
    requires quiet { AppliesToNone line.now.rules quiet }
    ensures { IfOk result (λ _. StandFor None firings.new
        (firings_of_years line.now.info.offset line.now.end line.now.rules years)) }
{
    firings.restart(0);
    firings.fire_years(alloc, line, quiet, years)
}

/// What a ruleset has fired under an offset after each year, as far as a line of them asked for it. Rules that differ late are told
/// apart by the ruleset's name, before they are compared.
#[derive(Drop)]
pub(crate) struct Kept<'a> {
    name: &'a str,
    rules: &'a [RuleInfo],
    offset: i64,
    summaries: Summaries<'a>,
}

impl<'a> Kept<'a> {
    /// Nothing is kept.
    pub(crate) fn new(alloc: Global) -> Kept<'a>
        ensures { IsKept result }
    {
        Kept {
            name: "",
            rules: &[],
            offset: 0,
            summaries: Summaries {
                quiet: 0,
                years: Vec::new(alloc),
            },
        }
    }

    /// Puts into `firings` what stands for those of a line with that start, which expands so many years and for which this is.
    fn fire(
        &mut self,
        alloc: Global,
        firings: &mut Firings<'a>,
        line: &Line<'a>,
        start: Option<i64>,
        years: u16,
    ) -> Result<(), AllocError>
        requires line { IsSound years line.now }
        requires years { years ≤ years_limit }
        requires serves { IsFor line.now years self.old }
        requires kept { IsKept self.old }
        ensures kept { IfOk result (λ _. IsKept self.new) }
        ensures stand { IfOk result (λ _. StandFor start firings.new
            (firings_of_years line.now.info.offset line.now.end line.now.rules years)) }
    {
        match start {
            Some(start) => self.summaries.fire_from(alloc, firings, line, start, years),
            None => fire_all(alloc, firings, line, self.summaries.quiet, years),
        }
    }
}

impl<'a> Serve<'a> for Kept<'a> {
    ghost Holds = { IsKept };

    ghost Suits = { IsFor };

    fn begin(alloc: Global, line: &Line<'a>, years: u16) -> Kept<'a> {
        Kept {
            name: line.ruleset_name(),
            rules: line.rules,
            offset: line.info.offset,
            summaries: Summaries {
                quiet: years_before_all(line.rules, years),
                years: Vec::new(alloc),
            },
        }
    }

    fn serves(&self, line: &Line<'_>, years: u16) -> bool {
        if self.offset != line.info.offset || self.summaries.quiet > years {
            return false;
        }
        if self.name != line.ruleset_name() {
            return false;
        }
        self.rules == line.rules
    }
}

/// Expands lines: what is kept of their rulesets, and what the last of them has fired.
#[derive(Drop)]
pub(crate) struct Expander<'a> {
    kept: Several<Kept<'a>>,
    pub(crate) firings: Firings<'a>,
}

impl<'a> Expander<'a> {
    /// Nothing is kept, and nothing has fired.
    pub(crate) fn new(alloc: Global) -> Expander<'a>
        ensures { AreAll IsKept result.kept }
    {
        Expander {
            kept: Several::new(alloc, Kept::new(alloc)),
            firings: Firings::new(alloc),
        }
    }

    /// Leaves what stands for the firings of a ruled line with that start over so many years.
    #[tactic(auto, unfolding(crate::specs::Firings::line_firings_over))]
    pub(crate) fn fire_line(
        &mut self,
        alloc: Global,
        line: &Line<'a>,
        start: Option<i64>,
        most: u16,
    ) -> Result<(), AllocError>
        requires line { IsSoundOver most line.now }
        requires most { most ≤ years_limit }
        requires ruled { is_ruled line.now.info.saving ≡ true }
        requires kept { AreAll IsKept self.old.kept }
        ensures kept { IfOk result (λ _. AreAll IsKept self.new.kept) }
        ensures stand { IfOk result (λ _. StandFor start self.new.firings (line_firings_over most line.now)) }
    {
        let years = years_over(most, line.end);
        self.kept.take_for(alloc, line, years)?;
        let kept = &mut self.kept.current;
        kept.fire(alloc, &mut self.firings, line, start, years)
    }
}
