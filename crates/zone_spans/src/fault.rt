//! What keeps a zone from having a schedule, and how it is tested.
ghost use Rattle.std.specs.{Prelude.{◌≡◌, ◌≤◌, IfOk, IsTrue, false, is_none, ℕ, ◌+◌, ◌<◌, ◌<ℤ◌, ◌∷◌, [], pos, ◌≤ℤ◌, true}, List.{list_all, list_any}, Option.{option_map_or}};
ghost use Rattle.zone_table.specs.{Moments.{has_years}, Bounds.{is_bounded_rule}, Days.{has_day_of_month}, Ends.{end_day, end_year, is_dated_year}};
ghost use Rattle.zone_spans.specs.{Bounds.{is_bounded_line}, Faults.{all_but_last, lacks_years, line_fault, ends_in_no_year, leaves_year_over, ends_outside, is_outside, some_year}, Years.{years_limit, earliest_year}, Quiet.{AppliesToNone}, Several.{AreAll}};
ghost use Rattle.zone_spans.specs.{Tested.{NoneLeaves}, TestedFor.{HasRulesOf, IsTested}};

use crate::several::{Serve, Several};
use crate::transitions::Line;
use crate::year::{EARLIEST_YEAR, years_over};
use std::alloc::{AllocError, Global};
use zone_table::{ChangeTime, RuleInfo, Year, ZoneInfo};

/// Why a zone has no schedule. Over the whole zone the first of these that is met comes.
#[derive(Clone, Copy, Debug, PartialEq, Eq)]
pub enum SpanFault {
    /// A line names a ruleset that isn't there.
    UnknownRuleset,
    /// A line other than the last has no end.
    MissingUntil,
    /// The end year of a line other than the last isn't a number from 1 to 9999.
    YearRange,
    /// A ruleset that the zone names has a rule whose first year is no number, or whose last is `Minimum`.
    RuleYears,
    /// The day of an end before the last line, or of a rule in a year where a line expands it, lies in another year.
    DayRange,
    /// The first line is ruled, or there is no line, and no entry has no saving.
    NoStandardSpan,
    /// There was no memory.
    NoMemory,
}

impl From<AllocError> for SpanFault {
    ghost use Rattle.std.specs.Prelude.{◌≡◌};
    ghost use Rattle.zone_spans.specs.declared.fault.SpanFault.TheVariants.{NoMemory};

    ghost from_gives = { λ _ fault. fault ≡ NoMemory };

    fn from(_: AllocError) -> SpanFault {
        SpanFault::NoMemory
    }
}

impl SpanFault {
    ghost use Rattle.std.specs.Prelude.{◌≡◌, ◌≤◌, length};
    ghost use Rattle.zone_spans.specs.FaultNames.{fault_name};

    /// The name of the variant.
    pub fn name(self) -> &'static str
        ensures name { result.now ≡ fault_name self }
        ensures short { length result.now ≤ 14 }
    {
        match self {
            SpanFault::UnknownRuleset => "UnknownRuleset",
            SpanFault::MissingUntil => "MissingUntil",
            SpanFault::YearRange => "YearRange",
            SpanFault::RuleYears => "RuleYears",
            SpanFault::DayRange => "DayRange",
            SpanFault::NoStandardSpan => "NoStandardSpan",
            SpanFault::NoMemory => "NoMemory",
        }
    }
}

/// The first fault that keeps known lines from being expanded over so many years.
#[tactic(auto, unfolding(crate::specs::Faults::line_fault))]
pub(crate) fn line_fault(
    alloc: Global,
    infos: &[ZoneInfo],
    lines: &[Line<'_>],
    most: u16,
) -> Result<Option<SpanFault>, AllocError>
    requires bounded { IsTrue (list_all is_bounded_line lines.now) }
    requires most { most ≤ years_limit }
    ensures { IfOk result (λ fault. fault ≡ line_fault most infos.now lines.now) }
{
    if misses_end(infos) {
        return Ok(Some(SpanFault::MissingUntil));
    }
    if some_ends_in_no_year(lines) {
        return Ok(Some(SpanFault::YearRange));
    }
    if some_lacks_years(lines) {
        return Ok(Some(SpanFault::RuleYears));
    }
    if some_leaves_year(alloc, lines, most)? {
        return Ok(Some(SpanFault::DayRange));
    }
    Ok(None)
}

/// Whether a line other than the last has no end.
fn misses_end(lines: &[ZoneInfo]) -> bool
    ensures { result ≡ list_any (λ info. is_none info.end_time) (all_but_last lines.now) }
{
    match lines.split_last() {
        Some((_, others)) => some_has_no_end(others),
        None => false,
    }
}

fn some_has_no_end(lines: &[ZoneInfo]) -> bool
    ensures { result ≡ list_any (λ info. is_none info.end_time) lines.now }
{
    lines.iter().any(has_no_end)
}

fn has_no_end(line: &ZoneInfo) -> bool
    ensures { result ≡ is_none line.now.end_time }
{
    line.end_time.is_none()
}

fn some_ends_in_no_year(lines: &[Line<'_>]) -> bool
    ensures { result ≡ list_any ends_in_no_year lines.now }
{
    lines.iter().any(ends_in_no_year)
}

fn some_lacks_years(lines: &[Line<'_>]) -> bool
    ensures { result ≡ list_any lacks_years lines.now }
{
    lines.iter().any(lacks_years)
}

fn some_leaves_year<'a>(alloc: Global, lines: &[Line<'a>], most: u16) -> Result<bool, AllocError>
    requires most { most ≤ years_limit }
    requires bounded { IsTrue (list_all is_bounded_line lines.now) }
    requires year { list_any ends_in_no_year lines.now ≡ false }
    requires years { list_any lacks_years lines.now ≡ false }
    ensures { IfOk result (λ leaves. leaves ≡ list_any (leaves_year_over most) lines.now) }
{
    let mut tested = Several::new(alloc, Tested::new("", &[]));
    for line in lines {
        if leaves_year(&mut tested, alloc, line, most)? {
            return Ok(true);
        }
    }
    Ok(false)
}

/// Whether a line's end is in no year from 1 to 9999.
fn ends_in_no_year(line: &Line<'_>) -> bool
    ensures { result ≡ ends_in_no_year line.now }
{
    match line.end {
        Some(end) => !end.has_year(),
        None => false,
    }
}

/// Whether a rule of the line has years that can't be compared.
fn lacks_years(line: &Line<'_>) -> bool
    ensures { result ≡ lacks_years line.now }
{
    !have_years(line.rules)
}

fn have_years(rules: &[RuleInfo]) -> bool
    ensures { result ≡ list_all has_years rules.now }
{
    rules.iter().all(RuleInfo::has_years)
}

/// How many of the first years from the earliest on, up to a number of them, come before the first of each rule.
pub(crate) fn years_before_all(rules: &[RuleInfo], most: u16) -> u16
    requires { most ≤ years_limit }
    ensures before { AppliesToNone rules.now result }
    ensures most { result ≤ most }
{
    let mut count = most;
    for rule in rules {
        count = years_before(rule, count);
    }
    count
}

/// How many of the first years from the earliest on, up to a number of them, come before the rule's first.
pub(crate) fn years_before(rule: &RuleInfo, most: u16) -> u16
    requires { most ≤ years_limit }
    ensures before { AppliesToNone (rule.now ∷ []) result }
    ensures most { result ≤ most }
{
    match rule.from_year {
        Year::Number(first) => years_until(first, most),
        Year::Minimum | Year::Maximum => 0,
    }
}

/// How many of the first years from the earliest on, up to a number of them, come before that year.
fn years_until(year: i64, most: u16) -> u16
    requires { most ≤ years_limit }
    ensures before { (i : ℕ) → i < result → pos (earliest_year + i) <ℤ year }
    ensures most { result ≤ most }
{
    let earliest = i64::from(EARLIEST_YEAR);
    if year <= earliest {
        return 0;
    }
    if year >= earliest + i64::from(most) {
        return most;
    }
    (year - earliest) as u16
}

/// A ruleset, and how many of the first years from the earliest on are tested: in these no day of the rules lies in another year.
#[derive(Drop)]
pub(crate) struct Tested<'a> {
    name: &'a str,
    rules: &'a [RuleInfo],
    years: u16,
}

impl<'a> Tested<'a> {
    /// Nothing is tested.
    pub(crate) fn new(name: &'a str, rules: &'a [RuleInfo]) -> Tested<'a>
        ensures tested { IsTested result }
        ensures rules { result.rules.now ≡ rules.now }
    {
        Tested {
            name,
            rules,
            years: 0,
        }
    }

    /// Whether the day of a rule lies in another year, in one of so many years from the earliest on.
    pub(crate) fn leaves_year(&mut self, years: u16) -> bool
        requires bounded { IsTrue (list_all is_bounded_rule self.old.rules.now) }
        requires years { IsTrue (list_all has_years self.old.rules.now) }
        requires most { years ≤ years_limit }
        requires tested { IsTested self.old }
        ensures value { result ≡ list_any (λ rule. some_year (is_outside rule) years) self.old.rules.now }
        ensures tested { IsTested self.new }
    {
        if years <= self.years {
            return false;
        }
        if any_outside(self.rules, self.years, years) {
            return true;
        }
        self.years = years;
        false
    }
}

impl<'a> Serve<'a> for Tested<'a> {
    ghost Holds = { IsTested };

    ghost Suits = { HasRulesOf };

    fn begin(_alloc: Global, line: &Line<'a>, _years: u16) -> Tested<'a> {
        Tested::new(line.ruleset_name(), line.rules)
    }

    fn serves(&self, line: &Line<'_>, _years: u16) -> bool {
        if self.name != line.ruleset_name() {
            return false;
        }
        self.rules == line.rules
    }
}

/// Whether the day of the line's end lies in another year, or that of a rule in one of so many years that the line expands.
#[tactic(auto, unfolding(crate::specs::Faults::leaves_year_over))]
pub(crate) fn leaves_year<'a>(
    tested: &mut Several<Tested<'a>>,
    alloc: Global,
    line: &Line<'a>,
    most: u16,
) -> Result<bool, AllocError>
    requires most { most ≤ years_limit }
    requires bounded { IsTrue (is_bounded_line line.now) }
    requires year { ends_in_no_year line.now ≡ false }
    requires years { lacks_years line.now ≡ false }
    requires tested { AreAll IsTested tested.old }
    ensures value { IfOk result (λ leaves. leaves ≡ leaves_year_over most line.now) }
    ensures tested { IfOk result (λ _. AreAll IsTested tested.new) }
{
    if ends_outside(line.end) {
        return Ok(true);
    }
    let years = years_over(most, line.end);
    tested.take_for(alloc, line, years)?;
    let leaves = tested.current.leaves_year(years);
    Ok(leaves)
}

/// Whether the day of an end lies in another year than the end's.
fn ends_outside(end: Option<ChangeTime>) -> bool
    requires year { IsTrue (option_map_or (λ e. is_dated_year (end_year e)) end true) }
    requires day { IsTrue (option_map_or (λ e. has_day_of_month (end_day e)) end true) }
    ensures { result ≡ option_map_or ends_outside end false }
{
    match end {
        Some(end) => !end.lies_in_its_year(),
        None => false,
    }
}

/// Whether some rule's day lies in another year, in one of the first years from the earliest on to which it applies. Of these the
/// tested ones come first.
fn any_outside(rules: &[RuleInfo], tested: u16, count: u16) -> bool
    requires bounded { IsTrue (list_all is_bounded_rule rules.now) }
    requires years { IsTrue (list_all has_years rules.now) }
    requires tested { NoneLeaves rules.now tested }
    requires more { tested ≤ count }
    requires most { count ≤ years_limit }
    ensures { result ≡ list_any (λ rule. some_year (is_outside rule) count) rules.now }
{
    for rule in rules {
        if is_outside_in_some_year(rule, tested, count) {
            return true;
        }
    }
    false
}

/// Whether the rule's day lies in another year, in one of the first years from the earliest on to which it applies. Of these the
/// tested ones come first.
fn is_outside_in_some_year(rule: &RuleInfo, tested: u16, count: u16) -> bool
    requires bounded { IsTrue (is_bounded_rule rule.now) }
    requires years { IsTrue (has_years rule.now) }
    requires tested { some_year (is_outside rule.now) tested ≡ false }
    requires more { tested ≤ count }
    requires most { count ≤ years_limit }
    ensures { result ≡ some_year (is_outside rule.now) count }
{
    let first = first_untested(rule, tested, count);
    for i in first..count {
        if is_outside(rule, i64::from(EARLIEST_YEAR + i)) {
            return true;
        }
    }
    false
}

/// The first year that is to be tested for a rule, counted from the earliest on: those before it are tested or come before the rule's
/// own.
fn first_untested(rule: &RuleInfo, tested: u16, count: u16) -> u16
    requires tested { some_year (is_outside rule.now) tested ≡ false }
    requires more { tested ≤ count }
    requires most { count ≤ years_limit }
    ensures tested { some_year (is_outside rule.now) result ≡ false }
    ensures most { result ≤ count }
{
    let quiet = years_before(rule, count);
    if quiet < tested {
        return tested;
    }
    quiet
}

/// Whether the rule applies to the year, and its day lies in another.
#[tactic(auto, unfolding(crate::specs::Faults::is_outside))]
fn is_outside(rule: &RuleInfo, year: i64) -> bool
    requires bounded { IsTrue (is_bounded_rule rule.now) }
    requires years { IsTrue (has_years rule.now) }
    requires first_year { pos 1 ≤ℤ year }
    requires last_year { year ≤ℤ pos 9999 }
    ensures { result ≡ is_outside rule.now year }
{
    rule.applies_to_year(year) && !rule.day.lies_in_year(year, rule.month)
}
