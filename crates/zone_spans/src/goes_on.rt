//! Whether a zone goes on for ever: what is tested of its lines, over one cycle of 400 years.
ghost use Rattle.std.specs.{Prelude.{◌≡◌, ◌≤ℤ◌, ◌++◌, ◌∷◌, [], All, IfOk, IsTrue, nat_abs, nat_lt, pos}, List.{list_all, list_any}};
ghost use Rattle.zone_table.specs.{Bounds.{is_bounded_rule}, Moments.{has_years, is_at_most, last_year}};
ghost use Rattle.zone_spans.specs.{Bounds.{IsSoundOver, is_end}, GoesOn.{ends_by_then, goes_on, has_settled_lines, is_before_2101, is_still, last_goes_on, some_leaves}, Settled.{are_settled, is_lasting, is_max, is_settled, is_settled_end}, Years.{most_years}};

use crate::entries::raw_entries;
use crate::fault::Tested;
use crate::span::FixedTimespan;
use crate::transitions::Line;
use crate::turns::turns;
use crate::year::MOST_YEARS;
use std::alloc::{AllocError, Global};
use zone_table::{ChangeTime, RuleInfo, Year};

/// How many years there are from the earliest to the end of the cycle, which begins with 2100.
pub(crate) const YEARS_THROUGH_CYCLE: u16 = 700;

/// 2101-01-01 00:00:00 UTC.
const BEGIN_OF_2101: i64 = 4_133_980_800;

/// Whether lines that have no fault of their own over 300 years go on for ever.
#[tactic(auto, unfolding(crate::specs::GoesOn::goes_on))]
pub(crate) fn goes_on(alloc: Global, lines: &[Line<'_>]) -> Result<bool, AllocError>
    requires { All (IsSoundOver most_years) lines.now }
    ensures { IfOk result (λ goes. goes ≡ goes_on lines.now) }
{
    match lines.split_last() {
        Some((last, front)) => last_goes_on(alloc, lines, front, last),
        None => Ok(false),
    }
}

/// The same of a last line with those in front of it.
#[tactic(auto, unfolding(crate::specs::GoesOn::last_goes_on))]
fn last_goes_on<'a>(
    alloc: Global,
    lines: &[Line<'a>],
    front: &[Line<'a>],
    last: &Line<'a>,
) -> Result<bool, AllocError>
    requires lines { lines.now ≡ front.now ++ (last.now ∷ []) }
    requires sound { All (IsSoundOver most_years) lines.now }
    ensures { IfOk result (λ goes. goes ≡ last_goes_on front.now last.now) }
{
    if !has_settled_lines(front, last) {
        return Ok(false);
    }
    let entries = raw_entries(alloc, lines, MOST_YEARS)?;
    if !are_before_2101(entries.as_slice()) {
        return Ok(false);
    }
    if is_still(last) {
        return Ok(true);
    }
    turns(alloc, lines, front, last, entries)
}

/// Whether each line but the last ends by 2099 and the last has no end, and its rules are settled and stay in their years.
fn has_settled_lines(front: &[Line<'_>], last: &Line<'_>) -> bool
    requires front { All (IsSoundOver most_years) front.now }
    requires last { IsSoundOver most_years last.now }
    ensures { result ≡ has_settled_lines front.now last.now }
{
    all_end_by_then(front)
        && last.end.is_none()
        && last.info.end_time.is_none()
        && are_settled(last.rules)
        && !some_leaves(last.rules)
}

fn all_end_by_then(lines: &[Line<'_>]) -> bool
    requires { All (IsSoundOver most_years) lines.now }
    ensures { result ≡ list_all (λ line. ends_by_then line.end) lines.now }
{
    for line in lines {
        if !ends_by_then(line.end) {
            return false;
        }
    }
    true
}

/// Whether there is an end, in 2099 or before.
fn ends_by_then(end: Option<ChangeTime>) -> bool
    requires { IsTrue (is_end end) }
    ensures { result ≡ ends_by_then end }
{
    match end {
        Some(end) => is_before_2100(end.year()),
        None => false,
    }
}

fn is_before_2100(year: i64) -> bool
    requires { pos 1 ≤ℤ year }
    ensures { result ≡ nat_lt (nat_abs year) 2100 }
{
    year < 2_100
}

fn are_settled(rules: &[RuleInfo]) -> bool
    ensures { result ≡ are_settled rules.now }
{
    rules.iter().all(is_settled)
}

/// Whether the rule begins in 2099 or before, and ends there or never.
#[tactic(auto, unfolding(crate::specs::Settled::is_settled))]
fn is_settled(rule: &RuleInfo) -> bool
    ensures { result ≡ is_settled rule.now }
{
    begins_by_then(rule.from_year) && is_settled_end(last_year(rule))
}

/// The last year of its own, or the first.
fn last_year(rule: &RuleInfo) -> Year
    ensures { result ≡ last_year rule.now }
{
    rule.to_year.unwrap_or(rule.from_year)
}

fn begins_by_then(year: Year) -> bool
    ensures { result ≡ is_at_most year (pos 2099) }
{
    match year {
        Year::Minimum => true,
        Year::Maximum => false,
        Year::Number(first) => first <= 2_099,
    }
}

fn is_settled_end(year: Year) -> bool
    ensures { result ≡ is_settled_end year }
{
    match year {
        Year::Minimum => true,
        Year::Maximum => true,
        Year::Number(last) => last <= 2_099,
    }
}

/// Whether a rule's day lies in another year, in one of the years up to the end of the cycle.
fn some_leaves(rules: &[RuleInfo]) -> bool
    requires bounded { IsTrue (list_all is_bounded_rule rules.now) }
    requires years { IsTrue (list_all has_years rules.now) }
    ensures { result ≡ some_leaves rules.now }
{
    let mut tested = Tested::new("", rules);
    tested.leaves_year(YEARS_THROUGH_CYCLE)
}

fn are_before_2101(entries: &[(i64, FixedTimespan)]) -> bool
    ensures { result ≡ list_all is_before_2101 entries.now }
{
    entries.iter().all(is_before_2101)
}

fn is_before_2101(entry: &(i64, FixedTimespan)) -> bool
    ensures { result ≡ is_before_2101 entry.now }
{
    entry.0 < BEGIN_OF_2101
}

/// Whether nothing of the line changes from 2100 on.
fn is_still(line: &Line<'_>) -> bool
    ensures { result ≡ is_still line.now }
{
    !(line.is_ruled() && some_lasts(line.rules))
}

fn some_lasts(rules: &[RuleInfo]) -> bool
    ensures { result ≡ list_any is_lasting rules.now }
{
    rules.iter().any(is_lasting)
}

/// Whether the rule has no last year.
#[tactic(auto, unfolding(crate::specs::Settled::is_lasting))]
fn is_lasting(rule: &RuleInfo) -> bool
    ensures { result ≡ is_lasting rule.now }
{
    is_max(last_year(rule))
}

fn is_max(year: Year) -> bool
    ensures { result ≡ is_max year }
{
    match year {
        Year::Maximum => true,
        Year::Minimum | Year::Number(_) => false,
    }
}
