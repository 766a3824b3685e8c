//! The candidates of a set.
ghost use Rattle.std.specs.Prelude.{◌≡◌, ◌++◌, ◌∷◌, [], OnOk, IfOk, map, None, ◌+ℤ◌, ◌≤ℤ◌, ◌<ℤ◌};
ghost use Rattle.tz_lookup.specs.Sets.{IsAccepted, schedule_of};
ghost use Rattle.zone_tail.specs.{Changes.{changes_at, changes_shown}, LastYear.{standard_of, year_begin, year_end}, Shapes.{IsForm}, Tails.{candidates, rule_with, rules_with, tail_fault}, declared.candidate.Candidate.TheVariants.{Ruled}};
ghost use Rattle.zone_tail.specs.declared.last_year.Form.TheVariants.{Yearly};

use crate::candidate::Candidate;
use crate::changes::{Changes, changes_at};
use crate::last_year::Form;
use crate::rule::{Change, YearlyRule};
use crate::spans::{entry_time, total_of};
use std::alloc::{AllocError, Global};
use tz_lookup::SpanTable;

/// What may stand for the tail of a set, in order.
pub(crate) fn candidates_of<S: SpanTable>(
    alloc: Global,
    set: &S,
    form: &Form,
    offset: i64,
) -> Result<Vec<Candidate>, AllocError>
    requires accepted { IsAccepted (schedule_of (S.seen set.now)) }
    requires offset { offset ≡ standard_of (S.seen set.now) }
    requires form { IsForm (S.seen set.now) form.now }
    requires none { tail_fault (S.seen set.now) ≡ None }
    ensures { IfOk result (λ list. list.items ≡ candidates (S.seen set.now)) }
{
    match form {
        Form::Steady(span) => {
            let mut list = Vec::new(alloc);
            list.push(Candidate::Fixed(total_of(set, *span)))?;
            Ok(list)
        }
        Form::Yearly { start, end } => yearly_candidates(alloc, set, *start, *end, offset),
        Form::Other => unreachable!(),
    }
}

/// Those of a yearly set, by its entries.
fn yearly_candidates<S: SpanTable>(
    alloc: Global,
    set: &S,
    start: usize,
    end: usize,
    offset: i64,
) -> Result<Vec<Candidate>, AllocError>
    requires accepted { IsAccepted (schedule_of (S.seen set.now)) }
    requires offset { offset ≡ standard_of (S.seen set.now) }
    requires form { IsForm (S.seen set.now) (Yearly start end) }
    ensures { IfOk result (λ list. list.items ≡ candidates (S.seen set.now)) }
{
    let saving = total_of(set, start + 1);
    let starts = changes_from(entry_time(set, start), offset);
    let ends = changes_from(entry_time(set, end), saving);
    rules(alloc, offset, saving, &starts, &ends)
}

/// The changes that come at a second of the last year, by clocks so many seconds ahead of UTC.
fn changes_from(second: i64, offset: i64) -> Changes
    requires begun { year_begin ≤ℤ (second +ℤ offset) }
    requires not_over { (second +ℤ offset) <ℤ year_end }
    ensures { changes_shown result ≡ changes_at (second +ℤ offset) }
{
    changes_at(second + offset)
}

/// The rules of each start with each end.
fn rules(
    alloc: Global,
    standard: i64,
    saving: i64,
    starts: &Changes,
    ends: &Changes,
) -> Result<Vec<Candidate>, AllocError>
    ensures { IfOk result (λ list. list.items ≡ rules_with standard saving (changes_shown starts.now) (changes_shown ends.now)) }
{
    let mut list = Vec::new(alloc);
    add_rules(&mut list, standard, saving, &starts.first, ends)?;
    match &starts.other {
        Some(start) => add_rules(&mut list, standard, saving, start, ends)?,
        None => {}
    }
    Ok(list)
}

/// Adds the rules of one start with each end.
fn add_rules(
    list: &mut Vec<Candidate>,
    standard: i64,
    saving: i64,
    start: &Change,
    ends: &Changes,
) -> Result<(), AllocError>
    ensures { OnOk result (list.new.items ≡ list.old.items ++ map (λ end. Ruled (rule_with standard saving start.now end)) (changes_shown ends.now)) }
{
    match &ends.other {
        Some(end) => {
            add_rule(list, standard, saving, start, &ends.first)?;
            add_rule(list, standard, saving, start, end)
        }
        None => add_rule(list, standard, saving, start, &ends.first),
    }
}

fn add_rule(
    list: &mut Vec<Candidate>,
    standard: i64,
    saving: i64,
    start: &Change,
    end: &Change,
) -> Result<(), AllocError>
    ensures { OnOk result (list.new.items ≡ list.old.items ++ Ruled (rule_with standard saving start.now end.now) ∷ []) }
{
    list.push(Candidate::Ruled(YearlyRule {
        standard,
        saving,
        start: *start,
        end: *end,
    }))?;
    Ok(())
}
