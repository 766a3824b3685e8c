//! The footers that are tried for a set.
ghost use Rattle.std.specs.Prelude.{◌≡◌, ◌<◌, ◌&&◌, ◌++◌, IfOk, None, OnOk, length, string_bytes, true, pos, neg_ℤ, ◌+ℤ◌, ◌≤ℤ◌, ◌<ℤ◌};
ghost use Rattle.civil_base.specs.Ranges.{greatest_offset};
ghost use Rattle.tz_lookup.specs.Sets.{IsAccepted, schedule_of};
ghost use Rattle.zone_spans.specs.Entries.{total};
ghost use Rattle.zone_tail.specs.{LastYear.{yearly}, Shapes.{entry_in}, Tails.{can_be_written}};
ghost use Rattle.zone_tzif.specs.{Forms.{ArePlaced, Shows}, Tried.{changes_by, ever_fault, ever_form, how_many, is_of_year, next_year, tried, tried_for}, Agreement.{cycle_begin}};

use crate::faults::total_of_entry;
use crate::form::Form;
use crate::text::add_change;
use std::alloc::{AllocError, Global};
use tz_lookup::SpanTable;
use zone_tail::parts::{add, entry_span, entry_time, steady_text, total_of, totals_text};

/// How many ways there are to name a change.
const WAYS: u32 = 42;

/// The footer of that number.
pub(crate) fn tried_text<S: SpanTable>(
    alloc: Global,
    set: &S,
    form: &Form,
    number: u32,
) -> Result<String, AllocError>
    requires accepted { IsAccepted (schedule_of (S.seen set.now)) }
    requires form { Shows (S.seen set.now) (ever_form (S.seen set.now)) form.now }
    requires none { ever_fault (S.seen set.now) ≡ None }
    requires number { number < how_many }
    ensures { IfOk result (λ text. string_bytes text ≡ tried (S.seen set.now) number) }
{
    match form {
        Form::Steady(span) => steady_text(
            alloc,
            set.span(*span).name.as_str(),
            total_of(set, *span),
        ),
        Form::Yearly { start, end } => yearly_text(alloc, set, *start, *end, number),
        Form::Other => unreachable!(),
    }
}

/// That of two entries, with which daylight saving time starts and ends.
fn yearly_text<S: SpanTable>(
    alloc: Global,
    set: &S,
    start: usize,
    end: usize,
    number: u32,
) -> Result<String, AllocError>
    requires accepted { IsAccepted (schedule_of (S.seen set.now)) }
    requires placed { ArePlaced (S.seen set.now) start end }
    requires written { can_be_written (total (entry_in (S.seen set.now) end).1) && can_be_written (total (entry_in (S.seen set.now) start).1) ≡ true }
    requires number { number < how_many }
    ensures { IfOk result (λ text. string_bytes text ≡ tried_for (yearly (entry_in (S.seen set.now) start) (entry_in (S.seen set.now) end)) number) }
{
    let standard = total_of_entry(set, end);
    let saving = total_of_entry(set, start);
    let start_local = local_of(set, start, standard);
    let end_local = local_of(set, end, saving);
    let mut text = totals_text(
        alloc,
        entry_span(set, end).name.as_str(),
        standard,
        entry_span(set, start).name.as_str(),
        saving,
    )?;
    add_changes(&mut text, start_local, end_local, number)?;
    Ok(text)
}

/// The second of an entry of 2102, by clocks so many seconds ahead of UTC.
fn local_of<S: SpanTable>(set: &S, entry: usize, total: i64) -> i64
    requires within { entry < length (S.seen set.now).others }
    requires of_year { is_of_year (entry_in (S.seen set.now) entry) ≡ true }
    requires least { neg_ℤ (pos greatest_offset) ≤ℤ total }
    requires greatest { total ≤ℤ pos greatest_offset }
    ensures is { result ≡ (entry_in (S.seen set.now) entry).0 +ℤ total }
    ensures least { pos 4_000_000_000 ≤ℤ result }
    ensures greatest { result ≤ℤ pos 5_000_000_000 }
{
    ahead(entry_time(set, entry), total)
}

/// A second of 2102, by clocks so many seconds ahead of UTC.
fn ahead(second: i64, total: i64) -> i64
    requires begun { cycle_begin ≤ℤ second }
    requires not_over { second <ℤ next_year }
    requires least { neg_ℤ (pos greatest_offset) ≤ℤ total }
    requires greatest { total ≤ℤ pos greatest_offset }
    ensures is { result ≡ second +ℤ total }
    ensures least { pos 4_000_000_000 ≤ℤ result }
    ensures greatest { result ≤ℤ pos 5_000_000_000 }
{
    second + total
}

/// A start and an end.
fn add_changes(text: &mut String, start: i64, end: i64, number: u32) -> Result<(), AllocError>
    requires start_least { pos 4_000_000_000 ≤ℤ start }
    requires start_greatest { start ≤ℤ pos 5_000_000_000 }
    requires end_least { pos 4_000_000_000 ≤ℤ end }
    requires end_greatest { end ≤ℤ pos 5_000_000_000 }
    requires number { number < how_many }
    ensures { OnOk result (string_bytes text.new ≡ string_bytes text.old ++ changes_by start end number) }
{
    add(text, ",")?;
    add_change(text, start, number / WAYS)?;
    add(text, ",")?;
    add_change(text, end, number % WAYS)
}
