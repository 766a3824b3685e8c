//! The entries of a zone, and those that a line lists.
ghost use Rattle.std.specs.{Prelude.{◌≡◌, ◌≤◌, ◌++◌, List, All, IfOk, IfSome, IsTrue, Some, pos, filter, find, int_lt, length, map, None, option_map, take, reverse}, List.{list_all, position_or_len}, Option.{option_map_or, option_copied}, Ordering.{int_eq}};
ghost use Rattle.basics.specs.Sorted.{stable_sort};
ghost use Rattle.zone_table.specs.{LineBounds.{are_small_seconds}, Formats.{abbreviation}};
ghost use Rattle.zone_spans.specs.Bounds.{IsSoundOver, is_bounded_entry, is_bounded_firing, is_bounded_line, is_bounded_span, is_end, is_small, is_start};
ghost use Rattle.zone_spans.specs.{Entries.{Entry, span_of, entry_of, fixed_span, at_start, start_entry, entries_of_over, next_start_over, raw_entries_over, is_sooner, sorted_entries_over, is_standard, first_span}, KeptFor.{IsKept}, Several.{AreAll}};
ghost use Rattle.zone_spans.specs.{Windows.{line_end}, Listing.{is_at, listed_firings, listed_from, start_firing}, Years.{years_limit}};

use crate::firing::Firing;
use crate::kept::Expander;
use crate::span::FixedTimespan;
use crate::transitions::Line;
use crate::year::line_end;
use basics::{Items, Text};
use std::alloc::{AllocError, Global};

/// Entries in order of time, or on the way there: a time in seconds from 1970-01-01 00:00 UTC, and what is in force from
/// then on.
pub(crate) type Entries = Items<(i64, FixedTimespan)>;

/// What a line puts in force under a saving and the letters of a rule.
fn span_under(
    alloc: Global,
    line: &Line<'_>,
    saving: i64,
    letters: Option<&str>,
) -> Result<FixedTimespan, AllocError>
    ensures { IfOk result (λ span. span ≡ record {
      utc_offset = line.now.info.offset;
      dst_offset = saving;
      name = abbreviation line.now.info.format saving (option_map (λ t. t.now) letters.entry);
    }) }
{
    let name = line.info.format.format(alloc, saving, letters)?;
    Ok(FixedTimespan {
        utc_offset: line.info.offset,
        dst_offset: saving,
        name: Text::from_string(name),
    })
}

/// What a firing puts in force.
fn span_of(alloc: Global, line: &Line<'_>, firing: &Firing<'_>) -> Result<FixedTimespan, AllocError>
    ensures { IfOk result (λ span. span ≡ span_of line.now firing.now) }
{
    span_under(alloc, line, firing.rule.time_to_add, firing.rule.letters())
}

/// What a line that is not ruled puts in force.
fn fixed_span(alloc: Global, line: &Line<'_>) -> Result<FixedTimespan, AllocError>
    ensures { IfOk result (λ span. span ≡ fixed_span line.now) }
{
    span_under(alloc, line, line.fixed_saving(), None)
}

/// Adds an entry for each of the firings.
pub(crate) fn push_all(
    entries: &mut Entries,
    alloc: Global,
    line: &Line<'_>,
    fired: &[Firing<'_>],
) -> Result<(), AllocError>
    ensures { IfOk result (λ _. entries.new ≡ entries.old ++ map (entry_of line.now) fired.now) }
{
    for firing in fired {
        entries.push((firing.time, span_of(alloc, line, firing)?))?;
    }
    Ok(())
}

/// Adds an entry for each of the firings above the start.
fn push_above(
    entries: &mut Entries,
    alloc: Global,
    line: &Line<'_>,
    start: i64,
    fired: &[Firing<'_>],
) -> Result<(), AllocError>
    ensures { IfOk result (λ _. entries.new ≡ entries.old ++ map (entry_of line.now) (filter (λ f. int_lt start f.time) fired.now)) }
{
    for firing in fired {
        if firing.is_above(start) {
            entries.push((firing.time, span_of(alloc, line, firing)?))?;
        }
    }
    Ok(())
}

/// Adds an entry for each of the firings that a line with that start lists. The first of those at the start has that place.
#[tactic(auto, unfolding(crate::specs::Listing::listed_from))]
fn push_listed(
    entries: &mut Entries,
    alloc: Global,
    line: &Line<'_>,
    start: i64,
    place: usize,
    fired: &[Firing<'_>],
) -> Result<(), AllocError>
    requires most { place ≤ length fired.now }
    requires place { place ≡ position_or_len (is_at start) fired.now }
    ensures { IfOk result (λ _. entries.new ≡ entries.old ++ map (entry_of line.now) (listed_from start fired.now)) }
{
    push_above(entries, alloc, line, start, &fired[..place])?;
    push_all(entries, alloc, line, &fired[place..])
}

/// Adds the entry at the start, where there is one. The first firing at the start has that place.
fn push_start(
    entries: &mut Entries,
    alloc: Global,
    line: &Line<'_>,
    start: i64,
    place: usize,
    fired: &[Firing<'_>],
) -> Result<(), AllocError>
    requires { place ≡ position_or_len (is_at start) fired.now }
    ensures { IfOk result (λ _. entries.new ≡ entries.old ++ at_start (Some start) (option_map (span_of line.now) (start_firing start fired.now))) }
{
    match start_firing(start, place, fired) {
        Some(firing) => entries.push((start, span_of(alloc, line, firing)?)),
        None => Ok(()),
    }
}

/// Adds the entries of a ruled line with that start and these firings.
fn push_from(
    entries: &mut Entries,
    alloc: Global,
    line: &Line<'_>,
    start: i64,
    fired: &[Firing<'_>],
) -> Result<(), AllocError>
    ensures { IfOk result (λ _. entries.new ≡ entries.old
        ++ (map (entry_of line.now) (listed_from start fired.now) ++ start_entry line.now (Some start) fired.now)) }
{
    let place = place_at(start, fired);
    push_listed(entries, alloc, line, start, place, fired)?;
    push_start(entries, alloc, line, start, place, fired)
}

/// Adds the entries of a ruled line with these firings, and with that start where it is not the first.
fn push_ruled(
    entries: &mut Entries,
    alloc: Global,
    line: &Line<'_>,
    start: Option<i64>,
    fired: &[Firing<'_>],
) -> Result<(), AllocError>
    ensures { IfOk result (λ _. entries.new ≡ entries.old
        ++ (map (entry_of line.now) (listed_firings start fired.now) ++ start_entry line.now start fired.now)) }
{
    match start {
        Some(start) => push_from(entries, alloc, line, start, fired),
        None => push_all(entries, alloc, line, fired),
    }
}

/// Adds the entry of a line with that start that is not ruled.
fn push_fixed(
    entries: &mut Entries,
    alloc: Global,
    line: &Line<'_>,
    start: Option<i64>,
) -> Result<(), AllocError>
    ensures { IfOk result (λ _. entries.new ≡ entries.old ++ at_start start (Some (fixed_span line.now))) }
{
    match start {
        Some(start) => entries.push((start, fixed_span(alloc, line)?)),
        None => Ok(()),
    }
}

/// Adds the entries of a line with that start over so many years, and gives the start of the next line.
#[tactic(auto, unfolding(crate::specs::Entries::entries_of_over, crate::specs::Entries::next_start_over, crate::specs::Firings::line_firings_over))]
fn push_line<'a>(
    entries: &mut Entries,
    alloc: Global,
    expander: &mut Expander<'a>,
    line: &Line<'a>,
    start: Option<i64>,
    most: u16,
) -> Result<Option<i64>, AllocError>
    requires line { IsSoundOver most line.now }
    requires most { most ≤ years_limit }
    requires kept { AreAll IsKept expander.old.kept }
    ensures entries { IfOk result (λ _. entries.new ≡ entries.old ++ entries_of_over most line.now start) }
    ensures next { IfOk result (λ next. next ≡ next_start_over most line.now) }
    ensures bounded { IfOk result (λ next. IsTrue (is_start start) → IsTrue (is_start next) × IsTrue (list_all is_bounded_entry (entries_of_over most line.now start))) }
    ensures kept { IfOk result (λ _. AreAll IsKept expander.new.kept) }
{
    if line.is_ruled() {
        expander.fire_line(alloc, line, start, most)?;
        push_ruled(
            entries,
            alloc,
            line,
            start,
            expander.firings.fired.as_slice(),
        )?;
        return Ok(next_start(line, expander.firings.saving));
    }
    push_fixed(entries, alloc, line, start)?;
    Ok(next_start(line, line.fixed_saving()))
}

/// Where the next line starts, after that saving.
pub(crate) fn next_start(line: &Line<'_>, last_saving: i64) -> Option<i64>
    requires bounded { IsTrue (is_bounded_line line.now) }
    requires end { IsTrue (is_end line.now.end) }
    requires saving { IsTrue (are_small_seconds last_saving) }
    ensures value { result ≡ option_map (λ end. line_end end line.now.info.offset last_saving) line.now.end }
    ensures bounded { IsTrue (is_start result) }
{
    match line.end {
        Some(end) => Some(line_end(&end, line.info.offset, last_saving)),
        None => None,
    }
}

/// The entries of a zone over so many years, line by line.
pub(crate) fn raw_entries<'a>(
    alloc: Global,
    lines: &[Line<'a>],
    most: u16,
) -> Result<Entries, AllocError>
    requires lines { All (IsSoundOver most) lines.now }
    requires most { most ≤ years_limit }
    ensures raw { IfOk result (λ entries. entries ≡ raw_entries_over most lines.now) }
    ensures bounded { IfOk result (λ entries. IsTrue (list_all is_bounded_entry entries)) }
{
    let mut entries = Items::new(alloc);
    let mut expander = Expander::new(alloc);
    let mut start = None;
    for line in lines {
        start = push_line(&mut entries, alloc, &mut expander, line, start, most)?;
    }
    Ok(entries)
}

/// The entries of a zone over so many years in order of time. Entries of one time keep their order.
#[tactic(auto, unfolding(crate::specs::Entries::sorted_entries_over))]
pub(crate) fn sorted_entries(
    alloc: Global,
    lines: &[Line<'_>],
    most: u16,
) -> Result<Entries, AllocError>
    requires lines { All (IsSoundOver most) lines.now }
    requires most { most ≤ years_limit }
    ensures sorted { IfOk result (λ entries. entries ≡ sorted_entries_over most lines.now) }
    ensures bounded { IfOk result (λ entries. IsTrue (list_all is_bounded_entry entries)) }
{
    let mut entries = raw_entries(alloc, lines, most)?;
    sort(&mut entries)?;
    Ok(entries)
}

/// Sorts by time. Entries of one time keep their order.
pub(crate) fn sort(entries: &mut Entries) -> Result<(), AllocError>
    requires { IsTrue (list_all is_bounded_entry entries.old) }
    ensures sorted { IfOk result (λ _. entries.new ≡ stable_sort is_sooner entries.old) }
    ensures bounded { IfOk result (λ _. IsTrue (list_all is_bounded_entry entries.new)) }
{
    entries.sort_by_key(|entry| entry.0)
}

/// What holds before all entries: what the first line puts in force, or the first entry with no saving where that line is
/// ruled.
#[tactic(auto, unfolding(crate::specs::Entries::first_span))]
pub(crate) fn first_span(
    alloc: Global,
    lines: &[Line<'_>],
    entries: &Entries,
) -> Result<Option<FixedTimespan>, AllocError>
    requires lines { IsTrue (list_all is_bounded_line lines.now) }
    requires entries { IsTrue (list_all is_bounded_entry entries.now) }
    ensures first { IfOk result (λ first. first ≡ first_span lines.now entries.now) }
    ensures bounded { IfOk result (λ first. IfSome first (λ span. IsTrue (is_bounded_span span))) }
{
    match lines.first() {
        Some(line) if line.is_ruled() => first_standard(alloc, entries.as_slice()),
        Some(line) => Ok(Some(fixed_span(alloc, line)?)),
        None => Ok(None),
    }
}

/// A copy of what the first entry with no saving puts in force.
fn first_standard(
    alloc: Global,
    entries: &[(i64, FixedTimespan)],
) -> Result<Option<FixedTimespan>, AllocError>
    requires { IsTrue (list_all is_bounded_entry entries.now) }
    ensures first { IfOk result (λ first. first ≡ option_map (λ e. e.1) (find is_standard entries.now)) }
    ensures bounded { IfOk result (λ first. IfSome first (λ span. IsTrue (is_bounded_span span))) }
{
    match entries.iter().find(|entry| is_standard(entry)) {
        Some(entry) => Ok(Some(entry.1.copy(alloc)?)),
        None => Ok(None),
    }
}

/// Whether the entry has no saving.
fn is_standard(entry: &(i64, FixedTimespan)) -> bool
    ensures { result ≡ is_standard entry.now }
{
    entry.1.dst_offset == 0
}

/// The place of the first firing at the start, or how many firings there are.
pub(crate) fn place_at(start: i64, fired: &[Firing<'_>]) -> usize
    ensures place { result ≡ position_or_len (is_at start) fired.now }
    ensures most { result ≤ length fired.now }
{
    for i in 0..fired.len() {
        if fired[i].is_at(start) {
            return i;
        }
    }
    fired.len()
}

/// The last firing below the start.
fn last_below<'f, 'a>(start: i64, fired: &'f [Firing<'a>]) -> Option<&'f Firing<'a>>
    ensures { option_copied result ≡ find (λ f. int_lt f.time start) (reverse fired.now) }
{
    fired.iter().rev().find(|firing| firing.is_below(start))
}

/// The first firing that ends a saving.
pub(crate) fn first_standard_firing<'f, 'a>(fired: &'f [Firing<'a>]) -> Option<&'f Firing<'a>>
    ensures { option_copied result ≡ find (λ f. int_eq f.rule.time_to_add (pos 0)) fired.now }
{
    fired.iter().find(|firing| firing.is_standard())
}

/// The firing whose saving and name the line's start takes, where that is the place of the first firing at the start.
#[tactic(auto, unfolding(crate::specs::Listing::start_firing))]
pub(crate) fn start_firing<'f, 'a>(
    start: i64,
    place: usize,
    fired: &'f [Firing<'a>],
) -> Option<&'f Firing<'a>>
    requires { place ≡ position_or_len (is_at start) fired.now }
    ensures { option_copied result ≡ start_firing start fired.now }
{
    if place < fired.len() {
        return None;
    }
    match last_below(start, fired) {
        Some(firing) => Some(firing),
        None => first_standard_firing(fired),
    }
}
