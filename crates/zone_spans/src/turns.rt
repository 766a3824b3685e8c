//! Whether what a zone's last line fires turns: it comes again after 400 years, in order, with the same latest changes at both ends.
ghost use Rattle.std.specs.{Prelude.{◌≡◌, ◌++◌, ◌∷◌, [], ◌&&◌, not, All, IfOk, IsTrue, None, find, is_some, reverse, pos, int_lt, true}, List.{list_all}, Option.{option_map_or}, Ordering.{int_eq}};
ghost use Rattle.basics.specs.Sorted.{stable_sort};
ghost use Rattle.zone_spans.specs.{Bounds.{IsSmallEntry, IsSound, IsSoundOver, is_bounded_entry, is_bounded_firing}, Collapse.{kept_of}, Cycle.{seconds_on}, Entries.{is_sooner, next_start_over, raw_entries_over}};
ghost use Rattle.zone_spans.specs.{GoesOn.{are_cycle_later, cycle_entries, dont_fall, is_apart, is_cycle_later, is_in_order, kept_over, turns}, Cuts.{IsCut}, Later.{first_fired, start_after}, Years.{most_years}};

use crate::entries::{Entries, first_standard_firing, next_start, push_all, raw_entries, sort};
use crate::firing::Firings;
use crate::goes_on::YEARS_THROUGH_CYCLE;
use crate::kept::Expander;
use crate::span::{FixedTimespan, is_no_later, is_same_span, keep_kept};
use crate::transitions::Line;
use crate::year::MOST_YEARS;
use basics::Items;
use std::alloc::{AllocError, Global};

/// The seconds of 400 years.
const CYCLE_LENGTH: i64 = 12_622_780_800;

/// Whether the last of the lines, which has no end, turns. The entries are those of 300 years.
#[tactic(auto, unfolding(crate::specs::GoesOn::turns))]
pub(crate) fn turns<'a>(
    alloc: Global,
    lines: &[Line<'a>],
    front: &[Line<'a>],
    last: &Line<'a>,
    entries: Entries,
) -> Result<bool, AllocError>
    requires lines { lines.now ≡ front.now ++ (last.now ∷ []) }
    requires before { All (IsSoundOver most_years) front.now }
    requires sound { All (IsSoundOver 700) lines.now }
    requires begun { IsSound most_years last.now }
    requires last { IsSound 700 last.now }
    requires end { last.now.end ≡ None }
    requires entries { entries ≡ raw_entries_over most_years lines.now }
    requires bounded { IsTrue (list_all is_bounded_entry entries) }
    ensures { IfOk result (λ does. does ≡ turns front.now last.now) }
{
    let mut cycle = Items::new(alloc);
    if !push_cycle(&mut cycle, alloc, last)? {
        return Ok(false);
    }
    let start = start_after(alloc, front)?;
    if !is_in_order(start, entries.as_slice(), cycle.as_slice()) {
        return Ok(false);
    }
    has_same_ends(alloc, lines, entries, cycle.as_slice())
}

/// Adds the cycle's entries of a last line. Whether the saving at its end is that at its begin, and a firing before it ends a saving.
fn push_cycle(cycle: &mut Entries, alloc: Global, line: &Line<'_>) -> Result<bool, AllocError>
    requires empty { cycle.old ≡ [] }
    requires begun { IsSound most_years line.now }
    requires line { IsSound 700 line.now }
    requires end { line.now.end ≡ None }
    ensures cycle { IfOk result (λ _. cycle.new ≡ cycle_entries line.now) }
    ensures bounded { IfOk result (λ _. IsTrue (list_all is_bounded_entry cycle.new)) }
    ensures same { IfOk result (λ same. same ≡ (int_eq (first_fired line.now 700).1 (first_fired line.now 300).1
        && is_some (find (λ f. int_eq f.rule.time_to_add (pos 0)) (first_fired line.now 300).0))) }
{
    let mut firings = Firings::new(alloc);
    let (count, same) = fire_cycle(alloc, &mut firings, line)?;
    let fired = firings.fired.as_slice();
    push_all(cycle, alloc, line, &fired[count..])?;
    Ok(same && first_standard_firing(&fired[..count]).is_some())
}

/// Puts into `firings` those of a last line up to the end of the cycle. How many of these come before the cycle, and whether the
/// saving at its end is that at its begin.
fn fire_cycle<'a>(
    alloc: Global,
    firings: &mut Firings<'a>,
    line: &Line<'a>,
) -> Result<(usize, bool), AllocError>
    requires fired { firings.old.fired.items ≡ [] }
    requires saving { firings.old.saving ≡ pos 0 }
    requires begun { IsSound most_years line.now }
    requires line { IsSound 700 line.now }
    requires end { line.now.end ≡ None }
    ensures cut { IfOk result (λ cycle. IsCut line.now cycle.0 firings.new.fired.items) }
    ensures same { IfOk result (λ cycle. cycle.1 ≡ int_eq (first_fired line.now 700).1 (first_fired line.now 300).1) }
    ensures bounded { IfOk result (λ _. IsTrue (list_all is_bounded_firing firings.new.fired.items)) }
{
    firings.fire_years(alloc, line, 0, MOST_YEARS)?;
    let count = firings.fired.as_slice().len();
    let saving = firings.saving;
    firings.fire_years(alloc, line, MOST_YEARS, YEARS_THROUGH_CYCLE)?;
    Ok((count, is_same(firings.saving, saving)))
}

fn is_same(one: i64, other: i64) -> bool
    ensures { result ≡ int_eq one other }
{
    one == other
}

/// Where the line after these starts: none where there are none.
fn start_after(alloc: Global, front: &[Line<'_>]) -> Result<Option<i64>, AllocError>
    requires { All (IsSoundOver most_years) front.now }
    ensures { IfOk result (λ start. start ≡ start_after None front.now) }
{
    match front.split_last() {
        Some((line, _)) => next_start_of(alloc, line),
        None => Ok(None),
    }
}

/// Where the line after this one starts.
#[tactic(auto, unfolding(crate::specs::Entries::next_start_over, crate::specs::Firings::line_firings_over))]
fn next_start_of(alloc: Global, line: &Line<'_>) -> Result<Option<i64>, AllocError>
    requires { IsSoundOver most_years line.now }
    ensures { IfOk result (λ next. next ≡ next_start_over most_years line.now) }
{
    if !line.is_ruled() {
        return Ok(next_start(line, line.fixed_saving()));
    }
    let mut expander = Expander::new(alloc);
    expander.fire_line(alloc, line, None, MOST_YEARS)?;
    Ok(next_start(line, expander.firings.saving))
}

/// Whether the cycle's entries are in order, after the line's start and those from before.
fn is_in_order(
    start: Option<i64>,
    before: &[(i64, FixedTimespan)],
    cycle: &[(i64, FixedTimespan)],
) -> bool
    requires { IsTrue (list_all is_bounded_entry cycle.now) }
    ensures { result ≡ is_in_order start before.now cycle.now }
{
    let [first, ..] = cycle else {
        return false;
    };
    dont_fall(cycle)
        & ends_in_cycle(first, cycle)
        & is_before(start, first)
        & none_later(before, first)
}

/// Whether none of the entries is more than a cycle after the first.
fn ends_in_cycle(first: &(i64, FixedTimespan), entries: &[(i64, FixedTimespan)]) -> bool
    requires { IsSmallEntry first.now }
    ensures { result ≡ list_all (λ e. not (int_lt (seconds_on first.now.0) e.0)) entries.now }
{
    none_after(entries, first.0 + CYCLE_LENGTH)
}

/// Whether the times don't fall.
fn dont_fall(entries: &[(i64, FixedTimespan)]) -> bool
    ensures { result ≡ dont_fall entries.now }
{
    for i in 1..entries.len() {
        if is_sooner(&entries[i], &entries[i - 1]) {
            return false;
        }
    }
    true
}

fn is_sooner(one: &(i64, FixedTimespan), other: &(i64, FixedTimespan)) -> bool
    ensures { result ≡ is_sooner one.now other.now }
{
    one.0 < other.0
}

/// Whether none of the entries is after the second.
fn none_after(entries: &[(i64, FixedTimespan)], second: i64) -> bool
    ensures { result ≡ list_all (λ e. not (int_lt second e.0)) entries.now }
{
    for entry in entries {
        if is_after(entry, second) {
            return false;
        }
    }
    true
}

fn is_after(entry: &(i64, FixedTimespan), second: i64) -> bool
    ensures { result ≡ int_lt second entry.now.0 }
{
    second < entry.0
}

/// Whether none of the entries is after the first of others.
fn none_later(entries: &[(i64, FixedTimespan)], first: &(i64, FixedTimespan)) -> bool
    ensures { result ≡ list_all (λ e. not (int_lt first.now.0 e.0)) entries.now }
{
    none_after(entries, first.0)
}

/// Whether a start that is there comes before the entry.
fn is_before(start: Option<i64>, entry: &(i64, FixedTimespan)) -> bool
    ensures { result ≡ option_map_or (λ s. int_lt s entry.now.0) start true }
{
    match start {
        Some(start) => start < entry.0,
        None => true,
    }
}

/// Whether the two latest that are kept of the entries of 300 years come again in those of 700, and stay before the cycle's.
fn has_same_ends(
    alloc: Global,
    lines: &[Line<'_>],
    entries: Entries,
    cycle: &[(i64, FixedTimespan)],
) -> Result<bool, AllocError>
    requires sound { All (IsSoundOver 700) lines.now }
    requires entries { entries ≡ raw_entries_over most_years lines.now }
    requires bounded { IsTrue (list_all is_bounded_entry entries) }
    requires cycle { IsTrue (list_all is_bounded_entry cycle.now) }
    ensures { IfOk result (λ same. same ≡ (are_cycle_later (kept_over 700 lines.now) (kept_over 300 lines.now)
        && is_apart (kept_over 300 lines.now) cycle.now)) }
{
    let mut here = entries;
    keep(&mut here)?;
    let mut there = raw_entries(alloc, lines, YEARS_THROUGH_CYCLE)?;
    keep(&mut there)?;
    let here = here.as_slice();
    Ok(are_cycle_later(there.as_slice(), here) & is_apart(here, cycle))
}

/// Leaves of the entries, sorted by time, what the collapse keeps.
fn keep(entries: &mut Entries) -> Result<(), AllocError>
    requires { IsTrue (list_all is_bounded_entry entries.old) }
    ensures kept { IfOk result (λ _. entries.new ≡ reverse (kept_of [] (stable_sort is_sooner entries.old))) }
    ensures bounded { IfOk result (λ _. IsTrue (list_all is_bounded_entry entries.new)) }
{
    sort(entries)?;
    keep_kept(entries);
    Ok(())
}

/// Whether the two latest are the same, a cycle apart.
fn are_cycle_later(later: &[(i64, FixedTimespan)], kept: &[(i64, FixedTimespan)]) -> bool
    requires { IsTrue (list_all is_bounded_entry kept.now) }
    ensures { result ≡ are_cycle_later (reverse later.now) (reverse kept.now) }
{
    let [.., m, l] = later else {
        return false;
    };
    let [.., j, k] = kept else {
        return false;
    };
    is_cycle_later(l, k) & is_cycle_later(m, j)
}

/// Whether the one is the other a cycle later.
fn is_cycle_later(later: &(i64, FixedTimespan), entry: &(i64, FixedTimespan)) -> bool
    requires { IsSmallEntry entry.now }
    ensures { result ≡ is_cycle_later later.now entry.now }
{
    is_same(later.0, entry.0 + CYCLE_LENGTH) && is_same_span(&later.1, &entry.1)
}

/// Whether the first of the cycle's entries leaves the latest that was kept in its place.
fn is_apart(kept: &[(i64, FixedTimespan)], cycle: &[(i64, FixedTimespan)]) -> bool
    requires kept { IsTrue (list_all is_bounded_entry kept.now) }
    requires cycle { IsTrue (list_all is_bounded_entry cycle.now) }
    ensures { result ≡ is_apart (reverse kept.now) cycle.now }
{
    let [.., j, k] = kept else {
        return false;
    };
    match cycle {
        [] => false,
        [first, ..] => !is_no_later(first, k, j),
    }
}
