//! How far back a footer says what a set shows.
ghost use Rattle.std.specs.Prelude.{◌≡◌, suc, ◌≤◌, ◌<◌, ◌↔◌, IsTrue, length, ℤ, ◌≤ℤ◌, ◌<ℤ◌};
ghost use Rattle.tz_tzif.specs.{FooterForce.{held_at}, FooterShown.{footer_shown, held_shown}};
ghost use Rattle.tz_lookup.specs.Sets.{IsAccepted, schedule_of, shifts_of};
ghost use Rattle.zone_tzif_core.specs.Shown.{record_shown};
ghost use Rattle.zone_tzif.specs.{Agreement.{cycle_end, time_of_entry, year_zero}, Walked.{AgreesAt, IsNear, IsWalked, Lasts}};

use crate::causes::kind_at;
use crate::convert::Saves;
use tz_lookup::{Offset, SpanTable};
use tz_tzif::{Footer, Held};
use zone_tzif_core::Record;

/// 0000-01-01 00:00:00 UTC.
const YEAR_ZERO: i64 = -62_167_219_200;

/// 2502-01-01 00:00:00 UTC.
const CYCLE_END: i64 = 16_788_297_600;

/// Whether what a footer puts in force is of a kind.
pub(crate) fn is_held(held: &Held<'_>, kind: &Record<'_>) -> bool
    ensures { IsTrue result ↔ (held_shown held.now ≡ record_shown kind.now) }
{
    held.to_utc().whole_seconds() == kind.utoff
        && held.is_dst() == kind.is_dst
        && held.name() == kind.name
}

/// Whether what a footer puts in force at a second is of a kind.
fn is_held_at(footer: &Footer<'_>, second: i64, kind: &Record<'_>) -> bool
    requires { IsNear second }
    ensures { IsTrue result ↔ (held_at (footer_shown footer.now) second ≡ record_shown kind.now) }
{
    is_held(&footer.held_at(second), kind)
}

/// A later second up to which what a footer puts in force stays as it is.
fn next_change(footer: &Footer<'_>, second: i64) -> i64
    requires { IsNear second }
    ensures later { second <ℤ result }
    ensures same { (t : ℤ) → second ≤ℤ t → t <ℤ result → held_at (footer_shown footer.now) t ≡ held_at (footer_shown footer.now) second }
{
    footer.next_change(second)
}

/// Whether a footer puts one kind in force from a second up to, without, another.
fn is_constant(footer: &Footer<'_>, low: i64, high: i64, kind: &Record<'_>) -> bool
    requires low { IsNear low }
    requires high { IsNear high }
    ensures { IsTrue result ↔ ((s : ℤ) → low ≤ℤ s → s <ℤ high → held_at (footer_shown footer.now) s ≡ record_shown kind.now) }
{
    let mut from = low;
    'pieces: while from < high {
        if !is_held_at(footer, from, kind) {
            return false;
        }
        from = next_change(footer, from);
    }
    true
}

/// When what an entry puts in force ends, or the cycle does.
fn end_of<S: SpanTable>(set: &S, entry: usize) -> i64
    requires within { entry < length (S.seen set.now).others }
    requires bound { entry < 18446744073709551615 }
    ensures end { (s : ℤ) → s <ℤ result ↔ Lasts (S.seen set.now) entry s }
    ensures cycle { result ≤ℤ cycle_end }
{
    if entry + 1 < set.entry_count() {
        sooner(set.time(entry + 1))
    } else {
        CYCLE_END
    }
}

fn sooner(second: i64) -> i64
    ensures before { (s : ℤ) → s <ℤ result ↔ ((s <ℤ second) × (s <ℤ cycle_end)) }
    ensures cycle { result ≤ℤ cycle_end }
{
    if second < CYCLE_END {
        second
    } else {
        CYCLE_END
    }
}

/// Whether a footer says what an entry puts in force, where it agrees from the next entry on.
fn agrees_in_span<S: SpanTable>(footer: &Footer<'_>, set: &S, entry: usize) -> bool
    requires accepted { IsAccepted (schedule_of (S.seen set.now)) }
    requires within { entry < length (S.seen set.now).others }
    requires bound { entry < 18446744073709551615 }
    requires first { year_zero ≤ℤ time_of_entry (S.seen set.now) entry }
    requires later { suc entry < length (shifts_of (S.seen set.now)) → AgreesAt (footer_shown footer.now) (S.seen set.now) (suc entry) }
    ensures { IsTrue result ↔ AgreesAt (footer_shown footer.now) (S.seen set.now) entry }
{
    let low = set.time(entry);
    let high = end_of(set, entry);
    if high <= low {
        return true;
    }
    is_constant(footer, low, high, &kind_at(Saves::Any, set, entry + 1))
}

/// Whether a footer agrees from an entry on, where it does from the next one on.
fn goes_on<S: SpanTable>(footer: &Footer<'_>, set: &S, entry: usize) -> bool
    requires accepted { IsAccepted (schedule_of (S.seen set.now)) }
    requires within { entry < length (S.seen set.now).others }
    requires bound { entry < 18446744073709551615 }
    requires later { suc entry < length (shifts_of (S.seen set.now)) → AgreesAt (footer_shown footer.now) (S.seen set.now) (suc entry) }
    ensures { IsTrue result ↔ AgreesAt (footer_shown footer.now) (S.seen set.now) entry }
{
    set.time(entry) >= YEAR_ZERO && agrees_in_span(footer, set, entry)
}

/// The first of the entries from each of which on a footer agrees, or how many entries there are.
pub(crate) fn walk<S: SpanTable>(footer: &Footer<'_>, set: &S) -> usize
    requires { IsAccepted (schedule_of (S.seen set.now)) }
    ensures { IsWalked (footer_shown footer.now) (S.seen set.now) result }
{
    let mut from = set.entry_count();
    'entries: while from > 0 {
        if !goes_on(footer, set, from - 1) {
            return from;
        }
        from -= 1;
    }
    from
}
