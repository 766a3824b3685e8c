//! The total offset of a zone at a second, and how long it is in force.
ghost use Rattle.std.specs.{Prelude.{◌≡◌, ◌≤◌, ◌<◌, ◌+◌, ◌*◌, ◌≤ℤ◌, ◌<ℤ◌, ◌+ℤ◌, ◌-ℤ◌, pos, neg_ℤ, ℤ}, Int.{int_max, int_min}};
ghost use Rattle.civil_base.specs.Ranges.{far_seconds};
ghost use Rattle.tz_lookup.specs.Stretches.{IsStretch};
ghost use Rattle.tz_ever.specs.{Ever.{ever_total}, Recurrences.{zone_total}, Stretches.{cycle_begin, ever_begin, ever_end, zone_begin, zone_end}, Unrolled.{next_seam_second, seam_second}, ZoneShown.{recurrence_of, zone_set_of}};
ghost use Rattle.tz_ever.specs.declared.recurrence.Recurrence.TheVariants.{Always};

use crate::recurrence::Recurrence;
use crate::table::{CYCLE, EARLIER, NEXT_SEAM, SEAM};
use crate::zone_set::ZoneSet;
use tz_lookup::{Stretch, stretch_of};

/// The total offset of a zone at a second, in seconds from 1970-01-01 00:00:00 UTC, and the seconds around it, of which it is one: from the
/// last entry up to it up to the next one. Where the changes come again, none past the end of its cycle, and in another cycle than the
/// first none before the cycle begins: there the second is turned to the years that are kept, at the cost of a division.
pub fn zone_stretch(zone: &ZoneSet, second: i64) -> Stretch
    requires far { second ≤ℤ pos far_seconds }
    requires early { recurrence_of zone.now ≡ Always → neg_ℤ (pos 387140688000) ≤ℤ second }
    ensures is { IsStretch (zone_total (recurrence_of zone.now) (zone_set_of zone.now)) second result }
    ensures from { result.from ≡ zone_begin (recurrence_of zone.now) (zone_set_of zone.now) second }
    ensures until { result.until ≡ zone_end (recurrence_of zone.now) (zone_set_of zone.now) second }
    ensures lasts { second <ℤ result.until }
{
    match zone.recurrence() {
        Recurrence::Never => stretch_of(zone.compact(), second),
        Recurrence::Later => ever_stretch(zone, second),
        Recurrence::Always => always_stretch(zone, second),
    }
}

/// The same where the changes come again always: that of 31 cycles later, moved.
fn always_stretch(zone: &ZoneSet, second: i64) -> Stretch
    requires far { second ≤ℤ pos far_seconds }
    requires early { neg_ℤ (pos 387140688000) ≤ℤ second }
    ensures is { IsStretch (zone_total Always (zone_set_of zone.now)) second result }
    ensures from { result.from ≡ zone_begin Always (zone_set_of zone.now) second }
    ensures until { result.until ≡ zone_end Always (zone_set_of zone.now) second }
    ensures lasts { second <ℤ result.until }
{
    let there = second + EARLIER;
    let found = later_stretch(zone, there, cycles_past(there));
    let from = found.from - EARLIER;
    let until = found.until - EARLIER;
    Stretch {
        from,
        until,
        offset: found.offset,
    }
}

/// The same where they come again later.
fn ever_stretch(ever: &ZoneSet, second: i64) -> Stretch
    requires { second ≤ℤ pos far_seconds }
    ensures is { IsStretch (ever_total (zone_set_of ever.now)) second result }
    ensures from { result.from ≡ ever_begin (zone_set_of ever.now) second }
    ensures until { result.until ≡ ever_end (zone_set_of ever.now) second }
    ensures lasts { second <ℤ result.until }
{
    if second < NEXT_SEAM {
        first_stretch(ever, second)
    } else {
        later_stretch(ever, second, cycles_past(second))
    }
}

/// The same before 2502.
fn first_stretch(ever: &ZoneSet, second: i64) -> Stretch
    requires { second <ℤ next_seam_second }
    ensures is { IsStretch (ever_total (zone_set_of ever.now)) second result }
    ensures from { result.from ≡ ever_begin (zone_set_of ever.now) second }
    ensures until { result.until ≡ ever_end (zone_set_of ever.now) second }
    ensures lasts { second <ℤ result.until }
{
    let found = stretch_of(ever.compact(), second);
    let until = to_seam(found.until);
    Stretch {
        from: found.from,
        until,
        offset: found.offset,
    }
}

/// The same so many cycles past the seam.
fn later_stretch(ever: &ZoneSet, second: i64, cycles: usize) -> Stretch
    requires few { cycles ≤ 80 }
    requires begun { (seam_second +ℤ pos (cycles * 12622780800)) ≤ℤ second }
    requires lasts { second <ℤ (seam_second +ℤ pos ((cycles + 1) * 12622780800)) }
    ensures is { IsStretch (ever_total (zone_set_of ever.now)) second result }
    ensures from { 0 < cycles → result.from ≡ ever_begin (zone_set_of ever.now) second }
    ensures begin { result.from ≡ cycle_begin (zone_set_of ever.now) second }
    ensures low { seam_second ≤ℤ result.from }
    ensures until { result.until ≡ ever_end (zone_set_of ever.now) second }
    ensures lasts { second <ℤ result.until }
{
    let found = stretch_of(ever.compact(), earlier(second, cycles));
    let from = later(from_seam(found.from), cycles);
    let until = later(to_seam(found.until), cycles);
    Stretch {
        from,
        until,
        offset: found.offset,
    }
}

/// A second so many cycles earlier.
fn earlier(second: i64, cycles: usize) -> i64
    requires few { cycles ≤ 80 }
    requires second { seam_second ≤ℤ second }
    ensures { result ≡ second -ℤ pos (cycles * 12622780800) }
{
    second - cycles as i64 * CYCLE
}

/// A second so many cycles later.
fn later(second: i64, cycles: usize) -> i64
    requires few { cycles ≤ 80 }
    requires second { second ≤ℤ next_seam_second }
    ensures { result ≡ second +ℤ pos (cycles * 12622780800) }
{
    second + cycles as i64 * CYCLE
}

/// The whole cycles between the seam and a later second.
fn cycles_past(second: i64) -> usize
    requires late { seam_second ≤ℤ second }
    requires far { second ≤ℤ pos 800000000000 }
    ensures few { result ≤ 80 }
    ensures some { next_seam_second ≤ℤ second → 0 < result }
    ensures begun { (seam_second +ℤ pos (result * 12622780800)) ≤ℤ second }
    ensures lasts { second <ℤ (seam_second +ℤ pos ((result + 1) * 12622780800)) }
{
    (second - SEAM) as usize / 12_622_780_800
}

/// A second, or the seam where that comes after it.
fn from_seam(second: i64) -> i64
    ensures is { result ≡ int_max second seam_second }
    ensures seam { seam_second ≤ℤ result }
    ensures second { second ≤ℤ result }
    ensures least { (x : ℤ) → seam_second ≤ℤ x → second ≤ℤ x → result ≤ℤ x }
{
    if second < SEAM { SEAM } else { second }
}

/// A second, or the next seam where that comes before it.
fn to_seam(second: i64) -> i64
    ensures is { result ≡ int_min second next_seam_second }
    ensures seam { result ≤ℤ next_seam_second }
    ensures second { result ≤ℤ second }
    ensures greatest { (x : ℤ) → x <ℤ next_seam_second → x <ℤ second → x <ℤ result }
{
    if second < NEXT_SEAM {
        second
    } else {
        NEXT_SEAM
    }
}
