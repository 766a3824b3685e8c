//! A compiled file as spans, and whether they come again.
ghost use Rattle.std.specs.Prelude.{◌≡◌, ◌≤◌, true, IfOk, MatchResult, ℤ, ◌≤ℤ◌, option_map, unsigned_abs};
ghost use Rattle.civil_base.specs.Ranges.{IsOffset};
ghost use Rattle.zone_spans.specs.Entries.{total};
ghost use Rattle.zone_tzif_core.specs.{ZoneFiles.{zone_seen}, Zones.{rises}};
ghost use Rattle.tz_tzif.specs.{Faults.{are_small, IsAcceptedFile, IsTzifFault}, FooterShown.{footer_shown, held_shown}, InForce.{kind_in}, Opened.{IsOpenedAs, span_of}, Walks.{GoesAs, IsSetOver, IsWalked, begin_of_set, end_of_set}, Years.{HasDate, end_of_dated}};

use crate::accept::accepted_footer;
use crate::fault::TzifFault;
use crate::footer::Footer;
use crate::held::Held;
use crate::in_force::{are_over, held_in, next_in};
use crate::repeats::footers_repeat;
use basics::{Items, Text};
use std::alloc::{AllocError, Global};
use tz_ever::Recurrence;
use tz_lookup::FixedTimespanSet;
use zone_spans::FixedTimespan;
use zone_tzif_core::ZoneFile;

/// An hour, which stands for daylight saving time: a file says only whether it holds.
const HOUR: i64 = 3_600;

/// 26 hours before -9999-01-01 00:00:00 UTC, and 26 hours past 9999-12-31.
const FIRST_DATED: i64 = -377_705_210_400;

const END_OF_DATED: i64 = 253_402_394_400;

/// Two days before 2102-01-01 00:00:00 UTC, and two days past the end of 2501: the cycle of 400 years with what is shown beside it.
const CYCLE_BEGIN: i64 = 4_165_344_000;

const CYCLE_END: i64 = 16_788_470_400;

/// What a compiled file puts in force, as spans.
#[derive(Debug, Drop)]
pub struct FileSpans {
    /// The spans.
    pub set: FixedTimespanSet,
    /// Whether those of 400 years come again.
    pub recurrence: Recurrence,
}

/// The spans of a compiled file, with what its footer says from the last change on, under a name. They take memory in proportion to the
/// file's changes, with those of the footer up to the year 2502; where a change comes after 2101, up to the year 10000.
///
/// # Errors
///
/// In this order: `Times` exactly where the times don't strictly rise; `Offset` exactly where an offset is past 93,599 seconds in size;
/// `Footer` exactly where there is a footer and it is no footer in the ranges of its parts; `NoMemory`.
pub fn spans_of(alloc: Global, name: &str, zone: &ZoneFile) -> Result<FileSpans, TzifFault>
    ensures { MatchResult result (IsOpenedAs name.now (zone_seen zone.now)) (IsTzifFault (zone_seen zone.now)) }
{
    match accepted_footer(zone) {
        Ok(footer) => match spans_by(alloc, name, zone, &footer) {
            Ok(spans) => Ok(spans),
            Err(_) => Err(TzifFault::NoMemory),
        },
        Err(fault) => Err(fault),
    }
}

/// The spans by what the footer says.
fn spans_by<'a>(
    alloc: Global,
    name: &str,
    zone: &'a ZoneFile,
    footer: &Option<Footer<'a>>,
) -> Result<FileSpans, AllocError>
    requires { IsAcceptedFile (zone_seen zone.now) (option_map footer_shown footer.now) }
    ensures { IfOk result (IsOpenedAs name.now (zone_seen zone.now)) }
{
    footers_repeat();
    let recurrence = recurrence_of(zone, footer);
    let (from, end) = ends_of(recurrence);
    let set = set_over(alloc, name, zone, footer, from, end)?;
    Ok(FileSpans { set, recurrence })
}

/// The seconds from which and up to which a set says what is in force, so that its cycle, if it has one, is told with some days beside it.
fn ends_of(recurrence: Recurrence) -> (i64, i64)
    ensures from { result.0 ≡ begin_of_set recurrence }
    ensures end { result.1 ≡ end_of_set recurrence }
{
    match recurrence {
        Recurrence::Never => (FIRST_DATED, END_OF_DATED),
        Recurrence::Later => (FIRST_DATED, CYCLE_END),
        Recurrence::Always => (CYCLE_BEGIN, CYCLE_END),
    }
}

/// Whether a year's changes come again: where a footer has a rule for each year, and no change comes later.
fn recurrence_of(zone: &ZoneFile, footer: &Option<Footer<'_>>) -> Recurrence
    requires { rises (zone_seen zone.now).rest ≡ true }
    ensures { GoesAs (zone_seen zone.now) (option_map footer_shown footer.now) result }
{
    match footer {
        None => Recurrence::Never,
        Some(footer) => {
            let _in_range = footer.offsets().0.whole_seconds();
            if footer.is_fixed() {
                return Recurrence::Never;
            }
            if are_over(zone, FIRST_DATED) {
                return Recurrence::Always;
            }
            if are_over(zone, CYCLE_BEGIN) {
                return Recurrence::Later;
            }
            Recurrence::Never
        }
    }
}

/// The spans from one second up to another.
fn set_over<'a>(
    alloc: Global,
    name: &str,
    zone: &'a ZoneFile,
    footer: &Option<Footer<'a>>,
    from: i64,
    end: i64,
) -> Result<FixedTimespanSet, AllocError>
    requires rising { rises (zone_seen zone.now).rest ≡ true }
    requires small { are_small (zone_seen zone.now) ≡ true }
    requires from { HasDate from }
    requires end { end ≤ℤ end_of_dated }
    ensures name { IfOk result (λ set. set.name ≡ name.now) }
    ensures set { IfOk result (IsSetOver (kind_in (zone_seen zone.now) (option_map footer_shown footer.now)) from end) }
{
    let name = Text::new(alloc, name)?;
    let first = span_of(alloc, &held_in(zone, footer, from))?;
    let others = entries_over(alloc, zone, footer, from, end)?;
    Ok(FixedTimespanSet {
        name,
        first,
        others,
    })
}

/// The changes after one second and before another, each with what it puts in force.
fn entries_over<'a>(
    alloc: Global,
    zone: &'a ZoneFile,
    footer: &Option<Footer<'a>>,
    from: i64,
    end: i64,
) -> Result<Items<(i64, FixedTimespan)>, AllocError>
    requires rising { rises (zone_seen zone.now).rest ≡ true }
    requires small { are_small (zone_seen zone.now) ≡ true }
    requires from { HasDate from }
    requires end { end ≤ℤ end_of_dated }
    ensures { IfOk result (IsWalked (kind_in (zone_seen zone.now) (option_map footer_shown footer.now)) from end) }
{
    let mut entries = Items::new(alloc);
    let mut second = next_in(zone, footer, from);
    'changes: while second < end {
        let span = span_of(alloc, &held_in(zone, footer, second))?;
        entries.push((second, span))?;
        second = next_in(zone, footer, second);
    }
    Ok(entries)
}

/// A kind as a span.
#[tactic(auto, unfolding(crate::specs::Opened::span_of))]
fn span_of(alloc: Global, held: &Held<'_>) -> Result<FixedTimespan, AllocError>
    ensures span { IfOk result (λ span. span ≡ span_of (held_shown held.now)) }
    ensures range { IfOk result (λ span. IsOffset (total span)) }
{
    let dst_offset = if held.is_dst { HOUR } else { 0 };
    Ok(FixedTimespan {
        utc_offset: i64::from(held.offset.whole_seconds()) - dst_offset,
        dst_offset,
        name: Text::new(alloc, held.name)?,
    })
}
