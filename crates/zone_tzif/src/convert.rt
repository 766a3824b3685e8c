//! The zone of a compiled set.
ghost use Rattle.std.specs.Prelude.{◌≡◌, ◌<◌, ℤ, true, Some, length, map, slice_get, IfOk};
ghost use Rattle.civil_base.specs.Ranges.{is_offset};
ghost use Rattle.zone_spans.specs.{Entries.{total}, Schedules.{total_at as set_total_at}};
ghost use Rattle.tz_lookup.specs.Sets.{schedule_of, IsAccepted};
ghost use Rattle.zone_tzif_core.specs.{Shown.{kind_shown, shift_shown, shifts_shown, zone_shown}, Totals.{file_total_at}, Tzif.{IsValue}};
ghost use Rattle.zone_tzif.specs.Values.{kind_by, change_by, value_by, value_of};

use std::alloc::{AllocError, Global};
use tz_lookup::SpanTable;
use zone_spans::FixedTimespan;
use zone_tzif_core::{Kind, TzifZone};

/// Which saving is daylight saving time.
#[derive(Clone, Copy, Debug, PartialEq, Eq)]
pub enum Saves {
    /// One above 0.
    Above,
    /// Any but 0.
    Any,
}

impl Saves {
    ghost use Rattle.std.specs.Prelude.{◌≡◌};
    ghost use Rattle.zone_tzif.specs.Values.{is_saved};

    /// Whether that saving is, in seconds.
    pub(crate) fn is_saved(self, saving: i64) -> bool
        ensures { result ≡ is_saved self saving }
    {
        match self {
            Saves::Above => saving > 0,
            Saves::Any => saving != 0,
        }
    }
}

/// What a span puts in force: its offset and saving together, whether it is daylight saving time, and its abbreviation.
fn kind_of(alloc: Global, saves: Saves, span: &FixedTimespan) -> Result<Kind, AllocError>
    requires { is_offset (total span.now) ≡ true }
    ensures { IfOk result (λ kind. kind_shown kind ≡ kind_by saves span.now) }
{
    let total = span.utc_offset + span.dst_offset;
    Ok(Kind {
        utoff: total as i32,
        is_dst: saves.is_saved(span.dst_offset),
        name: String::from_str(alloc, span.name.as_str())?,
    })
}

/// The entry at a place of the order of time, which counts from 0, as a change.
fn change_at<S: SpanTable>(
    alloc: Global,
    saves: Saves,
    set: &S,
    place: usize,
) -> Result<(i64, Kind), AllocError>
    requires accepted { IsAccepted (schedule_of (S.seen set.now)) }
    requires within { place < length (S.seen set.now).others }
    requires bound { place < 18446744073709551615 }
    ensures { IfOk result (λ change. slice_get (map (change_by saves) (S.seen set.now).others) place ≡ Some (shift_shown change)) }
{
    let time = set.time(place);
    let kind = kind_of(alloc, saves, set.span(place + 1))?;
    Ok((time, kind))
}

/// The entries as changes.
fn changes_of<S: SpanTable>(
    alloc: Global,
    saves: Saves,
    set: &S,
) -> Result<Vec<(i64, Kind)>, AllocError>
    requires { IsAccepted (schedule_of (S.seen set.now)) }
    ensures { IfOk result (λ changes. shifts_shown changes.items ≡ map (change_by saves) (S.seen set.now).others) }
{
    let count = set.entry_count();
    let mut changes = Vec::with_capacity(alloc, count)?;
    for place in 0..count {
        changes.push(change_at(alloc, saves, set, place)?)?;
    }
    Ok(changes)
}

/// The zone that a set is in a file, with that footer. The set is a `FixedTimespanSet` or whatever else gives spans by number, and one
/// that a `Tz` can be made of: each span's offset and saving together are less than 26 hours in size. At each instant the zone's
/// offset is the set's. Of what `write_tzif` writes for it, both readers read that zone again.
///
/// # Errors
///
/// Want of memory alone.
pub fn from_set<S: SpanTable>(alloc: Global, set: &S, footer: &str) -> Result<TzifZone, AllocError>
    requires { IsAccepted (schedule_of (S.seen set.now)) }
    ensures value { IfOk result (λ zone. zone_shown zone ≡ value_of (S.seen set.now) footer.now) }
    ensures typed { IfOk result (λ zone. IsValue (zone_shown zone)) }
    ensures totals { IfOk result (λ zone. (t : ℤ) → file_total_at (zone_shown zone) t ≡ set_total_at (schedule_of (S.seen set.now)) t) }
{
    zone_by(alloc, Saves::Above, set, footer)
}

/// The same, where these savings are daylight saving time.
pub(crate) fn zone_by<S: SpanTable>(
    alloc: Global,
    saves: Saves,
    set: &S,
    footer: &str,
) -> Result<TzifZone, AllocError>
    requires { IsAccepted (schedule_of (S.seen set.now)) }
    ensures value { IfOk result (λ zone. zone_shown zone ≡ value_by saves (S.seen set.now) footer.now) }
    ensures typed { IfOk result (λ zone. IsValue (zone_shown zone)) }
    ensures totals { IfOk result (λ zone. (t : ℤ) → file_total_at (zone_shown zone) t ≡ set_total_at (schedule_of (S.seen set.now)) t) }
{
    Ok(TzifZone {
        first: kind_of(alloc, saves, set.span(0))?,
        rest: changes_of(alloc, saves, set)?,
        footer: String::from_str(alloc, footer)?,
    })
}
