//! What holds at a second, by a search among the changes.
ghost use Rattle.std.specs.{Prelude.{◌≡◌, ◌≤◌, ◌<◌, ◌<ℤ◌, ℤ, int_le, nat_eq, length, pos, slice_index_or, take, true, filter}, List.{list_all}};
ghost use Rattle.tz_tzif.specs.{FooterShown.{held_shown}, InForce.{are_over}, Steady.{IsSteady}, Faults.{are_small}};
ghost use Rattle.zone_tzif_core.specs.{Shown.{record_shown}, Totals.{last_kind}, ZoneFiles.{unnumbered, zone_seen}, Zones.{is_small, rises}};

use crate::held::Held;
use civil_base::UtcOffset;
use zone_tzif_core::{Record, ZoneFile};

/// How many changes are at or before a second, of changes whose times rise.
pub(crate) fn changes_until(zone: &ZoneFile, second: i64) -> usize
    requires { rises (zone_seen zone.now).rest ≡ true }
    ensures within { result ≤ length (zone_seen zone.now).rest }
    ensures over { are_over (zone_seen zone.now).rest second ≡ nat_eq result (length (zone_seen zone.now).rest) }
    ensures before { take result (zone_seen zone.now).rest ≡ filter (λ change. int_le change.0 second) (zone_seen zone.now).rest }
    ensures next { result < length (zone_seen zone.now).rest → second <ℤ (slice_index_or (zone_seen zone.now).rest result (pos 0, unnumbered)).0 }
    ensures same { IsSteady (zone_seen zone.now).rest result second }
{
    zone.changes().partition_point(
        |change: &(i64, u8)| -> bool
            ensures { result ≡ int_le change.now.0 second }
        { change.0 <= second },
    )
}

/// The second of the change at a place, which counts from 0.
pub(crate) fn time_at(zone: &ZoneFile, place: usize) -> i64
    requires { place < length (zone_seen zone.now).rest }
    ensures { result ≡ (slice_index_or (zone_seen zone.now).rest place (pos 0, unnumbered)).0 }
{
    zone.changes()[place].0
}

/// The kind in force after so many changes.
pub(crate) fn held_after<'a>(zone: &'a ZoneFile, count: usize) -> Held<'a>
    requires small { are_small (zone_seen zone.now) ≡ true }
    requires within { count ≤ length (zone_seen zone.now).rest }
    ensures { held_shown result ≡ last_kind (zone_seen zone.now).first (take count (zone_seen zone.now).rest) }
{
    if count == 0 {
        held_of(&zone.first())
    } else {
        held_of(&zone.kind_at(count - 1))
    }
}

/// What a kind puts in force.
fn held_of<'a>(kind: &Record<'a>) -> Held<'a>
    requires { is_small kind.now.utoff ≡ true }
    ensures { held_shown result ≡ record_shown kind.now }
{
    Held::new(kind.name, offset_of(kind.utoff), kind.is_dst)
}

/// The offset of so many seconds.
fn offset_of(utoff: i32) -> UtcOffset
    requires { is_small utoff ≡ true }
    ensures { result ≡ utoff }
{
    match UtcOffset::from_whole_seconds(utoff) {
        Ok(offset) => offset,
        Err(_) => unreachable!(),
    }
}
