//! What a compiled file puts in force, with what its footer says from the last change on.
ghost use Rattle.std.specs.Prelude.{◌≡◌, ◌≤◌, true, ℤ, ◌≤ℤ◌, ◌<ℤ◌, option_map, unsigned_abs};
ghost use Rattle.zone_tzif_core.specs.{ZoneFiles.{zone_seen}, Zones.{rises}};
ghost use Rattle.tz_tzif.specs.{Faults.{are_small}, FooterShown.{footer_shown, held_shown}, InForce.{are_over, kind_in}, Years.{HasDate}};

use crate::footer::Footer;
use crate::held::Held;
use crate::search::{changes_until, held_after, time_at};
use zone_tzif_core::ZoneFile;

/// What holds at a second.
#[tactic(auto, unfolding(crate::specs::InForce::kind_in))]
pub(crate) fn held_in<'a>(zone: &'a ZoneFile, footer: &Option<Footer<'a>>, second: i64) -> Held<'a>
    requires rising { rises (zone_seen zone.now).rest ≡ true }
    requires small { are_small (zone_seen zone.now) ≡ true }
    requires near { unsigned_abs second ≤ 800_000_000_000 }
    ensures { held_shown result ≡ kind_in (zone_seen zone.now) (option_map footer_shown footer.now) second }
{
    let count = changes_until(zone, second);
    let over = count == zone.change_count();
    match footer {
        Some(footer) if over => footer.held_at(second),
        Some(_) => held_after(zone, count),
        None => held_after(zone, count),
    }
}

/// A later second up to which the same holds.
#[tactic(auto, unfolding(crate::specs::InForce::kind_in))]
pub(crate) fn next_in(zone: &ZoneFile, footer: &Option<Footer<'_>>, second: i64) -> i64
    requires rising { rises (zone_seen zone.now).rest ≡ true }
    requires dated { HasDate second }
    ensures later { second <ℤ result }
    ensures same { (t : ℤ) → second ≤ℤ t → t <ℤ result
        → kind_in (zone_seen zone.now) (option_map footer_shown footer.now) t ≡ kind_in (zone_seen zone.now) (option_map footer_shown footer.now) second }
{
    let count = changes_until(zone, second);
    if count < zone.change_count() {
        return time_at(zone, count);
    }
    match footer {
        Some(footer) => footer.next_change(second),
        None => i64::MAX,
    }
}

/// Whether each change is at or before a second.
pub(crate) fn are_over(zone: &ZoneFile, second: i64) -> bool
    requires { rises (zone_seen zone.now).rest ≡ true }
    ensures { result ≡ are_over (zone_seen zone.now).rest second }
{
    changes_until(zone, second) == zone.change_count()
}
