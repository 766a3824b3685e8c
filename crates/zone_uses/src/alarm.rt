//! A daily alarm.
ghost use Rattle.std.specs.Prelude.{◌≡◌, ◌++◌, true, IfErr, IfOk, OnOk, filter_map, map, option_to_list};
ghost use Rattle.tz_lookup.specs.InForce.{shown_of};
ghost use Rattle.zone_alarm.specs.{Rings.{ends_in_years, rings}, Shown.{ring_shown}};
ghost use Rattle.zone_uses.specs.Causes.{IsAlarmCause};

use sefunjaro::{Date, Error, OffsetDateTime, Ring, Time, TimeZone, alarms};
use std::alloc::{AllocError, Global};

/// The instants of an alarm in so many days: on a day on which clocks skip the time there is none.
///
/// # Errors
///
/// `Alarm` of `Range` exactly where `days` is above 0 and the last day is past 9999-12-31; `NoMemory`, and never where `Range` is due.
pub fn wake_ups<T: TimeZone>(
    alloc: Global,
    zone: &T,
    at: Time,
    first: Date,
    days: u32,
) -> Result<Vec<OffsetDateTime>, Error>
    ensures ok { OnOk result (ends_in_years first days ≡ true) }
    ensures found { IfOk result (λ found. map shown_of found.items ≡ filter_map (λ ring. ring.1) (rings (T.total_at zone.now) at first days)) }
    ensures err { IfErr result (IsAlarmCause first days) }
{
    let rings = alarms(alloc, zone, at, first, days)?;
    Ok(instants_of(alloc, &rings)?)
}

/// The instants of those rings that have one.
fn instants_of(alloc: Global, rings: &[Ring]) -> Result<Vec<OffsetDateTime>, AllocError>
    ensures { IfOk result (λ found. map shown_of found.items ≡ filter_map (λ ring. ring.1) (map ring_shown rings.now)) }
{
    let mut found = Vec::new(alloc);
    for ring in rings {
        add_ring(&mut found, ring)?;
    }
    Ok(found)
}

/// Adds the instant of a ring, if there is one.
fn add_ring(found: &mut Vec<OffsetDateTime>, ring: &Ring) -> Result<(), AllocError>
    ensures { OnOk result (found.new.items ≡ found.old.items ++ option_to_list ring.now.at) }
{
    match ring.at {
        Some(time) => found.extend_from_slice(&[time]),
        None => Ok(()),
    }
}
