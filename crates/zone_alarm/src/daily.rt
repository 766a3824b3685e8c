//! The rings of many days.
ghost use Rattle.std.specs.Prelude.{◌≡◌, ◌↔◌, [], ◌∷◌, ◌++◌, ℤ, pos, ◌+ℤ◌, All, AllPairs, IfOk, IfSome, IsErrOf, IsSome, OnOk, map, true, false};
ghost use Rattle.civil_base.specs.{Julian.{day_of_julian}, Ranges.{IsDay}};
ghost use Rattle.zone_alarm.specs.{RingsOnce.{AreApart, RingsOnce}, Rings.{day_ring, ends_in_years, rings}, Shown.{ring_shown}};

use crate::ring::{AlarmFault, Ring};
use civil_base::{Date, PlainDateTime, Time};
use std::alloc::{AllocError, Global};
use tz_lookup::{PrimitiveDateTimeExt, TimeZone};

/// When an alarm rings that is set to a time of day: one `Ring` for each of so many days, from the first on, in order.
///
/// On a day on which clocks skip the time it doesn't ring; on one on which they show it twice it rings at the first of the
/// instants; so it rings at most once a day, and never at one instant on two days.
///
/// # Errors
///
/// `Range` exactly where `days` is above 0 and the last day is past 9999-12-31; `NoMemory`, and never where `Range` is due.
pub fn alarms<T: TimeZone>(
    alloc: Global,
    zone: &T,
    at: Time,
    first: Date,
    days: u32,
) -> Result<Vec<Ring>, AlarmFault>
    ensures ok { OnOk result (ends_in_years first days ≡ true) }
    ensures range { IsErrOf result AlarmFault.Range → ends_in_years first days ≡ false }
    ensures memory { IsErrOf result AlarmFault.NoMemory → ends_in_years first days ≡ true }
    ensures rings { IfOk result (λ found. map ring_shown found.items ≡ rings (T.total_at zone.now) at first days) }
    ensures once { IfOk result (λ found. All (RingsOnce (T.total_at zone.now) at) (map ring_shown found.items)) }
    ensures apart { IfOk result (λ found. AllPairs AreApart (map ring_shown found.items)) }
{
    if !ends_in_years(first, days) {
        return Err(AlarmFault::Range);
    }
    let mut found = Vec::with_capacity(alloc, days as usize)?;
    for past in 0..days {
        let Some(date) = day_after(first, past) else {
            return Err(AlarmFault::Range);
        };
        add_ring(&mut found, ring_on(zone, at, date))?;
    }
    Ok(found)
}

/// Adds a ring.
fn add_ring(found: &mut Vec<Ring>, ring: Ring) -> Result<(), AllocError>
    ensures { OnOk result (found.new.items ≡ found.old.items ++ ring ∷ []) }
{
    found.extend_from_slice(&[ring])
}

/// When the alarm rings on a day.
fn ring_on<T: TimeZone>(zone: &T, at: Time, date: Date) -> Ring
    ensures { ring_shown result ≡ day_ring (T.total_at zone.now) at date }
{
    Ring {
        date,
        at: PlainDateTime::new(date, at)
            .assume_timezone(zone)
            .take_first(),
    }
}

/// Whether the last of so many days lies in the years of dates, if there is one.
fn ends_in_years(first: Date, days: u32) -> bool
    ensures { result ≡ ends_in_years first days }
{
    days == 0 || day_after(first, days - 1).is_some()
}

/// The day so many days after another, if it is at most 9999-12-31.
fn day_after(first: Date, days: u32) -> Option<Date>
    ensures has { IsSome result ↔ IsDay (first +ℤ pos days) }
    ensures value { IfSome result (λ date. date ≡ first +ℤ pos days) }
{
    let number = i64::from(first.to_julian_day()) + i64::from(days);
    match i32::try_from(number) {
        Ok(julian_day) => date_of_julian(julian_day),
        Err(_) => None,
    }
}

/// The date of a Julian day, if it lies in the years -9999 to 9999.
fn date_of_julian(julian_day: i32) -> Option<Date>
    ensures has { IsSome result ↔ IsDay (day_of_julian julian_day) }
    ensures value { IfSome result (λ date. date ≡ day_of_julian julian_day) }
{
    Date::from_julian_day(julian_day).ok()
}
