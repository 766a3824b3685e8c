//! The text that answers a request.
ghost use Rattle.std.specs.Prelude.{◌≡◌, ◌++◌, ◌∷◌, [], ℤ, true, false, IfOk, IfNone, IfSome, IsTrue, OnErr, OnOk, length, take, ◌≤◌};
ghost use Rattle.tz_lookup.specs.InForce.{all_in_force, in_force, shown_of};
ghost use Rattle.civil_base.specs.{DateTimes.{instant, offset_of}, Instants.{local_at}, Layout.{local_text}, Ranges.{IsOffset}};
ghost use Rattle.zone_answers.specs.{Asked.{asked}, Requests.{IsSpelled}, Due.{answer_text, shown_at, text_shown}, Faults.{are_in_years, has_dates}};

use crate::request::Request;
use civil_base::{OffsetDateTime, PlainDateTime, spaced_offset, write_local, write_zoned};
use std::alloc::AllocError;
use tz_lookup::{AllInstants, InstantsOf, OffsetDateTimeExt, TimeZone};

/// Adds the line of a request of the zone to a text, without its LF. It adds none and answers no where the UTC date or the local
/// date of an asked instant lies outside the years -9999 to 9999.
///
/// # Errors
///
/// Want of memory alone. The text is as before then.
#[tactic(auto, unfolding(crate::specs::Due::shown_at, crate::specs::Faults::has_dates))]
pub fn show<T: AllInstants>(
    zone: &T,
    request: &Request<'_>,
    text: &mut Vec<u8>,
) -> Result<bool, AllocError>
    ensures dates { IfOk result (λ has. has ≡ has_dates (T.total_at zone.now) (asked request.now)) }
    ensures line { IfOk result (λ has. IsTrue has →
        text.new.items ≡ text.old.items ++ answer_text (shown_at (T.total_at zone.now) (asked request.now))) }
    ensures none { IfOk result (λ has. has ≡ false → text.new.items ≡ text.old.items) }
    ensures err { OnErr result (text.new.items ≡ text.old.items) }
    ensures range { (t : ℤ) → IsOffset (T.total_at zone.now t) }
{
    match request {
        Request::At(_, nanoseconds) => Ok(add_instant(zone, nanoseconds, text)?),
        Request::Local(_, local) => {
            add_instants(zone, local, text)?;
            Ok(true)
        }
    }
}

/// The same, where the text is at hand that names the request's local time.
///
/// # Errors
///
/// Want of memory alone. The text is as before then.
#[tactic(auto, unfolding(crate::specs::Due::shown_at, crate::specs::Faults::has_dates))]
pub fn show_spelled<T: AllInstants>(
    zone: &T,
    request: &Request<'_>,
    spelled: &[u8],
    text: &mut Vec<u8>,
) -> Result<bool, AllocError>
    requires { IsSpelled (asked request.now) spelled.now }
    ensures dates { IfOk result (λ has. has ≡ has_dates (T.total_at zone.now) (asked request.now)) }
    ensures line { IfOk result (λ has. IsTrue has →
        text.new.items ≡ text.old.items ++ answer_text (shown_at (T.total_at zone.now) (asked request.now))) }
    ensures none { IfOk result (λ has. has ≡ false → text.new.items ≡ text.old.items) }
    ensures err { OnErr result (text.new.items ≡ text.old.items) }
    ensures range { (t : ℤ) → IsOffset (T.total_at zone.now t) }
{
    match request {
        Request::At(_, nanoseconds) => Ok(add_instant(zone, nanoseconds, text)?),
        Request::Local(_, local) => {
            add_all(zone, local, spelled, text)?;
            Ok(true)
        }
    }
}

/// Adds the text of an instant in a zone, which is told in nanoseconds from 1970-01-01 00:00:00 UTC. It adds none and answers no where
/// its UTC date or its local date lies outside the years -9999 to 9999.
///
/// # Errors
///
/// Want of memory alone. The text is as before then.
pub fn add_instant<T: TimeZone>(
    zone: &T,
    nanoseconds: &i128,
    text: &mut Vec<u8>,
) -> Result<bool, AllocError>
    ensures dates { IfOk result (λ has. has ≡ are_in_years nanoseconds.now (T.total_at zone.now nanoseconds.now)) }
    ensures added { IfOk result (λ has. IsTrue has →
        text.new.items ≡ text.old.items ++ answer_text (in_force (T.total_at zone.now) nanoseconds.now ∷ [])) }
    ensures none { IfOk result (λ has. has ≡ false → text.new.items ≡ text.old.items) }
    ensures err { OnErr result (text.new.items ≡ text.old.items) }
{
    match date_time_at(zone, *nanoseconds) {
        Some(shown) => {
            add_text(&shown, text)?;
            Ok(true)
        }
        None => Ok(false),
    }
}

/// The date and time in the zone at an instant, if its UTC date and its local date lie in the years -9999 to 9999.
fn date_time_at<T: TimeZone>(zone: &T, nanoseconds: i128) -> Option<OffsetDateTime>
    ensures none { IfNone result (are_in_years nanoseconds (T.total_at zone.now nanoseconds) ≡ false) }
    ensures some { IfSome result (λ _. are_in_years nanoseconds (T.total_at zone.now nanoseconds) ≡ true) }
    ensures shown { IfSome result (λ shown. shown_of shown ≡ in_force (T.total_at zone.now) nanoseconds) }
{
    let Ok(at_utc) = OffsetDateTime::from_unix_timestamp_nanos(nanoseconds) else {
        return None;
    };
    match at_utc.to_timezone(zone) {
        Some(shown) => Some(shown),
        None => None,
    }
}

/// Adds the texts of all instants that a zone reads as a local time, by time, with bars between them, or that there is none.
///
/// # Errors
///
/// Want of memory alone. The text is as before then.
pub fn add_instants<T: AllInstants>(
    zone: &T,
    local: &PlainDateTime,
    text: &mut Vec<u8>,
) -> Result<(), AllocError>
    ensures added { OnOk result (text.new.items ≡ text.old.items ++ answer_text (all_in_force (T.total_at zone.now) local.now)) }
    ensures err { OnErr result (text.new.items ≡ text.old.items) }
{
    let mut spelled = [0; 30];
    let end = write_local(local, &mut spelled);
    add_all(zone, local, &spelled[..end], text)
}

/// The same, where the text of the local time is at hand.
fn add_all<T: AllInstants>(
    zone: &T,
    local: &PlainDateTime,
    spelled: &[u8],
    text: &mut Vec<u8>,
) -> Result<(), AllocError>
    requires { local_text local.now ≡ spelled.now }
    ensures added { OnOk result (text.new.items ≡ text.old.items ++ answer_text (all_in_force (T.total_at zone.now) local.now)) }
    ensures err { OnErr result (text.new.items ≡ text.old.items) }
{
    let before = text.len();
    match add_each(zone, local, spelled, text) {
        Ok(()) => Ok(()),
        Err(refused) => {
            text.truncate(before);
            Err(refused)
        }
    }
}

/// Adds them, some of them where memory runs out. All begin with the text of the local time.
fn add_each<T: AllInstants>(
    zone: &T,
    local: &PlainDateTime,
    spelled: &[u8],
    text: &mut Vec<u8>,
) -> Result<(), AllocError>
    requires { local_text local.now ≡ spelled.now }
    ensures added { OnOk result (text.new.items ≡ text.old.items ++ answer_text (all_in_force (T.total_at zone.now) local.now)) }
    ensures front { take (length text.old.items) text.new.items ≡ text.old.items }
{
    let mut is_first = true;
    for date in InstantsOf::new(zone, local) {
        if !is_first {
            add_bytes(b" | ", text)?;
        }
        add_spelled(&date, spelled, text)?;
        is_first = false;
    }
    if is_first {
        add_bytes(b"none", text)?;
    }
    Ok(())
}

/// Adds the zoned text of a date-time.
fn add_text(shown: &OffsetDateTime, text: &mut Vec<u8>) -> Result<(), AllocError>
    ensures added { OnOk result (text.new.items ≡ text.old.items ++ text_shown (shown_of shown.now)) }
    ensures err { OnErr result (text.new.items ≡ text.old.items) }
{
    let mut zoned = [0; 40];
    let end = write_zoned(shown, &mut zoned);
    add_bytes(&zoned[..end], text)
}

/// The same of a date-time whose local text is at hand.
fn add_spelled(shown: &OffsetDateTime, spelled: &[u8], text: &mut Vec<u8>) -> Result<(), AllocError>
    requires { local_text (local_at (instant shown.now) (offset_of shown.now)) ≡ spelled.now }
    ensures added { OnOk result (text.new.items ≡ text.old.items ++ text_shown (shown_of shown.now)) }
    ensures err { OnErr result (text.new.items ≡ text.old.items) }
{
    add_both(spelled, &spaced_offset(shown.offset()), text)
}

/// Adds some bytes.
fn add_bytes(bytes: &[u8], text: &mut Vec<u8>) -> Result<(), AllocError>
    ensures added { OnOk result (text.new.items ≡ text.old.items ++ bytes.now) }
    ensures err { OnErr result (text.new.items ≡ text.old.items) }
{
    text.extend_from_slice(bytes)?;
    Ok(())
}

/// Adds some bytes, and others behind them.
fn add_both(first: &[u8], second: &[u8], text: &mut Vec<u8>) -> Result<(), AllocError>
    requires { length second.now ≤ 10 }
    ensures added { OnOk result (text.new.items ≡ text.old.items ++ (first.now ++ second.now)) }
    ensures err { OnErr result (text.new.items ≡ text.old.items) }
{
    text.reserve(first.len() + second.len())?;
    text.extend_from_slice(first).unwrap();
    text.extend_from_slice(second).unwrap();
    Ok(())
}
