//! What is due of a task over zones.
ghost use Rattle.std.specs.Prelude.{◌≡◌, [], map, is_some, IfOk, IfSome, Ok, Err};
ghost use Rattle.civil_base.specs.{DateTimes.{instant}, Ranges.{is_in_years}};
ghost use Rattle.zone_command.specs.{Answers.{IsReply}, Replies.{at_lines, convert_lines, instant_at, instants_at, list_lines}};
ghost use Rattle.zone_words.specs.{TimesShown.{asked as asked_of}, TaskShown.{alarm_shown}};
ghost use Rattle.zone_texts.specs.Rings.{rings_due};

use civil_base::{OffsetDateTime, PlainDateTime};
use std::alloc::Global;
use zone_texts::{
    ReplyFault, ReplyZone, Style, add_at_line, add_converted, add_list, add_rings, local_of,
};
use zone_words::{Alarm, AskedInstant as Instant};

/// The instant that is asked for, at an instant.
pub(crate) fn moment_of(asked: &Instant, now: &OffsetDateTime) -> OffsetDateTime
    ensures { instant result ≡ instant_at (instant now.now) (asked_of asked.now) }
{
    match asked {
        Instant::Now => *now,
        Instant::At(value) => *value,
    }
}

/// The lines of instants.
pub(crate) fn at_lines<Z: ReplyZone>(
    alloc: Global,
    zone: &Z,
    style: &Style<'_>,
    times: &[Instant],
    now: &OffsetDateTime,
) -> Result<Vec<u8>, ReplyFault>
    ensures { IsReply (at_lines style.now.form (Z.view zone.now) style.now.name.now [] (instants_at (instant now.now) (map asked_of times.now))) result }
{
    let mut text = Vec::new(alloc);
    for time in times {
        let at = moment_of(time, now);
        match add_at_line(&mut text, alloc, zone, style, &at) {
            Ok(()) => {}
            Err(ReplyFault::OutOfYears) => return Err(ReplyFault::OutOfYears),
            Err(ReplyFault::Untold) => return Err(ReplyFault::Untold),
            Err(ReplyFault::Skipped) => return Err(ReplyFault::Skipped),
            Err(ReplyFault::NoMemory) => return Err(ReplyFault::NoMemory),
        }
    }
    Ok(text)
}

/// The lines of the readings of a local time.
pub(crate) fn convert_lines<F: ReplyZone, T: ReplyZone>(
    alloc: Global,
    from: &F,
    from_name: &str,
    to: &T,
    style: &Style<'_>,
    local: &PlainDateTime,
) -> Result<Vec<u8>, ReplyFault>
    ensures { IsReply (convert_lines style.now.form (F.view from.now) from_name.now (T.view to.now) style.now.name.now local.now) result }
{
    let mut text = Vec::new(alloc);
    match add_converted(&mut text, alloc, from, from_name, to, style, b"\n", local) {
        Ok(()) => {
            text.extend_from_slice(b"\n")?;
            Ok(text)
        }
        Err(ReplyFault::OutOfYears) => Err(ReplyFault::OutOfYears),
        Err(ReplyFault::Untold) => Err(ReplyFault::Untold),
        Err(ReplyFault::Skipped) => Err(ReplyFault::Skipped),
        Err(ReplyFault::NoMemory) => Err(ReplyFault::NoMemory),
    }
}

/// The date and the time of day of an instant at UTC. There are none exactly where that date lies outside the years.
#[tactic(auto, using(crate::proofs::UtcLemmas::at_utc))]
fn utc_of(at: &OffsetDateTime) -> Option<PlainDateTime>
    ensures has { is_some result ≡ is_in_years (instant at.now) }
    ensures value { IfSome result (λ local. local ≡ instant at.now) }
{
    match OffsetDateTime::from_unix_timestamp_nanos(at.unix_timestamp_nanos()) {
        Ok(utc) => Some(local_of(&utc)),
        Err(_) => None,
    }
}

/// The lines of the changes from an instant on and before another.
#[tactic(auto, unfolding(crate::specs::Replies::list_lines))]
pub(crate) fn list_lines<Z: ReplyZone>(
    alloc: Global,
    zone: &Z,
    style: &Style<'_>,
    from: &OffsetDateTime,
    to: &OffsetDateTime,
) -> Result<Vec<u8>, ReplyFault>
    ensures { IsReply (list_lines style.now.form (Z.view zone.now) style.now.name.now (instant from.now) (instant to.now)) result }
{
    let Some(from) = utc_of(from) else {
        return Err(ReplyFault::OutOfYears);
    };
    let Some(to) = utc_of(to) else {
        return Err(ReplyFault::OutOfYears);
    };
    let mut text = Vec::new(alloc);
    match add_list(&mut text, alloc, zone, style, &from, &to) {
        Ok(()) => Ok(text),
        Err(ReplyFault::OutOfYears) => Err(ReplyFault::OutOfYears),
        Err(ReplyFault::Untold) => Err(ReplyFault::Untold),
        Err(ReplyFault::Skipped) => Err(ReplyFault::Skipped),
        Err(ReplyFault::NoMemory) => Err(ReplyFault::NoMemory),
    }
}

/// The lines of the rings of an alarm.
pub(crate) fn ring_lines<Z: ReplyZone>(
    alloc: Global,
    zone: &Z,
    style: &Style<'_>,
    alarm: &Alarm,
) -> Result<Vec<u8>, ReplyFault>
    ensures { IsReply (rings_due style.now.form (Z.view zone.now) style.now.name.now (alarm_shown alarm.now)) result }
{
    let mut text = Vec::new(alloc);
    match add_rings(&mut text, alloc, zone, style, alarm) {
        Ok(()) => Ok(text),
        Err(ReplyFault::OutOfYears) => Err(ReplyFault::OutOfYears),
        Err(ReplyFault::Untold) => Err(ReplyFault::Untold),
        Err(ReplyFault::Skipped) => Err(ReplyFault::Skipped),
        Err(ReplyFault::NoMemory) => Err(ReplyFault::NoMemory),
    }
}
