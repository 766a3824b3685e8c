//! The answers to requests, by zones that are kept.
ghost use Rattle.std.specs.Prelude.{◌≡◌, map, true};
ghost use Rattle.civil_base.specs.DateTimes.{instant};
ghost use Rattle.zone_command.specs.{Answers.{told, IsAnswer}, Replies.{at_fault, on_zone}, Kept.{is_kept}, Streams.{at_answer, own_instant, readings_due}};
ghost use Rattle.zone_words.specs.TimesShown.{asked};
ghost use Rattle.zone_texts.specs.Instants.{at_due};

use crate::kept::KeptZones;
use crate::offset::offset_in;
use crate::readings::{at_told, convert_told, local_told};
use crate::source::{Refusal, ZoneSource};
use crate::words::refused;
use civil_base::{OffsetDateTime, PlainDateTime};
use std::alloc::Global;
use zone_texts::{FixedZone, ReplyZone, Style};
use zone_words::AskedInstant as Asked;

/// What a zone at hand shows at an instant.
fn at_kept<S: ZoneSource>(
    alloc: Global,
    kept: &KeptZones<'_, S>,
    style: &Style<'_>,
    at: &OffsetDateTime,
) -> Result<Vec<u8>, Refusal>
    requires { is_kept kept.now.zones style.now.name.now ≡ true }
    ensures { IsAnswer (on_zone (S.found kept.now.source.now) style.now.name.now (λ view.
        told style.now.name.now (at_due style.now.form view style.now.name.now (instant at.now)))) result }
{
    let name = style.name;
    match offset_in(name) {
        Some(offset) => at_told(alloc, &FixedZone { name, offset }, style, at),
        None => at_told(alloc, kept.zone(name), style, at),
    }
}

/// The readings of a local time in a zone at hand.
fn local_kept<S: ZoneSource>(
    alloc: Global,
    kept: &KeptZones<'_, S>,
    style: &Style<'_>,
    local: &PlainDateTime,
) -> Result<Vec<u8>, Refusal>
    requires { is_kept kept.now.zones style.now.name.now ≡ true }
    ensures { IsAnswer (on_zone (S.found kept.now.source.now) style.now.name.now (λ view.
        told style.now.name.now (readings_due style.now.form view style.now.name.now view style.now.name.now local.now))) result }
{
    let name = style.name;
    match offset_in(name) {
        Some(offset) => {
            let zone = FixedZone { name, offset };
            local_told(alloc, &zone, style, local)
        }
        None => local_told(alloc, kept.zone(name), style, local),
    }
}

/// The readings in a zone at hand of a local time in another.
fn convert_from<S: ZoneSource, F: ReplyZone>(
    alloc: Global,
    kept: &KeptZones<'_, S>,
    from: &F,
    from_name: &str,
    style: &Style<'_>,
    local: &PlainDateTime,
) -> Result<Vec<u8>, Refusal>
    requires { is_kept kept.now.zones style.now.name.now ≡ true }
    ensures { IsAnswer (on_zone (S.found kept.now.source.now) style.now.name.now (λ other.
        told (at_fault (F.view from.now) from_name.now style.now.name.now local.now) (readings_due style.now.form (F.view from.now) from_name.now other style.now.name.now local.now))) result }
{
    let name = style.name;
    match offset_in(name) {
        Some(offset) => {
            let to = FixedZone { name, offset };
            convert_told(alloc, from, from_name, &to, style, local)
        }
        None => convert_told(alloc, from, from_name, kept.zone(name), style, local),
    }
}

/// The readings in a zone at hand of a local time in one.
fn convert_kept<S: ZoneSource>(
    alloc: Global,
    kept: &KeptZones<'_, S>,
    from_name: &str,
    style: &Style<'_>,
    local: &PlainDateTime,
) -> Result<Vec<u8>, Refusal>
    requires from { is_kept kept.now.zones from_name.now ≡ true }
    requires to { is_kept kept.now.zones style.now.name.now ≡ true }
    ensures { IsAnswer (on_zone (S.found kept.now.source.now) from_name.now (λ view. on_zone (S.found kept.now.source.now) style.now.name.now (λ other.
        told (at_fault view from_name.now style.now.name.now local.now) (readings_due style.now.form view from_name.now other style.now.name.now local.now)))) result }
{
    match offset_in(from_name) {
        Some(offset) => {
            let from = FixedZone {
                name: from_name,
                offset,
            };
            convert_from(alloc, kept, &from, from_name, style, local)
        }
        None => convert_from(alloc, kept, kept.zone(from_name), from_name, style, local),
    }
}

/// The answer to `at` at an instant.
fn instant_answer<S: ZoneSource>(
    alloc: Global,
    kept: &mut KeptZones<'_, S>,
    style: &Style<'_>,
    time: &Asked,
) -> Result<Vec<u8>, Refusal>
    ensures source { kept.new.source.now ≡ kept.old.source.now }
    ensures answer { IsAnswer (own_instant (S.found kept.old.source.now) style.now.form style.now.name.now (asked time.now)) result }
{
    match time {
        Asked::At(at) => {
            kept.keep(alloc, style.name)?;
            at_kept(alloc, kept, style, at)
        }
        Asked::Now => Err(refused(
            alloc,
            b"\"now\": a request has an instant of its own, as @1729989000",
        )),
    }
}

/// The answer to `at`.
pub(crate) fn at_answer<S: ZoneSource>(
    alloc: Global,
    kept: &mut KeptZones<'_, S>,
    style: &Style<'_>,
    times: &[Asked],
) -> Result<Vec<u8>, Refusal>
    ensures source { kept.new.source.now ≡ kept.old.source.now }
    ensures answer { IsAnswer (at_answer (S.found kept.old.source.now) style.now.form style.now.name.now (map asked times.now)) result }
{
    match times {
        [] => Err(refused(alloc, b"a request has one instant")),
        [time] => instant_answer(alloc, kept, style, time),
        [_, _, ..] => Err(refused(alloc, b"a request has one instant")),
    }
}

/// The answer to `local`.
pub(crate) fn local_answer<S: ZoneSource>(
    alloc: Global,
    kept: &mut KeptZones<'_, S>,
    style: &Style<'_>,
    local: &PlainDateTime,
) -> Result<Vec<u8>, Refusal>
    ensures source { kept.new.source.now ≡ kept.old.source.now }
    ensures answer { IsAnswer (on_zone (S.found kept.old.source.now) style.now.name.now (λ view.
        told style.now.name.now (readings_due style.now.form view style.now.name.now view style.now.name.now local.now))) result }
{
    kept.keep(alloc, style.name)?;
    local_kept(alloc, kept, style, local)
}

/// The answer to `convert`.
pub(crate) fn convert_answer<S: ZoneSource>(
    alloc: Global,
    kept: &mut KeptZones<'_, S>,
    from_name: &str,
    style: &Style<'_>,
    local: &PlainDateTime,
) -> Result<Vec<u8>, Refusal>
    ensures source { kept.new.source.now ≡ kept.old.source.now }
    ensures answer { IsAnswer (on_zone (S.found kept.old.source.now) from_name.now (λ view. on_zone (S.found kept.old.source.now) style.now.name.now (λ other.
        told (at_fault view from_name.now style.now.name.now local.now) (readings_due style.now.form view from_name.now other style.now.name.now local.now)))) result }
{
    kept.keep(alloc, from_name)?;
    kept.keep(alloc, style.name)?;
    convert_kept(alloc, kept, from_name, style, local)
}
